//! Names whose texts are shared.

ghost use Rattle.std.specs.Prelude.{◌≡◌, encode_utf8_all, IfOk};

use crate::names::spells;
use std::alloc::{AllocError, Global};
use wef_base::Text;

/// How many texts are kept at once.
const SLOTS: usize = 64;

/// Texts of names that stood in a document, so that a name which comes again shares the text. Each
/// has one slot to stand in, and of those with the same slot the last is kept: so it takes as much
/// time as reading the name does, and no more memory than the names.
#[derive(Drop)]
pub struct Names {
    alloc: Global,
    slots: Vec<Text>,
}

impl Names {
    /// No names yet.
    pub fn new(alloc: Global) -> Result<Names, AllocError> {
        let mut slots = Vec::with_capacity(alloc, SLOTS)?;
        for _slot in 0..SLOTS {
            slots.push(Text::new(alloc))?;
        }
        Ok(Names { alloc, slots })
    }

    /// The text of a name, or of a part of it. An empty one takes no memory.
    pub fn text(&mut self, characters: &[char]) -> Result<Text, AllocError>
        ensures { IfOk result (λ text. text ≡ encode_utf8_all characters.now) }
    {
        let alloc = self.alloc;
        match self.slots.get_mut(slot_of(characters)) {
            Some(slot) if !characters.is_empty() => text_in(alloc, slot, characters),
            _ => Text::from_chars(alloc, characters),
        }
    }
}

/// Where the text of a name may stand. Names of one document mostly differ in their first letter, in
/// their last or in their length.
fn slot_of(characters: &[char]) -> usize {
    match (characters.first(), characters.last()) {
        (Some(&first), Some(&last)) => {
            (u32::from(first) as usize * 7
                + u32::from(last) as usize * 3
                + characters.len() % SLOTS)
                % SLOTS
        }
        _ => 0,
    }
}

/// The text of a name, which is found in its slot or put there.
fn text_in(alloc: Global, slot: &mut Text, characters: &[char]) -> Result<Text, AllocError>
    ensures { IfOk result (λ text. text ≡ encode_utf8_all characters.now) }
{
    if !spells(characters, slot) {
        *slot = Text::from_chars(alloc, characters)?;
    }
    slot.clone()
}
