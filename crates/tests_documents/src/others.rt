//! The texts that differ from a text in one character: another one stands in its place, or one more
//! before it, or it is taken out.

use crate::seen::is_read_so;
use std::alloc::AllocError;
use wef_base::Text;
use wef_event::recognised;

/// The characters that stand in place of others, or between them.
const CHARACTERS: &[&str] = &[
    "<",
    ">",
    "&",
    "\"",
    "'",
    " ",
    "/",
    "=",
    ":",
    ";",
    "x",
    "X",
    "0",
    "-",
    "\t",
    "\n",
    "\r",
    "\u{1}",
    "\u{7f}",
    "é",
    "\u{fffe}",
    "\u{fffd}",
    "\u{ffff}",
    "\u{10fffe}",
];

/// How many others there are, how many of them are seen to be events, and how many of these are read
/// the long way as something else.
#[derive(Drop)]
pub(crate) struct Counts {
    pub(crate) all: u64,
    pub(crate) seen: u64,
    pub(crate) wrong: u64,
}

pub(crate) fn count_others(text: &Text) -> Result<Counts, AllocError> {
    let mut counts = Counts {
        all: 0,
        seen: 0,
        wrong: 0,
    };
    let whole = text.as_str();
    for (place, character) in whole.char_indices() {
        let Some((front, rest)) = whole.split_at_checked(place) else {
            continue;
        };
        let Some((_, behind)) = rest.split_at_checked(character.len_utf8()) else {
            continue;
        };
        count(&mut counts, text, front, "", behind)?;
        for &other in CHARACTERS {
            count(&mut counts, text, front, other, behind)?;
            count(&mut counts, text, front, other, rest)?;
        }
    }
    Ok(counts)
}

fn count(
    counts: &mut Counts,
    text: &Text,
    front: &str,
    middle: &str,
    behind: &str,
) -> Result<(), AllocError> {
    let mut other = Text::from_str(text.alloc(), front)?;
    other.push_str(middle)?;
    other.push_str(behind)?;
    if other == *text {
        return Ok(());
    }
    counts.all = counts.all.saturating_add(1);
    if let Some(label) = recognised(other.as_str()) {
        counts.seen = counts.seen.saturating_add(1);
        if !is_read_so(&other, &label)? {
            counts.wrong = counts.wrong.saturating_add(1);
        }
    }
    Ok(())
}
