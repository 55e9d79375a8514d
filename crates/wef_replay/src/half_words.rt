//! Words of a batch before their events are made.

ghost use Rattle.std.specs.Prelude.{◌≡◌, ◌≤◌};
ghost use Rattle.wef_base.specs.declared.numbers.TheConstants.{MAX};

use crate::batches::BatchWord;
use wef_batch::Item;
use wef_event::PlainEvent;
use wef_replay_values::values::LineFault;

/// What one word of a batch says, before its event is made.
pub(crate) enum HalfWord {
    Event(NumberedEvent),
    Other(BatchWord),
}

/// One call for whoever lets a word go, whatever it says.
impl Drop for HalfWord {
    fn drop(self) {
        match self {
            HalfWord::Event(_) | HalfWord::Other(_) => {}
        }
    }
}

/// A plain event with its number, before its text is made.
#[derive(Drop)]
pub(crate) struct NumberedEvent {
    pub event: PlainEvent,
    pub number: u64,
    pub ghost within: { number ≤ MAX },
}

impl HalfWord {
    ghost use Rattle.std.specs.Prelude.{is_some};
    ghost use Rattle.wef_replay.specs.Pieces.{whole};
    ghost use Rattle.wef_replay_values.specs.Reading.{Gives};

    /// Whether the event fits, where the word says one.
    pub fn fits(&self) -> bool
        ensures { result ≡ is_some (whole self.now) }
    {
        match self {
            HalfWord::Event(said) => said.event.fits(said.number),
            HalfWord::Other(_) => true,
        }
    }

    /// The word with its event.
    pub fn into_word(self) -> Result<BatchWord, LineFault>
        ensures { Gives result (whole self) }
    {
        match self {
            HalfWord::Event(said) => Ok(BatchWord::Item(Item::Event(
                said.event.numbered(said.number)?,
            ))),
            HalfWord::Other(word) => Ok(word),
        }
    }
}
