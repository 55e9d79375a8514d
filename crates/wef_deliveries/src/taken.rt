//! What became of a message at its end.

ghost use Rattle.std.specs.Prelude.{◌≡◌, IfOk};
ghost use Rattle.wef_deliveries.specs.Outcomes as outcomes;

use std::alloc::{AllocError, Global};
use wef_base::Text;
use wef_machine::Fate;
use wef_messages::messages::Sent;
use wef_printing::printing::fate_word;

/// What an end makes of a message.
#[derive(Drop)]
pub struct Taken {
    /// The word that is printed for it.
    pub word: Text,
    /// The answer, where there is one.
    pub answer: Option<Sent>,
}

/// What an end makes of a message that it doesn't answer.
#[derive(Drop)]
pub struct Told {
    /// The word that is printed for it.
    pub word: Text,
    /// Whether a session goes on by it, or a lease stands.
    pub moves: bool,
}

/// What an end that can't be opened makes of a message.
pub(crate) fn closed(alloc: Global, fate: Fate) -> Result<Taken, AllocError>
    ensures { IfOk result (λ taken. taken ≡ outcomes.closed_of fate) }
{
    Ok(Taken {
        word: Text::from_str(alloc, fate_word(fate))?,
        answer: None,
    })
}
