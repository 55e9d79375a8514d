//! Events that stand in lines.

ghost use Rattle.wef_lines.specs.Documents as documents;
ghost use Rattle.wef_replay_values.specs.Reading.{Gives};

use wef_base::Text;
use wef_event::{Event, read_new_event};
use wef_replay_values::values::LineFault;

/// The event that a text says, with a number or without one.
pub(crate) fn new_event_in(text: &Text) -> Result<Event, LineFault>
    ensures { Gives result (documents.new_event_in text.now) }
{
    match read_new_event(text) {
        Ok(event) => Ok(event),
        Err(fault) => Err(LineFault::from(fault)),
    }
}
