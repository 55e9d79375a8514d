//! The event that a source makes of plain words.

ghost use Rattle.std.specs.Prelude.{◌≡◌, ◌≤◌, [], IsTrue, IfOk};
ghost use Rattle.wef_base.specs.Characters.{is_xml_text};
ghost use Rattle.wef_base.specs.declared.numbers.TheConstants.{MAX};
ghost use Rattle.wef_event.specs.PlainEvent.{plain_event, plain_text, MakesEvent};

use crate::characters::push_escaped;
use crate::records::{Event, EventFault};
use std::alloc::{AllocError, Global};
use wef_base::{ChannelName, Text};

/// The most bytes that the text of an event has: 1 MiB.
pub const EVENT_LIMIT: usize = 1_048_576;

/// The event of a channel with a number, an identifier, a level and one word of data. `TooLong`
/// where its text has more than `EVENT_LIMIT` bytes.
pub fn plain_event(
    channel: &ChannelName,
    number: u64,
    id: u32,
    level: u32,
    word: &Text,
) -> Result<Event, EventFault>
    requires characters { IsTrue (is_xml_text word.now) }
    requires small { number ≤ MAX }
    ensures { MakesEvent result (plain_event channel.now number id level word.now) }
{
    let name = channel.as_text().as_str();
    let text = plain_text(word.alloc(), name, number, id, level, word.as_str())?;
    if text.len() > EVENT_LIMIT {
        return Err(EventFault::TooLong);
    }
    Ok(Event {
        channel: channel.clone()?,
        number,
        text,
    })
}

/// The bytes of a plain event's text beside its channel and its word, where its numbers have as many
/// digits as they can.
const FRAME: usize = 253;

/// The room that a plain event's text takes, where nothing has to be escaped.
fn room_for(channel: &str, word: &str) -> usize {
    FRAME
        .saturating_add(channel.len())
        .saturating_add(word.len())
}

/// An empty text with room for so many bytes.
fn empty_text(alloc: Global, room: usize) -> Result<Text, AllocError>
    ensures { IfOk result (λ text. text ≡ []) }
{
    Text::from_string(String::with_capacity(alloc, room)?)
}

fn plain_text(
    alloc: Global,
    channel: &str,
    number: u64,
    id: u32,
    level: u32,
    word: &str,
) -> Result<Text, AllocError>
    ensures { IfOk result (λ text. text ≡ plain_text channel.now number id level word.now) }
{
    let mut text = empty_text(alloc, room_for(channel, word))?;
    text.push_str(
        "<Event xmlns=\"http://schemas.microsoft.com/win/2004/08/events/event\"><System><EventID>",
    )?;
    text.push_number(u64::from(id))?;
    text.push_str("</EventID><Level>")?;
    text.push_number(u64::from(level))?;
    text.push_str("</Level><EventRecordID>")?;
    text.push_number(number)?;
    text.push_str("</EventRecordID><Channel>")?;
    push_escaped(&mut text, channel)?;
    text.push_str("</Channel></System><EventData><Data>")?;
    push_escaped(&mut text, word)?;
    text.push_str("</Data></EventData></Event>")?;
    Ok(text)
}
