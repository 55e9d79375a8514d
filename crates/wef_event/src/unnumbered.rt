//! Events of plain words that no log has numbered yet.

ghost use Rattle.std.specs.Prelude.{◌≡◌, ◌≤◌, true, is_some, IfOk};
ghost use Rattle.wef_base.specs.Characters.{is_xml_text};
ghost use Rattle.wef_base.specs.declared.numbers.TheConstants.{MAX};

use crate::lengths::{decimal_length, escaped_length};
use crate::plain::{EVENT_LIMIT, plain_event};
use crate::records::{Event, EventFault};
use std::alloc::AllocError;
use wef_base::{ChannelName, Text};

/// The bytes of the text of an event that stand round its numbers, its channel and its word.
const FRAME: usize = 214;

/// An event of a channel, of an identifier, a level and one word of data, before a log gives it its
/// number. XML allows each character of the word.
#[derive(Debug, Drop)]
pub struct PlainEvent {
    pub channel: ChannelName,
    pub id: u32,
    pub level: u32,
    pub word: Text,
    pub ghost characters: { is_xml_text word ≡ true },
}

impl PlainEvent {
    ghost use Rattle.wef_event.specs.PlainEvent.{MakesEvent};
    ghost use Rattle.wef_event.specs.Unnumbered.{new_event, plain_numbered};

    /// The event before it has a number, which is 0 there. `TooLong` where its text has more than
    /// `EVENT_LIMIT` bytes.
    pub fn to_event(&self) -> Result<Event, EventFault>
        ensures value { IfOk result (λ event. event ≡ new_event self.now) }
        ensures made { MakesEvent result (plain_numbered self.now 0) }
    {
        self.numbered(0)
    }

    /// The event with its number. `TooLong` where its text has more than `EVENT_LIMIT` bytes.
    pub fn numbered(&self, number: u64) -> Result<Event, EventFault>
        requires { number ≤ MAX }
        ensures { MakesEvent result (plain_numbered self.now number) }
    {
        plain_event(&self.channel, number, self.id, self.level, &self.word)
    }

    /// Whether the event has a text that isn't too long, with this number. It takes no memory.
    pub fn fits(&self, number: u64) -> bool
        ensures { result ≡ is_some (plain_numbered self.now number) }
    {
        let Some(channel) = escaped_length(self.channel.as_text(), EVENT_LIMIT) else {
            return false;
        };
        let Some(word) = escaped_length(&self.word, EVENT_LIMIT) else {
            return false;
        };
        let id = decimal_length(u64::from(self.id));
        let level = decimal_length(u64::from(self.level));
        FRAME + id + level + decimal_length(number) + channel + word <= EVENT_LIMIT
    }

    /// A copy of the event, which shares its texts.
    pub fn clone(&self) -> Result<PlainEvent, AllocError>
        ensures { IfOk result (λ copy. copy ≡ self.now) }
    {
        Ok(PlainEvent {
            channel: self.channel.clone()?,
            id: self.id,
            level: self.level,
            word: self.word.clone()?,
        })
    }
}
