//! A record of a channel.

ghost use Rattle.std.specs.Prelude.{◌≡◌, IfOk};

use std::alloc::AllocError;
use std::marker::Model;
use thiserror::Error;
use wef_base::{ChannelName, Text};

/// Why there is no event.
#[derive(Clone, Copy, Debug, PartialEq, Eq, Error)]
pub enum EventFault {
    #[error("no memory")]
    NoMemory,
    /// The text is no document, by the byte where its fault is, or its root isn't called Event, which
    /// is a fault at byte 0.
    #[error("no event: a fault at byte {at}")]
    BadEvent { at: usize },
    #[error("the event has no channel")]
    NoChannel,
    #[error("the event has no record number")]
    NoRecordId,
    #[error("the event is too long")]
    TooLong,
}

impl From<AllocError> for EventFault {
    ghost use Rattle.std.specs.Prelude.{◌≡◌};
    ghost use Rattle.wef_event.specs.declared.records.EventFault.TheVariants.{NoMemory};

    ghost from_gives = { λ _ e. e ≡ NoMemory };

    fn from(_error: AllocError) -> EventFault {
        EventFault::NoMemory
    }
}

/// A record: its text, and the channel and the number that the text says. Whoever makes one proves
/// that they belong together.
#[derive(Debug)]
pub struct Event {
    pub channel: ChannelName,
    /// From 1 to 2^63 - 1, or 0 where the event says none.
    pub number: u64,
    /// The one text of a tree, of at most 1,048,576 bytes (`EVENT_LIMIT`).
    pub text: Text,
}

/// One call for whoever lets an event go, whatever it holds.
impl Drop for Event {
    fn drop(self) {
        match self {
            Event {
                channel: _,
                number: _,
                text: _,
            } => {}
        }
    }
}

impl Model for Event {
    ghost use Rattle.wef_event.specs.Events as events;

    ghost Value = { events.Event };

    ghost view = { λ e. record { channel = e.channel; number = e.number; text = e.text } };

    ghost invariant = { λ e. events.HasTree (record { channel = e.channel; number = e.number; text = e.text }) };
}

impl Event {
    /// The channel, the number and the text.
    pub fn into_parts(self) -> (ChannelName, u64, Text)
        ensures { result ≡ (self.channel, self.number, self.text) }
    {
        let Event {
            channel,
            number,
            text,
        } = self;
        (channel, number, text)
    }

    /// A copy of the event, which shares its texts.
    pub fn clone(&self) -> Result<Event, AllocError>
        ensures { IfOk result (λ copy. copy ≡ self.now) }
    {
        Ok(Event {
            channel: self.channel.clone()?,
            number: self.number,
            text: self.text.clone()?,
        })
    }
}
