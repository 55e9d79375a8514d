//! The lines of a schedule, as values.

use crate::spelled::SpelledBatch;
use wef_base::{ChannelName, SourceName, SubId};
use wef_event::{Event, PlainEvent};
use wef_query::QueryList;
use wef_replay_values::EndName;

/// What one line of a schedule does. An empty line and a comment do nothing, and are no line here.
#[derive(Debug)]
pub enum Line {
    /// Adds a subscription that sources ask for.
    Subscribe {
        sub: SubId,
        items: u32,
        bytes: u32,
        beat: u64,
        query: QueryList,
    },

    /// Adds a subscription that the collector begins at a source.
    SubscribeAt {
        sub: SubId,
        source: SourceName,
        items: u32,
        bytes: u32,
        beat: u64,
        expires: u64,
        query: QueryList,
    },

    /// Ends a subscription.
    End {
        sub: SubId,
    },

    /// Gives a foreign source's batch to the collector.
    Batch {
        sub: SubId,
        source: SourceName,
        batch: SpelledBatch,
    },

    /// Declares a source, whose log keeps so many records a channel.
    Source {
        source: SourceName,
        capacity: u64,
    },

    /// Writes an event into a source's log.
    Write {
        source: SourceName,
        event: PlainEvent,
    },

    /// Writes an event into a source's log, which gives it a number in place of the one that it may
    /// have.
    WriteXml {
        source: SourceName,
        event: Event,
    },

    /// Lets a source ask the collector for its subscriptions.
    Ask {
        source: SourceName,
    },

    /// Lets a source send what its session of a subscription has to send.
    Poll {
        source: SourceName,
        sub: SubId,
    },

    /// Delivers a message, by its number. Where it is `seen`, what it says is printed first.
    Deliver {
        number: u64,
        seen: bool,
    },

    /// Delivers the message that so many messages, counted round, came behind.
    Back {
        number: u64,
    },

    /// Lets the collector send the next request to a source that is due.
    Request,

    /// Lets the collector wait for no answer any longer.
    Forget,

    /// Lets a source give up waiting for the answer to a session's delivery.
    Lost {
        source: SourceName,
        sub: SubId,
    },

    /// Lets a source end the sessions that the collector began.
    Shut {
        source: SourceName,
    },

    /// Prints the report.
    Show,

    /// Prints the events that are held of a channel.
    Print {
        sub: SubId,
        source: SourceName,
        channel: ChannelName,
    },

    /// Prints which sources of a subscription are silent.
    Status {
        sub: SubId,
    },

    /// Closes an end, which loses what it remembers.
    Crash {
        end: EndName,
    },

    /// Lets the next commit of an end fail, with its changes kept (`after`) or not kept.
    Fail {
        end: EndName,
        after: bool,
    },

    /// Lets an end be stopped in its next commit, with its changes kept (`after`) or not kept.
    Stop {
        end: EndName,
        after: bool,
    },

    /// Takes back what `Fail` and `Stop` lines armed.
    Calm,

    /// Moves the moment on.
    Tick {
        milliseconds: u64,
    },

    /// Lets all sources ask, the collector request what is due, and all sources send, each message
    /// delivered as it is sent, until nothing is left.
    Settle,
}

/// One call for whoever lets a line go, whatever it holds.
impl Drop for Line {
    fn drop(self) {
        match self {
            Line::Subscribe {
                sub: _,
                items: _,
                bytes: _,
                beat: _,
                query: _,
            } => {}
            Line::SubscribeAt {
                sub: _,
                source: _,
                items: _,
                bytes: _,
                beat: _,
                expires: _,
                query: _,
            } => {}
            Line::End { sub: _ } => {}
            Line::Batch {
                sub: _,
                source: _,
                batch: _,
            } => {}
            Line::Source {
                source: _,
                capacity: _,
            } => {}
            Line::Write {
                source: _,
                event: _,
            } => {}
            Line::WriteXml {
                source: _,
                event: _,
            } => {}
            Line::Ask { source: _ } => {}
            Line::Poll { source: _, sub: _ } => {}
            Line::Deliver { number: _, seen: _ } => {}
            Line::Back { number: _ } => {}
            Line::Lost { source: _, sub: _ } => {}
            Line::Shut { source: _ } => {}
            Line::Print {
                sub: _,
                source: _,
                channel: _,
            } => {}
            Line::Status { sub: _ } => {}
            Line::Crash { end: _ } => {}
            Line::Fail { end: _, after: _ } => {}
            Line::Stop { end: _, after: _ } => {}
            Line::Tick { milliseconds: _ } => {}
            Line::Request | Line::Forget | Line::Show | Line::Calm | Line::Settle => {}
        }
    }
}
