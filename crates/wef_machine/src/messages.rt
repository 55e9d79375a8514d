//! The messages that the ends send each other.

use wef_base::{List, SourceName, Text};
use wef_bodies::Body;
use wef_collector::Response;
use wef_eventing::Offer;
use wef_heartbeat::Heartbeat;
use wef_ids::{FaultName, MessageId};
use wef_source::{Delivery, EndNote};

/// A message. Each is from or to a source; the other end is the collector. `id` is its own, drawn by
/// the end that sends it, and `relates` the id of the request that it answers.
#[derive(Debug)]
pub enum Message {
    /// The source asks for its subscriptions.
    Ask {
        source: SourceName,
        id: MessageId,
    },

    /// The collector's answer to an ask.
    Offers {
        source: SourceName,
        id: MessageId,
        relates: MessageId,
        offers: List<Offer>,
    },

    /// A batch of the source.
    Events {
        source: SourceName,
        delivery: Delivery,
    },

    /// A heartbeat of the source, which has nothing to send.
    Beat {
        source: SourceName,
        beat: Heartbeat,
    },

    /// The collector's answer that it kept a batch, or heard a heartbeat.
    Ack {
        source: SourceName,
        id: MessageId,
        relates: MessageId,
    },

    /// The collector's answer that it didn't take what the source sent.
    Fault {
        source: SourceName,
        id: MessageId,
        relates: MessageId,
        name: FaultName,
    },

    /// The collector asks the source to begin to send, to go on or to end; where it is about a
    /// session, with the name that the source gave this.
    Request {
        source: SourceName,
        id: MessageId,
        identifier: Option<Text>,
        body: Body,
    },

    /// The source's answer to such a request.
    Response {
        source: SourceName,
        id: MessageId,
        relates: MessageId,
        response: Response,
    },

    /// The source tells that a session ended which the collector began.
    Ended {
        source: SourceName,
        note: EndNote,
    },
}

/// One call for whoever lets a message go, whatever it holds.
impl Drop for Message {
    fn drop(self) {
        match self {
            Message::Ask { source: _, id: _ } => {}
            Message::Offers {
                source: _,
                id: _,
                relates: _,
                offers: _,
            } => {}
            Message::Events {
                source: _,
                delivery: _,
            } => {}
            Message::Beat { source: _, beat: _ } => {}
            Message::Ack {
                source: _,
                id: _,
                relates: _,
            } => {}
            Message::Fault {
                source: _,
                id: _,
                relates: _,
                name: _,
            } => {}
            Message::Request {
                source: _,
                id: _,
                identifier: _,
                body: _,
            } => {}
            Message::Response {
                source: _,
                id: _,
                relates: _,
                response: _,
            } => {}
            Message::Ended { source: _, note: _ } => {}
        }
    }
}
