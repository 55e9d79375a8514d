//! What a source sends, and what it is answered.

use wef_base::Text;
use wef_batch::Batch;
use wef_eventing::EndStatus;
use wef_heartbeat::Heartbeat;
use wef_ids::{FaultName, MessageId};

/// A batch on its way to the collector.
#[derive(Debug)]
pub struct Delivery {
    pub id: MessageId,
    /// Where it goes.
    pub notify_to: Text,
    pub identifier: Option<Text>,
    pub batch: Batch,
}

/// One call for whoever lets a delivery go, whatever it holds.
impl Drop for Delivery {
    fn drop(self) {
        match self {
            Delivery {
                id: _,
                notify_to: _,
                identifier: _,
                batch: _,
            } => {}
        }
    }
}

/// What a collector is answered that began a session.
#[derive(Debug, Drop)]
pub struct Accepted {
    /// What it names the session by.
    pub identifier: Text,
    /// How long the session stands, in milliseconds.
    pub expires: u64,
}

/// What a collector is told of a session that it began, as its source ends it.
#[derive(Debug)]
pub struct EndNote {
    pub id: MessageId,
    /// Where it goes.
    pub end_to: Text,
    /// What the collector names the session by.
    pub identifier: Text,
    pub status: EndStatus,
}

/// One call for whoever lets a note go, whatever it holds.
impl Drop for EndNote {
    fn drop(self) {
        match self {
            EndNote {
                id: _,
                end_to: _,
                identifier: _,
                status: _,
            } => {}
        }
    }
}

/// What a session has to send.
#[derive(Debug, Drop)]
pub enum Poll {
    /// The events that the session has not sent yet, as many as a batch may have.
    Send(Delivery),
    /// Nothing but that the source is there, which it has to say now.
    Beat(Heartbeat),
    Nothing,
}

/// The answer to a delivery or a heartbeat.
#[derive(Debug)]
pub enum Reply {
    /// The batch is kept, or the source was heard.
    Ack,
    Fault(FaultName),
}

/// One call for whoever lets a reply go, whatever it holds.
impl Drop for Reply {
    fn drop(self) {
        match self {
            Reply::Fault(_) | Reply::Ack => {}
        }
    }
}

/// What an answer did to its session.
#[derive(Clone, Copy, Debug, PartialEq, Eq)]
pub enum Moved {
    /// The session goes on behind the batch; behind a heartbeat that is where it was.
    Moved,
    /// What was sent was refused, and the session goes on where it was.
    Refused,
}
