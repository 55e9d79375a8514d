//! What a session sends next, made.

ghost use Rattle.std.specs.Prelude.{◌≡◌, IfOk};
ghost use Rattle.wef_ids.specs.IdTexts.{id_of_value};
ghost use Rattle.wef_source.specs.Prepared.{poll_of};

use crate::messages::{Delivery, Poll};
use std::alloc::{AllocError, Global};
use wef_batch::Batch;
use wef_building::{Session, copied_address};
use wef_heartbeat::Heartbeat;
use wef_ids::MessageId;

/// What a session sends next.
pub enum Outgoing {
    Batch(Delivery),
    Beat(Heartbeat),
}

/// One call for whoever lets it go, whichever it is.
impl Drop for Outgoing {
    fn drop(self) {
        match self {
            Outgoing::Batch(_) | Outgoing::Beat(_) => {}
        }
    }
}

impl Outgoing {
    /// What a poll answers that sends this.
    pub fn into_poll(self) -> Poll
        ensures { result ≡ poll_of self }
    {
        match self {
            Outgoing::Batch(delivery) => Poll::Send(delivery),
            Outgoing::Beat(beat) => Poll::Beat(beat),
        }
    }
}

/// The delivery of a batch to a session, under an id.
pub fn delivery_under(
    alloc: Global,
    session: &Session,
    id: u128,
    batch: Batch,
) -> Result<Delivery, AllocError>
    ensures { IfOk result (λ delivery. delivery ≡ record {
      id = id_of_value id;
      notify_to = session.now.notify_to;
      identifier = session.now.identifier;
      batch = batch;
    }) }
{
    let id = MessageId::of_value(alloc, id)?;
    let (notify_to, identifier) = copied_address(&session.notify_to, &session.identifier)?;
    Ok(Delivery {
        id,
        notify_to,
        identifier,
        batch,
    })
}

/// The heartbeat of a session, under an id.
pub fn beat_under(alloc: Global, session: &Session, id: u128) -> Result<Heartbeat, AllocError>
    ensures { IfOk result (λ beat. beat ≡ record {
      id = id_of_value id;
      notify_to = session.now.notify_to;
      identifier = session.now.identifier;
    }) }
{
    let id = MessageId::of_value(alloc, id)?;
    let (notify_to, identifier) = copied_address(&session.notify_to, &session.identifier)?;
    Ok(Heartbeat {
        id,
        notify_to,
        identifier,
    })
}
