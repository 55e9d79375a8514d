//! What a source answers to a request of the collector, and what that makes of the lease.

ghost use Rattle.std.specs.Prelude.{◌≡◌, ◌≤◌, IfOk, IfSome};
ghost use Rattle.wef_collector.specs.Responses as spec;
ghost use Rattle.wef_collector_leases.specs.Leases.{IsXmlWish};
ghost use Rattle.wef_times.specs.declared.durations.TheConstants.{LIMIT};
ghost use Rattle.wef_xml.specs.Good.{IsXmlText};

use std::alloc::AllocError;
use wef_base::Text;
use wef_base::moments::Moment;
use wef_collector_leases::{Lease, Wants};
use wef_ids::FaultName;

/// What a source answers to a request of the collector. Times are in milliseconds.
#[derive(Debug)]
pub enum Response {
    /// It sends from now on, for so long, in a session that it names so.
    Subscribed { identifier: Text, expires: u64 },
    /// It goes on for so long from now.
    Renewed { expires: u64 },
    /// It sends no more.
    Unsubscribed,
    /// It refuses.
    Fault(FaultName),
}

/// One call for whoever lets an answer go, whatever it holds.
impl Drop for Response {
    fn drop(self) {
        match self {
            Response::Subscribed {
                identifier: _,
                expires: _,
            }
            | Response::Renewed { expires: _ }
            | Response::Unsubscribed
            | Response::Fault(_) => {}
        }
    }
}

impl Response {
    /// What the collector makes of it, where a request waits for it.
    pub fn answered(&self) -> Answered
        ensures { result ≡ spec.answered_of self.now }
    {
        match self {
            Response::Subscribed { .. } | Response::Renewed { .. } => Answered::Leased,
            Response::Unsubscribed | Response::Fault(_) => Answered::Cleared,
        }
    }
}

/// What became of a request with the answer to it.
#[derive(Clone, Copy, Debug, PartialEq, Eq)]
pub enum Answered {
    /// The source sends: there is a lease from now on.
    Leased,
    /// It doesn't begin, or doesn't go on: there is no lease any more, or none more than before.
    Cleared,
}

/// What an answer makes of the lease.
#[derive(Debug, Drop)]
pub enum Leasing {
    /// It becomes this one.
    Leases(Lease),
    /// It ends.
    Clears,
    /// It stays as it is.
    Stays,
}

/// What an answer makes of the wish that it answers. None where it is no answer to that.
pub(crate) fn leasing_of(
    response: &Response,
    wants: &Wants,
    now: Moment,
) -> Result<Option<Leasing>, AllocError>
    requires taken { spec.CanBeTaken response.now }
    requires wish { IsXmlWish wants.now }
    ensures leasing { IfOk result (λ leasing. leasing ≡ spec.leasing_of response.now wants.now now) }
    ensures kept { IfOk result (λ leasing. IfSome leasing spec.CanBeKept) }
{
    match (response, wants) {
        (
            Response::Subscribed {
                identifier,
                expires,
            },
            Wants::Subscribes,
        ) => Ok(Some(leased(identifier, *expires, now)?)),
        (Response::Renewed { expires }, Wants::Renews { identifier }) => {
            Ok(Some(leased(identifier, *expires, now)?))
        }
        (Response::Unsubscribed, Wants::Unsubscribes { .. }) => Ok(Some(Leasing::Clears)),
        (Response::Fault(_), Wants::Subscribes) => Ok(Some(Leasing::Stays)),
        (Response::Fault(_), _) => Ok(Some(Leasing::Clears)),
        _ => Ok(None),
    }
}

/// A lease from now on, for so many milliseconds.
fn leased(identifier: &Text, expires: u64, now: Moment) -> Result<Leasing, AllocError>
    requires text { IsXmlText identifier.now }
    requires within { expires ≤ LIMIT }
    ensures leasing { IfOk result (λ leasing. leasing ≡ spec.leased now expires identifier.now) }
    ensures kept { IfOk result spec.CanBeKept }
{
    Ok(Leasing::Leases(Lease {
        identifier: identifier.clone()?,
        expiry: now.milliseconds() + expires,
    }))
}
