//! Sessions that collectors begin.

ghost use Rattle.std.specs.Prelude.{◌≡◌, ◌≤◌, None, IfOk, IfErr};
ghost use Rattle.wef_building.specs.Refusals.{WantsMemory};
ghost use Rattle.wef_eventing.specs.Addresses.{subscription_in};
ghost use Rattle.wef_ids.specs.IdTexts.{id_text};
ghost use Rattle.wef_source.specs.Answers.{IsBegun};
ghost use Rattle.wef_source.specs.Machine as machine;
ghost use Rattle.wef_source.specs.Serving.{CanBeAccepted, CanBeServed, CanBeTold, longest_lease};

use crate::adopting::session_from;
use crate::messages::Accepted;
use std::alloc::{AllocError, Global};
use wef_base::moments::Moment;
use wef_building::{Lease, Session, SourceFault, copied};
use wef_eventing::{Subscribe, subscription_in};
use wef_ids::id_text;

/// How long a session stands, in milliseconds, where its collector doesn't say.
const HOUR: u64 = 3_600_000;

/// The session that a collector begins at a moment, with an id's text as its identifier, and what the
/// collector is answered.
pub fn begun(
    alloc: Global,
    id: u128,
    subscribe: &Subscribe,
    now: Moment,
) -> Result<(Session, Accepted), SourceFault>
    requires { CanBeAccepted subscribe.now }
    ensures session { IfOk result (λ begun. IsBegun now subscribe.now id (subscription_in subscribe.now.notify_to) begun.0) }
    ensures answer { IfOk result (λ begun. begun.1 ≡ record { identifier = id_text id; expires = machine.lease_time subscribe.now.expires }) }
    ensures served { IfOk result (λ begun. CanBeServed begun.0) }
    ensures idle { IfOk result (λ begun. begun.0.outstanding ≡ None) }
    ensures refusal { IfErr result WantsMemory }
{
    let Some(name) = subscription_in(&subscribe.notify_to)? else {
        unreachable!();
    };
    let mut session = session_from(alloc, subscribe, name, now)?;
    let (lease, accepted) = leased(alloc, id, subscribe, now)?;
    session.lease = Some(lease);
    Ok((session, accepted))
}

/// The lease that is given at a moment, and what the collector is answered.
fn leased(
    alloc: Global,
    id: u128,
    subscribe: &Subscribe,
    now: Moment,
) -> Result<(Lease, Accepted), AllocError>
    requires { CanBeAccepted subscribe.now }
    ensures lease { IfOk result (λ leased. leased.0 ≡ machine.lease_of id subscribe.now now) }
    ensures answer { IfOk result (λ leased. leased.1 ≡ record { identifier = id_text id; expires = machine.lease_time subscribe.now.expires }) }
    ensures told { IfOk result (λ leased. CanBeTold leased.0) }
{
    let lease = lease_of(alloc, id, subscribe, now)?;
    let accepted = Accepted {
        identifier: lease.identifier.clone()?,
        expires: lease_time(subscribe),
    };
    Ok((lease, accepted))
}

fn lease_of(
    alloc: Global,
    id: u128,
    subscribe: &Subscribe,
    now: Moment,
) -> Result<Lease, AllocError>
    requires { CanBeAccepted subscribe.now }
    ensures lease { IfOk result (λ lease. lease ≡ machine.lease_of id subscribe.now now) }
    ensures told { IfOk result CanBeTold }
{
    let identifier = id_text(alloc, id)?;
    Ok(Lease {
        identifier,
        expiry: now.milliseconds() + lease_time(subscribe),
        end_to: copied(&subscribe.end_to)?,
    })
}

/// How long a session stands that a collector begins, in milliseconds.
fn lease_time(subscribe: &Subscribe) -> u64
    requires { CanBeAccepted subscribe.now }
    ensures value { result ≡ machine.lease_time subscribe.now.expires }
    ensures bound { result ≤ longest_lease }
{
    match subscribe.expires {
        Some(expires) => expires,
        None => HOUR,
    }
}
