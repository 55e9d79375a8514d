//! What a subscription that the collector begins wants of a source at a moment, by the lease that
//! stands.

ghost use Rattle.std.specs.Prelude.{◌≡◌};
ghost use Rattle.wef_collector_leases.specs.Due as spec;

use crate::leases::{Lease, Wants};
use wef_base::moments::Moment;

/// What a subscription wants that expires after so many milliseconds, live or ended.
pub fn due_for(live: bool, now: Moment, expires: u64, lease: Option<Lease>) -> Option<Wants>
    ensures { result ≡ spec.due_for live now expires lease }
{
    if live {
        due_live(now, expires, lease)
    } else {
        due_ended(lease)
    }
}

/// A live one subscribes where no lease stands or its time is over, and renews where half of the
/// time is over that a renewal gives.
pub fn due_live(now: Moment, expires: u64, lease: Option<Lease>) -> Option<Wants>
    ensures { result ≡ spec.due_live now expires lease }
{
    match lease {
        Some(lease) => due_leased(now, expires, lease),
        None => Some(Wants::Subscribes),
    }
}

fn due_leased(now: Moment, expires: u64, lease: Lease) -> Option<Wants>
    ensures { result ≡ spec.due_leased now expires lease }
{
    let moment = now.milliseconds();
    if lease.expiry <= moment {
        return Some(Wants::Subscribes);
    }
    if lease.expiry <= moment + expires / 2 {
        return Some(Wants::Renews {
            identifier: lease.identifier,
        });
    }
    None
}

/// One that has ended unsubscribes where a lease stands.
pub fn due_ended(lease: Option<Lease>) -> Option<Wants>
    ensures { result ≡ spec.due_ended lease }
{
    match lease {
        Some(lease) => Some(Wants::Unsubscribes {
            identifier: lease.identifier,
        }),
        None => None,
    }
}
