//! Expiries as texts (WS-Eventing, 4.1).

ghost use Rattle.std.specs.Prelude.{◌≡◌, ◌<◌, ◌^◌, ◌-ℤ◌, ◌≤ℤ◌, min, pos, IfOk};
ghost use Rattle.wef_times.specs.Expiry.{ahead_by, expiry_in, rounded_up, until};
ghost use Rattle.wef_times.specs.Instants.{instant_in};

use crate::durations::{LIMIT, read_duration};
use crate::instants::read_instant;
use std::alloc::AllocError;
use wef_base::{Moment, Text, ValueFault};

/// In how many milliseconds from now an expiry is: of a duration above 0 these, and of an instant
/// after now those up to it, rounded up; at most `LIMIT`. None of any other text.
#[tactic(auto, unfolding(crate::specs::Expiry::expiry_in))]
pub fn read_expiry(text: &Text, now: Moment) -> Result<Option<u64>, AllocError>
    ensures { IfOk result (λ expiry. expiry ≡ expiry_in now text.now) }
{
    match read_duration(text) {
        Ok(0) => Ok(None),
        Ok(ms) => Ok(Some(ms)),
        Err(ValueFault::NoMemory) => Err(AllocError),
        Err(ValueFault::TooLarge) => Ok(Some(LIMIT)),
        Err(_) => until(now, text),
    }
}

/// How far the instant that a text is, if it is one, is ahead of now, in milliseconds.
fn until(now: Moment, text: &Text) -> Result<Option<u64>, AllocError>
    ensures { IfOk result (λ expiry. expiry ≡ until now (instant_in text.now)) }
{
    match read_instant(text) {
        Ok(instant) => Ok(ahead(instant, i128::from(now.milliseconds()) * 1_000_000)),
        Err(ValueFault::NoMemory) => Err(AllocError),
        Err(_) => Ok(None),
    }
}

fn ahead(instant: i128, now: i128) -> Option<u64>
    requires { pos 0 ≤ℤ now }
    ensures { result ≡ ahead_by (instant -ℤ now) }
{
    if instant <= now {
        return None;
    }
    Some(rounded_up((instant - now) as u128))
}

fn rounded_up(nanos: u128) -> u64
    requires { nanos < 2 ^ 127 }
    ensures { result ≡ min (rounded_up nanos) LIMIT }
{
    ((nanos + 999_999) / 1_000_000).min(u128::from(LIMIT)) as u64
}
