//! Durations, instants and expiries.

use std::alloc::AllocError;
use wef_base::{Moment, Text, ValueFault};
use wef_times::{read_duration, read_expiry, read_instant, write_duration};

/// The milliseconds of a duration, and how they are written.
pub(crate) fn push_duration(shown: &mut Text, line: &str) -> Result<(), ValueFault> {
    let text = Text::from_str(shown.alloc(), line)?;
    match read_duration(&text) {
        Ok(ms) => Ok(push_written(shown, ms)?),
        Err(fault) => push_fault(shown, fault),
    }
}

fn push_written(shown: &mut Text, ms: u64) -> Result<(), AllocError> {
    shown.push_number(ms)?;
    shown.push_str(", written ")?;
    shown.push_str(write_duration(shown.alloc(), ms)?.as_str())
}

/// The nanoseconds of an instant.
pub(crate) fn push_instant(shown: &mut Text, line: &str) -> Result<(), ValueFault> {
    let text = Text::from_str(shown.alloc(), line)?;
    match read_instant(&text) {
        Ok(nanos) => Ok(shown.push_str(nanos.to_string(shown.alloc())?.as_str())?),
        Err(fault) => push_fault(shown, fault),
    }
}

fn push_fault(shown: &mut Text, fault: ValueFault) -> Result<(), ValueFault> {
    if fault == ValueFault::NoMemory {
        return Err(fault);
    }
    Ok(shown.push_str(fault.to_string(shown.alloc())?.as_str())?)
}

/// The milliseconds to the expiry of `NOW, EXPIRY`, where NOW is in milliseconds.
pub(crate) fn push_expiry(shown: &mut Text, row: &str) -> Result<(), ValueFault> {
    let (now, expiry) = row.split_once(", ").ok_or(ValueFault::NotAMoment)?;
    let now = now.parse().ok().and_then(|ms| Moment::of(ms));
    let now = now.ok_or(ValueFault::NotAMoment)?;
    Ok(push_until(shown, now, expiry)?)
}

fn push_until(shown: &mut Text, now: Moment, expiry: &str) -> Result<(), AllocError> {
    match read_expiry(&Text::from_str(shown.alloc(), expiry)?, now)? {
        Some(ms) => shown.push_number(ms),
        None => shown.push_str("none"),
    }
}
