//! When a heartbeat is due, and which source is silent.

use std::alloc::AllocError;
use wef_base::{Moment, Text};
use wef_heartbeat::{Status, due};

/// Whether a heartbeat is due, by `LAST, INTERVAL, NOW` in milliseconds: when a source last sent, how often it has
/// to, and the moment.
pub(crate) fn push_due(shown: &mut Text, row: &str) -> Result<(), AllocError> {
    match moments_in(row) {
        Some((Some(last), interval, now)) if due(last, interval, now) => shown.push_str("due"),
        Some((Some(_), _, _)) => shown.push_str("not yet"),
        _ => shown.push_str("no row"),
    }
}

/// Whether a source is heard of, by `HEARD, INTERVAL, NOW` in milliseconds, where HEARD may be `never`.
pub(crate) fn push_status(shown: &mut Text, row: &str) -> Result<(), AllocError> {
    match moments_in(row) {
        Some((heard, interval, now)) => shown.push_str(word_of(Status::of(heard, interval, now))),
        None => shown.push_str("no row"),
    }
}

fn word_of(status: Status) -> &'static str {
    match status {
        Status::Active => "active",
        Status::Inactive => "inactive",
        Status::Never => "never",
    }
}

/// The first moment of a row, if there was one, the interval, and the moment now.
fn moments_in(row: &str) -> Option<(Option<Moment>, u64, Moment)> {
    let (first, rest) = row.split_once(", ")?;
    let (interval, now) = rest.split_once(", ")?;
    let interval = interval.parse().ok()?;
    let now = moment_in(now)?;
    if first == "never" {
        return Some((None, interval, now));
    }
    Some((Some(moment_in(first)?), interval, now))
}

fn moment_in(word: &str) -> Option<Moment> {
    Moment::of(word.parse().ok()?)
}
