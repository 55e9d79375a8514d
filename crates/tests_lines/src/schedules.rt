//! What schedules come to.

use std::alloc::{AllocError, Global};
use tests_runs::outcomes::{BASE, Outcome, replayed};
use wef_base::{Bytes, Text};

/// Appends what a schedule prints, what is told of it, and its status where that isn't 0.
pub fn push_replayed(shown: &mut Text, schedule: &[u8]) -> Result<(), AllocError> {
    push_outcome(shown, &replayed(shown.alloc(), schedule)?)
}

/// Appends the same of a line behind one that adds a subscription, in lines that stand in as an answer
/// does.
pub fn push_replayed_last(shown: &mut Text, line: &str) -> Result<(), AllocError> {
    let mut schedule = Bytes::from_slice(shown.alloc(), BASE.as_bytes())?;
    schedule.extend(line.as_bytes())?;
    push_replayed_lines(shown, schedule.as_slice(), "\n    ")
}

/// Appends what a schedule comes to with one line more, for each place behind its first line where that may
/// stand: in a line each, behind the number of the line that it stands before.
pub fn push_replayed_between(
    shown: &mut Text,
    schedule: &[u8],
    more: &str,
) -> Result<(), AllocError> {
    let text = str::from_utf8(schedule).unwrap_or("");
    for place in 1..text.lines().count() {
        shown.push_str("    ")?;
        shown.push_number(place as u64 + 1)?;
        shown.push_str(": ")?;
        let whole = with_line(shown.alloc(), text, place, more)?;
        push_replayed_lines(shown, whole.as_slice(), "; ")?;
        shown.push('\n')?;
    }
    Ok(())
}

/// A schedule with one line more, in front of the line at a place.
fn with_line(alloc: Global, text: &str, place: usize, more: &str) -> Result<Bytes, AllocError> {
    let mut whole = Bytes::new(alloc);
    for (at, line) in text.lines().enumerate() {
        if at == place {
            push_line(&mut whole, more)?;
        }
        push_line(&mut whole, line)?;
    }
    Ok(whole)
}

fn push_line(schedule: &mut Bytes, line: &str) -> Result<(), AllocError> {
    schedule.extend(line.as_bytes())?;
    schedule.push(b'\n')?;
    Ok(())
}

/// Appends the lines that a schedule comes to, with a text between each two.
fn push_replayed_lines(shown: &mut Text, schedule: &[u8], between: &str) -> Result<(), AllocError> {
    let mut whole = Text::new(shown.alloc());
    push_replayed(&mut whole, schedule)?;
    let mut is_next = false;
    for line in whole.as_str().lines() {
        if is_next {
            shown.push_str(between)?;
        }
        shown.push_str(line)?;
        is_next = true;
    }
    Ok(())
}

fn push_outcome(shown: &mut Text, outcome: &Outcome) -> Result<(), AllocError> {
    push_bytes(shown, outcome.out.taken())?;
    push_bytes(shown, outcome.err.taken())?;
    if outcome.status != 0 {
        shown.push_str("status ")?;
        shown.push_number(u64::from(outcome.status))?;
        shown.push('\n')?;
    }
    Ok(())
}

fn push_bytes(shown: &mut Text, bytes: &[u8]) -> Result<(), AllocError> {
    shown.push_str(str::from_utf8(bytes).unwrap_or("no UTF-8\n"))
}
