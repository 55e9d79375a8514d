//! Connections, and what comes of them.

use crate::echo::Echo;
use crate::requests::bytes_of;
use std::alloc::{AllocError, Global};
use tests_tasks::escapes::escaped;
use tests_tasks::runs::Runs;
use wef_base::{Bytes, List, Moment, Text};
use wef_http_heads::Side;
use wef_ports::{FixedClock, MemPort};
use wef_serving::{ConnectionEnd, serve};

/// What came of a connection.
#[derive(Drop)]
struct Outcome {
    over: ConnectionEnd,
    sent: Bytes,
    count: u64,
}

/// Serves bytes that come in pieces of so many, over a port whose call of a number fails.
fn served(alloc: Global, bytes: &[u8], piece: usize, call: u64) -> Result<Outcome, AllocError> {
    let mut count = 0;
    let mut clock = FixedClock::at(Moment::of(1_000).unwrap_or(Moment::first()));
    let mut port = port_of(alloc, bytes, piece, call)?;
    let over = serve(
        alloc,
        Side::Collector,
        &mut port,
        &Echo,
        &mut count,
        &mut clock,
    );
    let sent = Bytes::from_slice(alloc, port.sent())?;
    Ok(Outcome { over, sent, count })
}

fn port_of(alloc: Global, bytes: &[u8], piece: usize, call: u64) -> Result<MemPort, AllocError> {
    let mut cuts = List::new(alloc);
    for place in 0..bytes.len() {
        if place % piece.max(1) == 0 {
            cuts.push(place)?;
        }
    }
    let mut failing = List::new(alloc);
    failing.push(call)?;
    Ok(MemPort::of(alloc, Bytes::from_slice(alloc, bytes)?, cuts, failing))
}

/// What comes of the connection of a line, whose bytes come at once; and whether the same comes of it
/// where they come one by one.
pub(crate) fn push_served(shown: &mut Text, line: &str) -> Result<(), AllocError> {
    let alloc = shown.alloc();
    let bytes = bytes_of(alloc, line)?;
    let at_once = served(alloc, bytes.as_slice(), 1_000_000, 0)?;
    let one_by_one = served(alloc, bytes.as_slice(), 1, 0)?;
    push_outcome(shown, &at_once)?;
    shown.push_str(if is_same(&at_once, &one_by_one) {
        ""
    } else {
        "; not so one by one"
    })
}

fn is_same(one: &Outcome, other: &Outcome) -> bool {
    one.over == other.over
        && one.sent.as_slice() == other.sent.as_slice()
        && one.count == other.count
}

/// How a connection ended, how many requests were answered, and what was sent.
fn push_outcome(shown: &mut Text, outcome: &Outcome) -> Result<(), AllocError> {
    push_ending(shown, outcome)?;
    shown.push_str(": ")?;
    let text = Text::from_string(String::from_utf8_lossy(shown.alloc(), outcome.sent.as_slice())?)?;
    shown.push_str(escaped(&text)?.as_str())
}

fn push_ending(shown: &mut Text, outcome: &Outcome) -> Result<(), AllocError> {
    let told = format!(in shown.alloc(); "{:?}, {} answered", outcome.over, outcome.count)?;
    shown.push_str(told.as_str())
}

/// What comes of each front of the bytes of a line, `FIRST-LAST: ENDING` for fronts of so many bytes.
pub(crate) fn push_cuts(shown: &mut Text, line: &str) -> Result<(), AllocError> {
    let alloc = shown.alloc();
    let bytes = bytes_of(alloc, line)?;
    let mut runs = Runs::new(alloc);
    for cut in 0..bytes.len() {
        let front = served(alloc, &bytes.as_slice()[..cut], 1_000_000, 0)?;
        runs.add(shown, cut as u64, told(alloc, &front)?)?;
    }
    let whole = served(alloc, bytes.as_slice(), 1_000_000, 0)?;
    runs.add(shown, bytes.len() as u64, told(alloc, &whole)?)
}

/// What comes of the connection of a line where one call of its port fails, for the first calls of
/// all.
pub(crate) fn push_broken(shown: &mut Text, line: &str) -> Result<(), AllocError> {
    let alloc = shown.alloc();
    let bytes = bytes_of(alloc, line)?;
    let mut runs = Runs::new(alloc);
    for call in 1..16 {
        let broken = served(alloc, bytes.as_slice(), 100, call)?;
        runs.add(shown, call, told(alloc, &broken)?)?;
    }
    Ok(())
}

/// How a connection ended, how many requests were answered, and how much was sent.
fn told(alloc: Global, outcome: &Outcome) -> Result<Text, AllocError> {
    let mut text = Text::new(alloc);
    push_ending(&mut text, outcome)?;
    text.push_str(", ")?;
    text.push_number(outcome.sent.len() as u64)?;
    text.push_str(" bytes sent")?;
    Ok(text)
}
