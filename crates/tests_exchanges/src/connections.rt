//! Connections of a front, and what comes of them.

use crate::cuts::push_fronts;
use crate::replies::push_replies;
use std::alloc::{AllocError, Global};
use tests_collectors::collectors::{Kept, collector_of, push_left};
use tests_collectors::requests::bytes_of;
use wef_base::{Bytes, List, Moment, Text};
use wef_collector::Collector;
use wef_collector_serving::{ConnectionEnd, serve_connection, serve_next_connection};
use wef_connections::{Front, MemConnection, MemFront};
use wef_keeper::MemKeeper;
use wef_ports::FixedClock;

/// How a connection comes and is served, and what is told of it.
#[derive(Clone, Copy)]
enum Way {
    /// Its bytes come at once.
    AtOnce,
    /// Its bytes come one by one, and each call of the front is made here.
    ByHand,
    /// Its bytes come at once, and it is told how many are sent, and not which.
    Counted,
}

/// What comes of the connection of a line, whose bytes come at once, and what is kept behind it; and
/// whether the same comes of it where they come one by one.
pub(crate) fn push_served(shown: &mut Text, line: &str) -> Result<(), AllocError> {
    let alloc = shown.alloc();
    let bytes = bytes_of(alloc, line)?;
    let mut at_once = Text::new(alloc);
    push_connection(&mut at_once, bytes.as_slice(), Way::AtOnce)?;
    let mut by_hand = Text::new(alloc);
    push_connection(&mut by_hand, bytes.as_slice(), Way::ByHand)?;
    shown.push_str(at_once.as_str())?;
    shown.push_str(if at_once == by_hand {
        ""
    } else {
        "; not so one by one"
    })
}

/// What comes of each front of the bytes of a line, and what is kept behind it.
pub(crate) fn push_cuts(shown: &mut Text, line: &str) -> Result<(), AllocError> {
    let bytes = bytes_of(shown.alloc(), line)?;
    push_fronts(shown, bytes.as_slice(), push_counted)
}

fn push_counted(shown: &mut Text, bytes: &[u8]) -> Result<(), AllocError> {
    push_connection(shown, bytes, Way::Counted)
}

/// What comes of the connection with these bytes, and what is kept behind it.
fn push_connection(shown: &mut Text, bytes: &[u8], way: Way) -> Result<(), AllocError> {
    let mut front = front_of(shown.alloc(), bytes, way)?;
    push_taken(shown, &mut front, way)
}

/// A front to which one connection comes.
fn front_of(alloc: Global, bytes: &[u8], way: Way) -> Result<MemFront, AllocError> {
    let cuts = match way {
        Way::ByHand => cuts_of(alloc, bytes.len())?,
        _ => List::new(alloc),
    };
    let mut connections = List::new(alloc);
    connections.push(MemConnection {
        bytes: Bytes::from_slice(alloc, bytes)?,
        cuts,
    })?;
    Ok(MemFront::of(alloc, connections, List::new(alloc)))
}

/// Each place in so many bytes.
fn cuts_of(alloc: Global, length: usize) -> Result<List<usize>, AllocError> {
    let mut cuts = List::new(alloc);
    for place in 0..length {
        cuts.push(place)?;
    }
    Ok(cuts)
}

fn push_taken(shown: &mut Text, front: &mut MemFront, way: Way) -> Result<(), AllocError> {
    let mut collector = collector_of(shown.alloc(), Kept::Live)?;
    match push_outcome(shown, &mut collector, front, way) {
        Ok(()) => push_left(shown, collector, Kept::Live),
        Err(fault) => Err(fault),
    }
}

/// Takes a connection and serves it, and says how it ended, and what was sent.
fn push_outcome(
    shown: &mut Text,
    collector: &mut Collector<MemKeeper>,
    front: &mut MemFront,
    way: Way,
) -> Result<(), AllocError> {
    let over = match way {
        Way::ByHand => served_by_hand(shown.alloc(), collector, front),
        _ => served(shown.alloc(), collector, front),
    };
    push_ending(shown, over)?;
    push_sent(shown, sent(front), way)
}

fn served(
    alloc: Global,
    collector: &mut Collector<MemKeeper>,
    front: &mut MemFront,
) -> Option<ConnectionEnd> {
    serve_next_connection(alloc, front, collector, &mut clock()).ok()
}

/// The same, with each call of the front by itself.
fn served_by_hand(
    alloc: Global,
    collector: &mut Collector<MemKeeper>,
    front: &mut MemFront,
) -> Option<ConnectionEnd> {
    if front.accept().is_err() {
        return None;
    }
    let over = serve_connection(alloc, front, collector, &mut clock());
    front.close();
    Some(over)
}

fn clock() -> FixedClock {
    FixedClock::at(Moment::of(1_000).unwrap_or(Moment::first()))
}

fn push_ending(shown: &mut Text, over: Option<ConnectionEnd>) -> Result<(), AllocError> {
    let Some(over) = over else {
        return shown.push_str("no connection");
    };
    let told = format!(in shown.alloc(); "{over:?}")?;
    shown.push_str(told.as_str())
}

/// What was sent in the last connection.
fn sent(front: &MemFront) -> &[u8] {
    match front.sent().last() {
        Some(sent) => sent.as_slice(),
        None => &[],
    }
}

fn push_sent(shown: &mut Text, sent: &[u8], way: Way) -> Result<(), AllocError> {
    match way {
        Way::Counted => {
            shown.push_str(", ")?;
            shown.push_number(sent.len() as u64)?;
            shown.push_str(" bytes sent")
        }
        _ => push_replies(shown, sent),
    }
}
