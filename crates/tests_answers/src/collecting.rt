//! Runs of `collect`, and how they are shown.

use crate::runs::{none, ran_on};
use std::alloc::{AllocError, Global};
use tests_collectors::collectors::{Kept, store_of};
use tests_collectors::requests::bytes_of;
use tests_exchanges::numbered::{list_of, push_numbered};
use tests_runs::outcomes::Outcome;
use wef_base::{List, Text};
use wef_connections::{MemConnection, MemFront};
use wef_keeper::MemKeeper;

/// How a run over a store with one subscription ends, what it writes, and what is kept behind it, where the
/// call of a number of the front fails, and a write to the output.
pub(crate) fn push_collected(
    shown: &mut Text,
    line: &str,
    call: u64,
    write: u64,
) -> Result<(), AllocError> {
    let (count, connections) = line.split_once(": ").unwrap_or((line, ""));
    let mut front = front_of(shown.alloc(), connections, call)?;
    push_over(shown, count, &mut front, write)
}

/// The same where one call of the front fails, for the first calls of all.
pub(crate) fn push_broken(shown: &mut Text, line: &str) -> Result<(), AllocError> {
    for call in 1..14 {
        push_numbered(shown, call)?;
        push_collected(shown, line, call, 0)?;
    }
    Ok(())
}

/// The same where one write to the output fails, for the first writes of all.
pub(crate) fn push_untold(shown: &mut Text, line: &str) -> Result<(), AllocError> {
    for write in 1..5 {
        push_numbered(shown, write)?;
        push_collected(shown, line, 0, write)?;
    }
    Ok(())
}

/// A front to which these connections come, of which the call of a number fails.
fn front_of(alloc: Global, connections: &str, call: u64) -> Result<MemFront, AllocError> {
    let waiting = waiting_in(alloc, connections)?;
    Ok(MemFront::of(alloc, waiting, list_of(alloc, call)?))
}

fn waiting_in(alloc: Global, connections: &str) -> Result<List<MemConnection>, AllocError> {
    let mut waiting = List::new(alloc);
    if connections.is_empty() {
        return Ok(waiting);
    }
    for connection in connections.split(" next ") {
        waiting.push(MemConnection {
            bytes: bytes_of(alloc, connection)?,
            cuts: List::new(alloc),
        })?;
    }
    Ok(waiting)
}

fn push_over(
    shown: &mut Text,
    count: &str,
    front: &mut MemFront,
    write: u64,
) -> Result<(), AllocError> {
    let mut keeper = store_of(shown.alloc(), Kept::Live)?;
    push_run(shown, &mut keeper, count, front, write)
}

/// Serves so many connections, and says how that ends, and what the store keeps.
fn push_run(
    shown: &mut Text,
    keeper: &mut MemKeeper,
    count: &str,
    front: &mut MemFront,
    write: u64,
) -> Result<(), AllocError> {
    let alloc = shown.alloc();
    let told = served(alloc, keeper, count, front, write)?;
    push_told(shown, &told, front.addresses().len())?;
    shown.push_str(", kept")?;
    push_lines(shown, reported(alloc, keeper)?.out.taken())
}

fn served(
    alloc: Global,
    keeper: &mut MemKeeper,
    count: &str,
    front: &mut MemFront,
    write: u64,
) -> Result<Outcome, AllocError> {
    let command = format!(in alloc; "collect 127.0.0.1:5985 {count}")?;
    ran_on(
        alloc,
        keeper,
        command.as_str(),
        front,
        &mut none(alloc),
        write,
    )
}

/// What `show` tells of a store.
fn reported(alloc: Global, keeper: &mut MemKeeper) -> Result<Outcome, AllocError> {
    ran_on(alloc, keeper, "show", &mut none(alloc), &mut none(alloc), 0)
}

fn push_told(shown: &mut Text, told: &Outcome, addresses: usize) -> Result<(), AllocError> {
    shown.push_number(u64::from(told.status))?;
    push_lines(shown, told.err.taken())?;
    shown.push_str(", listened ")?;
    shown.push_number(addresses as u64)?;
    push_lines(shown, told.out.taken())
}

/// Lines in one, each behind a bar.
fn push_lines(shown: &mut Text, bytes: &[u8]) -> Result<(), AllocError> {
    let text = str::from_utf8(bytes).unwrap_or("no UTF-8");
    for line in text.split_terminator('\n') {
        shown.push_str(" | ")?;
        shown.push_str(line)?;
    }
    Ok(())
}
