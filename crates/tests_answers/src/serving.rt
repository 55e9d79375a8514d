//! Runs of `serve`, and how they are shown.

use crate::commands::{failing_link_of, push_told};
use crate::runs::ran_on;
use std::alloc::{AllocError, Global};
use tests_collectors::requests::with_length;
use tests_collectors::sources::written;
use tests_exchanges::managing::request_of;
use tests_exchanges::numbered::{list_of, push_numbered};
use tests_tasks::escapes::unescaped;
use wef_base::{Bytes, List, Text};
use wef_connections::{MemConnection, MemFront};

/// What `serve` prints over the store of the source, which has written an event, where these connections come
/// and the link brings the responses behind them, each behind ` then `, and where the call of a number of the
/// front fails, and one of the link.
pub(crate) fn push_served(
    shown: &mut Text,
    line: &str,
    front_call: u64,
    link_call: u64,
) -> Result<(), AllocError> {
    let alloc = shown.alloc();
    let (asked, responses) = line.split_once(" then ").unwrap_or((line, "nothing"));
    let (count, connections) = asked.split_once(": ").unwrap_or((asked, ""));
    let mut front = front_of(alloc, connections, front_call)?;
    let mut link = failing_link_of(alloc, responses, link_call)?;
    let mut keeper = written(alloc)?.into_keeper();
    let command = command_of(alloc, count)?;
    let told = ran_on(
        alloc,
        &mut keeper,
        command.as_str(),
        &mut front,
        &mut link,
        0,
    )?;
    push_told(shown, &told)?;
    shown.push_str("; connections ")?;
    shown.push_number(link.addresses().len() as u64)
}

/// The same where one call of the front fails, for the first calls of all.
pub(crate) fn push_broken(shown: &mut Text, line: &str) -> Result<(), AllocError> {
    for call in 1..6 {
        push_numbered(shown, call)?;
        push_served(shown, line, call, 0)?;
    }
    Ok(())
}

/// The same where one call of the link fails, for the first calls of all.
pub(crate) fn push_cut_off(shown: &mut Text, line: &str) -> Result<(), AllocError> {
    for call in 1..4 {
        push_numbered(shown, call)?;
        push_served(shown, line, 0, call)?;
    }
    Ok(())
}

fn command_of(alloc: Global, count: &str) -> Result<Text, AllocError> {
    let mut command = Text::from_str(alloc, "serve pc1:5985 pc1 ")?;
    command.push_str(count)?;
    Ok(command)
}

/// A front to which these connections come, of which the call of a number fails.
fn front_of(alloc: Global, connections: &str, call: u64) -> Result<MemFront, AllocError> {
    let waiting = waiting_in(alloc, connections)?;
    Ok(MemFront::of(alloc, waiting, list_of(alloc, call)?))
}

fn waiting_in(alloc: Global, connections: &str) -> Result<List<MemConnection>, AllocError> {
    let mut waiting = List::new(alloc);
    if connections.is_empty() {
        return Ok(waiting);
    }
    for connection in connections.split(" next ") {
        waiting.push(MemConnection {
            bytes: bytes_of(alloc, connection)?,
            cuts: List::new(alloc),
        })?;
    }
    Ok(waiting)
}

/// The bytes of the requests of a connection, with ` and ` between them: each of a kind, with edits, or `bytes`
/// with whatever bytes.
fn bytes_of(alloc: Global, line: &str) -> Result<Bytes, AllocError> {
    let mut bytes = Bytes::new(alloc);
    for request in line.split(" and ") {
        bytes.extend(request_bytes(alloc, request)?.as_slice())?;
    }
    Ok(bytes)
}

fn request_bytes(alloc: Global, request: &str) -> Result<Bytes, AllocError> {
    let (kind, edits) = request.split_once(' ').unwrap_or((request, ""));
    if kind == "bytes" {
        return unescaped(alloc, edits);
    }
    with_length(alloc, "/wsman", "UTF-8", &request_of(alloc, kind, edits)?)
}
