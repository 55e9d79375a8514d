//! Requests that a collector answers, and that a source answers; replies that a source hears; connections that are served for a
//! collector; and a source that asks for its subscriptions and forwards a batch: what comes of each, and
//! what is kept behind it.
//!
//! Each line has a store of its own. Most lines say how a request differs from one delivery or one Enumerate,
//! or a reply from one acknowledgement or one offer: `OLD => NEW` with ` | ` between them, or `as it is`. What
//! they hold has the escapes of Rust's literals. Requests of one line follow each other with ` then ` between
//! them. Those of a connection are each `batch`, `chunks`, `none` or `wish` with edits, or `bytes` with
//! whatever bytes. A response to a source that forwards is `nothing`, or how it comes, its status, and the
//! envelope in it, `offers` or `ack`, with edits, as `whole 200 ack as it is`.
#![tactic(auto)]

mod answers;
mod asking;
mod connections;
mod cuts;
mod deliveries;
mod envelopes;
mod forwarding;
mod hearing;
pub mod managing;
pub mod numbered;
pub mod replies;
mod requests;
pub mod responses;
mod ways;

use std::alloc::AllocError;
use wef_base::Text;

/// Appends the answer to a line of a task, and tells whether the task is one of these.
pub fn push_answer(shown: &mut Text, task: &str, line: &str) -> Result<bool, AllocError> {
    if let Some(way) = ways::way_of(task) {
        asking::push_asked(shown, &way, line)?;
    } else if let Some(way) = hearing::way_of(task) {
        hearing::push_heard(shown, way, line)?;
    } else if let Some(way) = managing::way_of(task) {
        managing::push_managed(shown, way, line)?;
    } else if let Some(way) = forwarding::way_of(task) {
        forwarding::push_forwarded(shown, way, line)?;
    } else {
        return push_of_bytes(shown, task, line);
    }
    Ok(true)
}

/// The same of tasks about the bytes of requests and of connections.
fn push_of_bytes(shown: &mut Text, task: &str, line: &str) -> Result<bool, AllocError> {
    match task {
        // What is said to each front of a request.
        "cut" => asking::push_cuts(shown, line)?,
        // What is sent in a connection, and what is kept behind it.
        "served" => connections::push_served(shown, line)?,
        // What comes of each front of its bytes.
        "serve cut" => connections::push_cuts(shown, line)?,
        _ => return Ok(false),
    }
    Ok(true)
}
