//! Messages of HTTP that are read, messages that are written to a port, and connections that are served,
//! with what comes of each.
//!
//! What is served is a row of messages with ` then ` between them. Each is `post` or `closing` with a body,
//! or `bytes` with whatever bytes, in the escapes of Rust's literals; an answer says its number and the body
//! of the request.
#![tactic(auto)]

mod bodies;
mod connections;
mod echo;
mod heads;
mod messages;
mod requests;
mod served;
mod shown;
mod sizes;

use bodies::{
    push_chunk_line, push_chunks, push_edited, push_reply, push_single_bytes, push_spelled,
};
use heads::{push_bytes, push_request, push_response};
use sizes::{push_fields, push_length, push_part};
use std::alloc::AllocError;
use wef_base::Text;
use wef_http_heads::Side;

/// Appends the answer to a line of a task, and tells whether the task is one of these.
pub fn push_answer(shown: &mut Text, task: &str, line: &str) -> Result<bool, AllocError> {
    let pushed = match task {
        // The head of a request to a collector, as edits of a good one.
        "collector" => push_request(shown, Side::Collector, line),
        // The same to a source.
        "source" => push_request(shown, Side::Source, line),
        // The head of a request to a collector, as it is.
        "bytes" => push_bytes(shown, line),
        // The head of a response, as edits of a good one.
        "response" => push_response(shown, line),
        // A request of so many fields.
        "fields" => push_fields(shown, number_of(line)),
        // A request whose head has so many bytes.
        "length" => push_length(shown, number_of(line)),
        // The first so many bytes of a longer head.
        "part" => push_part(shown, number_of(line)),
        // A connection to a collector, as edits of one request with a body.
        "requests" => push_edited(shown, line),
        // The bytes of a connection to a collector, as they are.
        "connection" => push_spelled(shown, line),
        // A request with these chunks, and what follows it.
        "chunks" => push_chunks(shown, line),
        // A request with a chunk whose line has so many bytes.
        "chunk line" => push_chunk_line(shown, number_of(line)),
        // An edited delivery as a body in chunks of one byte, against one of a length.
        "single bytes" => push_single_bytes(shown, line),
        // A response with its body, as edits of a good one.
        "reply" => push_reply(shown, line),
        // What is sent of the response `STATUS CHARSET BODY`.
        "write response" => messages::push_response(shown, line),
        // What is sent of the request `HOST PATH BODY`.
        "write request" => messages::push_request(shown, line, 0),
        // What is sent of the request `CALL HOST PATH BODY` where the call of this number fails.
        "write broken" => messages::push_broken(shown, line),
        // How many bytes are sent of a request with a body of so many, `CALL SIZE`, where the call of
        // this number fails.
        "write long" => messages::push_long(shown, line),
        // What comes of a connection.
        "served" => served::push_served(shown, line),
        // What comes of each front of its bytes.
        "serve cut" => served::push_cuts(shown, line),
        // What comes of it where one call of its port fails, for each call.
        "serve broken" => served::push_broken(shown, line),
        _ => return Ok(false),
    };
    pushed?;
    Ok(true)
}

fn number_of(line: &str) -> usize {
    line.parse().unwrap_or(0)
}
