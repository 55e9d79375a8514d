//! Responses by their words.

use crate::envelopes::{ACKNOWLEDGEMENT, OFFERS};
use std::alloc::{AllocError, Global};
use tests_tasks::deliveries::edited_from;
use tests_tasks::utf16::in_utf16;
use wef_base::{Bytes, List};
use wef_connections::MemConnection;

/// The response of a line.
pub fn response_of(alloc: Global, line: &str) -> Result<MemConnection, AllocError> {
    let bytes = bytes_of(alloc, line)?;
    Ok(MemConnection {
        bytes,
        cuts: List::new(alloc),
    })
}

fn bytes_of(alloc: Global, line: &str) -> Result<Bytes, AllocError> {
    let (way, rest) = parted(line);
    let (status, rest) = parted(rest);
    let (name, edits) = parted(rest);
    if way == "nothing" {
        return Ok(Bytes::new(alloc));
    }
    let envelope = edited_from(alloc, envelope_named(name), edits)?;
    written(alloc, way, status, &envelope)
}

fn parted(line: &str) -> (&str, &str) {
    line.split_once(' ').unwrap_or((line, ""))
}

fn envelope_named(name: &str) -> &'static str {
    if name == "offers" {
        OFFERS
    } else {
        ACKNOWLEDGEMENT
    }
}

/// A response with an envelope, which comes so.
fn written(alloc: Global, way: &str, status: &str, envelope: &Bytes) -> Result<Bytes, AllocError> {
    match way {
        "utf16" => with_head(alloc, status, "UTF-16", 0, &in_utf16(alloc, envelope)?),
        "short" => with_head(alloc, status, "UTF-8", 1, envelope),
        "followed" => {
            let mut bytes = with_head(alloc, status, "UTF-8", 0, envelope)?;
            bytes.push(b'x')?;
            Ok(bytes)
        }
        _ => with_head(alloc, status, "UTF-8", 0, envelope),
    }
}

/// A body behind its head, which says a length that is so much greater.
fn with_head(
    alloc: Global,
    status: &str,
    charset: &str,
    more: usize,
    body: &Bytes,
) -> Result<Bytes, AllocError> {
    let length = body.len().saturating_add(more);
    let head = format!(in alloc;
        "HTTP/1.1 {status} Said\r\nContent-Type: application/soap+xml;charset={charset}\r\nContent-Length: {length}\r\n\r\n"
    )?;
    let mut bytes = Bytes::from_slice(alloc, head.as_bytes())?;
    bytes.extend(body.as_slice())?;
    Ok(bytes)
}
