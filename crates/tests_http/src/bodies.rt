//! The bytes of connections.

use crate::connections::{Reading, answer_at_once, push_connection};
use std::alloc::{AllocError, Global};
use tests_tasks::deliveries::{edited, edited_from};
use tests_tasks::escapes::unescaped;
use wef_base::{Bytes, Text};
use wef_http_heads::Side;

/// Requests to a collector.
const COLLECTOR: Reading = Reading::Requests(Side::Collector);

/// A request with a body.
const REQUEST: &str =
    "POST /wsman/SubscriptionManager/WEC HTTP/1.1\\r\\nHost: collector\\r\\nContent-Type: application/soap+xml\\r\\nContent-Length: 5\\r\\n\\r\\nhello";

/// The head of a request with chunks.
const CHUNKED: &[u8] =
    b"POST /wsman/SubscriptionManager/WEC HTTP/1.1\r\nHost: collector\r\nContent-Type: application/soap+xml\r\nTransfer-Encoding: chunked\r\n\r\n";

/// The head of a request with a body, up to its length.
const COUNTED: &str =
    "POST /wsman/SubscriptionManager/WEC HTTP/1.1\r\nHost: collector\r\nContent-Type: application/soap+xml\r\nContent-Length: ";

/// A response with a body.
const RESPONSE: &str =
    "HTTP/1.1 200 OK\\r\\nContent-Type: application/soap+xml\\r\\nContent-Length: 5\\r\\n\\r\\nhello";

/// A connection with the request and these edits.
pub(crate) fn push_edited(shown: &mut Text, edits: &str) -> Result<(), AllocError> {
    let bytes = edited_from(shown.alloc(), REQUEST, edits)?;
    push_connection(shown, COLLECTOR, bytes.as_slice())
}

/// A connection with the bytes that a line spells.
pub(crate) fn push_spelled(shown: &mut Text, line: &str) -> Result<(), AllocError> {
    let bytes = unescaped(shown.alloc(), line)?;
    push_connection(shown, COLLECTOR, bytes.as_slice())
}

/// A connection with the head of a request, and the chunks that a line spells.
pub(crate) fn push_chunks(shown: &mut Text, line: &str) -> Result<(), AllocError> {
    let alloc = shown.alloc();
    let mut bytes = Bytes::from_slice(alloc, CHUNKED)?;
    bytes.extend(unescaped(alloc, line)?.as_slice())?;
    push_connection(shown, COLLECTOR, bytes.as_slice())
}

/// A connection with the head of a request, and a chunk whose line has so many bytes.
pub(crate) fn push_chunk_line(shown: &mut Text, length: usize) -> Result<(), AllocError> {
    let mut bytes = Bytes::from_slice(shown.alloc(), CHUNKED)?;
    bytes.extend(b"2;")?;
    for _ in 4..length {
        bytes.push(b'a')?;
    }
    bytes.extend(b"\r\nhi\r\n0\r\n\r\n")?;
    let answer = answer_at_once(shown.alloc(), COLLECTOR, bytes.as_slice())?;
    shown.push_str(answer.as_str())
}

/// Whether an edited delivery is read in chunks of one byte as it is with a length.
pub(crate) fn push_single_bytes(shown: &mut Text, edits: &str) -> Result<(), AllocError> {
    let alloc = shown.alloc();
    let body = edited(alloc, edits)?;
    let counted = counted(alloc, body.as_slice())?;
    let counted = answer_at_once(alloc, COLLECTOR, counted.as_slice())?;
    let single = in_single_bytes(alloc, body.as_slice())?;
    let single = answer_at_once(alloc, COLLECTOR, single.as_slice())?;
    shown.push_str(if single == counted {
        "as with a length"
    } else {
        "otherwise than with a length"
    })?;
    let (_, end) = single.as_str().rsplit_once("; ").unwrap_or(("", ""));
    shown.push_str(", then ")?;
    shown.push_str(end)
}

/// A request with a body of a length.
fn counted(alloc: Global, body: &[u8]) -> Result<Bytes, AllocError> {
    let mut head = Text::from_str(alloc, COUNTED)?;
    head.push_number(body.len() as u64)?;
    head.push_str("\r\n\r\n")?;
    let mut bytes = Bytes::from_slice(alloc, head.as_str().as_bytes())?;
    bytes.extend(body)?;
    Ok(bytes)
}

/// A request with a body in chunks of one byte.
fn in_single_bytes(alloc: Global, body: &[u8]) -> Result<Bytes, AllocError> {
    let mut bytes = Bytes::from_slice(alloc, CHUNKED)?;
    for &byte in body {
        bytes.extend(b"1\r\n")?;
        bytes.push(byte)?;
        bytes.extend(b"\r\n")?;
    }
    bytes.extend(b"0\r\n\r\n")?;
    Ok(bytes)
}

/// A connection with the response and these edits.
pub(crate) fn push_reply(shown: &mut Text, edits: &str) -> Result<(), AllocError> {
    let bytes = edited_from(shown.alloc(), RESPONSE, edits)?;
    push_connection(shown, Reading::Response, bytes.as_slice())
}
