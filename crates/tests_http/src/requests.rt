//! The bytes of connections.

use std::alloc::{AllocError, Global};
use tests_tasks::escapes::unescaped;
use wef_base::{Bytes, Text};

/// The bytes of the messages of a line.
pub(crate) fn bytes_of(alloc: Global, line: &str) -> Result<Bytes, AllocError> {
    let mut bytes = Bytes::new(alloc);
    for message in line.split(" then ") {
        push_message(alloc, &mut bytes, message)?;
    }
    Ok(bytes)
}

fn push_message(alloc: Global, bytes: &mut Bytes, message: &str) -> Result<(), AllocError> {
    let (kind, rest) = message.split_once(' ').unwrap_or((message, ""));
    match kind {
        "post" => push_request(alloc, bytes, "", rest),
        "closing" => push_request(alloc, bytes, "Connection: close\r\n", rest),
        _ => bytes.extend(unescaped(alloc, rest)?.as_slice()),
    }
}

/// A request with a body, and a further field in its head.
fn push_request(
    alloc: Global,
    bytes: &mut Bytes,
    field: &str,
    body: &str,
) -> Result<(), AllocError> {
    let body = unescaped(alloc, body)?;
    let mut head = Text::from_str(
        alloc,
        "POST /wsman/SubscriptionManager/WEC HTTP/1.1\r\nHost: collector\r\nContent-Type: application/soap+xml;charset=UTF-8\r\n",
    )?;
    head.push_str(field)?;
    head.push_str("Content-Length: ")?;
    head.push_number(body.len() as u64)?;
    head.push_str("\r\n\r\n")?;
    bytes.extend(head.as_str().as_bytes())?;
    bytes.extend(body.as_slice())
}
