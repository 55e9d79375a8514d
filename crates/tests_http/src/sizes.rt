//! Heads at their limits.

use crate::heads::push_found;
use std::alloc::{AllocError, Global};
use wef_base::{Bytes, Text};
use wef_http_heads::Side;

/// The start of a good request, with three fields.
const START: &[u8] =
    b"POST /wsman/SubscriptionManager/WEC HTTP/1.1\r\nHost: a\r\nContent-Type: application/soap+xml\r\nContent-Length: 0\r\n";

/// A request of so many fields.
pub(crate) fn push_fields(shown: &mut Text, count: usize) -> Result<(), AllocError> {
    let mut bytes = Bytes::from_slice(shown.alloc(), START)?;
    for _ in 3..count {
        bytes.extend(b"A: b\r\n")?;
    }
    bytes.extend(b"\r\n")?;
    push_found(shown, Side::Collector, bytes.as_slice())
}

/// A request whose head has so many bytes.
pub(crate) fn push_length(shown: &mut Text, length: usize) -> Result<(), AllocError> {
    let mut bytes = part_of(shown.alloc(), length.saturating_sub(4))?;
    bytes.extend(b"\r\n\r\n")?;
    push_found(shown, Side::Collector, bytes.as_slice())
}

/// The first so many bytes of a longer head.
pub(crate) fn push_part(shown: &mut Text, length: usize) -> Result<(), AllocError> {
    let bytes = part_of(shown.alloc(), length)?;
    push_found(shown, Side::Collector, bytes.as_slice())
}

/// A request that is in its last field.
fn part_of(alloc: Global, length: usize) -> Result<Bytes, AllocError> {
    let mut bytes = Bytes::from_slice(alloc, START)?;
    bytes.extend(b"A: ")?;
    for _ in bytes.len()..length {
        bytes.push(b'b')?;
    }
    Ok(bytes)
}
