//! Bytes that are sent, as they are shown.

use std::alloc::AllocError;
use tests_tasks::escapes::escaped;
use tests_tasks::utf16::from_utf16;
use wef_base::Text;

/// The responses in bytes, each on lines of its own: its head, and its body decoded.
pub(crate) fn push_replies(shown: &mut Text, sent: &[u8]) -> Result<(), AllocError> {
    let mut rest = sent;
    for _ in 0..sent.len() {
        if rest.is_empty() {
            return Ok(());
        }
        rest = push_reply(shown, rest)?;
    }
    Ok(())
}

/// The first response, which leaves those behind it.
fn push_reply<'a>(shown: &mut Text, sent: &'a [u8]) -> Result<&'a [u8], AllocError> {
    let (head, behind) = sent.split_at(end_of_head(sent).min(sent.len()));
    shown.push_str("\n    ")?;
    push_escaped(shown, head)?;
    let told = str::from_utf8(head).unwrap_or("no UTF-8");
    let (body, rest) = behind.split_at(length_in(told).min(behind.len()));
    push_body(shown, body, told.contains("UTF-16"))?;
    Ok(rest)
}

/// Where the first empty line ends, or all.
fn end_of_head(bytes: &[u8]) -> usize {
    match bytes
        .windows(4)
        .position(|four| four == b"\r\n\r\n".as_slice())
    {
        Some(at) => at.saturating_add(4),
        None => bytes.len(),
    }
}

/// The length that a head says, or 0.
fn length_in(head: &str) -> usize {
    let (_, rest) = head.split_once("Content-Length: ").unwrap_or(("", ""));
    let (digits, _) = rest.split_once('\r').unwrap_or(("", ""));
    usize::from_str_radix(digits, 10).unwrap_or(0)
}

fn push_body(shown: &mut Text, body: &[u8], is_utf16: bool) -> Result<(), AllocError> {
    if body.is_empty() {
        return Ok(());
    }
    shown.push_str("\n    ")?;
    if is_utf16 {
        push_utf16(shown, body)
    } else {
        push_escaped(shown, body)
    }
}

/// Appends a text in UTF-16, escaped.
pub(crate) fn push_utf16(shown: &mut Text, bytes: &[u8]) -> Result<(), AllocError> {
    let text = from_utf16(shown.alloc(), bytes)?;
    shown.push_str(escaped(&text)?.as_str())
}

/// Appends a text in UTF-8, escaped.
pub fn push_escaped(shown: &mut Text, bytes: &[u8]) -> Result<(), AllocError> {
    let text = Text::from_string(String::from_utf8_lossy(shown.alloc(), bytes)?)?;
    shown.push_str(escaped(&text)?.as_str())
}
