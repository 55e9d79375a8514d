//! Messages, and what is sent of them.

ghost use Rattle.std.specs.Prelude.{◌≡◌};
ghost use Rattle.wef_http.specs.Written.{is_status};

use std::alloc::{AllocError, Global};
use tests_tasks::escapes::escaped;
use wef_base::{Bytes, Charset, List, Text};
use wef_http::head_texts::has_body;
use wef_http::{write_request, write_response};
use wef_http_heads::HttpEnd;
use wef_ports::MemPort;

/// The response `STATUS CHARSET BODY`. What has no body is written without it.
pub(crate) fn push_response(shown: &mut Text, line: &str) -> Result<(), AllocError> {
    let alloc = shown.alloc();
    let (status, rest) = first_word(line);
    let (charset, body) = first_word(rest);
    let charset = if charset == "UTF-16" {
        Charset::Utf16
    } else {
        Charset::Utf8
    };
    let status = status.parse::<u16>().unwrap_or(0);
    if !is_status(status) {
        return shown.push_str("no status");
    }
    let body = if has_body(status) { body } else { "" };
    let body = Bytes::from_slice(alloc, body.as_bytes())?;
    let mut port = port_failing_at(alloc, 0)?;
    let ended = write_response(alloc, &mut port, status, charset, &body);
    push_sent(shown, ended, port.sent())
}

/// The request `CALL HOST PATH BODY`, over a port whose call of this number fails.
pub(crate) fn push_broken(shown: &mut Text, line: &str) -> Result<(), AllocError> {
    let (call, rest) = first_word(line);
    push_request(shown, rest, call.parse::<u64>().unwrap_or(0))
}

/// The request `HOST PATH BODY`, over a port whose call of this number fails.
pub(crate) fn push_request(shown: &mut Text, line: &str, failing: u64) -> Result<(), AllocError> {
    let alloc = shown.alloc();
    let (host, rest) = first_word(line);
    let (path, body) = first_word(rest);
    let host = Text::from_str(alloc, host)?;
    let path = Text::from_str(alloc, path)?;
    let body = Bytes::from_slice(alloc, body.as_bytes())?;
    let mut port = port_failing_at(alloc, failing)?;
    let ended = write_request(alloc, &mut port, &host, &path, &body);
    push_sent(shown, ended, port.sent())
}

/// How many bytes are sent of a request with a body of so many, `CALL SIZE`, over a port whose call
/// of this number fails.
pub(crate) fn push_long(shown: &mut Text, line: &str) -> Result<(), AllocError> {
    let alloc = shown.alloc();
    let (call, size) = first_word(line);
    let host = Text::from_str(alloc, "pc1")?;
    let path = Text::from_str(alloc, "/wsman")?;
    let body = body_of(alloc, size.parse::<u32>().unwrap_or(0))?;
    let mut port = port_failing_at(alloc, call.parse::<u64>().unwrap_or(0))?;
    let ended = write_request(alloc, &mut port, &host, &path, &body);
    push_end(shown, ended)?;
    shown.push_number(port.sent().len() as u64)?;
    shown.push_str(" bytes")
}

fn body_of(alloc: Global, size: u32) -> Result<Bytes, AllocError> {
    let mut body = Bytes::new(alloc);
    for _ in 0..size {
        body.push(b'a')?;
    }
    Ok(body)
}

/// What stands before the first space, and what behind it.
fn first_word(line: &str) -> (&str, &str) {
    line.split_once(' ').unwrap_or((line, ""))
}

fn is_status(status: u16) -> bool
    ensures { result ≡ is_status status }
{
    [200, 204, 400, 404, 405, 411, 413, 415, 500].contains(&status)
}

/// A port whose call of this number, counted from 1, fails.
fn port_failing_at(alloc: Global, call: u64) -> Result<MemPort, AllocError> {
    let mut failing = List::new(alloc);
    failing.push(call)?;
    Ok(MemPort::of(alloc, Bytes::new(alloc), List::new(alloc), failing))
}

/// Why a message wasn't sent to its end, and what was sent.
fn push_sent(shown: &mut Text, ended: Result<(), HttpEnd>, sent: &[u8]) -> Result<(), AllocError> {
    push_end(shown, ended)?;
    let text = Text::from_string(String::from_utf8_lossy(shown.alloc(), sent)?)?;
    shown.push_str(escaped(&text)?.as_str())
}

/// Why a message wasn't sent to its end.
fn push_end(shown: &mut Text, ended: Result<(), HttpEnd>) -> Result<(), AllocError> {
    if let Err(end) = ended {
        let told = format!(in shown.alloc(); "{end}: ")?;
        shown.push_str(told.as_str())?;
    }
    Ok(())
}
