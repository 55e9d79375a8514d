//! Whole messages, read from a port.

use crate::shown::{push_charset, push_end, push_target};
use std::alloc::{AllocError, Global};
use tests_tasks::escapes::escaped;
use tests_tasks::hexadecimal::push_hexadecimal;
use wef_base::{Bytes, List, Text};
use wef_http::{HttpRequest, HttpResponse, read_request, read_response};
use wef_http_heads::Side;
use wef_ports::MemPort;

/// How many requests of a connection are read.
const REQUESTS: usize = 8;

/// What a connection is read as.
#[derive(Clone, Copy)]
pub(crate) enum Reading {
    /// Requests to an end.
    Requests(Side),
    /// One response.
    Response,
}

/// What is told of the bytes of a connection, and where they are told otherwise.
pub(crate) fn push_connection(
    shown: &mut Text,
    reading: Reading,
    bytes: &[u8],
) -> Result<(), AllocError> {
    let whole = answer_at_once(shown.alloc(), reading, bytes)?;
    shown.push_str(whole.as_str())?;
    push_differences(shown, reading, bytes)
}

/// Where the bytes of a connection are told otherwise than at once: cut in two at some byte, byte by
/// byte, or with a call of the port that fails.
pub(crate) fn push_differences(
    shown: &mut Text,
    reading: Reading,
    bytes: &[u8],
) -> Result<(), AllocError> {
    let alloc = shown.alloc();
    let whole = answer_at_once(alloc, reading, bytes)?;
    for place in 1..bytes.len() {
        let mut cuts = List::new(alloc);
        cuts.push(place)?;
        let cut = answers(alloc, reading, bytes, cuts, 0)?;
        push_difference(shown, &whole, "cut", place, &cut)?;
    }
    let single = answers(alloc, reading, bytes, each_place(alloc, bytes)?, 0)?;
    push_difference(shown, &whole, "by", 1, &single)?;
    push_failures(shown, reading, bytes, &whole)
}

/// What is told of the bytes of a connection that come at once.
pub(crate) fn answer_at_once(
    alloc: Global,
    reading: Reading,
    bytes: &[u8],
) -> Result<Text, AllocError> {
    answers(alloc, reading, bytes, List::new(alloc), 0)
}

fn push_difference(
    shown: &mut Text,
    whole: &Text,
    how: &str,
    place: usize,
    other: &Text,
) -> Result<(), AllocError> {
    if whole == other {
        return Ok(());
    }
    shown.push_str(", but ")?;
    shown.push_str(how)?;
    shown.push_str(" ")?;
    shown.push_number(place as u64)?;
    shown.push_str(": ")?;
    shown.push_str(other.as_str())
}

/// With each call failing in turn, the answers before it stay.
fn push_failures(
    shown: &mut Text,
    reading: Reading,
    bytes: &[u8],
    whole: &Text,
) -> Result<(), AllocError> {
    let alloc = shown.alloc();
    for call in 1..=bytes.len() + 1 {
        let places = each_place(alloc, bytes)?;
        let failed = answers(alloc, reading, bytes, places, call as u64)?;
        if !is_begun(whole.as_str(), failed.as_str()) {
            push_difference(shown, whole, "failing", call, &failed)?;
        }
    }
    Ok(())
}

/// Whether answers are all of a connection, or the first of them and then that the port failed.
fn is_begun(whole: &str, failed: &str) -> bool {
    match failed.strip_suffix("input or output failed") {
        Some(front) => whole.starts_with(front),
        None => whole == failed,
    }
}

/// A cut behind each byte.
fn each_place(alloc: Global, bytes: &[u8]) -> Result<List<usize>, AllocError> {
    let mut places = List::new(alloc);
    for place in 1..bytes.len() {
        places.push(place)?;
    }
    Ok(places)
}

/// What is read of bytes that come with these cuts, where the call of this number fails.
fn answers(
    alloc: Global,
    reading: Reading,
    bytes: &[u8],
    cuts: List<usize>,
    failing: u64,
) -> Result<Text, AllocError> {
    let mut calls = List::new(alloc);
    calls.push(failing)?;
    let mut port = MemPort::of(alloc, Bytes::from_slice(alloc, bytes)?, cuts, calls);
    let mut shown = Text::new(alloc);
    match reading {
        Reading::Requests(side) => push_requests(&mut shown, &mut port, side)?,
        Reading::Response => push_response(&mut shown, &mut port)?,
    }
    Ok(shown)
}

fn push_requests(shown: &mut Text, port: &mut MemPort, side: Side) -> Result<(), AllocError> {
    let alloc = shown.alloc();
    let mut rest = Bytes::new(alloc);
    for _ in 0..REQUESTS {
        match read_request(alloc, port, side, &mut rest) {
            Ok(request) => {
                push_request(shown, &request)?;
                if !request.keep {
                    return shown.push_str("closed");
                }
            }
            Err(end) => return push_end(shown, end),
        }
    }
    Ok(())
}

fn push_request(shown: &mut Text, request: &HttpRequest) -> Result<(), AllocError> {
    push_target(shown, &request.target)?;
    shown.push_str(" at ")?;
    shown.push_str(request.host.as_str())?;
    push_charset(shown, request.charset)?;
    push_body(shown, request.body.as_slice())?;
    shown.push_str("; ")
}

fn push_response(shown: &mut Text, port: &mut MemPort) -> Result<(), AllocError> {
    match read_response(shown.alloc(), port) {
        Ok(response) => push_read(shown, &response),
        Err(end) => push_end(shown, end),
    }
}

fn push_read(shown: &mut Text, response: &HttpResponse) -> Result<(), AllocError> {
    shown.push_number(u64::from(response.status))?;
    push_charset(shown, response.charset)?;
    push_body(shown, response.body.as_slice())
}

fn push_body(shown: &mut Text, body: &[u8]) -> Result<(), AllocError> {
    shown.push_str(", ")?;
    match std::str::from_utf8(body) {
        Ok(text) => {
            let text = Text::from_str(shown.alloc(), text)?;
            shown.push_str("\"")?;
            shown.push_str(escaped(&text)?.as_str())?;
            shown.push_str("\"")
        }
        Err(_) => push_hexadecimal(shown, body),
    }
}
