//! Calls of a front and of a link, and what they answer, in words.

use std::alloc::AllocError;
use std::str;
use wef_base::{IoFailed, Text};
use wef_connections::{Front, Link};
use wef_ports::Port;

/// The first of the calls that doesn't answer as it should, if there is one. Each is `CALL = ANSWER`, with `; `
/// between them; what is written stands behind `writes`.
pub fn first_wrong<'a, F: Front, L: Link>(
    front: &mut F,
    link: &mut L,
    address: &Text,
    calls: &'a str,
) -> Result<Option<&'a str>, AllocError> {
    for call in calls.split("; ") {
        let (words, answer) = call.split_once(" = ").unwrap_or((call, ""));
        let mut told = Text::new(address.alloc());
        say(&mut told, front, link, address, words)?;
        if told.as_str() != answer {
            return Ok(Some(call));
        }
    }
    Ok(None)
}

fn say<F: Front, L: Link>(
    told: &mut Text,
    front: &mut F,
    link: &mut L,
    address: &Text,
    words: &str,
) -> Result<(), AllocError> {
    let (who, call) = words.split_once(' ').unwrap_or((words, ""));
    match (who, call) {
        ("front", "binds") => say_opening(told, front.bind(address)),
        ("front", "accepts") => say_opening(told, front.accept()),
        ("front", "closes") => Ok(front.close()),
        ("front", _) => say_exchange(told, front, call),
        (_, "connects") => say_opening(told, link.connect(address)),
        (_, "closes") => Ok(link.close()),
        _ => say_exchange(told, link, call),
    }
}

fn say_opening(told: &mut Text, answer: Result<(), IoFailed>) -> Result<(), AllocError> {
    match answer {
        Ok(()) => told.push_str("done"),
        Err(_) => told.push_str("failed"),
    }
}

fn say_exchange<P: Port>(told: &mut Text, port: &mut P, call: &str) -> Result<(), AllocError> {
    match call.strip_prefix("writes ") {
        Some(text) => say_writing(told, port, text),
        None => say_reading(told, port),
    }
}

fn say_reading<P: Port>(told: &mut Text, port: &mut P) -> Result<(), AllocError> {
    let mut buf = [0; 8];
    match port.read(&mut buf) {
        Ok(count) => told.push_str(str::from_utf8(&buf[..count]).unwrap_or("no text")),
        Err(_) => told.push_str("failed"),
    }
}

fn say_writing<P: Port>(told: &mut Text, port: &mut P, text: &str) -> Result<(), AllocError> {
    match port.write(text.as_bytes()) {
        Ok(count) => told.push_number(count as u64),
        Err(_) => told.push_str("failed"),
    }
}
