//! A link that does what lines say.

use std::alloc::AllocError;
use std::str;
use tests_tasks::escapes::unescaped;
use wef_base::{IoFailed, Text};
use wef_connections::Link;
use wef_ports::Port;

/// Does what a line says with a link, and appends what comes of it. `connects ADDRESS` makes a
/// connection, `writes TEXT` writes a text with the escapes of Rust's literals, `fills COUNT` writes so
/// many thousand letters, and `reads` shows the first line of what comes.
pub fn push_answer<L: Link>(shown: &mut Text, link: &mut L, line: &str) -> Result<(), AllocError> {
    let alloc = shown.alloc();
    let (call, words) = line.split_once(' ').unwrap_or((line, ""));
    match call {
        "connects" => push_done(shown, link.connect(&Text::from_str(alloc, words)?)),
        "writes" => push_done(shown, written(link, unescaped(alloc, words)?.as_slice())),
        "fills" => push_done(shown, filled(link, words.parse().unwrap_or(0))),
        _ => push_read(shown, link),
    }
}

fn push_done(shown: &mut Text, answer: Result<(), IoFailed>) -> Result<(), AllocError> {
    match answer {
        Ok(()) => shown.push_str("done"),
        Err(_) => shown.push_str("failed"),
    }
}

/// Writes a whole text.
fn written<P: Port>(port: &mut P, text: &[u8]) -> Result<(), IoFailed> {
    let mut rest = text;
    for _ in 0..text.len() {
        if rest.is_empty() {
            break;
        }
        let count = port.write(rest)?;
        rest = &rest[count..];
    }
    Ok(())
}

/// Writes so many thousand letters, a thousand at once.
fn filled<P: Port>(port: &mut P, count: u64) -> Result<(), IoFailed> {
    for _ in 0..count {
        written(port, &[b'x'; 1_000])?;
    }
    Ok(())
}

/// Appends the first line of what comes, or what is there of it.
fn push_read<P: Port>(shown: &mut Text, port: &mut P) -> Result<(), AllocError> {
    let mut buf = [0; 64];
    match port.read(&mut buf) {
        Ok(count) => shown.push_str(first_line(&buf[..count])),
        Err(_) => shown.push_str("failed"),
    }
}

fn first_line(bytes: &[u8]) -> &str {
    let text = str::from_utf8(bytes).unwrap_or("no text");
    text.lines().next().unwrap_or("")
}
