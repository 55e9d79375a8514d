//! Documents, each with what it spells; and texts, with whether each is seen to be an event's in one pass,
//! and what becomes of those that differ from it in one character. A text that is seen so is read the long
//! way too: what differs is counted.
//!
//! What a line holds, and what is told of it, has the escapes of Rust's literals: `\n`, `\r`, `\t`, `\0`,
//! `\xFF` and `\u{FEFF}`.
#![tactic(auto)]

mod batches;
mod events;
mod others;
mod seen;
mod trees;

use batches::{push_batch, push_bookmark, push_written_item};
use events::{push_event, push_numbered, push_parts, push_plain};
use std::alloc::AllocError;
use tests_tasks::spelt::{push_of_bytes, push_of_text};
use trees::{push_cuts, push_judgement, push_reading, push_written};
use wef_base::{Charset, Text};

/// Appends the answer to a line of a task, and tells whether the task is one of these.
pub fn push_answer(shown: &mut Text, task: &str, line: &str) -> Result<bool, AllocError> {
    let charset = charset_of(task);
    let pushed = match task {
        // Its tree.
        "utf-8" | "utf-16" => push_of_bytes(shown, line, charset, push_reading),
        // Its tree, and the faults of what stands before each byte.
        "cut" | "cut utf-16" => push_of_bytes(shown, line, charset, push_cuts),
        // Its tree's one text.
        "written" | "written in utf-16" => push_of_bytes(shown, line, charset, push_written),
        // Whether a text has the characters of XML alone.
        "characters" => push_of_text(shown, line, push_judgement),
        // Its event.
        "event" => push_of_text(shown, line, push_event),
        // The event of `NUMBER TEXT`.
        "number" => push_of_text(shown, line, push_numbered),
        // Whether `CHANNEL NUMBER TEXT` is an event.
        "parts" | "seen parts" => push_of_text(shown, line, push_parts),
        // Its bookmark.
        "bookmark" => push_of_text(shown, line, push_bookmark),
        // The batch of `HEADER|ELEMENT|ELEMENT`.
        "batch" => push_of_text(shown, line, push_batch),
        // What the item costs, and its tree.
        "item" => push_of_text(shown, line, push_written_item),
        // The plain event of `NUMBER ID LEVEL WORD`.
        "plain" => push_of_text(shown, line, push_plain),
        // What is seen in one pass, and of the texts that differ in one character.
        "seen text" => push_of_text(shown, line, seen::push_all),
        // The same, of the text alone.
        "seen" => push_of_text(shown, line, seen::push_seen),
        _ => return Ok(false),
    };
    pushed?;
    Ok(true)
}

/// The charset of the bytes that a line of a task has.
fn charset_of(task: &str) -> Charset {
    match task {
        "utf-16" | "cut utf-16" | "written in utf-16" => Charset::Utf16,
        _ => Charset::Utf8,
    }
}
