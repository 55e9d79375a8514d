//! Ids, envelopes, faults, bodies and documents of subscriptions, each with what it says.
//!
//! In a document of a message `$` and a prefix is the namespace that this prefix has in written messages,
//! and `$*` all declarations of these.
#![tactic(auto)]

mod bodies;
mod documents;
mod envelopes;
mod faults;
mod ids;
mod shown;
mod subscriptions;
mod subscriptions_written;
mod trees;
mod wide;

use bodies::{push_again, push_body};
use envelopes::{push_answered, push_document, push_headers, push_written};
use faults::{push_fault, push_named};
use ids::{push_id, push_value};
use std::alloc::AllocError;
use subscriptions::{BY_COLLECTOR, BY_SOURCE};
use wef_base::Text;
use wide::{push_big, push_little};

/// Appends the answer to a line of a task, and tells whether the task is one of these.
pub fn push_answer(shown: &mut Text, task: &str, line: &str) -> Result<bool, AllocError> {
    let pushed = match task {
        // The value of a text.
        "id" => push_id(shown, line),
        // The text of the id of `BOOT SEQUENCE`.
        "value" => push_value(shown, line),
        // What a document says.
        "envelope" => push_document(shown, line),
        // What an envelope with these headers says.
        "headers" => push_headers(shown, line),
        // The tree that is written for an envelope with these headers.
        "written" => push_written(shown, line),
        // The id that an answer to an envelope with these headers relates to.
        "answered" => push_answered(shown, line),
        // The fault that a document is.
        "fault" => push_fault(shown, line),
        // The action and the tree of the fault of a name.
        "name" => push_named(shown, line),
        // What the body of a message says.
        "body" => push_body(shown, line),
        // The body that is written for what the body of a message says.
        "body written" => push_again(shown, line),
        // What the bytes of a document say.
        "subscription" => subscriptions::push_document(shown, line),
        // What a document of a subscription that sources begin says, with edits.
        "source initiated" => subscriptions::push_edited(shown, BY_SOURCE, line),
        // The same of one that the collector begins.
        "collector initiated" => subscriptions::push_edited(shown, BY_COLLECTOR, line),
        // What the first document says with edits, in UTF-16 behind a byte order mark.
        "little" => push_little(shown, line),
        // The same, with the high byte first.
        "big" => push_big(shown, line),
        // The document that is written for what the first document says with edits, and what that
        // says.
        "subscription written" => subscriptions_written::push_written(shown, BY_SOURCE, line),
        // The same of the second document.
        "collector initiated written" => subscriptions_written::push_written(
            shown,
            BY_COLLECTOR,
            line,
        ),
        _ => return Ok(false),
    };
    pushed?;
    Ok(true)
}
