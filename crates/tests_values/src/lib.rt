//! Values, each with what is told of it, and queries that are asked of events.
#![tactic(auto)]

mod addresses;
mod asking;
mod batches;
mod bookmarks;
mod channels;
mod query_lists;
mod silence;
mod times;

use addresses::{push_address, push_named};
use asking::{push_event, push_list, push_path};
use batches::push_batch;
use bookmarks::push_bookmarks;
use query_lists::push_document;
use silence::{push_due, push_status};
use std::alloc::AllocError;
use tests_tasks::rows::or_no_row;
use times::{push_duration, push_expiry, push_instant};
use wef_base::Text;

/// Appends the answer to a line of a task, and tells whether the task is one of these.
pub fn push_answer(shown: &mut Text, task: &str, line: &str) -> Result<bool, AllocError> {
    let pushed = match task {
        // The numbers of two lists of words `CHANNEL:NUMBER`, and of both joined.
        "bookmarks" => or_no_row(push_bookmarks(shown, line), shown),
        // What is told of the batch that words of a schedule spell.
        "batch" => or_no_row(push_batch(shown, line), shown),
        // The items of a document's list of queries.
        "query list" => push_document(shown, line),
        // Where `HOST, SUBSCRIPTION, SOURCE` is sent to.
        "address of" => or_no_row(push_named(shown, line), shown),
        // Where an address leads.
        "address" => push_address(shown, line),
        // The milliseconds of a duration.
        "duration" => or_no_row(push_duration(shown, line), shown),
        // The nanoseconds of an instant.
        "instant" => or_no_row(push_instant(shown, line), shown),
        // How far from a moment an expiry is, as `MOMENT, EXPIRY`.
        "expiry" => or_no_row(push_expiry(shown, line), shown),
        // Whether a heartbeat is due, as `LAST, INTERVAL, NOW`.
        "due" => push_due(shown, line),
        // Whether a source is heard of, as `HEARD, INTERVAL, NOW`.
        "status" => push_status(shown, line),
        // Whether a Select of this text on `Security` selects the event that all are asked of.
        "asked event" => or_no_row(push_event(shown, line), shown),
        // The same of `DOCUMENT ? TEXT` and the document.
        "asked path" => or_no_row(push_path(shown, line), shown),
        // The channels of a whole QueryList, and whether it selects that event.
        "asked list" => or_no_row(push_list(shown, line), shown),
        _ => return Ok(false),
    };
    pushed?;
    Ok(true)
}
