//! Runs of `wef` over memory: commands over one store, schedules whose streams and commits fail, lines that
//! are bad or come to limits; pages of held events, an event at its greatest length, numbers at their greatest,
//! and which sources are silent.
//!
//! A run is a command line, what it reads behind ` < `, and in front of both `read 1 fails: ` or
//! `write 2 fails: ` where that call of a stream fails, and in front of all `at 60000: ` where the clock says
//! another moment than the first; runs over one store have ` then ` between them. All of it has the escapes
//! of Rust's literals. `|PIECE|COUNT|` stands for so many of a piece, in which `@` is
//! the number of each, and then `~PIECE~COUNT~` does in what is read; `|PIECE|000-255|` for one with each of
//! these numbers. A run comes to its status, what it tells, and what it prints, line by line where that is long.
#![tactic(auto)]

mod failures;
mod greatest;
mod held;
mod lengths;
pub mod outcomes;
pub mod repeats;
pub mod runs;
mod shown;
mod statuses;

use failures::push_armed;
use greatest::{push_greatest, push_spent};
use held::push_events;
use lengths::push_length;
use runs::{push_last, push_runs};
use statuses::push_statuses;
use std::alloc::AllocError;
use wef_base::Text;

/// Appends the answer to a line of a task, and tells whether the task is one of these.
pub fn push_answer(shown: &mut Text, task: &str, line: &str) -> Result<bool, AllocError> {
    let pushed = match task {
        // Runs over one store, one after the other.
        "commands" => push_runs(shown, line),
        // The end of a schedule, behind a line that adds a subscription.
        "last" => push_last(shown, line),
        // What is kept where this is armed in front of each line of a schedule.
        "armed" => push_armed(shown, line),
        // What `events` prints of so many held events.
        "events" => push_events(shown, number_of(line)),
        // The length of an event's text, where what is read has pieces that are repeated.
        "length" => push_length(shown, line),
        // What runs come to over a store whose log, or whose end, has one number at its greatest: `NUMBER: RUNS`,
        // NUMBER being `last number`, `source's boot` or `collector's boot`.
        "greatest" => push_greatest(shown, line),
        // What the runs among these steps come to, with `; ` between them, over the rows that the steps before them put:
        // `live NAME SECONDS SOURCES` and `ended ..` put a subscription that the collector begins, and `offered ..` one that
        // sources begin; `heard NAME AT SOURCES` puts when sources were heard. Pieces may be repeated.
        "statuses" => push_statuses(shown, line),
        // What is told where a source has no ids left.
        "spent" => push_spent(shown),
        _ => return Ok(false),
    };
    pushed?;
    Ok(true)
}

fn number_of(word: &str) -> u64 {
    word.parse().unwrap_or(0)
}
