//! Stores that do what each line says: in memory, and in SQLite over disks in memory that may stop.
//!
//! A line is steps with `; ` between them. A step that changes rows names each by the parts of its key,
//! `KIND/SUBSCRIPTION/SOURCE/CHANNEL/NUMBER`, and by a value behind `=` where it puts the row; one without a
//! value is taken away. In SQLite a store is opened anew behind ` then `, over the same database. Steps behind
//! `collector ` are those of a collector over the store.
#![tactic(auto)]

mod beside;
mod databases;
mod many;
mod memory;
mod rows;
mod schedules;
mod steps;

use databases::{push_in_database, push_stopping};
use memory::push_in_memory;
use std::alloc::AllocError;
use wef_base::Text;

/// Appends the answer to a line of a task, and tells whether the task is one of these.
pub fn push_answer(shown: &mut Text, task: &str, line: &str) -> Result<bool, AllocError> {
    match task {
        // What comes of the steps in memory.
        "memory" => push_in_memory(shown, line)?,
        // What comes of them in SQLite.
        "sqlite" => push_in_database(shown, line)?,
        // The same over a disk that stops, for each number of calls that it lasts.
        "stopping" => push_stopping(shown, line)?,
        _ => return Ok(false),
    }
    Ok(true)
}
