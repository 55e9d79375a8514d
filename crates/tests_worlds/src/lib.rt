//! What a world hands to its answers.
#![tactic(auto)]

mod heard;

use heard::push_heard;
use std::alloc::AllocError;
use wef_base::Text;

/// Appends the answer to a line of a task, and tells whether the task is one of these.
pub fn push_answer(shown: &mut Text, task: &str, line: &str) -> Result<bool, AllocError> {
    match task {
        // How many messages a world hands to its answers, as it shows them.
        "heard" => push_heard(shown, line)?,
        _ => return Ok(false),
    }
    Ok(true)
}
