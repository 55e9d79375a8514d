//! Runs of `collect`, `forward`, `request` and `serve` over memory, in which requests are answered and replies are heard as in
//! `tests_exchanges`: how they end, what they print, and what is kept.
//!
//! `collect` serves `COUNT: CONNECTIONS`, so many of those that come, with ` next ` between them. Behind
//! `command` stands a command line, and behind it the responses that its link brings; behind `requested` one of a
//! collector that begins the subscription `link` at the source `pc1`. `served` serves `COUNT: CONNECTIONS` for a source,
//! behind which the responses stand; each connection has requests as `managed` has them, with ` and ` between them.
#![tactic(auto)]

mod collecting;
mod commands;
mod requesting;
mod runs;
mod serving;

use std::alloc::AllocError;
use wef_base::Text;

/// Appends the answer to a line of a task, and tells whether the task is one of these.
pub fn push_answer(shown: &mut Text, task: &str, line: &str) -> Result<bool, AllocError> {
    match task {
        // How the run ends.
        "collected" => collecting::push_collected(shown, line, 0, 0)?,
        // The same where one call of the front fails, for each call.
        "collect broken" => collecting::push_broken(shown, line)?,
        // The same where one write to the output fails, for each write.
        "collect untold" => collecting::push_untold(shown, line)?,
        // What the program prints.
        "command" => commands::push_ran(shown, line)?,
        // The same of a collector that asks its source, and what it asks then.
        "requested" => requesting::push_requested(shown, line, 0)?,
        // The same where one call of the link fails, for each call.
        "request broken" => requesting::push_broken(shown, line)?,
        // What a source prints that serves connections.
        "served" => serving::push_served(shown, line, 0, 0)?,
        // The same where one call of the front fails, for each call.
        "serve broken" => serving::push_broken(shown, line)?,
        // The same where one call of the link fails, for each call.
        "serve cut off" => serving::push_cut_off(shown, line)?,
        _ => return Ok(false),
    }
    Ok(true)
}
