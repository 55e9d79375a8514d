//! Schedules: what a replay is to do, line by line.
#![tactic(auto)]

mod batches;
mod cutting;
mod documents;
mod grammar;
mod half_words;
mod judging_lines;
pub mod laws;
mod lines;
mod naming;
mod pieces;
mod schedule;
mod spelled;

pub use judging_lines::is_line;
pub use lines::Line;
pub use schedule::{SCHEDULE_LIMIT, ScheduleFault, read_schedule};
pub use spelled::SpelledBatch;
pub use wef_replay_values::EndName;
