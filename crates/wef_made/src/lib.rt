//! Schedules that a number makes: the numbers that a seed gives, and the lines that they stand for.
#![tactic(auto)]

mod draws;
pub mod laws;
mod lines;
mod schedule;

pub use draws::Draws;
pub use lines::{closing_lines, drawn_lines, opening_lines};
pub use schedule::make_schedule;
