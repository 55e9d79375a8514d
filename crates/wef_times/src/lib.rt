//! Durations, instants and expiries, as texts.
#![tactic(auto)]

mod calendar;
mod digits;
pub mod durations;
pub mod expiry;
mod forms;
pub mod instants;

pub use durations::{read_duration, write_duration};
pub use expiry::read_expiry;
pub use instants::{instant_at, read_instant};
