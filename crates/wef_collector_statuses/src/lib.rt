//! Which sources of a subscription are silent.
#![tactic(auto)]

mod lines;
pub mod statuses;
