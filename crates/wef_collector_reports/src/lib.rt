//! What people read of what the collector keeps: its subscriptions, the events that are held, and
//! the report. They stand apart from wef_collector, since they only read.
#![tactic(auto)]

pub mod held;
pub mod listing;
pub mod reporting;
mod runs;

pub use listing::Listed;
