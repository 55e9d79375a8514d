//! Lines that the commands and schedules have in common: the documents that stand in them, and the lines
//! of names and of events.
#![tactic(auto)]

mod documents;
mod printing;

pub use documents::{list_in, tree_in};
pub use printing::{name_line, push_events};
