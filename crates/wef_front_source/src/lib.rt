//! The source's side of messages as bytes: what it sends, what it hears in a reply, and what it answers to a collector
//! that begins subscriptions by itself.
#![tactic(auto)]

pub mod answering;
mod hearing;
pub mod listening;
mod saying;
pub mod sending;

pub use answering::source_answer;
pub use listening::{Hears, read_reply, source_hears};
pub use sending::{write_beat, write_delivery, write_end, write_enumerate};
