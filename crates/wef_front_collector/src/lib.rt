//! The collector's side of messages as bytes: what it hears in a request, what it does with that, and its answer; and what
//! it hears in an answer to a request of its own.
#![tactic(auto)]

pub mod answering;
mod hearing;
pub mod listening;
mod saying;

pub use answering::collector_answer;
pub use listening::{Hears, collector_hears, read_response};
