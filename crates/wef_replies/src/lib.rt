//! What both ends do alike where a message is to be answered, or answers: a message that can't be read is refused, a
//! fault is found in one, and a reply is written as bytes.
#![tactic(auto)]

pub mod faults;
pub mod refusals;
pub mod replies;

pub use faults::fault_among;
pub use refusals::{envelope_refused, is_nameless, tree_refused};
pub use replies::{envelope_with, write_answer, write_fault};
