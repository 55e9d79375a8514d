//! Sessions, and the batch that each sends next: built from the log's rows above the session's positions.
//!
//! It stands apart from the source end, which draws ids, keeps sessions and takes answers: a batch is a function of
//! rows and one session, so its proofs wait for no change of those calls.
#![tactic(auto)]

pub mod building;
mod drafting;
pub mod faults;
pub mod laws;
pub mod sessions;

pub use faults::SourceFault;
pub use sessions::{Lease, Outstanding, Session, copied, copied_address};
