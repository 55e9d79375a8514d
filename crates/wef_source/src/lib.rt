//! The source end: a log, and the sessions in which its events are sent.
#![tactic(auto)]

mod accepting;
mod adopting;
mod ending;
pub mod laws;
pub mod memories;
pub mod messages;
mod sending;
mod serving;
pub mod source;

pub use memories::Memory;
pub use messages::{Accepted, Delivery, EndNote, Moved, Poll, Reply};
pub use source::SourceEnd;
pub use wef_building::{Lease, Outstanding, Session, SourceFault};
