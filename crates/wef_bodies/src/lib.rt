//! The bodies of messages: what their elements say, and the elements that are written for them.
#![tactic(auto)]

pub mod bodies;
pub mod children;
pub mod laws;
pub mod leases;
pub mod offers;
pub mod reading;
pub mod spaces;
pub mod statuses;
pub mod telling;
pub mod writing;

pub use bodies::Body;
pub use leases::read_end;
pub use offers::read_offers;
pub use reading::{has_enumerate, read_body};
pub use wef_subscribes::{BodyFault, Part};
pub use writing::{write_body, write_offers};
