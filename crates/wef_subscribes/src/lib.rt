//! The body of a Subscribe, read and written, and why elements say no body. It stands apart from the other
//! bodies, of which most are an element or two, since it is half of all that is proved of bodies: an edit of
//! theirs proves none of it anew.
#![tactic(auto)]

pub mod addresses;
pub mod children;
pub mod faults;
pub mod laws;
pub mod limits;
pub mod spaces;
pub mod subscribes;
pub mod wishes;

pub use faults::{BodyFault, Part};
