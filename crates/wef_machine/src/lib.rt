//! What a schedule does, as a machine: what a world holds, and the step of each line. It is definitions
//! almost alone, and stands apart from wef_world, whose code does what they say.
#![tactic(auto)]

pub mod arming;
pub mod messages;
pub mod verdicts;

pub use arming::{Armed, Fate};
pub use messages::Message;
pub use verdicts::Verdict;
