//! The ends of a world in their places: the collector, and each source that was declared. Each runs
//! or not, over a store in memory whose next commit may be armed to fail. They stand apart from
//! wef_world: a place knows its own end, and no message between two.
#![tactic(auto)]

pub mod answers;
pub mod collecting;
pub mod faults;
pub mod histories;
pub mod places;
pub mod slots;
pub mod sources;

pub use answers::{Answers, Shipped};
pub use faults::WorldFault;
