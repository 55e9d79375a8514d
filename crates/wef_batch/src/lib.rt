//! Batches: what a source delivers at once, when a batch is well-formed, and batches as elements of a message.
#![tactic(auto)]

pub mod costing;
pub mod items;
pub mod judging;
pub mod laws;
pub mod reaching;
pub mod reading;
pub mod writing;

pub use costing::cost;
pub use items::{Batch, Item};
pub use judging::{items_are_reached, judge, loose_sum};
pub use reaching::reach;
pub use reading::{BatchFault, read_batch};
pub use writing::write_batch;
