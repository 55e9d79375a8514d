//! The collector: subscriptions, the batches that sources deliver for them, what it asks of sources by
//! itself, and what is kept.
#![tactic(auto)]

pub mod asking;
mod calling;
mod changes;
mod collector;
mod effects;
pub mod laws;
mod leasing;
pub mod memories;
mod offering;
mod reading;
pub mod responses;

pub use asking::Request;
pub use collector::Collector;
pub use effects::MOST_SUBSCRIPTIONS;
pub use memories::Memory;
pub use responses::{Answered, Response};
pub use wef_collector_reports::Listed;
pub use wef_collector_rows::{CollectorFault, Standing};
