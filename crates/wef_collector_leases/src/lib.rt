//! The subscriptions that the collector begins: how long each source goes on sending, which of them
//! is to be asked for what, and the requests that wait for their answers. It stands below
//! wef_collector, as functions over rows and lists.
#![tactic(auto)]

pub mod changes;
pub mod due;
pub mod laws;
pub mod leases;
pub mod next;
pub mod waiting;

pub use leases::{Lease, Wants};
pub use next::Due;
pub use waiting::{Waiting, WaitingList};
