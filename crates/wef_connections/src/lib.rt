//! Connections one after the other: what is asked of who takes them and of who makes them, and both
//! in memory.
#![tactic(auto)]

pub mod fronts;
pub mod links;
pub mod memory;

pub use fronts::Front;
pub use links::Link;
pub use memory::{MemConnection, MemConnections, MemFront, MemLink};
