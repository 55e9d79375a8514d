//! The outside of a connection, as traits: a port, which takes and gives bytes, and a clock.
#![tactic(auto)]

pub mod clocks;
pub mod failures;
pub mod memory;
pub mod pieces;
pub mod ports;

pub use clocks::{Clock, FixedClock, SystemClock};
pub use failures::Failures;
pub use memory::MemPort;
pub use pieces::Pieces;
pub use ports::Port;
