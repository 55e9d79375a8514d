//! What is told of a world at its end: how much its sources wrote, and what its collector made of it.
#![tactic(auto)]

mod counting;
mod telling;

pub use telling::summary;
