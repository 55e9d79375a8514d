//! Connections over TCP. No contract says what a peer does or receives: these tell their counts alone.
#![tactic(auto)]

pub mod fronts;
pub mod links;
mod streams;

pub use fronts::TcpFront;
pub use links::TcpLink;
