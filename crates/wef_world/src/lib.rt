//! The ends that a schedule moves, and what its lines do to them and print.
#![tactic(auto)]

mod deliveries;
mod ends;
mod requesting;
mod settling;
mod source_lines;
mod world;

pub use wef_places::{Answers, Shipped, WorldFault};
pub use world::World;
