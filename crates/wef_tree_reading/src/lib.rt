//! Reading documents as trees, exactly. It stands apart from wef_tree_writing, since neither uses
//! the other; wef_tree says what both are to each other.
#![tactic(auto)]

mod attributes;
mod building;
mod faults;
mod known;
pub mod laws;
mod reading;
mod scopes;
mod spaces;
mod stack;

pub use reading::{read_told_tree, read_tree};
