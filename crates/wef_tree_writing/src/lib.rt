//! Writing trees as documents, each in one way. It stands apart from wef_tree_reading, since
//! neither uses the other; wef_tree says what both are to each other.
#![tactic(auto)]

mod bindings;
mod escaping;
mod markup;
mod pieces;
mod prefixes;
mod soap;
mod space_sets;
mod text_sets;
mod writing;

pub use writing::{
    write_element_within, write_told_tree, write_told_tree_within, write_tree, write_tree_within,
};
