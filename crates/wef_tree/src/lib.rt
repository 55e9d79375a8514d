//! XML trees: reading documents exactly, and writing each tree in one way. Reading and writing are crates of their own.
#![tactic(auto)]

pub mod laws;

pub use wef_base::{Attribute, Charset, Element, Namespace, Node};
pub use wef_tree_reading::{read_told_tree, read_tree};
pub use wef_tree_writing::{
    write_element_within, write_told_tree, write_told_tree_within, write_tree, write_tree_within,
};
pub use wef_xml::{ToldTree, TreeFault};
