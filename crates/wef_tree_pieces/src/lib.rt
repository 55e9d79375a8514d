//! The pieces that a document of XML is a list of, read one by one. It stands apart from
//! wef_tree_reading: what one piece is needs no tree, and is proved without one.
#![tactic(auto)]

mod faults;
mod headings;
mod names;
mod pieces;
mod references;
mod sections;
mod sharing;
mod tags;
mod values;

pub use faults::Halt;
pub use names::{Name, Spelling};
pub use pieces::{Piece, piece_at};
pub use sharing::Names;
pub use tags::{Given, Tag};
