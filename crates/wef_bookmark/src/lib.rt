//! Bookmarks: how far each channel was read.
#![tactic(auto)]

pub mod marking;
pub mod nodes;
pub mod order;

pub use marking::{Bookmark, BookmarkFault};
