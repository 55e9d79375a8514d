//! What a text begins with, where it is to be the one text of a tree: characters, and tags without
//! prefixes. Nothing is copied, and nothing is said of texts that stand in other ways. It stands
//! apart from wef_event, which alone uses it: it speaks of characters, and of no event.
#![tactic(auto)]

pub mod characters;
pub mod cuts;
pub mod tags;
