//! A collector that tests ask, the requests that it is asked with, and what it keeps; and a source.
#![tactic(auto)]

pub mod collectors;
pub mod requests;
pub mod sources;
