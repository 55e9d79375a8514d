//! What is proved of the folders that people keep: of one collector's and those of any number of sources,
//! whatever runs over them, and wherever it is killed.
#![tactic(auto)]

pub mod laws;
