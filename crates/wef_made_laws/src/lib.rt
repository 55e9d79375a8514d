//! That in the world that a made schedule leaves each record that was written is held or marked.
#![tactic(auto)]

pub mod laws;
