//! That settling leaves nothing unsent: what it does, and what is so after it.
#![tactic(auto)]

pub mod laws;
