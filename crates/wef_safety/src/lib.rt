//! What every step of a good schedule keeps, and that it is safe.
#![tactic(auto)]

pub mod laws;
