//! What the lines of a schedule print.
#![tactic(auto)]

pub mod printing;
