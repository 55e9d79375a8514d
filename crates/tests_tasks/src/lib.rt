//! What the crates of tests share that answer lines.
#![tactic(auto)]

pub mod deliveries;
pub mod escapes;
pub mod hexadecimal;
pub mod rows;
pub mod runs;
pub mod spelt;
pub mod utf16;
