//! The words of the command line, and the command that they ask for.
#![tactic(auto)]

mod app;
mod command;
mod values;

pub use command::Command;
