//! The program `wef`, but for the real streams and the real store: a command line, a keeper of rows, an
//! input, an output and a place for messages, and the one call that does all of it.
#![tactic(auto)]

pub mod laws;
mod making;
mod runs;
mod top;

pub use top::run;
pub use wef_command_line::Command;
pub use wef_commands::Ending;
