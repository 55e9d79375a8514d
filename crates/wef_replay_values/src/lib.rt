//! The words of a schedule's lines as values, and why a line isn't read. They stand apart from
//! wef_replay: a word knows no line that it stands in, and the machine reads words alone.
#![tactic(auto)]

mod end_name;
mod last_channel;
pub mod values;

pub use end_name::EndName;
pub use last_channel::LastChannel;
pub use values::LineFault;
