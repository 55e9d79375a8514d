//! The commands that run over connections: `collect` takes them, and `forward` makes them. They
//! stand apart from wef_commands, which need no connection.
#![tactic(auto)]

mod collecting;
mod forwarding;
pub mod laws;

pub use collecting::{collect, listening_line, tell_connection};
pub use forwarding::{forward, send_next};
