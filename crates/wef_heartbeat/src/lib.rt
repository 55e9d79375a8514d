//! Heartbeats: when a source that has nothing to send is to say so, which source is silent, and the message itself. It
//! stands below both ends.
#![tactic(auto)]

pub mod messages;
pub mod silence;

pub use messages::{Heartbeat, heartbeat_envelope};
pub use silence::{Status, due};
