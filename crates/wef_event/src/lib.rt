//! Events: records of a channel, as trees of XML and their text.
#![tactic(auto)]

pub mod characters;
pub mod laws;
mod lengths;
mod loose;
pub mod numbering;
mod paths;
pub mod plain;
pub mod reading;
mod recognising;
pub mod records;
pub mod unnumbered;

pub use plain::{EVENT_LIMIT, plain_event};
pub use reading::{event_of_node, read_event, read_new_event};
pub use recognising::{Label, recognised};
pub use records::{Event, EventFault};
pub use unnumbered::PlainEvent;
