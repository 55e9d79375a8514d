//! Envelopes of SOAP: their headers by name, faults, and the texts that all messages share.
#![tactic(auto)]

pub mod actions;
pub mod envelopes;
pub mod faults;
pub mod headers;
pub mod laws;
pub mod reading;
pub mod writing;

pub use envelopes::{Envelope, EnvelopeFault};
pub use faults::{Fault, FaultCode, fault_node, read_fault};
pub use headers::Header;
pub use reading::{from_node, id_in};
pub use wef_ids::{FaultName, Ids, MessageId, id_text, read_id};
pub use writing::to_node;
