//! HTTP messages, read from a port and written to one.
#![tactic(auto)]

pub mod bodies;
pub mod chunks;
pub mod filling;
pub mod head_texts;
pub mod heads;
pub mod held;
pub mod laws;
pub mod lines;
pub mod messages;
pub mod parts;
pub mod sending;
pub mod trailers;
pub mod watching;
pub mod writing;

pub use messages::{HttpRequest, HttpResponse, read_request, read_response};
pub use writing::{write_request, write_response};
