//! The source as an end that is served: each request of a connection gets the source's answer. It
//! stands apart from wef_front, which knows no connection.
#![tactic(auto)]

pub mod answering;
pub mod serving;

pub use answering::SourceAnswers;
pub use serving::{serve_next_source_connection, serve_source_connection};
pub use wef_serving::ConnectionEnd;
