//! The collector as an end that is served: each request of a connection gets the collector's
//! answer. It stands apart from wef_front, which knows no connection.
#![tactic(auto)]

pub mod answering;
pub mod laws;
pub mod serving;

pub use answering::CollectorAnswers;
pub use serving::{serve_connection, serve_next_connection};
pub use wef_serving::ConnectionEnd;
