//! The collector over a link: each request to a source whose subscription it begins by itself is an
//! exchange in a connection of its own. It stands beside wef_forwarding, where a source does so.
#![tactic(auto)]

pub mod laws;
pub mod requesting;

pub use requesting::{Outcome, RequestFault, Sent, request_once};
