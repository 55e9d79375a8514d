//! The requests of a collector that begins subscriptions by itself, as bytes, and the laws that a source hears each as it
//! was meant, and that a collector so reads what it answers.
#![tactic(auto)]

pub mod laws;
pub mod requests;

pub use requests::write_request;
