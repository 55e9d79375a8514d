//! The commands of a subscription that the collector begins: `request`, by which it asks its sources, and
//! `serve`, by which a source answers it and sends what it has. They stand apart from wef_running, since
//! each uses what that has for the other end.
#![tactic(auto)]

pub mod laws;
mod requesting;
mod serving;

pub use requesting::request;
pub use serving::serve;
