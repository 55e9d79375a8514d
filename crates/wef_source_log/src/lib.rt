//! The log of a source: each channel's records, numbered 1, 2, 3 and so on, of which the last ones
//! are kept. It stands apart from wef_source: a log knows no session.
#![tactic(auto)]

mod changing;
pub mod faults;
mod forms;
pub mod keys;
pub mod laws;
pub mod logs;
mod reading;

pub use faults::LogFault;
pub use logs::Log;
