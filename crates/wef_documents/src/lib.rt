//! Windows' subscription documents: what they say, and the documents that are written for subscriptions.
#![tactic(auto)]

pub mod addresses;
pub mod children;
pub mod faults;
pub mod kept;
pub mod laws;
pub mod limits;
pub mod names;
pub mod queries;
pub mod reading;
pub mod sources;
pub mod writing;

pub use faults::{DocumentFault, Part};
pub use kept::{all_events_read_back, read_kept};
pub use reading::read_document;
pub use writing::write_document;
