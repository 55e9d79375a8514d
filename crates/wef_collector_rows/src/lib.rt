//! What the collector keeps: the keys and forms of its rows, reading them, and what they say of a
//! subscription and of how far a source was served. It stands apart from wef_collector, whose calls
//! change rows: here they are read, which reports and commands do too.
#![tactic(auto)]

pub mod bookmarks;
pub mod faults;
pub mod forms;
pub mod keys;
pub mod numbers;
pub mod standings;

pub use faults::CollectorFault;
pub use forms::CollectorForm;
pub use standings::Standing;
