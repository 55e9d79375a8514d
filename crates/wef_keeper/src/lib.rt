//! The rows that an end keeps: a table in the order of its keys, read by pages, and changed by
//! whole lists of changes.
#![tactic(auto)]

pub mod access;
mod cells;
pub mod forms;
pub mod keeping;
pub mod keys;
pub mod kinds;
pub mod laws;
pub mod mem_keeper;
mod paging;
pub mod table;

pub use access::StoreFault;
pub use forms::{Changes, Form};
pub use keeping::{Keeper, KeeperFault, Plan};
pub use keys::{Cell, Change, Depth, Key, Row};
pub use kinds::{Owner, RowKind};
pub use mem_keeper::MemKeeper;
pub use table::Rows;
