//! The rows that an end keeps, in a SQLite database.
#![tactic(auto)]

pub mod columns;
pub mod database;
pub mod keeper;
pub mod opening;
pub mod place;
pub mod read;
pub mod refusal;
pub mod schema;
pub mod seen;
pub mod table;
pub mod write;

pub use keeper::SqlKeeper;
pub use opening::Opens;
