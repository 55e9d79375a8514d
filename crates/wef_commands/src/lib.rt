//! The commands over a store and streams, and what all commands have in common: how they end, what
//! is told of a call of the collector, and whole inputs and texts. They stand apart from
//! wef_running: none of these needs a connection.
#![tactic(auto)]

mod adding;
mod calling;
mod checking;
mod ending;
pub mod events;
pub mod laws;
mod listing;
mod refusals;
mod removing;
mod showing;
mod statuses;
mod streams;
mod writing;

pub use adding::add;
pub use calling::tell_line;
pub use checking::check;
pub use ending::Ending;
pub use listing::list;
pub use removing::remove;
pub use showing::show;
pub use statuses::status;
pub use streams::{INPUT_LIMIT, InputFault, read_whole, write_whole};
pub use writing::{LOG_CAPACITY, write};
