//! A source's exchanges over a link: its wish for subscriptions, and its batches.
#![tactic(auto)]

pub mod addresses;
pub mod asking;
pub mod exchanges;
pub mod forwarding;

pub use asking::ask_once;
pub use exchanges::FrontFault;
pub use forwarding::{Exchange, forward_once};
