//! Subscriptions, offers of them, and the addresses that their batches go to.
#![tactic(auto)]

pub mod addresses;
pub mod offers;
pub mod subscriptions;
pub mod targets;

pub use addresses::{delivery_address, source_in, subscription_in};
pub use offers::{Offer, Subscribe};
pub use subscriptions::{EndStatus, SourceAt, SubKind, Subscription};
pub use targets::{is_address, is_delivery};
