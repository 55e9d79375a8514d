//! What is kept of a source's channel for a subscription, when it is safe, and that taking a batch that
//! fits what the source wrote leaves it so.
#![tactic(auto)]

pub mod laws;
