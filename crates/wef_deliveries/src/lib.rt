//! What the two ends make of a message that is delivered, as functions over their places: the collector
//! of asks, deliveries, heartbeats, notes, answers and batches, a source of answers and requests. They
//! stand apart from wef_world: none of them knows a world, or how a message came.
#![tactic(auto)]

pub mod giving;
pub mod taken;
pub mod taking;
