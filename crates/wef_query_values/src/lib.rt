//! Which nodes of an event a query's path reaches, and how what they say compares with what the
//! query writes out. It takes no memory: no list of nodes and no text is built. It stands apart
//! from wef_query: one path knows no list of queries.
#![tactic(auto)]

mod comparing;
mod feeding;
mod ignoring;
mod instants;
pub mod laws;
mod numbers;
mod operators;
mod slots;
pub mod spots;
mod texts;
mod walk;
mod wanted;

pub use comparing::{compares, has_bits, masked_compares};
pub use operators::mirrored;
pub use spots::Spot;
pub use walk::gives_node;
