//! What a query asks of an event: paths of steps to nodes of its tree. Reading a path needs no
//! event, so that it stands apart from what paths reach (wef_query_values).
#![tactic(auto)]

mod conditions;
mod faults;
pub mod laws;
mod path;
mod reading;
mod shared;
mod steps;
mod stops;
mod turns;
mod values;

pub use faults::PathFault;
pub use path::{And, Literal, NameTest, Or, Path, Predicate, Step, Unit, Value};
pub use reading::read_path;
pub use shared::Shared;
pub use wef_query_tokens::{Axis, Operator};
