//! The tokens of paths in queries, and how a text is read as them. They stand apart from
//! wef_query_paths: a token knows characters, and no step of a path.
#![tactic(auto)]

mod axis;
mod halt;
pub mod laws;
mod operator;
mod tokens;

pub use axis::Axis;
pub use halt::Halt;
pub use operator::Operator;
pub use tokens::{Token, behind_spaces, is_name_start, token_at};
