//! Connections served: each request that comes is answered, one after the other. It stands apart
//! from wef_http: a message knows no connection that goes on after it.
#![tactic(auto)]

pub mod answering;
pub mod ends;
pub mod fronts;
pub mod moments;
pub mod serving;
mod turns;

pub use answering::Answering;
pub use ends::ConnectionEnd;
pub use fronts::serve_next;
pub use moments::present;
pub use serving::serve;
pub use wef_http_heads::Answer;
