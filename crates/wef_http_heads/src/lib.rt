//! Heads of HTTP messages: what is judged of a request or a response before its body is read. They
//! stand apart from wef_http: a head is judged as bytes in memory, without a port.
#![tactic(auto)]

pub mod answers;
pub mod ends;
pub mod fields;
pub mod framing;
pub mod heads;
pub mod judging;
pub mod laws;
pub mod media;
pub mod plans;
pub mod targets;

pub use answers::Answer;
pub use ends::HttpEnd;
pub use heads::{BODY_LIMIT, HEAD_LIMIT, find_request_head, find_response_head};
pub use plans::{Found, Framing, RequestPlan, ResponsePlan};
pub use targets::{MANAGER_PATH, Side, Target};
