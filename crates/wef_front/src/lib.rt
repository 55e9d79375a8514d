//! Messages as bytes: what each end sends, answers and hears, and the laws of the two together.
#![tactic(auto)]

pub mod laws;

pub use wef_front_collector::{collector_answer, collector_hears, read_response};
pub use wef_front_source::{
    Hears, read_reply, source_answer, source_hears, write_beat, write_delivery, write_end,
    write_enumerate,
};
pub use wef_http_heads::{Answer, Target};
