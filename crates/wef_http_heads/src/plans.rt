//! What a head says of its message.

use crate::targets::Target;
use wef_base::{Charset, Text};

/// How a body is told from what follows it.
#[derive(Clone, Copy, Debug, PartialEq, Eq)]
pub enum Framing {
    /// So many bytes.
    Length(usize),
    /// Chunks, up to an empty one.
    Chunks,
}

/// What the head of a request says.
#[derive(Debug, Drop)]
pub struct RequestPlan {
    pub target: Target,
    /// The value of Host.
    pub host: Text,
    /// How the characters of the body stand in bytes.
    pub charset: Charset,
    /// Whether the connection stays open behind the response.
    pub keep: bool,
    pub framing: Framing,
}

/// What the head of a response says.
#[derive(Clone, Copy, Debug, PartialEq, Eq)]
pub struct ResponsePlan {
    /// The status, from 100 to 999.
    pub status: u16,
    /// How the characters of the body stand in bytes.
    pub charset: Charset,
    pub framing: Framing,
}

/// What bytes begin with.
#[derive(Debug, Drop)]
pub enum Found<P> {
    /// A head that is good, with its length in bytes.
    Whole(P, usize),
    /// A part of a head.
    Partial,
}
