//! What an end answers to a request.

use wef_base::Bytes;

/// An end's answer to a request: a status of HTTP, and the bytes of an envelope or none.
#[derive(Debug, Drop)]
pub struct Answer {
    pub status: u16,
    pub body: Bytes,
}
