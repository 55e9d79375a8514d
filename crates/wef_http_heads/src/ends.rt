//! Why no message was read from a connection, or none was written.

ghost use Rattle.std.specs.Prelude.{◌≡◌};
ghost use Rattle.wef_http_heads.specs.Statuses.{refusal};

use std::alloc::AllocError;
use thiserror::Error;

/// Why no message was read from a connection, or none was written.
#[derive(Clone, Copy, Debug, PartialEq, Eq, Error)]
pub enum HttpEnd {
    #[error("no memory")]
    NoMemory,
    /// The bytes end before the first byte of a message.
    #[error("no message")]
    End,
    /// The head isn't one of HTTP, is too long, or contradicts itself; or a chunk is malformed.
    #[error("a malformed message")]
    BadHead,
    #[error("a method other than POST")]
    Method,
    #[error("no such path")]
    Path,
    /// A body that has neither a length nor chunks.
    #[error("a body without a length")]
    NoLength,
    #[error("too large a body")]
    TooLarge,
    #[error("not an envelope in UTF-8 or UTF-16")]
    Media,
    /// The bytes end inside a message.
    #[error("a message that was cut short")]
    Cut,
    /// The port failed.
    #[error("input or output failed")]
    ReadFault,
}

impl HttpEnd {
    /// The status of the response that refuses a request for this. None where there is no response.
    pub fn status(self) -> Option<u16>
        ensures { result ≡ refusal self }
    {
        match self {
            HttpEnd::BadHead => Some(400),
            HttpEnd::Path => Some(404),
            HttpEnd::Method => Some(405),
            HttpEnd::NoLength => Some(411),
            HttpEnd::TooLarge => Some(413),
            HttpEnd::Media => Some(415),
            HttpEnd::NoMemory | HttpEnd::End | HttpEnd::Cut | HttpEnd::ReadFault => None,
        }
    }
}

impl From<AllocError> for HttpEnd {
    ghost use Rattle.std.specs.Prelude.{◌≡◌};
    ghost use Rattle.wef_http_heads.specs.declared.ends.HttpEnd.TheVariants.{NoMemory};

    ghost from_gives = { λ _ e. e ≡ NoMemory };

    fn from(_error: AllocError) -> HttpEnd {
        HttpEnd::NoMemory
    }
}
