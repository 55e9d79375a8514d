//! How a connection ends.

ghost use Rattle.std.specs.Prelude.{◌≡◌, None};
ghost use Rattle.wef_serving.specs.Serving.{ending_of};

use std::alloc::AllocError;
use wef_http_heads::HttpEnd;

/// How a connection ended.
#[derive(Clone, Copy, Debug, PartialEq, Eq)]
pub enum ConnectionEnd {
    /// The bytes ended between two requests.
    End,
    /// A request was answered whose sender closes the connection.
    Closed,
    /// A request was refused with this status.
    Refused(u16),
    /// The bytes ended inside a request.
    Cut,
    /// The port failed.
    PortFailed,
    NoMemory,
}

impl From<HttpEnd> for ConnectionEnd {
    ghost use Rattle.wef_serving.specs.Serving.{ending};

    ghost from_gives = { λ end over. over ≡ ending end };

    /// How it ends where no request was read, once that was told, or where a response wasn't written.
    fn from(end: HttpEnd) -> ConnectionEnd {
        match end.status() {
            Some(status) => ConnectionEnd::Refused(status),
            None => unrefused(end),
        }
    }
}

/// How it ends where there is no response to tell of that.
fn unrefused(end: HttpEnd) -> ConnectionEnd
    ensures { result ≡ ending_of None end }
{
    match end {
        HttpEnd::End => ConnectionEnd::End,
        HttpEnd::Cut => ConnectionEnd::Cut,
        HttpEnd::ReadFault => ConnectionEnd::PortFailed,
        _ => ConnectionEnd::NoMemory,
    }
}

impl From<AllocError> for ConnectionEnd {
    ghost use Rattle.wef_serving.specs.declared.ends.ConnectionEnd.TheVariants.{NoMemory};

    ghost from_gives = { λ _ over. over ≡ NoMemory };

    fn from(_error: AllocError) -> ConnectionEnd {
        ConnectionEnd::NoMemory
    }
}
