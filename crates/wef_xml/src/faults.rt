//! Why bytes are no document.

use std::alloc::AllocError;
use thiserror::Error;

/// Why bytes aren't a document. The place of a fault counts bytes from the start of the input, a
/// byte order mark included.
#[derive(Clone, Copy, Debug, PartialEq, Eq, Error)]
pub enum TreeFault {
    #[error("no memory")]
    NoMemory,
    /// The bytes don't decode; the place is that of the first sequence that doesn't.
    #[error("no character of the charset at byte {at}")]
    BadCharset { at: usize },
    /// What stands there isn't good in its place, or is cut by the input's end.
    #[error("not well-formed at byte {at}")]
    BadXml { at: usize },
    /// The tag there would open the 65th element.
    #[error("too deep at byte {at}")]
    TooDeep { at: usize },
    /// A document type or a processing instruction, which aren't read.
    #[error("a document type or a processing instruction at byte {at}")]
    Refused { at: usize },
}

impl From<AllocError> for TreeFault {
    ghost use Rattle.std.specs.Prelude.{◌≡◌};
    ghost use Rattle.wef_xml.specs.declared.faults.TreeFault.TheVariants.{NoMemory};

    ghost from_gives = { λ _ e. e ≡ NoMemory };

    fn from(_error: AllocError) -> TreeFault {
        TreeFault::NoMemory
    }
}
