//! Why bytes are no subscription document.

use std::alloc::AllocError;
use std::fmt;
use thiserror::Error;
use wef_xml::TreeFault;

/// An element that a document must have, or that must be good where it is there, by its local name.
#[derive(Clone, Copy, Debug, PartialEq, Eq)]
pub enum Part {
    Subscription,
    SubscriptionId,
    SubscriptionType,
    Enabled,
    Delivery,
    MaxItems,
    Heartbeat,
    MaxEnvelopeSize,
    Expires,
    Query,
    Address,
    Version,
}

impl fmt::Display for Part {
    fn fmt<W: fmt::Write>(&self, f: &mut fmt::Formatter<W>) -> fmt::Result {
        fmt::Debug::fmt(self, f)
    }
}

/// Why bytes are no subscription document.
#[derive(Clone, Copy, Debug, PartialEq, Eq, Error)]
pub enum DocumentFault {
    #[error("no memory")]
    NoMemory,
    /// They are no document of XML. It is never `NoMemory`.
    #[error("{0}")]
    Tree(TreeFault),
    /// An element is missing, or isn't good.
    #[error("the element {0} isn't good")]
    BadDocument(Part),
}

impl From<AllocError> for DocumentFault {
    ghost use Rattle.std.specs.Prelude.{◌≡◌};
    ghost use Rattle.wef_documents.specs.declared.faults.DocumentFault.TheVariants.{NoMemory};

    ghost from_gives = { λ _ e. e ≡ NoMemory };

    fn from(_error: AllocError) -> DocumentFault {
        DocumentFault::NoMemory
    }
}
