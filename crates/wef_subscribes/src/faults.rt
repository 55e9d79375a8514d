//! Why elements say no body.

use std::alloc::AllocError;
use std::fmt;
use thiserror::Error;

/// An element that a message must have, or that must be good where it is there.
#[derive(Clone, Copy, Debug, PartialEq, Eq)]
pub enum Part {
    Action,
    Enumerate,
    EnumerateResponse,
    Items,
    Subscription,
    Subscribe,
    NotifyTo,
    EndTo,
    MaxElements,
    MaxEnvelopeSize,
    Heartbeats,
    Bookmark,
    SubscribeResponse,
    SubscriptionManager,
    Identifier,
    Renew,
    RenewResponse,
    GetStatus,
    GetStatusResponse,
    Unsubscribe,
    SubscriptionEnd,
    Status,
}

impl fmt::Display for Part {
    fn fmt<W: fmt::Write>(&self, f: &mut fmt::Formatter<W>) -> fmt::Result {
        f.write_str(match self {
            Part::Action => "Action",
            Part::Enumerate => "Enumerate",
            Part::EnumerateResponse => "EnumerateResponse",
            Part::Items => "Items",
            Part::Subscription => "Subscription",
            Part::Subscribe => "Subscribe",
            Part::NotifyTo => "NotifyTo",
            Part::EndTo => "EndTo",
            Part::MaxElements => "MaxElements",
            Part::MaxEnvelopeSize => "MaxEnvelopeSize",
            Part::Heartbeats => "Heartbeats",
            Part::Bookmark => "Bookmark",
            Part::SubscribeResponse => "SubscribeResponse",
            Part::SubscriptionManager => "SubscriptionManager",
            Part::Identifier => "Identifier",
            Part::Renew => "Renew",
            Part::RenewResponse => "RenewResponse",
            Part::GetStatus => "GetStatus",
            Part::GetStatusResponse => "GetStatusResponse",
            Part::Unsubscribe => "Unsubscribe",
            Part::SubscriptionEnd => "SubscriptionEnd",
            Part::Status => "Status",
        })
    }
}

/// Why elements say no body.
#[derive(Clone, Copy, Debug, PartialEq, Eq, Error)]
pub enum BodyFault {
    #[error("no memory")]
    NoMemory,
    /// An element is missing, or isn't good. Of an action no body is known.
    #[error("the element {0} isn't good")]
    BadBody(Part),
    /// The mode of a delivery isn't that of batches.
    #[error("the mode isn't known")]
    BadMode,
    /// There is no filter in the dialect of queries, or its list of queries is refused.
    #[error("the filter isn't good")]
    BadFilter,
    /// The expiry is no time ahead.
    #[error("the expiry isn't good")]
    BadExpires,
}

impl From<AllocError> for BodyFault {
    ghost use Rattle.std.specs.Prelude.{◌≡◌};
    ghost use Rattle.wef_subscribes.specs.declared.faults.BodyFault.TheVariants.{NoMemory};

    ghost from_gives = { λ _ e. e ≡ NoMemory };

    fn from(_error: AllocError) -> BodyFault {
        BodyFault::NoMemory
    }
}
