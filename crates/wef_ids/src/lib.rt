//! Ids of messages with their texts, and names of faults.
#![tactic(auto)]

ghost use Rattle.std.specs.Prelude.{◌≡◌, ◌+◌, ◌*◌, IfOk};
ghost use Rattle.wef_ids.specs.Faults.{fault_text};
ghost use Rattle.wef_ids.specs.IdTexts.{id_of_value};
ghost use Rattle.wef_ids.specs.Ids.{ids_agree};

pub mod ids;
pub mod texts;

pub use ids::Ids;
use std::alloc::{AllocError, Global};
pub use texts::{id_text, read_id};
use wef_base::Text;

/// A message's id: the text as it came, and its value where the text is a UUID.
#[derive(Debug, Drop)]
pub struct MessageId {
    pub value: Option<u128>,
    pub text: Text,
}

impl MessageId {
    /// The id's value at the message `seq` that an end sends after its boot number `boot`. Two
    /// pairs give two values. It takes no memory.
    pub fn of(boot: u64, seq: u64) -> u128
        ensures value { result ≡ boot * 18446744073709551616 + seq }
    {
        u128::from(boot) * 18_446_744_073_709_551_616 + u128::from(seq)
    }

    /// The id of a message that an end sends: a value, and its text.
    pub fn of_value(alloc: Global, value: u128) -> Result<MessageId, AllocError>
        ensures { IfOk result (λ id. id ≡ id_of_value value) }
    {
        Ok(MessageId {
            value: Some(value),
            text: id_text(alloc, value)?,
        })
    }

    /// Whether both ids have a value, and the same one. Their texts may differ.
    pub fn agrees(&self, other: &MessageId) -> bool
        ensures { result ≡ ids_agree self.now.value other.now.value }
    {
        match (self.value, other.value) {
            (Some(value), Some(wanted)) => value == wanted,
            _ => false,
        }
    }

    /// A copy of the id, which shares its texts.
    pub fn clone(&self) -> Result<MessageId, AllocError>
        ensures { IfOk result (λ copy. copy ≡ self.now) }
    {
        Ok(MessageId {
            value: self.value,
            text: self.text.clone()?,
        })
    }
}

/// The name of a fault that an end answers with, or that it was answered.
#[derive(Debug)]
pub enum FaultName {
    DeliveryModeRequestedUnavailable,
    FilteringRequestedUnavailable,
    InvalidExpirationTime,
    InvalidMessage,
    UnableToRenew,
    ActionNotSupported,
    DestinationUnreachable,
    MessageInformationHeaderRequired,
    InvalidBookmark,
    EncodingLimit,
    InternalError,
    InvalidEnumerationContext,
    MustUnderstand,
    /// A name that no standard that is kept here gives.
    Other(Text),
}

/// One call for whoever lets a name go, whatever it holds.
impl Drop for FaultName {
    fn drop(self) {
        match self {
            FaultName::Other(_) => {}
            FaultName::DeliveryModeRequestedUnavailable
            | FaultName::FilteringRequestedUnavailable
            | FaultName::InvalidExpirationTime
            | FaultName::InvalidMessage
            | FaultName::UnableToRenew
            | FaultName::ActionNotSupported
            | FaultName::DestinationUnreachable
            | FaultName::MessageInformationHeaderRequired
            | FaultName::InvalidBookmark
            | FaultName::EncodingLimit
            | FaultName::InternalError
            | FaultName::InvalidEnumerationContext
            | FaultName::MustUnderstand => {}
        }
    }
}

impl FaultName {
    /// The name as it stands in a fault, without a prefix.
    #[tactic(auto, unfolding(crate::specs::Faults::fault_text))]
    pub fn as_str(&self) -> &str
        ensures { result.now ≡ fault_text self.now }
    {
        match self {
            FaultName::DeliveryModeRequestedUnavailable => "DeliveryModeRequestedUnavailable",
            FaultName::FilteringRequestedUnavailable => "FilteringRequestedUnavailable",
            FaultName::InvalidExpirationTime => "InvalidExpirationTime",
            FaultName::InvalidMessage => "InvalidMessage",
            FaultName::UnableToRenew => "UnableToRenew",
            FaultName::ActionNotSupported => "ActionNotSupported",
            FaultName::DestinationUnreachable => "DestinationUnreachable",
            FaultName::MessageInformationHeaderRequired => "MessageInformationHeaderRequired",
            FaultName::InvalidBookmark => "InvalidBookmark",
            FaultName::EncodingLimit => "EncodingLimit",
            FaultName::InternalError => "InternalError",
            FaultName::InvalidEnumerationContext => "InvalidEnumerationContext",
            FaultName::MustUnderstand => "MustUnderstand",
            FaultName::Other(text) => text.as_str(),
        }
    }

    /// A copy of the name, which shares its text.
    pub fn clone(&self) -> Result<FaultName, AllocError>
        ensures { IfOk result (λ copy. copy ≡ self.now) }
    {
        match self {
            FaultName::DeliveryModeRequestedUnavailable => Ok(
                FaultName::DeliveryModeRequestedUnavailable,
            ),
            FaultName::FilteringRequestedUnavailable => Ok(
                FaultName::FilteringRequestedUnavailable,
            ),
            FaultName::InvalidExpirationTime => Ok(FaultName::InvalidExpirationTime),
            FaultName::InvalidMessage => Ok(FaultName::InvalidMessage),
            FaultName::UnableToRenew => Ok(FaultName::UnableToRenew),
            FaultName::ActionNotSupported => Ok(FaultName::ActionNotSupported),
            FaultName::DestinationUnreachable => Ok(FaultName::DestinationUnreachable),
            FaultName::MessageInformationHeaderRequired => Ok(
                FaultName::MessageInformationHeaderRequired,
            ),
            FaultName::InvalidBookmark => Ok(FaultName::InvalidBookmark),
            FaultName::EncodingLimit => Ok(FaultName::EncodingLimit),
            FaultName::InternalError => Ok(FaultName::InternalError),
            FaultName::InvalidEnumerationContext => Ok(FaultName::InvalidEnumerationContext),
            FaultName::MustUnderstand => Ok(FaultName::MustUnderstand),
            FaultName::Other(text) => Ok(FaultName::Other(text.clone()?)),
        }
    }
}
