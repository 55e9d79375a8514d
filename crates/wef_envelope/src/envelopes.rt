//! Envelopes, and why a tree says none.

ghost use Rattle.std.specs.Prelude.{◌≡◌};
ghost use Rattle.wef_envelope.specs.Envelopes.{plain_envelope};

use std::alloc::AllocError;
use thiserror::Error;
use wef_base::{Element, List, Text};
use wef_ids::MessageId;

/// Why a tree says no envelope.
#[derive(Debug, Error)]
pub enum EnvelopeFault {
    #[error("no memory")]
    NoMemory,
    #[error("no envelope of SOAP")]
    NotSoap,
    /// A header that isn't known must be understood.
    #[error("the header {name} isn't understood")]
    MustUnderstand { name: Text },
    #[error("the header {name} is missing")]
    HeaderRequired { name: Text },
    #[error("the header {name} is there twice")]
    RepeatedHeader { name: Text },
}

impl From<AllocError> for EnvelopeFault {
    ghost use Rattle.wef_envelope.specs.declared.envelopes.EnvelopeFault.TheVariants.{NoMemory};

    ghost from_gives = { λ _ e. e ≡ NoMemory };

    fn from(_error: AllocError) -> EnvelopeFault {
        EnvelopeFault::NoMemory
    }
}

/// One call for whoever lets a fault go, whatever it holds.
impl Drop for EnvelopeFault {
    fn drop(self) {
        match self {
            EnvelopeFault::MustUnderstand { name: _ }
            | EnvelopeFault::HeaderRequired { name: _ }
            | EnvelopeFault::RepeatedHeader { name: _ }
            | EnvelopeFault::NoMemory
            | EnvelopeFault::NotSoap => {}
        }
    }
}

/// A message: its headers, and the elements of its Body. Texts are without the spaces at both ends.
#[derive(Debug)]
pub struct Envelope {
    pub to: Option<Text>,
    pub resource: Option<Text>,
    /// The address in ReplyTo.
    pub reply_to: Option<Text>,
    pub action: Text,
    pub id: MessageId,
    /// The id of the message that this one answers.
    pub relates: Option<MessageId>,
    /// The name of the sender's machine.
    pub machine: Option<Text>,
    pub max_size: Option<Text>,
    pub identifier: Option<Text>,
    /// The header Bookmark.
    pub bookmark: Option<Element>,
    /// Whether the sender wants an acknowledgement.
    pub ack_wanted: bool,
    pub body: List<Element>,
}

impl Envelope {
    /// A message with what each has that is written, and with no other header: whoever wants one
    /// more sets it.
    pub fn new(to: Text, action: Text, id: MessageId, body: List<Element>) -> Envelope
        ensures { result ≡ plain_envelope to action id body }
    {
        Envelope {
            to: Some(to),
            resource: None,
            reply_to: None,
            action,
            id,
            relates: None,
            machine: None,
            max_size: None,
            identifier: None,
            bookmark: None,
            ack_wanted: false,
            body,
        }
    }
}

/// One call for whoever lets an envelope go, whatever it holds.
impl Drop for Envelope {
    fn drop(self) {
        match self {
            Envelope {
                to: _,
                resource: _,
                reply_to: _,
                action: _,
                id: _,
                relates: _,
                machine: _,
                max_size: _,
                identifier: _,
                bookmark: _,
                ack_wanted: _,
                body: _,
            } => {}
        }
    }
}
