//! Subscriptions as they are kept, each by its document under its name.

ghost use Rattle.std.specs.Prelude.{◌≡◌, Some, IfOk, IfSome};
ghost use Rattle.wef_documents.specs.Kept as kept;
ghost use Rattle.wef_documents.specs.Written.{document_text};
ghost use Rattle.wef_eventing.specs.Sending.{AreXmlQueries};
ghost use Rattle.wef_eventing.specs.Subscriptions.{IsAllEvents};

use crate::faults::DocumentFault;
use crate::names::names_are_kept;
use crate::reading::read_document;
use std::alloc::AllocError;
use wef_base::{SubId, Text};
use wef_eventing::Subscription;

/// The subscription that a text keeps under a name: the one that it is a document of. None where it is
/// no document, or one of another name.
#[tactic(auto, using(crate::proofs::KeptBack::kept_texts))]
pub fn read_kept(name: &SubId, body: &Text) -> Result<Option<Subscription>, AllocError>
    ensures value { IfOk result (λ read. read ≡ kept.read_kept name.now body.now) }
    ensures texts { IfOk result (λ read. IfSome read (λ s. AreXmlQueries s.query.items)) }
{
    let read = kept_under(name, body)?;
    Ok(read)
}

#[tactic(auto, unfolding(crate::specs::Kept::read_kept))]
fn kept_under(name: &SubId, body: &Text) -> Result<Option<Subscription>, AllocError>
    ensures { IfOk result (λ read. read ≡ kept.read_kept name.now body.now) }
{
    match read_document(body.alloc(), body.as_str().as_bytes()) {
        Ok(subscription) => Ok(of_name(name, subscription)),
        Err(DocumentFault::NoMemory) => Err(AllocError),
        Err(_) => Ok(None),
    }
}

/// A subscription to all events is read again from its document. It does nothing, and takes no memory.
#[tactic(auto, using(crate::proofs::KeptBack::all_events_again))]
pub fn all_events_read_back(subscription: &Subscription)
    requires { IsAllEvents subscription.now }
    ensures { kept.read_kept subscription.now.name (document_text subscription.now) ≡ Some subscription.now }
{
    names_are_kept(subscription);
}

fn of_name(name: &SubId, subscription: Subscription) -> Option<Subscription>
    ensures { result ≡ kept.of_name name.now subscription }
{
    if subscription.name == *name {
        Some(subscription)
    } else {
        None
    }
}
