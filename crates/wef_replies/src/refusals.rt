//! Why a message can't be read, as the fault that is answered. Both ends refuse such a message alike.

ghost use Rattle.std.specs.Prelude.{◌≡◌, true, Some, None, IfErr, IfOk};
ghost use Rattle.wef_envelope.specs.Faults.{is_known};
ghost use Rattle.wef_envelope.specs.declared.envelopes.EnvelopeFault.TheVariants.{NoMemory};
ghost use Rattle.wef_replies.specs.Refusals.{IsOfTree, envelope_refused, is_nameless, tree_refused};

use std::alloc::AllocError;
use wef_envelope::actions::ENUMERATE;
use wef_envelope::{Envelope, EnvelopeFault, FaultName};
use wef_tree::TreeFault;

/// The fault that answers a document that is no tree. Want of memory isn't answered.
pub fn tree_refused(fault: &TreeFault) -> Result<FaultName, AllocError>
    ensures name { IfOk result (λ name. tree_refused fault.now ≡ Some name) }
    ensures wants_memory { IfErr result (λ _. tree_refused fault.now ≡ None) }
    ensures known { IfOk result (λ name. is_known name ≡ true) }
{
    match fault {
        TreeFault::NoMemory => Err(AllocError),
        TreeFault::BadCharset { .. } | TreeFault::TooDeep { .. } => Ok(FaultName::EncodingLimit),
        TreeFault::BadXml { .. } | TreeFault::Refused { .. } => Ok(FaultName::InvalidMessage),
    }
}

/// The fault that answers a tree that says no envelope. Want of memory isn't answered.
pub fn envelope_refused(fault: &EnvelopeFault) -> Result<FaultName, AllocError>
    ensures name { IfOk result (λ name. name ≡ envelope_refused fault.now) }
    ensures told { IfOk result (λ _. IsOfTree fault.now) }
    ensures wants_memory { IfErr result (λ _. fault.now ≡ NoMemory) }
    ensures known { IfOk result (λ name. is_known name ≡ true) }
{
    match fault {
        EnvelopeFault::NoMemory => Err(AllocError),
        EnvelopeFault::NotSoap | EnvelopeFault::RepeatedHeader { .. } => {
            Ok(FaultName::InvalidMessage)
        }
        EnvelopeFault::MustUnderstand { .. } => Ok(FaultName::MustUnderstand),
        EnvelopeFault::HeaderRequired { .. } => Ok(FaultName::MessageInformationHeaderRequired),
    }
}

/// Whether an envelope asks for the subscriptions of a source that it doesn't name.
pub fn is_nameless(envelope: &Envelope) -> bool
    ensures { result ≡ is_nameless envelope.now }
{
    envelope.action.as_str() == ENUMERATE && envelope.machine.is_none()
}
