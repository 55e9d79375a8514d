//! Faults, written out as their codes and names.

ghost use Rattle.std.specs.Prelude.{◌≡◌, true};
ghost use Rattle.wef_envelope.specs.Faults.{is_known};

use crate::documents::read_document;
use crate::trees::push_element;
use std::alloc::AllocError;
use wef_base::Text;
use wef_envelope::{EnvelopeFault, Fault, FaultCode, FaultName, fault_node, read_fault};

/// The fault that a document is.
pub(crate) fn push_fault(shown: &mut Text, line: &str) -> Result<(), AllocError> {
    let Some(root) = read_document(shown.alloc(), line)? else {
        return shown.push_str("no document");
    };
    match read_fault(&root) {
        Ok(fault) => push_parts(shown, &fault),
        Err(fault) => push_refusal(shown, &fault),
    }
}

fn push_refusal(shown: &mut Text, fault: &EnvelopeFault) -> Result<(), AllocError> {
    match fault {
        EnvelopeFault::NoMemory => Err(AllocError),
        _ => shown.push_str("NotSoap"),
    }
}

fn push_parts(shown: &mut Text, fault: &Fault) -> Result<(), AllocError> {
    shown.push_str(match fault.code {
        FaultCode::Sender => "Sender ",
        FaultCode::Receiver => "Receiver ",
        FaultCode::MustUnderstand => "MustUnderstand ",
    })?;
    if let FaultName::Other(_) = &fault.name {
        shown.push_str("another: ")?;
    }
    shown.push_str(fault.name.as_str())
}

/// The action and the tree of the fault of a name.
pub(crate) fn push_named(shown: &mut Text, line: &str) -> Result<(), AllocError> {
    match line {
        "DeliveryModeRequestedUnavailable" => push_known(
            shown,
            FaultName::DeliveryModeRequestedUnavailable,
        ),
        "FilteringRequestedUnavailable" => push_known(
            shown,
            FaultName::FilteringRequestedUnavailable,
        ),
        "InvalidExpirationTime" => push_known(shown, FaultName::InvalidExpirationTime),
        "InvalidMessage" => push_known(shown, FaultName::InvalidMessage),
        "UnableToRenew" => push_known(shown, FaultName::UnableToRenew),
        "ActionNotSupported" => push_known(shown, FaultName::ActionNotSupported),
        "DestinationUnreachable" => push_known(shown, FaultName::DestinationUnreachable),
        "MessageInformationHeaderRequired" => push_known(
            shown,
            FaultName::MessageInformationHeaderRequired,
        ),
        "InvalidBookmark" => push_known(shown, FaultName::InvalidBookmark),
        "EncodingLimit" => push_known(shown, FaultName::EncodingLimit),
        "InternalError" => push_known(shown, FaultName::InternalError),
        "InvalidEnumerationContext" => push_known(shown, FaultName::InvalidEnumerationContext),
        "MustUnderstand" => push_known(shown, FaultName::MustUnderstand),
        _ => shown.push_str("no row"),
    }
}

fn push_known(shown: &mut Text, name: FaultName) -> Result<(), AllocError>
    requires { is_known name ≡ true }
{
    let fault = Fault::of(name);
    shown.push_str(fault.action())?;
    shown.push_str(" ")?;
    push_element(shown, &fault_node(shown.alloc(), &fault)?)
}
