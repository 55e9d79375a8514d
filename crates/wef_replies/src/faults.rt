//! The fault that a message holds. Both ends find it alike.

ghost use Rattle.std.specs.Prelude.{◌≡◌, IfOk};
ghost use Rattle.wef_replies.specs.Faults.{fault_among, fault_of};

use std::alloc::AllocError;
use wef_base::Element;
use wef_envelope::{EnvelopeFault, FaultName, read_fault};

/// The first of the elements of a Body that is a Fault of SOAP 1.2 (5.4), by its name.
pub fn fault_among(body: &[Element]) -> Result<Option<FaultName>, AllocError>
    ensures { IfOk result (λ found. found ≡ fault_among body.now) }
{
    for element in body {
        if let Some(name) = fault_of(element)? {
            return Ok(Some(name));
        }
    }
    Ok(None)
}

fn fault_of(element: &Element) -> Result<Option<FaultName>, AllocError>
    ensures { IfOk result (λ found. found ≡ fault_of element.now) }
{
    match &read_fault(element) {
        Ok(fault) => Ok(Some(fault.name.clone()?)),
        Err(EnvelopeFault::NoMemory) => Err(AllocError),
        Err(_) => Ok(None),
    }
}
