//! Addresses in a Subscribe.

ghost use Rattle.std.specs.Option.{option_map};
ghost use Rattle.std.specs.Prelude.{◌≡◌, codes, option_copied, IfOk};
ghost use Rattle.wef_subscribes.specs.Addresses.{end_in, identifier_among, identifier_in, target_in};
ghost use Rattle.wef_subscribes.specs.Steps.{Reads};
ghost use Rattle.wef_subscribes.specs.Subscribes.{in_eventing};
ghost use Rattle.wef_elements.specs.Texts.{said_in};
ghost use Rattle.wef_envelope.specs.Envelopes.{address_in};

use crate::children::{in_addressing, in_eventing};
use crate::faults::{BodyFault, Part};
use std::alloc::AllocError;
use wef_base::{Element, Text};
use wef_elements::said_in;
use wef_eventing::{is_address, is_delivery};

/// Where events go: the address in a NotifyTo. It must lead to a subscription.
pub(crate) fn target_in(notify: &Element) -> Result<Text, BodyFault>
    ensures { Reads result (target_in notify.now) }
{
    let Some(address) = address_in(notify)? else {
        return Err(BodyFault::BadBody(Part::NotifyTo));
    };
    if !is_delivery(&address)? {
        return Err(BodyFault::BadBody(Part::NotifyTo));
    }
    Ok(address)
}

/// Where the end is told: the address in EndTo, if there is one.
pub(crate) fn end_in(end: Option<&Element>) -> Result<Option<Text>, BodyFault>
    ensures { Reads result (end_in (option_copied end.entry)) }
{
    let Some(end) = end else {
        return Ok(None);
    };
    let Some(address) = address_in(end)? else {
        return Err(BodyFault::BadBody(Part::EndTo));
    };
    if !is_address(&address) {
        return Err(BodyFault::BadBody(Part::EndTo));
    }
    Ok(Some(address))
}

/// The address that an element holds.
fn address_in(element: &Element) -> Result<Option<Text>, AllocError>
    ensures { IfOk result (λ text. text ≡ address_in element.now) }
{
    match in_addressing("Address", element) {
        Some(address) => Ok(Some(said_in(address)?)),
        None => Ok(None),
    }
}

/// The identifier in a reference, as a NotifyTo is, whose messages bear it, or a SubscriptionManager:
/// that among the reference properties, or where none is there that among the reference parameters.
pub fn identifier_in(reference: &Element) -> Result<Option<Text>, AllocError>
    ensures { IfOk result (λ text. text ≡ identifier_in reference.now) }
{
    match identifier_among("ReferenceProperties", reference)? {
        Some(identifier) => Ok(Some(identifier)),
        None => identifier_among("ReferenceParameters", reference),
    }
}

fn identifier_among(name: &str, reference: &Element) -> Result<Option<Text>, AllocError>
    ensures { IfOk result (λ text. text ≡ identifier_among name.now reference.now) }
{
    match in_addressing(name, reference) {
        Some(parent) => identifier_of(parent),
        None => Ok(None),
    }
}

fn identifier_of(parent: &Element) -> Result<Option<Text>, AllocError>
    ensures { IfOk result (λ text. text ≡ option_map said_in (in_eventing (codes "Identifier") parent.now)) }
{
    match in_eventing("Identifier", parent) {
        Some(identifier) => Ok(Some(said_in(identifier)?)),
        None => Ok(None),
    }
}
