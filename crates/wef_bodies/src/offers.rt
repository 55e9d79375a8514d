//! Reading the offers of a collector.

ghost use Rattle.std.specs.List.{filter};
ghost use Rattle.std.specs.Prelude.{◌≡◌, ◌∷◌, [], option_copied, slice_get, IfOk};
ghost use Rattle.wef_base.specs.Names.{same};
ghost use Rattle.wef_bodies.specs.Offers.{is_offer, offer_of, offered, offered_in, offers_among, offers_in, version_in};
ghost use Rattle.wef_bodies.specs.Spaces.{subscribe};
ghost use Rattle.wef_elements.specs.Children.{elements_in};
ghost use Rattle.wef_subscribes.specs.Steps.{Reads};

use crate::children::{enumeration_of, is_offer};
use std::alloc::{AllocError, Global};
use wef_base::{Element, List, Moment, Node, Text};
use wef_elements::{element_of, first_called, said_in};
use wef_envelope::actions::SUBSCRIBE;
use wef_envelope::{Envelope, EnvelopeFault, from_node};
use wef_eventing::{Offer, Subscribe};
use wef_subscribes::children::in_management;
use wef_subscribes::subscribes::subscribe_in;
use wef_subscribes::{BodyFault, Part};
use wef_xml::messages::{SOAP, SUBSCRIPTION};

/// Reads the offers among the elements of a Body.
pub fn read_offers(
    alloc: Global,
    elements: &[Element],
    now: Moment,
) -> Result<List<Offer>, BodyFault>
    ensures { Reads result (offers_in now elements.now) }
{
    let Some(response) = enumeration_of("EnumerateResponse", elements) else {
        return Err(BodyFault::BadBody(Part::EnumerateResponse));
    };
    let Some(items) = in_management("Items", response) else {
        return Err(BodyFault::BadBody(Part::Items));
    };
    offers_among(alloc, items.children.as_slice(), now)
}

fn offers_among(alloc: Global, nodes: &[Node], now: Moment) -> Result<List<Offer>, BodyFault>
    ensures { Reads result (offers_among now nodes.now) }
{
    let mut offers = List::new(alloc);
    for node in nodes {
        let Some(element) = as_offer(node) else {
            continue;
        };
        offers.push(offer_of(alloc, element, now)?)?;
    }
    Ok(offers)
}

/// The element Subscription that a node is.
fn as_offer(node: &Node) -> Option<&Element>
    ensures { option_copied result ≡ slice_get (filter is_offer (elements_in (node.now ∷ []))) 0 }
{
    let element = element_of(node)?;
    if is_offer(element) {
        Some(element)
    } else {
        None
    }
}

fn offer_of(alloc: Global, element: &Element, now: Moment) -> Result<Offer, BodyFault>
    ensures { Reads result (offer_of now element.now) }
{
    let subscribe = offered_in(alloc, element, now)?;
    let version = version_in(element)?;
    Ok(Offer { version, subscribe })
}

/// The version of an offer; an empty text where there is none.
#[tactic(auto, unfolding(wef_envelope::specs::Spaces::subscription))]
fn version_in(element: &Element) -> Result<Text, AllocError>
    ensures { IfOk result (λ version. version ≡ version_in element.now) }
{
    match first_called(SUBSCRIPTION, "Version", element.children.as_slice()) {
        Some(version) => said_in(version),
        None => Ok(Text::new(element.name.alloc())),
    }
}

/// The wish that an offer holds, in an envelope.
#[tactic(auto, unfolding(wef_envelope::specs::Spaces::soap))]
fn offered_in(alloc: Global, element: &Element, now: Moment) -> Result<Subscribe, BodyFault>
    ensures { Reads result (offered_in now element.now) }
{
    let Some(nested) = first_called(SOAP, "Envelope", element.children.as_slice()) else {
        return Err(BodyFault::BadBody(Part::Subscription));
    };
    match &from_node(nested) {
        Ok(envelope) => offered(alloc, envelope, now),
        Err(EnvelopeFault::NoMemory) => Err(BodyFault::NoMemory),
        Err(_) => Err(BodyFault::BadBody(Part::Subscription)),
    }
}

fn offered(alloc: Global, envelope: &Envelope, now: Moment) -> Result<Subscribe, BodyFault>
    ensures { Reads result (offered now envelope.now) }
{
    if !has_action(envelope) {
        return Err(BodyFault::BadBody(Part::Subscription));
    }
    match subscribe_in(alloc, envelope.body.as_slice(), now) {
        Ok(subscribe) => Ok(subscribe),
        Err(BodyFault::NoMemory) => Err(BodyFault::NoMemory),
        Err(_) => Err(BodyFault::BadBody(Part::Subscription)),
    }
}

#[tactic(auto, unfolding(crate::specs::Spaces::subscribe))]
fn has_action(envelope: &Envelope) -> bool
    ensures { result ≡ same subscribe envelope.now.action }
{
    SUBSCRIBE == envelope.action.as_str()
}
