//! Writing bodies.

ghost use Rattle.std.specs.List.{All, AllByRecursion};
ghost use Rattle.std.specs.Prelude.{◌≡◌, ◌∷◌, [], IfOk};
ghost use Rattle.wef_bodies.specs.Laws.{CanBeWritten, IsKeptOffer, IsXmlId};
ghost use Rattle.wef_bodies.specs.Written.{bare_element, body_elements, ended_element, enumerate_element, lease_element, no_ids, offer_element, offer_elements, offer_envelope, offers_element, response_element, subscribed_element};
ghost use Rattle.wef_elements.specs.Good.{AreGoodElements};
ghost use Rattle.wef_eventing.specs.Sending.{CanBeOffered, HasXmlTexts};
ghost use Rattle.wef_subscribes.specs.Written.{subscribe_element};
ghost use Rattle.wef_xml.specs.Good.{IsLocalName, IsXmlText};

use crate::bodies::Body;
use crate::spaces::enumeration;
use crate::telling::{bare_element, ended_element, lease_element, subscribed_element};
use std::alloc::{AllocError, Global};
use wef_base::{Element, List, Namespace, Text};
use wef_elements::{management, with_elements, with_text};
use wef_envelope::actions::{ANONYMOUS, EVENT_LOG, SUBSCRIBE};
use wef_envelope::{Envelope, to_node};
use wef_eventing::{EndStatus, Offer, Subscribe};
use wef_ids::{MessageId, read_id};
use wef_subscribes::wishes::{names_are_kept, subscribe_element};
use wef_xml::messages::SUBSCRIPTION;

/// The elements that say a body. The envelopes in offers have an empty MessageID. Where its texts hold
/// characters that XML allows, they are good trees with room for the envelope round them; the names in a
/// body do so by themselves.
pub fn write_body(alloc: Global, body: &Body) -> Result<List<Element>, AllocError>
    ensures value { IfOk result (λ elements. elements ≡ body_elements body.now) }
    ensures good { CanBeWritten body.now → IfOk result (λ elements. AreGoodElements elements 62) }
{
    match body {
        Body::Enumerate => write_enumerate(alloc),
        Body::Offers(offers) => write_unnamed(alloc, offers.as_slice()),
        Body::Subscribe(wish) => write_subscribe(alloc, wish),
        Body::Subscribed {
            identifier,
            expires,
        } => write_subscribed(alloc, identifier, *expires),
        Body::Renew { expires } => write_lease(alloc, "Renew", *expires),
        Body::Renewed { expires } => write_lease(alloc, "RenewResponse", *expires),
        Body::GetStatus => write_bare(alloc, "GetStatus"),
        Body::StatusIs { expires } => write_lease(alloc, "GetStatusResponse", *expires),
        Body::Unsubscribe => write_bare(alloc, "Unsubscribe"),
        Body::Unsubscribed => Ok(List::new(alloc)),
        Body::Ended { identifier, status } => write_ended(alloc, identifier, *status),
    }
}

/// The elements that answer Enumerate with offers. The envelope in each has the next of the ids, so only
/// as many offers are written as there are ids. Where the texts of both hold characters that XML allows,
/// they are good trees with room for the envelope round them.
pub fn write_offers(
    alloc: Global,
    offers: &[Offer],
    ids: &[MessageId],
) -> Result<List<Element>, AllocError>
    ensures value { IfOk result (λ elements. elements ≡ offers_element ids.now offers.now ∷ []) }
    ensures good { All CanBeOffered offers.now → All IsXmlId ids.now → IfOk result (λ elements. AreGoodElements elements 62) }
{
    offered_names_are_kept(offers);
    let items = offer_elements(alloc, offers, ids)?;
    only(alloc, response_element(alloc, items)?)
}

fn write_enumerate(alloc: Global) -> Result<List<Element>, AllocError>
    ensures value { IfOk result (λ elements. elements ≡ enumerate_element ∷ []) }
    ensures good { IfOk result (λ elements. AreGoodElements elements 62) }
{
    only(alloc, enumerate_element(alloc)?)
}

fn write_subscribe(alloc: Global, wish: &Subscribe) -> Result<List<Element>, AllocError>
    ensures value { IfOk result (λ elements. elements ≡ subscribe_element wish.now ∷ []) }
    ensures good { HasXmlTexts wish.now → IfOk result (λ elements. AreGoodElements elements 62) }
{
    names_are_kept(wish);
    only(alloc, subscribe_element(alloc, wish)?)
}

/// Names of channels in wishes that are offered read back as themselves, since their type keeps it.
fn offered_names_are_kept(offers: &[Offer])
    ensures { AllByRecursion IsKeptOffer offers.now }
{
    for offer in offers {
        names_are_kept(&offer.subscribe);
    }
}

fn write_subscribed(
    alloc: Global,
    identifier: &Text,
    expires: u64,
) -> Result<List<Element>, AllocError>
    ensures value { IfOk result (λ elements. elements ≡ subscribed_element identifier.now expires ∷ []) }
    ensures good { IsXmlText identifier.now → IfOk result (λ elements. AreGoodElements elements 62) }
{
    only(alloc, subscribed_element(alloc, identifier, expires)?)
}

/// The element of a name that says in how many milliseconds a subscription expires.
fn write_lease(alloc: Global, name: &str, expires: u64) -> Result<List<Element>, AllocError>
    ensures value { IfOk result (λ elements. elements ≡ lease_element name.now expires ∷ []) }
    ensures good { IsLocalName name.now → IfOk result (λ elements. AreGoodElements elements 62) }
{
    only(alloc, lease_element(alloc, name, expires)?)
}

/// The element of a name, with nothing in it.
fn write_bare(alloc: Global, name: &str) -> Result<List<Element>, AllocError>
    ensures value { IfOk result (λ elements. elements ≡ bare_element name.now ∷ []) }
    ensures good { IsLocalName name.now → IfOk result (λ elements. AreGoodElements elements 62) }
{
    only(alloc, bare_element(alloc, name)?)
}

fn write_ended(
    alloc: Global,
    identifier: &Text,
    status: EndStatus,
) -> Result<List<Element>, AllocError>
    ensures value { IfOk result (λ elements. elements ≡ ended_element identifier.now status ∷ []) }
    ensures good { IsXmlText identifier.now → IfOk result (λ elements. AreGoodElements elements 62) }
{
    only(alloc, ended_element(alloc, identifier, status)?)
}

/// The elements of offers whose envelopes have no id yet.
fn write_unnamed(alloc: Global, offers: &[Offer]) -> Result<List<Element>, AllocError>
    ensures value { IfOk result (λ elements. elements ≡ offers_element (no_ids offers.now) offers.now ∷ []) }
    ensures good { All CanBeOffered offers.now → IfOk result (λ elements. AreGoodElements elements 62) }
{
    let ids = no_ids(alloc, offers)?;
    write_offers(alloc, offers, ids.as_slice())
}

/// Ids without a text, one for each offer.
fn no_ids(alloc: Global, offers: &[Offer]) -> Result<List<MessageId>, AllocError>
    ensures { IfOk result (λ ids. ids ≡ no_ids offers.now) }
{
    let mut ids = List::new(alloc);
    for _offer in offers {
        ids.push(read_id(&Text::new(alloc))?)?;
    }
    Ok(ids)
}

fn only(alloc: Global, element: Element) -> Result<List<Element>, AllocError>
    ensures { IfOk result (λ elements. elements ≡ element ∷ []) }
{
    let mut elements = List::new(alloc);
    elements.push(element)?;
    Ok(elements)
}

/// The element that asks for offers, of which an answer may hold so many elements.
#[tactic(auto, unfolding(crate::specs::Spaces::most_elements))]
fn enumerate_element(alloc: Global) -> Result<Element, AllocError>
    ensures { IfOk result (λ e. e ≡ enumerate_element) }
{
    let mut parts = List::new(alloc);
    parts.push(with_text(management(alloc)?, "OptimizeEnumeration", Text::new(alloc))?)?;
    let most = Text::from_str(alloc, "32000")?;
    parts.push(with_text(management(alloc)?, "MaxElements", most)?)?;
    with_elements(enumeration(alloc)?, "Enumerate", parts)
}

/// The element that answers with the elements of offers.
fn response_element(alloc: Global, items: List<Element>) -> Result<Element, AllocError>
    ensures { IfOk result (λ e. e ≡ response_element items) }
{
    let mut parts = List::new(alloc);
    parts.push(with_text(enumeration(alloc)?, "EnumerationContext", Text::new(alloc))?)?;
    parts.push(with_elements(management(alloc)?, "Items", items)?)?;
    parts.push(with_text(management(alloc)?, "EndOfSequence", Text::new(alloc))?)?;
    with_elements(enumeration(alloc)?, "EnumerateResponse", parts)
}

/// An element for each offer, with the next of the ids.
fn offer_elements(
    alloc: Global,
    offers: &[Offer],
    ids: &[MessageId],
) -> Result<List<Element>, AllocError>
    ensures { IfOk result (λ elements. elements ≡ offer_elements ids.now offers.now) }
{
    let mut elements = List::new(alloc);
    let mut left = ids;
    for offer in offers {
        let Some((id, more)) = left.split_first() else {
            return Ok(elements);
        };
        elements.push(offer_element(alloc, offer, id)?)?;
        left = more;
    }
    Ok(elements)
}

#[tactic(auto, unfolding(wef_envelope::specs::Spaces::subscription))]
fn offer_element(alloc: Global, offer: &Offer, id: &MessageId) -> Result<Element, AllocError>
    ensures { IfOk result (λ e. e ≡ offer_element id.now offer.now) }
{
    let nested = to_node(&offer_envelope(alloc, &offer.subscribe, id)?)?;
    let mut parts = List::new(alloc);
    let space = Namespace::new(Text::from_str(alloc, SUBSCRIPTION)?)?;
    parts.push(with_text(space.clone()?, "Version", offer.version.clone()?)?)?;
    parts.push(nested)?;
    with_elements(space, "Subscription", parts)
}

/// The envelope that an offer holds.
#[tactic(auto, unfolding(crate::specs::Written::offer_envelope, crate::specs::Spaces::anonymous, crate::specs::Spaces::event_log, crate::specs::Spaces::subscribe))]
fn offer_envelope(alloc: Global, wish: &Subscribe, id: &MessageId) -> Result<Envelope, AllocError>
    ensures { IfOk result (λ e. e ≡ offer_envelope id.now wish.now) }
{
    let asker = Text::from_str(alloc, ANONYMOUS)?;
    let reply_to = asker.clone()?;
    let action = Text::from_str(alloc, SUBSCRIBE)?;
    let body = only(alloc, subscribe_element(alloc, wish)?)?;
    let mut envelope = Envelope::new(asker, action, id.clone()?, body);
    envelope.resource = Some(Text::from_str(alloc, EVENT_LOG)?);
    envelope.reply_to = Some(reply_to);
    Ok(envelope)
}
