//! Reading bodies.

ghost use Rattle.std.specs.Prelude.{◌≡◌};
ghost use Rattle.wef_base.specs.Names.{same};
ghost use Rattle.wef_bodies.specs.Reading.{asked_in, body_in, enumerate_in, has_enumerate, told_in};
ghost use Rattle.wef_bodies.specs.Spaces.{enumerate, enumerate_response, get_status, get_status_response, renew, renew_response, subscribe, subscribe_response, subscription_end, unsubscribe, unsubscribe_response};
ghost use Rattle.wef_subscribes.specs.Steps.{Reads};

use crate::bodies::Body;
use crate::children::enumeration_of;
use crate::leases::{left_in, read_end, renew_in, root_in, subscribed_in};
use crate::offers::read_offers;
use wef_base::{Element, Moment};
use wef_envelope::Envelope;
use wef_envelope::actions::{
    ENUMERATE, ENUMERATE_RESPONSE, GET_STATUS, GET_STATUS_RESPONSE, RENEW, RENEW_RESPONSE,
    SUBSCRIBE, SUBSCRIBE_RESPONSE, SUBSCRIPTION_END, UNSUBSCRIBE, UNSUBSCRIBE_RESPONSE,
};
use wef_subscribes::subscribes::subscribe_in;
use wef_subscribes::{BodyFault, Part};

/// Reads the body of an envelope, by its action. Elements are told by their namespaces and local
/// names, and the first of a name counts. `now` is when it came, for an expiry that is an instant.
pub fn read_body(envelope: &Envelope, now: Moment) -> Result<Body, BodyFault>
    ensures { Reads result (body_in now envelope.now) }
{
    let alloc = envelope.action.alloc();
    let elements = envelope.body.as_slice();
    let action = envelope.action.as_str();
    if is_enumerate(action) {
        return enumerate_in(elements);
    }
    if is_enumerate_response(action) {
        return Ok(Body::Offers(read_offers(alloc, elements, now)?));
    }
    if is_subscribe(action) {
        return Ok(Body::Subscribe(subscribe_in(alloc, elements, now)?));
    }
    told_in(action, elements, now)
}

/// What a source says of a subscription that a collector began, by an action, and else what a
/// collector asks.
fn told_in(action: &str, elements: &[Element], now: Moment) -> Result<Body, BodyFault>
    ensures { Reads result (told_in now action.now elements.now) }
{
    if is_subscribe_response(action) {
        return subscribed_in(elements, now);
    }
    if is_renew_response(action) {
        let expires = left_in(Part::RenewResponse, "RenewResponse", elements, now)?;
        return Ok(Body::Renewed { expires });
    }
    if is_get_status_response(action) {
        let expires = left_in(Part::GetStatusResponse, "GetStatusResponse", elements, now)?;
        return Ok(Body::StatusIs { expires });
    }
    if is_unsubscribe_response(action) {
        return Ok(Body::Unsubscribed);
    }
    if is_subscription_end(action) {
        let (identifier, status) = read_end(elements)?;
        return Ok(Body::Ended { identifier, status });
    }
    asked_in(action, elements, now)
}

/// What a collector asks of a subscription that it began, by an action.
fn asked_in(action: &str, elements: &[Element], now: Moment) -> Result<Body, BodyFault>
    ensures { Reads result (asked_in now action.now elements.now) }
{
    if is_renew(action) {
        let expires = renew_in(elements, now)?;
        return Ok(Body::Renew { expires });
    }
    if is_get_status(action) {
        root_in(Part::GetStatus, "GetStatus", elements)?;
        return Ok(Body::GetStatus);
    }
    if is_unsubscribe(action) {
        root_in(Part::Unsubscribe, "Unsubscribe", elements)?;
        return Ok(Body::Unsubscribe);
    }
    Err(BodyFault::BadBody(Part::Action))
}

/// Whether there is an element Enumerate (WS-Enumeration, 3.1) among those of a Body.
pub fn has_enumerate(elements: &[Element]) -> bool
    ensures { result ≡ has_enumerate elements.now }
{
    enumeration_of("Enumerate", elements).is_some()
}

fn enumerate_in(elements: &[Element]) -> Result<Body, BodyFault>
    ensures { Reads result (enumerate_in elements.now) }
{
    match enumeration_of("Enumerate", elements) {
        Some(_) => Ok(Body::Enumerate),
        None => Err(BodyFault::BadBody(Part::Enumerate)),
    }
}

#[tactic(auto, unfolding(crate::specs::Spaces::enumerate))]
fn is_enumerate(action: &str) -> bool
    ensures { result ≡ same enumerate action.now }
{
    ENUMERATE == action
}

#[tactic(auto, unfolding(crate::specs::Spaces::enumerate_response))]
fn is_enumerate_response(action: &str) -> bool
    ensures { result ≡ same enumerate_response action.now }
{
    ENUMERATE_RESPONSE == action
}

#[tactic(auto, unfolding(crate::specs::Spaces::subscribe))]
fn is_subscribe(action: &str) -> bool
    ensures { result ≡ same subscribe action.now }
{
    SUBSCRIBE == action
}

#[tactic(auto, unfolding(crate::specs::Spaces::subscribe_response))]
fn is_subscribe_response(action: &str) -> bool
    ensures { result ≡ same subscribe_response action.now }
{
    SUBSCRIBE_RESPONSE == action
}

#[tactic(auto, unfolding(crate::specs::Spaces::renew))]
fn is_renew(action: &str) -> bool
    ensures { result ≡ same renew action.now }
{
    RENEW == action
}

#[tactic(auto, unfolding(crate::specs::Spaces::renew_response))]
fn is_renew_response(action: &str) -> bool
    ensures { result ≡ same renew_response action.now }
{
    RENEW_RESPONSE == action
}

#[tactic(auto, unfolding(crate::specs::Spaces::get_status))]
fn is_get_status(action: &str) -> bool
    ensures { result ≡ same get_status action.now }
{
    GET_STATUS == action
}

#[tactic(auto, unfolding(crate::specs::Spaces::get_status_response))]
fn is_get_status_response(action: &str) -> bool
    ensures { result ≡ same get_status_response action.now }
{
    GET_STATUS_RESPONSE == action
}

#[tactic(auto, unfolding(crate::specs::Spaces::unsubscribe))]
fn is_unsubscribe(action: &str) -> bool
    ensures { result ≡ same unsubscribe action.now }
{
    UNSUBSCRIBE == action
}

#[tactic(auto, unfolding(crate::specs::Spaces::unsubscribe_response))]
fn is_unsubscribe_response(action: &str) -> bool
    ensures { result ≡ same unsubscribe_response action.now }
{
    UNSUBSCRIBE_RESPONSE == action
}

#[tactic(auto, unfolding(crate::specs::Spaces::subscription_end))]
fn is_subscription_end(action: &str) -> bool
    ensures { result ≡ same subscription_end action.now }
{
    SUBSCRIPTION_END == action
}
