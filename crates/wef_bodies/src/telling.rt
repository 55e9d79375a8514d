//! Writing what is said of a subscription that a collector began.

ghost use Rattle.std.specs.Prelude.{◌≡◌, IfOk};
ghost use Rattle.wef_bodies.specs.Written.{bare_element, ended_element, lease_element, manager_element, status_element, subscribed_element};

use crate::statuses::status_text;
use std::alloc::{AllocError, Global};
use wef_base::{Element, List, Text};
use wef_elements::{with_elements, with_text};
use wef_envelope::actions::ANONYMOUS;
use wef_eventing::EndStatus;
use wef_subscribes::spaces::eventing;
use wef_subscribes::wishes::{address_element, expires_element, properties_element};

/// An element with nothing but its name.
pub(crate) fn bare_element(alloc: Global, name: &str) -> Result<Element, AllocError>
    ensures { IfOk result (λ e. e ≡ bare_element name.now) }
{
    with_elements(eventing(alloc)?, name, List::new(alloc))
}

/// An element that says in how many milliseconds a subscription expires.
pub(crate) fn lease_element(alloc: Global, name: &str, expires: u64) -> Result<Element, AllocError>
    ensures { IfOk result (λ e. e ≡ lease_element name.now expires) }
{
    let mut parts = List::new(alloc);
    parts.push(expires_element(alloc, expires)?)?;
    with_elements(eventing(alloc)?, name, parts)
}

/// The reference to whoever manages a subscription: the source that says it, and the identifier.
#[tactic(auto, unfolding(crate::specs::Spaces::anonymous))]
fn manager_element(alloc: Global, identifier: &Text) -> Result<Element, AllocError>
    ensures { IfOk result (λ e. e ≡ manager_element identifier.now) }
{
    let mut parts = List::new(alloc);
    let manager = Text::from_str(alloc, ANONYMOUS)?;
    parts.push(address_element(alloc, &manager)?)?;
    parts.push(properties_element(alloc, identifier)?)?;
    with_elements(eventing(alloc)?, "SubscriptionManager", parts)
}

/// The element that says that there is a subscription.
pub(crate) fn subscribed_element(
    alloc: Global,
    identifier: &Text,
    expires: u64,
) -> Result<Element, AllocError>
    ensures { IfOk result (λ e. e ≡ subscribed_element identifier.now expires) }
{
    let mut parts = List::new(alloc);
    parts.push(manager_element(alloc, identifier)?)?;
    parts.push(expires_element(alloc, expires)?)?;
    with_elements(eventing(alloc)?, "SubscribeResponse", parts)
}

fn status_element(alloc: Global, status: EndStatus) -> Result<Element, AllocError>
    ensures { IfOk result (λ e. e ≡ status_element status) }
{
    with_text(eventing(alloc)?, "Status", status_text(alloc, status)?)
}

/// The element that says that a subscription has ended, and why.
pub(crate) fn ended_element(
    alloc: Global,
    identifier: &Text,
    status: EndStatus,
) -> Result<Element, AllocError>
    ensures { IfOk result (λ e. e ≡ ended_element identifier.now status) }
{
    let mut parts = List::new(alloc);
    parts.push(manager_element(alloc, identifier)?)?;
    parts.push(status_element(alloc, status)?)?;
    with_elements(eventing(alloc)?, "SubscriptionEnd", parts)
}
