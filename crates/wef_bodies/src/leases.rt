//! Reading what is said of a subscription that a collector began.

ghost use Rattle.std.specs.Result.{result_map_both};
ghost use Rattle.wef_bodies.specs.Leases.{ended_in, ended_of, lease_in, lease_of, left_in, managed_in, renew_in, root_in, status_in, subscribed_in, subscribed_of};
ghost use Rattle.wef_subscribes.specs.Steps.{Reads};

use crate::bodies::Body;
use crate::statuses::status_of;
use wef_base::{Element, Moment, Text};
use wef_elements::said_in;
use wef_eventing::EndStatus;
use wef_subscribes::addresses::identifier_in;
use wef_subscribes::children::{eventing_of, in_eventing};
use wef_subscribes::subscribes::expires_of;
use wef_subscribes::{BodyFault, Part};

/// The element of a name that a body must have.
pub(crate) fn root_in<'a>(
    part: Part,
    name: &str,
    elements: &'a [Element],
) -> Result<&'a Element, BodyFault>
    ensures { Reads (result_map_both (λ e. e.now) (λ fault. fault) result) (root_in part name.now elements.now) }
{
    match eventing_of(name, elements) {
        Some(root) => Ok(root),
        None => Err(BodyFault::BadBody(part)),
    }
}

/// What a collector asks for: an hour where it doesn't say.
pub(crate) fn renew_in(elements: &[Element], now: Moment) -> Result<u64, BodyFault>
    ensures { Reads result (renew_in now elements.now) }
{
    let lease = lease_in(Part::Renew, "Renew", elements, now)?;
    Ok(lease.unwrap_or(3_600_000))
}

/// What a source answers in the element of a name: it must say it.
pub(crate) fn left_in(
    part: Part,
    name: &str,
    elements: &[Element],
    now: Moment,
) -> Result<u64, BodyFault>
    ensures { Reads result (left_in part name.now now elements.now) }
{
    let lease = lease_in(part, name, elements, now)?;
    lease.ok_or(BodyFault::BadExpires)
}

fn lease_in(
    part: Part,
    name: &str,
    elements: &[Element],
    now: Moment,
) -> Result<Option<u64>, BodyFault>
    ensures { Reads result (lease_in part name.now now elements.now) }
{
    lease_of(root_in(part, name, elements)?, now)
}

/// In how many milliseconds an element says that a subscription expires, if it says so.
fn lease_of(element: &Element, now: Moment) -> Result<Option<u64>, BodyFault>
    ensures { Reads result (lease_of now element.now) }
{
    expires_of(in_eventing("Expires", element), now)
}

/// The identifier by which an element says which subscription it is about.
fn managed_in(element: &Element) -> Result<Text, BodyFault>
    ensures { Reads result (managed_in element.now) }
{
    let Some(manager) = in_eventing("SubscriptionManager", element) else {
        return Err(BodyFault::BadBody(Part::SubscriptionManager));
    };
    let Some(identifier) = identifier_in(manager)? else {
        return Err(BodyFault::BadBody(Part::Identifier));
    };
    Ok(identifier)
}

/// That there is a subscription.
pub(crate) fn subscribed_in(elements: &[Element], now: Moment) -> Result<Body, BodyFault>
    ensures { Reads result (subscribed_in now elements.now) }
{
    subscribed_of(
        root_in(Part::SubscribeResponse, "SubscribeResponse", elements)?,
        now,
    )
}

fn subscribed_of(element: &Element, now: Moment) -> Result<Body, BodyFault>
    ensures { Reads result (subscribed_of now element.now) }
{
    let Some(expires) = lease_of(element, now)? else {
        return Err(BodyFault::BadExpires);
    };
    let identifier = managed_in(element)?;
    Ok(Body::Subscribed {
        identifier,
        expires,
    })
}

/// Reads which subscription has ended and why, from the elements of a Body.
pub fn read_end(elements: &[Element]) -> Result<(Text, EndStatus), BodyFault>
    ensures { Reads result (ended_in elements.now) }
{
    ended_of(root_in(Part::SubscriptionEnd, "SubscriptionEnd", elements)?)
}

fn ended_of(element: &Element) -> Result<(Text, EndStatus), BodyFault>
    ensures { Reads result (ended_of element.now) }
{
    let identifier = managed_in(element)?;
    let status = status_in(element)?;
    Ok((identifier, status))
}

/// Why a subscription has ended.
fn status_in(element: &Element) -> Result<EndStatus, BodyFault>
    ensures { Reads result (status_in element.now) }
{
    let Some(status) = in_eventing("Status", element) else {
        return Err(BodyFault::BadBody(Part::Status));
    };
    let text = said_in(status)?;
    match status_of(text.as_str()) {
        Some(status) => Ok(status),
        None => Err(BodyFault::BadBody(Part::Status)),
    }
}
