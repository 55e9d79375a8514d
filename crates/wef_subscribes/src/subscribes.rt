//! Reading a Subscribe.

ghost use Rattle.std.specs.Prelude.{option_copied};
ghost use Rattle.std.specs.Result.{result_map_both};
ghost use Rattle.wef_subscribes.specs.Spaces.{batches, event_query};
ghost use Rattle.wef_subscribes.specs.Steps.{Reads};
ghost use Rattle.wef_subscribes.specs.Subscribes.{bookmark_of, bytes_in, delivery_in, expires_of, filter_in, has_attribute, items_in, queries_in, subscribe_in, subscribe_of, subscribe_with};

use crate::addresses::{end_in, identifier_in, target_in};
use crate::children::{eventing_of, has_attribute, in_eventing, in_management};
use crate::faults::{BodyFault, Part};
use crate::limits::{count_in, heartbeats_in};
use std::alloc::Global;
use wef_base::{Element, Moment};
use wef_bookmark::{Bookmark, BookmarkFault};
use wef_elements::{element_at, text_inside};
use wef_envelope::actions::{EVENT_QUERY, EVENTS};
use wef_eventing::Subscribe;
use wef_query::{QueryFault, QueryList, read_query};
use wef_times::read_expiry;

/// Reads the Subscribe among the elements of a Body.
pub fn subscribe_in(
    alloc: Global,
    elements: &[Element],
    now: Moment,
) -> Result<Subscribe, BodyFault>
    ensures { Reads result (subscribe_in now elements.now) }
{
    let Some(subscribe) = eventing_of("Subscribe", elements) else {
        return Err(BodyFault::BadBody(Part::Subscribe));
    };
    subscribe_of(alloc, subscribe, now)
}

fn subscribe_of(alloc: Global, subscribe: &Element, now: Moment) -> Result<Subscribe, BodyFault>
    ensures { Reads result (subscribe_of now subscribe.now) }
{
    let delivery = delivery_in(subscribe)?;
    let query = filter_in(subscribe)?;
    let expires = expires_of(in_eventing("Expires", subscribe), now)?;
    let Some(notify) = in_eventing("NotifyTo", delivery) else {
        return Err(BodyFault::BadBody(Part::NotifyTo));
    };
    subscribe_with(alloc, subscribe, delivery, query, expires, notify)
}

fn subscribe_with(
    alloc: Global,
    subscribe: &Element,
    delivery: &Element,
    query: QueryList,
    expires: Option<u64>,
    notify: &Element,
) -> Result<Subscribe, BodyFault>
    ensures { Reads result (subscribe_with subscribe.now delivery.now query expires notify.now) }
{
    let notify_to = target_in(notify)?;
    let end_to = end_in(in_eventing("EndTo", subscribe))?;
    let max_items = items_in(delivery)?;
    let max_bytes = bytes_in(delivery)?;
    let heartbeat = heartbeats_in(in_management("Heartbeats", delivery))?;
    let from = bookmark_of(alloc, in_management("Bookmark", subscribe))?;
    Ok(Subscribe {
        notify_to,
        end_to,
        identifier: identifier_in(notify)?,
        query,
        max_items,
        max_bytes,
        heartbeat,
        expires,
        from,
    })
}

/// The Delivery of a Subscribe, which must be in the mode of batches.
#[tactic(auto, unfolding(crate::specs::Spaces::batches))]
fn delivery_in(subscribe: &Element) -> Result<&Element, BodyFault>
    ensures { Reads (result_map_both (λ e. e.now) (λ fault. fault) result) (delivery_in subscribe.now) }
{
    match in_eventing("Delivery", subscribe) {
        Some(delivery) if has_attribute("Mode", EVENTS, delivery) => Ok(delivery),
        _ => Err(BodyFault::BadMode),
    }
}

/// The queries of the filter, which must be in their dialect.
#[tactic(auto, unfolding(crate::specs::Spaces::event_query))]
fn filter_in(subscribe: &Element) -> Result<QueryList, BodyFault>
    ensures { Reads result (filter_in subscribe.now) }
{
    match in_management("Filter", subscribe) {
        Some(filter) if has_attribute("Dialect", EVENT_QUERY, filter) => queries_in(filter),
        _ => Err(BodyFault::BadFilter),
    }
}

fn queries_in(filter: &Element) -> Result<QueryList, BodyFault>
    ensures { Reads result (queries_in filter.now) }
{
    let Some(list) = element_at(filter.children.as_slice(), 0) else {
        return Err(BodyFault::BadFilter);
    };
    match read_query(list) {
        Ok(query) => Ok(query),
        Err(QueryFault::NoMemory) => Err(BodyFault::NoMemory),
        Err(_) => Err(BodyFault::BadFilter),
    }
}

/// In how many milliseconds it expires, if it says so.
pub fn expires_of(expires: Option<&Element>, now: Moment) -> Result<Option<u64>, BodyFault>
    ensures { Reads result (expires_of now (option_copied expires.entry)) }
{
    let Some(expires) = expires else {
        return Ok(None);
    };
    let Some(ms) = read_expiry(&text_inside(expires)?, now)? else {
        return Err(BodyFault::BadExpires);
    };
    Ok(Some(ms))
}

fn items_in(delivery: &Element) -> Result<u32, BodyFault>
    ensures { Reads result (items_in delivery.now) }
{
    let element = in_management("MaxElements", delivery);
    count_in(Part::MaxElements, 20, 1, 10_000, element)
}

fn bytes_in(delivery: &Element) -> Result<u32, BodyFault>
    ensures { Reads result (bytes_in delivery.now) }
{
    let element = in_management("MaxEnvelopeSize", delivery);
    count_in(Part::MaxEnvelopeSize, 512_000, 8_192, 4_194_304, element)
}

/// How far the events were read; nothing where it isn't said.
fn bookmark_of(alloc: Global, bookmark: Option<&Element>) -> Result<Bookmark, BodyFault>
    ensures { Reads result (bookmark_of (option_copied bookmark.entry)) }
{
    let Some(bookmark) = bookmark else {
        return Ok(Bookmark::new(alloc));
    };
    match Bookmark::from_node(bookmark) {
        Ok(bookmark) => Ok(bookmark),
        Err(BookmarkFault::NoMemory) => Err(BodyFault::NoMemory),
        Err(BookmarkFault::BadBookmark) => Err(BodyFault::BadBody(Part::Bookmark)),
    }
}
