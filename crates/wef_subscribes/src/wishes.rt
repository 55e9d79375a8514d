//! Writing a Subscribe.

ghost use Rattle.std.specs.List.{AllByRecursion};
ghost use Rattle.std.specs.Option.{option_map, option_to_list};
ghost use Rattle.std.specs.Prelude.{◌≡◌, ◌++◌, [], option_copied, IfOk, OnOk};
ghost use Rattle.wef_subscribes.specs.Laws.{IsKeptSubscribe, IsTextEntry};
ghost use Rattle.wef_subscribes.specs.Written.{address_element, count_element, delivery_element, end_element, expires_element, filter_element, heartbeats_element, last_parts, marked_holder, notify_element, properties_element, size_element, subscribe_element, subscribe_parts};
ghost use Rattle.wef_bookmark.specs.Entries.{AreEntries};
ghost use Rattle.wef_bookmark.specs.Nodes.{AreTexts};
ghost use Rattle.wef_eventing.specs.Kept.{HasKeptName};

use crate::spaces::{addressing, eventing};
use std::alloc::{AllocError, Global};
use std::collections::BTreeMap;
use wef_base::{Attribute, ChannelName, Element, List, Namespace, Text};
use wef_bookmark::Bookmark;
use wef_elements::{digits, management, with_attributes, with_elements, with_text, with_value};
use wef_envelope::actions::{EVENT_QUERY, EVENTS};
use wef_eventing::Subscribe;
use wef_query::{QueryItem, QueryList, write_query};
use wef_times::write_duration;

/// The element that says a wish.
#[tactic(auto, unfolding(crate::specs::Written::subscribe_element))]
pub fn subscribe_element(alloc: Global, wish: &Subscribe) -> Result<Element, AllocError>
    ensures { IfOk result (λ e. e ≡ subscribe_element wish.now) }
{
    with_elements(eventing(alloc)?, "Subscribe", subscribe_parts(alloc, wish)?)
}

#[tactic(auto, using(std::proofs::Common::append_assoc))]
fn subscribe_parts(alloc: Global, wish: &Subscribe) -> Result<List<Element>, AllocError>
    ensures { IfOk result (λ parts. parts ≡ subscribe_parts wish.now) }
{
    let mut parts = List::new(alloc);
    push_end(alloc, &mut parts, wish.end_to.as_ref())?;
    parts.push(delivery_element(alloc, wish)?)?;
    push_expires(alloc, &mut parts, wish.expires)?;
    push_last(alloc, &mut parts, wish)?;
    Ok(parts)
}

/// Appends what stands behind the expiry: the filter, the bookmark, and a wish for bookmarks.
fn push_last(alloc: Global, parts: &mut List<Element>, wish: &Subscribe) -> Result<(), AllocError>
    ensures { OnOk result (parts.new ≡ parts.old ++ last_parts wish.now) }
{
    parts.push(filter_element(alloc, &wish.query)?)?;
    parts.push(wish.from.to_node()?)?;
    let wanted = with_text(management(alloc)?, "SendBookmarks", Text::new(alloc))?;
    parts.push(wanted)?;
    Ok(())
}

/// Appends where the end is told, if it is.
fn push_end(alloc: Global, parts: &mut List<Element>, end: Option<&Text>) -> Result<(), AllocError>
    ensures { OnOk result (parts.new ≡ parts.old ++ option_to_list (option_map end_element (option_copied end.entry))) }
{
    if let Some(address) = end {
        parts.push(end_element(alloc, address)?)?;
    }
    Ok(())
}

fn end_element(alloc: Global, address: &Text) -> Result<Element, AllocError>
    ensures { IfOk result (λ e. e ≡ end_element address.now) }
{
    let mut parts = List::new(alloc);
    parts.push(address_element(alloc, address)?)?;
    with_elements(eventing(alloc)?, "EndTo", parts)
}

/// An element that holds an address.
pub fn address_element(alloc: Global, address: &Text) -> Result<Element, AllocError>
    ensures { IfOk result (λ e. e ≡ address_element address.now) }
{
    with_text(addressing(alloc)?, "Address", address.clone()?)
}

/// Appends when it expires, if it says so.
fn push_expires(
    alloc: Global,
    parts: &mut List<Element>,
    expires: Option<u64>,
) -> Result<(), AllocError>
    ensures { OnOk result (parts.new ≡ parts.old ++ option_to_list (option_map expires_element expires)) }
{
    if let Some(ms) = expires {
        parts.push(expires_element(alloc, ms)?)?;
    }
    Ok(())
}

/// The element that says in how many milliseconds it expires.
pub fn expires_element(alloc: Global, ms: u64) -> Result<Element, AllocError>
    ensures { IfOk result (λ e. e ≡ expires_element ms) }
{
    with_text(eventing(alloc)?, "Expires", write_duration(alloc, ms)?)
}

#[tactic(auto, unfolding(crate::specs::Spaces::event_query))]
fn filter_element(alloc: Global, query: &QueryList) -> Result<Element, AllocError>
    ensures { IfOk result (λ e. e ≡ filter_element query.now.items) }
{
    let mut lists = List::new(alloc);
    lists.push(write_query(alloc, query)?)?;
    let dialect = Text::from_str(alloc, EVENT_QUERY)?;
    marked_holder(
        alloc,
        management(alloc)?,
        "Filter",
        "Dialect",
        dialect,
        lists,
    )
}

/// An element that has one attribute, without a namespace, and elements.
fn marked_holder(
    alloc: Global,
    space: Namespace,
    name: &str,
    attribute: &str,
    value: Text,
    elements: List<Element>,
) -> Result<Element, AllocError>
    ensures { IfOk result (λ e. e ≡ marked_holder space name.now attribute.now value elements) }
{
    let mut element = with_elements(space, name, elements)?;
    element.attributes.push(plain(alloc, attribute, value)?)?;
    Ok(element)
}

/// An attribute without a namespace.
fn plain(alloc: Global, name: &str, value: Text) -> Result<Attribute, AllocError>
    ensures { IfOk result (λ a. a ≡ record { space = []; name = name.now; value = value }) }
{
    with_value(alloc, Namespace::new(Text::new(alloc))?, name, value)
}

#[tactic(auto, unfolding(crate::specs::Spaces::batches))]
fn delivery_element(alloc: Global, wish: &Subscribe) -> Result<Element, AllocError>
    ensures { IfOk result (λ e. e ≡ delivery_element wish.now) }
{
    let mut parts = List::new(alloc);
    parts.push(heartbeats_element(alloc, wish.heartbeat)?)?;
    parts.push(notify_element(alloc, wish)?)?;
    parts.push(count_element(alloc, wish.max_items)?)?;
    parts.push(size_element(alloc, wish.max_bytes)?)?;
    let mode = Text::from_str(alloc, EVENTS)?;
    marked_holder(alloc, eventing(alloc)?, "Delivery", "Mode", mode, parts)
}

fn heartbeats_element(alloc: Global, ms: u64) -> Result<Element, AllocError>
    ensures { IfOk result (λ e. e ≡ heartbeats_element ms) }
{
    with_text(management(alloc)?, "Heartbeats", write_duration(alloc, ms)?)
}

fn count_element(alloc: Global, items: u32) -> Result<Element, AllocError>
    ensures { IfOk result (λ e. e ≡ count_element items) }
{
    with_text(
        management(alloc)?,
        "MaxElements",
        digits(alloc, u64::from(items))?,
    )
}

/// The limit of an envelope, with the policy to tell where it is passed.
fn size_element(alloc: Global, bytes: u32) -> Result<Element, AllocError>
    ensures { IfOk result (λ e. e ≡ size_element bytes) }
{
    let mut attributes = List::new(alloc);
    attributes.push(plain(alloc, "Policy", Text::from_str(alloc, "Notify")?)?)?;
    let text = digits(alloc, u64::from(bytes))?;
    with_attributes(management(alloc)?, "MaxEnvelopeSize", attributes, text)
}

fn notify_element(alloc: Global, wish: &Subscribe) -> Result<Element, AllocError>
    ensures { IfOk result (λ e. e ≡ notify_element wish.now) }
{
    let mut parts = List::new(alloc);
    parts.push(address_element(alloc, &wish.notify_to)?)?;
    if let Some(identifier) = &wish.identifier {
        parts.push(properties_element(alloc, identifier)?)?;
    }
    with_elements(eventing(alloc)?, "NotifyTo", parts)
}

/// The identifier that messages to a reference bear.
pub fn properties_element(alloc: Global, identifier: &Text) -> Result<Element, AllocError>
    ensures { IfOk result (λ e. e ≡ properties_element identifier.now) }
{
    let mut parts = List::new(alloc);
    parts.push(with_text(eventing(alloc)?, "Identifier", identifier.clone()?)?)?;
    with_elements(addressing(alloc)?, "ReferenceProperties", parts)
}

/// Names of channels read back as themselves, since their type keeps it.
pub fn names_are_kept(wish: &Subscribe)
    ensures { IsKeptSubscribe wish.now }
{
    queried_names_are_kept(wish.query.items.as_slice());
    marked_names_are_kept(&wish.from);
}

/// Reading the text of a name brings what its type keeps.
fn queried_names_are_kept(items: &[QueryItem])
    ensures { AllByRecursion HasKeptName items.now }
{
    for item in items {
        let _name = item.channel.as_text().as_str();
    }
}

/// Names in a bookmark read back as themselves and are UTF-8, since their type keeps it.
pub fn marked_names_are_kept(bookmark: &Bookmark)
    ensures entries { AreEntries bookmark.now }
    ensures names { AreTexts bookmark.now }
{
    entries_are_texts(bookmark.numbers());
}

/// Reading the text of a name brings what its type keeps.
fn entries_are_texts(entries: &BTreeMap<ChannelName, u64>)
    ensures { AllByRecursion IsTextEntry entries.now.entries }
{
    for (channel, _) in entries {
        let _name = channel.as_text().as_str();
    }
}
