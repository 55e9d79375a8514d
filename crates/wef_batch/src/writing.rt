//! Batches as elements of a message.

ghost use Rattle.std.specs.Prelude.{◌≡◌, ◌+◌, ◌-◌, ◌∷◌, [], map, IfOk};
ghost use Rattle.wef_batch.specs.Elements.{action_attribute, batch_element, event_action, event_element, gone_element, item_element, profiled, range_attributes};
ghost use Rattle.wef_batch.specs.Numbers.{AreNumbered, IsNumbered};
ghost use Rattle.wef_elements.specs.Children.{with_attributes};

use crate::items::{Batch, Item};
use std::alloc::{AllocError, Global};
use wef_base::{Attribute, ChannelName, Element, List, Namespace, Text};
use wef_elements::{digits, management, profile, with_attributes, with_elements, with_value};

/// What the attribute Action of an event says.
pub const EVENT_ACTION: &str = "http://schemas.dmtf.org/wbem/wsman/1/wsman/Event";

/// The elements of a message's body that say a batch. How far it reads and whether the source wants to
/// be told stand in headers.
pub fn write_batch(alloc: Global, batch: &Batch) -> Result<List<Element>, AllocError>
    requires { AreNumbered batch.now.items }
    ensures { IfOk result (λ body. body ≡ batch_element batch.now.items ∷ []) }
{
    let items = items_of(alloc, batch.items.as_slice())?;
    let mut body = List::new(alloc);
    body.push(with_elements(management(alloc)?, "Events", items)?)?;
    Ok(body)
}

fn items_of(alloc: Global, items: &[Item]) -> Result<List<Element>, AllocError>
    requires { AreNumbered items.now }
    ensures { IfOk result (λ elements. elements ≡ map (λ item. item_element item) items.now) }
{
    let mut elements = List::new(alloc);
    for item in items {
        elements.push(item_element(alloc, item)?)?;
    }
    Ok(elements)
}

#[tactic(auto, unfolding(crate::specs::Elements::item_element))]
fn item_element(alloc: Global, item: &Item) -> Result<Element, AllocError>
    requires { IsNumbered item.now }
    ensures { IfOk result (λ e. e ≡ item_element item.now) }
{
    match item {
        Item::Event(event) => event_element(alloc, &event.text),
        Item::Dropped {
            channel,
            first,
            last,
        } => range_element(alloc, channel, *first, *last),
        Item::Loose { count } => gone_element(alloc, List::new(alloc), *count),
    }
}

fn event_element(alloc: Global, text: &Text) -> Result<Element, AllocError>
    ensures { IfOk result (λ e. e ≡ event_element text.now) }
{
    let mut attributes = List::new(alloc);
    attributes.push(action(alloc)?)?;
    with_attributes(management(alloc)?, "Event", attributes, text.clone()?)
}

#[tactic(auto, unfolding(crate::specs::Elements::event_action))]
fn action(alloc: Global) -> Result<Attribute, AllocError>
    ensures { IfOk result (λ a. a ≡ action_attribute) }
{
    let value = Text::from_str(alloc, EVENT_ACTION)?;
    with_value(alloc, Namespace::new(Text::new(alloc))?, "Action", value)
}

fn range_element(
    alloc: Global,
    channel: &ChannelName,
    first: u64,
    last: u64,
) -> Result<Element, AllocError>
    requires { IsNumbered (Item.Dropped channel.now first last) }
    ensures { IfOk result (λ e. e ≡ gone_element (range_attributes channel.now first last) (last - first + 1)) }
{
    let attributes = range_attributes(alloc, channel, first, last)?;
    gone_element(alloc, attributes, last.saturating_sub(first) + 1)
}

fn range_attributes(
    alloc: Global,
    channel: &ChannelName,
    first: u64,
    last: u64,
) -> Result<List<Attribute>, AllocError>
    ensures { IfOk result (λ attributes. attributes ≡ range_attributes channel.now first last) }
{
    let mut attributes = List::new(alloc);
    attributes.push(profiled(alloc, "Channel", channel.as_text().clone()?)?)?;
    attributes.push(profiled(alloc, "First", digits(alloc, first)?)?)?;
    attributes.push(profiled(alloc, "Last", digits(alloc, last)?)?)?;
    Ok(attributes)
}

/// An attribute of this project's namespace.
fn profiled(alloc: Global, name: &str, value: Text) -> Result<Attribute, AllocError>
    ensures { IfOk result (λ a. a ≡ profiled name.now value) }
{
    with_value(alloc, profile(alloc)?, name, value)
}

fn gone_element(
    alloc: Global,
    attributes: List<Attribute>,
    count: u64,
) -> Result<Element, AllocError>
    ensures { IfOk result (λ e. e ≡ gone_element attributes count) }
{
    let text = digits(alloc, count)?;
    with_attributes(management(alloc)?, "DroppedEvents", attributes, text)
}
