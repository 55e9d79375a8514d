//! Which events a subscription asks for: a list of queries, each of which asks for events of its
//! channel or takes them out again, by a path to nodes of the event's tree.
#![tactic(auto)]

ghost use Rattle.std.specs.Prelude.{◌≡◌, ◌==◌, ◌+◌, IfOk};
ghost use Rattle.wef_query.specs.Items.{says_path};
ghost use Rattle.wef_query.specs.Laws.{AllAreSelected, are_grouped, groups_rise};
ghost use Rattle.wef_query.specs.Order.{HasSameNames, IsInOrder};
ghost use Rattle.wef_query.specs.Queries.{all_events_of, is_unconditional};
ghost use Rattle.wef_query.specs.Selected.{channels_of, is_selected, selects, selects_all};

pub mod reading;
mod selecting;
pub mod writing;

pub use reading::{QueryFault, read_query};
use selecting::{has_item_asking_for_all, has_item_in_force};
use std::alloc::{AllocError, Global};
use std::collections::BTreeSet;
use std::marker::Model;
use wef_base::{ChannelName, Element, List, Text};
pub use wef_query_paths::{
    And, Axis, Literal, NameTest, Operator, Or, Path, Predicate, Shared, Step, Unit, Value,
};
pub use writing::write_query;

/// One query: events of a channel, selected or suppressed. Whoever makes one proves that its text says
/// its path.
#[derive(Debug)]
pub struct QueryItem {
    /// The query that the item stands in. Items of one group are read together.
    pub group: u64,
    /// Whether the item takes events out of its group, in place of asking for them.
    pub suppress: bool,
    pub channel: ChannelName,
    /// What it asks of the events, without the spaces at both ends: `*` for all.
    pub text: Text,
    /// What the text says.
    pub path: Shared<Path>,
}

/// One call for whoever lets an item go, whatever its path holds.
impl Drop for QueryItem {
    fn drop(self) {
        match self {
            QueryItem {
                group: _,
                suppress: _,
                channel: _,
                text: _,
                path: _,
            } => {}
        }
    }
}

impl Model for QueryItem {
    ghost use Rattle.std.specs.Prelude.{◌≡◌, Some};
    ghost use Rattle.wef_base.specs.Names.{trimmed};
    ghost use Rattle.wef_query.specs.Items as items;
    ghost use Rattle.wef_query_paths.specs.Paths.{path_of};

    ghost Value = { items.QueryItem };

    ghost view = { λ q. record { group = q.group; suppress = q.suppress; channel = q.channel; text = q.text } };

    ghost invariant = { λ q. (trimmed q.text ≡ q.text) × (path_of q.text ≡ Some q.path) };
}

impl QueryItem {
    /// A copy, which shares its texts and its path.
    pub fn clone(&self) -> Result<QueryItem, AllocError>
        ensures { IfOk result (λ copy. copy ≡ self.now) }
    {
        Ok(QueryItem {
            group: self.group,
            suppress: self.suppress,
            channel: self.channel.clone()?,
            text: self.text.clone()?,
            path: self.path.clone()?,
        })
    }

    /// Whether its text has no spaces at its ends and says a path, which its type promises.
    pub fn says_path(&self) -> bool
        ensures { result ≡ says_path self.now.text }
    {
        let _kept = &self.text;
        true
    }

    /// Whether it sets no condition, so that each event of its channel meets it.
    pub fn is_unconditional(&self) -> bool
        ensures { result ≡ is_unconditional self.now }
    {
        self.text.as_str() == "*"
    }
}

/// A list of queries.
#[derive(Debug, Drop)]
pub struct QueryList {
    pub items: List<QueryItem>,
}

impl QueryList {
    /// The list that asks for all events of each channel: one Select a channel, in order, all in
    /// group 0. A channel that stands twice gives two items.
    pub fn all(alloc: Global, channels: List<ChannelName>) -> Result<QueryList, AllocError>
        ensures { IfOk result (λ list. list.items ≡ all_events_of channels) }
    {
        let text = Text::from_str(alloc, "*")?;
        let path = Shared::new(alloc, Path::any(alloc))?;
        let mut items = List::new(alloc);
        for channel in channels.into_vec() {
            items.push(QueryItem {
                group: 0,
                suppress: false,
                channel,
                text: text.clone()?,
                path: path.clone()?,
            })?;
        }
        Ok(QueryList { items })
    }

    /// Whether there is an item, the first is of group 0, and each other one of the group before it or
    /// of the next: so are the lists that are read.
    pub fn is_grouped(&self) -> bool
        ensures { result ≡ are_grouped self.now.items }
    {
        match self.items.as_slice().split_first() {
            Some((first, more)) => first.group == 0 && groups_rise(0, more),
            None => false,
        }
    }

    /// A copy of the list, which shares its texts.
    pub fn clone(&self, alloc: Global) -> Result<QueryList, AllocError>
        ensures { IfOk result (λ copy. copy ≡ self.now) }
    {
        let mut items = List::new(alloc);
        for item in self.items.as_slice() {
            items.push(item.clone()?)?;
        }
        Ok(QueryList { items })
    }
}

/// Whether each item is of the group before it, or of the next.
fn groups_rise(group: u64, items: &[QueryItem]) -> bool
    ensures { result ≡ groups_rise group items.now }
{
    let mut last = group;
    for item in items {
        if item.group != last && !is_next(last, item.group) {
            return false;
        }
        last = item.group;
    }
    true
}

fn is_next(group: u64, next: u64) -> bool
    ensures { result ≡ (next == group + 1) }
{
    next > group && next - group == 1
}

/// The channels of all Selects, each once, in the order of their bytes. Suppresses don't count. It
/// compares names about N log N times.
pub fn channels(alloc: Global, list: &QueryList) -> Result<List<ChannelName>, AllocError>
    ensures value { IfOk result (λ names. names ≡ channels_of list.now.items) }
    ensures in_order { IfOk result (λ names. IsInOrder names) }
    ensures same { IfOk result (λ names. HasSameNames names (selects list.now.items)) }
{
    let names = distinct_selects(alloc, list)?;
    Ok(names)
}

fn distinct_selects(alloc: Global, list: &QueryList) -> Result<List<ChannelName>, AllocError>
    ensures { IfOk result (λ names. names ≡ channels_of list.now.items) }
{
    let mut names = BTreeSet::new(alloc);
    for item in list.items.as_slice() {
        if !item.suppress {
            names.insert(item.channel.clone()?)?;
        }
    }
    Ok(List::from(names.into_iter().collect::<Vec<ChannelName>>(alloc)?))
}

/// Whether the list selects an event of a channel, by its root: in some group a Select of the channel
/// gives a node, and no Suppress of the channel does. It takes no memory.
pub fn selected(list: &QueryList, channel: &ChannelName, node: &Element) -> bool
    ensures { result ≡ is_selected list.now.items channel.now node.now }
{
    has_item_in_force(list.items.as_slice(), channel, node)
}

/// Whether the list selects all events of a channel, whatever these hold: a Select of it says `*`, in a
/// group without a Suppress of it. Where it doesn't say so, it may still select each of some events.
pub fn selects_all(list: &QueryList, channel: &ChannelName) -> bool
    ensures value { result ≡ selects_all list.now.items channel.now }
    ensures each { AllAreSelected list.now.items channel.now }
{
    has_item_asking_for_all(list.items.as_slice(), channel)
}
