//! Which items of a list of queries are in force: of one event, and of all events of a channel.
//!
//! Where groups never fall, as in each list that is read, the items of a group stand together, and
//! each is looked at for its own group alone. Any other list is looked through for each Select.

ghost use Rattle.std.specs.List.{list_any, prefix_len};
ghost use Rattle.std.specs.Prelude.{◌≡◌, ◌≤◌, ◌&&◌, not, length, true};
ghost use Rattle.wef_query.specs.Runs.{is_giving_select, is_of, is_select_of_all, never_fall};
ghost use Rattle.wef_query.specs.Selected.{is_asking_for_all, is_selecting, is_suppressed, is_suppress_at, is_suppress_of, item_gives, selects_all};

use crate::QueryItem;
use wef_base::{ChannelName, Element};
use wef_query_values::gives_node;

/// Whether an item selects an event of a channel, and none of its group takes it out.
pub(crate) fn has_item_in_force(items: &[QueryItem], channel: &ChannelName, node: &Element) -> bool
    ensures { result ≡ list_any (is_selecting items.now channel.now node.now) items.now }
{
    if groups_never_fall(items) {
        return has_group_in_force(items, channel, node);
    }
    is_any_in_force(items, channel, node)
}

/// Whether an item asks for all events of a channel, and none of its group takes any out.
#[tactic(auto, unfolding(crate::specs::Selected::selects_all))]
pub(crate) fn has_item_asking_for_all(items: &[QueryItem], channel: &ChannelName) -> bool
    ensures { result ≡ selects_all items.now channel.now }
{
    if groups_never_fall(items) {
        return has_group_asking_for_all(items, channel);
    }
    is_any_asking_for_all(items, channel)
}

fn groups_never_fall(items: &[QueryItem]) -> bool
    ensures { result ≡ never_fall 0 items.now }
{
    let mut last = 0;
    for item in items {
        if item.group < last {
            return false;
        }
        last = item.group;
    }
    true
}

/// How many items of a group stand in front.
fn run_length(group: u64, items: &[QueryItem]) -> usize
    ensures value { result ≡ prefix_len (is_of group) items.now }
    ensures within { result ≤ length items.now }
{
    let mut length = 0;
    let mut rest = items;
    while let Some((item, more)) = rest.split_first() {
        if item.group != group {
            return length;
        }
        length += 1;
        rest = more;
    }
    length
}

// ---- one event, by its root

fn has_group_in_force(items: &[QueryItem], channel: &ChannelName, node: &Element) -> bool
    requires { never_fall 0 items.now ≡ true }
    ensures { result ≡ list_any (is_selecting items.now channel.now node.now) items.now }
{
    let mut rest = items;
    while let Some((first, _)) = rest.split_first() {
        let (run, behind) = rest.split_at(run_length(first.group, rest));
        if is_run_in_force(run, first.group, channel, node) {
            return true;
        }
        rest = behind;
    }
    false
}

fn is_run_in_force(run: &[QueryItem], group: u64, channel: &ChannelName, node: &Element) -> bool
    ensures { result ≡ (list_any (is_giving_select channel.now node.now) run.now && not (is_suppressed run.now group channel.now node.now)) }
{
    has_giving_select(run, channel, node) && !is_suppressed(run, group, channel, node)
}

fn has_giving_select(items: &[QueryItem], channel: &ChannelName, node: &Element) -> bool
    ensures { result ≡ list_any (is_giving_select channel.now node.now) items.now }
{
    items
        .iter()
        .any(|item| is_giving_select(item, channel, node))
}

fn is_giving_select(item: &QueryItem, channel: &ChannelName, node: &Element) -> bool
    ensures { result ≡ is_giving_select channel.now node.now item.now }
{
    !item.suppress && item.channel == *channel && item_gives(item, node)
}

fn is_suppressed(items: &[QueryItem], group: u64, channel: &ChannelName, node: &Element) -> bool
    ensures { result ≡ is_suppressed items.now group channel.now node.now }
{
    items
        .iter()
        .any(|item| takes_out(item, group, channel, node))
}

fn takes_out(item: &QueryItem, group: u64, channel: &ChannelName, node: &Element) -> bool
    ensures { result ≡ is_suppress_of group channel.now node.now item.now }
{
    is_suppress_at(item, group, channel) && item_gives(item, node)
}

/// Whether an item's path gives a node of an event.
fn item_gives(item: &QueryItem, node: &Element) -> bool
    ensures { result ≡ item_gives item.now node.now }
{
    gives_node(item.path.get(), node)
}

fn is_any_in_force(items: &[QueryItem], channel: &ChannelName, node: &Element) -> bool
    ensures { result ≡ list_any (is_selecting items.now channel.now node.now) items.now }
{
    items
        .iter()
        .any(|item| is_in_force(items, item, channel, node))
}

fn is_in_force(items: &[QueryItem], item: &QueryItem, channel: &ChannelName, node: &Element) -> bool
    ensures { result ≡ is_selecting items.now channel.now node.now item.now }
{
    is_giving_select(item, channel, node) && !is_suppressed(items, item.group, channel, node)
}

// ---- all events of a channel, whatever these hold

fn has_group_asking_for_all(items: &[QueryItem], channel: &ChannelName) -> bool
    requires { never_fall 0 items.now ≡ true }
    ensures { result ≡ list_any (is_asking_for_all items.now channel.now) items.now }
{
    let mut rest = items;
    while let Some((first, _)) = rest.split_first() {
        let (run, behind) = rest.split_at(run_length(first.group, rest));
        if is_run_asking_for_all(run, first.group, channel) {
            return true;
        }
        rest = behind;
    }
    false
}

fn is_run_asking_for_all(run: &[QueryItem], group: u64, channel: &ChannelName) -> bool
    ensures { result ≡ (list_any (is_select_of_all channel.now) run.now && not (list_any (is_suppress_at group channel.now) run.now)) }
{
    has_select_of_all(run, channel) && !has_suppress(run, group, channel)
}

fn has_select_of_all(items: &[QueryItem], channel: &ChannelName) -> bool
    ensures { result ≡ list_any (is_select_of_all channel.now) items.now }
{
    items.iter().any(|item| is_select_of_all(item, channel))
}

fn is_select_of_all(item: &QueryItem, channel: &ChannelName) -> bool
    ensures { result ≡ is_select_of_all channel.now item.now }
{
    !item.suppress && item.channel == *channel && item.is_unconditional()
}

fn has_suppress(items: &[QueryItem], group: u64, channel: &ChannelName) -> bool
    ensures { result ≡ list_any (is_suppress_at group channel.now) items.now }
{
    items
        .iter()
        .any(|item| is_suppress_at(item, group, channel))
}

fn is_suppress_at(item: &QueryItem, group: u64, channel: &ChannelName) -> bool
    ensures { result ≡ is_suppress_at group channel.now item.now }
{
    item.group == group && item.suppress && item.channel == *channel
}

fn is_any_asking_for_all(items: &[QueryItem], channel: &ChannelName) -> bool
    ensures { result ≡ list_any (is_asking_for_all items.now channel.now) items.now }
{
    items
        .iter()
        .any(|item| is_asking_for_all(items, item, channel))
}

fn is_asking_for_all(items: &[QueryItem], item: &QueryItem, channel: &ChannelName) -> bool
    ensures { result ≡ is_asking_for_all items.now channel.now item.now }
{
    is_select_of_all(item, channel) && !has_suppress(items, item.group, channel)
}
