//! Drafts of batches: candidates are offered one after the other, and taken while they fit.

ghost use Rattle.std.specs.List.{filter_map};
ghost use Rattle.std.specs.Prelude.{◌≡◌, ◌+◌, ◌∷◌, [], min, is_some, Some, None, IfErr, IfOk, IfSome, OnOk};
ghost use Rattle.wef_batch.specs.Numbers.{IsNumbered};
ghost use Rattle.wef_keeper.specs.Access as access;
ghost use Rattle.wef_keeper.specs.Calls.{fails};
ghost use Rattle.wef_building.specs.Refusals.{RefusesRead};
ghost use Rattle.wef_building.specs.Building as building;
ghost use Rattle.wef_building.specs.Drafting as spec;
ghost use Rattle.wef_building.specs.Faults.{source_store};
ghost use Rattle.wef_building.specs.Judged as judged;
ghost use Rattle.wef_building.specs.Selecting.{is_wanted};
ghost use Rattle.wef_source_log.specs.Forms.{AreFormed};
ghost use Rattle.wef_source_log.specs.Judged.{JudgesFirst};
ghost use Rattle.wef_source_log.specs.LogWindow as windows;
ghost use Rattle.wef_source_log.specs.LogWindow.{records_after};

use crate::faults::SourceFault;
use crate::sessions::Session;
use std::alloc::{AllocError, Global};
use wef_base::{ChannelName, List};
use wef_batch::{Item, cost};
use wef_event::Event;
use wef_keeper::Keeper;
use wef_query::{QueryList, selected, selects_all};
use wef_source_log::Log;

/// The most records that are read at once.
const PAGE: u32 = 256;

/// How many records are read first where so many items may be taken: these, and one more, which is
/// left then.
fn first_page(items: u32) -> u32
    ensures { result ≡ min PAGE (items + 1) }
{
    if items < PAGE { items + 1 } else { PAGE }
}

/// A batch's items so far.
#[derive(Drop)]
pub struct Draft {
    pub items: List<Item>,
    /// How many items more may be taken.
    pub items_left: u32,
    /// How many bytes more they may have.
    pub bytes_left: u64,
    /// The first item that didn't fit.
    pub left: Option<Item>,
}

impl Draft {
    /// A draft with room for so many items and so many bytes of them. It takes no memory.
    pub fn new(alloc: Global, items: u32, bytes: u64) -> Draft
        ensures value { result ≡ spec.empty_draft items bytes }
        ensures numbered { spec.IsNumberedDraft result }
    {
        Draft {
            items: List::new(alloc),
            items_left: items,
            bytes_left: bytes,
            left: None,
        }
    }

    /// Whether an item didn't fit: nothing is taken any more.
    pub fn is_full(&self) -> bool
        ensures { result ≡ is_some self.now.left }
    {
        self.left.is_some()
    }

    /// Takes an item, where it fits and all before it did.
    pub fn take(&mut self, item: Item) -> Result<(), AllocError>
        requires draft { spec.IsNumberedDraft self.old }
        requires item { IsNumbered item }
        ensures ok { OnOk result (self.new ≡ spec.with_item self.old item) }
        ensures numbered { OnOk result (spec.IsNumberedDraft self.new) }
    {
        if self.left.is_some() {
            return Ok(());
        }
        self.take_next(item)
    }

    /// Takes an item where it fits, and all before it did.
    #[tactic(auto, using(crate::proofs::Numbered::push_numbered))]
    fn take_next(&mut self, item: Item) -> Result<(), AllocError>
        requires unfilled { self.old.left ≡ None }
        requires draft { spec.IsNumberedDraft self.old }
        requires item { IsNumbered item }
        ensures ok { OnOk result (self.new ≡ spec.with_item self.old item) }
        ensures numbered { OnOk result (spec.IsNumberedDraft self.new) }
    {
        let bytes = cost(&item);
        if self.items_left == 0 || bytes > self.bytes_left {
            self.leave(item);
            return Ok(());
        }
        self.items_left -= 1;
        self.bytes_left -= bytes;
        self.items.push(item)
    }

    /// Leaves the first item that doesn't fit.
    fn leave(&mut self, item: Item)
        ensures { self.new ≡ record self.old { left = Some item } }
    {
        self.left = Some(item);
    }

    /// Takes what is to be said of channels, one after the other, while it fits.
    pub fn take_channels<K: Keeper>(
        &mut self,
        log: &mut Log<K>,
        session: &Session,
        channels: &[ChannelName],
    ) -> Result<(), SourceFault>
        requires draft { spec.IsNumberedDraft self.old }
        requires ready { access.IsReady (K.store log.old.keeper) }
        ensures ok { IfSome (K.store log.new.keeper).rows (λ rows. OnOk result (self.new ≡ spec.with_items self.old (building.candidates_in rows session.now channels.now))) }
        ensures numbered { OnOk result (spec.IsNumberedDraft self.new) }
        ensures judged { IfSome (K.store log.new.keeper).rows (λ rows. OnOk result (judged.JudgesChannels rows session.now.positions channels.now self.old.left self.new.left)) }
        ensures refusal { IfErr result RefusesRead }
        ensures reads { access.Reads AreFormed (fails source_store result) (K.store log.old.keeper) (K.store log.new.keeper) }
    {
        for channel in channels {
            self.take_channel(log, session, channel)?;
        }
        Ok(())
    }

    /// Takes what is to be said of a channel above a position, while it fits. The log is read page by
    /// page, and no further than what is taken goes.
    fn take_channel<K: Keeper>(
        &mut self,
        log: &mut Log<K>,
        session: &Session,
        channel: &ChannelName,
    ) -> Result<(), SourceFault>
        requires draft { spec.IsNumberedDraft self.old }
        requires ready { access.IsReady (K.store log.old.keeper) }
        ensures ok { IfSome (K.store log.new.keeper).rows (λ rows. OnOk result (self.new ≡ spec.with_items self.old (building.channel_candidates rows session.now channel.now))) }
        ensures numbered { OnOk result (spec.IsNumberedDraft self.new) }
        ensures judged { IfSome (K.store log.new.keeper).rows (λ rows. OnOk result (judged.JudgesChannel rows session.now.positions channel.now self.old.left self.new.left)) }
        ensures refusal { IfErr result RefusesRead }
        ensures reads { access.Reads AreFormed (fails source_store result) (K.store log.old.keeper) (K.store log.new.keeper) }
    {
        let position = session.positions.at(channel);
        self.take_unread(log, channel, position)?;
        self.take_records(log, &session.query, room_of(session), channel, position)
    }

    /// Takes the records that left the window unread, as one range.
    fn take_unread<K: Keeper>(
        &mut self,
        log: &mut Log<K>,
        channel: &ChannelName,
        position: u64,
    ) -> Result<(), SourceFault>
        requires draft { spec.IsNumberedDraft self.old }
        requires ready { access.IsReady (K.store log.old.keeper) }
        ensures ok { IfSome (K.store log.new.keeper).rows (λ rows. OnOk result (self.new ≡ spec.with_items self.old (building.unread rows channel.now position))) }
        ensures numbered { OnOk result (spec.IsNumberedDraft self.new) }
        ensures judged { IfSome (K.store log.new.keeper).rows (λ rows. OnOk result (JudgesFirst channel.now rows)) }
        ensures refusal { IfErr result RefusesRead }
        ensures reads { access.Reads AreFormed (fails source_store result) (K.store log.old.keeper) (K.store log.new.keeper) }
    {
        let first = log.first_ready(channel)?;
        if first.saturating_sub(position) <= 1 {
            return Ok(());
        }
        self.take(Item::Dropped {
            channel: channel.clone()?,
            first: position + 1,
            last: first - 1,
        })?;
        Ok(())
    }

    /// Takes what a channel's records above a position give, page by page.
    fn take_records<K: Keeper>(
        &mut self,
        log: &mut Log<K>,
        query: &QueryList,
        room: u64,
        channel: &ChannelName,
        position: u64,
    ) -> Result<(), SourceFault>
        requires draft { spec.IsNumberedDraft self.old }
        requires ready { access.IsReady (K.store log.old.keeper) }
        ensures ok { IfSome (K.store log.new.keeper).rows (λ rows. OnOk result (self.new
            ≡ spec.with_items self.old (filter_map (building.item_of query.now room) (records_after rows channel.now position)))) }
        ensures numbered { OnOk result (spec.IsNumberedDraft self.new) }
        ensures judged { self.old.left ≡ None → IfSome (K.store log.new.keeper).rows (λ rows. OnOk result (judged.AreRead channel.now position self.new.left rows)) }
        ensures refusal { IfErr result RefusesRead }
        ensures reads { access.Reads AreFormed (fails source_store result) (K.store log.old.keeper) (K.store log.new.keeper) }
    {
        let mut after = position;
        let mut max = first_page(self.items_left);
        while !self.is_full() {
            let page = log.page_ready(channel, after, max)?;
            if page.is_empty() {
                return Ok(());
            }
            after = last_number(after, page.as_slice());
            self.take_events(query, room, page)?;
            max = PAGE;
        }
        Ok(())
    }

    /// Takes what a record gives.
    fn take_event(&mut self, query: &QueryList, room: u64, event: Event) -> Result<(), AllocError>
        requires { spec.IsNumberedDraft self.old }
        ensures ok { OnOk result (self.new ≡ spec.with_items self.old (filter_map (building.item_of query.now room) (event ∷ []))) }
        ensures numbered { OnOk result (spec.IsNumberedDraft self.new) }
    {
        if !is_wanted(query, &event)? {
            return Ok(());
        }
        self.take(sized_item(room, event))
    }

    /// Takes what records give, while it fits.
    fn take_events(
        &mut self,
        query: &QueryList,
        room: u64,
        events: List<Event>,
    ) -> Result<(), AllocError>
        requires { spec.IsNumberedDraft self.old }
        ensures ok { OnOk result (self.new ≡ spec.with_items self.old (filter_map (building.item_of query.now room) events)) }
        ensures numbered { OnOk result (spec.IsNumberedDraft self.new) }
    {
        for event in events.into_vec() {
            self.take_event(query, room, event)?;
        }
        Ok(())
    }
}

/// Whether a query selects an event, by its tree; that isn't read where each event of the channel is
/// selected.
#[tactic(auto, unfolding(crate::specs::Selecting::is_wanted))]
fn is_wanted(query: &QueryList, event: &Event) -> Result<bool, AllocError>
    ensures { IfOk result (λ wanted. wanted ≡ is_wanted query.now event.now.channel event.now.text) }
{
    if selects_all(query, &event.channel) {
        event.has_tree();
        return Ok(true);
    }
    let root = event.tree()?;
    Ok(selected(query, &event.channel, &root))
}

/// The bytes that a session's batch has for items: 4,096 of its bytes are for what stands round them.
pub fn room_of(session: &Session) -> u64
    ensures { result ≡ building.room_of session.now.max_bytes }
{
    u64::from(session.max_bytes).saturating_sub(4096)
}

/// The number of the last of some events, and the one before where there is none.
fn last_number(before: u64, events: &[Event]) -> u64
    ensures { result ≡ windows.last_number before events.now }
{
    let mut last = before;
    for event in events {
        last = event.number;
    }
    last
}

/// A record as an item: dropped where its event costs more than the room.
fn sized_item(room: u64, event: Event) -> Item
    ensures value { result ≡ building.sized_item room event }
    ensures numbered { IsNumbered result }
{
    let item = Item::Event(event);
    if cost(&item) > room {
        dropped(item)
    } else {
        item
    }
}

/// What says that an event's record is gone.
fn dropped(item: Item) -> Item
    requires { IsNumbered item }
    ensures value { result ≡ spec.dropped item }
    ensures numbered { IsNumbered result }
{
    match item {
        Item::Event(event) => {
            let number = event.number;
            let (channel, _, _) = event.into_parts();
            Item::Dropped {
                channel,
                first: number,
                last: number,
            }
        }
        other => other,
    }
}
