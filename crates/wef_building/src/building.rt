//! The batch that a session sends.

ghost use Rattle.std.specs.FinMap as map;
ghost use Rattle.std.specs.Option.{option_to_list};
ghost use Rattle.std.specs.Prelude.{◌≡◌, ◌≤◌, true, IfOk, IfErr, IfSome, OnOk};
ghost use Rattle.wef_batch.specs.Numbers.{AreNumbered, IsNumbered};
ghost use Rattle.wef_keeper.specs.Access as access;
ghost use Rattle.wef_keeper.specs.Calls.{fails};
ghost use Rattle.wef_building.specs.Refusals.{RefusesRead, WantsMemory};
ghost use Rattle.wef_building.specs.Building as spec;
ghost use Rattle.wef_building.specs.Drafting as drafting;
ghost use Rattle.wef_building.specs.Faults.{source_store};
ghost use Rattle.wef_building.specs.Judged.{JudgesBatch, JudgesChannels};
ghost use Rattle.wef_building.specs.Reading.{ReadsAbove};
ghost use Rattle.wef_source_log.specs.Forms.{AreFormed};

use crate::drafting::{Draft, room_of};
use crate::faults::SourceFault;
use crate::sessions::Session;
use std::alloc::Global;
use wef_base::ChannelName;
use wef_base::numbers::MAX;
use wef_batch::{Batch, Item};
use wef_bookmark::Bookmark;
use wef_keeper::Keeper;
use wef_query::channels;
use wef_source_log::Log;

/// The batch that a session sends next. It has no item where there is nothing to send. The log is
/// read page by page, and no further than the batch goes.
pub fn built<K: Keeper>(
    alloc: Global,
    log: &mut Log<K>,
    session: &Session,
) -> Result<Batch, SourceFault>
    requires ready { access.IsReady (K.store log.old.keeper) }
    ensures ok { IfSome (K.store log.new.keeper).rows (λ rows. IfOk result (λ batch. batch ≡ spec.built rows session.now)) }
    ensures numbered { IfOk result (λ batch. AreNumbered batch.items) }
    ensures judged { IfSome (K.store log.new.keeper).rows (λ rows. OnOk result (JudgesBatch rows session.now)) }
    ensures above { IfOk result (λ batch. ReadsAbove session.now.positions (spec.session_channels session.now) batch.to) }
    ensures refusal { IfErr result RefusesRead }
    ensures reads { access.Reads AreFormed (fails source_store result) (K.store log.old.keeper) (K.store log.new.keeper) }
{
    let channels = channels(alloc, &session.query)?;
    built_from(alloc, log, session, channels.as_slice())
}

/// As `built`, from the channels of the session's query.
fn built_from<K: Keeper>(
    alloc: Global,
    log: &mut Log<K>,
    session: &Session,
    channels: &[ChannelName],
) -> Result<Batch, SourceFault>
    requires channels { channels.now ≡ spec.session_channels session.now }
    requires ready { access.IsReady (K.store log.old.keeper) }
    ensures ok { IfSome (K.store log.new.keeper).rows (λ rows. IfOk result (λ batch. batch ≡ spec.built rows session.now)) }
    ensures numbered { IfOk result (λ batch. AreNumbered batch.items) }
    ensures judged { IfSome (K.store log.new.keeper).rows (λ rows. OnOk result (JudgesBatch rows session.now)) }
    ensures above { IfOk result (λ batch. ReadsAbove session.now.positions (spec.session_channels session.now) batch.to) }
    ensures refusal { IfErr result RefusesRead }
    ensures reads { access.Reads AreFormed (fails source_store result) (K.store log.old.keeper) (K.store log.new.keeper) }
{
    let mut draft = Draft::new(alloc, session.max_items, room_of(session));
    let to = filled(alloc, log, session, channels, &mut draft)?;
    Ok(batch_of(draft, to))
}

fn batch_of(draft: Draft, to: Bookmark) -> Batch
    ensures { result ≡ record { items = draft.items; to = to; ack_wanted = true } }
{
    Batch {
        items: draft.items,
        to,
        ack_wanted: true,
    }
}

/// Takes what is to be said of channels while it fits, and answers how far they are read then.
fn filled<K: Keeper>(
    alloc: Global,
    log: &mut Log<K>,
    session: &Session,
    channels: &[ChannelName],
    draft: &mut Draft,
) -> Result<Bookmark, SourceFault>
    requires draft { drafting.IsNumberedDraft draft.old }
    requires ready { access.IsReady (K.store log.old.keeper) }
    ensures draft { IfSome (K.store log.new.keeper).rows (λ rows. OnOk result (draft.new ≡ drafting.with_items draft.old (spec.candidates_in rows session.now channels.now))) }
    ensures numbered { OnOk result (drafting.IsNumberedDraft draft.new) }
    ensures judged { IfSome (K.store log.new.keeper).rows (λ rows. OnOk result (JudgesChannels rows session.now.positions channels.now draft.old.left draft.new.left)) }
    ensures to { IfSome (K.store log.new.keeper).rows (λ rows. IfOk result (λ to. to
        ≡ spec.with_reaches session.now.positions map.empty (spec.reaches rows channels.now (option_to_list draft.new.left)))) }
    ensures above { IfOk result (ReadsAbove session.now.positions channels.now) }
    ensures refusal { IfErr result RefusesRead }
    ensures reads { access.Reads AreFormed (fails source_store result) (K.store log.old.keeper) (K.store log.new.keeper) }
{
    draft.take_channels(log, session, channels)?;
    reached(alloc, log, session, channels, &draft.left)
}

/// How far channels are read above a session's positions, where an item is left.
fn reached<K: Keeper>(
    alloc: Global,
    log: &mut Log<K>,
    session: &Session,
    channels: &[ChannelName],
    left: &Option<Item>,
) -> Result<Bookmark, SourceFault>
    requires left { IfSome left.now IsNumbered }
    requires ready { access.IsReady (K.store log.old.keeper) }
    ensures ok { IfSome (K.store log.new.keeper).rows (λ rows. IfOk result (λ to. to ≡ spec.with_reaches session.now.positions map.empty (spec.reaches rows channels.now (option_to_list left.now)))) }
    ensures above { IfOk result (ReadsAbove session.now.positions channels.now) }
    ensures refusal { IfErr result RefusesRead }
    ensures reads { access.Reads AreFormed (fails source_store result) (K.store log.old.keeper) (K.store log.new.keeper) }
{
    let mut to = Bookmark::new(alloc);
    for channel in channels {
        if let Some(number) = stop_at(left, channel) {
            raise_above(&mut to, &session.positions, channel, number)?;
            return Ok(to);
        }
        let last = log.last_ready(channel)?;
        raise_above(&mut to, &session.positions, channel, last)?;
    }
    Ok(to)
}

/// Raises a channel to a number, where that is above its position.
fn raise_above(
    to: &mut Bookmark,
    positions: &Bookmark,
    channel: &ChannelName,
    number: u64,
) -> Result<(), SourceFault>
    requires { number ≤ MAX }
    ensures ok { OnOk result (to.new ≡ spec.with_reach positions.now to.old (channel.now, number)) }
    ensures refusal { IfErr result WantsMemory }
{
    if number <= positions.at(channel) {
        return Ok(());
    }
    if to.raise(channel, number).is_err() {
        return Err(SourceFault::NoMemory);
    }
    Ok(())
}

/// How far a channel is read where an item is left: up to that item, where it is of the channel.
fn stop_at(left: &Option<Item>, channel: &ChannelName) -> Option<u64>
    requires { IfSome left.now IsNumbered }
    ensures value { result ≡ drafting.stop_at channel.now left.now }
    ensures bound { IfSome result (λ number. number ≤ MAX) }
{
    match left {
        Some(item) if is_of(item, channel) => Some(first_number(item).saturating_sub(1)),
        _ => None,
    }
}

fn is_of(item: &Item, channel: &ChannelName) -> bool
    ensures { result ≡ spec.is_of channel.now item.now }
{
    match item {
        Item::Event(event) => event.channel == *channel,
        Item::Dropped {
            channel: dropped,
            ..
        } => *dropped == *channel,
        Item::Loose { .. } => false,
    }
}

fn first_number(item: &Item) -> u64
    requires { IsNumbered item.now }
    ensures value { result ≡ spec.first_number item.now }
    ensures bound { result ≤ MAX }
{
    match item {
        Item::Event(event) => event.number,
        Item::Dropped { first, .. } => *first,
        Item::Loose { .. } => 0,
    }
}
