//! What the log's calls change, and how it is committed.

ghost use Rattle.std.specs.Prelude.{◌≡◌, ◌≤◌, ◌++◌, [], ◌∷◌, true, false, is_some, Some, Option, IfOk, IfErr, IfSome, OnOk};
ghost use Rattle.wef_event.specs.Numbering as numbering;
ghost use Rattle.wef_keeper.specs.Access as access;
ghost use Rattle.wef_keeper.specs.Calls.{DoesWith, IsCall, fails};
ghost use Rattle.wef_keeper.specs.declared.keys.Cell as the_cell;
ghost use Rattle.wef_keeper.specs.declared.keys.Change.TheVariants.{Put};
ghost use Rattle.wef_source_log.specs.Answers as answers;
ghost use Rattle.wef_source_log.specs.Faults.{log_store};
ghost use Rattle.wef_source_log.specs.Forms.{AreFormed, is_formed};
ghost use Rattle.wef_source_log.specs.Judged as judged;
ghost use Rattle.wef_source_log.specs.Keys as keys;
ghost use Rattle.wef_source_log.specs.Prepared.{Prepares, RefusesNumber};
ghost use Rattle.wef_source_log.specs.LogWindow as windows;

use crate::faults::LogFault;
use crate::forms::LogForm;
use crate::keys::{boot_key, capacity_key, last_key, record_key};
use crate::reading::{boot_of, capacity_of, has_capacity, last_of};
use std::alloc::{AllocError, Global};
use wef_base::numbers::MAX;
use wef_base::{ChannelName, Text};
use wef_event::{Event, EventFault};
use wef_keeper::{Changes, Keeper, Key, Row, StoreFault, access};

/// What a call is about to commit, and the number that it answers.
#[derive(Drop)]
pub struct Prepared {
    pub changes: Changes<LogForm>,
    pub number: u64,
}

/// Starts the source: its boot number is one greater from now on, and a capacity is kept where none
/// was. Answers the boot number.
pub fn start_in<K: Keeper>(alloc: Global, keeper: &mut K, capacity: u64) -> Result<u64, LogFault>
    requires least { 1 ≤ capacity }
    requires greatest { capacity ≤ 1000000 }
    ensures call { IsCall log_store AreFormed (λ found. answers.start_effect found capacity) answers.next_boot result (K.store keeper.old) (K.store keeper.new) }
    ensures judged { DoesWith log_store AreFormed (λ found. answers.start_effect found capacity) answers.next_boot (λ answer found after. judged.JudgesStart answer found) result (K.store keeper.old) (K.store keeper.new) }
    ensures listed { IfErr result answers.RefusesStart }
{
    access::open(keeper)?;
    let prepared = prepared_start(alloc, keeper, capacity)?;
    access::commit(keeper, &prepared.changes)?;
    Ok(prepared.number)
}

fn prepared_start<K: Keeper>(
    alloc: Global,
    keeper: &mut K,
    capacity: u64,
) -> Result<Prepared, LogFault>
    requires least { 1 ≤ capacity }
    requires greatest { capacity ≤ 1000000 }
    requires ready { access.IsReady (K.store keeper.old) }
    ensures prepared { IfSome (K.store keeper.new).rows (λ found. Prepares (answers.start_effect found capacity) (answers.next_boot found) result) }
    ensures judged { IfSome (K.store keeper.new).rows (λ found. judged.JudgesStart result found) }
    ensures listed { IfErr result answers.RefusesStart }
    ensures reads { access.Reads AreFormed (fails log_store result) (K.store keeper.old) (K.store keeper.new) }
{
    let boot = boot_of(alloc, keeper)?;
    if boot >= MAX {
        return Err(LogFault::Full);
    }
    let is_kept = has_capacity(alloc, keeper)?;
    let number = boot + 1;
    let changes = start_changes(alloc, is_kept, capacity, number)?;
    Ok(Prepared { changes, number })
}

/// What a start changes.
#[tactic(auto, using(crate::proofs::Forming::boot_put, crate::proofs::Forming::capacity_put))]
fn start_changes(
    alloc: Global,
    is_kept: bool,
    capacity: u64,
    boot: u64,
) -> Result<Changes<LogForm>, StoreFault>
    requires least { 1 ≤ capacity }
    requires greatest { capacity ≤ 1000000 }
    requires boot { boot ≤ MAX }
    ensures changes { IfOk result (λ changes. (cell : Option the_cell.Cell) → is_some cell ≡ is_kept
        → changes ≡ windows.capacity_changes capacity cell ++ Put (record { key = keys.boot_key; value = boot; body = [] }) ∷ []) }
    ensures unread { access.fails result ≡ false }
{
    let mut changes = Changes::new(alloc);
    if !is_kept {
        push_number_row(&mut changes, capacity_key(alloc), capacity)?;
    }
    push_number_row(&mut changes, boot_key(alloc), boot)?;
    Ok(changes)
}

/// Writes an event as the next record of its channel, and answers its number. Where the rows are the
/// window of histories, they are that of the longer ones.
pub fn write_in<K: Keeper>(keeper: &mut K, event: &Event) -> Result<u64, LogFault>
    ensures call { IsCall log_store AreFormed (λ found. answers.write_effect found event.now) (λ found. answers.next_number found event.now) result (K.store keeper.old) (K.store keeper.new) }
    ensures judged { DoesWith log_store AreFormed (λ found. answers.write_effect found event.now) (λ found. answers.next_number found event.now)
        (λ answer found after. judged.JudgesWrite answer event.now.channel found × IfOk answer (answers.ExtendsHistory found after event.now)) result (K.store keeper.old) (K.store keeper.new) }
{
    write_next(keeper, event)
}

/// As `write_in`, by the rows alone.
fn write_next<K: Keeper>(keeper: &mut K, event: &Event) -> Result<u64, LogFault>
    ensures call { IsCall log_store AreFormed (λ found. answers.write_effect found event.now) (λ found. answers.next_number found event.now) result (K.store keeper.old) (K.store keeper.new) }
    ensures judged { DoesWith log_store AreFormed (λ found. answers.write_effect found event.now) (λ found. answers.next_number found event.now)
        (λ answer found after. judged.JudgesWrite answer event.now.channel found) result (K.store keeper.old) (K.store keeper.new) }
{
    access::open(keeper)?;
    let prepared = prepared_write(keeper, event)?;
    access::commit(keeper, &prepared.changes)?;
    Ok(prepared.number)
}

fn prepared_write<K: Keeper>(keeper: &mut K, event: &Event) -> Result<Prepared, LogFault>
    requires { access.IsReady (K.store keeper.old) }
    ensures prepared { IfSome (K.store keeper.new).rows (λ found. Prepares (answers.write_effect found event.now) (answers.next_number found event.now) result) }
    ensures judged { IfSome (K.store keeper.new).rows (λ found. judged.JudgesWrite result event.now.channel found) }
    ensures reads { access.Reads AreFormed (fails log_store result) (K.store keeper.old) (K.store keeper.new) }
{
    let last = last_of(keeper, &event.channel)?;
    if last >= MAX {
        return Err(LogFault::Full);
    }
    let capacity = capacity_of(keeper, &event.channel)?;
    let number = last + 1;
    let next = with_number(event, number)?;
    let changes = write_changes(capacity, next)?;
    Ok(Prepared { changes, number })
}

/// The event with its number. Numbering refuses nothing but what is too long then.
fn with_number(event: &Event, number: u64) -> Result<Event, LogFault>
    requires least { 1 ≤ number }
    requires greatest { number ≤ MAX }
    ensures numbered { IfOk result (λ next. numbering.numbered event.now number ≡ Some next) }
    ensures channel { IfOk result (λ next. next.channel ≡ event.now.channel) }
    ensures number { IfOk result (λ next. next.number ≡ number) }
    ensures refusal { IfErr result (RefusesNumber (numbering.numbered event.now number)) }
{
    match event.with_number(number) {
        Ok(next) => Ok(next),
        Err(EventFault::NoMemory) => Err(LogFault::NoMemory),
        Err(EventFault::TooLong) => Err(LogFault::TooLong),
        Err(EventFault::BadEvent { .. } | EventFault::NoChannel | EventFault::NoRecordId) => {
            unreachable!()
        }
    }
}

/// What a record changes as the last of its channel.
fn write_changes(capacity: u64, next: Event) -> Result<Changes<LogForm>, StoreFault>
    requires { 1 ≤ next.number }
    ensures changes { IfOk result (λ changes. changes ≡ windows.write_changes capacity next.channel next.number next.text) }
    ensures unread { access.fails result ≡ false }
{
    let number = next.number;
    let mut changes = Changes::new(next.channel.as_text().alloc());
    let key = record_key(&next.channel, number)?;
    let (channel, _, text) = next.into_parts();
    changes.put(Row {
        key,
        value: 0,
        body: text,
    })?;
    push_number_row(&mut changes, last_key(&channel)?, number)?;
    push_leaving(&mut changes, capacity, &channel, number)?;
    Ok(changes)
}

/// Puts the row of a number.
fn push_number_row(changes: &mut Changes<LogForm>, key: Key, number: u64) -> Result<(), AllocError>
    requires key { key.number ≡ 0 }
    requires number { number ≤ MAX }
    requires form { is_formed (record { key = key; value = number; body = [] }) ≡ true }
    ensures { OnOk result (changes.new ≡ changes.old ++ Put (record { key = key; value = number; body = [] }) ∷ []) }
{
    let body = Text::new(key.channel.alloc());
    changes.put(Row {
        key,
        value: number,
        body,
    })
}

/// Deletes the record that leaves a channel's window once a number is the last.
fn push_leaving(
    changes: &mut Changes<LogForm>,
    capacity: u64,
    channel: &ChannelName,
    number: u64,
) -> Result<(), AllocError>
    ensures { OnOk result (changes.new ≡ changes.old ++ windows.leaving capacity channel.now number) }
{
    if capacity < number {
        changes.delete(record_key(channel, number - capacity)?)?;
    }
    Ok(())
}
