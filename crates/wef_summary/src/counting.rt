//! How much a world's sources wrote, and how much its collector keeps of it.

ghost use Rattle.std.specs.Prelude.{◌≡◌, ◌≤◌, ◌++◌, IfOk, OnOk};
ghost use Rattle.wef_keeper.specs.Access.{IsReady};
ghost use Rattle.wef_summary.specs.Summary as spec;

use std::alloc::{AllocError, Global};
use wef_base::{List, SourceName, Text};
use wef_keeper::access::section;
use wef_keeper::{Depth, Keeper, Key, MemKeeper, Row, RowKind};
use wef_places::histories::Histories;
use wef_places::sources::Sources;

/// How many records all sources wrote.
pub fn written(alloc: Global, sources: &Sources) -> Result<u128, AllocError>
    ensures { IfOk result (λ number. number ≡ spec.written sources.now) }
{
    let names = sources.names(alloc)?;
    let mut counts = List::new(alloc);
    for name in names.as_slice() {
        push_counts_at(alloc, &mut counts, sources, name)?;
    }
    Ok(total(counts.as_slice()))
}

/// Appends how many records a source wrote, channel by channel.
fn push_counts_at(
    alloc: Global,
    counts: &mut List<u64>,
    sources: &Sources,
    name: &SourceName,
) -> Result<(), AllocError>
    ensures { OnOk result (counts.new ≡ counts.old ++ spec.counts_at sources.now name.now) }
{
    match sources.slot(name) {
        Some(slot) => push_counts(alloc, counts, slot.histories()),
        None => Ok(()),
    }
}

fn push_counts(
    alloc: Global,
    counts: &mut List<u64>,
    histories: &Histories,
) -> Result<(), AllocError>
    ensures { OnOk result (counts.new ≡ counts.old ++ spec.counts_in histories.now) }
{
    let channels = histories.channels(alloc)?;
    for channel in channels.as_slice() {
        counts.push(histories.count(channel))?;
    }
    Ok(())
}

fn total(numbers: &[u64]) -> u128
    ensures { result ≡ spec.sum_of (λ n. n) numbers.now }
{
    let mut total = 0u128;
    for number in numbers {
        total += u128::from(*number);
    }
    total
}

/// How many events are held.
pub fn held(alloc: Global, store: &mut MemKeeper) -> Result<usize, AllocError>
    requires { IsReady (⟦<MemKeeper as Keeper>⟧.store store.old) }
    ensures rows { store.new.rows ≡ store.old.rows }
    ensures ready { IsReady (⟦<MemKeeper as Keeper>⟧.store store.new) }
    ensures number { IfOk result (λ number. number ≡ spec.held store.old.rows) }
{
    let rows = rows_of(alloc, store, RowKind::Held)?;
    Ok(rows.len())
}

/// How many numbers lie under marks.
pub fn dropped(alloc: Global, store: &mut MemKeeper) -> Result<u128, AllocError>
    requires { IsReady (⟦<MemKeeper as Keeper>⟧.store store.old) }
    ensures { IfOk result (λ number. number ≡ spec.dropped store.old.rows) }
{
    let rows = rows_of(alloc, store, RowKind::Mark)?;
    Ok(marked(rows.as_slice()))
}

/// How many numbers lie under these marks.
fn marked(rows: &[Row]) -> u128
    ensures { result ≡ spec.sum_of spec.marked_by rows.now }
{
    let mut total = 0u128;
    for row in rows {
        total += marked_by(row);
    }
    total
}

fn marked_by(row: &Row) -> u128
    ensures number { result ≡ spec.marked_by row.now }
    ensures small { result ≤ 18446744073709551616 }
{
    (u128::from(row.value) + 1).saturating_sub(u128::from(row.key.number))
}

/// All rows of a kind.
fn rows_of(alloc: Global, store: &mut MemKeeper, kind: RowKind) -> Result<List<Row>, AllocError>
    requires { IsReady (⟦<MemKeeper as Keeper>⟧.store store.old) }
    ensures rows { store.new.rows ≡ store.old.rows }
    ensures ready { IsReady (⟦<MemKeeper as Keeper>⟧.store store.new) }
    ensures found { IfOk result (λ rows. rows ≡ spec.rows_of kind store.old.rows) }
{
    match section(store, &first_key(alloc, kind), Depth::Kind) {
        Ok(rows) => Ok(rows),
        Err(_) => Err(AllocError),
    }
}

/// The key in front of all rows of a kind.
fn first_key(alloc: Global, kind: RowKind) -> Key
    ensures { result ≡ spec.first_key kind }
{
    Key {
        kind: kind.number(),
        sub: Text::new(alloc),
        source: Text::new(alloc),
        channel: Text::new(alloc),
        number: 0,
    }
}
