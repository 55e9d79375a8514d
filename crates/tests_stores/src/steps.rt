//! What any store can do.

ghost use Rattle.std.specs.Prelude.{◌≡◌, ◌≤◌, take, IfOk, OnOk};
ghost use Rattle.wef_keeper.specs.Forms.{AreWithin};
ghost use Rattle.wef_keeper.specs.Keeping.{OfRows, raised};
ghost use Rattle.wef_keeper.specs.Rows.{applied, rows_after};

use crate::many::{counted, push_all};
use crate::rows::{changes_in, key_in, push_rows};
use std::alloc::AllocError;
use wef_base::{List, Text};
use wef_keeper::{Change, Keeper, KeeperFault, Key, Row};

/// Has a store do steps, and appends what comes of each.
pub(crate) fn push_steps<K: Keeper>(
    shown: &mut Text,
    keeper: &mut K,
    steps: &str,
) -> Result<(), AllocError> {
    for (place, step) in steps.split("; ").enumerate() {
        shown.push_str(if place > 0 { "; " } else { "" })?;
        push_step(shown, keeper, step)?;
    }
    Ok(())
}

/// Has it do one, and appends what comes of it.
pub(crate) fn push_step<K: Keeper>(
    shown: &mut Text,
    keeper: &mut K,
    step: &str,
) -> Result<(), AllocError> {
    let (verb, rest) = step.split_once(' ').unwrap_or((step, ""));
    match push_done(shown, keeper, verb, rest) {
        Ok(()) => Ok(()),
        Err(fault) => {
            let told = format!(in shown.alloc(); "{fault}")?;
            shown.push_str(told.as_str())
        }
    }
}

fn push_done<K: Keeper>(
    shown: &mut Text,
    keeper: &mut K,
    verb: &str,
    rest: &str,
) -> Result<(), KeeperFault> {
    let alloc = shown.alloc();
    match verb {
        // The changes are made in one commit.
        "commit" => {
            keeper.commit(changes_in(alloc, rest)?.as_list())?;
            shown.push_str("done")?;
        }
        // The value of the row of a key.
        "get" => match keeper.get(&key_in(alloc, rest)?)? {
            Some(row) => shown.push_number(row.value)?,
            None => shown.push_str("none")?,
        },
        // At most so many rows behind a key.
        "page" => {
            let (most, after) = rest.split_once(' ').unwrap_or((rest, ""));
            let page = keeper.page(&key_in(alloc, after)?, most_in(most))?;
            shown.push_str("rows")?;
            push_rows(shown, &page)?;
        }
        // The store is opened once more.
        "reopen" => {
            keeper.reopen()?;
            shown.push_str("done")?;
        }
        // Two changes, each in a commit of its own, and the rows behind them.
        "both" => push_both(shown, keeper, rest)?,
        // All rows, read by pages of so many.
        "rows" => push_all(shown, keeper, most_in(rest))?,
        _ => match counted(keeper, alloc, verb, rest)? {
            Some(count) => shown.push_number(count)?,
            None => shown.push_str("no step")?,
        },
    }
    Ok(())
}

/// The greatest length of a page.
pub(crate) fn most_in(digits: &str) -> u32
    ensures { 1 ≤ result }
{
    digits.parse::<u32>().unwrap_or(1).max(1)
}

fn push_both<K: Keeper>(shown: &mut Text, keeper: &mut K, rest: &str) -> Result<(), KeeperFault> {
    let alloc = shown.alloc();
    let (first, second) = rest.split_once(' ').unwrap_or((rest, ""));
    let first = changes_in(alloc, first)?;
    let second = changes_in(alloc, second)?;
    let start = key_in(alloc, "")?;
    let page = page_of_both(
        keeper,
        first.as_list(),
        second.as_list(),
        &start,
        most_in("3"),
    )?;
    shown.push_str("rows")?;
    push_rows(shown, &page)?;
    Ok(())
}

/// Two commits and a page, each by the store contract alone.
fn page_of_both<K: Keeper>(
    keeper: &mut K,
    first: &List<Change>,
    second: &List<Change>,
    after: &Key,
    max: u32,
) -> Result<List<Row>, KeeperFault>
    requires max { 1 ≤ max }
    requires first { AreWithin first.now }
    requires second { AreWithin second.now }
    ensures tries { OnOk result ((K.store keeper.new).tries ≡ raised (raised (K.store keeper.old).tries)) }
    ensures reads { OnOk result ((K.store keeper.new).reads ≡ raised (K.store keeper.old).reads) }
    ensures page { OfRows (K.store keeper.old) (K.store keeper.new) (λ before now. IfOk result (λ page. page ≡ take max (rows_after after.now (applied second.now (applied first.now before))))) }
{
    keeper.commit(first)?;
    keeper.commit(second)?;
    keeper.page(after, max)
}
