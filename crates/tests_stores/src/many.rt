//! Many rows: put, got and walked over.

ghost use Rattle.std.specs.Prelude.{◌≤◌};

use crate::beside::alike;
use crate::rows::{AnyForm, key_in, number_in, push_rows, put};
use crate::steps::most_in;
use std::alloc::{AllocError, Global};
use wef_base::Text;
use wef_keeper::{Changes, Keeper, KeeperFault};

/// How many rows a commit puts.
const ITEMS: u64 = 20;

/// How many tens of bytes the text of a row has.
const TENS: u32 = 100;

/// The key of a row, but for its number.
const NAMES: &str = "3/base/pc1.example.org/Application";

/// How many rows a store meets in a step over many, if it is one.
pub(crate) fn counted<K: Keeper>(
    keeper: &mut K,
    alloc: Global,
    verb: &str,
    digits: &str,
) -> Result<Option<u64>, KeeperFault> {
    let count = match verb {
        // Rows with the numbers from 1 on are put, by commits.
        "fill" => fill(keeper, alloc, number_in(digits))?,
        // As many are looked for as are there, here and there.
        "gets" => gets(keeper, alloc, number_in(digits))?,
        // So many changes are made here and in a store in memory, until the two answer differently.
        "alike" => alike(keeper, alloc, number_in(digits))?,
        // All rows are walked over by pages.
        "walk" => walk(keeper, alloc, most_in(digits), None)?,
        _ => return Ok(None),
    };
    Ok(Some(count))
}

/// Appends all rows, read by pages, where each can be read.
pub(crate) fn push_all<K: Keeper>(
    shown: &mut Text,
    keeper: &mut K,
    most: u32,
) -> Result<(), KeeperFault>
    requires { 1 ≤ most }
{
    let alloc = shown.alloc();
    let mut rows = Text::new(alloc);
    let count = walk(keeper, alloc, most, Some(&mut rows))?;
    shown.push_str("rows")?;
    shown.push_str(rows.as_str())?;
    shown.push_str(" in all ")?;
    Ok(shown.push_number(count)?)
}

fn fill<K: Keeper>(keeper: &mut K, alloc: Global, count: u64) -> Result<u64, KeeperFault> {
    for batch in 0..count / ITEMS {
        keeper.commit(puts(alloc, batch.saturating_mul(ITEMS))?.as_list())?;
    }
    Ok(count)
}

/// Puts the rows behind a number.
fn puts(alloc: Global, behind: u64) -> Result<Changes<AnyForm>, AllocError> {
    let mut changes = Changes::new(alloc);
    for place in 1..=ITEMS {
        put_long(&mut changes, alloc, behind.saturating_add(place))?;
    }
    Ok(changes)
}

fn put_long(changes: &mut Changes<AnyForm>, alloc: Global, number: u64) -> Result<(), AllocError> {
    let mut key = key_in(alloc, NAMES)?;
    key.number = number;
    let mut body = Text::new(alloc);
    for _ in 0..TENS {
        body.push_str("0123456789")?;
    }
    put(changes, key, 0, body)
}

fn gets<K: Keeper>(keeper: &mut K, alloc: Global, count: u64) -> Result<u64, KeeperFault> {
    let mut key = key_in(alloc, NAMES)?;
    let mut found = 0u64;
    for turn in 0..count {
        key.number = (turn.wrapping_mul(7919) % count.max(1)).saturating_add(1);
        if keeper.get(&key)?.is_some() {
            found = found.saturating_add(1);
        }
    }
    Ok(found)
}

/// Walks over all rows by pages of so many, and appends them where that is wanted.
fn walk<K: Keeper>(
    keeper: &mut K,
    alloc: Global,
    most: u32,
    shown: Option<&mut Text>,
) -> Result<u64, KeeperFault>
    requires { 1 ≤ most }
{
    let mut shown = shown;
    let mut found = 0u64;
    let mut after = key_in(alloc, "")?;
    for _ in 0..u64::MAX {
        let page = keeper.page(&after, most)?;
        let Some(last) = page.as_slice().last() else {
            break;
        };
        after = last.key.clone()?;
        found = found.saturating_add(page.len() as u64);
        if let Some(shown) = &mut shown {
            push_rows(shown, &page)?;
        }
    }
    Ok(found)
}
