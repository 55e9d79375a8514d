//! A store beside one in memory: the same changes made in both, and both asked the same.

ghost use Rattle.std.specs.Prelude.{◌≤◌};

use crate::rows::{AnyForm, key_in, put};
use std::alloc::{AllocError, Global};
use wef_base::numbers::MAX;
use wef_base::{List, Text};
use wef_keeper::{Changes, Keeper, KeeperFault, Key, MemKeeper, Row};

/// How many changes a commit makes.
const ITEMS: u64 = 20;

/// Names that sort differently as bytes, as letters and as numbers, and those that a statement might take
/// for its own.
const NAMES: [&str; 12] = [
    "",
    "a",
    "A",
    "a\0",
    "ab",
    "a'b",
    "\"a\"",
    "%",
    "_",
    "10",
    "\u{ff5e}",
    "\u{1f600}",
];

/// How many tens of bytes the longest text of a row has: it is over 1 MiB.
const TENS: u64 = 104_860;

/// Lengths of pages.
const LENGTHS: [u32; 5] = [1, 2, 20, 255, 256];

/// Numbers that follow one another without a plan.
#[derive(Drop)]
struct Numbers(u64);

impl Numbers {
    /// The next one, below a number.
    fn below(&mut self, most: u64) -> u64 {
        self.0 = self
            .0
            .wrapping_mul(6364136223846793005)
            .wrapping_add(1442695040888963407);
        (self.0 >> 33) % most.max(1)
    }

    fn name(&mut self) -> &'static str {
        let place = self.below(NAMES.len() as u64) as usize;
        NAMES.get(place).copied().unwrap_or("")
    }

    /// Mostly a small number, and at times one at the end of those that there are.
    fn number(&mut self) -> u64 {
        match self.below(8) {
            0 => 0,
            1 => MAX,
            _ => self.below(40),
        }
    }

    fn length(&mut self) -> u32
        ensures { 1 ≤ result }
    {
        let place = self.below(LENGTHS.len() as u64) as usize;
        LENGTHS.get(place).copied().unwrap_or(1).max(1)
    }

    /// Mostly one of a few kinds, and at times any.
    fn kind(&mut self) -> u8 {
        let most = if self.below(8) == 0 { 256 } else { 4 };
        u8::try_from(self.below(most)).unwrap_or(0)
    }

    /// Mostly a short text, and at times one of 1 MiB.
    fn body(&mut self, alloc: Global) -> Result<Text, AllocError> {
        let mut body = Text::from_str(alloc, self.name())?;
        let tens = if self.below(1_000) == 0 { TENS } else { 0 };
        for _ in 0..tens {
            body.push_str("0123456789")?;
        }
        Ok(body)
    }

    fn key(&mut self, alloc: Global) -> Result<Key, AllocError> {
        Ok(Key {
            kind: self.kind(),
            sub: Text::from_str(alloc, self.name())?,
            source: Text::from_str(alloc, self.name())?,
            channel: Text::from_str(alloc, self.name())?,
            number: self.number(),
        })
    }
}

/// Makes so many changes in a store and in one in memory, by commits, and asks both for what was changed and
/// for pages; in the end both are walked over. The answer is how many were made until they answered
/// differently.
pub(crate) fn alike<K: Keeper>(
    keeper: &mut K,
    alloc: Global,
    count: u64,
) -> Result<u64, KeeperFault> {
    let mut beside = MemKeeper::new(alloc);
    let mut numbers = Numbers(count);
    for batch in 0..count / ITEMS {
        let changes = changes_of(&mut numbers, alloc)?;
        keeper.commit(changes.as_list())?;
        beside.commit(changes.as_list())?;
        if !answer_alike(keeper, &mut beside, alloc, &mut numbers)? {
            return Ok(batch.saturating_mul(ITEMS));
        }
    }
    Ok(if walk_alike(keeper, &mut beside, alloc)? {
        count
    } else {
        0
    })
}

/// Changes of a commit: most of them put rows, the others take some away.
fn changes_of(numbers: &mut Numbers, alloc: Global) -> Result<Changes<AnyForm>, AllocError> {
    let mut changes = Changes::new(alloc);
    for _ in 0..ITEMS {
        change(&mut changes, numbers, alloc)?;
    }
    Ok(changes)
}

fn change(
    changes: &mut Changes<AnyForm>,
    numbers: &mut Numbers,
    alloc: Global,
) -> Result<(), AllocError> {
    let key = numbers.key(alloc)?;
    if numbers.below(4) == 0 {
        return changes.delete(key);
    }
    let value = numbers.number();
    put(changes, key, value, numbers.body(alloc)?)
}

/// Whether both have the same at some keys, and the same rows behind them.
fn answer_alike<K: Keeper>(
    keeper: &mut K,
    beside: &mut MemKeeper,
    alloc: Global,
    numbers: &mut Numbers,
) -> Result<bool, KeeperFault> {
    for _ in 0..ITEMS {
        let key = numbers.key(alloc)?;
        let here = keeper.get(&key)?;
        let there = beside.get(&key)?;
        if !is_same(&here, &there) {
            return Ok(false);
        }
    }
    let after = numbers.key(alloc)?;
    let most = numbers.length();
    Ok(are_same(&keeper.page(&after, most)?, &beside.page(&after, most)?))
}

/// Whether both have the same rows, read by pages of the greatest length.
fn walk_alike<K: Keeper>(
    keeper: &mut K,
    beside: &mut MemKeeper,
    alloc: Global,
) -> Result<bool, KeeperFault> {
    let mut after = key_in(alloc, "")?;
    for _ in 0..u64::MAX {
        let page = keeper.page(&after, 256)?;
        if !are_same(&page, &beside.page(&after, 256)?) {
            return Ok(false);
        }
        let Some(last) = page.as_slice().last() else {
            break;
        };
        after = last.key.clone()?;
    }
    Ok(true)
}

fn are_same(here: &List<Row>, there: &List<Row>) -> bool {
    here.len() == there.len()
        && here
            .as_slice()
            .iter()
            .zip(there.as_slice())
            .all(|(one, other)| is_same_row(one, other))
}

fn is_same(here: &Option<Row>, there: &Option<Row>) -> bool {
    match (here, there) {
        (Some(one), Some(other)) => is_same_row(one, other),
        (None, None) => true,
        _ => false,
    }
}

fn is_same_row(one: &Row, other: &Row) -> bool {
    one.key == other.key && one.value == other.value && one.body == other.body
}
