//! A bookmark, which contracts see as a finite map from the bytes of a channel's name to a number.

ghost use Rattle.std.specs.Prelude.{◌≡◌, ◌≤◌, ℕ, IsTrue, ◌↔◌, IsSome, is_some, IsOk, IfErr, IfOk, OnOk, OnErr};
ghost use Rattle.std.specs.FinMap as map;
ghost use Rattle.std.specs.Ordering.{nat_cmp};
ghost use Rattle.std.specs.Cmp.Lexicographic.{slice_cmp};
ghost use Rattle.std.specs.BTreeMap.{get, IsOrdered};
ghost use Rattle.wef_bookmark.specs.Order.{number_at, IsAtMost, raised, raised_by, joined, covers_all};
ghost use Rattle.wef_bookmark.specs.Entries.{AreEntries};

use std::alloc::{AllocError, Global};
use std::collections::BTreeMap;
use std::marker::Model;
use thiserror::Error;
use wef_base::ChannelName;
use wef_base::numbers::MAX;

/// How far each channel was read: the number of the last record, for some channels. A number is at
/// most `MAX`.
#[derive(Debug, Drop)]
pub struct Bookmark {
    alloc: Global,
    numbers: BTreeMap<ChannelName, u64>,
}

impl Model for Bookmark {
    ghost use Rattle.std.specs.Prelude.{ℕ};
    ghost use Rattle.std.specs.FinMap as map;
    ghost use Rattle.std.specs.Coded.{coded_ℕ, coded_list};
    ghost use Rattle.std.specs.Ordering.{nat_cmp};
    ghost use Rattle.std.specs.Cmp.Lexicographic.{slice_cmp};
    ghost use Rattle.std.specs.BTreeMap.{IsOrdered};
    ghost use Rattle.wef_bookmark.specs.Entries.{AreEntries};

    ghost Value = { map.FinMap (slice_cmp nat_cmp) ℕ };

    ghost coded = { map.code (coded_list coded_ℕ) coded_ℕ };

    ghost view = { λ b. map.from_entries b.numbers.entries };

    ghost invariant = { λ b. IsOrdered (slice_cmp nat_cmp) b.numbers × AreEntries (map.from_entries b.numbers.entries) };
}

/// Why a bookmark couldn't be changed or read.
#[derive(Clone, Copy, Debug, PartialEq, Eq, Error)]
pub enum BookmarkFault {
    #[error("no memory")]
    NoMemory,
    #[error("no bookmark")]
    BadBookmark,
}

impl From<AllocError> for BookmarkFault {
    ghost use Rattle.std.specs.Prelude.{◌≡◌};
    ghost use Rattle.wef_bookmark.specs.declared.marking.BookmarkFault.TheVariants.{NoMemory};

    ghost from_gives = { λ _ e. e ≡ NoMemory };

    fn from(_error: AllocError) -> BookmarkFault {
        BookmarkFault::NoMemory
    }
}

impl Bookmark {
    /// The bookmark of no channel. It takes no memory.
    pub fn new(alloc: Global) -> Bookmark
        ensures { result ≡ map.empty }
    {
        Bookmark {
            alloc,
            numbers: BTreeMap::new(alloc),
        }
    }

    /// The allocator that the bookmark is made with.
    pub(crate) fn alloc(&self) -> Global {
        self.alloc
    }

    /// A channel's number: 0 where the bookmark doesn't have the channel.
    pub fn at(&self, channel: &ChannelName) -> u64
        ensures number { result ≡ number_at self.now channel.now }
        ensures bound { result ≤ MAX }
    {
        number_in(&self.numbers, channel)
    }

    /// Whether the bookmark has the channel.
    pub fn has(&self, channel: &ChannelName) -> bool
        ensures { result ≡ is_some (map.get self.now channel.now) }
    {
        self.numbers.contains_key(channel)
    }

    /// Its channels with their numbers, in the order of the names' bytes.
    pub fn numbers(&self) -> &BTreeMap<ChannelName, u64>
        ensures entries { result.now.entries ≡ map.entries self.now }
        ensures kept { AreEntries self.now }
    {
        &self.numbers
    }

    /// Raises a channel to a number, or leaves it where it is further. A channel that isn't there
    /// is put, also at 0; one that is there takes no memory.
    pub fn raise(&mut self, channel: &ChannelName, to: u64) -> Result<(), BookmarkFault>
        requires { to ≤ MAX }
        ensures ok { OnOk result (self.new ≡ raised self.old channel.now to) }
        ensures err { OnErr result (self.new ≡ self.old) }
        ensures keeps { IsAtMost self.old self.new }
        ensures present_succeeds { IsSome (map.get self.old channel.now) → IsOk result }
        ensures wants_memory { IfErr result (λ fault. fault ≡ BookmarkFault.NoMemory) }
    {
        // The text is asked for since it says that the name reads back.
        let _text = channel.as_text();
        raise_in(&mut self.numbers, channel, to)?;
        Ok(())
    }

    /// Whether each channel is here at least as far as in another bookmark. It takes no memory.
    pub fn covers(&self, other: &Bookmark) -> bool
        ensures { IsTrue result ↔ IsAtMost other.now self.now }
    {
        covers_each(&self.numbers, &other.numbers)
    }

    /// Raises each channel of another bookmark to its number there.
    pub fn join(&mut self, other: &Bookmark) -> Result<(), BookmarkFault>
        ensures ok { OnOk result (self.new ≡ joined self.old other.now) }
        ensures err { OnErr result (self.new ≡ self.old) }
        ensures keeps { IsAtMost self.old self.new }
        ensures takes { OnOk result (IsAtMost other.now self.new) }
        ensures wants_memory { IfErr result (λ fault. fault ≡ BookmarkFault.NoMemory) }
    {
        let mut numbers = copied(self.alloc, &self.numbers)?;
        raise_each(&mut numbers, &other.numbers)?;
        self.numbers = numbers;
        Ok(())
    }

    /// A copy of the bookmark, which shares its texts.
    pub fn clone(&self) -> Result<Bookmark, AllocError>
        ensures { IfOk result (λ copy. copy ≡ self.now) }
    {
        let numbers = copied(self.alloc, &self.numbers)?;
        Ok(Bookmark {
            alloc: self.alloc,
            numbers,
        })
    }
}

/// A copy of numbers in order, which shares its texts.
fn copied(
    alloc: Global,
    given: &BTreeMap<ChannelName, u64>,
) -> Result<BTreeMap<ChannelName, u64>, AllocError>
    requires { IsOrdered (slice_cmp nat_cmp) given.now }
    ensures copy { IfOk result (λ copy. map.from_entries {R = slice_cmp nat_cmp} copy.entries ≡ map.from_entries given.now.entries) }
    ensures ordered { IfOk result (λ copy. IsOrdered (slice_cmp nat_cmp) copy) }
{
    let mut copy = BTreeMap::new(alloc);
    raise_each(&mut copy, given)?;
    Ok(copy)
}

fn raise_in(
    numbers: &mut BTreeMap<ChannelName, u64>,
    channel: &ChannelName,
    to: u64,
) -> Result<(), AllocError>
    ensures ok { OnOk result (map.from_entries numbers.new.entries ≡ raised (map.from_entries numbers.old.entries) channel.now to) }
    ensures err { OnErr result (numbers.new.entries ≡ numbers.old.entries) }
    ensures present { IsSome (get (slice_cmp nat_cmp) numbers.old channel.now) → IsOk result }
    ensures ordered { IsOrdered (slice_cmp nat_cmp) numbers.new }
{
    if let Some(number) = numbers.get_mut(channel) {
        *number = (*number).max(to);
        return Ok(());
    }
    numbers.insert(channel.clone()?, to)?;
    Ok(())
}

fn raise_each(
    numbers: &mut BTreeMap<ChannelName, u64>,
    given: &BTreeMap<ChannelName, u64>,
) -> Result<(), AllocError>
    requires { IsOrdered (slice_cmp nat_cmp) numbers.old }
    ensures ok { OnOk result (map.from_entries numbers.new.entries ≡ raised_by (map.from_entries numbers.old.entries) given.now.entries) }
    ensures ordered { IsOrdered (slice_cmp nat_cmp) numbers.new }
{
    for (channel, number) in given {
        raise_in(numbers, channel, *number)?;
    }
    Ok(())
}

fn covers_each(numbers: &BTreeMap<ChannelName, u64>, given: &BTreeMap<ChannelName, u64>) -> bool
    ensures { result ≡ covers_all (map.from_entries numbers.now.entries) given.now.entries }
{
    for (channel, number) in given {
        if *number > number_in(numbers, channel) {
            return false;
        }
    }
    true
}

fn number_in(numbers: &BTreeMap<ChannelName, u64>, channel: &ChannelName) -> u64
    ensures { result ≡ number_at (map.from_entries numbers.now.entries) channel.now }
{
    numbers.get(channel).copied().unwrap_or(0)
}
