//! A source and a sink in memory, which tell their bytes and fail where they are told to.

ghost use Rattle.std.specs.Prelude.{◌≡◌, ◌+◌, ◌-◌, ◌<◌, ◌≤◌, ◌^◌, ◌++◌, ◌==◌, List, [], take, drop, length, true, false, IsOk, IsErr, IfOk, refl, min};
ghost use Rattle.std.specs.declared.option.Option.TheVariants.{Some};
ghost use Rattle.std.specs.Io.{ReadsAtMost, WritesAtMost};
ghost use Rattle.std.specs.Io.KnownBytes.{ReadConsumes, WriteAppends};
ghost use Rattle.wef_base.specs.Counts.{CountsFaults, HasCause, Gives, is_told};

use crate::list::{Bytes, List};
use crate::ports::{IoFailed, Sink, Source};
use std::alloc::Global;

/// A source over bytes in memory.
#[derive(Debug, Drop)]
pub struct MemSource {
    bytes: Bytes,
    at: usize,
    failing: List<u64>,
    calls: u64,
    faults: u64,
}

impl MemSource {
    /// A source of these bytes. The reads whose numbers, counted from 1, stand in `failing` fail.
    pub fn of(bytes: Bytes, failing: List<u64>) -> MemSource
        ensures left { drop result.at result.bytes ≡ bytes }
        ensures failing { result.failing ≡ failing }
        ensures calls { result.calls ≡ 0 }
        ensures faults { result.faults ≡ 0 }
    {
        MemSource {
            bytes,
            at: 0,
            failing,
            calls: 0,
            faults: 0,
        }
    }
}

impl Source for MemSource {
    ghost left = { λ s. Some (drop s.at s.bytes) };

    ghost given = { λ s. s.at };

    ghost faults = { λ s. s.faults };

    ghost tells = { λ a b. refl };

    fn read(&mut self, buf: &mut [u8]) -> Result<usize, IoFailed>
        ensures bound { ReadsAtMost result buf.new }
        ensures bytes { ReadConsumes (Some (drop self.old.at self.old.bytes)) (Some (drop self.new.at self.new.bytes)) result buf.new }
        ensures count { Gives self.old.at self.new.at result }
        ensures cause { HasCause self.old.faults self.new.faults result }

        // The calls that stand in the list fail, and no others: at these alone the count of faults rises.
        ensures fails { is_told self.new.calls self.old.failing ≡ true → IsErr result }
        ensures others { is_told self.new.calls self.old.failing ≡ false → IsOk result }
        ensures counts { CountsFaults self.old.faults self.new.faults result }
        ensures calls { self.new.calls ≡ min (self.old.calls + 1) u64.MAX }
        ensures list { self.new.failing ≡ self.old.failing }
    {
        count_call(&mut self.calls, self.failing.as_slice(), &mut self.faults)?;
        let count = give(self.bytes.as_slice(), self.at, usize::MAX, buf);
        self.at += count;
        Ok(count)
    }
}

/// Copies bytes from a place on to the front of a buffer, as many as there are, as may be copied and
/// as there is room for, and answers how many these are. None into a buffer that isn't empty is the
/// end, where more than none may be copied.
pub fn give(bytes: &[u8], at: usize, most: usize, buf: &mut [u8]) -> usize
    ensures count { result ≡ min (min (length (drop at bytes.now)) most) (length buf.old) }
    ensures bound { result ≤ length buf.new }
    ensures left { drop at bytes.now ≡ take result buf.new ++ drop (at + result) bytes.now }
    ensures rest { drop result buf.new ≡ drop result buf.old }
    ensures end { 0 < most → result ≡ 0 → 0 < length buf.new → drop (at + result) bytes.now ≡ [] }
    ensures within { at + result < 2 ^ 64 }
{
    let rest = after(bytes, at);
    let count = rest.len().min(most).min(buf.len());
    buf[..count].copy_from_slice(&rest[..count]);
    count
}

/// The bytes behind the first so many.
fn after(bytes: &[u8], at: usize) -> &[u8]
    ensures { result.now ≡ drop at bytes.now }
{
    if at < bytes.len() { &bytes[at..] } else { &[] }
}

/// Counts a call. One whose number, counted from 1, is told to fail is a fault, and is counted as one.
pub fn count_call(calls: &mut u64, failing: &[u64], faults: &mut u64) -> Result<(), IoFailed>
    ensures calls { calls.new ≡ min (calls.old + 1) u64.MAX }
    ensures fails { is_told calls.new failing.now ≡ true → IsErr result }
    ensures others { is_told calls.new failing.now ≡ false → IsOk result }
    ensures cause { HasCause faults.old faults.new result }
    ensures faults { CountsFaults faults.old faults.new result }
{
    *calls = calls.saturating_add(1);
    if is_told(*calls, failing) {
        *faults = faults.saturating_add(1);
        return Err(IoFailed);
    }
    Ok(())
}

/// Whether the call of this number, counted from 1, is told to fail.
pub fn is_told(call: u64, failing: &[u64]) -> bool
    ensures { result ≡ is_told call failing.now }
{
    failing.iter().any(|&number| number == call)
}

/// A sink that keeps what it takes.
#[derive(Debug, Drop)]
pub struct MemSink {
    taken: Bytes,
    failing: List<u64>,
    calls: u64,
    faults: u64,
    refused: u64,
}

impl MemSink {
    /// A sink that has taken nothing. The writes whose numbers, counted from 1, stand in `failing` fail.
    pub fn of(alloc: Global, failing: List<u64>) -> MemSink
        ensures taken { result.taken ≡ [] }
        ensures failing { result.failing ≡ failing }
        ensures calls { result.calls ≡ 0 }
        ensures faults { result.faults ≡ 0 }
        ensures refused { result.refused ≡ 0 }
    {
        MemSink {
            taken: Bytes::new(alloc),
            failing,
            calls: 0,
            faults: 0,
            refused: 0,
        }
    }

    /// The bytes that it took.
    pub fn taken(&self) -> &[u8]
        ensures { result.now ≡ self.now.taken }
    {
        self.taken.as_slice()
    }

    /// How many of its writes found no memory. It stays at 2^64 - 1.
    pub fn refused(&self) -> u64
        ensures { result ≡ self.now.refused }
    {
        self.refused
    }
}

impl Sink for MemSink {
    ghost taken = { λ s. Some s.taken };

    ghost faults = { λ s. s.faults };

    ghost tells = { λ a b. refl };

    /// A write that finds no memory fails too, and is counted as refused.
    fn write(&mut self, piece: &[u8]) -> Result<usize, IoFailed>
        ensures bound { WritesAtMost result piece.now }
        ensures bytes { WriteAppends (Some self.old.taken) (Some self.new.taken) result piece.now }
        ensures moves { IfOk result (λ n. 0 < length piece.now → 0 < n) }
        ensures cause { HasCause self.old.faults self.new.faults result }

        // The calls that stand in the list fail, and another only where a growth is refused, which has
        // a count of its own.
        ensures fails { is_told self.new.calls self.old.failing ≡ true → IsErr result }
        ensures others { is_told self.new.calls self.old.failing ≡ false → CountsFaults self.old.refused self.new.refused result }
        ensures refused { is_told self.new.calls self.old.failing ≡ true → self.new.refused ≡ self.old.refused }
        ensures counts { CountsFaults self.old.faults self.new.faults result }
        ensures calls { self.new.calls ≡ min (self.old.calls + 1) u64.MAX }
        ensures list { self.new.failing ≡ self.old.failing }
    {
        count_call(&mut self.calls, self.failing.as_slice(), &mut self.faults)?;
        if self.taken.extend(piece).is_err() {
            self.faults = self.faults.saturating_add(1);
            self.refused = self.refused.saturating_add(1);
            return Err(IoFailed);
        }
        Ok(piece.len())
    }
}
