//! A port in memory, which tells its bytes and fails where it is told to.

ghost use Rattle.std.specs.Prelude.{◌≡◌, ◌+◌, ◌<◌, [], drop, length, true, false, IsOk, IsErr, IfOk, refl, min};
ghost use Rattle.std.specs.Io.{ReadsAtMost, WritesAtMost};
ghost use Rattle.std.specs.Io.KnownBytes.{ReadConsumes, WriteAppends};
ghost use Rattle.wef_base.specs.Counts.{CountsFaults, HasCause, Gives, is_told};
ghost use Rattle.wef_ports.specs.Memory.{told_of};
ghost use Rattle.wef_ports.specs.Telling.{OnlyReads, OnlyWrites};

use crate::failures::Failures;
use crate::pieces::Pieces;
use crate::ports::Port;
use std::alloc::Global;
use wef_base::{Bytes, IoFailed, List};

/// A port over bytes in memory, with a list of what is sent.
#[derive(Debug, Drop)]
pub struct MemPort {
    coming: Pieces,
    sent: Bytes,
    failures: Failures,
    faults: u64,
    refused: u64,
}

impl MemPort {
    /// A port to which these bytes come and that has sent nothing. They come in pieces: no read goes
    /// past one of the `cuts`, which are places in the bytes and rise. The calls whose numbers,
    /// counted from 1 over reads and writes together, stand in `failing` fail.
    pub fn of(alloc: Global, bytes: Bytes, cuts: List<usize>, failing: List<u64>) -> MemPort
        ensures coming { drop result.coming.at result.coming.bytes ≡ bytes }
        ensures given { result.coming.at ≡ 0 }
        ensures sent { result.sent ≡ [] }
        ensures failing { result.failures.failing ≡ failing }
        ensures calls { result.failures.calls ≡ 0 }
        ensures faults { result.faults ≡ 0 }
        ensures refused { result.refused ≡ 0 }
    {
        MemPort {
            coming: Pieces::of(bytes, cuts),
            sent: Bytes::new(alloc),
            failures: Failures::at(failing),
            faults: 0,
            refused: 0,
        }
    }

    /// How many writes found no memory. It stays at 2^64 - 1.
    pub fn refused(&self) -> u64
        ensures { result ≡ self.now.refused }
    {
        self.refused
    }

    /// What was sent.
    pub fn sent(&self) -> &[u8]
        ensures { result.now ≡ self.now.sent }
    {
        self.sent.as_slice()
    }
}

impl Port for MemPort {
    ghost told = { told_of };

    ghost tells = { λ a b. refl };

    ghost tells_together = { λ p. (refl, refl, refl, refl) };

    fn read(&mut self, buf: &mut [u8]) -> Result<usize, IoFailed>
        ensures bound { ReadsAtMost result buf.new }
        ensures bytes { ReadConsumes (told_of self.old).coming (told_of self.new).coming result buf.new }
        ensures count { Gives self.old.coming.at self.new.coming.at result }
        ensures cause { HasCause self.old.faults self.new.faults result }
        ensures rest { OnlyReads (told_of self.old) (told_of self.new) }

        // The calls that stand in the list fail, and no others.
        ensures fails { is_told self.new.failures.calls self.old.failures.failing ≡ true → IsErr result }
        ensures others { is_told self.new.failures.calls self.old.failures.failing ≡ false → IsOk result }
        ensures counts { CountsFaults self.old.faults self.new.faults result }
        ensures calls { self.new.failures.calls ≡ min (self.old.failures.calls + 1) u64.MAX }
        ensures list { self.new.failures.failing ≡ self.old.failures.failing }
    {
        self.failures.pass(&mut self.faults)?;
        Ok(self.coming.give(buf))
    }

    /// A write that finds no memory fails too, and is counted as refused.
    fn write(&mut self, piece: &[u8]) -> Result<usize, IoFailed>
        ensures bound { WritesAtMost result piece.now }
        ensures bytes { WriteAppends (told_of self.old).sent (told_of self.new).sent result piece.now }
        ensures moves { IfOk result (λ n. 0 < length piece.now → 0 < n) }
        ensures cause { HasCause self.old.faults self.new.faults result }
        ensures rest { OnlyWrites (told_of self.old) (told_of self.new) }

        // The calls that stand in the list fail, and another only where a growth is refused, which has
        // a count of its own.
        ensures fails { is_told self.new.failures.calls self.old.failures.failing ≡ true → IsErr result }
        ensures others { is_told self.new.failures.calls self.old.failures.failing ≡ false → CountsFaults self.old.refused self.new.refused result }
        ensures refused { is_told self.new.failures.calls self.old.failures.failing ≡ true → self.new.refused ≡ self.old.refused }
        ensures counts { CountsFaults self.old.faults self.new.faults result }
        ensures calls { self.new.failures.calls ≡ min (self.old.failures.calls + 1) u64.MAX }
        ensures list { self.new.failures.failing ≡ self.old.failures.failing }
    {
        self.failures.pass(&mut self.faults)?;
        if self.sent.extend(piece).is_err() {
            self.faults = self.faults.saturating_add(1);
            self.refused = self.refused.saturating_add(1);
            return Err(IoFailed);
        }
        Ok(piece.len())
    }
}
