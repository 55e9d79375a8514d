//! The outside, as traits: where bytes come from and where they go.

ghost use Rattle.std.specs.Prelude.{◌≡◌, ℕ, ◌<◌, List, Option, is_some, length, IfOk};
ghost use Rattle.std.specs.Io.{ReadsAtMost, WritesAtMost};
ghost use Rattle.std.specs.Io.KnownBytes.{ReadConsumes, WriteAppends};
ghost use Rattle.wef_base.specs.Counts.{HasCause, Gives};

use thiserror::Error;

/// A read or a write of the outside that failed.
#[derive(Clone, Copy, Debug, Error)]
#[error("input or output failed")]
pub struct IoFailed;

/// Where bytes come from: a stream, a file, a connection.
pub trait Source {
    /// The bytes that are left, where the source tells them.
    ghost left: { Self → Option (List ℕ) };

    /// How many bytes it has given.
    ghost given: { Self → ℕ };

    /// How many of its reads have failed. It never falls, and stays at 2^64 - 1.
    ghost faults: { Self → ℕ };

    /// Reads some bytes to the front of the buffer, and answers how many. None into a buffer that
    /// isn't empty is the end. A read that would give more than 2^64 - 1 bytes in all fails.
    fn read(&mut self, buf: &mut [u8]) -> Result<usize, IoFailed>
        ensures bound { ReadsAtMost result buf.new }
        ensures bytes { ReadConsumes (left self.old) (left self.new) result buf.new }
        ensures count { Gives (given self.old) (given self.new) result }
        ensures cause { HasCause (faults self.old) (faults self.new) result };

    // It tells its bytes always or never.
    ghost tells: { (a b : Self) → is_some (left a) ≡ is_some (left b) };
}

/// Where bytes go.
pub trait Sink {
    /// The bytes that it took, where the sink tells them.
    ghost taken: { Self → Option (List ℕ) };

    /// How many of its writes have failed. It never falls, and stays at 2^64 - 1.
    ghost faults: { Self → ℕ };

    /// Takes bytes from the front of a piece, and answers how many: at least one where the piece
    /// isn't empty.
    fn write(&mut self, piece: &[u8]) -> Result<usize, IoFailed>
        ensures bound { WritesAtMost result piece.now }
        ensures bytes { WriteAppends (taken self.old) (taken self.new) result piece.now }
        ensures moves { IfOk result (λ n. 0 < length piece.now → 0 < n) }
        ensures cause { HasCause (faults self.old) (faults self.new) result };

    // It tells its bytes always or never.
    ghost tells: { (a b : Self) → is_some (taken a) ≡ is_some (taken b) };
}
