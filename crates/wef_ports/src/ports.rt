//! A port: the two directions of a connection.

ghost use Rattle.std.specs.Prelude.{◌≡◌, ◌<◌, length, is_some, IfOk};
ghost use Rattle.std.specs.Io.{ReadsAtMost, WritesAtMost};
ghost use Rattle.std.specs.Io.KnownBytes.{ReadConsumes, WriteAppends};
ghost use Rattle.wef_base.specs.Counts.{HasCause, Gives};
ghost use Rattle.wef_ports.specs.Telling.{Told, OnlyReads, OnlyWrites, TellsTogether};

use wef_base::IoFailed;

/// Where the bytes of a connection come from and go to.
pub trait Port {
    /// What is known of the port. The count of faults never falls, and stays at 2^64 - 1.
    ghost told: { Self → Told };

    /// Reads some bytes to the front of the buffer, and answers how many. None into a buffer that
    /// isn't empty is the end. A read that would give more than 2^64 - 1 bytes of a connection fails.
    fn read(&mut self, buf: &mut [u8]) -> Result<usize, IoFailed>
        ensures bound { ReadsAtMost result buf.new }
        ensures bytes { ReadConsumes (told self.old).coming (told self.new).coming result buf.new }
        ensures count { Gives (told self.old).given (told self.new).given result }
        ensures cause { HasCause (told self.old).faults (told self.new).faults result }
        ensures rest { OnlyReads (told self.old) (told self.new) };

    /// Sends bytes from the front of a piece, and answers how many: at least one where the piece
    /// isn't empty.
    fn write(&mut self, piece: &[u8]) -> Result<usize, IoFailed>
        ensures bound { WritesAtMost result piece.now }
        ensures bytes { WriteAppends (told self.old).sent (told self.new).sent result piece.now }
        ensures moves { IfOk result (λ n. 0 < length piece.now → 0 < n) }
        ensures cause { HasCause (told self.old).faults (told self.new).faults result }
        ensures rest { OnlyWrites (told self.old) (told self.new) };

    // It tells its contents always or never.
    ghost tells: { (a b : Self) → is_some (told a).coming ≡ is_some (told b).coming };

    // It tells them together.
    ghost tells_together: { (p : Self) → TellsTogether (told p) };
}
