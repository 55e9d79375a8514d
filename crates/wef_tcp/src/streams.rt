//! Streams of the system: how long they wait, calls that a signal interrupts, and how they end.

ghost use Rattle.std.specs.Io.{ReadsAtMost, WritesAtMost};

use std::io::{self, ErrorKind, Read, Write};
use std::net::{Shutdown, TcpStream};
use std::time::{Duration, Instant};

/// How many seconds a read or a write of a connection waits for the peer. One that waits longer
/// fails.
const TIME_LIMIT: u64 = 30;

/// How often a read or a write is called that is interrupted each time. Then it fails.
const TRIES: u32 = 16;

/// For how many seconds what still comes is let go before a connection is closed.
const LINGER_TIME: u64 = 1;

/// How many bytes of it are let go.
const LINGER_BYTES: usize = 262_144;

/// How many of them are read at once.
const LINGER_PIECE: usize = 8192;

/// Sets the time limit of a stream's reads and writes. A stream has no limits in its contracts, so no clause
/// says them.
pub fn limited(stream: TcpStream) -> io::Result<TcpStream> {
    let limit = Some(Duration::from_secs(TIME_LIMIT));
    stream.set_read_timeout(limit)?;
    stream.set_write_timeout(limit)?;
    Ok(stream)
}

/// Reads. A process that is stopped and continued inside a read has it interrupted, which is no
/// failure: the read is called again, and waits anew.
pub fn read_from(stream: &mut TcpStream, buf: &mut [u8]) -> io::Result<usize>
    ensures { ReadsAtMost result buf.new }
{
    for _ in 1..TRIES {
        match stream.read(buf) {
            Err(error) if error.kind() == ErrorKind::Interrupted => {}
            ended => return ended,
        }
    }
    stream.read(buf)
}

/// Writes. It is called again as a read is.
pub fn write_to(stream: &mut TcpStream, piece: &[u8]) -> io::Result<usize>
    ensures { WritesAtMost result piece.now }
{
    for _ in 1..TRIES {
        match stream.write(piece) {
            Err(error) if error.kind() == ErrorKind::Interrupted => {}
            ended => return ended,
        }
    }
    stream.write(piece)
}

/// Ends the sending half of a stream, and lets go what still comes: until the peer ends too, or its
/// connection fails, or the time or the bytes are spent. A connection that is closed with bytes
/// unread is reset by the system, and what was sent in it may then not arrive.
pub fn let_go(rt: &HostRuntime, stream: &mut TcpStream) -> io::Result<()> {
    stream.shutdown(Shutdown::Write)?;
    let begun = Instant::now(rt)?;
    let mut buf = [0; LINGER_PIECE];
    let mut left = LINGER_BYTES;
    // Each round takes a byte at least, or ends, but for one that is interrupted.
    for _ in 0..LINGER_BYTES {
        // No time is left where this is zero, and it can't be set.
        let time = Duration::from_secs(LINGER_TIME).saturating_sub(begun.elapsed(rt)?);
        stream.set_read_timeout(Some(time))?;
        match stream.read(&mut buf[..left.min(LINGER_PIECE)]) {
            Ok(0) => break,
            Ok(count) => left -= count,
            Err(error) if error.kind() == ErrorKind::Interrupted => {}
            Err(error) => return Err(error),
        }
        if left == 0 {
            break;
        }
    }
    Ok(())
}
