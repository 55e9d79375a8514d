//! A link over TCP.

ghost use Rattle.std.specs.Prelude.{◌≡◌, refl};
ghost use Rattle.wef_connections.specs.Opening.{next_connection, OnlyFails, Rises};
ghost use Rattle.wef_tcp.specs.Streams.{told_of, unopened};

use crate::streams::{let_go, limited, read_from, write_to};
use std::io;
use std::net::TcpStream;
use wef_base::{IoFailed, Text};
use wef_connections::Link;
use wef_ports::Port;

/// A link to addresses of the system.
#[derive(Drop)]
pub struct TcpLink {
    pub(crate) rt: HostRuntime,

    // The present connection, where there is one that isn't closed.
    stream: Option<TcpStream>,
    began: bool,
    given: u64,
    faults: u64,
    refusals: u64,
}

impl TcpLink {
    /// A link that has made no connection yet.
    pub fn new(rt: HostRuntime) -> TcpLink
        ensures { told_of result ≡ unopened }
    {
        TcpLink {
            rt,
            stream: None,
            began: false,
            given: 0,
            faults: 0,
            refusals: 0,
        }
    }

    /// Makes a stream the present connection. The one before is closed.
    pub(crate) fn begin(&mut self, stream: TcpStream)
        ensures { told_of self.new ≡ next_connection (told_of self.old) }
    {
        self.stream = Some(stream);
        self.began = true;
        self.given = 0;
    }

    /// Ends the present connection so that what was sent in it arrives: see `let_go`.
    pub(crate) fn end(&mut self)
        ensures { told_of self.new ≡ told_of self.old }
    {
        if let Some(stream) = &mut self.stream {
            // Whatever fails, the connection is closed.
            let _ = let_go(&self.rt, stream);
        }
        self.stream = None;
    }

    /// Counts an opening that failed.
    pub(crate) fn refuse(&mut self) -> IoFailed
        ensures rest { OnlyFails (told_of self.old) (told_of self.new) }
        ensures cause { Rises self.old.faults self.new.faults }
        ensures refusals { Rises self.old.refusals self.new.refusals }
    {
        self.faults = self.faults.saturating_add(1);
        self.refusals = self.refusals.saturating_add(1);
        IoFailed
    }
}

impl Port for TcpLink {
    ghost told = { told_of };

    ghost tells = { λ a b. refl };

    ghost tells_together = { λ l. (refl, refl, refl, refl) };

    /// A read fails where there is no connection, or none that isn't closed.
    fn read(&mut self, buf: &mut [u8]) -> Result<usize, IoFailed> {
        if let Some(stream) = &mut self.stream {
            if let Ok(count) = read_from(stream, buf) {
                if let Some(given) = self.given.checked_add(count as u64) {
                    self.given = given;
                    return Ok(count);
                }
            }
        }
        self.faults = self.faults.saturating_add(1);
        Err(IoFailed)
    }

    /// A write fails where there is no connection, or none that isn't closed.
    fn write(&mut self, piece: &[u8]) -> Result<usize, IoFailed> {
        if let Some(stream) = &mut self.stream {
            if let Ok(count) = write_to(stream, piece) {
                if count > 0 || piece.is_empty() {
                    return Ok(count);
                }
            }
        }
        self.faults = self.faults.saturating_add(1);
        Err(IoFailed)
    }
}

impl Link for TcpLink {
    /// The address is `HOST:PORT` or `[IPV6]:PORT`, where HOST may be a name. There is no port that an
    /// address without one has.
    fn connect(&mut self, address: &Text) -> Result<(), IoFailed> {
        match connected(&self.rt, address.as_str()) {
            Ok(stream) => {
                self.begin(stream);
                Ok(())
            }
            Err(_) => Err(self.refuse()),
        }
    }

    /// It is closed at once: whoever asked has the answer.
    fn close(&mut self) {
        self.stream = None;
    }
}

/// A new connection to an address.
fn connected(rt: &HostRuntime, address: &str) -> io::Result<TcpStream> {
    limited(TcpStream::connect(rt, address)?)
}
