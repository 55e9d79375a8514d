//! A front over TCP.

ghost use Rattle.std.specs.Prelude.{◌≡◌, refl};
ghost use Rattle.wef_tcp.specs.Streams.{told_of, unopened};

use crate::links::TcpLink;
use crate::streams::limited;
use std::io;
use std::net::{TcpListener, TcpStream};
use wef_base::{IoFailed, Text};
use wef_connections::Front;
use wef_ports::Port;

/// A front that listens at one address of the system at a time.
#[derive(Drop)]
pub struct TcpFront {
    listener: Option<TcpListener>,
    present: TcpLink,
}

impl TcpFront {
    /// A front that doesn't listen yet.
    pub fn new(rt: HostRuntime) -> TcpFront
        ensures { told_of result.present ≡ unopened }
    {
        TcpFront {
            listener: None,
            present: TcpLink::new(rt),
        }
    }
}

impl Port for TcpFront {
    ghost told = { λ f. told_of f.present };

    ghost tells = { λ a b. refl };

    ghost tells_together = { λ f. (refl, refl, refl, refl) };

    /// A read fails where there is no connection, or none that isn't closed.
    fn read(&mut self, buf: &mut [u8]) -> Result<usize, IoFailed> {
        self.present.read(buf)
    }

    /// A write fails where there is no connection, or none that isn't closed.
    fn write(&mut self, piece: &[u8]) -> Result<usize, IoFailed> {
        self.present.write(piece)
    }
}

impl Front for TcpFront {
    /// The address is `HOST:PORT` or `[IPV6]:PORT`, where HOST may be a name. There is no port that an
    /// address without one has.
    fn bind(&mut self, address: &Text) -> Result<(), IoFailed> {
        match TcpListener::bind(&self.present.rt, address.as_str()) {
            Ok(listener) => {
                self.listener = Some(listener);
                Ok(())
            }
            Err(_) => Err(self.present.refuse()),
        }
    }

    /// It waits for a connection without a limit, and fails before `bind`.
    fn accept(&mut self) -> Result<(), IoFailed> {
        match accepted(&self.listener) {
            Ok(stream) => {
                self.present.begin(stream);
                Ok(())
            }
            Err(_) => Err(self.present.refuse()),
        }
    }

    /// What was sent arrives also where bytes were left unread, as behind a refusal: the sending half is
    /// closed first, and what still comes is let go for at most a second and 256 KiB.
    fn close(&mut self) {
        self.present.end();
    }
}

/// The next connection of a listener.
fn accepted(listener: &Option<TcpListener>) -> io::Result<TcpStream> {
    let Some(listener) = listener else {
        return Err(io::Error::from(io::ErrorKind::NotConnected));
    };
    let (stream, _) = listener.accept()?;
    limited(stream)
}
