//! Bytes that were read from a port and are still to be understood.

ghost use Rattle.std.specs.Prelude.{◌≡◌, ℕ, ◌<◌, ◌≤◌, [], length, drop, IfOk, IfErr};
ghost use Rattle.wef_http.specs.Reading.{Comes, HasRead};
ghost use Rattle.wef_http_heads.specs.Laws.{IsByBytes};

use crate::filling::fill;
use std::marker::Model;
use wef_base::Bytes;
use wef_http_heads::HttpEnd;
use wef_ports::Port;

/// Bytes that go in behind and out in front. Contracts see those that are left.
#[derive(Debug, Drop)]
pub struct Held {
    bytes: Vec<u8>,
    start: usize,
}

impl Model for Held {
    ghost use Rattle.std.specs.Prelude.{ℕ, List, drop, length, ◌≤◌};

    ghost Value = { List ℕ };

    ghost view = { λ h. drop h.start h.bytes.items };

    ghost invariant = { λ h. h.start ≤ length h.bytes.items };
}

impl Held {
    /// These bytes. It takes no memory.
    pub fn of(bytes: Bytes) -> Held
        ensures { result ≡ bytes }
    {
        Held {
            bytes: bytes.into_vec(),
            start: 0,
        }
    }

    /// The bytes that are left.
    pub fn as_slice(&self) -> &[u8]
        ensures { result.now ≡ self.now }
    {
        &self.bytes[self.start..]
    }

    /// How many bytes are left.
    pub fn len(&self) -> usize
        ensures { result ≡ length self.now }
    {
        self.bytes.len() - self.start
    }

    /// Lets the first bytes go. It takes no memory.
    pub fn skip(&mut self, count: usize)
        requires { count ≤ length self.old }
        ensures { self.new ≡ drop count self.old }
    {
        self.start += count;
    }

    /// Lets all bytes go. It takes no memory.
    pub fn clear(&mut self)
        ensures { self.new ≡ [] }
    {
        self.bytes.clear();
        self.start = 0;
    }

    /// Gives the room back of the bytes that are gone, where they are more than those that are left:
    /// so each byte is moved at most once for one that is gone.
    fn close_up(&mut self)
        ensures { self.new ≡ self.old }
    {
        if self.start >= self.len() {
            drop_front(&mut self.bytes, self.start);
            self.start = 0;
        }
    }

    /// Reads at most `room` bytes more. Whether there were any. What was read is lost where memory is
    /// wanting.
    pub fn fill<P: Port>(&mut self, port: &mut P, room: usize) -> Result<bool, HttpEnd>
        requires { 0 < room }
        ensures came { IfOk result (Comes (P.told port.old) (P.told port.new) self.old self.new room) }
        ensures outside { HasRead (P.told port.old) (P.told port.new) result }
        ensures kinds { IfErr result (λ e. IsByBytes e → ⊥) }
    {
        self.close_up();
        fill(port, &mut self.bytes, room)
    }

    /// The bytes that are left. It takes no memory.
    pub fn into_bytes(self) -> Bytes
        ensures { result ≡ self }
    {
        let Held { bytes, start } = self;
        let mut left = bytes;
        drop_front(&mut left, start);
        Bytes::from(left)
    }
}

/// Lets the first bytes go, and gives their room back.
fn drop_front(bytes: &mut Vec<u8>, count: usize)
    requires { count ≤ length bytes.old.items }
    ensures { bytes.new.items ≡ drop count bytes.old.items }
{
    let left = bytes.len() - count;
    bytes.as_mut_slice().copy_within(count.., 0);
    bytes.truncate(left);
}
