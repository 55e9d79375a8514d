//! Instants as texts, read byte by byte.

ghost use Rattle.std.specs.Prelude.{◌≡◌, []};
ghost use Rattle.wef_query_values.specs.Comparisons.{instant_of_text};
ghost use Rattle.wef_query_values.specs.Places.{plain, text_at};
ghost use Rattle.wef_query_values.specs.Stamps.{Kept, instant_taken, take_byte, behind_space, with_byte, with_space};

use crate::feeding::{Feed, feed_bytes, feed_spot};
use crate::numbers::is_space;
use crate::spots::Spot;
use std::marker::Model;
use wef_base::Text;
use wef_times::instant_at;

/// How a text that is fed stands.
#[derive(Clone, Copy)]
pub(crate) enum Standing {
    /// All of it so far, but for the spaces before it, is kept.
    Open,
    /// Spaces stand behind what is kept.
    Closed,
    /// It is no instant, whatever follows.
    Broken,
}

/// The bytes of a text that is fed, without the spaces at both ends. No instant has more than 35.
#[derive(Drop)]
pub(crate) struct Stamp {
    bytes: [u8; 35],
    length: usize,
    standing: Standing,
}

impl Model for Stamp {
    ghost use Rattle.std.specs.Prelude.{◌≤◌, take};
    ghost use Rattle.wef_query_values.specs.Stamps.{Taken, taken};

    ghost Value = { Taken };

    ghost view = { λ s. taken s.standing (take s.length s.bytes) };

    ghost invariant = { λ s. s.length ≤ 35 };
}

impl Feed for Stamp {
    ghost step = { take_byte };

    fn feed(&mut self, byte: u8) {
        if is_space(byte) {
            self.put_space();
        } else {
            self.put(byte);
        }
    }
}

/// The instant that the text of a place is, without the spaces at both ends.
#[tactic(auto, using(crate::proofs::Stamps::instant_is))]
pub(crate) fn instant_at_spot(spot: Spot) -> Option<i128>
    ensures { result ≡ instant_of_text (text_at (plain spot.entry)) }
{
    let mut stamp = Stamp::new();
    feed_spot(&mut stamp, spot);
    stamp.instant()
}

/// The instant that a text is, without the spaces at both ends.
#[tactic(auto, using(crate::proofs::Stamps::instant_is))]
pub(crate) fn instant_of_text(text: &Text) -> Option<i128>
    ensures { result ≡ instant_of_text text.now }
{
    let mut stamp = Stamp::new();
    feed_bytes(&mut stamp, text.as_str().as_bytes());
    stamp.instant()
}

impl Standing {
    fn behind_space(self) -> Standing
        ensures { result ≡ behind_space self }
    {
        match self {
            Standing::Open | Standing::Closed => Standing::Closed,
            Standing::Broken => Standing::Broken,
        }
    }
}

impl Stamp {
    fn new() -> Stamp
        ensures { result ≡ Kept [] }
    {
        Stamp {
            bytes: [0; 35],
            length: 0,
            standing: Standing::Open,
        }
    }

    fn put_space(&mut self)
        ensures { self.new ≡ with_space self.old }
    {
        if self.length > 0 {
            self.standing = self.standing.behind_space();
        }
    }

    fn put(&mut self, byte: u8)
        ensures { self.new ≡ with_byte self.old byte }
    {
        match self.standing {
            Standing::Open if self.length < 35 => {
                self.bytes[self.length] = byte;
                self.length += 1;
            }
            _ => self.standing = Standing::Broken,
        }
    }

    fn instant(&self) -> Option<i128>
        ensures { result ≡ instant_taken self.now }
    {
        match self.standing {
            Standing::Open | Standing::Closed => instant_at(&self.bytes[..self.length]),
            Standing::Broken => None,
        }
    }
}
