//! Bytes that come in pieces, as those of a connection do.

ghost use Rattle.std.specs.Prelude.{◌≡◌, ◌+◌, ◌<◌, ◌≤◌, ◌++◌, ◌^◌, [], take, drop, length, min};
ghost use Rattle.wef_ports.specs.Pieces.{cuts_behind, piece_to};

use std::alloc::Global;
use wef_base::memory::give;
use wef_base::{Bytes, List};

/// Bytes that are given one after the other, some at a time.
#[derive(Debug, Drop)]
pub struct Pieces {
    bytes: Bytes,
    at: usize,
    cuts: List<usize>,
    next: usize,
}

impl Pieces {
    /// Bytes of which none is given yet. No piece goes past one of the `cuts`, which are places in
    /// the bytes and rise.
    pub fn of(bytes: Bytes, cuts: List<usize>) -> Pieces
        ensures left { drop result.at result.bytes ≡ bytes }
        ensures given { result.at ≡ 0 }
    {
        Pieces {
            bytes,
            at: 0,
            cuts,
            next: 0,
        }
    }

    /// No bytes.
    pub fn none(alloc: Global) -> Pieces
        ensures left { drop result.at result.bytes ≡ [] }
        ensures given { result.at ≡ 0 }
    {
        Pieces::of(Bytes::new(alloc), List::new(alloc))
    }

    /// Gives the next piece, or as much of it as there is room, to the front of the buffer, and
    /// answers how many bytes these are. None into a buffer that isn't empty is the end.
    pub fn give(&mut self, buf: &mut [u8]) -> usize
        ensures count { result ≡ min (min (length (drop self.old.at self.old.bytes)) (piece_to (cuts_behind self.old.at (drop self.old.next self.old.cuts)) self.old.at)) (length buf.old) }
        ensures cuts { drop self.new.next self.new.cuts ≡ cuts_behind self.old.at (drop self.old.next self.old.cuts) }
        ensures bound { result ≤ length buf.new }
        ensures left { drop self.old.at self.old.bytes ≡ take result buf.new ++ drop self.new.at self.new.bytes }
        ensures rest { drop result buf.new ≡ drop result buf.old }
        ensures end { result ≡ 0 → 0 < length buf.new → drop self.new.at self.new.bytes ≡ [] }
        ensures given { self.new.at ≡ self.old.at + result }
        ensures within { self.new.at < 2 ^ 64 }
    {
        self.next = next_cut(self.cuts.as_slice(), self.next, self.at);
        let piece = piece_to(self.cuts.as_slice(), self.next, self.at);
        let count = give(self.bytes.as_slice(), self.at, piece, buf);
        self.at += count;
        count
    }
}

/// The index of the first cut from this index on that lies behind a place.
fn next_cut(cuts: &[usize], from: usize, place: usize) -> usize
    ensures { drop result cuts.now ≡ cuts_behind place (drop from cuts.now) }
{
    let mut index = from;
    while index < cuts.len() && cuts[index] <= place {
        index += 1;
    }
    index
}

/// How many bytes come at most from a place on before the cut of this index.
fn piece_to(cuts: &[usize], index: usize, place: usize) -> usize
    ensures count { result ≡ piece_to (drop index cuts.now) place }
    ensures some { 0 < result }
{
    match cuts.get(index) {
        Some(&cut) if cut > place => cut - place,
        _ => usize::MAX,
    }
}
