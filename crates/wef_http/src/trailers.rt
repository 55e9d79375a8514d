//! The lines behind the last chunk, which are skipped.

ghost use Rattle.std.specs.Prelude.{◌≡◌, ◌≤◌, Some, None, length, OnOk, IfErr, IfSome};
ghost use Rattle.wef_http.specs.Reading.{HasRead, Leads, ahead, reach};
ghost use Rattle.wef_http.specs.Trailers.{Skips, Steps};
ghost use Rattle.wef_http_heads.specs.Ends.{behind_empty_line};
ghost use Rattle.wef_http_heads.specs.Ends as ends;
ghost use Rattle.wef_http_heads.specs.Laws.{IsByBytes};
ghost use Rattle.wef_http_heads.specs.declared.heads.TheConstants.{HEAD_LIMIT};

use crate::held::Held;
use wef_http_heads::HttpEnd;
use wef_http_heads::heads::HEAD_LIMIT;
use wef_ports::Port;

/// Where a byte stands in its line.
#[derive(Clone, Copy, Debug, PartialEq, Eq)]
pub enum Place {
    Start,
    /// Behind a CR at the start.
    Returned,
    Inside,
}

/// How far lines go that end with an empty one.
#[derive(Clone, Copy, Debug, PartialEq, Eq)]
pub enum Skipped {
    /// So many bytes, the empty line among them.
    Whole(usize),
    /// No empty line yet. The next byte stands here.
    Open(Place),
}

/// The place behind a byte, or none where it ends an empty line.
fn step(place: Place, byte: u8) -> Option<Place>
    ensures { Steps place byte result }
{
    match (place, byte) {
        (Place::Inside, b'\n') => Some(Place::Start),
        (_, b'\n') => None,
        (Place::Start, b'\r') => Some(Place::Returned),
        _ => Some(Place::Inside),
    }
}

/// How far lines go in these bytes, the first of which stands at a place in its line.
pub fn skip(bytes: &[u8], from: Place) -> Skipped
    ensures { Skips bytes.now from result }
{
    let mut place = from;
    for (index, &byte) in bytes.iter().enumerate() {
        match step(place, byte) {
            Some(next) => place = next,
            None => return Skipped::Whole(index + 1),
        }
    }
    Skipped::Open(place)
}

/// Skips lines up to an empty one, as they come.
pub fn skip_trailers<P: Port>(port: &mut P, held: &mut Held) -> Result<(), HttpEnd>
    ensures behind { OnOk result (Leads (ahead held.old (P.told port.old)) (ahead held.new (P.told port.new)) (λ bytes rest. behind_empty_line ends.Start bytes ≡ Some rest)) }
    ensures cut { IfErr result (λ e. IfSome (ahead held.old (P.told port.old)) (λ bytes. IsByBytes e → (e ≡ HttpEnd.Cut) × (behind_empty_line ends.Start bytes ≡ None))) }
    ensures reach { OnOk result (reach held.new (P.told port.new) ≤ reach held.old (P.told port.old)) }
    ensures short { OnOk result (length held.old ≤ HEAD_LIMIT → length held.new ≤ HEAD_LIMIT) }
    ensures outside { HasRead (P.told port.old) (P.told port.new) result }
{
    let mut place = Place::Start;
    'skipping: loop {
        match skip(held.as_slice(), place) {
            Skipped::Whole(count) => {
                held.skip(count);
                return Ok(());
            }
            Skipped::Open(next) => place = next,
        }
        held.clear();
        if !held.fill(port, HEAD_LIMIT)? {
            return Err(HttpEnd::Cut);
        }
    }
}
