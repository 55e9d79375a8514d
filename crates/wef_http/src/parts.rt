//! Parts of a message that are read as a whole: a head, the line of a chunk, the end of a line.

ghost use Rattle.std.specs.Prelude.{◌≡◌, ◌≢◌, ℕ, ◌<◌, ◌≤◌, List, [], ◌++◌, length, IfOk, IfErr, IfSome};
ghost use Rattle.wef_http.specs.Parts.{FindsPart, TakesPart};
ghost use Rattle.wef_http.specs.Reading.{HasRead, Leads, ahead, reach};
ghost use Rattle.wef_http_heads.specs.Laws.{IsByBytes};
ghost use Rattle.wef_http_heads.specs.declared.ends.HttpEnd.{HttpEnd};
ghost use Rattle.wef_http_heads.specs.declared.heads.TheConstants.{HEAD_LIMIT};

use crate::held::Held;
use crate::watching::Watch;
use std::alloc::Global;
use wef_http_heads::heads::HEAD_LIMIT;
use wef_http_heads::{Found, HttpEnd};
use wef_ports::Port;

/// What is read as a whole, and the value that it has.
pub trait Part<V> {
    // bytes are this part with a value, and then a rest
    ghost reads: { Self → List ℕ → V → List ℕ → Type 0 };

    // bytes don't begin with this part, for this
    ghost refuses: { Self → List ℕ → HttpEnd → Type 0 };

    // what holds of each value
    ghost fits: { V → Type 0 };

    // bytes may become this part
    ghost is_open: { Self → List ℕ → Type 0 };

    /// The part that bytes begin with. `Partial` only where there is room for more bytes of it.
    fn find(&self, alloc: Global, bytes: &[u8]) -> Result<Found<V>, HttpEnd>
        ensures found { IfOk result (FindsPart (reads self.now) fits (is_open self.now) bytes.now) }
        ensures refused { IfErr result (λ e. IsByBytes e → (more : List ℕ) → refuses self.now (bytes.now ++ more) e) }
        ensures kinds { IfErr result (λ e. e ≢ HttpEnd.ReadFault) };

    /// Why the part is refused where the bytes end so.
    fn refusal(&self, bytes: &[u8]) -> HttpEnd
        requires { is_open self.now bytes.now }
        ensures refused { refuses self.now bytes.now result }
        ensures kinds { result ≢ HttpEnd.ReadFault };

    /// Whether the part may have ended in the bytes that came since the watch was asked last.
    fn is_due(&self, watch: &mut Watch, bytes: &[u8]) -> bool;
}

/// Takes a part from the bytes that are held, if one is there.
fn take_part<V: Drop, K: Part<V>>(
    alloc: Global,
    held: &mut Held,
    part: &K,
) -> Result<Option<V>, HttpEnd>
    ensures taken { IfOk result (TakesPart (K.reads part.now) K.fits (K.is_open part.now) held.old held.new) }
    ensures refused { IfErr result (λ e. IsByBytes e → (more : List ℕ) → K.refuses part.now (held.old ++ more) e) }
    ensures err { IfErr result (λ _. held.new ≡ held.old) }
    ensures kinds { IfErr result (λ e. e ≢ HttpEnd.ReadFault) }
{
    match part.find(alloc, held.as_slice()) {
        Ok(Found::Whole(value, len)) => {
            held.skip(len);
            Ok(Some(value))
        }
        Ok(Found::Partial) => Ok(None),
        Err(end) => Err(end),
    }
}

/// Takes a part from the bytes that are held, where there is no room for more of it.
fn take_full_part<V: Drop, K: Part<V>>(
    alloc: Global,
    held: &mut Held,
    part: &K,
) -> Result<V, HttpEnd>
    requires { HEAD_LIMIT ≤ length held.old }
    ensures taken { IfOk result (λ v. TakesPart (K.reads part.now) K.fits (K.is_open part.now) held.old held.new (Some v)) }
    ensures refused { IfErr result (λ e. IsByBytes e → (more : List ℕ) → K.refuses part.now (held.old ++ more) e) }
    ensures err { IfErr result (λ _. held.new ≡ held.old) }
    ensures kinds { IfErr result (λ e. e ≢ HttpEnd.ReadFault) }
{
    match take_part(alloc, held, part)? {
        Some(value) => Ok(value),
        None => unreachable!(),
    }
}

/// Takes a part from the bytes that are held, where no more come.
fn take_last_part<V: Drop, K: Part<V>>(
    alloc: Global,
    held: &mut Held,
    part: &K,
) -> Result<V, HttpEnd>
    ensures taken { IfOk result (λ v. TakesPart (K.reads part.now) K.fits (K.is_open part.now) held.old held.new (Some v)) }
    ensures refused { IfErr result (λ e. IsByBytes e → K.refuses part.now (held.old ++ []) e) }
    ensures err { IfErr result (λ _. held.new ≡ held.old) }
    ensures kinds { IfErr result (λ e. e ≢ HttpEnd.ReadFault) }
{
    match take_part(alloc, held, part)? {
        Some(value) => Ok(value),
        None => Err(part.refusal(held.as_slice())),
    }
}

/// Reads a part.
pub fn read_part<P: Port, V: Drop, K: Part<V>>(
    alloc: Global,
    port: &mut P,
    held: &mut Held,
    part: &K,
) -> Result<V, HttpEnd>
    ensures value { IfOk result (λ v. Leads (ahead held.old (P.told port.old)) (ahead held.new (P.told port.new)) (λ bytes rest. K.reads part.now bytes v rest)) }
    ensures fits { IfOk result K.fits }
    ensures refused { IfErr result (λ e. IfSome (ahead held.old (P.told port.old)) (λ bytes. IsByBytes e → K.refuses part.now bytes e)) }
    ensures reach { IfOk result (λ _. reach held.new (P.told port.new) < reach held.old (P.told port.old)) }
    ensures short { IfOk result (λ _. length held.old ≤ HEAD_LIMIT → length held.new ≤ HEAD_LIMIT) }
    ensures outside { HasRead (P.told port.old) (P.told port.new) result }
{
    let mut watch = Watch::new();
    'reading: loop {
        if held.len() >= HEAD_LIMIT {
            return take_full_part(alloc, held, part);
        }
        if part.is_due(&mut watch, held.as_slice()) {
            if let Some(value) = take_part(alloc, held, part)? {
                return Ok(value);
            }
        }
        if !held.fill(port, HEAD_LIMIT - held.len())? {
            return take_last_part(alloc, held, part);
        }
    }
}
