//! The bytes of a body.

ghost use Rattle.std.specs.Io.KnownBytes.{Consumes};
ghost use Rattle.std.specs.Prelude.{◌≡◌, ℕ, ◌+◌, ◌<◌, ◌≤◌, List, ◌++◌, length, IfOk, OnOk, IfErr, IfSome};
ghost use Rattle.wef_http.specs.Bodies.{IsFront};
ghost use Rattle.wef_http.specs.Reading.{HasRead, Leads, ahead, reach};
ghost use Rattle.wef_http_heads.specs.Laws.{IsByBytes};

use crate::filling::fill;
use crate::held::Held;
use std::alloc::Global;
use wef_base::Bytes;
use wef_http_heads::HttpEnd;
use wef_ports::Port;

/// Reads so many bytes from the port, and appends them to a body.
fn read_more<P: Port>(port: &mut P, body: &mut Vec<u8>, count: usize) -> Result<(), HttpEnd>
    ensures bytes { OnOk result ((piece : List ℕ) × Consumes (P.told port.old).coming (P.told port.new).coming piece × (length piece ≡ count) × (body.new.items ≡ body.old.items ++ piece)) }
    ensures given { OnOk result ((P.told port.new).given ≡ (P.told port.old).given + count) }
    ensures cut { IfErr result (λ e. IsByBytes e → (e ≡ HttpEnd.Cut) × IfSome (P.told port.old).coming (λ bytes. length bytes < count)) }
    ensures outside { HasRead (P.told port.old) (P.told port.new) result }
{
    let start = body.len();
    'reading: while body.len() - start < count {
        let left = count - (body.len() - start);
        if !fill(port, body, left)? {
            return Err(HttpEnd::Cut);
        }
    }
    Ok(())
}

/// Reads so many bytes, and appends them to a body.
pub fn read_bytes<P: Port>(
    port: &mut P,
    held: &mut Held,
    body: &mut Vec<u8>,
    count: usize,
) -> Result<(), HttpEnd>
    ensures bytes { OnOk result (Leads (ahead held.old (P.told port.old)) (ahead held.new (P.told port.new)) (λ bytes rest. (piece : List ℕ) × IsFront count bytes piece rest × (body.new.items ≡ body.old.items ++ piece))) }
    ensures size { OnOk result (length body.new.items ≡ length body.old.items + count) }
    ensures cut { IfErr result (λ e. IsByBytes e → (e ≡ HttpEnd.Cut) × IfSome (ahead held.old (P.told port.old)) (λ bytes. length bytes < count)) }
    ensures reach { OnOk result (reach held.new (P.told port.new) ≤ reach held.old (P.told port.old)) }
    ensures short { length held.new ≤ length held.old }
    ensures outside { HasRead (P.told port.old) (P.told port.new) result }
{
    if count <= held.len() {
        body.extend_from_slice(&held.as_slice()[..count])?;
        held.skip(count);
        return Ok(());
    }
    body.extend_from_slice(held.as_slice())?;
    let left = count - held.len();
    held.clear();
    read_more(port, body, left)
}

/// Reads a body of so many bytes.
pub fn read_counted<P: Port>(
    alloc: Global,
    port: &mut P,
    held: &mut Held,
    count: usize,
) -> Result<Bytes, HttpEnd>
    ensures body { IfOk result (λ body. Leads (ahead held.old (P.told port.old)) (ahead held.new (P.told port.new)) (λ bytes rest. IsFront count bytes body rest)) }
    ensures size { IfOk result (λ body. length body ≡ count) }
    ensures cut { IfErr result (λ e. IsByBytes e → (e ≡ HttpEnd.Cut) × IfSome (ahead held.old (P.told port.old)) (λ bytes. length bytes < count)) }
    ensures reach { IfOk result (λ _. reach held.new (P.told port.new) ≤ reach held.old (P.told port.old)) }
    ensures short { length held.new ≤ length held.old }
    ensures outside { HasRead (P.told port.old) (P.told port.new) result }
{
    let mut body = Vec::with_capacity(alloc, count)?;
    read_bytes(port, held, &mut body, count)?;
    Ok(Bytes::from(body))
}
