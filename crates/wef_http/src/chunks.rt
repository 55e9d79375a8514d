//! Bodies in chunks.

ghost use Rattle.std.specs.Prelude.{◌≡◌, ℕ, ◌+◌, ◌<◌, ◌≤◌, true, false, List, ◌++◌, length, IfOk, OnOk, IfErr, IfSome};
ghost use Rattle.wef_http.specs.Chunks.{IsPiece, IsChunked, LastOrMore, RefusesChunk, RefusesChunks, RefusesPiece};
ghost use Rattle.wef_http.specs.Reading.{HasRead, Leads, ahead, reach};
ghost use Rattle.wef_http_heads.specs.Laws.{IsByBytes};
ghost use Rattle.wef_http_heads.specs.declared.heads.TheConstants.{BODY_LIMIT, HEAD_LIMIT};

use crate::bodies::read_bytes;
use crate::held::Held;
use crate::lines::{LineEnd, SizeLine};
use crate::parts::read_part;
use crate::trailers::skip_trailers;
use std::alloc::Global;
use wef_base::Bytes;
use wef_http_heads::HttpEnd;
use wef_http_heads::heads::BODY_LIMIT;
use wef_ports::Port;

/// Reads the bytes of a chunk and the end of the line behind them, and appends the bytes to a body.
fn read_piece<P: Port>(
    alloc: Global,
    port: &mut P,
    held: &mut Held,
    body: &mut Vec<u8>,
    size: usize,
) -> Result<(), HttpEnd>
    ensures piece { OnOk result (Leads (ahead held.old (P.told port.old)) (ahead held.new (P.told port.new)) (λ bytes rest. (piece : List ℕ) × (length piece ≡ size) × IsPiece bytes piece rest × (body.new.items ≡ body.old.items ++ piece))) }
    ensures size { OnOk result (length body.new.items ≡ length body.old.items + size) }
    ensures refused { IfErr result (λ e. IfSome (ahead held.old (P.told port.old)) (λ bytes. IsByBytes e → RefusesPiece size bytes e)) }
    ensures reach { OnOk result (reach held.new (P.told port.new) ≤ reach held.old (P.told port.old)) }
    ensures short { OnOk result (length held.old ≤ HEAD_LIMIT → length held.new ≤ HEAD_LIMIT) }
    ensures outside { HasRead (P.told port.old) (P.told port.new) result }
{
    read_bytes(port, held, body, size)?;
    read_part(alloc, port, held, &LineEnd)
}

/// Reads a chunk, and appends its bytes to a body. Whether it isn't the last one.
fn read_chunk<P: Port>(
    alloc: Global,
    port: &mut P,
    held: &mut Held,
    body: &mut Vec<u8>,
) -> Result<bool, HttpEnd>
    requires { length body.old.items ≤ BODY_LIMIT }
    ensures chunk { IfOk result (λ more. Leads (ahead held.old (P.told port.old)) (ahead held.new (P.told port.new)) (λ bytes rest. LastOrMore body.old.items body.new.items bytes rest more)) }
    ensures size { IfOk result (λ more. length body.new.items ≤ BODY_LIMIT) }
    ensures grows { IfOk result (λ more. more ≡ true → length body.old.items < length body.new.items) }
    ensures refused { IfErr result (λ e. IfSome (ahead held.old (P.told port.old)) (λ bytes. IsByBytes e → RefusesChunk (length body.old.items) bytes e)) }
    ensures reach { IfOk result (λ _. reach held.new (P.told port.new) ≤ reach held.old (P.told port.old)) }
    ensures short { IfOk result (λ _. length held.old ≤ HEAD_LIMIT → length held.new ≤ HEAD_LIMIT) }
    ensures outside { HasRead (P.told port.old) (P.told port.new) result }
{
    let size = read_part(alloc, port, held, &SizeLine)?;
    if size > (BODY_LIMIT - body.len()) as u64 {
        return Err(HttpEnd::TooLarge);
    }
    if size == 0 {
        return Ok(false);
    }
    read_piece(alloc, port, held, body, size as usize)?;
    Ok(true)
}

/// Reads a body in chunks, with the trailers behind it, which are skipped.
pub fn read_chunks<P: Port>(alloc: Global, port: &mut P, held: &mut Held) -> Result<Bytes, HttpEnd>
    ensures body { IfOk result (λ body. Leads (ahead held.old (P.told port.old)) (ahead held.new (P.told port.new)) (λ bytes rest. IsChunked bytes body rest)) }
    ensures size { IfOk result (λ body. length body ≤ BODY_LIMIT) }
    ensures refused { IfErr result (λ e. IfSome (ahead held.old (P.told port.old)) (λ bytes. IsByBytes e → RefusesChunks bytes e)) }
    ensures reach { IfOk result (λ _. reach held.new (P.told port.new) ≤ reach held.old (P.told port.old)) }
    ensures short { IfOk result (λ _. length held.old ≤ HEAD_LIMIT → length held.new ≤ HEAD_LIMIT) }
    ensures outside { HasRead (P.told port.old) (P.told port.new) result }
{
    let mut body = Vec::new(alloc);
    'chunks: while read_chunk(alloc, port, held, &mut body)? {}
    skip_trailers(port, held)?;
    Ok(Bytes::from(body))
}
