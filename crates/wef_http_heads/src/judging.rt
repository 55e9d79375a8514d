//! What a head says of its message, or the first point in which it is refused.

ghost use Rattle.std.specs.Prelude.{◌≡◌, IfOk};
ghost use Rattle.wef_http_heads.specs.Judging as spec;
ghost use Rattle.wef_http_heads.specs.Steps.{Judges, needed};
ghost use Rattle.wef_http_heads.specs.declared.ends.HttpEnd.TheVariants.{BadHead, NoLength, TooLarge};

use crate::ends::HttpEnd;
use crate::fields::{Fields, closes, host_in};
use crate::framing::{Declared, declared_in};
use crate::media::{request_charset, response_charset};
use crate::plans::{Framing, RequestPlan, ResponsePlan};
use crate::targets::{Side, target_at};
use http::StatusCode;
use std::alloc::{AllocError, Global};

/// A request to an end, by its method, its target, its minor version and its fields.
pub(crate) fn request_of(
    alloc: Global,
    side: Side,
    method: &[u8],
    target: &[u8],
    minor: u8,
    fields: &Fields,
) -> Result<RequestPlan, HttpEnd>
    ensures { Judges result (spec.request_of side method.now target.now minor fields.now) }
{
    let host = host_in(alloc, fields)?;
    let declared = declared_in(alloc, fields)?;
    if method != b"POST".as_slice() {
        return Err(HttpEnd::Method);
    }
    let target = target_at(alloc, side, target)?;
    let body = with_body(declared)?;
    let charset = request_charset(alloc, fields)?;
    let framing = framing_of(body)?;
    let keep = keeps(alloc, minor, fields)?;
    Ok(RequestPlan {
        target,
        host,
        charset,
        keep,
        framing,
    })
}

/// Whether the connection stays open.
fn keeps(alloc: Global, minor: u8, fields: &Fields) -> Result<bool, AllocError>
    ensures { IfOk result (λ keep. keep ≡ spec.keeps minor fields.now) }
{
    if minor != 1 {
        return Ok(false);
    }
    Ok(!closes(alloc, fields)?)
}

/// What is said of a body that must have a length or chunks.
fn with_body(declared: Declared) -> Result<Declared, HttpEnd>
    ensures { Judges result (needed NoLength (spec.with_body declared)) }
{
    match declared {
        Declared::Nothing => Err(HttpEnd::NoLength),
        Declared::Length(_) | Declared::TooLong | Declared::Chunked => Ok(declared),
    }
}

/// Where the body ends, which is empty where nothing is said of it.
fn framing_of(declared: Declared) -> Result<Framing, HttpEnd>
    ensures { Judges result (needed TooLarge (spec.framing_of declared)) }
{
    match declared {
        Declared::Nothing => Ok(Framing::Length(0)),
        Declared::Length(length) => Ok(Framing::Length(length)),
        Declared::TooLong => Err(HttpEnd::TooLarge),
        Declared::Chunked => Ok(Framing::Chunks),
    }
}

/// A response, by its status and its fields.
pub(crate) fn response_of(
    alloc: Global,
    code: u16,
    fields: &Fields,
) -> Result<ResponsePlan, HttpEnd>
    ensures { Judges result (spec.response_of code fields.now) }
{
    let status = status_within(code)?;
    let declared = declared_in(alloc, fields)?;
    let body = body_of(status, declared)?;
    let charset = response_charset(alloc, fields)?;
    let framing = framing_of(body)?;
    Ok(ResponsePlan {
        status,
        charset,
        framing: framing_for(status, framing),
    })
}

fn status_within(code: u16) -> Result<u16, HttpEnd>
    ensures { Judges result (needed BadHead (spec.status_within code)) }
{
    match StatusCode::from_u16(code) {
        Ok(_) => Ok(code),
        Err(_) => Err(HttpEnd::BadHead),
    }
}

fn is_empty_status(status: u16) -> bool
    ensures { result ≡ spec.is_empty_status status }
{
    status == 204
}

/// What is said of the body of a response: 204 alone needs neither a length nor chunks.
fn body_of(status: u16, declared: Declared) -> Result<Declared, HttpEnd>
    ensures { Judges result (needed BadHead (spec.body_of status declared)) }
{
    if is_empty_status(status) {
        return Ok(declared);
    }
    match declared {
        Declared::Nothing => Err(HttpEnd::BadHead),
        Declared::Length(_) | Declared::TooLong | Declared::Chunked => Ok(declared),
    }
}

/// Where the body of a response ends: that of 204 is empty.
fn framing_for(status: u16, framing: Framing) -> Framing
    ensures { result ≡ spec.framing_for status framing }
{
    if is_empty_status(status) {
        return Framing::Length(0);
    }
    framing
}
