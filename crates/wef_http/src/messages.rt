//! Requests and responses, read from a port.

ghost use Rattle.std.specs.Prelude.{◌≡◌, ℕ, ◌<◌, ◌≤◌, List, [], length, true, IfOk, IfErr, IfSome};
ghost use Rattle.wef_http.specs.Bodies.{FitsBody, IsBody, RefusesBody};
ghost use Rattle.wef_http.specs.Messages.{IsRequest, IsResponse, RefusesRequest, RefusesResponse};
ghost use Rattle.wef_http.specs.Reading.{HasRead, Leads, ahead, reach};
ghost use Rattle.wef_http_heads.specs.Fields.{is_host};
ghost use Rattle.wef_http_heads.specs.Laws.{IsByBytes};
ghost use Rattle.wef_http_heads.specs.declared.heads.TheConstants.{BODY_LIMIT, HEAD_LIMIT};

use crate::bodies::read_counted;
use crate::chunks::read_chunks;
use crate::heads::{RequestHead, ResponseHead};
use crate::held::Held;
use crate::parts::read_part;
use std::alloc::Global;
use std::mem;
use wef_base::{Bytes, Charset, Text};
use wef_http_heads::{Framing, HttpEnd, RequestPlan, Side, Target};
use wef_ports::Port;

/// A request to an end.
#[derive(Debug, Drop)]
pub struct HttpRequest {
    pub target: Target,
    /// The value of Host.
    pub host: Text,
    /// How the characters of the body stand in bytes.
    pub charset: Charset,
    pub body: Bytes,
    /// Whether the connection stays open behind the response.
    pub keep: bool,
}

/// The answer to a request.
#[derive(Debug, Drop)]
pub struct HttpResponse {
    /// The status, from 100 to 999.
    pub status: u16,
    /// How the characters of the body stand in bytes.
    pub charset: Charset,
    pub body: Bytes,
}

/// Reads the body that a head says.
fn read_body<P: Port>(
    alloc: Global,
    port: &mut P,
    held: &mut Held,
    framing: Framing,
) -> Result<Bytes, HttpEnd>
    requires { FitsBody framing }
    ensures body { IfOk result (λ body. Leads (ahead held.old (P.told port.old)) (ahead held.new (P.told port.new)) (λ bytes rest. IsBody framing bytes body rest)) }
    ensures size { IfOk result (λ body. length body ≤ BODY_LIMIT) }
    ensures refused { IfErr result (λ e. IfSome (ahead held.old (P.told port.old)) (λ bytes. IsByBytes e → RefusesBody framing bytes e)) }
    ensures reach { IfOk result (λ _. reach held.new (P.told port.new) ≤ reach held.old (P.told port.old)) }
    ensures short { IfOk result (λ _. length held.old ≤ HEAD_LIMIT → length held.new ≤ HEAD_LIMIT) }
    ensures outside { HasRead (P.told port.old) (P.told port.new) result }
{
    match framing {
        Framing::Length(size) => read_counted(alloc, port, held, size),
        Framing::Chunks => read_chunks(alloc, port, held),
    }
}

/// Reads a request from the bytes that are held, and then from the port.
fn take_request<P: Port>(
    alloc: Global,
    port: &mut P,
    side: Side,
    held: &mut Held,
) -> Result<HttpRequest, HttpEnd>
    ensures request { IfOk result (λ request. Leads (ahead held.old (P.told port.old)) (ahead held.new (P.told port.new)) (λ bytes rest. IsRequest side bytes request rest)) }
    ensures host { IfOk result (λ request. is_host request.host ≡ true) }
    ensures size { IfOk result (λ request. length request.body ≤ BODY_LIMIT) }
    ensures refused { IfErr result (λ e. IfSome (ahead held.old (P.told port.old)) (λ bytes. IsByBytes e → RefusesRequest side bytes e)) }
    ensures reach { IfOk result (λ _. reach held.new (P.told port.new) < reach held.old (P.told port.old)) }
    ensures short { IfOk result (λ _. length held.old ≤ HEAD_LIMIT → length held.new ≤ HEAD_LIMIT) }
    ensures outside { HasRead (P.told port.old) (P.told port.new) result }
{
    let plan = read_part(alloc, port, held, &RequestHead { side })?;
    let body = read_body(alloc, port, held, plan.framing)?;
    let RequestPlan {
        target,
        host,
        charset,
        keep,
        framing: _,
    } = plan;
    Ok(HttpRequest {
        target,
        host,
        charset,
        body,
        keep,
    })
}

/// Reads the next request to an end from `rest`, where bytes that were read before are left, and then
/// from the port. What follows the request stays in `rest`, which a refusal empties.
pub fn read_request<P: Port>(
    alloc: Global,
    port: &mut P,
    side: Side,
    rest: &mut Bytes,
) -> Result<HttpRequest, HttpEnd>
    ensures request { IfOk result (λ request. Leads (ahead rest.old (P.told port.old)) (ahead rest.new (P.told port.new)) (λ bytes left. IsRequest side bytes request left)) }
    ensures host { IfOk result (λ request. is_host request.host ≡ true) }
    ensures size { IfOk result (λ request. length request.body ≤ BODY_LIMIT) }
    ensures refused { IfErr result (λ e. IfSome (ahead rest.old (P.told port.old)) (λ bytes. IsByBytes e → RefusesRequest side bytes e)) }
    ensures reach { IfOk result (λ _. reach rest.new (P.told port.new) < reach rest.old (P.told port.old)) }
    ensures short { length rest.old ≤ HEAD_LIMIT → length rest.new ≤ HEAD_LIMIT }
    ensures emptied { IfErr result (λ _. rest.new ≡ []) }
    ensures outside { HasRead (P.told port.old) (P.told port.new) result }
{
    let mut held = Held::of(mem::replace(rest, Bytes::new(alloc)));
    match take_request(alloc, port, side, &mut held) {
        Ok(request) => {
            *rest = held.into_bytes();
            Ok(request)
        }
        Err(end) => Err(end),
    }
}

/// Reads a response from the bytes that are held, and then from the port.
fn take_response<P: Port>(
    alloc: Global,
    port: &mut P,
    held: &mut Held,
) -> Result<HttpResponse, HttpEnd>
    ensures response { IfOk result (λ response. Leads (ahead held.old (P.told port.old)) (ahead held.new (P.told port.new)) (λ bytes rest. IsResponse bytes response rest)) }
    ensures size { IfOk result (λ response. length response.body ≤ BODY_LIMIT) }
    ensures refused { IfErr result (λ e. IfSome (ahead held.old (P.told port.old)) (λ bytes. IsByBytes e → RefusesResponse bytes e)) }
    ensures outside { HasRead (P.told port.old) (P.told port.new) result }
{
    let plan = read_part(alloc, port, held, &ResponseHead)?;
    let body = read_body(alloc, port, held, plan.framing)?;
    Ok(HttpResponse {
        status: plan.status,
        charset: plan.charset,
        body,
    })
}

/// Reads a response. It may have taken bytes past it from the port.
pub fn read_response<P: Port>(alloc: Global, port: &mut P) -> Result<HttpResponse, HttpEnd>
    ensures response { IfOk result (λ response. IfSome (P.told port.old).coming (λ bytes. (left : List ℕ) × IsResponse bytes response left)) }
    ensures size { IfOk result (λ response. length response.body ≤ BODY_LIMIT) }
    ensures refused { IfErr result (λ e. IfSome (P.told port.old).coming (λ bytes. IsByBytes e → RefusesResponse bytes e)) }
    ensures outside { HasRead (P.told port.old) (P.told port.new) result }
{
    let mut held = Held::of(Bytes::new(alloc));
    take_response(alloc, port, &mut held)
}
