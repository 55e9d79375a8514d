//! Heads that bytes begin with.

ghost use Rattle.httparse.specs.Spans.{IsRequestWithin, header_bytes, span_bytes};
ghost use Rattle.std.specs.Prelude.{IfOk, IfErr, map, take};
ghost use Rattle.wef_http_heads.specs.Heads.{FindsRequest, FindsResponse, IsOfBytes, RefusesRequestHead, RefusesResponseHead};
ghost use Rattle.wef_http_heads.specs.Judging.{request_of, response_of};
ghost use Rattle.wef_http_heads.specs.Steps.{Judges};

use crate::ends::HttpEnd;
use crate::fields::Fields;
use crate::judging::{request_of, response_of};
use crate::plans::{Found, RequestPlan, ResponsePlan};
use crate::targets::Side;
use httparse::Status;
use httparse::spans::{EMPTY_HEADER_SPAN, HeaderSpan, RequestSpans, parse_request, parse_response};
use std::alloc::Global;

/// How many bytes a head may have.
pub const HEAD_LIMIT: usize = 65_536;

/// How many fields a head may have.
pub const FIELD_LIMIT: usize = 64;

/// How many bytes a body may have.
pub const BODY_LIMIT: usize = 16_777_216;

/// The head of a request that bytes begin with, judged for the end that serves it. `Partial` only
/// where there is room for more bytes of a head.
pub fn find_request_head(
    alloc: Global,
    side: Side,
    bytes: &[u8],
) -> Result<Found<RequestPlan>, HttpEnd>
    ensures found { IfOk result (FindsRequest side bytes.now) }
    ensures refused { IfErr result (RefusesRequestHead side bytes.now) }
    ensures kinds { IfErr result IsOfBytes }
{
    let mut spans = [EMPTY_HEADER_SPAN; FIELD_LIMIT];
    match parse_request(bytes, &mut spans) {
        Ok(Status::Complete(head)) if head.len > HEAD_LIMIT => Err(HttpEnd::BadHead),
        Ok(Status::Complete(head)) => match judge_request(alloc, side, bytes, &spans, head) {
            Ok(plan) => Ok(Found::Whole(plan, head.len)),
            Err(end) => Err(end),
        },
        Ok(Status::Partial) if bytes.len() < HEAD_LIMIT => Ok(Found::Partial),
        Ok(Status::Partial) => Err(HttpEnd::BadHead),
        Err(_) => Err(HttpEnd::BadHead),
    }
}

#[tactic(auto, using(crate::proofs::Wholes::headers_within))]
fn judge_request(
    alloc: Global,
    side: Side,
    bytes: &[u8],
    spans: &[HeaderSpan],
    head: RequestSpans,
) -> Result<RequestPlan, HttpEnd>
    requires { IsRequestWithin bytes.now spans.now head }
    ensures { Judges result (request_of side (span_bytes bytes.now head.method) (span_bytes bytes.now head.path) head.version (map (header_bytes bytes.now) (take head.headers spans.now))) }
{
    let fields = Fields::new(bytes, &spans[..head.headers]);
    request_of(
        alloc,
        side,
        head.method.of(bytes),
        head.path.of(bytes),
        head.version,
        &fields,
    )
}

/// The head of a response that bytes begin with, judged. `Partial` only where there is room for
/// more bytes of a head.
#[tactic(auto, using(crate::proofs::Parted::partial_response, crate::proofs::Wholes::headers_within))]
pub fn find_response_head(alloc: Global, bytes: &[u8]) -> Result<Found<ResponsePlan>, HttpEnd>
    ensures found { IfOk result (FindsResponse bytes.now) }
    ensures refused { IfErr result (RefusesResponseHead bytes.now) }
    ensures kinds { IfErr result IsOfBytes }
{
    let mut spans = [EMPTY_HEADER_SPAN; FIELD_LIMIT];
    match parse_response(bytes, &mut spans) {
        Ok(Status::Complete(head)) if head.len > HEAD_LIMIT => Err(HttpEnd::BadHead),
        Ok(Status::Complete(head)) => match response_of(
            alloc,
            head.code,
            &Fields::new(bytes, &spans[..head.headers]),
        ) {
            Ok(plan) => Ok(Found::Whole(plan, head.len)),
            Err(end) => Err(end),
        },
        Ok(Status::Partial) if bytes.len() < HEAD_LIMIT => Ok(Found::Partial),
        Ok(Status::Partial) => Err(HttpEnd::BadHead),
        Err(_) => Err(HttpEnd::BadHead),
    }
}
