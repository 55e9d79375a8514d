//! Heads of requests and of responses, as parts that are read as a whole.

ghost use Rattle.std.specs.Prelude.{◌≡◌, ◌≢◌, ℕ, List, ◌++◌, IfOk, IfErr, if◌then◌else◌, length, ◌==◌};
ghost use Rattle.wef_http.specs.Bodies.{FitsBody};
ghost use Rattle.wef_http.specs.Messages.{FitsRequest};
ghost use Rattle.wef_http.specs.Parts.{FindsPart, HasNotEnded};
ghost use Rattle.wef_http_heads.specs.Heads.{PlansRequest, PlansResponse, RefusesRequestHead, RefusesResponseHead};
ghost use Rattle.wef_http_heads.specs.Laws.{IsByBytes};

use crate::parts::Part;
use crate::watching::Watch;
use std::alloc::Global;
use wef_http_heads::{
    Found, HttpEnd, RequestPlan, ResponsePlan, Side, find_request_head, find_response_head,
};

/// The head of a request to an end.
#[derive(Clone, Copy, Debug)]
pub struct RequestHead {
    pub side: Side,
}

impl Part<RequestPlan> for RequestHead {
    ghost reads = { λ h. PlansRequest h.side };

    ghost refuses = { λ h. RefusesRequestHead h.side };

    ghost fits = { FitsRequest };

    ghost is_open = { λ _. HasNotEnded };

    fn find(&self, alloc: Global, bytes: &[u8]) -> Result<Found<RequestPlan>, HttpEnd>
        ensures found { IfOk result (FindsPart (PlansRequest self.now.side) FitsRequest HasNotEnded bytes.now) }
        ensures refused { IfErr result (λ e. IsByBytes e → (more : List ℕ) → RefusesRequestHead self.now.side (bytes.now ++ more) e) }
        ensures kinds { IfErr result (λ e. e ≢ HttpEnd.ReadFault) }
    {
        match find_request_head(alloc, self.side, bytes) {
            Ok(found) => Ok(found),
            Err(end) => Err(end),
        }
    }

    fn refusal(&self, bytes: &[u8]) -> HttpEnd {
        end_of(bytes)
    }

    fn is_due(&self, watch: &mut Watch, bytes: &[u8]) -> bool {
        watch.sees_head(bytes)
    }
}

/// The head of a response.
#[derive(Clone, Copy, Debug)]
pub struct ResponseHead;

impl Part<ResponsePlan> for ResponseHead {
    ghost reads = { λ _. PlansResponse };

    ghost refuses = { λ _. RefusesResponseHead };

    ghost fits = { λ plan. FitsBody plan.framing };

    ghost is_open = { λ _. HasNotEnded };

    fn find(&self, alloc: Global, bytes: &[u8]) -> Result<Found<ResponsePlan>, HttpEnd>
        ensures found { IfOk result (FindsPart PlansResponse (λ plan. FitsBody plan.framing) HasNotEnded bytes.now) }
        ensures refused { IfErr result (λ e. IsByBytes e → (more : List ℕ) → RefusesResponseHead (bytes.now ++ more) e) }
        ensures kinds { IfErr result (λ e. e ≢ HttpEnd.ReadFault) }
    {
        match find_response_head(alloc, bytes) {
            Ok(found) => Ok(found),
            Err(end) => Err(end),
        }
    }

    fn refusal(&self, bytes: &[u8]) -> HttpEnd {
        end_of(bytes)
    }

    fn is_due(&self, watch: &mut Watch, bytes: &[u8]) -> bool {
        watch.sees_head(bytes)
    }
}

/// Why there is no head where the bytes end before one has.
fn end_of(bytes: &[u8]) -> HttpEnd
    ensures { result ≡ (if length bytes.now == 0 then HttpEnd.End else HttpEnd.Cut) }
{
    if bytes.is_empty() {
        HttpEnd::End
    } else {
        HttpEnd::Cut
    }
}
