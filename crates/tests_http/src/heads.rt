//! Heads that are edited.

use crate::connections::{Reading, push_differences};
use crate::shown::{push_end, push_request_plan, push_response_plan, push_rest};
use std::alloc::AllocError;
use tests_tasks::deliveries::edited_from;
use tests_tasks::escapes::unescaped;
use wef_base::Text;
use wef_http_heads::{Found, Side, find_request_head, find_response_head};

/// The head of a good request to a collector.
const REQUEST: &str =
    "POST /wsman/SubscriptionManager/WEC HTTP/1.1\\r\\nHost: collector\\r\\nContent-Type: application/soap+xml;charset=UTF-8\\r\\nContent-Length: 0\\r\\n\\r\\n";

/// The head of a good response.
const RESPONSE: &str =
    "HTTP/1.1 200 OK\\r\\nContent-Type: application/soap+xml;charset=UTF-8\\r\\nContent-Length: 0\\r\\n\\r\\n";

/// What is found in the request with these edits.
pub(crate) fn push_request(shown: &mut Text, side: Side, edits: &str) -> Result<(), AllocError> {
    let bytes = edited_from(shown.alloc(), REQUEST, edits)?;
    push_found(shown, side, bytes.as_slice())?;
    push_differences(shown, Reading::Requests(side), bytes.as_slice())
}

/// What is found in the bytes that a line spells.
pub(crate) fn push_bytes(shown: &mut Text, line: &str) -> Result<(), AllocError> {
    let bytes = unescaped(shown.alloc(), line)?;
    push_found(shown, Side::Collector, bytes.as_slice())?;
    push_differences(shown, Reading::Requests(Side::Collector), bytes.as_slice())
}

/// What bytes begin with that are sent to an end.
pub(crate) fn push_found(shown: &mut Text, side: Side, bytes: &[u8]) -> Result<(), AllocError> {
    match find_request_head(shown.alloc(), side, bytes) {
        Ok(Found::Whole(plan, length)) => {
            push_request_plan(shown, &plan)?;
            push_rest(shown, bytes, length)
        }
        Ok(Found::Partial) => shown.push_str("a part of a head"),
        Err(end) => push_end(shown, end),
    }
}

/// What is found in the response with these edits.
pub(crate) fn push_response(shown: &mut Text, edits: &str) -> Result<(), AllocError> {
    let bytes = edited_from(shown.alloc(), RESPONSE, edits)?;
    push_answer(shown, bytes.as_slice())?;
    push_differences(shown, Reading::Response, bytes.as_slice())
}

/// What bytes begin with that answer a request.
fn push_answer(shown: &mut Text, bytes: &[u8]) -> Result<(), AllocError> {
    match find_response_head(shown.alloc(), bytes) {
        Ok(Found::Whole(plan, length)) => {
            push_response_plan(shown, plan)?;
            push_rest(shown, bytes, length)
        }
        Ok(Found::Partial) => shown.push_str("a part of a head"),
        Err(end) => push_end(shown, end),
    }
}
