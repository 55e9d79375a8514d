//! What is told of a message.

use std::alloc::AllocError;
use tests_tasks::escapes::escaped;
use wef_base::{Charset, Text};
use wef_http_heads::{Framing, HttpEnd, RequestPlan, ResponsePlan, Target};

/// The plan of a request.
pub(crate) fn push_request_plan(shown: &mut Text, plan: &RequestPlan) -> Result<(), AllocError> {
    push_target(shown, &plan.target)?;
    shown.push_str(" at ")?;
    shown.push_str(plan.host.as_str())?;
    push_charset(shown, plan.charset)?;
    shown.push_str(if plan.keep { ", keeps" } else { ", closes" })?;
    push_framing(shown, plan.framing)
}

/// The plan of a response.
pub(crate) fn push_response_plan(shown: &mut Text, plan: ResponsePlan) -> Result<(), AllocError> {
    shown.push_number(u64::from(plan.status))?;
    push_charset(shown, plan.charset)?;
    push_framing(shown, plan.framing)
}

/// What a request is for.
pub(crate) fn push_target(shown: &mut Text, target: &Target) -> Result<(), AllocError> {
    match target {
        Target::Manager => shown.push_str("manager"),
        Target::Delivery { sub, source } => {
            shown.push_str("delivery ")?;
            shown.push_str(escaped(sub)?.as_str())?;
            shown.push_str(" of ")?;
            shown.push_str(escaped(source)?.as_str())
        }
        Target::Root => shown.push_str("root"),
    }
}

pub(crate) fn push_charset(shown: &mut Text, charset: Charset) -> Result<(), AllocError> {
    shown.push_str(match charset {
        Charset::Utf8 => ", UTF-8",
        Charset::Utf16 => ", UTF-16",
    })
}

fn push_framing(shown: &mut Text, framing: Framing) -> Result<(), AllocError> {
    match framing {
        Framing::Length(length) => {
            shown.push_str(", length ")?;
            shown.push_number(length as u64)
        }
        Framing::Chunks => shown.push_str(", chunks"),
    }
}

/// How many bytes follow a head of this length.
pub(crate) fn push_rest(shown: &mut Text, bytes: &[u8], length: usize) -> Result<(), AllocError> {
    shown.push_str(", then ")?;
    shown.push_number(bytes.len().saturating_sub(length) as u64)
}

/// Why there is no message, with the status of the response that says so.
pub(crate) fn push_end(shown: &mut Text, end: HttpEnd) -> Result<(), AllocError> {
    if end == HttpEnd::NoMemory {
        return Err(AllocError);
    }
    if let Some(status) = end.status() {
        shown.push_number(u64::from(status))?;
        shown.push_str(" ")?;
    }
    shown.push_str(end.to_string(shown.alloc())?.as_str())
}
