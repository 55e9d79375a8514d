//! What the program prints.

use crate::runs::{none, ran_on};
use std::alloc::{AllocError, Global};
use tests_collectors::sources::written;
use tests_exchanges::numbered::list_of;
use tests_exchanges::replies::push_escaped;
use tests_exchanges::responses::response_of;
use tests_runs::outcomes::Outcome;
use wef_base::{List, Text};
use wef_connections::{MemConnection, MemLink};

/// What a command prints over the store of the source, which has written an event, and over a link that
/// brings the responses that stand behind the command, each behind ` then `.
pub(crate) fn push_ran(shown: &mut Text, line: &str) -> Result<(), AllocError> {
    let (command, responses) = line.split_once(" then ").unwrap_or((line, ""));
    let mut link = link_of(shown.alloc(), responses)?;
    push_run(shown, command, &mut link)
}

fn link_of(alloc: Global, line: &str) -> Result<MemLink, AllocError> {
    failing_link_of(alloc, line, 0)
}

/// A link that brings the responses of a line, each behind ` then `, of which the call of a number fails.
pub(crate) fn failing_link_of(alloc: Global, line: &str, call: u64) -> Result<MemLink, AllocError> {
    let responses = responses_of(alloc, line)?;
    Ok(MemLink::of(alloc, responses, list_of(alloc, call)?))
}

fn responses_of(alloc: Global, line: &str) -> Result<List<MemConnection>, AllocError> {
    let mut responses = List::new(alloc);
    for response in line.split(" then ") {
        responses.push(response_of(alloc, response)?)?;
    }
    Ok(responses)
}

fn push_run(shown: &mut Text, command: &str, link: &mut MemLink) -> Result<(), AllocError> {
    let told = told(shown.alloc(), command, link)?;
    push_told(shown, &told)?;
    shown.push_str("; connections ")?;
    shown.push_number(link.addresses().len() as u64)
}

fn told(alloc: Global, command: &str, link: &mut MemLink) -> Result<Outcome, AllocError> {
    let mut keeper = written(alloc)?.into_keeper();
    ran_on(alloc, &mut keeper, command, &mut none(alloc), link, 0)
}

/// Appends how a run ended, what it printed, and what it told.
pub(crate) fn push_told(shown: &mut Text, told: &Outcome) -> Result<(), AllocError> {
    shown.push_number(u64::from(told.status))?;
    shown.push_str(" ")?;
    push_escaped(shown, told.out.taken())?;
    shown.push_str(" ")?;
    push_escaped(shown, told.err.taken())
}
