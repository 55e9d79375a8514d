//! The addresses that batches go to.

use std::alloc::{AllocError, Global};
use wef_base::{SourceName, SubId, Text, ValueFault};
use wef_eventing::{delivery_address, source_in, subscription_in};

/// The address of `HOST, SUBSCRIPTION, SOURCE`, and where that leads.
pub(crate) fn push_named(shown: &mut Text, row: &str) -> Result<(), ValueFault> {
    let (host, names) = row.split_once(", ").ok_or(ValueFault::BadName)?;
    let (sub, source) = names.split_once(", ").ok_or(ValueFault::BadName)?;
    push_parts(shown, host, sub, source)
}

fn push_parts(shown: &mut Text, host: &str, sub: &str, source: &str) -> Result<(), ValueFault> {
    let sub = sub_of(shown.alloc(), sub)?;
    push_sub(shown, host, &sub, source)
}

fn push_sub(shown: &mut Text, host: &str, sub: &SubId, source: &str) -> Result<(), ValueFault> {
    let source = source_of(shown.alloc(), source)?;
    Ok(push_to(shown, host, sub, &source)?)
}

fn sub_of(alloc: Global, word: &str) -> Result<SubId, ValueFault> {
    SubId::read(&Text::from_str(alloc, word)?)
}

fn source_of(alloc: Global, word: &str) -> Result<SourceName, ValueFault> {
    SourceName::read(&Text::from_str(alloc, word)?)
}

fn push_to(
    shown: &mut Text,
    host: &str,
    sub: &SubId,
    source: &SourceName,
) -> Result<(), AllocError> {
    let address = delivery_address(&Text::from_str(shown.alloc(), host)?, sub, source)?;
    push_led(shown, &address)
}

fn push_led(shown: &mut Text, address: &Text) -> Result<(), AllocError> {
    shown.push_str(address.as_str())?;
    shown.push_str(" for ")?;
    push_ends(shown, address)
}

/// The subscription and the source that an address leads to.
pub(crate) fn push_address(shown: &mut Text, line: &str) -> Result<(), AllocError> {
    let address = Text::from_str(shown.alloc(), line)?;
    push_ends(shown, &address)
}

fn push_ends(shown: &mut Text, address: &Text) -> Result<(), AllocError> {
    push_subscription(shown, address)?;
    push_source(shown, address)
}

fn push_subscription(shown: &mut Text, address: &Text) -> Result<(), AllocError> {
    let sub = subscription_in(address)?;
    match &sub {
        Some(sub) => push_name(shown, "subscription ", sub.as_text()),
        None => shown.push_str("no subscription"),
    }
}

fn push_source(shown: &mut Text, address: &Text) -> Result<(), AllocError> {
    let source = source_in(address)?;
    match &source {
        Some(source) => push_name(shown, ", source ", source.as_text()),
        None => shown.push_str(", no source"),
    }
}

fn push_name(shown: &mut Text, before: &str, name: &Text) -> Result<(), AllocError> {
    shown.push_str(before)?;
    shown.push_str(name.as_str())
}
