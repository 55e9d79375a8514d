//! Runs of `request`, and how they are shown.

use crate::commands::{failing_link_of, push_told};
use crate::runs::{none, ran_on};
use std::alloc::{AllocError, Global};
use tests_exchanges::numbered::{list_of, push_numbered};
use tests_runs::outcomes::ran_over;
use wef_base::{Moment, Text};
use wef_keeper::MemKeeper;

/// A subscription that the collector begins at the source `pc1`, for a minute.
const DOCUMENT: &str =
    "<Subscription xmlns=\"http://schemas.microsoft.com/2006/03/windows/events/subscription\"><SubscriptionId>link</SubscriptionId><SubscriptionType>CollectorInitiated</SubscriptionType><Expires>PT60S</Expires><Query><QueryList><Query><Select Path=\"application\">*</Select></Query></QueryList></Query><EventSources><EventSource><Address>pc1</Address></EventSource></EventSources></Subscription>";

/// What tells whether a lease is kept: where one is, nothing is due yet.
const AGAIN: &str = "request collector:5985 1";

/// What a command prints over the store of a collector with the subscription, and over a link that brings the
/// responses behind the command, where the call of a number of the link fails; and what the collector asks
/// behind it where nobody answers.
pub(crate) fn push_requested(shown: &mut Text, line: &str, call: u64) -> Result<(), AllocError> {
    let alloc = shown.alloc();
    let (command, responses) = line.split_once(" then ").unwrap_or((line, "nothing"));
    let mut keeper = subscribed(alloc)?;
    let mut link = failing_link_of(alloc, responses, call)?;
    push_told(
        shown,
        &ran_on(alloc, &mut keeper, command, &mut none(alloc), &mut link, 0)?,
    )?;
    shown.push_str("; connections ")?;
    shown.push_number(link.addresses().len() as u64)?;
    shown.push_str("; then ")?;
    push_again(shown, &mut keeper)
}

/// The same where one call of the link fails, for the first calls of all.
pub(crate) fn push_broken(shown: &mut Text, line: &str) -> Result<(), AllocError> {
    for call in 1..4 {
        push_numbered(shown, call)?;
        push_requested(shown, line, call)?;
    }
    Ok(())
}

fn push_again(shown: &mut Text, keeper: &mut MemKeeper) -> Result<(), AllocError> {
    let alloc = shown.alloc();
    let told = ran_on(alloc, keeper, AGAIN, &mut none(alloc), &mut none(alloc), 0)?;
    push_told(shown, &told)
}

/// The store of a collector to which the document was added.
fn subscribed(alloc: Global) -> Result<MemKeeper, AllocError> {
    let keeper = MemKeeper::new(alloc);
    let (reads, writes) = (list_of(alloc, 0)?, list_of(alloc, 0)?);
    let now = Moment::first();
    let (keeper, told) = ran_over(
        alloc,
        "add",
        keeper,
        DOCUMENT.as_bytes(),
        reads,
        writes,
        now,
    )?;
    drop(told);
    Ok(keeper)
}
