//! Which source the collector is to ask next for a subscription that it begins.

ghost use Rattle.wef_keeper.specs.Forms.{AreWithin};

use crate::leases::{cut, cut_number, moment};
use std::alloc::{AllocError, Global};
use wef_base::numbers::MAX;
use wef_base::{List, SourceName, SubId, Text};
use wef_collector_leases::next::next_due;
use wef_collector_leases::{Due, Waiting, WaitingList, Wants};
use wef_collector_rows::keys::{lease_key, subscription_key};
use wef_keeper::access::open;
use wef_keeper::{Change, Keeper, MemKeeper, Row, StoreFault};

/// Appends what is due after the rows and the requests that steps put, wherever one of them asks.
pub(crate) fn push_pairs(shown: &mut Text, line: &str) -> Result<(), AllocError> {
    let alloc = shown.alloc();
    let mut keeper = MemKeeper::new(alloc);
    let mut waiting = WaitingList::new(alloc);
    push_steps(shown, &mut keeper, &mut waiting, line)
}

fn push_steps(
    shown: &mut Text,
    keeper: &mut MemKeeper,
    waiting: &mut WaitingList,
    line: &str,
) -> Result<(), AllocError> {
    let mut is_first = true;
    for step in line.split("; ") {
        let (call, rest) = cut(step);
        if call == "due" {
            if !is_first {
                shown.push_str("; ")?;
            }
            push_due(shown, keeper, waiting, cut_number(rest).0)?;
            is_first = false;
        } else {
            put(shown.alloc(), keeper, waiting, call, rest)?;
        }
    }
    Ok(())
}

/// Puts what a step says.
fn put(
    alloc: Global,
    keeper: &mut MemKeeper,
    waiting: &mut WaitingList,
    call: &str,
    rest: &str,
) -> Result<(), AllocError> {
    match call {
        "live" => put_subscription(alloc, keeper, 0, "CollectorInitiated", rest),
        "ended" => put_subscription(alloc, keeper, 1, "CollectorInitiated", rest),
        "offered" => put_subscription(alloc, keeper, 0, "SourceInitiated", rest),
        "lease" => put_lease(alloc, keeper, rest),
        _ => put_waiting(alloc, waiting, rest),
    }
}

pub fn subscription(alloc: Global, name: &str) -> Result<SubId, AllocError> {
    match SubId::named(&Text::from_str(alloc, name)?)? {
        Some(sub) => Ok(sub),
        None => Err(AllocError),
    }
}

pub fn source(alloc: Global, name: &str) -> Result<SourceName, AllocError> {
    match SourceName::named(&Text::from_str(alloc, name)?)? {
        Some(source) => Ok(source),
        None => Err(AllocError),
    }
}

/// Puts the row of a subscription `NAME SECONDS SOURCES`, with a comma between two sources.
pub fn put_subscription(
    alloc: Global,
    keeper: &mut MemKeeper,
    value: u64,
    kind: &str,
    line: &str,
) -> Result<(), AllocError> {
    let (name, rest) = cut(line);
    let (seconds, sources) = cut(rest);
    let key = subscription_key(&subscription(alloc, name)?)?;
    let body = document(alloc, name, kind, seconds, sources)?;
    let mut changes = List::new(alloc);
    changes.push(Change::Put(Row {
        key,
        value: value.min(MAX),
        body,
    }))?;
    done(keeper, &changes)
}

pub fn done(keeper: &mut MemKeeper, changes: &List<Change>) -> Result<(), AllocError>
    requires { AreWithin changes.now }
{
    match keeper.commit(changes) {
        Ok(()) => Ok(()),
        Err(_) => Err(AllocError),
    }
}

/// A document of Windows for a subscription.
pub(crate) fn document(
    alloc: Global,
    name: &str,
    kind: &str,
    seconds: &str,
    sources: &str,
) -> Result<Text, AllocError> {
    let mut document = Text::from_str(
        alloc,
        "<Subscription xmlns=\"http://schemas.microsoft.com/2006/03/windows/events/subscription\"><SubscriptionId>",
    )?;
    document.push_str(name)?;
    document.push_str("</SubscriptionId><SubscriptionType>")?;
    document.push_str(kind)?;
    document.push_str("</SubscriptionType><Expires>PT")?;
    document.push_str(seconds)?;
    document.push_str(
        "S</Expires><Query><QueryList><Query><Select Path=\"application\">*</Select></Query></QueryList></Query><EventSources>",
    )?;
    for source in sources.split(',') {
        document.push_str("<EventSource><Address>")?;
        document.push_str(source)?;
        document.push_str("</Address></EventSource>")?;
    }
    document.push_str("</EventSources></Subscription>")?;
    Ok(document)
}

/// Puts the row of a lease `NAME SOURCE END IDENTIFIER`.
fn put_lease(alloc: Global, keeper: &mut MemKeeper, line: &str) -> Result<(), AllocError> {
    let (name, rest) = cut(line);
    let (at, rest) = cut(rest);
    let (expiry, identifier) = cut_number(rest);
    let (sub, source) = (subscription(alloc, name)?, source(alloc, at)?);
    let key = lease_key(sub.as_text(), source.as_text())?;
    let body = Text::from_str(alloc, identifier)?;
    let mut changes = List::new(alloc);
    changes.push(Change::Put(Row {
        key,
        value: expiry.min(MAX),
        body,
    }))?;
    done(keeper, &changes)
}

/// Puts a request that waits, for `NAME SOURCE`.
fn put_waiting(alloc: Global, waiting: &mut WaitingList, line: &str) -> Result<(), AllocError> {
    let (name, rest) = cut(line);
    let (at, _) = cut(rest);
    waiting.put(Waiting {
        sub: subscription(alloc, name)?,
        source: source(alloc, at)?,
        id: 1,
        wants: Wants::Subscribes,
    })
}

fn push_due(
    shown: &mut Text,
    keeper: &mut MemKeeper,
    waiting: &WaitingList,
    at: u64,
) -> Result<(), AllocError> {
    if open(keeper).is_err() {
        return Err(AllocError);
    }
    match next_due(keeper, shown.alloc(), waiting, moment(at)) {
        Ok(Some(due)) => push_wanted(shown, &due),
        Ok(None) => shown.push_str("nothing"),
        Err(StoreFault::NoMemory) => Err(AllocError),
        Err(StoreFault::Failed) => shown.push_str("failed"),
    }
}

fn push_wanted(shown: &mut Text, due: &Due) -> Result<(), AllocError> {
    let identifier = match &due.wants {
        Wants::Subscribes => {
            shown.push_str("subscribe")?;
            None
        }
        Wants::Renews { identifier } => {
            shown.push_str("renew ")?;
            Some(identifier)
        }
        Wants::Unsubscribes { identifier } => {
            shown.push_str("unsubscribe ")?;
            Some(identifier)
        }
    };
    if let Some(identifier) = identifier {
        shown.push_str(identifier.as_str())?;
    }
    shown.push_str(" of ")?;
    shown.push_str(due.subscription.name.as_text().as_str())?;
    shown.push_str(" at ")?;
    shown.push_str(due.source.name.as_text().as_str())
}
