//! What a collector takes, over any store.

ghost use Rattle.std.specs.Prelude.{◌≡◌, ◌<◌, true, length, IfOk};
ghost use Rattle.wef_batch.specs.Numbers.{AreNumbered, IsNumbered};
ghost use Rattle.wef_eventing.specs.Subscriptions.{IsAllEvents};

use crate::steps;
use std::alloc::{AllocError, Global};
use wef_base::numbers::MAX;
use wef_base::{ChannelName, List, Moment, SourceName, SubId, Text};
use wef_batch::{Batch, Item};
use wef_collector::Collector;
use wef_documents::all_events_read_back;
use wef_eventing::Subscription;
use wef_keeper::Keeper;
use wef_replay::{Line, read_schedule};

/// Has steps done by a store, or by a collector over it where they begin with `collector `. Hands the store
/// back.
pub(crate) fn push_over<K: Keeper>(
    shown: &mut Text,
    keeper: K,
    steps: &str,
) -> (K, Result<(), AllocError>) {
    if let Some(steps) = steps.strip_prefix("collector ") {
        return push_taken(shown, keeper, steps);
    }
    let mut keeper = keeper;
    let pushed = steps::push_steps(shown, &mut keeper, steps);
    (keeper, pushed)
}

/// Has a collector over a store do steps with `; ` between them, and appends what comes of each: `add NAME
/// CHANNEL..`, `batch ..` as a line of a schedule has it, and `show`.
fn push_taken<K: Keeper>(shown: &mut Text, keeper: K, steps: &str) -> (K, Result<(), AllocError>) {
    match Collector::start(shown.alloc(), keeper) {
        Ok(collector) => {
            let mut collector = collector;
            let pushed = push_steps(shown, &mut collector, steps);
            (collector.into_keeper(), pushed)
        }
        Err((keeper, _)) => (keeper, shown.push_str("not started")),
    }
}

fn push_steps<K: Keeper>(
    shown: &mut Text,
    collector: &mut Collector<K>,
    steps: &str,
) -> Result<(), AllocError> {
    for (place, step) in steps.split("; ").enumerate() {
        shown.push_str(if place > 0 { "; " } else { "" })?;
        push_step(shown, collector, step)?;
    }
    Ok(())
}

fn push_step<K: Keeper>(
    shown: &mut Text,
    collector: &mut Collector<K>,
    step: &str,
) -> Result<(), AllocError> {
    if let Some(names) = step.strip_prefix("add ") {
        let subscription = subscription_of(shown.alloc(), names)?;
        return push_added(shown, collector, &subscription);
    }
    if step == "show" {
        return push_report(shown, collector);
    }
    push_batch(shown, collector, step)
}

fn push_added<K: Keeper>(
    shown: &mut Text,
    collector: &mut Collector<K>,
    subscription: &Subscription,
) -> Result<(), AllocError>
    requires { IsAllEvents subscription.now }
{
    all_events_read_back(subscription);
    match collector.add(subscription) {
        Ok(()) => shown.push_str("added"),
        Err(_) => shown.push_str("not added"),
    }
}

/// A subscription to all events of channels: its name, and theirs, parted by spaces.
fn subscription_of(alloc: Global, names: &str) -> Result<Subscription, AllocError>
    ensures { IfOk result IsAllEvents }
{
    let (name, channels) = names.split_once(' ').unwrap_or((names, ""));
    let name = SubId::read(&Text::from_str(alloc, name)?).map_err(|_| AllocError)?;
    Subscription::all_events(name, channels_of(alloc, channels)?, 20, 512_000, 900_000)
}

fn channels_of(alloc: Global, names: &str) -> Result<List<ChannelName>, AllocError>
    ensures { IfOk result (λ channels. 0 < length channels) }
{
    let mut channels = List::new(alloc);
    let (first, more) = names.split_once(' ').unwrap_or((names, ""));
    if !more.is_empty() {
        channels.push(channel_of(alloc, more)?)?;
    }
    channels.push(channel_of(alloc, first)?)?;
    Ok(channels)
}

fn channel_of(alloc: Global, name: &str) -> Result<ChannelName, AllocError> {
    ChannelName::read(&Text::from_str(alloc, name)?).map_err(|_| AllocError)
}

fn push_report<K: Keeper>(
    shown: &mut Text,
    collector: &mut Collector<K>,
) -> Result<(), AllocError> {
    match collector.report() {
        Ok(report) => push_lines(shown, report.as_str()),
        Err(_) => shown.push_str("no report"),
    }
}

fn push_lines(shown: &mut Text, report: &str) -> Result<(), AllocError> {
    for (place, line) in report.lines().enumerate() {
        shown.push_str(if place > 0 { " | " } else { "" })?;
        shown.push_str(line.trim_start())?;
    }
    Ok(())
}

fn push_batch<K: Keeper>(
    shown: &mut Text,
    collector: &mut Collector<K>,
    line: &str,
) -> Result<(), AllocError> {
    let alloc = shown.alloc();
    let lines = read_schedule(alloc, line.as_bytes()).map_err(|_| AllocError)?;
    match lines.as_slice() {
        [Line::Batch { sub, source, batch }] => {
            push_answer(shown, collector, sub, source, &batch.to_batch(alloc)?)
        }
        _ => shown.push_str("no batch"),
    }
}

fn push_answer<K: Keeper>(
    shown: &mut Text,
    collector: &mut Collector<K>,
    sub: &SubId,
    source: &SourceName,
    batch: &Batch,
) -> Result<(), AllocError> {
    // A schedule's numbers are within their limit; this test shows it to the call.
    if !are_within(batch.items.as_slice()) {
        return shown.push_str("no batch");
    }
    match collector.take(sub, source, batch, Moment::first()) {
        Ok(()) if batch.ack_wanted => shown.push_str("ack"),
        Ok(()) => shown.push_str("quiet"),
        Err(fault) => {
            let told = format!(in shown.alloc(); "{fault}")?;
            shown.push_str(told.as_str())
        }
    }
}

fn are_within(items: &[Item]) -> bool
    ensures { result ≡ true → AreNumbered items.now }
{
    for item in items {
        if !is_within(item) {
            return false;
        }
    }
    true
}

fn is_within(item: &Item) -> bool
    ensures { result ≡ true → IsNumbered item.now }
{
    match item {
        Item::Event(_) | Item::Loose { count: _ } => true,
        Item::Dropped {
            channel: _,
            first,
            last,
        } => *first <= MAX && *last <= MAX,
    }
}
