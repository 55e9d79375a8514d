//! The report of all that is kept, as text.

ghost use Rattle.std.specs.List.{flat_map, list_all};
ghost use Rattle.std.specs.Prelude.{◌≡◌, [], ◌++◌, true, List, map, IfOk, IfSome, OnOk};
ghost use Rattle.wef_collector_reports.specs.Judged as judged;
ghost use Rattle.wef_collector_reports.specs.Report as spec;
ghost use Rattle.wef_collector_reports.specs.Runs.{runs_from, runs_of, runs_text};
ghost use Rattle.wef_collector_rows.specs.Forms.{AreFormed};
ghost use Rattle.wef_collector_rows.specs.Held as held;
ghost use Rattle.wef_collector_rows.specs.Judged.{AreAllFormed};
ghost use Rattle.wef_keeper.specs.Access as access;
ghost use Rattle.wef_keeper.specs.Sections.{rows_under};
ghost use Rattle.wef_keeper.specs.declared.keys.Row as the_row;
ghost use Rattle.wef_query.specs.Order.{with_names};

use crate::listing::subscription_rows;
use crate::runs::{RunWriter, Span};
use std::alloc::{AllocError, Global};
use std::collections::BTreeSet;
use wef_base::{List, Text};
use wef_collector_rows::CollectorForm;
use wef_collector_rows::bookmarks::bookmark_rows;
use wef_collector_rows::keys::{
    all_bookmarks_start, all_heard_start, held_key, loose_key, mark_key,
};
use wef_keeper::access::PAGE;
use wef_keeper::forms::{formed_page, formed_section};
use wef_keeper::{Depth, Keeper, Key, Row, StoreFault};

/// The report of the rows.
#[tactic(auto, unfolding(crate::specs::Report::report))]
pub fn report<K: Keeper>(keeper: &mut K, alloc: Global) -> Result<Text, StoreFault>
    requires { access.IsReady (K.store keeper.old) }
    ensures text { IfSome (K.store keeper.new).rows (λ rows. IfOk result (λ text. text ≡ spec.report rows)) }
    ensures judged { IfSome (K.store keeper.new).rows (λ rows. OnOk result (judged.is_report_formed rows ≡ true)) }
    ensures reads { access.Reads AreFormed (access.fails result) (K.store keeper.old) (K.store keeper.new) }
{
    let subscriptions = subscription_rows(keeper, alloc)?;
    let mut text = Text::new(alloc);
    push_subscriptions(&mut text, keeper, subscriptions.as_slice())?;
    text.push_str("end\n")?;
    Ok(text)
}

fn push_subscriptions<K: Keeper>(
    text: &mut Text,
    keeper: &mut K,
    subscriptions: &[Row],
) -> Result<(), StoreFault>
    requires { access.IsReady (K.store keeper.old) }
    ensures text { IfSome (K.store keeper.new).rows (λ rows. OnOk result (text.new ≡ text.old ++ flat_map (spec.subscription_report rows) subscriptions.now)) }
    ensures judged { IfSome (K.store keeper.new).rows (λ rows. OnOk result (list_all (judged.is_subscription_formed rows) subscriptions.now ≡ true)) }
    ensures reads { access.Reads AreFormed (access.fails result) (K.store keeper.old) (K.store keeper.new) }
{
    for row in subscriptions {
        push_subscription(text, keeper, row)?;
    }
    Ok(())
}

fn push_subscription<K: Keeper>(
    text: &mut Text,
    keeper: &mut K,
    row: &Row,
) -> Result<(), StoreFault>
    requires { access.IsReady (K.store keeper.old) }
    ensures text { IfSome (K.store keeper.new).rows (λ rows. OnOk result (text.new ≡ text.old ++ spec.subscription_report rows row.now)) }
    ensures judged { IfSome (K.store keeper.new).rows (λ rows. OnOk result (judged.is_subscription_formed rows row.now ≡ true)) }
    ensures reads { access.Reads AreFormed (access.fails result) (K.store keeper.old) (K.store keeper.new) }
{
    push_subscription_line(text, &row.key.sub, row.value)?;
    let sources = sources_of(keeper, &row.key.sub)?;
    push_sources(text, keeper, &row.key.sub, sources.as_slice())
}

fn push_sources<K: Keeper>(
    text: &mut Text,
    keeper: &mut K,
    sub: &Text,
    sources: &[Text],
) -> Result<(), StoreFault>
    requires { access.IsReady (K.store keeper.old) }
    ensures text { IfSome (K.store keeper.new).rows (λ rows. OnOk result (text.new ≡ text.old ++ flat_map (spec.source_report rows sub.now) sources.now)) }
    ensures judged { IfSome (K.store keeper.new).rows (λ rows. OnOk result (list_all (judged.is_source_formed rows sub.now) sources.now ≡ true)) }
    ensures reads { access.Reads AreFormed (access.fails result) (K.store keeper.old) (K.store keeper.new) }
{
    for source in sources {
        push_source(text, keeper, sub, source)?;
    }
    Ok(())
}

#[tactic(auto, unfolding(crate::specs::Report::subscription_line))]
fn push_subscription_line(text: &mut Text, sub: &Text, value: u64) -> Result<(), AllocError>
    ensures { OnOk result (text.new ≡ text.old ++ spec.subscription_line sub.now value) }
{
    text.push_str("subscription ")?;
    text.push_printed(sub)?;
    push_state(text, value)?;
    text.push_str("\n")?;
    Ok(())
}

/// Whether a subscription is live.
#[tactic(auto, unfolding(crate::specs::Report::state_text))]
fn push_state(text: &mut Text, value: u64) -> Result<(), AllocError>
    ensures { OnOk result (text.new ≡ text.old ++ spec.state_text value) }
{
    if value == 0 {
        text.push_str(" live")
    } else {
        text.push_str(" ended")
    }
}

/// The sources of a subscription that have a bookmark or were heard, each once, in order.
fn sources_of<K: Keeper>(keeper: &mut K, sub: &Text) -> Result<List<Text>, StoreFault>
    requires { access.IsReady (K.store keeper.old) }
    ensures sources { IfSome (K.store keeper.new).rows (λ rows. IfOk result (λ sources. sources ≡ spec.sources_of rows sub.now)) }
    ensures judged { IfSome (K.store keeper.new).rows (λ rows. OnOk result (AreAllFormed (spec.served_rows rows sub.now) × AreAllFormed (spec.heard_rows rows sub.now))) }
    ensures reads { access.Reads AreFormed (access.fails result) (K.store keeper.old) (K.store keeper.new) }
{
    let served = rows_behind(keeper, &all_bookmarks_start(sub)?)?;
    let heard = rows_behind(keeper, &all_heard_start(sub)?)?;
    Ok(sources_in(sub.alloc(), served.as_slice(), heard.as_slice())?)
}

/// The rows of a subscription behind a key, of the key's kind.
fn rows_behind<K: Keeper>(keeper: &mut K, start: &Key) -> Result<List<Row>, StoreFault>
    requires { access.IsReady (K.store keeper.old) }
    ensures rows { IfSome (K.store keeper.new).rows (λ rows. IfOk result (λ behind. behind ≡ rows_under Depth.Sub start.now rows)) }
    ensures judged { IfSome (K.store keeper.new).rows (λ rows. OnOk result (AreAllFormed (rows_under Depth.Sub start.now rows))) }
    ensures reads { access.Reads AreFormed (access.fails result) (K.store keeper.old) (K.store keeper.new) }
{
    formed_section::<CollectorForm, K>(keeper, start, Depth::Sub)
}

/// The sources of rows, each once, in order.
#[tactic(auto, using(crate::proofs::Sources::with_names_join))]
fn sources_in(alloc: Global, served: &[Row], heard: &[Row]) -> Result<List<Text>, AllocError>
    ensures { IfOk result (λ sources. sources ≡ spec.sources_in served.now heard.now) }
{
    let mut sources = BTreeSet::new(alloc);
    add_sources(&mut sources, served)?;
    add_sources(&mut sources, heard)?;
    Ok(List::from(sources.into_iter().collect::<Vec<Text>>(alloc)?))
}

fn add_sources(sources: &mut BTreeSet<Text>, rows: &[Row]) -> Result<(), AllocError>
    ensures { OnOk result (sources.new.keys ≡ with_names sources.old.keys (map (λ (row : the_row.Row). row.key.source) rows.now)) }
{
    for row in rows {
        sources.insert(row.key.source.clone()?)?;
    }
    Ok(())
}

fn push_source<K: Keeper>(
    text: &mut Text,
    keeper: &mut K,
    sub: &Text,
    source: &Text,
) -> Result<(), StoreFault>
    requires { access.IsReady (K.store keeper.old) }
    ensures text { IfSome (K.store keeper.new).rows (λ rows. OnOk result (text.new ≡ text.old ++ spec.source_report rows sub.now source.now)) }
    ensures judged { IfSome (K.store keeper.new).rows (λ rows. OnOk result (judged.is_source_formed rows sub.now source.now ≡ true)) }
    ensures reads { access.Reads AreFormed (access.fails result) (K.store keeper.old) (K.store keeper.new) }
{
    push_source_line(text, source)?;
    let channels = bookmark_rows(keeper, sub, source)?;
    push_channels(text, keeper, sub, source, channels.as_slice())
}

fn push_channels<K: Keeper>(
    text: &mut Text,
    keeper: &mut K,
    sub: &Text,
    source: &Text,
    channels: &[Row],
) -> Result<(), StoreFault>
    requires { access.IsReady (K.store keeper.old) }
    ensures text { IfSome (K.store keeper.new).rows (λ rows. OnOk result (text.new ≡ text.old ++ flat_map (spec.channel_report rows sub.now source.now) channels.now)) }
    ensures judged { IfSome (K.store keeper.new).rows (λ rows. OnOk result (list_all (judged.is_channel_formed rows sub.now source.now) channels.now ≡ true)) }
    ensures reads { access.Reads AreFormed (access.fails result) (K.store keeper.old) (K.store keeper.new) }
{
    for row in channels {
        push_channel(text, keeper, sub, source, row)?;
    }
    Ok(())
}

#[tactic(auto, unfolding(crate::specs::Report::source_line))]
fn push_source_line(text: &mut Text, source: &Text) -> Result<(), AllocError>
    ensures { OnOk result (text.new ≡ text.old ++ spec.source_line source.now) }
{
    text.push_str(" source ")?;
    text.push_printed(source)?;
    text.push_str("\n")
}

fn push_channel<K: Keeper>(
    text: &mut Text,
    keeper: &mut K,
    sub: &Text,
    source: &Text,
    row: &Row,
) -> Result<(), StoreFault>
    requires { access.IsReady (K.store keeper.old) }
    ensures text { IfSome (K.store keeper.new).rows (λ rows. OnOk result (text.new ≡ text.old ++ spec.channel_report rows sub.now source.now row.now)) }
    ensures judged { IfSome (K.store keeper.new).rows (λ rows. OnOk result (judged.is_channel_formed rows sub.now source.now row.now ≡ true)) }
    ensures reads { access.Reads AreFormed (access.fails result) (K.store keeper.old) (K.store keeper.new) }
{
    let channel = &row.key.channel;
    push_channel_line(text, channel, row.value)?;
    push_runs(text, keeper, sub, source, channel, Spans::Held)?;
    push_runs(text, keeper, sub, source, channel, Spans::Marks)?;
    let loose = loose_rows(keeper, sub, source, channel)?;
    Ok(push_loose_lines(text, loose.as_slice())?)
}

#[tactic(auto, unfolding(crate::specs::Report::channel_line))]
fn push_channel_line(text: &mut Text, channel: &Text, bookmark: u64) -> Result<(), AllocError>
    ensures { OnOk result (text.new ≡ text.old ++ spec.channel_line channel.now bookmark) }
{
    text.push_str("  channel ")?;
    text.push_printed(channel)?;
    text.push_str(" bookmark ")?;
    text.push_number(bookmark)?;
    text.push_str("\n")?;
    Ok(())
}

/// The line of the runs of what is held of a channel, or of its marks. None where there is no row.
fn push_runs<K: Keeper>(
    text: &mut Text,
    keeper: &mut K,
    sub: &Text,
    source: &Text,
    channel: &Text,
    spans: Spans,
) -> Result<(), StoreFault>
    requires { access.IsReady (K.store keeper.old) }
    ensures text { IfSome (K.store keeper.new).rows (λ rows. OnOk result (text.new ≡ text.old ++ spec.runs_line spans rows sub.now source.now channel.now)) }
    ensures judged { IfSome (K.store keeper.new).rows (λ rows. OnOk result (AreAllFormed (rows_under Depth.Channel (spec.start_of spans sub.now source.now channel.now) rows))) }
    ensures reads { access.Reads AreFormed (access.fails result) (K.store keeper.old) (K.store keeper.new) }
{
    let start = spans.start(sub, source, channel)?;
    let runs = runs_behind(keeper, start, spans)?;
    push_labelled(text, spans.label(), &runs)?;
    Ok(())
}

fn push_labelled(text: &mut Text, label: &str, runs: &Text) -> Result<(), AllocError>
    ensures { OnOk result (text.new ≡ text.old ++ spec.labelled label.now runs.now) }
{
    if runs.is_empty() {
        return Ok(());
    }
    text.push_str(label)?;
    text.push_str(runs.as_str())?;
    text.push_str("\n")
}

fn loose_rows<K: Keeper>(
    keeper: &mut K,
    sub: &Text,
    source: &Text,
    channel: &Text,
) -> Result<List<Row>, StoreFault>
    requires { access.IsReady (K.store keeper.old) }
    ensures rows { IfSome (K.store keeper.new).rows (λ rows. IfOk result (λ loose. loose ≡ held.loose_rows rows sub.now source.now channel.now)) }
    ensures judged { IfSome (K.store keeper.new).rows (λ rows. OnOk result (AreAllFormed (held.loose_rows rows sub.now source.now channel.now))) }
    ensures reads { access.Reads AreFormed (access.fails result) (K.store keeper.old) (K.store keeper.new) }
{
    let start = loose_key(sub, source, channel, 0)?;
    formed_section::<CollectorForm, K>(keeper, &start, Depth::Channel)
}

fn push_loose_lines(text: &mut Text, rows: &[Row]) -> Result<(), AllocError>
    ensures { OnOk result (text.new ≡ text.old ++ flat_map spec.loose_line rows.now) }
{
    for row in rows {
        push_loose_line(text, row)?;
    }
    Ok(())
}

#[tactic(auto, unfolding(crate::specs::Report::loose_line))]
fn push_loose_line(text: &mut Text, row: &Row) -> Result<(), AllocError>
    ensures { OnOk result (text.new ≡ text.old ++ spec.loose_line row.now) }
{
    let count = row.body.as_str();
    text.push_str("   loose ")?;
    text.push_number(row.key.number)?;
    text.push_str("-")?;
    text.push_number(row.value)?;
    text.push_str(" ")?;
    text.push_str(count)?;
    text.push_str("\n")
}

/// Which numbers a row stands for.
#[derive(Clone, Copy, PartialEq, Eq)]
pub enum Spans {
    /// Its own number, as a held event.
    Held,
    /// Those from its own number to its value, as a mark.
    Marks,
}

impl Spans {
    /// The key in front of them in a channel.
    fn start(self, sub: &Text, source: &Text, channel: &Text) -> Result<Key, AllocError>
        ensures { IfOk result (λ key. key ≡ spec.start_of self sub.now source.now channel.now) }
    {
        match self {
            Spans::Held => held_key(sub, source, channel, 0),
            Spans::Marks => mark_key(sub, source, channel, 0),
        }
    }

    #[tactic(auto, unfolding(crate::specs::Report::label_of))]
    fn label(self) -> &'static str
        ensures { result.now ≡ spec.label_of self }
    {
        match self {
            Spans::Held => "   held",
            Spans::Marks => "   dropped",
        }
    }

    fn of(self, row: &Row) -> Span
        ensures { result ≡ spec.span_of self row.now }
    {
        match self {
            Spans::Held => Span {
                first: row.key.number,
                last: row.key.number,
            },
            Spans::Marks => Span {
                first: row.key.number,
                last: row.value,
            },
        }
    }
}

/// The runs of the rows of a channel behind a key, read page by page.
fn runs_behind<K: Keeper>(keeper: &mut K, after: Key, spans: Spans) -> Result<Text, StoreFault>
    requires { access.IsReady (K.store keeper.old) }
    ensures text { IfSome (K.store keeper.new).rows (λ rows. IfOk result (λ text. text ≡ runs_text (runs_of (map (spec.span_of spans) (rows_under Depth.Channel after rows))))) }
    ensures judged { IfSome (K.store keeper.new).rows (λ rows. OnOk result (AreAllFormed (rows_under Depth.Channel after rows))) }
    ensures reads { access.Reads AreFormed (access.fails result) (K.store keeper.old) (K.store keeper.new) }
{
    let mut writer = RunWriter::new(after.sub.alloc());
    let mut after = after;
    add_behind(&mut writer, keeper, &mut after, spans)?;
    Ok(writer.finish()?)
}

/// Adds the rows of a channel behind a key, page by page. The key moves on to the last of them.
fn add_behind<K: Keeper>(
    writer: &mut RunWriter,
    keeper: &mut K,
    after: &mut Key,
    spans: Spans,
) -> Result<(), StoreFault>
    requires { access.IsReady (K.store keeper.old) }
    ensures text { IfSome (K.store keeper.new).rows (λ rows. OnOk result (writer.new.text ++ runs_text (runs_from writer.new.running [])
        ≡ writer.old.text ++ runs_text (runs_from writer.old.running (map (spec.span_of spans) (rows_under Depth.Channel after.old rows))))) }
    ensures judged { IfSome (K.store keeper.new).rows (λ rows. OnOk result (AreAllFormed (rows_under Depth.Channel after.old rows))) }
    ensures reads { access.Reads AreFormed (access.fails result) (K.store keeper.old) (K.store keeper.new) }
{
    loop {
        let page = formed_page::<CollectorForm, K>(keeper, after, Depth::Channel, PAGE)?;
        add_page(writer, page.as_slice(), spans)?;
        let is_last = page.len() < PAGE as usize;
        if is_last {
            return Ok(());
        }
        after.number = last_number(after.number, page.as_slice());
    }
}

/// The number of the last row, and the one given where there is none.
fn last_number(after: u64, page: &[Row]) -> u64
    ensures { result ≡ spec.last_row_number after page.now }
{
    match page.split_last() {
        Some((row, _)) => row.key.number,
        None => after,
    }
}

fn add_page(writer: &mut RunWriter, page: &[Row], spans: Spans) -> Result<(), AllocError>
    ensures { OnOk result ((rest : List the_row.Row) → writer.new.text ++ runs_text (runs_from writer.new.running (map (spec.span_of spans) rest))
        ≡ writer.old.text ++ runs_text (runs_from writer.old.running (map (spec.span_of spans) (page.now ++ rest)))) }
{
    for row in page {
        writer.add(spans.of(row))?;
    }
    Ok(())
}
