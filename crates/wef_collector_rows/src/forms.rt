//! The form of the collector's rows, by their kind.

ghost use Rattle.std.specs.Prelude.{◌≡◌, ◌≤◌, true, is_some, Some, IfOk, IfSome};
ghost use Rattle.wef_collector_rows.specs.Bookmarks.{has_channel};
ghost use Rattle.wef_collector_rows.specs.Forms as spec;
ghost use Rattle.wef_collector_rows.specs.Held.{own_event};
ghost use Rattle.wef_documents.specs.Kept as kept;

use std::alloc::AllocError;
use wef_base::characters::is_xml_text;
use wef_base::moments::LAST_MOMENT;
use wef_base::numbers::{MAX, read_plain_number};
use wef_base::{ChannelName, SourceName, SubId, Text};
use wef_documents::read_kept;
use wef_event::Event;
use wef_eventing::Subscription;
use wef_keeper::{Form, Key, Row, RowKind};

/// The form of the collector's rows.
pub struct CollectorForm;

impl Form for CollectorForm {
    ghost use Rattle.wef_collector_rows.specs.Forms.{is_formed as passes_form};

    ghost passes = { passes_form };

    fn is_formed(row: &Row) -> Result<bool, AllocError> {
        is_formed(row)
    }
}

/// Whether a row is of the form of its kind. Rows of other kinds aren't the collector's.
#[tactic(auto, unfolding(crate::specs::Forms::is_formed))]
pub fn is_formed(row: &Row) -> Result<bool, AllocError>
    ensures { IfOk result (λ formed. formed ≡ spec.is_formed row.now) }
{
    let kind = row.key.kind;
    if kind == RowKind::Subscription.number() {
        is_subscription(row)
    } else if kind == RowKind::Bookmark.number() {
        is_bookmark(row)
    } else if kind == RowKind::Held.number() {
        is_held(row)
    } else if kind == RowKind::Mark.number() {
        is_mark(row)
    } else if kind == RowKind::Loose.number() {
        is_loose(row)
    } else if kind == RowKind::Heard.number() {
        is_heard(row)
    } else if kind == RowKind::CollectorBoot.number() {
        Ok(is_boot(row))
    } else if kind == RowKind::Lease.number() {
        is_lease(row)
    } else {
        Ok(true)
    }
}

fn is_subscription(row: &Row) -> Result<bool, AllocError>
    ensures { IfOk result (λ formed. formed ≡ spec.is_subscription_row row.now) }
{
    Ok(kept_subscription(row)?.is_some())
}

/// The subscription that a row keeps. None where it isn't of the form of a subscription's row, its kind
/// aside.
#[tactic(auto, unfolding(crate::specs::Forms::is_subscription_row))]
pub(crate) fn kept_subscription(row: &Row) -> Result<Option<Subscription>, AllocError>
    ensures some { IfOk result (λ found. is_some found ≡ spec.is_subscription_row row.now) }
    ensures value { IfOk result (λ found. IfSome found (λ subscription. kept.read_kept row.now.key.sub row.now.body ≡ Some subscription)) }
{
    let Some(name) = subscription_named(&row.key.sub)? else {
        return Ok(None);
    };
    if !row.key.source.is_empty() || !row.key.channel.is_empty() {
        return Ok(None);
    }
    if row.key.number != 0 || row.value > 1 {
        return Ok(None);
    }
    read_kept(&name, &row.body)
}

fn is_bookmark(row: &Row) -> Result<bool, AllocError>
    ensures { IfOk result (λ formed. formed ≡ spec.is_bookmark_row row.now) }
{
    Ok(bookmark_channel(row)?.is_some())
}

/// The channel of the row of a bookmark. None where the row isn't of its form.
#[tactic(auto, unfolding(crate::specs::Forms::is_bookmark_row))]
pub fn bookmark_channel(row: &Row) -> Result<Option<ChannelName>, AllocError>
    ensures some { IfOk result (λ found. is_some found ≡ spec.is_bookmark_row row.now) }
    ensures value { IfOk result (λ found. IfSome found (λ channel. channel ≡ row.now.key.channel)) }
    ensures named { IfOk result (λ found. IfSome found (λ _. has_channel row.now ≡ true)) }
    ensures bound { IfOk result (λ found. IfSome found (λ _. row.now.value ≤ MAX)) }
{
    if !names_source(&row.key)? {
        return Ok(None);
    }
    let Some(channel) = channel_named(&row.key.channel)? else {
        return Ok(None);
    };
    if row.key.number != 0 || row.value > MAX || !row.body.is_empty() {
        return Ok(None);
    }
    Ok(Some(channel))
}

fn is_held(row: &Row) -> Result<bool, AllocError>
    ensures { IfOk result (λ formed. formed ≡ spec.is_held_row row.now) }
{
    Ok(held_event(row)?.is_some())
}

/// The event of a held row. None where the row isn't of its form.
#[tactic(auto, unfolding(crate::specs::Forms::is_held_row))]
pub fn held_event(row: &Row) -> Result<Option<Event>, AllocError>
    ensures some { IfOk result (λ found. is_some found ≡ spec.is_held_row row.now) }
    ensures value { IfOk result (λ found. IfSome found (λ event. event ≡ own_event row.now)) }
{
    if !names_source(&row.key)? {
        return Ok(None);
    }
    let Some(channel) = channel_named(&row.key.channel)? else {
        return Ok(None);
    };
    if row.key.number > MAX || row.value != 0 {
        return Ok(None);
    }
    Event::of_text(&channel, row.key.number, &row.body)
}

#[tactic(auto, unfolding(crate::specs::Forms::is_mark_row))]
fn is_mark(row: &Row) -> Result<bool, AllocError>
    ensures { IfOk result (λ formed. formed ≡ spec.is_mark_row row.now) }
{
    if !names_channel(&row.key)? {
        return Ok(false);
    }
    Ok(row.key.number <= row.value && row.value <= MAX && row.body.is_empty())
}

#[tactic(auto, unfolding(crate::specs::Forms::is_loose_row))]
fn is_loose(row: &Row) -> Result<bool, AllocError>
    ensures { IfOk result (λ formed. formed ≡ spec.is_loose_row row.now) }
{
    if !names_channel(&row.key)? {
        return Ok(false);
    }
    if row.key.number > row.value || row.value > MAX {
        return Ok(false);
    }
    Ok(read_plain_number(row.body.as_str().as_bytes(), MAX).is_some())
}

#[tactic(auto, unfolding(crate::specs::Forms::is_heard_row))]
fn is_heard(row: &Row) -> Result<bool, AllocError>
    ensures { IfOk result (λ formed. formed ≡ spec.is_heard_row row.now) }
{
    if !names_source(&row.key)? {
        return Ok(false);
    }
    if !row.key.channel.is_empty() || row.key.number != 0 {
        return Ok(false);
    }
    Ok(row.value <= LAST_MOMENT && row.body.is_empty())
}

#[tactic(auto, unfolding(crate::specs::Forms::is_lease_row))]
fn is_lease(row: &Row) -> Result<bool, AllocError>
    ensures { IfOk result (λ formed. formed ≡ spec.is_lease_row row.now) }
{
    if !names_source(&row.key)? {
        return Ok(false);
    }
    if !row.key.channel.is_empty() || row.key.number != 0 || row.value > MAX {
        return Ok(false);
    }
    is_xml_text(&row.body)
}

#[tactic(auto, unfolding(crate::specs::Forms::is_boot_row))]
fn is_boot(row: &Row) -> bool
    ensures { result ≡ spec.is_boot_row row.now }
{
    if !row.key.sub.is_empty() || !row.key.source.is_empty() {
        return false;
    }
    if !row.key.channel.is_empty() || row.key.number != 0 {
        return false;
    }
    row.value <= MAX && row.body.is_empty()
}

fn names_channel(key: &Key) -> Result<bool, AllocError>
    ensures { IfOk result (λ named. named ≡ spec.names_channel key.now) }
{
    if !names_source(key)? {
        return Ok(false);
    }
    Ok(channel_named(&key.channel)?.is_some())
}

fn names_source(key: &Key) -> Result<bool, AllocError>
    ensures { IfOk result (λ named. named ≡ spec.names_source key.now) }
{
    if subscription_named(&key.sub)?.is_none() {
        return Ok(false);
    }
    is_source_name(&key.source)
}

/// The subscription's name that a text is, where it reads back as itself.
fn subscription_named(text: &Text) -> Result<Option<SubId>, AllocError>
    ensures { IfOk result (λ name. spec.NamesItself name text.now) }
{
    let Some(name) = SubId::named(text)? else {
        return Ok(None);
    };
    if *text != *name.as_text() {
        return Ok(None);
    }
    Ok(Some(name))
}

fn is_source_name(text: &Text) -> Result<bool, AllocError>
    ensures { IfOk result (λ named. named ≡ spec.is_source_name text.now) }
{
    let Some(name) = SourceName::named(text)? else {
        return Ok(false);
    };
    Ok(*text == *name.as_text())
}

/// The channel's name that a text is, where it reads back as itself.
fn channel_named(text: &Text) -> Result<Option<ChannelName>, AllocError>
    ensures { IfOk result (λ name. spec.NamesChannel name text.now) }
{
    let Some(name) = ChannelName::named(text)? else {
        return Ok(None);
    };
    if *text != *name.as_text() {
        return Ok(None);
    }
    Ok(Some(name))
}
