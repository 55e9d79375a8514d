//! The forms of the log's rows.

ghost use Rattle.std.specs.Prelude.{◌≡◌, ◌==◌, ◌&&◌, is_some, IfOk, IfSome};
ghost use Rattle.wef_source_log.specs.Forms as forms;
ghost use Rattle.wef_source_log.specs.LogWindow.{event_of_row};

use std::alloc::AllocError;
use wef_base::numbers::MAX;
use wef_base::{ChannelName, Text};
use wef_event::Event;
use wef_keeper::{Form, Key, Row, RowKind};

/// The form of the log's rows.
pub struct LogForm;

impl Form for LogForm {
    ghost passes = { forms.is_formed };

    fn is_formed(row: &Row) -> Result<bool, AllocError> {
        is_formed(row)
    }
}

/// Whether a row is of its form. Rows of other kinds than the log's have none.
#[tactic(auto, unfolding(crate::specs::Forms::is_formed))]
fn is_formed(row: &Row) -> Result<bool, AllocError>
    ensures { IfOk result (λ formed. formed ≡ forms.is_formed row.now) }
{
    let kind = row.key.kind;
    if kind == RowKind::Record.number() {
        is_record(row)
    } else if kind == RowKind::LastNumber.number() {
        is_last(row)
    } else if kind == RowKind::Capacity.number() {
        Ok(is_capacity(row))
    } else if kind == RowKind::SourceBoot.number() {
        Ok(is_boot(row))
    } else {
        Ok(true)
    }
}

fn is_record(row: &Row) -> Result<bool, AllocError>
    ensures { IfOk result (λ formed. formed ≡ forms.is_record row.now) }
{
    Ok(event_of(row)?.is_some())
}

/// The event of a record. None where the row isn't a record.
pub fn event_of(row: &Row) -> Result<Option<Event>, AllocError>
    ensures some { IfOk result (λ event. is_some event ≡ forms.is_record row.now) }
    ensures value { IfOk result (λ event. IfSome event (λ event. event ≡ event_of_row row.now.key.channel row.now)) }
{
    let Some(channel) = record_channel(row)? else {
        return Ok(None);
    };
    Event::of_text(&channel, row.key.number, &row.body)
}

/// The channel of a row that has a record's key and its value.
fn record_channel(row: &Row) -> Result<Option<ChannelName>, AllocError>
    ensures some { IfOk result (λ name. is_some name ≡ (forms.is_record_key row.now.key && row.now.value == 0)) }
    ensures value { IfOk result (λ name. IfSome name (λ name. name ≡ row.now.key.channel)) }
{
    let number = row.key.number;
    let formed = is_nameless(&row.key) && 1 <= number && number <= MAX && row.value == 0;
    if !formed {
        return Ok(None);
    }
    channel_of(&row.key.channel)
}

fn is_last(row: &Row) -> Result<bool, AllocError>
    ensures { IfOk result (λ formed. formed ≡ forms.is_last row.now) }
{
    let formed = is_nameless(&row.key)
        && row.key.number == 0
        && row.value <= MAX
        && row.body.is_empty();
    if !formed {
        return Ok(false);
    }
    Ok(channel_of(&row.key.channel)?.is_some())
}

fn is_capacity(row: &Row) -> bool
    ensures { result ≡ forms.is_capacity row.now }
{
    is_bare(row) && 1 <= row.value && row.value <= 1_000_000
}

fn is_boot(row: &Row) -> bool
    ensures { result ≡ forms.is_boot row.now }
{
    is_bare(row) && row.value <= MAX
}

/// Whether a row has a number alone.
fn is_bare(row: &Row) -> bool
    ensures { result ≡ forms.is_bare row.now }
{
    is_nameless(&row.key)
        && row.key.channel.is_empty()
        && row.key.number == 0
        && row.body.is_empty()
}

fn is_nameless(key: &Key) -> bool
    ensures { result ≡ forms.is_nameless key.now }
{
    key.sub.is_empty() && key.source.is_empty()
}

/// The channel's name that a text is. None where it doesn't read back as itself.
fn channel_of(text: &Text) -> Result<Option<ChannelName>, AllocError>
    ensures some { IfOk result (λ name. is_some name ≡ forms.is_channel text.now) }
    ensures value { IfOk result (λ name. IfSome name (λ name. name ≡ text.now)) }
{
    match ChannelName::named(text)? {
        Some(name) if name.as_text() == text => Ok(Some(name)),
        _ => Ok(None),
    }
}
