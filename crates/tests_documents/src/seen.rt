//! Texts, seen to be events in one pass and read the long way.

use crate::others::{Counts, count_others};
use std::alloc::AllocError;
use tests_tasks::escapes::escaped;
use wef_base::{ChannelName, Charset, Text, ValueFault};
use wef_event::{Event, EventFault, Label, event_of_node, recognised};
use wef_tree::read_told_tree;

/// What is seen in one pass, and of the texts that differ in one character.
pub(crate) fn push_all(shown: &mut Text, text: &Text) -> Result<(), AllocError> {
    push_seen(shown, text)?;
    push_counts(shown, &count_others(text)?)
}

/// What is seen in one pass.
pub(crate) fn push_seen(shown: &mut Text, text: &Text) -> Result<(), AllocError> {
    match recognised(text.as_str()) {
        Some(label) => push_label(shown, text, &label),
        None => push_read(shown, text),
    }
}

fn push_label(shown: &mut Text, text: &Text, label: &Label<'_>) -> Result<(), AllocError> {
    shown.push_str("seen ")?;
    shown.push_number(label.number)?;
    shown.push(' ')?;
    let channel = escaped(&Text::from_str(shown.alloc(), label.channel)?)?;
    shown.push_str(channel.as_str())?;
    if !is_read_so(text, label)? {
        shown.push_str(", and not read so")?;
    }
    Ok(())
}

/// Appends whether the text is an event's, which was not seen in one pass.
fn push_read(shown: &mut Text, text: &Text) -> Result<(), AllocError> {
    shown.push_str(match event_read(text) {
        Ok(Some(_)) => "not seen, but read",
        Ok(None) => "not seen",
        Err(fault) => return Err(fault),
    })
}

fn push_counts(shown: &mut Text, counts: &Counts) -> Result<(), AllocError> {
    shown.push_str("; of ")?;
    shown.push_number(counts.all)?;
    shown.push_str(" others ")?;
    shown.push_number(counts.seen)?;
    shown.push_str(" seen, ")?;
    shown.push_number(counts.wrong)?;
    shown.push_str(" of them wrong")
}

/// Whether a text is read the long way as the event that was seen; where its channel is no name, as
/// no event.
pub(crate) fn is_read_so(text: &Text, label: &Label<'_>) -> Result<bool, AllocError> {
    let name = Text::from_str(text.alloc(), label.channel)?;
    match ChannelName::read(&name) {
        Ok(channel) => is_read_as(text, &channel, label.number),
        Err(ValueFault::NoMemory) => Err(AllocError),
        Err(_) => Ok(event_read(text)?.is_none()),
    }
}

fn is_read_as(text: &Text, channel: &ChannelName, number: u64) -> Result<bool, AllocError> {
    match event_read(text)? {
        Some(event) => Ok(event.channel == *channel && event.number == number),
        None => Ok(false),
    }
}

/// The event of a text's tree, where the text is the one of this tree.
fn event_read(text: &Text) -> Result<Option<Event>, AllocError> {
    let Ok(tree) = read_told_tree(text.alloc(), text.as_str().as_bytes(), Charset::Utf8) else {
        return Ok(None);
    };
    match event_of_node(tree.is_told(), tree.root()) {
        Ok(event) if event.text == *text => Ok(Some(event)),
        Err(EventFault::NoMemory) => Err(AllocError),
        _ => Ok(None),
    }
}
