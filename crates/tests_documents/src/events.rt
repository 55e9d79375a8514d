//! Events, written out as their number, a space and their channel.

use std::alloc::AllocError;
use tests_tasks::rows::{parts_of, push_is_event};
use wef_base::{ChannelName, Charset, Text, ValueFault, is_xml_text};
use wef_event::{Event, EventFault, event_of_node, plain_event, read_event, read_new_event};
use wef_tree::read_told_tree;

const GREATEST: u64 = 9_223_372_036_854_775_807;

/// The event of a text; what there is where it needs no number, and of the text's tree, where that
/// is another answer.
pub(crate) fn push_event(shown: &mut Text, text: &Text) -> Result<(), AllocError> {
    let answer = answer_of(text, read_event(text))?;
    shown.push_str(answer.as_str())?;
    let new = answer_of(text, read_new_event(text))?;
    if new != answer {
        shown.push_str(", new ")?;
        shown.push_str(new.as_str())?;
    }
    if let Ok(tree) = read_told_tree(text.alloc(), text.as_str().as_bytes(), Charset::Utf8) {
        let of_tree = answer_of(text, event_of_node(tree.is_told(), tree.root()))?;
        if of_tree != answer {
            shown.push_str(", of its tree ")?;
            shown.push_str(of_tree.as_str())?;
        }
    }
    Ok(())
}

/// The event of `NUMBER TEXT`, where the number is given to that of the text. One that was given
/// before leaves nothing.
pub(crate) fn push_numbered(shown: &mut Text, row: &Text) -> Result<(), AllocError> {
    let Some((number, text)) = row.as_str().split_once(' ') else {
        return shown.push_str("no row");
    };
    let number = number.parse::<u64>().unwrap_or(0);
    let text = Text::from_str(row.alloc(), text)?;
    let answer = answer_of(&text, numbered(read_new_event(&text), number))?;
    shown.push_str(answer.as_str())?;
    let twice = numbered(numbered(read_new_event(&text), 12_345), number);
    let twice = answer_of(&text, twice)?;
    if twice != answer {
        shown.push_str(", behind another number ")?;
        shown.push_str(twice.as_str())?;
    }
    Ok(())
}

fn numbered(event: Result<Event, EventFault>, number: u64) -> Result<Event, EventFault> {
    if number == 0 || number > GREATEST {
        return Err(EventFault::NoRecordId);
    }
    event?.with_number(number)
}

/// Whether the `CHANNEL NUMBER TEXT` of a row are an event.
pub(crate) fn push_parts(shown: &mut Text, row: &Text) -> Result<(), AllocError> {
    push_is_event(shown, is_event(row))
}

fn is_event(row: &Text) -> Result<bool, ValueFault> {
    let Some((channel, number, text)) = parts_of(row)? else {
        return Ok(false);
    };
    Ok(Event::of_text(&channel, number, &text)?.is_some())
}

/// The plain event of `NUMBER ID LEVEL WORD` in the channel application.
pub(crate) fn push_plain(shown: &mut Text, row: &Text) -> Result<(), AllocError> {
    match plain_of(row) {
        Ok(Some(event)) => shown.push_str(event.text.as_str()),
        Ok(None) => shown.push_str("no row"),
        Err(fault) => push_fault(shown, fault),
    }
}

fn plain_of(row: &Text) -> Result<Option<Event>, EventFault> {
    let Some((number, id, level, word)) = plain_row(row.as_str()) else {
        return Ok(None);
    };
    let word = Text::from_str(row.alloc(), word)?;
    let Ok(channel) = ChannelName::read(&Text::from_str(row.alloc(), "application")?) else {
        return Ok(None);
    };
    if number > GREATEST || !is_xml_text(&word)? {
        return Ok(None);
    }
    Ok(Some(plain_event(&channel, number, id, level, &word)?))
}

fn plain_row(row: &str) -> Option<(u64, u32, u32, &str)> {
    let (number, rest) = row.split_once(' ')?;
    let (id, rest) = rest.split_once(' ')?;
    let (level, word) = rest.split_once(' ')?;
    Some((
        number.parse::<u64>().ok()?,
        id.parse::<u32>().ok()?,
        level.parse::<u32>().ok()?,
        word,
    ))
}

/// What reading a text answers, written out, with the event's text where that is another.
fn answer_of(text: &Text, read: Result<Event, EventFault>) -> Result<Text, AllocError> {
    let mut shown = Text::new(text.alloc());
    push_answer(&mut shown, text, &read)?;
    Ok(shown)
}

fn push_answer(
    shown: &mut Text,
    text: &Text,
    read: &Result<Event, EventFault>,
) -> Result<(), AllocError> {
    match read {
        Ok(event) => push_read(shown, text, event),
        Err(fault) => push_fault(shown, *fault),
    }
}

fn push_read(shown: &mut Text, text: &Text, event: &Event) -> Result<(), AllocError> {
    shown.push_number(event.number)?;
    shown.push(' ')?;
    shown.push_str(event.channel.as_text().as_str())?;
    if event.text == *text {
        return Ok(());
    }
    shown.push_str(" in ")?;
    shown.push_str(event.text.as_str())
}

fn push_fault(shown: &mut Text, fault: EventFault) -> Result<(), AllocError> {
    match fault {
        EventFault::NoMemory => Err(AllocError),
        EventFault::BadEvent { at } => {
            shown.push_str("BadEvent ")?;
            shown.push_number(at as u64)
        }
        EventFault::NoChannel => shown.push_str("NoChannel"),
        EventFault::NoRecordId => shown.push_str("NoRecordId"),
        EventFault::TooLong => shown.push_str("TooLong"),
    }
}
