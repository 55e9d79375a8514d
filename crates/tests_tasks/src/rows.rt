//! Lines of which some may be no row of their table.

use std::alloc::AllocError;
use wef_base::{ChannelName, Text, ValueFault};

/// Appends `no row` where what was appended for a line stopped at a value of another form.
pub fn or_no_row(pushed: Result<(), ValueFault>, shown: &mut Text) -> Result<(), AllocError> {
    match pushed {
        Ok(()) => Ok(()),
        Err(ValueFault::NoMemory) => Err(AllocError),
        Err(_) => shown.push_str("no row"),
    }
}

/// Appends whether a row is an event.
pub fn push_is_event(
    shown: &mut Text,
    is_event: Result<bool, ValueFault>,
) -> Result<(), AllocError> {
    match is_event {
        Ok(true) => shown.push_str("an event"),
        Ok(false) => shown.push_str("no event"),
        Err(fault) => or_no_row(Err(fault), shown),
    }
}

/// The parts of the row `CHANNEL NUMBER TEXT`.
pub fn parts_of(row: &Text) -> Result<Option<(ChannelName, u64, Text)>, ValueFault> {
    let Some((channel, number, text)) = words_of(row.as_str()) else {
        return Ok(None);
    };
    let channel = ChannelName::read(&Text::from_str(row.alloc(), channel)?)?;
    let text = Text::from_str(row.alloc(), text)?;
    Ok(Some((channel, number, text)))
}

fn words_of(row: &str) -> Option<(&str, u64, &str)> {
    let (channel, rest) = row.split_once(' ')?;
    let (number, text) = rest.split_once(' ')?;
    Some((channel, number.parse::<u64>().ok()?, text))
}
