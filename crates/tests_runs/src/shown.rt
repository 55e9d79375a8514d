//! What runs come to, as answers show it.

use crate::outcomes::Outcome;
use std::alloc::{AllocError, Global};
use tests_tasks::escapes::escaped;
use tests_tasks::runs::Runs;
use wef_base::Text;

/// How many bytes are shown as they are.
const SHORT: usize = 5_000;

/// Appends the status of a run, what it told and what it printed; and whether a write found no memory.
pub(crate) fn push_outcome(shown: &mut Text, ran: &Outcome) -> Result<(), AllocError> {
    shown.push_number(u64::from(ran.status))?;
    if ran.out.refused() > 0 {
        shown.push_str(" refused")?;
    }
    push_quoted(shown, ran.err.taken())?;
    if ran.out.taken().len() > SHORT {
        return push_lines(shown, ran.out.taken());
    }
    push_quoted(shown, ran.out.taken())
}

fn push_quoted(shown: &mut Text, bytes: &[u8]) -> Result<(), AllocError> {
    let text = str::from_utf8(bytes).unwrap_or("no UTF-8");
    shown.push_str(" \"")?;
    shown.push_str(escaped(&Text::from_str(shown.alloc(), text)?)?.as_str())?;
    shown.push('"')
}

/// Appends lines in runs of the same, each with an `@` for its number, and where they end.
fn push_lines(shown: &mut Text, bytes: &[u8]) -> Result<(), AllocError> {
    let alloc = shown.alloc();
    shown.push(' ')?;
    let mut runs = Runs::new(alloc);
    let mut number = 1u64;
    for line in str::from_utf8(bytes)
        .unwrap_or("no UTF-8")
        .split_terminator('\n')
    {
        runs.add(shown, number, numberless(alloc, line, number)?)?;
        number = number.saturating_add(1);
    }
    runs.add(shown, number, Text::from_str(alloc, "nothing")?)
}

/// A line with an `@` for each of its pieces that are its number.
fn numberless(alloc: Global, line: &str, number: u64) -> Result<Text, AllocError> {
    let digits = number.to_string(alloc)?;
    let mut text = Text::new(alloc);
    let mut is_next = false;
    for part in line.split(digits.as_str()) {
        if is_next {
            text.push('@')?;
        }
        text.push_str(part)?;
        is_next = true;
    }
    Ok(text)
}
