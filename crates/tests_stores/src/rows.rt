//! Rows and their keys, as a line spells them.

use std::alloc::{AllocError, Global};
use wef_base::numbers::MAX;
use wef_base::{List, Text};
use wef_keeper::{Changes, Form, Key, Row};

/// No condition on a row.
pub(crate) struct AnyForm;

impl Form for AnyForm {
    ghost use Rattle.std.specs.Prelude.{true};

    ghost passes = { λ _. true };

    fn is_formed(_row: &Row) -> Result<bool, AllocError> {
        Ok(true)
    }
}

/// The number of some digits, or 0.
pub(crate) fn number_in(digits: &str) -> u64 {
    digits.parse::<u64>().unwrap_or(0)
}

/// The key of a word. Parts that are wanting are empty or 0.
pub(crate) fn key_in(alloc: Global, word: &str) -> Result<Key, AllocError> {
    let mut parts = word.split('/');
    let kind = parts.next().unwrap_or("");
    let sub = Text::from_str(alloc, parts.next().unwrap_or(""))?;
    let source = Text::from_str(alloc, parts.next().unwrap_or(""))?;
    let channel = Text::from_str(alloc, parts.next().unwrap_or(""))?;
    Ok(Key {
        kind: kind.parse::<u8>().unwrap_or(0),
        sub,
        source,
        channel,
        number: number_in(parts.next().unwrap_or("")),
    })
}

/// The changes of a line, in its order.
pub(crate) fn changes_in(alloc: Global, line: &str) -> Result<Changes<AnyForm>, AllocError> {
    let mut changes = Changes::new(alloc);
    for word in line.split(' ') {
        change(&mut changes, alloc, word)?;
    }
    Ok(changes)
}

fn change(changes: &mut Changes<AnyForm>, alloc: Global, word: &str) -> Result<(), AllocError> {
    match word.split_once('=') {
        Some((key, value)) => {
            let body = Text::from_str(alloc, "body")?;
            put(changes, key_in(alloc, key)?, number_in(value), body)
        }
        None => changes.delete(key_in(alloc, word)?),
    }
}

/// Puts a row. One whose number or value is too great is left out.
pub(crate) fn put(
    changes: &mut Changes<AnyForm>,
    key: Key,
    value: u64,
    body: Text,
) -> Result<(), AllocError> {
    if key.number > MAX || value > MAX {
        return Ok(());
    }
    changes.put(Row { key, value, body })
}

/// Appends rows, each behind a space.
pub(crate) fn push_rows(shown: &mut Text, rows: &List<Row>) -> Result<(), AllocError> {
    for row in rows.as_slice() {
        push_row(shown, &row.key, row.value)?;
    }
    Ok(())
}

fn push_row(shown: &mut Text, key: &Key, value: u64) -> Result<(), AllocError> {
    shown.push_str(" ")?;
    shown.push_number(u64::from(key.kind))?;
    for part in [&key.sub, &key.source, &key.channel] {
        shown.push_str("/")?;
        shown.push_str(part.as_str())?;
    }
    shown.push_str("/")?;
    shown.push_number(key.number)?;
    shown.push_str("=")?;
    shown.push_number(value)
}
