//! Bookmarks, written out as the numbers of the channels a, b and c.

use crate::channels::{channel, letters};
use std::alloc::{AllocError, Global};
use wef_base::numbers::MAX;
use wef_base::{ChannelName, Text, ValueFault};
use wef_bookmark::Bookmark;

/// The bookmarks of `FIRST, SECOND`, each a list of words `CHANNEL:NUMBER` to which channels are
/// raised in order; which covers which; the same once the second joined the first; and a copy of
/// that.
pub(crate) fn push_bookmarks(shown: &mut Text, row: &str) -> Result<(), ValueFault> {
    let (first, second) = row.split_once(',').ok_or(ValueFault::BadName)?;
    let here = raised(shown.alloc(), first)?;
    let there = raised(shown.alloc(), second)?;
    push_raised(shown, here, &there)
}

fn push_raised(shown: &mut Text, here: Bookmark, there: &Bookmark) -> Result<(), ValueFault> {
    let names = letters(shown.alloc())?;
    Ok(push_joined(shown, here, there, names.as_slice())?)
}

fn raised(alloc: Global, words: &str) -> Result<Bookmark, ValueFault> {
    let mut bookmark = Bookmark::new(alloc);
    raise_each(alloc, &mut bookmark, words)?;
    Ok(bookmark)
}

fn push_joined(
    shown: &mut Text,
    here: Bookmark,
    there: &Bookmark,
    names: &[ChannelName],
) -> Result<(), AllocError> {
    let mut here = here;
    push_pair(shown, "raised", &here, there, names)?;
    join(&mut here, there)?;
    push_pair(shown, "; joined", &here, there, names)?;
    push_copy(shown, &here, names)
}

fn raise_each(alloc: Global, bookmark: &mut Bookmark, words: &str) -> Result<(), ValueFault> {
    for word in words.split_whitespace() {
        raise(alloc, bookmark, word)?;
    }
    Ok(())
}

fn raise(alloc: Global, bookmark: &mut Bookmark, word: &str) -> Result<(), ValueFault> {
    let (name, number) = word.split_once(':').ok_or(ValueFault::BadName)?;
    let number = number.parse::<u64>().ok().ok_or(ValueFault::NotANumber)?;
    if number > MAX {
        return Err(ValueFault::TooLarge);
    }
    match bookmark.raise(&channel(alloc, name)?, number) {
        Ok(()) => Ok(()),
        Err(_) => Err(ValueFault::NoMemory),
    }
}

fn join(here: &mut Bookmark, there: &Bookmark) -> Result<(), AllocError> {
    match here.join(there) {
        Ok(()) => Ok(()),
        Err(_) => Err(AllocError),
    }
}

fn push_copy(
    shown: &mut Text,
    bookmark: &Bookmark,
    names: &[ChannelName],
) -> Result<(), AllocError> {
    let copy = bookmark.clone()?;
    push_pair(shown, "; copied", &copy, bookmark, names)
}

fn push_pair(
    shown: &mut Text,
    before: &str,
    here: &Bookmark,
    there: &Bookmark,
    names: &[ChannelName],
) -> Result<(), AllocError> {
    shown.push_str(before)?;
    push_numbers(shown, here, names)?;
    push_order(shown, here, there)?;
    push_numbers(shown, there, names)
}

fn push_order(shown: &mut Text, here: &Bookmark, there: &Bookmark) -> Result<(), AllocError> {
    shown.push_str(match (here.covers(there), there.covers(here)) {
        (true, true) => " as far as",
        (true, false) => " beyond",
        (false, true) => " behind",
        (false, false) => " beside",
    })
}

fn push_numbers(
    shown: &mut Text,
    bookmark: &Bookmark,
    names: &[ChannelName],
) -> Result<(), AllocError> {
    for name in names {
        push_number(shown, bookmark, name)?;
    }
    Ok(())
}

/// A channel's number, in parentheses where the bookmark has none for it.
fn push_number(
    shown: &mut Text,
    bookmark: &Bookmark,
    name: &ChannelName,
) -> Result<(), AllocError> {
    let (before, after) = if bookmark.has(name) {
        (" ", "")
    } else {
        (" (", ")")
    };
    shown.push_str(before)?;
    shown.push_str(name.as_text().as_str())?;
    shown.push(' ')?;
    shown.push_number(bookmark.at(name))?;
    shown.push_str(after)
}
