//! Texts in which a piece is repeated.

use std::alloc::{AllocError, Global};
use wef_base::Text;

/// A text in which a piece, a sign and a count, each behind a sign, stand for so many of the piece. In place of the
/// count may stand the first number and the last, as `000-255`.
pub fn repeated(alloc: Global, text: &str, sign: char) -> Result<Text, AllocError> {
    let mut whole = Text::new(alloc);
    let mut piece = Text::new(alloc);
    for (index, part) in text.split(sign).enumerate() {
        match index % 3 {
            0 => whole.push_str(part)?,
            1 => piece = Text::from_str(alloc, part)?,
            _ => push_times(&mut whole, piece.as_str(), part)?,
        }
    }
    Ok(whole)
}

/// Appends a piece once for each of its numbers, which stands for an `@` in it: those from 1 to a count, or those of a
/// range, of which each has as many digits as the first.
fn push_times(text: &mut Text, piece: &str, count: &str) -> Result<(), AllocError> {
    let (first, last) = count.split_once('-').unwrap_or(("1", count));
    for number in number_of(first)..=number_of(last) {
        match piece.split_once('@') {
            Some((before, after)) => {
                text.push_str(before)?;
                push_digits(text, number, first.len())?;
                text.push_str(after)?;
            }
            None => text.push_str(piece)?,
        }
    }
    Ok(())
}

fn number_of(digits: &str) -> u64 {
    digits.parse().unwrap_or(0)
}

/// Appends a number in so many digits, or in more where it has them.
fn push_digits(text: &mut Text, number: u64, count: usize) -> Result<(), AllocError> {
    let digits = number.to_string(text.alloc())?;
    for _ in digits.as_str().len()..count {
        text.push('0')?;
    }
    text.push_str(digits.as_str())
}
