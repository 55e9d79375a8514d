//! Values of attributes.

ghost use Rattle.std.specs.List.{prefix_len};
ghost use Rattle.std.specs.Option.{option_map};
ghost use Rattle.std.specs.Prelude.{◌≡◌, ◌≤◌, length};
ghost use Rattle.wef_tree_pieces.specs.Names.{with_front};
ghost use Rattle.wef_tree_pieces.specs.Reads.{Reads};
ghost use Rattle.wef_tree_pieces.specs.Runs.{is_plain};
ghost use Rattle.wef_tree_pieces.specs.Tags.{as_space, quoted_at, value_in, value_turn};

use crate::faults::Halt;
use crate::references::reference_at;
use std::alloc::Global;
use wef_base::{Text, is_xml_char};

/// The quoted value that a text begins with, and what is left.
pub fn quoted_at(alloc: Global, text: &[char]) -> Result<(Text, &[char]), Halt>
    ensures { Reads result (quoted_at text.now) }
{
    match text {
        [quote, rest @ ..] if *quote == '"' || *quote == '\'' => value_in(alloc, *quote, rest),
        _ => Err(Halt::Bad),
    }
}

#[tactic(auto, using(crate::proofs::Runs::value_is))]
fn value_in(alloc: Global, quote: char, text: &[char]) -> Result<(Text, &[char]), Halt>
    ensures { Reads result (value_in (length text.now) quote text.now) }
{
    let (plain, rest) = text.split_at(plain_length(quote, text));
    value_tail(Text::from_chars(alloc, plain)?, quote, rest)
}

/// How many characters that stand for themselves a value begins with.
fn plain_length(quote: char, text: &[char]) -> usize
    ensures value { result ≡ prefix_len (is_plain quote) text.now }
    ensures within { result ≤ length text.now }
{
    let mut length = 0;
    let mut rest = text;
    while let [character, more @ ..] = rest {
        if !is_plain(quote, *character) {
            return length;
        }
        length += 1;
        rest = more;
    }
    length
}

/// Whether a character stands for itself in a value, and isn't read as another.
fn is_plain(quote: char, character: char) -> bool
    ensures { result ≡ is_plain quote character }
{
    character != quote && !matches!(character, '&' | '<' | '\t' | '\n') && is_xml_char(character)
}

/// A value that was begun, with what follows up to its quote.
fn value_tail(begun: Text, quote: char, text: &[char]) -> Result<(Text, &[char]), Halt>
    ensures { Reads result (option_map (with_front begun) (value_in (length text.now) quote text.now)) }
{
    let mut value = begun;
    let mut rest = text;
    for _turn in 0..text.len() {
        let Some((next, behind)) = value_turn(quote, rest) else {
            return Err(Halt::Bad);
        };
        let Some(character) = next else {
            return Ok((value, behind));
        };
        value.push(character)?;
        rest = behind;
    }
    Err(Halt::Bad)
}

/// One step in a value: its next character, or none at its end, and what is left.
fn value_turn(quote: char, text: &[char]) -> Option<(Option<char>, &[char])>
    ensures { option_map (λ read. (read.0, read.1.now)) result ≡ value_turn quote text.now }
{
    let [character, rest @ ..] = text else {
        return None;
    };
    if *character == quote {
        return Some((None, rest));
    }
    match *character {
        '&' => {
            let (character, rest) = reference_at(rest)?;
            Some((Some(character), rest))
        }
        '<' => None,
        other if is_xml_char(other) => Some((Some(as_space(other)), rest)),
        _ => None,
    }
}

/// A character that stands in a value itself.
fn as_space(character: char) -> char
    ensures { result ≡ as_space character }
{
    match character {
        '\t' | '\n' => ' ',
        other => other,
    }
}
