//! Passing characters, names and values as they stand in the one text of a tree.

ghost use Rattle.std.specs.Prelude.{◌≡◌, IfSome};
ghost use Rattle.wef_canonical.specs.Passing.{AreNameLetters, IsAsciiName, IsPlainRun, IsReference, IsRunOf, IsTextRun, IsValueRun, Passes, begins_name, is_plain_byte, stands_in_name};

use crate::cuts::{first_of_ascii, strip};
use wef_base::characters::is_xml_char;

/// What is left of a text behind a name of ASCII.
pub(crate) fn behind_name(text: &str) -> Option<&str>
    ensures { IfSome result (λ rest. Passes IsAsciiName text.now rest.now) }
{
    let (first, rest) = first_of_ascii(text)?;
    if begins_name(first) {
        Some(behind_run(Run::Letters, rest))
    } else {
        None
    }
}

/// What is left of a text behind a character of a name.
fn behind_name_character(text: &str) -> Option<&str>
    ensures { IfSome result (λ rest. Passes AreNameLetters text.now rest.now) }
{
    let (first, rest) = first_of_ascii(text)?;
    if stands_in_name(first) {
        Some(rest)
    } else {
        None
    }
}

fn begins_name(byte: u8) -> bool
    ensures { result ≡ begins_name byte }
{
    matches!(byte, b'A'..=b'Z' | b'a'..=b'z' | b'_')
}

fn stands_in_name(byte: u8) -> bool
    ensures { result ≡ stands_in_name byte }
{
    matches!(byte, b'A'..=b'Z' | b'a'..=b'z' | b'_' | b'0'..=b'9' | b'-' | b'.')
}

/// What is left of a text behind the characters that stand for themselves wherever they are.
pub fn behind_plain(text: &str) -> &str
    ensures { Passes IsPlainRun text.now result.now }
{
    behind_run(Run::Plain, text)
}

/// What is left of a text behind a value, before its quote.
pub(crate) fn behind_value(text: &str) -> &str
    ensures { Passes IsValueRun text.now result.now }
{
    behind_run(Run::Value, text)
}

/// What is left of a text behind the text between two tags.
pub fn behind_text(text: &str) -> &str
    ensures { Passes IsTextRun text.now result.now }
{
    behind_run(Run::Text, text)
}

/// Which characters stand one behind the other.
#[derive(Clone, Copy)]
enum Run {
    /// Those of a name.
    Letters,
    Plain,
    Value,
    Text,
}

/// What is left of a text behind as many of these characters as there are.
fn behind_run(run: Run, text: &str) -> &str
    ensures { Passes (IsRunOf run) text.now result.now }
{
    let mut rest = text;
    for _turn in 0..text.len() {
        match behind_one(run, rest) {
            Some(more) => rest = more,
            None => return rest,
        }
    }
    rest
}

fn behind_one(run: Run, text: &str) -> Option<&str>
    ensures { IfSome result (λ rest. Passes (IsRunOf run) text.now rest.now) }
{
    match run {
        Run::Letters => behind_name_character(text),
        Run::Plain => behind_plain_character(text),
        Run::Value => behind_value_character(text),
        Run::Text => behind_text_character(text),
    }
}

fn behind_plain_character(text: &str) -> Option<&str>
    ensures { IfSome result (λ rest. Passes IsPlainRun text.now rest.now) }
{
    match first_of_ascii(text) {
        Some((first, rest)) => { if is_plain(first) { Some(rest) } else { None } }
        None => behind_wide_character(text),
    }
}

fn behind_value_character(text: &str) -> Option<&str>
    ensures { IfSome result (λ rest. Passes IsValueRun text.now rest.now) }
{
    match behind_plain_character(text) {
        Some(rest) => Some(rest),
        None => behind_value_reference(text),
    }
}

fn behind_text_character(text: &str) -> Option<&str>
    ensures { IfSome result (λ rest. Passes IsTextRun text.now rest.now) }
{
    match behind_plain_character(text) {
        Some(rest) => Some(rest),
        None => behind_text_sign(text),
    }
}

fn is_plain(byte: u8) -> bool
    ensures { result ≡ is_plain_byte byte }
{
    byte >= 32 && byte != b'"' && byte != b'&' && byte != b'<' && byte != b'>'
}

/// What is left of a text behind a character that isn't of ASCII.
fn behind_wide_character(text: &str) -> Option<&str>
    ensures { IfSome result (λ rest. Passes IsPlainRun text.now rest.now) }
{
    let mut characters = text.chars();
    let character = characters.next()?;
    if u32::from(character) >= 128 && is_xml_char(character) {
        Some(characters.as_str())
    } else {
        None
    }
}

fn behind_text_sign(text: &str) -> Option<&str>
    ensures { IfSome result (λ rest. Passes IsTextRun text.now rest.now) }
{
    match strip(b"\"", text) {
        Some(rest) => Some(rest),
        None => behind_reference(text),
    }
}

fn behind_value_reference(text: &str) -> Option<&str>
    ensures { IfSome result (λ rest. Passes IsValueRun text.now rest.now) }
{
    match strip(b"&quot;", text) {
        Some(rest) => Some(rest),
        None => behind_reference(text),
    }
}

/// What is left of a text behind a reference that stands in texts and values alike.
fn behind_reference(text: &str) -> Option<&str>
    ensures { IfSome result (λ rest. Passes IsReference text.now rest.now) }
{
    let rest = strip(b"&", text)?;
    if let Some(rest) = strip(b"amp;", rest) {
        return Some(rest);
    }
    if let Some(rest) = strip(b"lt;", rest) {
        return Some(rest);
    }
    if let Some(rest) = strip(b"gt;", rest) {
        return Some(rest);
    }
    if let Some(rest) = strip(b"#x9;", rest) {
        return Some(rest);
    }
    if let Some(rest) = strip(b"#xA;", rest) {
        return Some(rest);
    }
    strip(b"#xD;", rest)
}
