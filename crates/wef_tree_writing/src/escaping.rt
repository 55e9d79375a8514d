//! Characters as they stand in a written document.

ghost use Rattle.std.specs.Prelude.{◌≡◌, ◌++◌, OnOk};
ghost use Rattle.std.specs.List.{list_any};
ghost use Rattle.wef_xml.specs.Canonical.{text_char, text_of, value_char, value_of};
ghost use Rattle.wef_tree_writing.specs.Marks.{is_mark, is_value_mark};

use crate::pieces::Piece;
use std::alloc::AllocError;

/// Appends a text as it stands between two tags.
#[tactic(auto, using(crate::proofs::Unmarked::text_stands))]
pub fn push_text(out: &mut Piece, text: &str) -> Result<(), AllocError>
    ensures { OnOk result (out.new ≡ out.old ++ text_of text.now) }
{
    if has_mark(text) {
        return push_marked_text(out, text);
    }
    out.push_str(text)
}

/// Appends a value as it stands between its quotes.
#[tactic(auto, using(crate::proofs::Unmarked::value_stands))]
pub fn push_value(out: &mut Piece, value: &str) -> Result<(), AllocError>
    ensures { OnOk result (out.new ≡ out.old ++ value_of value.now) }
{
    if has_value_mark(value) {
        return push_marked_value(out, value);
    }
    out.push_str(value)
}

/// Appends characters of ASCII as they are.
pub fn push_ascii(out: &mut Piece, ascii: &[u8]) -> Result<(), AllocError>
    ensures { OnOk result (out.new ≡ out.old ++ ascii.now) }
{
    for byte in ascii {
        out.push(char::from(*byte))?;
    }
    Ok(())
}

/// Whether a text has a character that can't stand between two tags as it is.
fn has_mark(text: &str) -> bool
    ensures { result ≡ list_any is_mark text.now }
{
    text.as_bytes().iter().any(|&byte| is_mark(byte))
}

/// Whether a value has a character that can't stand between its quotes as it is.
fn has_value_mark(value: &str) -> bool
    ensures { result ≡ list_any is_value_mark value.now }
{
    value.as_bytes().iter().any(|&byte| is_value_mark(byte))
}

fn is_mark(byte: u8) -> bool
    ensures { result ≡ is_mark byte }
{
    matches!(byte, b'&' | b'<' | b'>' | b'\t' | b'\n' | b'\r')
}

fn is_value_mark(byte: u8) -> bool
    ensures { result ≡ is_value_mark byte }
{
    byte == b'"' || is_mark(byte)
}

/// Appends a text, character by character.
fn push_marked_text(out: &mut Piece, text: &str) -> Result<(), AllocError>
    ensures { OnOk result (out.new ≡ out.old ++ text_of text.now) }
{
    for character in text.chars() {
        push_text_character(out, character)?;
    }
    Ok(())
}

/// Appends a value, character by character.
fn push_marked_value(out: &mut Piece, value: &str) -> Result<(), AllocError>
    ensures { OnOk result (out.new ≡ out.old ++ value_of value.now) }
{
    for character in value.chars() {
        push_value_character(out, character)?;
    }
    Ok(())
}

fn push_value_character(out: &mut Piece, character: char) -> Result<(), AllocError>
    ensures { OnOk result (out.new ≡ out.old ++ value_char character) }
{
    if character == '"' {
        return push_ascii(out, b"&quot;");
    }
    push_text_character(out, character)
}

fn push_text_character(out: &mut Piece, character: char) -> Result<(), AllocError>
    ensures { OnOk result (out.new ≡ out.old ++ text_char character) }
{
    match character {
        '&' => push_ascii(out, b"&amp;"),
        '<' => push_ascii(out, b"&lt;"),
        '>' => push_ascii(out, b"&gt;"),
        '\t' => push_ascii(out, b"&#x9;"),
        '\n' => push_ascii(out, b"&#xA;"),
        '\r' => push_ascii(out, b"&#xD;"),
        other => out.push(other),
    }
}
