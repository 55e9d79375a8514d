//! The declaration of XML.

ghost use Rattle.std.specs.Option.{option_copied};
ghost use Rattle.std.specs.Prelude.{◌≡◌};
ghost use Rattle.wef_tree_pieces.specs.Pieces.{behind_any_quoted, behind_character, behind_encoding, behind_quote, behind_quoted, behind_standalone, behind_version, behind_word, behind_yes_or_no, declaration_tail};

use crate::tags::behind_equals;
use wef_base::names::trim_start;
use wef_xml::fronts::{behind_spaces, strip};

/// What is left behind a declaration, whose text begins behind `<?xml`.
pub fn declaration_tail(text: &[char]) -> Option<&[char]>
    ensures { option_copied result ≡ declaration_tail text.now }
{
    let rest = behind_standalone(behind_encoding(behind_version(text)?)?)?;
    strip(b"?>", trim_start(rest))
}

fn behind_version(text: &[char]) -> Option<&[char]>
    ensures { option_copied result ≡ behind_version text.now }
{
    behind_quoted(b"1.0", behind_word(b"version", text)?)
}

fn behind_encoding(text: &[char]) -> Option<&[char]>
    ensures { option_copied result ≡ behind_encoding text.now }
{
    match behind_word(b"encoding", text) {
        Some(rest) => behind_any_quoted(rest),
        None => Some(text),
    }
}

fn behind_standalone(text: &[char]) -> Option<&[char]>
    ensures { option_copied result ≡ behind_standalone text.now }
{
    match behind_word(b"standalone", text) {
        Some(rest) => behind_yes_or_no(rest),
        None => Some(text),
    }
}

fn behind_yes_or_no(text: &[char]) -> Option<&[char]>
    ensures { option_copied result ≡ behind_yes_or_no text.now }
{
    match behind_quoted(b"yes", text) {
        Some(rest) => Some(rest),
        None => behind_quoted(b"no", text),
    }
}

fn behind_word<'a>(word: &[u8], text: &'a [char]) -> Option<&'a [char]>
    ensures { option_copied result ≡ behind_word word.now text.now }
{
    behind_equals(strip(word, behind_spaces(text)?)?)
}

fn behind_quoted<'a>(word: &[u8], text: &'a [char]) -> Option<&'a [char]>
    ensures { option_copied result ≡ behind_quoted word.now text.now }
{
    match text {
        [quote, rest @ ..] if *quote == '"' || *quote == '\'' => {
            behind_character(*quote, strip(word, rest)?)
        }
        _ => None,
    }
}

/// What is left behind this character, where a text begins with it.
pub fn behind_character(wanted: char, text: &[char]) -> Option<&[char]>
    ensures { option_copied result ≡ behind_character wanted text.now }
{
    match text {
        [character, rest @ ..] if *character == wanted => Some(rest),
        _ => None,
    }
}

fn behind_any_quoted(text: &[char]) -> Option<&[char]>
    ensures { option_copied result ≡ behind_any_quoted text.now }
{
    match text {
        [quote, rest @ ..] if *quote == '"' || *quote == '\'' => behind_quote(*quote, rest),
        _ => None,
    }
}

/// What is left behind the next quote of this kind.
fn behind_quote(quote: char, text: &[char]) -> Option<&[char]>
    ensures { option_copied result ≡ behind_quote quote text.now }
{
    let mut rest = text;
    while let [character, more @ ..] = rest {
        if *character == quote {
            return Some(more);
        }
        rest = more;
    }
    None
}
