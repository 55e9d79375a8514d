//! How long the text of an event is, counted without making it.

ghost use Rattle.std.specs.Fmt.{decimal};
ghost use Rattle.std.specs.Prelude.{◌≡◌, ◌≤◌, ◌<◌, length};
ghost use Rattle.wef_event.specs.Characters.{escape, escaped};
ghost use Rattle.wef_event.specs.Lengths.{length_within};

use wef_base::Text;

/// How many digits a number has.
pub(crate) fn decimal_length(number: u64) -> usize
    ensures value { result ≡ length (decimal number) }
    ensures small { result ≤ 20 }
{
    let mut rest = number;
    let mut length = 1usize;
    while rest >= 10 {
        rest /= 10;
        length += 1;
    }
    length
}

/// How many bytes a text has as it stands between two tags. None where there are more than `limit`.
pub(crate) fn escaped_length(text: &Text, limit: usize) -> Option<usize>
    requires { limit < 4294967296 }
    ensures { result ≡ length_within limit (escaped text.now) }
{
    escaped_str_length(text.as_str(), limit)
}

fn escaped_str_length(text: &str, limit: usize) -> Option<usize>
    requires { limit < 4294967296 }
    ensures { result ≡ length_within limit (escaped text.now) }
{
    let mut length = 0usize;
    for character in text.chars() {
        length += escape_length(character);
        if length > limit {
            return None;
        }
    }
    Some(length)
}

fn escape_length(character: char) -> usize
    ensures value { result ≡ length (escape character) }
    ensures small { result ≤ 5 }
{
    match character {
        '&' => 5,
        '<' | '>' => 4,
        '\t' | '\n' | '\r' => 5,
        _ => character.len_utf8(),
    }
}
