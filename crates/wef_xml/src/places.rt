//! Where in the bytes a character of the text stands.

ghost use Rattle.std.specs.Prelude.{◌≡◌, ◌≤◌};
ghost use Rattle.wef_xml.specs.Decoding.{place, width};

use crate::decoding::without_mark;
use wef_base::Charset;

/// The place in the bytes behind the first so many characters of the text whose line ends are
/// joined, by the characters as they were before.
pub fn place(charset: Charset, bytes: &[u8], characters: &[char], first: usize) -> usize
    ensures { result ≡ place charset bytes.now characters.now first }
{
    let mut total = bytes.len() - without_mark(charset, bytes).len();
    let mut left = first;
    let mut after_return = false;
    let mut rest = characters;
    while let [character, more @ ..] = rest {
        let is_joined = *character == '\n' && after_return;
        if !is_joined {
            if left == 0 {
                return total;
            }
            left -= 1;
        }
        total += width(charset, *character);
        after_return = *character == '\r';
        rest = more;
    }
    total
}

/// How many bytes a character has.
fn width(charset: Charset, character: char) -> usize
    ensures value { result ≡ width charset character }
    ensures small { result ≤ 4 }
{
    match charset {
        Charset::Utf8 => character.len_utf8(),
        Charset::Utf16 => 2 * character.len_utf16(),
    }
}
