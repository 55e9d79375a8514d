//! What a text begins with.

ghost use Rattle.std.specs.Prelude.{◌≡◌};
ghost use Rattle.std.specs.Option.{option_copied};
ghost use Rattle.wef_xml.specs.Fronts.{behind_spaces, strip};

use wef_base::names::{is_xml_space, trim_start};

/// What is left of a text that begins with these characters of ASCII.
pub fn strip<'a>(front: &[u8], text: &'a [char]) -> Option<&'a [char]>
    ensures { option_copied result ≡ strip front.now text.now }
{
    let mut wanted = front;
    let mut rest = text;
    while let [byte, others @ ..] = wanted {
        let [character, more @ ..] = rest else {
            return None;
        };
        if u32::from(*byte) != u32::from(*character) {
            return None;
        }
        wanted = others;
        rest = more;
    }
    Some(rest)
}

/// What is left behind one space or more.
pub fn behind_spaces(text: &[char]) -> Option<&[char]>
    ensures { option_copied result ≡ behind_spaces text.now }
{
    match text {
        [character, rest @ ..] if is_xml_space(*character) => Some(trim_start(rest)),
        _ => None,
    }
}
