//! Comments and CDATA sections.

ghost use Rattle.std.specs.Option.{option_copied, option_map};
ghost use Rattle.std.specs.Prelude.{◌≡◌, false, codes, encode_utf8_all};
ghost use Rattle.wef_tree_pieces.specs.Pieces.{comment_tail, section_tail};
ghost use Rattle.wef_tree_pieces.specs.Reads.{Reads};
ghost use Rattle.wef_xml.specs.Fronts.{strip};

use crate::faults::Halt;
use std::alloc::Global;
use wef_base::{Text, is_xml_char};
use wef_xml::fronts::strip;

/// What is left behind a comment, whose text begins behind `<!--`.
pub fn comment_tail(text: &[char]) -> Option<&[char]>
    ensures { option_copied result ≡ comment_tail false text.now }
{
    let mut dashed = false;
    let mut rest = text;
    while let [character, more @ ..] = rest {
        let is_dash = *character == '-';
        if dashed && is_dash {
            return strip(b">", more);
        }
        if !is_xml_char(*character) {
            return None;
        }
        dashed = is_dash;
        rest = more;
    }
    None
}

/// The text of a CDATA section, which begins behind `<![CDATA[`, and what is left.
pub fn section_tail(alloc: Global, text: &[char]) -> Result<(Text, &[char]), Halt>
    ensures { Reads result (section_tail text.now) }
{
    let (section, rest) = split_section(text).ok_or(Halt::Bad)?;
    Ok((Text::from_chars(alloc, section)?, rest))
}

/// The characters of a CDATA section up to its `]]>`, and what is left behind that. They are text as
/// they stand, so nothing is written before the last of them is found.
fn split_section(text: &[char]) -> Option<(&[char], &[char])>
    ensures { option_map (λ read. (encode_utf8_all read.0.now, read.1.now)) result ≡ section_tail text.now }
{
    let mut length = 0;
    let mut rest = text;
    while let Some((character, more)) = rest.split_first() {
        if let Some(behind) = behind_section(rest) {
            return Some((text.split_at(length).0, behind));
        }
        if !is_xml_char(*character) {
            return None;
        }
        length += 1;
        rest = more;
    }
    None
}

/// What is left behind the end of a section, where a text begins with it.
fn behind_section(text: &[char]) -> Option<&[char]>
    ensures { option_copied result ≡ strip (codes "]]>") text.now }
{
    match text {
        [']', ']', '>', rest @ ..] => Some(rest),
        _ => None,
    }
}
