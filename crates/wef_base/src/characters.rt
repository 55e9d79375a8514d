//! Characters of XML 1.0.

ghost use Rattle.std.specs.Prelude.{◌≡◌, IfOk};
ghost use Rattle.std.specs.List.{list_all};
ghost use Rattle.wef_base.specs.Characters.{is_xml_char, is_xml_text};

use crate::text::Text;
use std::alloc::AllocError;

/// Whether XML 1.0 allows a character (its rule Char).
pub fn is_xml_char(character: char) -> bool
    ensures { result ≡ is_xml_char character }
{
    matches!(
        u32::from(character),
        9 | 10 | 13 | 0x20..=0xD7FF | 0xE000..=0xFFFD | 0x10000..=0x10FFFF
    )
}

/// Whether XML 1.0 allows each character of a text.
pub fn is_xml_text(text: &Text) -> Result<bool, AllocError>
    ensures { IfOk result (λ is. is ≡ is_xml_text text.now) }
{
    let characters = text.characters()?;
    Ok(are_xml_chars(characters.as_slice()))
}

fn are_xml_chars(characters: &[char]) -> bool
    ensures { result ≡ list_all is_xml_char characters.now }
{
    characters.iter().all(|&c| is_xml_char(c))
}
