//! Characters of names.

ghost use Rattle.std.specs.Prelude.{◌≡◌};
ghost use Rattle.wef_xml.specs.Letters.{is_name_char, is_name_start};

use wef_base::is_xml_char;

/// Whether a name may begin with a character.
pub fn is_name_start(character: char) -> bool
    ensures { result ≡ is_name_start character }
{
    match u32::from(character) {
        0x41..=0x5A | 0x61..=0x7A | 0x5F => true,
        0xD7 | 0xF7 => false,
        code => code >= 0xC0 && is_xml_char(character),
    }
}

/// Whether a character may stand in a name.
pub fn is_name_char(character: char) -> bool
    ensures { result ≡ is_name_char character }
{
    is_name_start(character) || matches!(u32::from(character), 0x30..=0x39 | 0x2D | 0x2E | 0xB7)
}
