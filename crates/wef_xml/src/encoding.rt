//! Characters as bytes.

ghost use Rattle.std.specs.Prelude.{◌≡◌, ◌<◌, ◌++◌, OnOk};
ghost use Rattle.std.specs.Str.{chars};
ghost use Rattle.wef_base.specs.declared.tree.Charset.TheVariants.{Utf16};
ghost use Rattle.wef_xml.specs.Canonical.{bytes_of, character_bytes, unit_bytes, written_mark};

use std::alloc::AllocError;
use wef_base::{Bytes, Charset};

/// Appends the byte order mark of a charset.
pub fn push_mark(bytes: &mut Bytes, charset: Charset) -> Result<(), AllocError>
    ensures { OnOk result (bytes.new ≡ bytes.old ++ written_mark charset) }
{
    match charset {
        Charset::Utf8 => Ok(()),
        Charset::Utf16 => bytes.extend(&[0xFF, 0xFE]),
    }
}

/// Appends the characters of a text.
#[tactic(auto, using(crate::proofs::Copied::copied_bytes))]
pub fn push_text(bytes: &mut Bytes, charset: Charset, text: &str) -> Result<(), AllocError>
    ensures { OnOk result (bytes.new ≡ bytes.old ++ bytes_of charset (chars text.now)) }
{
    match charset {
        Charset::Utf8 => bytes.extend(text.as_bytes()),
        Charset::Utf16 => push_units(bytes, text),
    }
}

fn push_units(bytes: &mut Bytes, text: &str) -> Result<(), AllocError>
    ensures { OnOk result (bytes.new ≡ bytes.old ++ bytes_of Utf16 (chars text.now)) }
{
    for character in text.chars() {
        push_utf16(bytes, character)?;
    }
    Ok(())
}

fn push_utf16(bytes: &mut Bytes, character: char) -> Result<(), AllocError>
    ensures { OnOk result (bytes.new ≡ bytes.old ++ character_bytes Utf16 character) }
{
    let code = u32::from(character);
    if code < 0x1_0000 {
        return push_unit(bytes, code);
    }
    push_unit(bytes, 0xD800 + (code - 0x1_0000) / 1024)?;
    push_unit(bytes, 0xDC00 + (code - 0x1_0000) % 1024)
}

/// Appends a unit, the low byte first.
fn push_unit(bytes: &mut Bytes, unit: u32) -> Result<(), AllocError>
    requires { unit < 0x10000 }
    ensures { OnOk result (bytes.new ≡ bytes.old ++ unit_bytes unit) }
{
    bytes.push((unit % 256) as u8)?;
    bytes.push((unit / 256) as u8)
}
