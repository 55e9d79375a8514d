//! Names as printed lines show them: percent-encoded (RFC 3986, section 2.1).

ghost use Rattle.std.specs.Prelude.{◌≡◌, ◌++◌, OnOk, OnErr, string_bytes};
ghost use Rattle.wef_base.specs.Printed.{printed};

use percent_encoding::{AsciiSet, CONTROLS, ascii_set, utf8_percent_encode};
use std::alloc::AllocError;

/// The bytes that a printed name shows escaped, beside those past ASCII: control characters, the
/// space, `%` and `:`.
pub const ESCAPED: AsciiSet = ascii_set!(CONTROLS.add(b' ').add(b'%').add(b':'));

/// Appends a name as printed lines show it: every byte below 0x21 or above 0x7E, `%` and `:` as
/// `%` and two capital hexadecimal digits.
pub fn push_printed(text: &mut String, name: &str) -> Result<(), AllocError>
    ensures ok { OnOk result (string_bytes text.new ≡ string_bytes text.old ++ printed name.now) }
    ensures err { OnErr result (string_bytes text.new ≡ string_bytes text.old) }
{
    utf8_percent_encode(name, ESCAPED).append_to(text)
}
