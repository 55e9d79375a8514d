//! Line ends of a text.

ghost use Rattle.std.specs.Prelude.{◌≡◌, false, IfOk};
ghost use Rattle.wef_xml.specs.Decoding.{line_ends};

use std::alloc::{AllocError, Global};

/// The characters with each line end as one line feed (XML 1.0, 2.11).
pub fn join_line_ends(alloc: Global, characters: &[char]) -> Result<Vec<char>, AllocError>
    ensures { IfOk result (λ text. text.items ≡ line_ends false characters.now) }
{
    let mut text = Vec::with_capacity(alloc, characters.len())?;
    let mut after_return = false;
    for &character in characters {
        if character == '\r' {
            text.push('\n')?;
        } else if character != '\n' || !after_return {
            text.push(character)?;
        }
        after_return = character == '\r';
    }
    Ok(text)
}
