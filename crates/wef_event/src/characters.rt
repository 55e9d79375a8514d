//! How characters stand in text between two tags.

ghost use Rattle.std.specs.Prelude.{◌≡◌, ◌++◌, OnOk};
ghost use Rattle.wef_event.specs.Characters.{escape, escaped};

use std::alloc::AllocError;
use wef_base::Text;

/// Appends a text as it stands between two tags: markup and the white space that a reader would
/// change are character references. After an error a part may stand there.
pub(crate) fn push_escaped(text: &mut Text, word: &str) -> Result<(), AllocError>
    ensures { OnOk result (text.new ≡ text.old ++ escaped word.now) }
{
    for character in word.chars() {
        push_escape(text, character)?;
    }
    Ok(())
}

fn push_escape(text: &mut Text, character: char) -> Result<(), AllocError>
    ensures { OnOk result (text.new ≡ text.old ++ escape character) }
{
    match character {
        '&' => text.push_str("&amp;"),
        '<' => text.push_str("&lt;"),
        '>' => text.push_str("&gt;"),
        '\t' => text.push_str("&#x9;"),
        '\n' => text.push_str("&#xA;"),
        '\r' => text.push_str("&#xD;"),
        _ => text.push(character),
    }
}
