//! The texts of ids.

ghost use Rattle.std.specs.Prelude.{◌≡◌, Some, IfOk};
ghost use Rattle.wef_ids.specs.IdTexts.{behind, id_of, id_text, id_value};

use crate::MessageId;
use std::alloc::{AllocError, Global};
use uuid::Uuid;
use wef_base::Text;

/// The text of an id that has this value: `uuid:` and its hyphenated form in small letters. It is
/// read as this value.
pub fn id_text(alloc: Global, value: u128) -> Result<Text, AllocError>
    ensures value { IfOk result (λ text. text ≡ id_text value) }
    ensures reads_back { IfOk result (λ text. id_value text ≡ Some value) }
{
    let mut buffer = Uuid::encode_buffer();
    let digits = Uuid::from_u128(value)
        .hyphenated()
        .encode_lower(&mut buffer);
    let mut text = Text::from_str(alloc, "uuid:")?;
    text.push_str(digits)?;
    Ok(text)
}

/// The id that a text is. It has a value exactly where the text, behind `urn:` or not and then
/// behind `uuid:` or not, in letters of either case, is a UUID.
pub fn read_id(text: &Text) -> Result<MessageId, AllocError>
    ensures { IfOk result (λ id. id ≡ id_of text.now) }
{
    Ok(MessageId {
        value: value_of(text.as_str().as_bytes()),
        text: text.clone()?,
    })
}

#[tactic(auto, unfolding(crate::specs::IdTexts::id_value))]
fn value_of(text: &[u8]) -> Option<u128>
    ensures { result ≡ id_value text.now }
{
    match Uuid::try_parse_ascii(behind(b"uuid:", behind(b"urn:", text))) {
        Ok(id) => Some(id.as_u128()),
        Err(_) => None,
    }
}

/// A text without a word that it begins with, in letters of either case.
fn behind<'a>(word: &[u8], text: &'a [u8]) -> &'a [u8]
    ensures { result.now ≡ behind word.now text.now }
{
    let Some((front, rest)) = text.split_at_checked(word.len()) else {
        return text;
    };
    if front.eq_ignore_ascii_case(word) {
        rest
    } else {
        text
    }
}
