//! Addresses of sources.

ghost use Rattle.std.specs.List.{list_all, list_any};
ghost use Rattle.std.specs.Prelude.{◌≡◌, encode_utf8_all, IfOk};
ghost use Rattle.wef_base.specs.Numbers.{is_digit, is_numeral};
ghost use Rattle.wef_documents.specs.Addresses.{before_last, behind_last, has_port, is_colon, machine_of, source_of, with_port};

use std::alloc::{AllocError, Global};
use wef_base::{SourceName, Text};
use wef_eventing::SourceAt;

/// The source at an address, whose name is that of its machine. An address without a port gets
/// 5985. None where the machine's name is no source's.
#[tactic(auto, unfolding(crate::specs::Addresses::source_of))]
pub(crate) fn source_of(address: &Text) -> Result<Option<SourceAt>, AllocError>
    ensures { IfOk result (λ source. source ≡ source_of address.now) }
{
    let Some(name) = SourceName::named(&machine_of(address)?)? else {
        return Ok(None);
    };
    Ok(Some(SourceAt {
        name,
        address: with_port(address)?,
    }))
}

/// The machine that an address leads to: all but the port.
fn machine_of(address: &Text) -> Result<Text, AllocError>
    ensures { IfOk result (λ machine. machine ≡ machine_of address.now) }
{
    let characters = address.characters()?;
    if !has_port(characters.as_slice()) {
        return address.clone();
    }
    spelt(address.alloc(), before_last(characters.as_slice()))
}

/// An address with its port, or with the usual one where it has none.
fn with_port(address: &Text) -> Result<Text, AllocError>
    ensures { IfOk result (λ text. text ≡ with_port address.now) }
{
    let mut text = address.clone()?;
    if !has_port(address.characters()?.as_slice()) {
        text.push_str(":5985")?;
    }
    Ok(text)
}

fn spelt(alloc: Global, characters: &[char]) -> Result<Text, AllocError>
    ensures { IfOk result (λ text. text ≡ encode_utf8_all characters.now) }
{
    let mut text = Text::new(alloc);
    for &character in characters {
        text.push(character)?;
    }
    Ok(text)
}

/// Whether there are digits alone, one or more, behind the last colon.
fn has_port(characters: &[char]) -> bool
    ensures { result ≡ has_port characters.now }
{
    has_colon(characters) && is_numeral(behind_last(characters))
}

fn has_colon(characters: &[char]) -> bool
    ensures { result ≡ list_any is_colon characters.now }
{
    characters.iter().any(|character| is_colon(*character))
}

fn is_colon(character: char) -> bool
    ensures { result ≡ is_colon character }
{
    character == ':'
}

fn is_numeral(characters: &[char]) -> bool
    ensures { result ≡ is_numeral characters.now }
{
    !characters.is_empty() && are_digits(characters)
}

fn are_digits(characters: &[char]) -> bool
    ensures { result ≡ list_all is_digit characters.now }
{
    characters.iter().all(|character| is_digit(*character))
}

fn is_digit(character: char) -> bool
    ensures { result ≡ is_digit character }
{
    '0' <= character && character <= '9'
}

/// The characters before the last colon.
fn before_last(characters: &[char]) -> &[char]
    ensures { result.now ≡ before_last characters.now }
{
    let behind = behind_last(characters);
    let place = characters
        .len()
        .saturating_sub(behind.len())
        .saturating_sub(1);
    &characters[..place]
}

/// The characters behind the last colon; all of them where there is none.
fn behind_last(characters: &[char]) -> &[char]
    ensures { result.now ≡ behind_last characters.now }
{
    let mut found = characters;
    let mut rest = characters;
    while let [character, more @ ..] = rest {
        rest = more;
        if is_colon(*character) {
            found = more;
        }
    }
    found
}
