//! Names of channels, sources and subscriptions.

ghost use Rattle.std.specs.Prelude.{◌≡◌, ◌<◌, ◌==◌, ◌||◌, List, [], map, IfOk, IfSome, encode_utf8_all};
ghost use Rattle.std.specs.List.{list_any};
ghost use Rattle.wef_base.specs.Names.{is_forbidden, is_space, spelt, trimmed_characters, without_end, without_start, name_of_characters, name_of, channel_name, source_name, subscription_name, ReadsName};

use crate::text::Text;
use std::alloc::{AllocError, AllocFailed, Global};
use std::marker::Model;
use thiserror::Error;

/// Why a text isn't a value of the type that was asked for.
#[derive(Clone, Copy, Debug, PartialEq, Eq, Error)]
pub enum ValueFault {
    #[error("no memory")]
    NoMemory,
    #[error("not a number")]
    NotANumber,
    #[error("the number is too large")]
    TooLarge,
    #[error("not a duration")]
    NotADuration,
    #[error("not a moment")]
    NotAMoment,
    #[error("not a name")]
    BadName,
}

impl From<AllocError> for ValueFault {
    ghost use Rattle.std.specs.Prelude.{◌≡◌};
    ghost use Rattle.wef_base.specs.declared.names.ValueFault.TheVariants.{NoMemory};

    ghost from_gives = { λ _ e. e ≡ NoMemory };

    fn from(_error: AllocError) -> ValueFault {
        ValueFault::NoMemory
    }
}

/// The name of a channel of events, of 1 to 256 bytes in small letters.
#[derive(Debug, Drop, PartialEq, Eq, PartialOrd, Ord)]
pub struct ChannelName {
    text: Text,
}

impl Model for ChannelName {
    ghost use Rattle.std.specs.Prelude.{◌≡◌, ℕ, List, Some};
    ghost use Rattle.wef_base.specs.Names.{channel_name};

    ghost Value = { List ℕ };

    ghost view = { λ name. name.text };

    ghost invariant = { λ name. channel_name name.text ≡ Some name.text };

    ghost inverse = { λ bytes. record { text = bytes } };
}

impl ChannelName {
    /// Reads a name: spaces at both ends are trimmed, and the letters A to Z made small. `BadName`
    /// where what is left is empty or has more than 256 bytes, or holds a character below U+0020,
    /// U+007F, U+FFFE or U+FFFF.
    pub fn read(text: &Text) -> Result<ChannelName, ValueFault>
        ensures { ReadsName result (channel_name text.now) }
    {
        ChannelName::named(text)?.ok_or(ValueFault::BadName)
    }

    /// The name that a text is, as `read` reads it. None where it is no name.
    #[tactic(auto, unfolding(crate::specs::Names::channel_name))]
    pub fn named(text: &Text) -> Result<Option<ChannelName>, AllocError>
        ensures { IfOk result (λ name. name ≡ channel_name text.now) }
    {
        let Some(text) = read_name(text, 256, Letters::Small)? else {
            return Ok(None);
        };
        Ok(Some(ChannelName { text }))
    }

    /// The name as a text, which reads back as this name.
    pub fn as_text(&self) -> &Text
        ensures value { result.now ≡ self.now }
        ensures kept { channel_name self.now ≡ Some self.now }
    {
        &self.text
    }

    /// A copy of the name, which shares its text.
    pub fn clone(&self) -> Result<ChannelName, AllocError>
        ensures { IfOk result (λ copy. copy ≡ self.now) }
    {
        Ok(ChannelName {
            text: self.text.clone()?,
        })
    }
}

/// The name of a source of events, of 1 to 255 bytes in small letters.
#[derive(Debug, Drop, PartialEq, Eq, PartialOrd, Ord)]
pub struct SourceName {
    text: Text,
}

impl Model for SourceName {
    ghost use Rattle.std.specs.Prelude.{◌≡◌, ℕ, List, Some};
    ghost use Rattle.wef_base.specs.Names.{source_name};

    ghost Value = { List ℕ };

    ghost view = { λ name. name.text };

    ghost invariant = { λ name. source_name name.text ≡ Some name.text };

    ghost inverse = { λ bytes. record { text = bytes } };
}

impl SourceName {
    /// Reads a name as `ChannelName::read` does, of at most 255 bytes.
    pub fn read(text: &Text) -> Result<SourceName, ValueFault>
        ensures { ReadsName result (source_name text.now) }
    {
        SourceName::named(text)?.ok_or(ValueFault::BadName)
    }

    /// The name that a text is, as `read` reads it. None where it is no name.
    #[tactic(auto, unfolding(crate::specs::Names::source_name))]
    pub fn named(text: &Text) -> Result<Option<SourceName>, AllocError>
        ensures { IfOk result (λ name. name ≡ source_name text.now) }
    {
        let Some(text) = read_name(text, 255, Letters::Small)? else {
            return Ok(None);
        };
        Ok(Some(SourceName { text }))
    }

    /// The name as a text, which reads back as this name.
    pub fn as_text(&self) -> &Text
        ensures value { result.now ≡ self.now }
        ensures kept { source_name self.now ≡ Some self.now }
    {
        &self.text
    }

    /// A copy of the name, which shares its text.
    pub fn clone(&self) -> Result<SourceName, AllocError>
        ensures { IfOk result (λ copy. copy ≡ self.now) }
    {
        Ok(SourceName {
            text: self.text.clone()?,
        })
    }
}

/// The name of a subscription, of 1 to 128 bytes, its letters as they are.
#[derive(Debug, Drop, PartialEq, Eq, PartialOrd, Ord)]
pub struct SubId {
    text: Text,
}

impl Model for SubId {
    ghost use Rattle.std.specs.Prelude.{◌≡◌, ℕ, List, Some};
    ghost use Rattle.wef_base.specs.Names.{subscription_name};

    ghost Value = { List ℕ };

    ghost view = { λ name. name.text };

    ghost invariant = { λ name. subscription_name name.text ≡ Some name.text };

    ghost inverse = { λ bytes. record { text = bytes } };
}

impl SubId {
    /// Reads a name as `ChannelName::read` does, of at most 128 bytes, and keeps its letters.
    pub fn read(text: &Text) -> Result<SubId, ValueFault>
        ensures { ReadsName result (subscription_name text.now) }
    {
        SubId::named(text)?.ok_or(ValueFault::BadName)
    }

    /// The name that a text is, as `read` reads it. None where it is no name.
    #[tactic(auto, unfolding(crate::specs::Names::subscription_name))]
    pub fn named(text: &Text) -> Result<Option<SubId>, AllocError>
        ensures { IfOk result (λ name. name ≡ subscription_name text.now) }
    {
        let Some(text) = read_name(text, 128, Letters::Kept)? else {
            return Ok(None);
        };
        Ok(Some(SubId { text }))
    }

    /// The name as a text, which reads back as this name.
    pub fn as_text(&self) -> &Text
        ensures value { result.now ≡ self.now }
        ensures kept { subscription_name self.now ≡ Some self.now }
    {
        &self.text
    }

    /// A copy of the name, which shares its text.
    pub fn clone(&self) -> Result<SubId, AllocError>
        ensures { IfOk result (λ copy. copy ≡ self.now) }
    {
        Ok(SubId {
            text: self.text.clone()?,
        })
    }
}

/// How a name keeps its letters.
#[derive(Clone, Copy, Debug, PartialEq, Eq)]
pub enum Letters {
    Kept,
    Small,
}

impl Letters {
    fn spell(self, character: char) -> char
        ensures { result ≡ spelt self character }
    {
        match self {
            Letters::Kept => character,
            Letters::Small => character.to_ascii_lowercase(),
        }
    }
}

fn read_name(text: &Text, limit: usize, letters: Letters) -> Result<Option<Text>, AllocError>
    ensures value { IfOk result (λ name. name ≡ name_of letters limit text.now) }
    ensures kept { IfOk result (λ name. IfSome name (λ name. name_of letters limit name ≡ Some name)) }
{
    let characters = text.characters()?;
    name_from(text.alloc(), trim(characters.as_slice()), limit, letters)
}

fn name_from(
    alloc: Global,
    characters: &[char],
    limit: usize,
    letters: Letters,
) -> Result<Option<Text>, AllocError>
    ensures { IfOk result (λ name. name ≡ name_of_characters letters limit characters.now) }
{
    if characters.is_empty() || has_forbidden(characters) {
        return Ok(None);
    }
    let name = respelt(alloc, characters, letters)?;
    if name.len() > limit {
        return Ok(None);
    }
    Ok(Some(name))
}

fn has_forbidden(characters: &[char]) -> bool
    ensures { result ≡ list_any is_forbidden characters.now }
{
    characters.iter().any(|&c| is_forbidden_character(c))
}

fn is_forbidden_character(character: char) -> bool
    ensures { result ≡ is_forbidden character }
{
    let code = u32::from(character);
    code < 32 || code == 127 || code == 65534 || code == 65535
}

fn respelt(alloc: Global, characters: &[char], letters: Letters) -> Result<Text, AllocError>
    ensures { IfOk result (λ t. t ≡ encode_utf8_all (map (spelt letters) characters.now)) }
{
    let mut text = Text::new(alloc);
    for &character in characters {
        text.push(letters.spell(character))?;
    }
    Ok(text)
}

/// Whether XML 1.0 calls a character a space: space, TAB, LF or CR.
pub fn is_xml_space(character: char) -> bool
    ensures { result ≡ is_space character }
{
    let code = u32::from(character);
    code == 32 || code == 9 || code == 10 || code == 13
}

/// Characters without the spaces at both ends.
pub fn trim(characters: &[char]) -> &[char]
    ensures { result.now ≡ trimmed_characters characters.now }
{
    trim_end(trim_start(characters))
}

/// Characters without the spaces that they begin with.
pub fn trim_start(characters: &[char]) -> &[char]
    ensures { result.now ≡ without_start characters.now }
{
    let mut rest = characters;
    while let Some((&first, others)) = rest.split_first() {
        if !is_xml_space(first) {
            return rest;
        }
        rest = others;
    }
    rest
}

fn trim_end(characters: &[char]) -> &[char]
    ensures { result.now ≡ without_end characters.now }
{
    let mut rest = characters;
    while let Some((&last, others)) = rest.split_last() {
        if !is_xml_space(last) {
            return rest;
        }
        rest = others;
    }
    rest
}
