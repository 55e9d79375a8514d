//! The words of a line as values: names, numbers within limits, texts.

ghost use Rattle.std.specs.Prelude.{◌≡◌, ◌<◌, ◌≤◌, IfOk};
ghost use Rattle.wef_base.specs.Names.{same};
ghost use Rattle.wef_base.specs.Words.{decoded, utf8};
ghost use Rattle.wef_base.specs.declared.numbers.TheConstants.{MAX};
ghost use Rattle.wef_replay_values.specs.Reading.{Gives};
ghost use Rattle.wef_replay_values.specs.Values.{subscription_word, source_word, channel_word, sending_source_word, end_word, after_word, joined, number_word, channel_words};

use crate::end_name::EndName;
use std::alloc::{AllocError, Global};
use thiserror::Error;
use wef_base::numbers::read_plain_number;
use wef_base::words::decode;
use wef_base::{Bytes, ChannelName, List, SourceName, SubId, Text, ValueFault};
use wef_event::EventFault;

/// Why a line isn't read.
#[derive(Clone, Copy, Debug, PartialEq, Eq, Error)]
pub enum LineFault {
    #[error("no memory")]
    NoMemory,
    /// The line isn't one of a schedule.
    #[error("not understood")]
    NotUnderstood,
}

impl From<AllocError> for LineFault {
    ghost use Rattle.std.specs.Prelude.{◌≡◌};
    ghost use Rattle.wef_replay_values.specs.declared.values.LineFault.TheVariants.{NoMemory};

    ghost from_gives = { λ _ e. e ≡ NoMemory };

    fn from(_error: AllocError) -> LineFault {
        LineFault::NoMemory
    }
}

impl From<ValueFault> for LineFault {
    ghost use Rattle.wef_replay_values.specs.Reading.{line_fault};

    ghost from_gives = { λ fault e. e ≡ line_fault fault };

    fn from(fault: ValueFault) -> LineFault {
        match fault {
            ValueFault::NoMemory => LineFault::NoMemory,
            _ => LineFault::NotUnderstood,
        }
    }
}

impl From<EventFault> for LineFault {
    ghost use Rattle.wef_replay_values.specs.Reading.{event_line_fault};

    ghost from_gives = { λ fault e. e ≡ event_line_fault fault };

    fn from(fault: EventFault) -> LineFault {
        match fault {
            EventFault::NoMemory => LineFault::NoMemory,
            _ => LineFault::NotUnderstood,
        }
    }
}

/// Whether a word is this one, letter for letter.
pub fn is_word(word: &Bytes, text: &str) -> bool
    ensures { result ≡ same word.now text.now }
{
    spells(word.as_slice(), text)
}

/// Whether bytes are this word, letter for letter.
pub fn spells(bytes: &[u8], text: &str) -> bool
    ensures { result ≡ same bytes.now text.now }
{
    bytes == text.as_bytes()
}

/// A word and those that follow it, each behind the byte that separates them.
pub fn joined(
    alloc: Global,
    separator: u8,
    first: &Bytes,
    more: &[Bytes],
) -> Result<Bytes, AllocError>
    ensures { IfOk result (λ whole. whole ≡ joined separator first.now more.now) }
{
    let mut whole = Bytes::from_slice(alloc, first.as_slice())?;
    for word in more {
        whole.push(separator)?;
        whole.extend(word.as_slice())?;
    }
    Ok(whole)
}

/// The text that a word stands for, percent-decoded.
pub fn text_of(alloc: Global, word: &Bytes) -> Result<Text, LineFault>
    ensures { Gives result (decoded word.now) }
{
    text_in(alloc, word.as_slice())
}

/// The text that bytes stand for, percent-decoded.
pub fn text_in(alloc: Global, bytes: &[u8]) -> Result<Text, LineFault>
    ensures { Gives result (decoded bytes.now) }
{
    decode(alloc, bytes)?.ok_or(LineFault::NotUnderstood)
}

/// The text that bytes are in UTF-8.
pub fn utf8_text_of(alloc: Global, bytes: &[u8]) -> Result<Text, LineFault>
    ensures { Gives result (utf8 bytes.now) }
{
    match std::str::from_utf8(bytes) {
        Ok(text) => Ok(Text::from_str(alloc, text)?),
        Err(_) => Err(LineFault::NotUnderstood),
    }
}

/// The subscription's name that a word gives, percent-decoded.
pub fn subscription_of(alloc: Global, word: &Bytes) -> Result<SubId, LineFault>
    ensures { Gives result (subscription_word word.now) }
{
    Ok(SubId::read(&text_of(alloc, word)?)?)
}

/// The source's name that a word gives, percent-decoded.
pub fn source_of(alloc: Global, word: &Bytes) -> Result<SourceName, LineFault>
    ensures { Gives result (source_word word.now) }
{
    Ok(SourceName::read(&text_of(alloc, word)?)?)
}

/// The channel's name that a word gives, percent-decoded.
pub fn channel_of(alloc: Global, word: &Bytes) -> Result<ChannelName, LineFault>
    ensures { Gives result (channel_word word.now) }
{
    channel_in(alloc, word.as_slice())
}

/// The channel's name that bytes give, percent-decoded.
pub fn channel_in(alloc: Global, bytes: &[u8]) -> Result<ChannelName, LineFault>
    ensures { Gives result (channel_word bytes.now) }
{
    Ok(ChannelName::read(&text_in(alloc, bytes)?)?)
}

/// A source's name. `collector` names the other end, so no source has that name.
pub fn sending_source_of(alloc: Global, word: &Bytes) -> Result<SourceName, LineFault>
    ensures { Gives result (sending_source_word word.now) }
{
    let source = source_of(alloc, word)?;
    if source.as_text().as_str() == "collector" {
        return Err(LineFault::NotUnderstood);
    }
    Ok(source)
}

/// The end that a word names: `collector` as it stands, or a source.
pub fn end_of(alloc: Global, word: &Bytes) -> Result<EndName, LineFault>
    ensures { Gives result (end_word word.now) }
{
    if is_word(word, "collector") {
        return Ok(EndName::Collector);
    }
    Ok(EndName::Source(sending_source_of(alloc, word)?))
}

/// Whether a commit is to fail with its changes kept: `after`, or `before` where they aren't.
pub fn after_of(word: &Bytes) -> Result<bool, LineFault>
    ensures { Gives result (after_word word.now) }
{
    if is_word(word, "before") {
        return Ok(false);
    }
    if is_word(word, "after") {
        return Ok(true);
    }
    Err(LineFault::NotUnderstood)
}

/// The number of a word, from `least` to `greatest`.
pub fn number_of(word: &Bytes, least: u64, greatest: u64) -> Result<u64, LineFault>
    requires { greatest ≤ MAX }
    ensures value { Gives result (number_word least greatest word.now) }
    ensures within { IfOk result (λ n. n ≤ greatest) }
{
    number_in(word.as_slice(), least, greatest)
}

/// The number that bytes are, from `least` to `greatest`.
pub fn number_in(bytes: &[u8], least: u64, greatest: u64) -> Result<u64, LineFault>
    requires { greatest ≤ MAX }
    ensures value { Gives result (number_word least greatest bytes.now) }
    ensures within { IfOk result (λ n. n ≤ greatest) }
{
    match read_plain_number(bytes, greatest) {
        Some(number) if number >= least => Ok(number),
        _ => Err(LineFault::NotUnderstood),
    }
}

/// The channels that words name.
pub fn channels_of(alloc: Global, words: &[Bytes]) -> Result<List<ChannelName>, LineFault>
    ensures { Gives result (channel_words words.now) }
{
    let mut channels = List::new(alloc);
    for word in words {
        channels.push(channel_of(alloc, word)?)?;
    }
    Ok(channels)
}
