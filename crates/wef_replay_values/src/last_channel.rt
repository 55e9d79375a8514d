//! Channels that words name again.

ghost use Rattle.std.specs.Prelude.{◌≡◌, Some, IfOk, IfSome};
ghost use Rattle.wef_replay_values.specs.Reading.{Gives};
ghost use Rattle.wef_replay_values.specs.Values.{channel_word};

use crate::values::{LineFault, channel_in};
use std::alloc::{AllocError, Global};
use wef_base::ChannelName;

/// The channel that was read last, if any, and the word that named it. Where the next word is the
/// same, its name is a copy.
#[derive(Drop)]
pub struct LastChannel<'a> {
    last: Option<NamedChannel<'a>>,
}

#[derive(Drop)]
struct NamedChannel<'a> {
    word: &'a [u8],
    name: ChannelName,
    ghost named: { channel_word word.now ≡ Some name },
}

impl<'a> LastChannel<'a> {
    /// No channel was read yet.
    pub fn none() -> LastChannel<'a> {
        LastChannel { last: None }
    }

    /// The channel's name that a word gives, percent-decoded.
    pub fn read(&mut self, alloc: Global, word: &'a [u8]) -> Result<ChannelName, LineFault>
        ensures { Gives result (channel_word word.now) }
    {
        if let Some(name) = self.known(word)? {
            return Ok(name);
        }
        let name = channel_in(alloc, word)?;
        self.last = Some(NamedChannel {
            word,
            name: name.clone()?,
        });
        Ok(name)
    }

    /// The name that a word gives, where it is the word that was read last.
    fn known(&self, word: &[u8]) -> Result<Option<ChannelName>, AllocError>
        ensures { IfOk result (λ known. IfSome known (λ name. channel_word word.now ≡ Some name)) }
    {
        match &self.last {
            Some(last) if last.word == word => Ok(Some(last.name.clone()?)),
            _ => Ok(None),
        }
    }
}
