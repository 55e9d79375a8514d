//! The words of a batch, parted by one space.

ghost use Rattle.std.specs.Prelude.{◌≡◌, [], is_some, IsTrue, IfOk, OnOk};
ghost use Rattle.wef_base.specs.Characters.{is_xml_text};
ghost use Rattle.wef_base.specs.Words.{parts};
ghost use Rattle.wef_replay.specs.BatchWords.{empty_batch, added, batch_word, IsWithin, loose_word, reach_word, read_words};
ghost use Rattle.wef_replay.specs.Pieces.{GivesHalf, data_in, dropped_in, event_in, said};
ghost use Rattle.wef_replay_values.specs.Reading.{Gives};

use crate::cutting::Parts;
use crate::half_words::{HalfWord, NumberedEvent};
use crate::pieces::{Pieces, has_colon, pieces_of};
use std::alloc::{AllocError, Global};
use wef_base::numbers::MAX;
use wef_base::{ChannelName, List, Text, is_xml_text};
use wef_batch::{Batch, Item};
use wef_bookmark::Bookmark;
use wef_event::PlainEvent;
use wef_replay_values::LastChannel;
use wef_replay_values::values::{LineFault, number_in, spells, text_in};

/// What one word of a batch says.
#[derive(Drop)]
pub enum BatchWord {
    Item(Item),

    /// How far the batch reads a channel.
    Reach { channel: ChannelName, number: u64 },

    /// The source wants to hear that the batch is kept.
    Ack,
}

/// Whether words make a batch. No event is made.
pub fn is_batch(alloc: Global, words: &[u8]) -> Result<bool, AllocError>
    ensures { IfOk result (λ is. is ≡ is_some (read_words empty_batch (parts 32 words.now))) }
{
    let mut channel = LastChannel::none();
    for word in Parts::of(words, b' ') {
        if !is_batch_word(alloc, &mut channel, word)? {
            return Ok(false);
        }
    }
    Ok(true)
}

fn is_batch_word<'a>(
    alloc: Global,
    last: &mut LastChannel<'a>,
    word: &'a [u8],
) -> Result<bool, AllocError>
    ensures { IfOk result (λ is. is ≡ is_some (batch_word word.now)) }
{
    match half_of(alloc, last, word) {
        Ok(half) => Ok(half.fits()),
        Err(LineFault::NoMemory) => Err(AllocError),
        Err(LineFault::NotUnderstood) => Ok(false),
    }
}

/// The batch that words make, in order.
pub fn batch_of(alloc: Global, words: &[u8]) -> Result<Batch, LineFault>
    ensures { Gives result (read_words empty_batch (parts 32 words.now)) }
{
    let mut batch = Batch {
        items: room_for(alloc, words)?,
        to: Bookmark::new(alloc),
        ack_wanted: false,
    };
    let mut channel = LastChannel::none();
    for word in Parts::of(words, b' ') {
        add(&mut batch, word_of(alloc, &mut channel, word)?)?;
    }
    Ok(batch)
}

/// No item, and room for as many as there are words.
fn room_for(alloc: Global, words: &[u8]) -> Result<List<Item>, AllocError>
    ensures { IfOk result (λ items. items ≡ []) }
{
    let spaces = words.iter().filter(|byte| **byte == b' ').count();
    Ok(List::from(Vec::with_capacity(alloc, spaces.saturating_add(1))?))
}

fn add(batch: &mut Batch, word: BatchWord) -> Result<(), AllocError>
    requires { IsWithin word }
    ensures { OnOk result (batch.new ≡ added word batch.old) }
{
    match word {
        BatchWord::Item(item) => batch.items.push(item)?,
        BatchWord::Reach { channel, number } => {
            if batch.to.raise(&channel, number).is_err() {
                return Err(AllocError);
            }
        }
        BatchWord::Ack => batch.ack_wanted = true,
    }
    Ok(())
}

fn word_of<'a>(
    alloc: Global,
    last: &mut LastChannel<'a>,
    word: &'a [u8],
) -> Result<BatchWord, LineFault>
    ensures { Gives result (batch_word word.now) }
{
    half_of(alloc, last, word)?.into_word()
}

/// What a word says, up to its event.
fn half_of<'a>(
    alloc: Global,
    last: &mut LastChannel<'a>,
    word: &'a [u8],
) -> Result<HalfWord, LineFault>
    ensures { GivesHalf result (batch_word word.now) }
{
    half_of_pieces(alloc, last, pieces_of(word))
}

fn half_of_pieces<'a>(
    alloc: Global,
    last: &mut LastChannel<'a>,
    pieces: Pieces<'a>,
) -> Result<HalfWord, LineFault>
    ensures { GivesHalf result (said pieces.entry) }
{
    match pieces {
        Pieces::One(kind) if spells(kind, "ack") => Ok(HalfWord::Other(BatchWord::Ack)),
        Pieces::Two(kind, count) if spells(kind, "l") => loose_of(count),
        Pieces::Three(kind, channel, number) if spells(kind, "t") => {
            reach_of(alloc, last, channel, number)
        }
        Pieces::Four(kind, channel, number, text) if spells(kind, "e") => {
            event_of(alloc, last, channel, number, text)
        }
        Pieces::Four(kind, channel, first, text) if spells(kind, "d") => {
            dropped_of(alloc, last, channel, first, text)
        }
        _ => Err(LineFault::NotUnderstood),
    }
}

fn loose_of(count: &[u8]) -> Result<HalfWord, LineFault>
    ensures { GivesHalf result (loose_word count.now) }
{
    let count = number_in(count, 0, MAX)?;
    Ok(HalfWord::Other(BatchWord::Item(Item::Loose { count })))
}

fn reach_of<'a>(
    alloc: Global,
    last: &mut LastChannel<'a>,
    channel: &'a [u8],
    number: &[u8],
) -> Result<HalfWord, LineFault>
    ensures { GivesHalf result (reach_word channel.now number.now) }
{
    let channel = last.read(alloc, channel)?;
    let number = number_in(number, 0, MAX)?;
    Ok(HalfWord::Other(BatchWord::Reach { channel, number }))
}

fn dropped_of<'a>(
    alloc: Global,
    last: &mut LastChannel<'a>,
    channel: &'a [u8],
    first: &[u8],
    text: &[u8],
) -> Result<HalfWord, LineFault>
    ensures { GivesHalf result (dropped_in channel.now first.now text.now) }
{
    if has_colon(text) {
        return Err(LineFault::NotUnderstood);
    }
    let channel = last.read(alloc, channel)?;
    let first = number_in(first, 1, MAX)?;
    let last = number_in(text, 1, MAX)?;
    Ok(HalfWord::Other(BatchWord::Item(Item::Dropped {
        channel,
        first,
        last,
    })))
}

/// The plain event of a channel, with the identifier 0 and the level 0. Its data may hold colons.
fn event_of<'a>(
    alloc: Global,
    last: &mut LastChannel<'a>,
    channel: &'a [u8],
    number: &[u8],
    text: &[u8],
) -> Result<HalfWord, LineFault>
    ensures { GivesHalf result (event_in channel.now number.now text.now) }
{
    let channel = last.read(alloc, channel)?;
    let number = number_in(number, 1, MAX)?;
    let word = data_of(alloc, text)?;
    Ok(HalfWord::Event(NumberedEvent {
        event: PlainEvent {
            channel,
            id: 0,
            level: 0,
            word,
        },
        number,
    }))
}

fn data_of(alloc: Global, text: &[u8]) -> Result<Text, LineFault>
    ensures value { Gives result (data_in text.now) }
    ensures characters { IfOk result (λ word. IsTrue (is_xml_text word)) }
{
    let word = text_in(alloc, text)?;
    if !is_xml_text(&word)? {
        return Err(LineFault::NotUnderstood);
    }
    Ok(word)
}
