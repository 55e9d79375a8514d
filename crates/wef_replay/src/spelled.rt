//! Batches, kept as the words that spell them.

ghost use Rattle.std.specs.Prelude.{◌≡◌, IfOk};
ghost use Rattle.wef_base.specs.Words.{parts};
ghost use Rattle.wef_replay.specs.BatchWords.{empty_batch, read_words};
ghost use Rattle.wef_replay.specs.Good.{are_words};
ghost use Rattle.wef_replay_values.specs.Reading.{Gives};

use crate::batches::{batch_of, is_batch};
use std::alloc::{AllocError, Global};
use std::marker::Model;
use wef_base::Bytes;
use wef_batch::Batch;
use wef_replay_values::values::LineFault;

/// The batch of a line. It is kept as the words that spell it, and its events are made only where
/// the line is done: an event takes many times as much as its word.
#[derive(Debug, Drop)]
pub struct SpelledBatch {
    /// The words, parted by one space.
    words: Bytes,
}

impl Model for SpelledBatch {
    ghost use Rattle.std.specs.Prelude.{◌≡◌, true, is_some};
    ghost use Rattle.wef_base.specs.Words.{parts};
    ghost use Rattle.wef_batch.specs.contracts.items.Batch as contracts;
    ghost use Rattle.wef_batch.specs.declared.items.Batch as batch;
    ghost use Rattle.wef_replay.specs.BatchWords.{empty_batch, read_words, spelled};

    ghost Value = { batch.Batch };

    ghost coded = { contracts.the_row.coded };

    ghost view = { λ b. spelled (parts 32 b.words) };

    ghost invariant = { λ b. is_some (read_words empty_batch (parts 32 b.words)) ≡ true };
}

impl SpelledBatch {
    /// The batch that words spell, in order. It costs a copy of their bytes.
    pub(crate) fn read(alloc: Global, words: &[u8]) -> Result<SpelledBatch, LineFault>
        ensures { Gives result (read_words empty_batch (parts 32 words.now)) }
    {
        if !is_batch(alloc, words)? {
            return Err(LineFault::NotUnderstood);
        }
        Ok(SpelledBatch {
            words: Bytes::from_slice(alloc, words)?,
        })
    }

    /// The batch, with its events.
    pub fn to_batch(&self, alloc: Global) -> Result<Batch, AllocError>
        ensures { IfOk result (λ batch. batch ≡ self.now) }
    {
        match batch_of(alloc, self.words.as_slice()) {
            Ok(batch) => Ok(batch),
            Err(LineFault::NoMemory) => Err(AllocError),
            Err(LineFault::NotUnderstood) => unreachable!(),
        }
    }

    /// Whether the batch says anything, and what it says is within the limits of a schedule, all of
    /// which its type promises.
    pub(crate) fn has_word(&self) -> bool
        ensures { result ≡ are_words self.now }
    {
        // What is read of the batch brings what its type promises.
        let _kept = self.words.len();
        true
    }
}
