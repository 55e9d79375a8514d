//! The pieces of a batch word between its colons.

ghost use Rattle.std.specs.List.{list_any};
ghost use Rattle.std.specs.Prelude.{◌≡◌};
ghost use Rattle.wef_replay.specs.BatchWords.{batch_word};
ghost use Rattle.wef_replay.specs.Pieces.{is_colon, said};

use crate::cutting::cut;

/// A word, cut at its first three colons.
#[derive(Clone, Copy)]
pub(crate) enum Pieces<'a> {
    One(&'a [u8]),
    Two(&'a [u8], &'a [u8]),
    Three(&'a [u8], &'a [u8], &'a [u8]),

    /// The last one may hold more colons.
    Four(&'a [u8], &'a [u8], &'a [u8], &'a [u8]),
}

/// The pieces of a word. They take no memory.
pub(crate) fn pieces_of(word: &[u8]) -> Pieces<'_>
    ensures { said result ≡ batch_word word.now }
{
    let (kind, rest) = cut(word, b':');
    let Some(rest) = rest else {
        return Pieces::One(kind);
    };
    let (second, rest) = cut(rest, b':');
    let Some(rest) = rest else {
        return Pieces::Two(kind, second);
    };
    let (third, rest) = cut(rest, b':');
    let Some(rest) = rest else {
        return Pieces::Three(kind, second, third);
    };
    Pieces::Four(kind, second, third, rest)
}

/// Whether a text holds a colon.
pub(crate) fn has_colon(text: &[u8]) -> bool
    ensures { result ≡ list_any is_colon text.now }
{
    text.iter().any(|byte| *byte == b':')
}
