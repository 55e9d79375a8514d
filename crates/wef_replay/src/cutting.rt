//! The parts of a text around each byte that separates them, one after the other.

ghost use Rattle.std.specs.Iterator.{item_count};
ghost use Rattle.std.specs.Prelude.{◌≡◌, ◌∷◌};
ghost use Rattle.wef_base.specs.Words.{parts};
ghost use Rattle.wef_replay.specs.Parts.{parts_behind};

/// The parts of a text that are left. Each is cut off when it is asked for, and takes no memory.
#[derive(Drop)]
pub(crate) struct Parts<'a> {
    rest: Option<&'a [u8]>,
    separator: u8,
}

impl<'a> Parts<'a> {
    ghost use Rattle.wef_replay.specs.Parts.{parts_left};

    /// The parts of a whole text.
    pub(crate) fn of(text: &'a [u8], separator: u8) -> Parts<'a>
        ensures { parts_left result ≡ parts separator text.now }
    {
        Parts {
            rest: Some(text),
            separator,
        }
    }
}

impl<'a> Iterator for Parts<'a> {
    ghost use Rattle.wef_replay.specs.Parts.{GivesFirstPart, parts_left};

    type Item = &'a [u8];

    ghost next_gives = { GivesFirstPart };

    ghost remaining = { item_count parts_left };

    fn next(&mut self) -> Option<&'a [u8]> {
        let text = self.rest?;
        let (part, rest) = cut(text, self.separator);
        self.rest = rest;
        Some(part)
    }
}

/// The first part of a text, and what stands behind the byte that ends it.
pub(crate) fn cut(text: &[u8], separator: u8) -> (&[u8], Option<&[u8]>)
    ensures { parts separator text.now ≡ result.0.now ∷ parts_behind separator result.1 }
{
    for (at, byte) in text.iter().enumerate() {
        if *byte == separator {
            return (&text[..at], Some(&text[at + 1..]));
        }
    }
    (text, None)
}
