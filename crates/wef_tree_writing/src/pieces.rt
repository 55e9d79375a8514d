//! Pieces of a document that is being written.

ghost use Rattle.std.specs.Prelude.{◌≡◌, [], ◌∷◌, ◌++◌, OnOk};
ghost use Rattle.std.specs.Str.{chars};

use std::alloc::{AllocError, Global};
use std::marker::Model;
use std::mem;

/// A tag, or a text between two tags. It is kept in UTF-8, and contracts see its characters.
#[derive(Drop)]
pub struct Piece {
    text: String,
}

impl Model for Piece {
    ghost use Rattle.std.specs.Prelude.{ℕ, List, string_bytes};
    ghost use Rattle.std.specs.Str.{chars};

    ghost Value = { List ℕ };

    ghost view = { λ p. chars (string_bytes p.text) };
}

impl Piece {
    #[tactic(auto, using(crate::proofs::Pushed::none_pushed))]
    fn new(alloc: Global) -> Piece
        ensures { result ≡ [] }
    {
        Piece {
            text: String::new(alloc),
        }
    }

    /// The characters, as a text. It takes no memory.
    pub fn as_str(&self) -> &str
        ensures { chars result.now ≡ self.now }
    {
        self.text.as_str()
    }

    /// Appends a character.
    pub fn push(&mut self, character: char) -> Result<(), AllocError>
        ensures { OnOk result (self.new ≡ self.old ++ character ∷ []) }
    {
        self.text.push(character)?;
        Ok(())
    }

    /// Appends the characters of a text.
    pub fn push_str(&mut self, more: &str) -> Result<(), AllocError>
        ensures { OnOk result (self.new ≡ self.old ++ chars more.now) }
    {
        self.text.push_str(more)?;
        Ok(())
    }

    #[tactic(auto, using(crate::proofs::Pushed::none_pushed))]
    fn clear(&mut self)
        ensures { self.new ≡ [] }
    {
        self.text.clear();
    }
}

/// The room of pieces that were written, for the next ones to use. Contracts see nothing of it.
#[derive(Drop)]
pub struct Spare {
    piece: Piece,
}

impl Model for Spare {
    ghost Value = { Unit {0} };

    ghost view = { λ s. tt };
}

impl Spare {
    /// No room. It takes no memory.
    pub fn new(alloc: Global) -> Spare {
        Spare {
            piece: Piece::new(alloc),
        }
    }

    /// An empty piece. It takes no memory.
    pub fn take(&mut self, alloc: Global) -> Piece
        ensures { result ≡ [] }
    {
        let mut piece = mem::replace(&mut self.piece, Piece::new(alloc));
        piece.clear();
        piece
    }

    /// Keeps the room of a piece.
    pub fn give(&mut self, piece: Piece) {
        self.piece = piece;
    }
}
