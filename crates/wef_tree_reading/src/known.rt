//! The namespaces that a document has declared so far, by their digests.

ghost use Rattle.std.specs.Option.{option_map};
ghost use Rattle.std.specs.Prelude.{◌≡◌, ℕ, List, true, IfSome, OnOk, None};
ghost use Rattle.wef_base.specs.Digests.{digest_of, is_long};
ghost use Rattle.wef_base.specs.Names.{same};
ghost use Rattle.wef_tree_reading.specs.Known.{AreGivensIn, Grows, Holds, IsPieceIn, found_in};
ghost use Rattle.wef_tree_reading.specs.Scopes.{declares};
ghost use Rattle.wef_xml.specs.Told.{IsFound};

use crate::spaces::declared_prefix;
use std::alloc::{AllocError, Global};
use std::collections::BTreeMap;
use wef_base::Namespace;
use wef_tree_pieces::{Given, Piece};

/// Long namespaces by their digests. Where two of one digest came, namespaces aren't told apart by
/// their digests any more.
#[derive(Drop)]
pub struct Known {
    pub spaces: BTreeMap<[u8; 32], Namespace>,
    pub told: bool,
}

impl Known {
    /// No namespace. It takes no memory.
    pub fn new(alloc: Global) -> Known
        ensures told { result.told ≡ true }
        ensures none { (digest : List ℕ) → found_in result digest ≡ None }
    {
        Known {
            spaces: BTreeMap::new(alloc),
            told: true,
        }
    }

    /// Adds what a piece declares.
    pub fn add_piece(&mut self, piece: &Piece<'_>) -> Result<(), AllocError>
        ensures grows { OnOk result (Grows self.old self.new) }
        ensures knows { OnOk result (Holds self.new (λ find. IsPieceIn (IsFound find) piece.now)) }
    {
        match piece {
            Piece::Start(tag) => self.add_declared(tag.given.as_slice()),
            Piece::Empty(tag) => self.add_declared(tag.given.as_slice()),
            _ => Ok(()),
        }
    }

    /// Adds what attributes declare.
    fn add_declared(&mut self, given: &[Given]) -> Result<(), AllocError>
        ensures grows { OnOk result (Grows self.old self.new) }
        ensures knows { OnOk result (Holds self.new (λ find. AreGivensIn (IsFound find) given.now)) }
    {
        for one in given {
            self.add_given(one)?;
        }
        Ok(())
    }

    /// Adds what an attribute declares.
    fn add_given(&mut self, given: &Given) -> Result<(), AllocError>
        ensures grows { OnOk result (Grows self.old self.new) }
        ensures knows { OnOk result (Holds self.new (λ find. IfSome (declares given.now.name) (λ _. IsFound find given.now.value))) }
    {
        if declared_prefix(&given.name).is_none() {
            return Ok(());
        }
        self.add(Namespace::new(given.value.clone()?)?)
    }

    /// Adds a namespace, in time in proportion to its length, but for a logarithm.
    fn add(&mut self, space: Namespace) -> Result<(), AllocError>
        ensures grows { OnOk result (Grows self.old self.new) }
        ensures knows { OnOk result (Holds self.new (λ find. IsFound find space)) }
    {
        if !space.is_long() {
            return Ok(());
        }
        match self.is_same(&space) {
            None => self.put(space),
            Some(is_same) => {
                self.told = self.told && is_same;
                Ok(())
            }
        }
    }

    /// Whether the namespace that has a digest like this one's is the same, where there is one.
    fn is_same(&self, space: &Namespace) -> Option<bool>
        ensures { result ≡ option_map (same space.now) (found_in self.now (digest_of space.now)) }
    {
        let found = self.spaces.get(space.digest())?;
        Some(*space == *found)
    }

    /// Puts in a namespace whose digest is new.
    fn put(&mut self, space: Namespace) -> Result<(), AllocError>
        requires { found_in self.old (digest_of space) ≡ None }
        ensures grows { OnOk result (Grows self.old self.new) }
        ensures knows { OnOk result (Holds self.new (λ find. IsFound find space)) }
    {
        let digest = *space.digest();
        let _before = self.spaces.insert(digest, space)?;
        Ok(())
    }
}
