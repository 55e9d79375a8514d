//! Namespaces that are found among others.

ghost use Rattle.std.specs.Prelude.{◌≡◌, ℕ, List, true, [], ◌∷◌, ◌++◌, IfOk, OnOk, if◌then◌else◌};
ghost use Rattle.std.specs.BTreeSet.{contains};
ghost use Rattle.std.specs.Cmp.Lexicographic.{slice_cmp};
ghost use Rattle.std.specs.List.{list_any};
ghost use Rattle.std.specs.Ordering.{nat_cmp};
ghost use Rattle.wef_base.specs.Digests.{digest_of, is_long};
ghost use Rattle.wef_base.specs.Names.{same};
ghost use Rattle.wef_tree_writing.specs.Apart.{IsFoundBeside, IsToldBeside};
ghost use Rattle.wef_tree_writing.specs.Levels.{has_digest};

use std::alloc::{AllocError, Global};
use std::collections::BTreeSet;
use std::marker::Model;
use wef_base::{List, Namespace, Text};

/// Namespaces in their order, with sets that tell whether one is among them. Contracts see the list.
#[derive(Drop)]
pub struct SpaceSet {
    spaces: List<Namespace>,
    texts: BTreeSet<Text>,
    /// The digests of the long ones.
    digests: BTreeSet<[u8; 32]>,
}

impl Model for SpaceSet {
    ghost use Rattle.std.specs.Prelude.{ℕ, List};
    ghost use Rattle.std.specs.Coded.{coded_ℕ, coded_list};
    ghost use Rattle.wef_tree_writing.specs.Levels.{HasDigestsOf, HasTexts};

    ghost Value = { List (List ℕ) };

    ghost coded = { coded_list (coded_list coded_ℕ) };

    ghost view = { λ s. s.spaces };

    ghost invariant = { λ s. HasTexts s.texts s.spaces × HasDigestsOf s.digests s.spaces };
}

impl SpaceSet {
    /// No namespace. It takes no memory.
    pub fn new(alloc: Global) -> SpaceSet
        ensures { result ≡ [] }
    {
        SpaceSet {
            spaces: List::new(alloc),
            texts: BTreeSet::new(alloc),
            digests: BTreeSet::new(alloc),
        }
    }

    /// The namespaces, as a slice. It takes no memory.
    pub fn as_slice(&self) -> &[Namespace]
        ensures { result.now ≡ self.now }
    {
        self.spaces.as_slice()
    }

    /// Whether a namespace is among them; `told`: they are told apart by their digests.
    pub fn contains(&self, told: bool, space: &Namespace) -> bool
        requires { IsToldBeside told self.now space.now }
        ensures { result ≡ list_any (same space.now) self.now }
    {
        if told && space.is_long() {
            return self.contains_told(space);
        }
        self.texts.contains(space.as_text())
    }

    /// Whether a long one is, which is told apart from them.
    fn contains_told(&self, space: &Namespace) -> bool
        requires long { is_long space.now ≡ true }
        requires told { IsFoundBeside self.now space.now }
        ensures { result ≡ list_any (same space.now) self.now }
    {
        self.contains_long(space)
    }

    /// Whether a long one with the digest of this one is.
    fn contains_long(&self, space: &Namespace) -> bool
        ensures { result ≡ list_any (has_digest (digest_of space.now)) self.now }
    {
        self.digests.contains(space.digest())
    }

    /// The namespaces with one more at the end.
    pub fn with(self, space: Namespace) -> Result<SpaceSet, AllocError>
        ensures { IfOk result (λ more. more ≡ self ++ space ∷ []) }
    {
        let SpaceSet {
            mut spaces,
            mut texts,
            mut digests,
        } = self;
        add_digest(&mut digests, &space)?;
        let _is_new = texts.insert(space.as_text().clone()?)?;
        spaces.push(space)?;
        Ok(SpaceSet {
            spaces,
            texts,
            digests,
        })
    }
}

/// Adds the digest of a namespace, where that is long.
fn add_digest(digests: &mut BTreeSet<[u8; 32]>, space: &Namespace) -> Result<(), AllocError>
    ensures { OnOk result ((digest : List ℕ) → contains (slice_cmp nat_cmp) digests.new digest ≡ (if has_digest digest space.now then true else contains (slice_cmp nat_cmp) digests.old digest)) }
{
    if space.is_long() {
        return add_long(digests, space);
    }
    Ok(())
}

fn add_long(digests: &mut BTreeSet<[u8; 32]>, space: &Namespace) -> Result<(), AllocError>
    requires { is_long space.now ≡ true }
    ensures { OnOk result ((digest : List ℕ) → contains (slice_cmp nat_cmp) digests.new digest ≡ (if has_digest digest space.now then true else contains (slice_cmp nat_cmp) digests.old digest)) }
{
    let digest = *space.digest();
    let _is_new = digests.insert(digest)?;
    Ok(())
}
