//! Texts that are found among others.

ghost use Rattle.std.specs.Prelude.{◌≡◌, [], ◌∷◌, ◌++◌, IfOk};
ghost use Rattle.std.specs.List.{list_any};
ghost use Rattle.wef_base.specs.Names.{same};

use std::alloc::{AllocError, Global};
use std::collections::BTreeSet;
use std::marker::Model;
use wef_base::{List, Text};

/// Texts in their order, with a set that tells whether one is among them. Contracts see the list.
#[derive(Drop)]
pub struct TextSet {
    texts: List<Text>,
    set: BTreeSet<Text>,
}

impl Model for TextSet {
    ghost use Rattle.std.specs.Prelude.{ℕ, List};
    ghost use Rattle.std.specs.Coded.{coded_ℕ, coded_list};
    ghost use Rattle.wef_tree_writing.specs.Levels.{HasTexts};

    ghost Value = { List (List ℕ) };

    ghost coded = { coded_list (coded_list coded_ℕ) };

    ghost view = { λ t. t.texts };

    ghost invariant = { λ t. HasTexts t.set t.texts };
}

impl TextSet {
    /// No text. It takes no memory.
    pub fn new(alloc: Global) -> TextSet
        ensures { result ≡ [] }
    {
        TextSet {
            texts: List::new(alloc),
            set: BTreeSet::new(alloc),
        }
    }

    /// The texts, as a slice. It takes no memory.
    pub fn as_slice(&self) -> &[Text]
        ensures { result.now ≡ self.now }
    {
        self.texts.as_slice()
    }

    /// Whether a text is among them.
    pub fn contains(&self, text: &Text) -> bool
        ensures { result ≡ list_any (same text.now) self.now }
    {
        self.set.contains(text)
    }

    /// The texts with one more at the end.
    pub fn with(self, text: Text) -> Result<TextSet, AllocError>
        ensures { IfOk result (λ more. more ≡ self ++ text ∷ []) }
    {
        let TextSet { mut texts, mut set } = self;
        let _is_new = set.insert(text.clone()?)?;
        texts.push(text)?;
        Ok(TextSet { texts, set })
    }
}
