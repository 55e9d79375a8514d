//! Values that are found by texts.

ghost use Rattle.std.specs.Prelude.{◌≡◌, IfOk};
ghost use Rattle.std.specs.Option.{option_copied};
ghost use Rattle.std.specs.FinMap as map;

use std::alloc::{AllocError, Global};
use std::collections::BTreeMap;
use std::marker::Model;
use wef_base::Text;

/// Values by texts, which contracts see as a finite map.
#[derive(Drop)]
pub struct Lookup<V> {
    entries: BTreeMap<Text, V>,
}

impl<V> Model for Lookup<V> {
    ghost use Rattle.std.specs.FinMap as map;
    ghost use Rattle.std.specs.Coded.{coded_ℕ, coded_list};
    ghost use Rattle.std.specs.Ordering.{nat_cmp};
    ghost use Rattle.std.specs.Cmp.Lexicographic.{slice_cmp};
    ghost use Rattle.std.specs.BTreeMap.{IsOrdered};

    ghost Value = { map.FinMap (slice_cmp nat_cmp) V };

    ghost coded = { map.code (coded_list coded_ℕ) V.code };

    ghost view = { λ l. map.from_entries l.entries.entries };

    ghost invariant = { λ l. IsOrdered (slice_cmp nat_cmp) l.entries };
}

impl<V> Lookup<V> {
    /// No value. It takes no memory.
    pub fn new(alloc: Global) -> Lookup<V>
        ensures { result ≡ map.empty }
    {
        Lookup {
            entries: BTreeMap::new(alloc),
        }
    }

    /// The value that is found by a text.
    pub fn get(&self, key: &Text) -> Option<&V>
        ensures { option_copied result ≡ map.get self.now key.now }
    {
        self.entries.get(key)
    }

    /// Lets a value be found by a text, and gives what was found by it before.
    pub fn insert(&mut self, key: Text, value: V) -> Result<Option<V>, AllocError>
    where
        V: Drop,
        ensures before { IfOk result (λ before. before ≡ map.get self.old key) }
        ensures after { IfOk result (λ _. self.new ≡ map.insert self.old key value) }
    {
        Ok(self.entries.insert(key, value)?)
    }
}
