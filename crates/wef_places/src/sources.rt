//! The declared sources.

ghost use Rattle.std.specs.FinMap as finite;
ghost use Rattle.std.specs.Prelude.{◌≡◌, map, IfOk, OnOk};
ghost use Rattle.wef_replay.specs.Good.{is_among};

use crate::slots::Slot;
use std::alloc::{AllocError, Global};
use std::collections::BTreeMap;
use std::marker::Model;
use wef_base::{List, SourceName};

/// Sources by their names.
#[derive(Drop)]
pub struct Sources {
    slots: BTreeMap<SourceName, Slot>,
}

impl Model for Sources {
    ghost use Rattle.std.specs.BTreeMap.{IsOrdered};
    ghost use Rattle.std.specs.Cmp.Lexicographic.{slice_cmp};
    ghost use Rattle.std.specs.Coded.{coded_ℕ, coded_list};
    ghost use Rattle.std.specs.FinMap as map;
    ghost use Rattle.std.specs.Ordering.{nat_cmp};
    ghost use Rattle.wef_machine.specs.States.{Slot};
    ghost use Rattle.wef_places.specs.contracts.slots.Slot as slot;

    ghost Value = { map.FinMap (slice_cmp nat_cmp) Slot };

    ghost coded = { map.code (coded_list coded_ℕ) slot.the_row.coded };

    ghost view = { λ s. map.from_entries s.slots.entries };

    ghost invariant = { λ s. IsOrdered (slice_cmp nat_cmp) s.slots };
}

impl Sources {
    ghost use Rattle.std.specs.Borrow.{LendsIf, sem};
    ghost use Rattle.std.specs.Option.{option_copied, option_copied_mut};
    ghost use Rattle.wef_machine.specs.States as states;
    ghost use Rattle.wef_places.specs.contracts.slots.Slot as slot;
    ghost use Rattle.wef_places.specs.contracts.sources.Sources.{the_row};

    /// No source. It takes no memory.
    pub fn new(alloc: Global) -> Sources
        ensures { result ≡ finite.empty }
    {
        Sources {
            slots: BTreeMap::new(alloc),
        }
    }

    /// Whether a source has the name.
    pub fn has(&self, name: &SourceName) -> bool
        ensures { result ≡ is_among (map (λ entry. entry.0) (finite.entries self.now)) name.now }
    {
        self.slots.contains_key(name)
    }

    /// The names of the sources, in the order of their bytes.
    pub fn names(&self, alloc: Global) -> Result<List<SourceName>, AllocError>
        ensures { IfOk result (λ names. names ≡ map (λ entry. entry.0) (finite.entries self.now)) }
    {
        let mut names = List::new(alloc);
        for (name, _slot) in &self.slots {
            names.push(name.clone()?)?;
        }
        Ok(names)
    }

    /// Puts a source, in place of one of its name.
    pub fn put(&mut self, name: SourceName, slot: Slot) -> Result<(), AllocError>
        ensures { OnOk result (self.new ≡ finite.insert self.old name slot) }
    {
        drop(self.slots.insert(name, slot)?);
        Ok(())
    }

    /// Shows the source of a name, where there is one.
    pub fn slot(&self, name: &SourceName) -> Option<&Slot>
        ensures { option_copied result ≡ finite.get self.now name.now }
    {
        self.slots.get(name)
    }

    /// Lends a source, to change it where it is.
    pub fn slot_mut(&mut self, name: &SourceName) -> Option<&mut Slot>
        ensures* writes_back { sem 𝓛 (LendsIf the_row slot.the_row self.entry result (finite.insert self.old name.now) self.old) }
        ensures slot { option_copied_mut result ≡ finite.get self.old name.now }
    {
        self.slots.get_mut(name)
    }

    /// Has the next commit of each source be done.
    pub fn calm(&mut self)
        ensures { self.new ≡ states.calmed_slots self.old }
    {
        self.slots.retain(|_name, slot| {
            slot.arm(None);
            true
        });
    }
}
