//! All that a source ever wrote.

ghost use Rattle.std.specs.BTreeMap.{IsOrdered};
ghost use Rattle.std.specs.Cmp.Lexicographic.{slice_cmp};
ghost use Rattle.std.specs.FinMap as map;
ghost use Rattle.std.specs.Ordering.{nat_cmp};
ghost use Rattle.std.specs.Prelude as list;
ghost use Rattle.std.specs.Prelude.{◌≡◌, [], ◌∷◌, length, IfOk, OnOk};
ghost use Rattle.wef_source_log.specs.Histories.{extended, history};

use std::alloc::{AllocError, Global};
use std::collections::BTreeMap;
use std::marker::Model;
use wef_base::{ChannelName, List, Text};

/// The texts of all records that a source ever wrote, channel by channel, in the order of their
/// numbers. The log keeps only the last of them.
#[derive(Drop)]
pub struct Histories {
    alloc: Global,
    records: BTreeMap<ChannelName, List<Text>>,
}

impl Model for Histories {
    ghost use Rattle.std.specs.BTreeMap.{IsOrdered};
    ghost use Rattle.std.specs.Cmp.Lexicographic.{slice_cmp};
    ghost use Rattle.std.specs.Coded.{coded_ℕ, coded_list};
    ghost use Rattle.std.specs.FinMap as map;
    ghost use Rattle.std.specs.Ordering.{nat_cmp};
    ghost use Rattle.std.specs.Prelude.{ℕ, List};

    ghost Value = { map.FinMap (slice_cmp nat_cmp) (List (List ℕ)) };

    ghost coded = { map.code (coded_list coded_ℕ) (coded_list (coded_list coded_ℕ)) };

    ghost view = { λ h. map.from_entries h.records.entries };

    ghost invariant = { λ h. IsOrdered (slice_cmp nat_cmp) h.records };
}

impl Histories {
    /// Those of a source that wrote nothing. It takes no memory.
    pub fn new(alloc: Global) -> Histories
        ensures { result ≡ map.empty }
    {
        Histories {
            alloc,
            records: BTreeMap::new(alloc),
        }
    }

    /// The channels in which it wrote, in the order of their bytes.
    pub fn channels(&self, alloc: Global) -> Result<List<ChannelName>, AllocError>
        ensures { IfOk result (λ names. names ≡ list.map (λ entry. entry.0) (map.entries self.now)) }
    {
        let mut names = List::new(alloc);
        for (name, _texts) in &self.records {
            names.push(name.clone()?)?;
        }
        Ok(names)
    }

    /// How many records a channel's history has. It takes no memory.
    pub fn count(&self, channel: &ChannelName) -> u64
        ensures { result ≡ length (history self.now channel.now) }
    {
        match self.records.get(channel) {
            Some(texts) => texts.len() as u64,
            None => 0,
        }
    }

    /// Appends a record to its channel's history.
    pub fn append(&mut self, channel: &ChannelName, text: &Text) -> Result<(), AllocError>
        ensures { OnOk result (self.new ≡ extended self.old channel.now text.now) }
    {
        append_in(&mut self.records, self.alloc, channel, text)
    }
}

fn append_in(
    records: &mut BTreeMap<ChannelName, List<Text>>,
    alloc: Global,
    channel: &ChannelName,
    text: &Text,
) -> Result<(), AllocError>
    ensures ok { OnOk result (map.from_entries records.new.entries ≡ extended (map.from_entries records.old.entries) channel.now text.now) }
    ensures ordered { IsOrdered (slice_cmp nat_cmp) records.new }
{
    if let Some(texts) = records.get_mut(channel) {
        texts.push(text.clone()?)?;
        return Ok(());
    }
    records.insert(channel.clone()?, one_record(alloc, text)?)?;
    Ok(())
}

/// The history of one record.
fn one_record(alloc: Global, text: &Text) -> Result<List<Text>, AllocError>
    ensures { IfOk result (λ texts. texts ≡ text.now ∷ []) }
{
    let mut texts = List::new(alloc);
    texts.push(text.clone()?)?;
    Ok(texts)
}
