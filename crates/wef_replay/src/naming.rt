//! The sources that the lines of a schedule named so far.

ghost use Rattle.std.specs.Prelude.{◌≡◌, OnOk};
ghost use Rattle.wef_replay.specs.Alike.{AreAlike};
ghost use Rattle.wef_replay.specs.Good.{allows, has_end, is_among, no_names, noted};

use crate::lines::Line;
use std::alloc::{AllocError, Global};
use std::collections::BTreeSet;
use std::marker::Model;
use wef_base::SourceName;
use wef_replay_values::EndName;

/// The names of sources that lines gave: each is looked up and kept in about log N comparisons.
#[derive(Drop)]
pub struct NamedSources {
    /// Those that `source` lines declared.
    declared: BTreeSet<SourceName>,
    /// Those that `batch` lines named.
    foreign: BTreeSet<SourceName>,
}

impl Model for NamedSources {
    ghost use Rattle.std.specs.Coded.{code_by, coded_ℕ, coded_list, coded×};
    ghost use Rattle.std.specs.Prelude.{ℕ, List, refl};
    ghost use Rattle.wef_replay.specs.Good.{Names};

    ghost Value = { Names };

    ghost coded = { code_by (List (List ℕ) × List (List ℕ)) (coded× (coded_list (coded_list coded_ℕ)) (coded_list (coded_list coded_ℕ)))
        (λ n. (n.declared, n.foreign)) (λ p. record { declared = p.0; foreign = p.1 }) (λ _. refl) };

    ghost view = { λ n. record { declared = n.declared.keys; foreign = n.foreign.keys } };
}

impl NamedSources {
    /// No name. It takes no memory.
    pub fn new(alloc: Global) -> NamedSources
        ensures { result ≡ no_names }
    {
        NamedSources {
            declared: BTreeSet::new(alloc),
            foreign: BTreeSet::new(alloc),
        }
    }

    /// Whether a line may follow those that gave these names. It takes no memory.
    pub fn allow(&self, line: &Line) -> bool
        ensures { result ≡ allows self.now line.now }
    {
        match line {
            Line::SubscribeAt { source, .. } => self.has_declared(source),
            Line::Batch { source, .. } => !self.has_declared(source),
            Line::Source { source, .. } => !self.has_declared(source) && !self.has_foreign(source),
            Line::Write { source, .. } => self.has_declared(source),
            Line::WriteXml { source, .. } => self.has_declared(source),
            Line::Ask { source } => self.has_declared(source),
            Line::Poll { source, .. } => self.has_declared(source),
            Line::Lost { source, .. } => self.has_declared(source),
            Line::Shut { source } => self.has_declared(source),
            Line::Crash { end } => self.has_end(end),
            Line::Fail { end, .. } => self.has_end(end),
            Line::Stop { end, .. } => self.has_end(end),
            _ => true,
        }
    }

    /// Keeps the names that one more line gives. After an error a part of them may be kept.
    pub fn note(&mut self, line: &Line) -> Result<(), AllocError>
        ensures { OnOk result (AreAlike self.new (noted line.now self.old)) }
    {
        match line {
            Line::Source { source, .. } => {
                self.declared.insert(source.clone()?)?;
            }
            Line::Batch { source, .. } => {
                self.foreign.insert(source.clone()?)?;
            }
            _ => {}
        }
        Ok(())
    }

    /// Whether it is the collector, or a source that was declared.
    fn has_end(&self, end: &EndName) -> bool
        ensures { result ≡ has_end self.now end.now }
    {
        match end {
            EndName::Collector => true,
            EndName::Source(source) => self.has_declared(source),
        }
    }

    fn has_declared(&self, source: &SourceName) -> bool
        ensures { result ≡ is_among self.now.declared source.now }
    {
        self.declared.contains(source)
    }

    fn has_foreign(&self, source: &SourceName) -> bool
        ensures { result ≡ is_among self.now.foreign source.now }
    {
        self.foreign.contains(source)
    }
}
