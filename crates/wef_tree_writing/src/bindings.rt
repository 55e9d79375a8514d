//! Prefixes that a writer has bound to namespaces.

ghost use Rattle.std.specs.Prelude.{◌≡◌, ℕ, List, true, [], ◌∷◌, ◌++◌, drop, Some, MatchOption, IfOk, OnOk, if◌then◌else◌};
ghost use Rattle.std.specs.BTreeMap.{get};
ghost use Rattle.std.specs.Cmp.Lexicographic.{slice_cmp};
ghost use Rattle.std.specs.FinMap as map;
ghost use Rattle.std.specs.Option.{option_copied};
ghost use Rattle.std.specs.Ordering.{nat_cmp};
ghost use Rattle.wef_base.specs.Digests.{digest_of, is_long};
ghost use Rattle.wef_base.specs.Names.{same};
ghost use Rattle.wef_xml.specs.Prefixes.{bound_by, prefix_of, unless_bound};
ghost use Rattle.wef_tree_writing.specs.Apart.{IsFoundAmong, IsToldAmong, IsToldIn};
ghost use Rattle.wef_tree_writing.specs.Levels.{all_of, bound_to, has_digest, if_bound_to, innermost, innermost_long, prefix_around, unless_any_binds};

use std::alloc::{AllocError, Global};
use std::collections::BTreeMap;
use std::marker::Model;
use wef_base::{List, Namespace, Text};
use wef_xml::told::is_same;
use wef_xml::{Binding, Lookup};

/// The bindings that one element makes, which contracts see in their order, each inside those before
/// it.
#[derive(Drop)]
pub struct Level {
    bindings: List<Binding>,
    /// The innermost prefix of each namespace.
    prefixes: Lookup<Text>,
    /// The same of each long one, by its digest.
    digests: BTreeMap<[u8; 32], Text>,
    /// What each prefix stands for.
    spaces: Lookup<Namespace>,
}

impl Model for Level {
    ghost use Rattle.std.specs.Prelude.{List, []};
    ghost use Rattle.std.specs.Coded.{coded_list};
    ghost use Rattle.wef_xml.specs.Prefixes.{bound_by};
    ghost use Rattle.wef_xml.specs.declared.bindings.Binding.{Binding};
    ghost use Rattle.wef_xml.specs.contracts.bindings.Binding as binding;
    ghost use Rattle.wef_tree_writing.specs.Levels.{HasDigests, HasPrefixes, HasSpaces};

    ghost Value = { List Binding };

    ghost coded = { coded_list binding.the_row.coded };

    ghost view = { λ l. l.bindings };

    ghost invariant = { λ l. HasPrefixes l.prefixes (bound_by [] l.bindings) × HasDigests l.digests (bound_by [] l.bindings) × HasSpaces l.spaces (bound_by [] l.bindings) };
}

impl Level {
    /// No binding. It takes no memory.
    fn new(alloc: Global) -> Level
        ensures { result ≡ [] }
    {
        Level {
            bindings: List::new(alloc),
            prefixes: Lookup::new(alloc),
            digests: BTreeMap::new(alloc),
            spaces: Lookup::new(alloc),
        }
    }

    /// The level of these bindings.
    fn of(alloc: Global, bindings: List<Binding>) -> Result<Level, AllocError>
        ensures { IfOk result (λ level. level ≡ bindings) }
    {
        let mut level = Level::new(alloc);
        for binding in bindings.into_vec() {
            level = level.with(binding)?;
        }
        Ok(level)
    }

    /// The level with one binding more, inside all others.
    fn with(self, binding: Binding) -> Result<Level, AllocError>
        ensures { IfOk result (λ level. level ≡ self ++ binding ∷ []) }
    {
        let Level {
            mut bindings,
            mut prefixes,
            mut digests,
            mut spaces,
        } = self;
        bind_text(&mut prefixes, &binding)?;
        bind_digest(&mut digests, &binding)?;
        bind_prefix(&mut spaces, &binding)?;
        bindings.push(binding)?;
        Ok(Level {
            bindings,
            prefixes,
            digests,
            spaces,
        })
    }

    /// The prefix of a namespace inside the level, where it has this one outside; `told`: it and those of
    /// the level are told apart by their digests.
    fn prefix_inside<'a>(
        &'a self,
        told: bool,
        outside: Option<&'a Text>,
        space: &Namespace,
    ) -> Option<&'a Text>
        requires { IsToldAmong told self.now space.now }
        ensures { option_copied result ≡ prefix_around (option_copied outside.entry) (bound_by [] self.now) space.now }
    {
        match self.innermost(told, space) {
            Some(prefix) => self.if_bound_to(told, prefix, space),
            None => self.unless_any_binds(outside),
        }
    }

    /// The innermost prefix that the level binds to a namespace, whatever it stands for further in.
    fn innermost(&self, told: bool, space: &Namespace) -> Option<&Text>
        requires { IsToldAmong told self.now space.now }
        ensures { option_copied result ≡ innermost (bound_by [] self.now) space.now }
    {
        if told && space.is_long() {
            return self.innermost_told(space);
        }
        self.prefixes.get(space.as_text())
    }

    /// The same of a long namespace that is told apart from those of the level.
    fn innermost_told(&self, space: &Namespace) -> Option<&Text>
        requires long { is_long space.now ≡ true }
        requires told { IsFoundAmong self.now space.now }
        ensures { option_copied result ≡ innermost (bound_by [] self.now) space.now }
    {
        self.innermost_long(space)
    }

    /// The innermost prefix that the level binds to a long namespace with the digest of this one.
    fn innermost_long(&self, space: &Namespace) -> Option<&Text>
        ensures { option_copied result ≡ innermost_long (bound_by [] self.now) (digest_of space.now) }
    {
        self.digests.get(space.digest())
    }

    /// A prefix, if it stands for this namespace.
    fn if_bound_to<'a>(&self, told: bool, prefix: &'a Text, space: &Namespace) -> Option<&'a Text>
        requires { IsToldAmong told self.now space.now }
        ensures { option_copied result ≡ if_bound_to (bound_by [] self.now) space.now prefix.now }
    {
        match self.bound_to(prefix) {
            Some(found) if is_same(told, found, space) => Some(prefix),
            _ => None,
        }
    }

    /// The namespace that a prefix stands for.
    fn bound_to(&self, prefix: &Text) -> Option<&Namespace>
        ensures { option_copied result ≡ bound_to (bound_by [] self.now) prefix.now }
    {
        self.spaces.get(prefix)
    }

    /// A prefix from outside, unless it is bound here.
    fn unless_any_binds<'a>(&self, outside: Option<&'a Text>) -> Option<&'a Text>
        ensures { option_copied result ≡ unless_any_binds (bound_by [] self.now) (option_copied outside.entry) }
    {
        match outside {
            Some(prefix) if self.bound_to(prefix).is_none() => Some(prefix),
            _ => None,
        }
    }
}

/// Lets a binding's prefix be found by its namespace.
fn bind_text(found: &mut Lookup<Text>, binding: &Binding) -> Result<(), AllocError>
    ensures { OnOk result (found.new ≡ map.insert found.old binding.now.space binding.now.prefix) }
{
    let _before = found.insert(binding.space.as_text().clone()?, binding.prefix.clone()?)?;
    Ok(())
}

/// Lets a binding's prefix be found by the digest of its namespace, where that is long.
fn bind_digest(found: &mut BTreeMap<[u8; 32], Text>, binding: &Binding) -> Result<(), AllocError>
    ensures { OnOk result ((digest : List ℕ) → get (slice_cmp nat_cmp) found.new digest ≡ (if has_digest digest binding.now.space then Some binding.now.prefix else get (slice_cmp nat_cmp) found.old digest)) }
{
    if binding.space.is_long() {
        return bind_long(found, &binding.space, &binding.prefix);
    }
    Ok(())
}

fn bind_long(
    found: &mut BTreeMap<[u8; 32], Text>,
    space: &Namespace,
    prefix: &Text,
) -> Result<(), AllocError>
    requires { is_long space.now ≡ true }
    ensures { OnOk result ((digest : List ℕ) → get (slice_cmp nat_cmp) found.new digest ≡ (if has_digest digest space.now then Some prefix.now else get (slice_cmp nat_cmp) found.old digest)) }
{
    let digest = *space.digest();
    let _before = found.insert(digest, prefix.clone()?)?;
    Ok(())
}

/// Lets a binding's namespace be found by its prefix.
fn bind_prefix(found: &mut Lookup<Namespace>, binding: &Binding) -> Result<(), AllocError>
    ensures { OnOk result (found.new ≡ map.insert found.old binding.now.prefix binding.now.space) }
{
    let _before = found.insert(binding.prefix.clone()?, binding.space.clone()?)?;
    Ok(())
}

/// The bindings that are in force where an element is written, by levels, which contracts see with
/// the innermost first. A prefix is looked up in each level, of which there are no more than open
/// elements.
#[derive(Drop)]
pub struct Bindings {
    levels: Vec<Level>,
}

impl Model for Bindings {
    ghost use Rattle.std.specs.Prelude.{List, reverse};
    ghost use Rattle.std.specs.Coded.{coded_list};
    ghost use Rattle.wef_xml.specs.declared.bindings.Binding.{Binding};
    ghost use Rattle.wef_xml.specs.contracts.bindings.Binding as binding;

    ghost Value = { List (List Binding) };

    ghost coded = { coded_list (coded_list binding.the_row.coded) };

    ghost view = { λ b. reverse b.levels.items };
}

impl Bindings {
    /// No binding. It takes no memory.
    pub fn new(alloc: Global) -> Bindings
        ensures { result ≡ [] }
    {
        Bindings {
            levels: Vec::new(alloc),
        }
    }

    /// Binds the prefixes of an element, inside all others.
    pub fn enter(&mut self, alloc: Global, bindings: List<Binding>) -> Result<(), AllocError>
        ensures { OnOk result (self.new ≡ bindings ∷ self.old) }
    {
        let level = Level::of(alloc, bindings)?;
        self.levels.push(level)?;
        Ok(())
    }

    /// Takes the bindings of the innermost element out.
    pub fn leave(&mut self)
        ensures { self.new ≡ drop 1 self.old }
    {
        self.pop();
    }

    fn pop(&mut self) -> Option<Level>
        ensures { MatchOption result ((self.old ≡ []) × (self.new ≡ [])) (λ level. self.old ≡ level ∷ self.new) }
    {
        self.levels.pop()
    }

    /// The innermost prefix that is bound to a namespace, unless it is bound to another one further in;
    /// `told`: the namespaces are told apart by their digests.
    pub fn prefix_of(&self, told: bool, space: &Namespace) -> Option<&Text>
        requires { IsToldIn told self.now space.now }
        ensures { option_copied result ≡ prefix_of (all_of self.now) space.now }
    {
        let mut prefix = None;
        for level in self.levels.as_slice() {
            prefix = level.prefix_inside(told, prefix, space);
        }
        prefix
    }
}

/// The prefix of a namespace inside a binding, where it has this one outside.
fn prefix_inside<'a>(
    binding: &'a Binding,
    outside: Option<&'a Text>,
    space: &Namespace,
) -> Option<&'a Text>
    ensures { option_copied result ≡ (if same binding.now.space space.now then Some binding.now.prefix else unless_bound binding.now.prefix (option_copied outside.entry)) }
{
    if binding.space == *space {
        return Some(&binding.prefix);
    }
    match outside {
        Some(prefix) if binding.prefix == *prefix => None,
        other => other,
    }
}

/// The prefix of a namespace in bindings of which the first is the innermost.
pub fn prefix_in<'a>(bindings: &'a [Binding], space: &Namespace) -> Option<&'a Text>
    ensures { option_copied result ≡ prefix_of bindings.now space.now }
{
    let mut prefix = None;
    let mut rest = bindings;
    while let Some((outermost, inner)) = rest.split_last() {
        prefix = prefix_inside(outermost, prefix, space);
        rest = inner;
    }
    prefix
}
