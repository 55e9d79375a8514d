//! The walk of a path through an event, which ends at the first node that is asked for. It goes as
//! deep as the path's brackets and the event's elements do.

ghost use Rattle.std.specs.List.{list_any};
ghost use Rattle.std.specs.Prelude.{◌≡◌, ℕ, ◌+◌, ◌-◌, ◌<◌, ◌≤◌, true, List, [], ◌∷◌, ◌++◌, get_or, length, map};
ghost use Rattle.wef_query_values.specs.Meaning.{after, alone, compared, given, gives, goes, holds, holds_and, holds_or, holds_unit, left_by, nodes};
ghost use Rattle.wef_query_values.specs.Walk.{AllIgnore, AreCounts, IsPlace, ahead, leaves, raised, tests};
ghost use Rattle.wef_query_values.specs.Wanted.{is_wanted};
ghost use Rattle.wef_query_paths.specs.declared.path.Step.{out-Step};
ghost use Rattle.wef_query_values.specs.Places.{Place, plain};

use crate::ignoring::{ignores_place, ignoring_count};
use crate::operators::mirrored;
use crate::slots::{slot, slot_count};
use crate::spots::Spot;
use crate::wanted::{Wanted, is_wanted, place_compares};
use wef_base::Element;
use wef_query_paths::{And, Literal, Operator, Or, Path, Predicate, Step, Unit, Value};

/// How many predicates of a step have a counter, from the first one on that asks for a place.
const COUNTERS: usize = 16;

/// The same where the nodes before one are counted anew, for a predicate that has none.
const MORE_COUNTERS: usize = 256;

/// Whether a path gives a node of an event, whose root is the one child of a document (XPath 1.0, 2
/// and 5.1). It takes no memory, and time in proportion to the path times the event, where no step has
/// more than 16 predicates from the first one on that asks for a place.
pub fn gives_node(path: &Path, root: &Element) -> bool
    ensures { result ≡ gives path.now root.now }
{
    finds(path, Spot::Whole(root), Wanted::Any)
}

/// Whether a path finds a node that is asked for.
#[cycle(walk)]
fn finds(path: &Path, spot: Spot, wanted: Wanted) -> bool
    ensures { result ≡ list_any (is_wanted wanted.entry) (nodes path.now (plain spot.entry)) }
{
    reaches(&path.first, path.rest.as_slice(), spot, wanted)
}

/// Whether a step, and more steps behind it, reach a node that is asked for.
#[cycle(walk)]
fn reaches(first: &Step, rest: &[Step], spot: Spot, wanted: Wanted) -> bool
    ensures { result ≡ list_any (is_wanted wanted.entry) (after (map goes rest.now) (goes first.now (plain spot.entry))) }
{
    let predicates = first.predicates.as_slice();
    let counting = ignoring_count(predicates);
    let mut counts = [0; COUNTERS];
    for at in 0..slot_count(spot, first.axis) {
        let Some(node) = slot(spot, first.axis, &first.test, at) else {
            continue;
        };
        if !passes(&predicates[..counting], node) {
            continue;
        }
        if !stays(
            first,
            counting,
            predicates.len(),
            spot,
            at,
            node,
            &mut counts,
        ) {
            continue;
        }
        if goes_on(rest, node, wanted) {
            return true;
        }
    }
    false
}

/// Whether steps reach a node that is asked for from a node.
#[cycle(walk)]
fn goes_on(steps: &[Step], node: Spot, wanted: Wanted) -> bool
    ensures { result ≡ list_any (is_wanted wanted.entry) (after (map goes steps.now) (plain node.entry ∷ [])) }
{
    match steps {
        [] => is_wanted(wanted, node),
        [first, rest @ ..] => reaches(first, rest, node, wanted),
    }
}

/// Whether predicates that don't ask for a node's place hold of a node. Any place does to ask them.
#[cycle(walk)]
fn passes(predicates: &[Predicate], node: Spot) -> bool
    requires { AllIgnore (map holds predicates.now) }
    ensures { (xs : List Place) → result ≡ leaves (map holds predicates.now) xs (plain node.entry) }
{
    for predicate in predicates {
        if !is_held(predicate, node, 1) {
            return false;
        }
    }
    true
}

/// Whether the predicates of a step before `end` leave a node that those before `counting` leave. It
/// is the child or attribute of `spot` at the index `at`. The first predicates from `counting` on have
/// a counter each, of the nodes that came to them.
#[cycle(walk)]
fn stays(
    step: &Step,
    counting: usize,
    end: usize,
    spot: Spot,
    at: usize,
    node: Spot,
    counts: &mut [u64],
) -> bool
    requires starts { counting ≤ end }
    requires ends { end ≤ length (out-Step step.now).predicates }
    requires room { at < usize.MAX }
    requires ignore { AllIgnore (tests step.now counting) }
    requires stands { leaves (tests step.now counting) (ahead step.now (plain spot) at) (plain node) ≡ true }
    requires counts { AreCounts step.now counting end (ahead step.now (plain spot) at) counts.old }
    ensures value { result ≡ leaves (tests step.now end) (ahead step.now (plain spot.entry) at) (plain node.entry) }
    ensures counts { AreCounts step.now counting end (ahead step.now (plain spot.entry) at ++ (plain node.entry ∷ [])) counts.new }
{
    let predicates = step.predicates.as_slice();
    for index in counting..end {
        let place = next_place(step, counting, index, spot, at, counts);
        if !is_held(&predicates[index], node, place) {
            return false;
        }
    }
    true
}

/// The place of a node that comes to the predicate at `index`, which is counted with it. Where that
/// one has no counter, the nodes before this one are counted anew.
#[cycle(walk)]
fn next_place(
    step: &Step,
    counting: usize,
    index: usize,
    spot: Spot,
    at: usize,
    counts: &mut [u64],
) -> u64
    requires starts { counting ≤ index }
    requires ends { index < length (out-Step step.now).predicates }
    requires room { at < usize.MAX }
    requires ignore { AllIgnore (tests step.now counting) }
    requires count { index - counting < length counts.old → get_or counts.old (index - counting) 0 ≡ length (left_by (tests step.now index) (ahead step.now (plain spot) at)) }
    ensures place { IsPlace step.now (plain spot.entry) at index result }
    ensures counts { counts.new ≡ raised counts.old (index - counting) }
{
    let counter = index - counting;
    if counter < counts.len() {
        counts[counter] += 1;
        return counts[counter];
    }
    if ignores_place(&step.predicates.as_slice()[index]) {
        return 1;
    }
    left_before(step, counting, index, spot, at) + 1
}

/// How many of the first children or attributes of `spot` the predicates of a step before `end` leave.
#[cycle(walk)]
fn left_before(step: &Step, counting: usize, end: usize, spot: Spot, at: usize) -> u64
    requires starts { counting ≤ end }
    requires ends { end ≤ length (out-Step step.now).predicates }
    requires ignore { AllIgnore (tests step.now counting) }
    ensures value { result ≡ length (left_by (tests step.now end) (ahead step.now (plain spot.entry) at)) }
    ensures within { result ≤ at }
{
    let predicates = step.predicates.as_slice();
    let mut counts = [0; MORE_COUNTERS];
    let mut left = 0;
    for before in 0..at {
        let Some(node) = slot(spot, step.axis, &step.test, before) else {
            continue;
        };
        if !passes(&predicates[..counting], node) {
            continue;
        }
        if !stays(step, counting, end, spot, before, node, &mut counts) {
            continue;
        }
        left += 1;
    }
    left
}

/// Whether a predicate holds of a node with this place.
#[cycle(walk)]
fn is_held(predicate: &Predicate, node: Spot, place: u64) -> bool
    ensures { result ≡ holds predicate.now (plain node.entry) place }
{
    match predicate {
        Predicate::At(wanted) => place == *wanted,
        Predicate::Whether(or) => is_or_held(or, node, place),
    }
}

#[cycle(walk)]
fn is_or_held(or: &Or, node: Spot, place: u64) -> bool
    ensures { result ≡ holds_or or.now (plain node.entry) place }
{
    if is_and_held(&or.first, node, place) {
        return true;
    }
    for and in or.rest.as_slice() {
        if is_and_held(and, node, place) {
            return true;
        }
    }
    false
}

#[cycle(walk)]
fn is_and_held(and: &And, node: Spot, place: u64) -> bool
    ensures { result ≡ holds_and and.now (plain node.entry) place }
{
    if !is_unit_held(&and.first, node, place) {
        return false;
    }
    for unit in and.rest.as_slice() {
        if !is_unit_held(unit, node, place) {
            return false;
        }
    }
    true
}

#[cycle(walk)]
fn is_unit_held(unit: &Unit, node: Spot, place: u64) -> bool
    ensures { result ≡ holds_unit unit.now (plain node.entry) place }
{
    match unit {
        Unit::Group(or) => is_or_held(or.get(), node, place),
        Unit::Alone(value) => is_there(value, node),
        Unit::Compared(value, operator, literal) => {
            is_compared(value, *operator, literal, node, place)
        }
        Unit::Mirrored(literal, operator, value) => {
            is_compared(value, mirrored(*operator), literal, node, place)
        }
    }
}

/// Whether there is what a value speaks of.
#[cycle(walk)]
fn is_there(value: &Value, node: Spot) -> bool
    ensures { (place : ℕ) → result ≡ alone (given value.now) (plain node.entry) place }
{
    match value {
        Value::Nodes(path) => finds(path, node, Wanted::Any),
        Value::Position => true,
        Value::Band(path, mask) => finds(path, node, Wanted::Bits(*mask)),
    }
}

/// Whether what a value speaks of compares so with a literal.
#[cycle(walk)]
fn is_compared(value: &Value, operator: Operator, literal: &Literal, node: Spot, place: u64) -> bool
    ensures { result ≡ compared (given value.now) operator literal.now (plain node.entry) place }
{
    match value {
        Value::Nodes(path) => finds(path, node, Wanted::Comparing(operator, literal)),
        Value::Position => place_compares(place, operator, literal),
        Value::Band(path, mask) => finds(path, node, Wanted::Masked(*mask, operator, literal)),
    }
}
