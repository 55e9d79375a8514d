//! Predicates that don't ask which place a node has.

ghost use Rattle.std.specs.Prelude.{◌≤◌, IsTrue, length, map, take};
ghost use Rattle.wef_query_values.specs.Meaning.{given, holds, holds_and, holds_or, holds_unit};
ghost use Rattle.wef_query_values.specs.Walk.{AllIgnore, Ignores, IsPlaceless};

use wef_query_paths::{And, Or, Predicate, Unit, Value};

/// How many of the first predicates don't ask for a node's place: all that stand before the first
/// one that does.
pub fn ignoring_count(predicates: &[Predicate]) -> usize
    ensures within { result ≤ length predicates.now }
    ensures ignore { AllIgnore (map holds (take result predicates.now)) }
{
    for (index, predicate) in predicates.iter().enumerate() {
        if !ignores_place(predicate) {
            return index;
        }
    }
    predicates.len()
}

/// Whether a predicate never asks for a node's place.
pub fn ignores_place(predicate: &Predicate) -> bool
    ensures { IsTrue result → Ignores (holds predicate.now) }
{
    match predicate {
        Predicate::At(_) => false,
        Predicate::Whether(or) => or_ignores_place(or),
    }
}

#[cycle(ignoring)]
fn or_ignores_place(or: &Or) -> bool
    ensures { IsTrue result → Ignores (holds_or or.now) }
{
    and_ignores_place(&or.first) && all_ignore_place(or.rest.as_slice())
}

#[cycle(ignoring)]
fn and_ignores_place(and: &And) -> bool
    ensures { IsTrue result → Ignores (holds_and and.now) }
{
    if !unit_ignores_place(&and.first) {
        return false;
    }
    for unit in and.rest.as_slice() {
        if !unit_ignores_place(unit) {
            return false;
        }
    }
    true
}

#[cycle(ignoring)]
fn unit_ignores_place(unit: &Unit) -> bool
    ensures { IsTrue result → Ignores (holds_unit unit.now) }
{
    match unit {
        Unit::Group(or) => or_ignores_place(or.get()),
        Unit::Alone(value) => value_ignores_place(value),
        Unit::Compared(value, _, _) => value_ignores_place(value),
        Unit::Mirrored(_, _, value) => value_ignores_place(value),
    }
}

#[cycle(ignoring)]
fn all_ignore_place(ands: &[And]) -> bool
    ensures { IsTrue result → AllIgnore (map holds_and ands.now) }
{
    for and in ands {
        if !and_ignores_place(and) {
            return false;
        }
    }
    true
}

fn value_ignores_place(value: &Value) -> bool
    ensures { IsTrue result → IsPlaceless (given value.now) }
{
    match value {
        Value::Nodes(_) => true,
        Value::Position => false,
        Value::Band(_, _) => true,
    }
}
