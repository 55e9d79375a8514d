//! What may come next in a path, and what a token makes of it.

ghost use Rattle.std.specs.Prelude.{◌≡◌, ◌||◌};
ghost use Rattle.wef_query_paths.specs.Fronts.{begins_path, is_behind_attribute, is_named_call};
ghost use Rattle.wef_query_paths.specs.Reads.{Turns};
ghost use Rattle.wef_query_paths.specs.Turns.{behind_call, ended, in_call, turn};
ghost use Rattle.wef_query_tokens.specs.Reads.{Reads};

use crate::conditions::{Levels, before_unit, behind_unit};
use crate::path::{Literal, Path, Step, Unit, Value};
use crate::steps::{Place, before_predicate, before_step, before_test, behind_count, whole_path};
use crate::values::{Side, before_literal, before_mask, before_value, behind_literal};
use std::alloc::Global;
use wef_query_tokens::{Axis, Halt, Operator, Token};

/// What may come next, with what is read of the innermost path or unit.
pub enum Next {
    /// A step of a path, of which so much is read.
    BeforeStep(Place, Option<Path>),
    /// The name of a step along an axis.
    BeforeTest(Place, Option<Path>, Axis),
    /// A predicate, a further step, or what follows the path.
    BehindStep(Place, Option<Path>, Step),
    /// What a `[` begins: a number or a condition.
    BeforePredicate(Place, Option<Path>, Step),
    /// Behind a `[` and a number: the `]`, or an operator.
    BehindCount(Place, Option<Path>, Step, u64),
    BeforeUnit,
    /// Behind a literal that begins a unit: an operator.
    BehindLiteral(Literal),
    /// Behind a literal and an operator: a value.
    BeforeValue(Literal, Operator),
    /// The `(` of `position()`.
    BehindPosition(Side),
    /// The `)` of `position()`.
    InPosition(Side),
    /// The `(` of `band(path, number)`.
    BehindBand(Side),
    /// The number of `band(path, number)`.
    BeforeMask(Side, Path),
    /// The `)` of `band(path, number)`.
    BehindMask(Side, Path, u64),
    /// An operator, or what follows a unit.
    BehindValue(Side, Value),
    /// Behind a value and an operator: a literal.
    BeforeLiteral(Value, Operator),
    /// `and`, `or`, or the end of the bracket.
    BehindUnit(Unit),
}

/// One call for whoever lets it go, whatever it is.
impl Drop for Next {
    fn drop(self) {
        match self {
            Next::BeforeStep(_, _)
            | Next::BeforeTest(_, _, _)
            | Next::BehindStep(_, _, _)
            | Next::BeforePredicate(_, _, _)
            | Next::BehindCount(_, _, _, _)
            | Next::BeforeUnit
            | Next::BehindLiteral(_)
            | Next::BeforeValue(_, _)
            | Next::BehindPosition(_)
            | Next::InPosition(_)
            | Next::BehindBand(_)
            | Next::BeforeMask(_, _)
            | Next::BehindMask(_, _, _)
            | Next::BehindValue(_, _)
            | Next::BeforeLiteral(_, _)
            | Next::BehindUnit(_) => {}
        }
    }
}

impl Next {
    /// Takes a token.
    pub(crate) fn turn(self, levels: &mut Levels, token: Token) -> Result<Next, Halt>
        ensures { Turns result levels.new (turn levels.old self token) }
    {
        match self {
            Next::BeforeStep(place, so_far) => before_step(levels.alloc(), place, so_far, token),
            Next::BeforeTest(place, so_far, axis) => before_test(
                levels.alloc(),
                place,
                so_far,
                axis,
                token,
            ),
            Next::BehindStep(place, so_far, step) => place.behind_step(levels, so_far, step, token),
            Next::BeforePredicate(place, so_far, step) => before_predicate(
                levels, place, so_far, step, token,
            ),
            Next::BehindCount(place, so_far, step, number) => behind_count(
                levels, place, so_far, step, number, token,
            ),
            Next::BeforeUnit => before_unit(levels, token),
            Next::BehindLiteral(literal) => behind_literal(literal, token),
            Next::BeforeValue(literal, operator) => before_value(
                levels.alloc(),
                Side::Right(literal, operator),
                token,
            ),
            Next::BehindPosition(side) => in_call(Next::InPosition(side), token),
            Next::InPosition(side) => behind_call(Next::BehindValue(side, Value::Position), token),
            Next::BehindBand(side) => in_call(Next::BeforeStep(Place::InBand(side), None), token),
            Next::BeforeMask(side, path) => before_mask(side, path, token),
            Next::BehindMask(side, path, mask) => behind_call(
                Next::BehindValue(side, Value::Band(path, mask)),
                token,
            ),
            Next::BehindValue(side, value) => side.behind_value(levels, value, token),
            Next::BeforeLiteral(value, operator) => before_literal(value, operator, token),
            Next::BehindUnit(unit) => behind_unit(levels, unit, token),
        }
    }

    /// Whether a `/` that can't come is one that XPath has: where a path may begin, none of whose steps
    /// stand before, or behind a step to attributes.
    pub(crate) fn has_foreign_slash(&self) -> bool
        ensures { result ≡ (begins_path self.now || is_behind_attribute self.now) }
    {
        match self {
            Next::BeforeStep(_, None) => true,
            Next::BeforePredicate(_, _, _) | Next::BeforeUnit | Next::BeforeValue(_, _) => true,
            Next::BehindStep(_, _, step) => !step.axis.goes_to_children(),
            _ => false,
        }
    }

    /// Whether a token is a function's name that can only be that of a step.
    pub(crate) fn is_named_call(&self, token: &Token) -> bool
        ensures { result ≡ is_named_call self.now token.now }
    {
        match self {
            Next::BeforeStep(_, _) | Next::BeforeTest(_, _, _) => token.is_call(),
            Next::BeforeValue(Literal::Quoted(_), _) => token.is_position_call(),
            _ => false,
        }
    }

    /// The path, where the text may end and no bracket is open.
    pub(crate) fn finish(self, alloc: Global) -> Result<Path, Halt>
        ensures { Reads result (ended self) }
    {
        match self {
            Next::BehindStep(place, so_far, step) => whole_path(alloc, &place, so_far, step),
            _ => Err(Halt::Refused),
        }
    }
}

/// What comes behind the `(` of a call.
fn in_call(next: Next, token: Token) -> Result<Next, Halt>
    ensures { Reads result (in_call next token) }
{
    match token {
        Token::OpenRound => Ok(next),
        _ => Err(Halt::Refused),
    }
}

/// What comes behind the `)` of a call.
fn behind_call(next: Next, token: Token) -> Result<Next, Halt>
    ensures { Reads result (behind_call next token) }
{
    match token {
        Token::CloseRound => Ok(next),
        _ => Err(Halt::Refused),
    }
}
