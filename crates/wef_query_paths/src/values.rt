//! Values that are being read, and the side of a comparison on which they stand.

ghost use Rattle.std.specs.Prelude.{◌≡◌};
ghost use Rattle.wef_query_paths.specs.Reads.{Turns};
ghost use Rattle.wef_query_paths.specs.Turns.{before_literal, before_mask, before_value, behind_left, behind_literal, behind_value, is_position, may_be_position};
ghost use Rattle.wef_query_tokens.specs.Reads.{Reads};

use crate::conditions::{Levels, behind_unit};
use crate::path::{Literal, Path, Unit, Value};
use crate::steps::{Place, before_step};
use crate::turns::Next;
use std::alloc::Global;
use wef_query_tokens::{Halt, Operator, Token};

/// The side of a comparison on which a value stands.
pub enum Side {
    /// It comes first, or alone.
    Left,
    /// A literal and the operator came before it.
    Right(Literal, Operator),
}

/// One call for whoever lets it go, whatever it is.
impl Drop for Side {
    fn drop(self) {
        match self {
            Side::Left | Side::Right(_, _) => {}
        }
    }
}

impl Side {
    /// Takes what follows a value.
    pub(crate) fn behind_value(
        self,
        levels: &mut Levels,
        value: Value,
        token: Token,
    ) -> Result<Next, Halt>
        ensures { Turns result levels.new (behind_value levels.old self value token) }
    {
        match self {
            Side::Left => behind_left(levels, value, token),
            Side::Right(literal, operator) => {
                let unit = Unit::Mirrored(literal, operator, value);
                behind_unit(levels, unit, token)
            }
        }
    }
}

/// Where a value begins: a call, or the path to it.
pub(crate) fn before_value(alloc: Global, side: Side, token: Token) -> Result<Next, Halt>
    ensures { Reads result (before_value side token) }
{
    match token {
        Token::PositionCall => {
            if may_be_position(&side) {
                return Ok(Next::BehindPosition(side));
            }
            Err(Halt::Refused)
        }
        Token::BandCall => Ok(Next::BehindBand(side)),
        token => before_step(alloc, Place::InValue(side), None, token),
    }
}

/// Whether a value may be `position()`, which is compared with a number.
fn may_be_position(side: &Side) -> bool
    ensures { result ≡ may_be_position side.now }
{
    match side {
        Side::Left => true,
        Side::Right(Literal::Number(_), _) => true,
        Side::Right(Literal::Quoted(_), _) => false,
    }
}

/// The mask of a `band`, a number.
pub(crate) fn before_mask(side: Side, path: Path, token: Token) -> Result<Next, Halt>
    ensures { Reads result (before_mask side path token) }
{
    match token {
        Token::Figure(mask) => Ok(Next::BehindMask(side, path, mask)),
        _ => Err(Halt::Refused),
    }
}

/// A value that comes first is compared, or a unit alone where it isn't `position()`.
fn behind_left(levels: &mut Levels, value: Value, token: Token) -> Result<Next, Halt>
    ensures { Turns result levels.new (behind_left levels.old value token) }
{
    match token {
        Token::Compare(operator) => Ok(Next::BeforeLiteral(value, operator)),
        token => {
            if is_position(&value) {
                return Err(Halt::Refused);
            }
            behind_unit(levels, Unit::Alone(value), token)
        }
    }
}

fn is_position(value: &Value) -> bool
    ensures { result ≡ is_position value.now }
{
    match value {
        Value::Position => true,
        Value::Nodes(_) | Value::Band(_, _) => false,
    }
}

/// The operator behind a literal that a comparison begins with.
pub(crate) fn behind_literal(literal: Literal, token: Token) -> Result<Next, Halt>
    ensures { Reads result (behind_literal literal token) }
{
    match token {
        Token::Compare(operator) => Ok(Next::BeforeValue(literal, operator)),
        _ => Err(Halt::Refused),
    }
}

/// The literal that a value is compared with.
pub(crate) fn before_literal(value: Value, operator: Operator, token: Token) -> Result<Next, Halt>
    ensures { Reads result (before_literal value operator token) }
{
    match token {
        Token::Figure(number) => {
            let unit = Unit::Compared(value, operator, Literal::Number(number));
            Ok(Next::BehindUnit(unit))
        }
        Token::Quote(text) => {
            if is_position(&value) {
                return Err(Halt::Refused);
            }
            let unit = Unit::Compared(value, operator, Literal::Quoted(text));
            Ok(Next::BehindUnit(unit))
        }
        _ => Err(Halt::Refused),
    }
}
