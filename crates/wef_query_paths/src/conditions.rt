//! Conditions that are being read, and the brackets around them.

ghost use Rattle.std.specs.Option.{option_and_then};
ghost use Rattle.std.specs.Prelude.{◌≡◌, ◌==◌, [], ◌∷◌, length, MatchOption, OnOk, OnErr};
ghost use Rattle.wef_query_paths.specs.Levels.{opened, with_alternative, with_units_ended};
ghost use Rattle.wef_query_paths.specs.Reads.{Turns};
ghost use Rattle.wef_query_paths.specs.Turns.{before_unit, behind_level, behind_unit, closed_round, closed_square, joined, with_and_behind};
ghost use Rattle.wef_query_tokens.specs.Reads.{Reads};

use crate::path::{And, Literal, Or, Path, Predicate, Step, Unit};
use crate::shared::Shared;
use crate::steps::{Place, behind_predicate};
use crate::turns::Next;
use crate::values::{Side, before_value};
use std::alloc::{AllocError, Global};
use std::marker::Model;
use std::mem;
use wef_base::{List, Text};
use wef_query_tokens::{Halt, Token};

/// The bracket around a condition.
pub enum Around {
    Round,
    /// A predicate of a step, with the place of its path and the steps before.
    Square(Place, Option<Path>, Step),
}

/// One call for whoever lets it go, whatever it is.
impl Drop for Around {
    fn drop(self) {
        match self {
            Around::Round | Around::Square(_, _, _) => {}
        }
    }
}

impl Around {
    /// What a condition in square brackets is, where it has an end.
    fn closed_square(self, alternatives: Option<Or>) -> Result<Next, Halt>
        ensures { Reads result (option_and_then (closed_square self) alternatives) }
    {
        match self {
            Around::Round => Err(Halt::Refused),
            Around::Square(place, so_far, step) => match alternatives {
                None => Err(Halt::Refused),
                Some(or) => behind_predicate(place, so_far, step, Predicate::Whether(or)),
            },
        }
    }
}

/// A condition whose bracket is open.
pub struct Level {
    pub around: Around,
    /// What stands before the last `or`.
    pub alternatives: Option<Or>,
    /// What stands since then before the last `and`.
    pub units: Option<And>,
}

/// One call for whoever lets it go, whatever it is.
impl Drop for Level {
    fn drop(self) {
        match self {
            Level {
                around: _,
                alternatives: _,
                units: _,
            } => {}
        }
    }
}

impl Level {
    /// A bracket in which nothing is read.
    pub(crate) fn new(around: Around) -> Level
        ensures { result ≡ opened around }
    {
        Level {
            around,
            alternatives: None,
            units: None,
        }
    }

    /// Takes a unit. What is there after an error may be anything.
    fn add_unit(&mut self, alloc: Global, unit: Unit) -> Result<(), AllocError>
        ensures { OnOk result (self.new ≡ with_and_behind self.old unit) }
    {
        match &mut self.units {
            Some(units) => units.rest.push(unit),
            None => {
                self.units = Some(And {
                    first: unit,
                    rest: List::new(alloc),
                });
                Ok(())
            }
        }
    }

    /// Makes the units one more alternative. What is there after an error may be anything.
    fn end_units(&mut self, alloc: Global) -> Result<(), AllocError>
        ensures { OnOk result (self.new ≡ with_units_ended self.old) }
    {
        match self.units.take() {
            None => Ok(()),
            Some(units) => self.add_alternative(alloc, units),
        }
    }

    fn add_alternative(&mut self, alloc: Global, units: And) -> Result<(), AllocError>
        ensures { OnOk result (self.new ≡ with_alternative self.old units) }
    {
        match &mut self.alternatives {
            Some(alternatives) => alternatives.rest.push(units),
            None => {
                self.alternatives = Some(Or {
                    first: units,
                    rest: List::new(alloc),
                });
                Ok(())
            }
        }
    }

    /// What a condition in round brackets is, where it has an end.
    fn closed_round(&mut self, alloc: Global) -> Result<Next, Halt>
        ensures { Reads result (option_and_then (closed_round self.old.around) self.old.alternatives) }
    {
        match &self.around {
            Around::Square(_, _, _) => Err(Halt::Refused),
            Around::Round => match self.alternatives.take() {
                None => Err(Halt::Refused),
                Some(or) => Ok(Next::BehindUnit(Unit::Group(Shared::new(alloc, or)?))),
            },
        }
    }
}

/// The conditions whose brackets are open, which contracts see with the innermost first.
#[derive(Drop)]
pub struct Levels {
    items: Vec<Level>,
}

impl Model for Levels {
    ghost use Rattle.std.specs.Coded.{coded_list};
    ghost use Rattle.std.specs.Prelude.{List, reverse};
    ghost use Rattle.wef_query_paths.specs.contracts.conditions.Level as element;
    ghost use Rattle.wef_query_paths.specs.declared.conditions.Level.{Level};

    ghost Value = { List Level };

    ghost coded = { coded_list element.the_row.coded };

    ghost view = { λ s. reverse s.items.items };
}

impl Levels {
    /// No bracket is open.
    pub(crate) fn new(alloc: Global) -> Levels
        ensures { result ≡ [] }
    {
        Levels {
            items: Vec::new(alloc),
        }
    }

    /// Whether no bracket is open.
    pub(crate) fn is_empty(&self) -> bool
        ensures { result ≡ (length self.now == 0) }
    {
        self.items.len() == 0
    }

    /// The allocator that the brackets were made with.
    pub(crate) fn alloc(&self) -> Global {
        *self.items.allocator()
    }

    /// Opens a bracket inside all others.
    pub(crate) fn push(&mut self, level: Level) -> Result<(), AllocError>
        ensures ok { OnOk result (self.new ≡ level ∷ self.old) }
        ensures err { OnErr result (self.new ≡ self.old) }
    {
        self.items.push(level)?;
        Ok(())
    }

    /// Takes the innermost condition out.
    pub(crate) fn pop(&mut self) -> Option<Level>
        ensures { MatchOption result ((self.old ≡ []) × (self.new ≡ [])) (λ level. self.old ≡ level ∷ self.new) }
    {
        self.items.pop()
    }
}

/// Where a unit of a condition begins: a bracket, a literal, or a value.
pub(crate) fn before_unit(levels: &mut Levels, token: Token) -> Result<Next, Halt>
    ensures { Turns result levels.new (before_unit levels.old token) }
{
    match token {
        Token::OpenRound => {
            levels.push(Level::new(Around::Round))?;
            Ok(Next::BeforeUnit)
        }
        Token::Figure(number) => Ok(Next::BehindLiteral(Literal::Number(number))),
        Token::Quote(text) => Ok(Next::BehindLiteral(Literal::Quoted(text))),
        token => before_value(levels.alloc(), Side::Left, token),
    }
}

/// What follows a unit of the innermost condition: a joint, or the bracket that closes it.
pub(crate) fn behind_unit(levels: &mut Levels, unit: Unit, token: Token) -> Result<Next, Halt>
    ensures { Turns result levels.new (behind_unit levels.old unit token) }
{
    match levels.pop() {
        None => Err(Halt::Refused),
        Some(mut level) => {
            level.add_unit(levels.alloc(), unit)?;
            behind_level(levels, level, token)
        }
    }
}

/// What follows the units of the innermost condition, which was taken out.
fn behind_level(levels: &mut Levels, level: Level, token: Token) -> Result<Next, Halt>
    ensures { Turns result levels.new (behind_level levels.old level token) }
{
    let mut level = level;
    match token {
        Token::Word(name) | Token::Joint(name) => joined(levels, level, &name),
        Token::CloseRound => {
            level.end_units(levels.alloc())?;
            level.closed_round(levels.alloc())
        }
        Token::CloseSquare => {
            level.end_units(levels.alloc())?;
            mem::replace(&mut level.around, Around::Round).closed_square(level.alternatives.take())
        }
        _ => Err(Halt::Refused),
    }
}

/// A name behind a unit: an operator.
fn joined(levels: &mut Levels, level: Level, name: &Text) -> Result<Next, Halt>
    ensures { Turns result levels.new (joined levels.old level name.now) }
{
    let mut level = level;
    if name.as_str() == "and" {
        levels.push(level)?;
        return Ok(Next::BeforeUnit);
    }
    if name.as_str() == "or" {
        level.end_units(levels.alloc())?;
        levels.push(level)?;
        return Ok(Next::BeforeUnit);
    }
    Err(Halt::Refused)
}
