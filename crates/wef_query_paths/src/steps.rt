//! Steps of a path that is being read, and the place where it stands.

ghost use Rattle.std.specs.Prelude.{◌≡◌, Some, IfOk};
ghost use Rattle.wef_query_paths.specs.Levels.{with_predicate, with_step};
ghost use Rattle.wef_query_paths.specs.Reads.{Turns};
ghost use Rattle.wef_query_paths.specs.Turns.{before_predicate, before_step, before_test, behind_count, behind_path, behind_slash, behind_step, whole_path};
ghost use Rattle.wef_query_paths.specs.declared.turns.Next.TheVariants.{BehindStep};
ghost use Rattle.wef_query_tokens.specs.Reads.{Reads};

use crate::conditions::{Around, Level, Levels, before_unit};
use crate::path::{Literal, NameTest, Path, Predicate, Step, Value};
use crate::turns::Next;
use crate::values::Side;
use std::alloc::{AllocError, Global};
use wef_base::List;
use wef_query_tokens::{Axis, Halt, Token};

/// Where a path stands.
pub enum Place {
    /// It is all of the text.
    Whole,
    /// It is a value.
    InValue(Side),
    /// It is in a value `band(path, number)`.
    InBand(Side),
}

/// One call for whoever lets it go, whatever it is.
impl Drop for Place {
    fn drop(self) {
        match self {
            Place::Whole | Place::InValue(_) | Place::InBand(_) => {}
        }
    }
}

impl Place {
    /// Takes what follows a step or a predicate of it: a predicate, a step more, or what ends the path.
    pub(crate) fn behind_step(
        self,
        levels: &mut Levels,
        so_far: Option<Path>,
        step: Step,
        token: Token,
    ) -> Result<Next, Halt>
        ensures { Turns result levels.new (behind_step levels.old self so_far step token) }
    {
        let alloc = levels.alloc();
        match token {
            Token::OpenSquare => Ok(Next::BeforePredicate(self, so_far, step)),
            Token::Slash => behind_slash(alloc, self, so_far, step),
            token => {
                let path = with_step(alloc, so_far, step)?;
                self.behind_path(levels, path, token)
            }
        }
    }

    /// Takes what follows a path.
    fn behind_path(self, levels: &mut Levels, path: Path, token: Token) -> Result<Next, Halt>
        ensures { Turns result levels.new (behind_path levels.old self path token) }
    {
        match self {
            Place::Whole => Err(Halt::Refused),
            Place::InValue(side) => side.behind_value(levels, Value::Nodes(path), token),
            Place::InBand(side) => match token {
                Token::Comma => Ok(Next::BeforeMask(side, path)),
                _ => Err(Halt::Refused),
            },
        }
    }
}

/// Where a step of a path begins: its axis, or its name test along `child`.
pub(crate) fn before_step(
    alloc: Global,
    place: Place,
    so_far: Option<Path>,
    token: Token,
) -> Result<Next, Halt>
    ensures { Reads result (before_step place so_far token) }
{
    match token {
        Token::Along(axis) => Ok(Next::BeforeTest(place, so_far, axis)),
        token => before_test(alloc, place, so_far, Axis::Child, token),
    }
}

/// Where the name test of a step is due behind its axis.
pub(crate) fn before_test(
    alloc: Global,
    place: Place,
    so_far: Option<Path>,
    axis: Axis,
    token: Token,
) -> Result<Next, Halt>
    ensures { Reads result (before_test place so_far axis token) }
{
    let test = match token {
        Token::Star => NameTest::Any,
        Token::Word(name) => NameTest::Named(name),
        _ => return Err(Halt::Refused),
    };
    let step = Step {
        axis,
        test,
        predicates: List::new(alloc),
    };
    Ok(Next::BehindStep(place, so_far, step))
}

/// An attribute step is the last of its path.
fn behind_slash(alloc: Global, place: Place, so_far: Option<Path>, step: Step) -> Result<Next, Halt>
    ensures { Reads result (behind_slash place so_far step) }
{
    if !step.axis.goes_to_children() {
        return Err(Halt::Refused);
    }
    let path = with_step(alloc, so_far, step)?;
    Ok(Next::BeforeStep(place, Some(path)))
}

/// What a predicate begins with: a number, or a condition.
pub(crate) fn before_predicate(
    levels: &mut Levels,
    place: Place,
    so_far: Option<Path>,
    step: Step,
    token: Token,
) -> Result<Next, Halt>
    ensures { Turns result levels.new (before_predicate levels.old place so_far step token) }
{
    match token {
        Token::Figure(number) => Ok(Next::BehindCount(place, so_far, step, number)),
        token => {
            levels.push(Level::new(Around::Square(place, so_far, step)))?;
            before_unit(levels, token)
        }
    }
}

/// A number alone is the place of a node, and before an operator a literal.
pub(crate) fn behind_count(
    levels: &mut Levels,
    place: Place,
    so_far: Option<Path>,
    step: Step,
    number: u64,
    token: Token,
) -> Result<Next, Halt>
    ensures { Turns result levels.new (behind_count levels.old place so_far step number token) }
{
    match token {
        Token::CloseSquare => { behind_predicate(place, so_far, step, Predicate::At(number)) }
        Token::Compare(operator) => {
            levels.push(Level::new(Around::Square(place, so_far, step)))?;
            Ok(Next::BeforeValue(Literal::Number(number), operator))
        }
        _ => Err(Halt::Refused),
    }
}

/// A path that is all of the text.
pub(crate) fn whole_path(
    alloc: Global,
    place: &Place,
    so_far: Option<Path>,
    step: Step,
) -> Result<Path, Halt>
    ensures { Reads result (whole_path place.now so_far step) }
{
    match place {
        Place::Whole => Ok(with_step(alloc, so_far, step)?),
        Place::InValue(_) | Place::InBand(_) => Err(Halt::Refused),
    }
}

/// A path with one more step.
pub(crate) fn with_step(alloc: Global, so_far: Option<Path>, step: Step) -> Result<Path, AllocError>
    ensures { IfOk result (λ path. path ≡ with_step so_far step) }
{
    match so_far {
        None => Ok(Path {
            first: step,
            rest: List::new(alloc),
        }),
        Some(mut path) => {
            path.rest.push(step)?;
            Ok(path)
        }
    }
}

/// Behind the `]` of a predicate.
pub(crate) fn behind_predicate(
    place: Place,
    so_far: Option<Path>,
    step: Step,
    predicate: Predicate,
) -> Result<Next, Halt>
    ensures { Reads result (Some (BehindStep place so_far (with_predicate step predicate))) }
{
    let mut step = step;
    step.predicates.push(predicate)?;
    Ok(Next::BehindStep(place, so_far, step))
}
