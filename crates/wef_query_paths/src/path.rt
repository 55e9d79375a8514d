//! What a query asks of an event, as a path of steps from the event's root (XPath 1.0, of which event
//! queries have a part). A type a rule of the grammar, and a field a part of the rule, in its order:
//!
//! ```text
//! path := step { "/" step }
//! step := [ axis ] ( name | "*" ) { "[" predicate "]" }
//! axis := "child" "::" | "attribute" "::" | "@"
//! predicate := number | or
//! or := and { "or" and }
//! and := unit { "and" unit }
//! unit := "(" or ")" | value [ operator literal ] | literal operator value
//! value := path | "position" "(" ")" | "band" "(" path "," number ")"
//! operator := "=" | "!=" | "<" | "<=" | ">" | ">="
//! ```

ghost use Rattle.std.specs.Prelude.{◌≡◌};
ghost use Rattle.wef_query_paths.specs.Paths.{any_path, is_any_path, is_any_step};

use crate::shared::Shared;
use std::alloc::Global;
use wef_base::{List, Text};
use wef_query_tokens::{Axis, Operator};

/// Which nodes of its axis a step takes (XPath 1.0, 2.3).
#[derive(Debug, Drop)]
pub enum NameTest {
    /// Each of them: `*`.
    Any,
    /// Those of a local name.
    Named(Text),
}

/// A number or a text that a query writes out.
#[derive(Debug, Drop)]
pub enum Literal {
    Number(u64),
    Quoted(Text),
}

/// Steps, one from what the other reaches.
#[cycle(path)]
#[derive(Debug, Drop)]
pub struct Path {
    pub first: Step,
    pub rest: List<Step>,
}

/// A step to the children or the attributes of a node, of which its predicates keep some.
#[cycle(path)]
#[derive(Debug, Drop)]
pub struct Step {
    pub axis: Axis,
    pub test: NameTest,
    pub predicates: List<Predicate>,
}

/// What a node has to meet.
#[cycle(path)]
#[derive(Debug, Drop)]
pub enum Predicate {
    /// It is the one at this place, the first at 1.
    At(u64),
    Whether(Or),
}

/// One of these holds.
#[cycle(path)]
#[derive(Debug, Drop)]
pub struct Or {
    pub first: And,
    pub rest: List<And>,
}

/// All of these hold.
#[cycle(path)]
#[derive(Debug, Drop)]
pub struct And {
    pub first: Unit,
    pub rest: List<Unit>,
}

/// One thing that holds or doesn't.
#[cycle(path)]
#[derive(Debug, Drop)]
pub enum Unit {
    /// In round brackets.
    Group(Shared<Or>),
    /// There is such a value.
    Alone(Value),
    Compared(Value, Operator, Literal),
    /// The literal stands before the value.
    Mirrored(Literal, Operator, Value),
}

/// What a predicate speaks of.
#[cycle(path)]
#[derive(Debug, Drop)]
pub enum Value {
    /// The nodes that a path reaches.
    Nodes(Path),
    /// The place of the node among those that the predicates before it left.
    Position,
    /// The bits of this mask in the number that a node is.
    Band(Path, u64),
}

impl Path {
    /// The path that each event meets, `*`: one step to the event's root, whatever its name.
    #[tactic(auto, unfolding(crate::specs::Paths::any_path))]
    pub fn any(alloc: Global) -> Path
        ensures { result ≡ any_path }
    {
        Path {
            first: Step {
                axis: Axis::Child,
                test: NameTest::Any,
                predicates: List::new(alloc),
            },
            rest: List::new(alloc),
        }
    }

    /// Whether it is the path that each event meets.
    pub fn is_any(&self) -> bool
        ensures { result ≡ is_any_path self.now }
    {
        self.first.is_any() && self.rest.is_empty()
    }
}

impl Step {
    fn is_any(&self) -> bool
        ensures { result ≡ is_any_step self.now }
    {
        self.axis.goes_to_children()
            && matches!(self.test, NameTest::Any)
            && self.predicates.is_empty()
    }
}
