//! What is asked of the nodes that a path finds.

ghost use Rattle.std.specs.Prelude.{◌≡◌};
ghost use Rattle.wef_query_values.specs.Meaning.{ordered, place_compares};
ghost use Rattle.wef_query_values.specs.Wanted.{is_wanted};
ghost use Rattle.wef_query_values.specs.Places.{plain};

use crate::comparing::{compares, has_bits, masked_compares};
use crate::spots::Spot;
use wef_query_paths::{Literal, Operator};

/// What is asked of a node.
#[derive(Clone, Copy)]
pub enum Wanted<'a> {
    /// Nothing: any node will do.
    Any,
    /// That it compares so with a literal.
    Comparing(Operator, &'a Literal),
    /// That the bits of a mask in its number compare so with a literal.
    Masked(u64, Operator, &'a Literal),
    /// That its number has a bit of a mask.
    Bits(u64),
}

/// Whether a node is what is asked for.
pub fn is_wanted(wanted: Wanted, node: Spot) -> bool
    ensures { result ≡ is_wanted wanted.entry (plain node.entry) }
{
    match wanted {
        Wanted::Any => true,
        Wanted::Comparing(operator, literal) => compares(node, operator, literal),
        Wanted::Masked(mask, operator, literal) => masked_compares(node, mask, operator, literal),
        Wanted::Bits(mask) => has_bits(node, mask),
    }
}

/// Whether a node's place compares so with a literal; with a text it never does.
pub fn place_compares(place: u64, operator: Operator, literal: &Literal) -> bool
    ensures { result ≡ place_compares operator literal.now place }
{
    match literal {
        Literal::Number(number) => ordered(operator, place, *number),
        Literal::Quoted(_) => false,
    }
}

fn ordered(operator: Operator, left: u64, right: u64) -> bool
    ensures { result ≡ ordered operator left right }
{
    match operator {
        Operator::Equal => left == right,
        Operator::NotEqual => left != right,
        Operator::Less => left < right,
        Operator::LessOrEqual => left <= right,
        Operator::Greater => left > right,
        Operator::GreaterOrEqual => left >= right,
    }
}
