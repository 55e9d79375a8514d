//! How places in an event's tree compare with what a query writes out (XPath 1.0, 3.4).

ghost use Rattle.std.specs.Option.{option_map_or};
ghost use Rattle.std.specs.Prelude.{◌≡◌, false, pos};
ghost use Rattle.wef_query_values.specs.Comparisons.{bits_in, compares, has_bits, instant_of_text, masked, masked_compares, texts_hold};
ghost use Rattle.wef_query_values.specs.Operators.{both_hold, holds};
ghost use Rattle.wef_query_values.specs.Places.{plain, text_at};

use crate::instants::{instant_at_spot, instant_of_text};
use crate::numbers::number_at;
use crate::operators::{both_hold, holds};
use crate::spots::Spot;
use crate::texts::says;
use wef_base::Text;
use wef_query_paths::{Literal, Operator};

/// Whether a place compares with a literal. With a number it does where its text is a whole number
/// for which the operator holds: without the spaces at both ends an optional `-` and digits, or `0x`
/// and hexadecimal digits, from -2^63 to 2^64 - 1. With a text `=` and `!=` compare byte for byte,
/// and the others where both are instants (XML Schema part 2, 3.2.7), without the spaces at both ends.
#[tactic(auto, unfolding(crate::specs::Comparisons::compares))]
pub fn compares(spot: Spot, operator: Operator, literal: &Literal) -> bool
    ensures { result ≡ compares operator literal.now (plain spot.entry) }
{
    match literal {
        Literal::Number(number) => {
            both_hold(operator, number_at(spot), Some(i128::from(*number)))
        }
        Literal::Quoted(text) => texts_hold(spot, operator, text),
    }
}

fn texts_hold(spot: Spot, operator: Operator, literal: &Text) -> bool
    ensures { result ≡ texts_hold operator (text_at (plain spot.entry)) literal.now }
{
    match operator {
        Operator::Equal => says(spot, literal),
        Operator::NotEqual => !says(spot, literal),
        Operator::Less | Operator::LessOrEqual | Operator::Greater | Operator::GreaterOrEqual =>
            instants_hold(spot, operator, literal),
    }
}

fn instants_hold(spot: Spot, operator: Operator, literal: &Text) -> bool
    ensures { result ≡ both_hold operator (instant_of_text (text_at (plain spot.entry))) (instant_of_text literal.now) }
{
    both_hold(operator, instant_at_spot(spot), instant_of_text(literal))
}

/// Whether the bits of a mask in the number that a place is compare with a literal, as a number does.
/// Below 0 a number has none, and with a text they never do.
#[tactic(auto, unfolding(crate::specs::Comparisons::masked_compares))]
pub fn masked_compares(spot: Spot, mask: u64, operator: Operator, literal: &Literal) -> bool
    ensures { result ≡ masked_compares mask operator literal.now (plain spot.entry) }
{
    match literal {
        Literal::Number(number) => masked_holds(masked(spot, mask), operator, *number),
        Literal::Quoted(_) => false,
    }
}

fn masked_holds(bits: Option<u64>, operator: Operator, number: u64) -> bool
    ensures { result ≡ option_map_or (λ bits. holds operator (pos bits) (pos number)) bits false }
{
    match bits {
        Some(bits) => holds(operator, i128::from(bits), i128::from(number)),
        None => false,
    }
}

/// Whether the number that a place is has a bit of a mask. Below 0 a number has none.
#[tactic(auto, unfolding(crate::specs::Comparisons::has_bits))]
pub fn has_bits(spot: Spot, mask: u64) -> bool
    ensures { result ≡ has_bits mask (plain spot.entry) }
{
    match masked(spot, mask) {
        Some(bits) => bits != 0,
        None => false,
    }
}

/// The bits of a mask in the number that a place is.
fn masked(spot: Spot, mask: u64) -> Option<u64>
    ensures { result ≡ masked mask (plain spot.entry) }
{
    bits_in(number_at(spot)?, mask)
}

fn bits_in(number: i128, mask: u64) -> Option<u64>
    ensures { result ≡ bits_in mask number }
{
    let number = u128::try_from(number).ok()?;
    Some((number & u128::from(mask)) as u64)
}
