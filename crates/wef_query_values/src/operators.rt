//! How numbers compare.

ghost use Rattle.std.specs.Prelude.{◌≡◌};
ghost use Rattle.wef_query_values.specs.Operators.{both_hold, holds, mirrored};

use wef_query_paths::Operator;

/// The operator that holds with its sides exchanged: `>` for `<`.
pub fn mirrored(operator: Operator) -> Operator
    ensures { result ≡ mirrored operator }
{
    match operator {
        Operator::Equal => Operator::Equal,
        Operator::NotEqual => Operator::NotEqual,
        Operator::Less => Operator::Greater,
        Operator::LessOrEqual => Operator::GreaterOrEqual,
        Operator::Greater => Operator::Less,
        Operator::GreaterOrEqual => Operator::LessOrEqual,
    }
}

/// Whether one number is to another as an operator says.
pub(crate) fn holds(operator: Operator, left: i128, right: i128) -> bool
    ensures { result ≡ holds operator left right }
{
    match operator {
        Operator::Equal => left == right,
        Operator::NotEqual => left != right,
        Operator::Less => left < right,
        Operator::LessOrEqual => left <= right,
        Operator::Greater => left > right,
        Operator::GreaterOrEqual => left >= right,
    }
}

/// The same where both are there.
pub(crate) fn both_hold(operator: Operator, left: Option<i128>, right: Option<i128>) -> bool
    ensures { result ≡ both_hold operator left right }
{
    match (left, right) {
        (Some(left), Some(right)) => holds(operator, left, right),
        _ => false,
    }
}
