//! The operators between a value and a literal.

/// How a value and a literal compare (XPath 1.0, 3.4).
#[derive(Clone, Copy, Debug, PartialEq, Eq)]
pub enum Operator {
    Equal,
    NotEqual,
    Less,
    LessOrEqual,
    Greater,
    GreaterOrEqual,
}
