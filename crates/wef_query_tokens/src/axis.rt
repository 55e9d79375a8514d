//! Where the steps of a path go.

ghost use Rattle.std.specs.Prelude.{◌≡◌};
ghost use Rattle.wef_query_tokens.specs.Steps.{goes_to_children};

/// Where a step goes from a node (XPath 1.0, 2.2).
#[derive(Clone, Copy, Debug, PartialEq, Eq)]
pub enum Axis {
    Child,
    Attribute,
}

impl Axis {
    /// Whether it goes to the elements in a node: the other goes to the attributes of one.
    pub fn goes_to_children(self) -> bool
        ensures { result ≡ goes_to_children self }
    {
        match self {
            Axis::Child => true,
            Axis::Attribute => false,
        }
    }
}
