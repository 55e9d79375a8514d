//! Trees whose namespaces are told apart by their digests.

ghost use Rattle.std.specs.Prelude.{◌≡◌};
ghost use Rattle.wef_base.specs.Digests.{digest_of};
ghost use Rattle.wef_base.specs.Names.{same};
ghost use Rattle.wef_xml.specs.Told.{AreTold, IsTold};

use std::marker::Model;
use wef_base::{Element, Namespace};

/// A tree that was read, which contracts see as its root. No two long namespaces of its elements and
/// attributes have one digest, unless that isn't told. So where it is, two namespaces are seen to be
/// the same in a fixed time.
#[derive(Drop)]
pub struct ToldTree {
    root: Element,
    told: bool,
}

impl Model for ToldTree {
    ghost use Rattle.wef_base.specs.declared.tree.Element.{Element};
    ghost use Rattle.wef_base.specs.contracts.tree.Element as element;
    ghost use Rattle.wef_xml.specs.Told.{IsTold};

    ghost Value = { Element };

    ghost coded = { element.the_row.coded };

    ghost view = { λ t. t.root };

    ghost invariant = { λ t. IsTold t.told t.root };
}

impl ToldTree {
    /// The tree of this root; `told`: its namespaces are told apart by their digests.
    pub fn new(root: Element, told: bool) -> ToldTree
        requires { IsTold told root }
        ensures { result ≡ root }
    {
        ToldTree { root, told }
    }

    /// The root. It takes no memory.
    pub fn root(&self) -> &Element
        ensures { result.now ≡ self.now }
    {
        &self.root
    }

    /// The root alone.
    pub fn into_root(self) -> Element
        ensures { result ≡ self }
    {
        self.root
    }

    /// Whether the namespaces are told apart by their digests. Only a collision of SHA-256 has them
    /// not told.
    pub fn is_told(&self) -> bool
        ensures { IsTold result self.now }
    {
        self.told
    }
}

/// Whether two namespaces are the same; `told`: they are told apart by their digests.
pub fn is_same(told: bool, one: &Namespace, other: &Namespace) -> bool
    requires { AreTold told one.now other.now }
    ensures { result ≡ same one.now other.now }
{
    if told && one.is_long() && other.is_long() {
        return is_same_long(one, other);
    }
    *one == *other
}

/// The same of long ones that are told apart.
#[tactic(auto, using(crate::proofs::Apart::by_digests))]
fn is_same_long(one: &Namespace, other: &Namespace) -> bool
    requires { digest_of one.now ≡ digest_of other.now → one.now ≡ other.now }
    ensures { result ≡ same one.now other.now }
{
    one.digest() == other.digest()
}
