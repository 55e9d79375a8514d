//! The elements that are open.

ghost use Rattle.std.specs.Option.{option_copied};
ghost use Rattle.std.specs.Prelude.{◌≡◌, ◌==◌, [], ◌∷◌, length, MatchOption, IfOk, OnOk, OnErr};

use crate::scopes::Declarations;
use std::alloc::{AllocError, Global};
use std::marker::Model;
use wef_base::{Attribute, List, Namespace, Node, Text};
use wef_tree_pieces::Name;
use wef_xml::digests::Digested;
use wef_xml::spaces::{no_space, xml_space};

/// An element whose end tag hasn't come.
#[derive(Drop)]
pub struct Open {
    /// Its name as it is spelt, which the end tag repeats.
    pub name: Name,
    pub space: Namespace,
    pub attributes: List<Attribute>,
    pub declared: Declarations,
    pub children: List<Node>,
}

/// The open elements, which contracts see with the innermost first. Around them stand the namespaces
/// that nobody declares, one of each for all elements and attributes to share.
#[derive(Drop)]
pub struct Stack {
    items: Vec<Open>,
    none: Digested,
    xml: Digested,
}

impl Model for Stack {
    ghost use Rattle.std.specs.Coded.{coded_list};
    ghost use Rattle.std.specs.Prelude.{◌≡◌, [], List, reverse};
    ghost use Rattle.wef_tree_reading.specs.contracts.stack.Open as element;
    ghost use Rattle.wef_tree_reading.specs.declared.stack.Open.{Open};
    ghost use Rattle.wef_xml.specs.Spaces.{xml_space};

    ghost Value = { List Open };

    ghost coded = { coded_list element.the_row.coded };

    ghost view = { λ s. reverse s.items.items };

    ghost invariant = { λ s. (s.none ≡ []) × (s.xml ≡ xml_space) };
}

impl Stack {
    ghost use Rattle.wef_tree_reading.specs.Building.{with_child};
    ghost use Rattle.wef_tree_reading.specs.Scopes.{declared_outside};
    ghost use Rattle.wef_xml.specs.Spaces.{xml_space};

    /// No element.
    pub fn new(alloc: Global) -> Result<Stack, AllocError>
        ensures { IfOk result (λ stack. stack ≡ []) }
    {
        Ok(Stack {
            items: Vec::new(alloc),
            none: Digested::new(no_space(alloc)?),
            xml: Digested::new(xml_space(alloc)?),
        })
    }

    /// No namespace.
    pub fn no_space(&self) -> Result<Digested, AllocError>
        ensures { IfOk result (λ space. space ≡ []) }
    {
        self.none.clone()
    }

    /// The namespace of the prefix `xml`.
    pub fn xml_space(&self) -> Result<Digested, AllocError>
        ensures { IfOk result (λ space. space ≡ xml_space) }
    {
        self.xml.clone()
    }

    /// Whether no element is open.
    pub fn is_empty(&self) -> bool
        ensures { result ≡ (length self.now == 0) }
    {
        self.items.len() == 0
    }

    /// How many elements are open.
    pub fn len(&self) -> usize
        ensures { result ≡ length self.now }
    {
        self.items.len()
    }

    /// Opens an element inside all others.
    pub fn push(&mut self, item: Open) -> Result<(), AllocError>
        ensures ok { OnOk result (self.new ≡ item ∷ self.old) }
        ensures err { OnErr result (self.new ≡ self.old) }
    {
        self.items.push(item)?;
        Ok(())
    }

    /// Takes the innermost element out.
    pub fn pop(&mut self) -> Option<Open>
        ensures { MatchOption result ((self.old ≡ []) × (self.new ≡ [])) (λ o. self.old ≡ o ∷ self.new) }
    {
        self.items.pop()
    }

    /// The innermost declaration of a prefix.
    pub fn declared_outside(&self, prefix: &Text) -> Option<&Digested>
        ensures { option_copied result ≡ declared_outside self.now prefix.now }
    {
        let mut rest = self.items.as_slice();
        while let Some((innermost, outer)) = rest.split_last() {
            if let Some(space) = innermost.declared.get(prefix) {
                return Some(space);
            }
            rest = outer;
        }
        None
    }

    /// Puts a child behind those of the innermost element. Where none is open, the child is lost.
    pub fn add_child(&mut self, child: Node) -> Result<(), AllocError>
        ensures { OnOk result (self.new ≡ with_child child self.old) }
    {
        let Some(innermost) = self.items.last_mut() else {
            return Ok(());
        };
        innermost.children.push_snug(child)?;
        Ok(())
    }
}
