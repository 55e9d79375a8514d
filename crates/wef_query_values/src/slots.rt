//! The children and attributes of a node, one by one, as a step goes over them.

ghost use Rattle.std.specs.Option.{option_map};
ghost use Rattle.std.specs.Prelude.{◌≡◌, None, get_or, length};
ghost use Rattle.wef_query_values.specs.Meaning.{slots, taken_attribute, taken_child, taken_element, takes};
ghost use Rattle.wef_query_values.specs.Places.{plain};

use crate::spots::Spot;
use wef_base::{Attribute, Element, Node, Text};
use wef_query_paths::{Axis, NameTest};

/// How many children or attributes a node has.
pub fn slot_count(spot: Spot, axis: Axis) -> usize
    ensures { (test : NameTest) → result ≡ length (slots axis test (plain spot.entry)) }
{
    match axis {
        Axis::Child => match spot {
            Spot::Whole(_) => 1,
            Spot::Part(element) => element.children.len(),
            Spot::Field(_) => 0,
        },
        Axis::Attribute => match spot {
            Spot::Part(element) => element.attributes.len(),
            Spot::Whole(_) | Spot::Field(_) => 0,
        },
    }
}

/// The child or attribute of a node at this index, where a step takes its name.
pub fn slot<'a>(spot: Spot<'a>, axis: Axis, test: &NameTest, at: usize) -> Option<Spot<'a>>
    ensures { option_map plain result ≡ get_or (slots axis test.now (plain spot.entry)) at None }
{
    match axis {
        Axis::Child => child(spot, test, at),
        Axis::Attribute => attribute(spot, test, at),
    }
}

fn child<'a>(spot: Spot<'a>, test: &NameTest, at: usize) -> Option<Spot<'a>>
    ensures { option_map plain result ≡ get_or (slots Axis.Child test.now (plain spot.entry)) at None }
{
    match spot {
        Spot::Whole(root) if at == 0 => element(test, root),
        Spot::Part(parent) => node(test, parent.children.as_slice().get(at)?),
        Spot::Whole(_) | Spot::Field(_) => None,
    }
}

fn attribute<'a>(spot: Spot<'a>, test: &NameTest, at: usize) -> Option<Spot<'a>>
    ensures { option_map plain result ≡ get_or (slots Axis.Attribute test.now (plain spot.entry)) at None }
{
    match spot {
        Spot::Part(parent) => value(test, parent.attributes.as_slice().get(at)?),
        Spot::Whole(_) | Spot::Field(_) => None,
    }
}

fn node<'a>(test: &NameTest, node: &'a Node) -> Option<Spot<'a>>
    ensures { option_map plain result ≡ taken_child test.now node.now }
{
    match node {
        Node::Element(inner) => element(test, inner),
        Node::Chars(_) => None,
    }
}

fn element<'a>(test: &NameTest, element: &'a Element) -> Option<Spot<'a>>
    ensures { option_map plain result ≡ taken_element test.now element.now }
{
    if takes(test, &element.name) {
        Some(Spot::Part(element))
    } else {
        None
    }
}

fn value<'a>(test: &NameTest, attribute: &'a Attribute) -> Option<Spot<'a>>
    ensures { option_map plain result ≡ taken_attribute test.now attribute.now }
{
    if takes(test, &attribute.name) {
        Some(Spot::Field(&attribute.value))
    } else {
        None
    }
}

/// Whether a step takes nodes of a local name.
fn takes(test: &NameTest, name: &Text) -> bool
    ensures { result ≡ takes test.now name.now }
{
    match test {
        NameTest::Any => true,
        NameTest::Named(wanted) => wanted == name,
    }
}
