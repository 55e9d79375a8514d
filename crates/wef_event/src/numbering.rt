//! Giving an event its number.

ghost use Rattle.std.specs.Fmt.{decimal};
ghost use Rattle.std.specs.List.{position};
ghost use Rattle.std.specs.Prelude.{◌≡◌, ◌≤◌, [], ◌∷◌, ◌++◌, codes, is_some, IfOk, OnOk};
ghost use Rattle.wef_base.specs.declared.numbers.TheConstants.{MAX};
ghost use Rattle.wef_base.specs.declared.tree.Node.{Chars};
ghost use Rattle.wef_base.specs.declared.tree.Node.TheVariants.{Element as Child};
ghost use Rattle.wef_event.specs.Events.{Gives};
ghost use Rattle.wef_event.specs.Numbering.{changed_node, new_field, numbered, numbered_children, numbered_root, numbered_system, with_first_changed, with_number, with_only};
ghost use Rattle.wef_event.specs.Paths.{named};
ghost use Rattle.wef_event.specs.PlainEvent.{MakesEvent};

use crate::paths::named;
use crate::reading::event_from;
use crate::records::{Event, EventFault};
use std::alloc::{AllocError, Global};
use std::mem;
use wef_base::{Element, List, Namespace, Node, Text};

impl Event {
    /// The event with a number: its digits are all that its field EventRecordID holds, or stand in
    /// a new one, last in System and in its namespace. `TooLong` where its text then has more than
    /// `EVENT_LIMIT` bytes.
    pub fn with_number(&self, number: u64) -> Result<Event, EventFault>
        requires least { 1 ≤ number }
        requires greatest { number ≤ MAX }
        ensures given { Gives result (with_number self.now number) }
        ensures made { MakesEvent result (numbered self.now number) }
        ensures channel { IfOk result (λ event. event.channel ≡ self.now.channel) }
        ensures number { IfOk result (λ event. event.number ≡ number) }
    {
        let tree = self.told_tree()?;
        let told = tree.is_told();
        let mut root = tree.into_root();
        number_root(number, &mut root)?;
        event_from(true, told, &root)
    }
}

/// Gives the root of an event a number.
fn number_root(number: u64, root: &mut Element) -> Result<(), AllocError>
    ensures { OnOk result (root.new ≡ numbered_root (decimal number) root.old) }
{
    let digits = digits_of(root.name.alloc(), number)?;
    let children = mem::replace(&mut root.children, List::new(digits.alloc()));
    root.children = with_system_numbered(&digits, children)?;
    Ok(())
}

/// A number in decimal digits.
fn digits_of(alloc: Global, number: u64) -> Result<Text, AllocError>
    ensures { IfOk result (λ digits. digits ≡ decimal number) }
{
    let mut digits = Text::new(alloc);
    digits.push_number(number)?;
    Ok(digits)
}

/// The children of an event, with the digits of a number in the first System.
fn with_system_numbered(digits: &Text, children: List<Node>) -> Result<List<Node>, AllocError>
    ensures { IfOk result (λ changed. changed ≡ with_first_changed (codes "System") (numbered_system digits.now) children) }
{
    let mut nodes = children.into_vec();
    if let Some(place) = first_place("System", nodes.as_slice()) {
        number_system(digits, &mut nodes[place])?;
    }
    Ok(List::from(nodes))
}

/// Gives System the digits of a number.
fn number_system(digits: &Text, node: &mut Node) -> Result<(), AllocError>
    ensures { OnOk result (node.new ≡ changed_node (numbered_system digits.now) node.old) }
{
    if let Node::Element(system) = node {
        let children = mem::replace(&mut system.children, List::new(digits.alloc()));
        system.children = numbered_children(digits, &system.space, children)?;
    }
    Ok(())
}

/// The children of System, whose namespace this is, with the digits of a number.
fn numbered_children(
    digits: &Text,
    space: &Namespace,
    children: List<Node>,
) -> Result<List<Node>, AllocError>
    ensures { IfOk result (λ changed. changed ≡ numbered_children space.now digits.now children) }
{
    let mut nodes = children.into_vec();
    match first_place("EventRecordID", nodes.as_slice()) {
        Some(place) => fill_field(digits, &mut nodes[place])?,
        None => add_field(digits, space, &mut nodes)?,
    }
    Ok(List::from(nodes))
}

/// Has the digits of a number be all that a field holds.
fn fill_field(digits: &Text, node: &mut Node) -> Result<(), AllocError>
    ensures { OnOk result (node.new ≡ changed_node (with_only digits.now) node.old) }
{
    if let Node::Element(field) = node {
        field.children = only_child(digits)?;
    }
    Ok(())
}

/// Adds a field with the digits of a number, in a namespace, behind the others.
fn add_field(digits: &Text, space: &Namespace, nodes: &mut Vec<Node>) -> Result<(), AllocError>
    ensures { OnOk result (nodes.new.items ≡ nodes.old.items ++ Child (new_field space.now digits.now) ∷ []) }
{
    nodes.push(Node::Element(new_field(digits, space)?))?;
    Ok(())
}

/// A new field with the digits of a number, in a namespace.
fn new_field(digits: &Text, space: &Namespace) -> Result<Element, AllocError>
    ensures { IfOk result (λ field. field ≡ new_field space.now digits.now) }
{
    Ok(Element {
        space: space.clone()?,
        name: Text::from_str(digits.alloc(), "EventRecordID")?,
        attributes: List::new(digits.alloc()),
        children: only_child(digits)?,
    })
}

/// A text as the one child of an element.
fn only_child(text: &Text) -> Result<List<Node>, AllocError>
    ensures { IfOk result (λ children. children ≡ Chars text.now ∷ []) }
{
    let mut children = List::new(text.alloc());
    children.push(Node::Chars(text.clone()?))?;
    Ok(children)
}

/// The place of the first element of a name.
fn first_place(name: &str, nodes: &[Node]) -> Option<usize>
    ensures { result ≡ position (λ node. is_some (named name.now node)) nodes.now }
{
    nodes.iter().position(|node| named(name, node).is_some())
}
