//! Lists of queries as trees.

ghost use Rattle.std.specs.Prelude.{◌≡◌, ◌∷◌, [], IfOk};
ghost use Rattle.wef_query.specs.Laws.{WrittenIsGood, WrittenIsRead};
ghost use Rattle.wef_query.specs.Writing.{group_element, groups_from, groups_of, item_element, item_name, plain, query_element};

use crate::{QueryItem, QueryList};
use std::alloc::{AllocError, Global};
use std::mem;
use wef_base::{Attribute, Element, List, Text};
use wef_elements::{digits, with_attributes, with_elements, with_value};
use wef_xml::spaces::no_space;

/// The element QueryList that says a list of queries (Windows' query schema), in no namespace. Items
/// that stand together and are of one group are in one Query.
pub fn write_query(alloc: Global, list: &QueryList) -> Result<Element, AllocError>
    ensures { IfOk result (λ node. node ≡ query_element list.now.items) }
{
    let groups = groups_of(alloc, list.items.as_slice())?;
    with_elements(no_space(alloc)?, "QueryList", groups)
}

/// What is written for a list of queries is read as it, and is a good tree. To be read it must have an
/// item, its groups must count from 0, and each item's text must say its path.
pub fn written_is_read_again()
    ensures says { WrittenIsRead }
    ensures good { WrittenIsGood }
{}

/// The elements of the groups of items.
fn groups_of(alloc: Global, items: &[QueryItem]) -> Result<List<Element>, AllocError>
    ensures { IfOk result (λ elements. elements ≡ groups_of items.now) }
{
    match items.split_first() {
        Some((first, more)) => groups_from(alloc, first, more),
        None => Ok(List::new(alloc)),
    }
}

/// The elements of the groups of an item and those behind it.
fn groups_from(
    alloc: Global,
    first: &QueryItem,
    more: &[QueryItem],
) -> Result<List<Element>, AllocError>
    ensures { IfOk result (λ elements. elements ≡ groups_from first.now.group (item_element first.now ∷ []) more.now) }
{
    let mut groups = List::new(alloc);
    let mut group = first.group;
    let mut open = only_item(alloc, first)?;
    for item in more {
        if item.group == group {
            open.push(item_element(alloc, item)?)?;
            continue;
        }
        let full = mem::replace(&mut open, only_item(alloc, item)?);
        groups.push(group_element(alloc, group, full)?)?;
        group = item.group;
    }
    groups.push(group_element(alloc, group, open)?)?;
    Ok(groups)
}

/// The elements of a group, so far of one item.
fn only_item(alloc: Global, item: &QueryItem) -> Result<List<Element>, AllocError>
    ensures { IfOk result (λ elements. elements ≡ item_element item.now ∷ []) }
{
    let mut elements = List::new(alloc);
    elements.push(item_element(alloc, item)?)?;
    Ok(elements)
}

/// The element of a group, which holds those of its items.
fn group_element(alloc: Global, group: u64, items: List<Element>) -> Result<Element, AllocError>
    ensures { IfOk result (λ e. e ≡ group_element group items) }
{
    let mut element = with_elements(no_space(alloc)?, "Query", items)?;
    element
        .attributes
        .push(plain(alloc, "Id", digits(alloc, group)?)?)?;
    Ok(element)
}

fn item_element(alloc: Global, item: &QueryItem) -> Result<Element, AllocError>
    ensures { IfOk result (λ e. e ≡ item_element item.now) }
{
    let mut attributes = List::new(alloc);
    attributes.push(plain(alloc, "Path", item.channel.as_text().clone()?)?)?;
    let name = item_name(item.suppress);
    with_attributes(no_space(alloc)?, name, attributes, item.text.clone()?)
}

fn item_name(suppress: bool) -> &'static str
    ensures { result.now ≡ item_name suppress }
{
    if suppress { "Suppress" } else { "Select" }
}

/// An attribute without a namespace.
fn plain(alloc: Global, name: &str, value: Text) -> Result<Attribute, AllocError>
    ensures { IfOk result (λ a. a ≡ plain name.now value) }
{
    with_value(alloc, no_space(alloc)?, name, value)
}
