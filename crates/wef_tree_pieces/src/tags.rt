//! Tags, as they are spelt.

ghost use Rattle.std.specs.Option.{option_copied, option_map};
ghost use Rattle.std.specs.Prelude.{◌≡◌, length};
ghost use Rattle.wef_tree_pieces.specs.Reads.{Reads};
ghost use Rattle.wef_tree_pieces.specs.Tags.{behind_equals, end_tag_at, ends_tag, given_at, givens_in, spaced_turn, tag_at, tag_turn};

use crate::faults::Halt;
use crate::names::{Name, Spelling, name_at, spelling_at};
use crate::sharing::Names;
use crate::values::quoted_at;
use std::alloc::Global;
use wef_base::names::{is_xml_space, trim_start};
use wef_base::{List, Text};
use wef_xml::fronts::strip;

/// An attribute as it is spelt, its value read. It may be a declaration of a namespace.
#[derive(Drop)]
pub struct Given {
    pub name: Name,
    pub value: Text,
}

/// A start tag, or an empty tag.
#[derive(Drop)]
pub struct Tag {
    pub name: Name,
    pub given: List<Given>,
}

/// The name and the attributes of a tag, whose text begins behind `<`, and what is left from its
/// `>` or `/>` on.
pub fn tag_at<'a>(
    alloc: Global,
    names: &mut Names,
    text: &'a [char],
) -> Result<(Tag, &'a [char]), Halt>
    ensures { Reads result (tag_at text.now) }
{
    let (name, rest) = name_at(names, text)?;
    let (given, rest) = givens_in(alloc, names, rest)?;
    Ok((Tag { name, given }, rest))
}

/// The name of an end tag, whose text begins behind `</`, and what is left.
pub fn end_tag_at(text: &[char]) -> Option<(Spelling<'_>, &[char])>
    ensures { option_map (λ read. (read.0, read.1.now)) result ≡ end_tag_at text.now }
{
    let (name, rest) = spelling_at(text)?;
    let rest = strip(b">", trim_start(rest))?;
    Some((name, rest))
}

fn givens_in<'a>(
    alloc: Global,
    names: &mut Names,
    text: &'a [char],
) -> Result<(List<Given>, &'a [char]), Halt>
    ensures { Reads result (givens_in (length text.now) text.now) }
{
    let mut given = List::new(alloc);
    let mut rest = text;
    for _turn in 0..text.len() {
        let (next, behind) = tag_turn(alloc, names, rest)?;
        let Some(attribute) = next else {
            return Ok((given, behind));
        };
        given.push(attribute)?;
        rest = behind;
    }
    Err(Halt::Bad)
}

/// One step in a tag: its next attribute, which a space comes before, or none at the tag's end.
fn tag_turn<'a>(
    alloc: Global,
    names: &mut Names,
    text: &'a [char],
) -> Result<(Option<Given>, &'a [char]), Halt>
    ensures { Reads result (tag_turn text.now) }
{
    match text {
        [character, rest @ ..] if is_xml_space(*character) => {
            spaced_turn(alloc, names, trim_start(rest))
        }
        [character, ..] if ends_tag(*character) => Ok((None, text)),
        _ => Err(Halt::Bad),
    }
}

/// The same behind the spaces.
fn spaced_turn<'a>(
    alloc: Global,
    names: &mut Names,
    text: &'a [char],
) -> Result<(Option<Given>, &'a [char]), Halt>
    ensures { Reads result (spaced_turn text.now) }
{
    let [character, ..] = text else {
        return Err(Halt::Bad);
    };
    if ends_tag(*character) {
        return Ok((None, text));
    }
    let (given, rest) = given_at(alloc, names, text)?;
    Ok((Some(given), rest))
}

fn ends_tag(character: char) -> bool
    ensures { result ≡ ends_tag character }
{
    matches!(character, '>' | '/')
}

/// The attribute that a text begins with, and what is left.
fn given_at<'a>(
    alloc: Global,
    names: &mut Names,
    text: &'a [char],
) -> Result<(Given, &'a [char]), Halt>
    ensures { Reads result (given_at text.now) }
{
    let (name, rest) = name_at(names, text)?;
    let rest = behind_equals(rest).ok_or(Halt::Bad)?;
    let (value, rest) = quoted_at(alloc, rest)?;
    Ok((Given { name, value }, rest))
}

/// What is left behind `=`, with the spaces that may stand round it.
pub fn behind_equals(text: &[char]) -> Option<&[char]>
    ensures { option_copied result ≡ behind_equals text.now }
{
    Some(trim_start(strip(b"=", trim_start(text))?))
}
