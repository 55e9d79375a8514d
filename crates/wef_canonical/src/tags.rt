//! Passing tags as they stand in the one text of a tree, with no prefixes.

ghost use Rattle.std.specs.Prelude.{◌≡◌, ◌||◌, ◌++◌, IfSome, codes};
ghost use Rattle.wef_canonical.specs.Passing.{IsAssigned, Passes};
ghost use Rattle.wef_canonical.specs.Tags.{HasAttributes, HasSpace, IsBareSpace, IsDeclared, IsOpen, IsStart, KeepsMore, is_kept};
ghost use Rattle.wef_xml.specs.Prefixes.{is_soap};
ghost use Rattle.wef_xml.specs.Spaces.{is_xml_space, is_xmlns};

use crate::characters::{behind_name, behind_plain, behind_value};
use crate::cuts::{before, strip};
use wef_xml::messages::SOAP;

/// The namespace of the prefix `xml`.
const XML_SPACE: &str = "http://www.w3.org/XML/1998/namespace";

/// A start tag.
#[derive(Clone, Copy)]
pub struct Start<'a> {
    pub name: &'a str,
    /// The namespace of the element.
    pub space: &'a str,
    /// What is left behind the tag.
    pub rest: &'a str,
}

/// The start tag that a text begins with, inside an element of this namespace.
pub fn start_at<'a>(default: &'a str, text: &'a str) -> Option<Start<'a>>
    requires { IsBareSpace default.now }
    ensures { IfSome result (λ start. IsStart default.now text.now start) }
{
    let tag = tag_head_at(default, text)?;
    let rest = strip(b">", tag.rest)?;
    Some(Start {
        name: tag.name,
        space: tag.space,
        rest,
    })
}

/// The tag that a text begins with, inside an element of this namespace, up to the `>` or `/>` that
/// ends it, which is left with what stands behind it.
pub fn tag_head_at<'a>(default: &'a str, text: &'a str) -> Option<Start<'a>>
    requires { IsBareSpace default.now }
    ensures { IfSome result (λ tag. IsOpen default.now text.now tag) }
{
    let named = strip(b"<", text)?;
    let behind_name = behind_name(named)?;
    let name = before(named, behind_name)?;
    let (space, given) = space_at(default, behind_name)?;
    let rest = behind_attributes(given)?;
    Some(Start { name, space, rest })
}

/// What is left behind the end tag of a name.
pub fn behind_end<'a>(name: &str, text: &'a str) -> Option<&'a str>
    ensures { IfSome result (λ rest. text.now ≡ codes "</" ++ name.now ++ codes ">" ++ rest.now) }
{
    let named = strip(b"</", text)?;
    let closed = strip(name.as_bytes(), named)?;
    strip(b">", closed)
}

/// The namespace of an element behind its name, where it is declared or the one that it stands in,
/// and what is left.
fn space_at<'a>(default: &'a str, text: &'a str) -> Option<(&'a str, &'a str)>
    requires { IsBareSpace default.now }
    ensures { IfSome result (λ read. HasSpace default.now text.now read.0.now read.1.now) }
{
    match strip(b" xmlns=\"", text) {
        Some(value) => declared_at(default, value),
        None => Some((default, text)),
    }
}

/// The namespace that is declared in a value, where another one is in force, and what is left.
fn declared_at<'a>(default: &str, value: &'a str) -> Option<(&'a str, &'a str)>
    ensures { IfSome result (λ read. IsDeclared default.now value.now read.0.now read.1.now) }
{
    let end = behind_plain(value);
    let space = before(value, end)?;
    if default == space || has_prefix(space) {
        return None;
    }
    let rest = strip(b"\"", end)?;
    Some((space, rest))
}

/// Whether elements of a namespace have prefixes, or roots of it declare some.
fn has_prefix(space: &str) -> bool
    ensures { result ≡ (is_xml_space space.now || is_soap space.now) }
{
    is_xml_space(space) || is_soap(space)
}

fn is_xml_space(space: &str) -> bool
    ensures { result ≡ is_xml_space space.now }
{
    space == XML_SPACE
}

fn is_soap(space: &str) -> bool
    ensures { result ≡ is_soap space.now }
{
    space == SOAP
}

/// What is left behind the attributes of a tag, which have no prefix.
fn behind_attributes(text: &str) -> Option<&str>
    ensures { IfSome result (λ rest. HasAttributes text.now rest.now) }
{
    let mut names = Names::new();
    let mut rest = text;
    for _turn in 0..text.len() {
        let Some(attribute) = strip(b" ", rest) else {
            return Some(rest);
        };
        let end = behind_name(attribute)?;
        let name = before(attribute, end)?;
        names = names.with(name)?;
        rest = behind_assigned(end)?;
    }
    None
}

/// What is left behind `="value"`.
fn behind_assigned(text: &str) -> Option<&str>
    ensures { IfSome result (λ rest. Passes IsAssigned text.now rest.now) }
{
    let value = strip(b"=\"", text)?;
    strip(b"\"", behind_value(value))
}

/// The names of a tag's attributes, at most four, of which the rest are empty.
#[derive(Clone, Copy)]
struct Names<'a> {
    first: &'a str,
    second: &'a str,
    third: &'a str,
    fourth: &'a str,
}

impl<'a> Names<'a> {
    fn new() -> Names<'a> {
        Names {
            first: "",
            second: "",
            third: "",
            fourth: "",
        }
    }

    /// The names with one more. None where it is among them, or is no attribute's, or there is no
    /// room for it.
    fn with(self, name: &'a str) -> Option<Names<'a>>
        ensures { IfSome result (λ more. KeepsMore self.entry name.now more) }
    {
        if is_xmlns(name) || self.has(name) || !self.fourth.is_empty() {
            return None;
        }
        Some(Names {
            first: name,
            second: self.first,
            third: self.second,
            fourth: self.third,
        })
    }

    fn has(&self, name: &str) -> bool
        ensures { result ≡ is_kept self.now name.now }
    {
        name == self.first || name == self.second || name == self.third || name == self.fourth
    }
}

fn is_xmlns(name: &str) -> bool
    ensures { result ≡ is_xmlns name.now }
{
    name == "xmlns"
}
