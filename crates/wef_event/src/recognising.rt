//! Seeing that a text is the one text of an event's tree, in one pass, without a tree and without
//! memory. Such texts as hold prefixes aren't looked into, among others.

ghost use Rattle.std.specs.Option.{option_copied, option_map, option_or};
ghost use Rattle.std.specs.Prelude.{◌≡◌, ℕ, ◌==◌, ◌&&◌, length, List, [], IfSome, codes};
ghost use Rattle.wef_base.specs.Names.{same};
ghost use Rattle.wef_base.specs.declared.tree.Element.{Element};
ghost use Rattle.wef_canonical.specs.Tags.{IsBareSpace};
ghost use Rattle.wef_elements.specs.Texts.{text_inside};
ghost use Rattle.wef_event.specs.Paths.{if_named};
ghost use Rattle.wef_event.specs.Recognising.{FindsMore, HasFields, IsFound, IsInside, IsLabel, IsOf, IsSeen, fields_of, fields_said};

use crate::plain::EVENT_LIMIT;
use wef_base::numbers::{MAX, read_plain_number};
use wef_canonical::characters::{behind_plain, behind_text};
use wef_canonical::cuts::{before, strip};
use wef_canonical::tags::{behind_end, start_at};

/// What the text of an event says: the text of its channel, and its number.
#[derive(Clone, Copy, Debug)]
pub struct Label<'a> {
    pub channel: &'a str,
    pub number: u64,
}

/// How many elements may be in one another.
pub(crate) const GREATEST_DEPTH: usize = 64;

/// What a text says that is seen to be the one text of an event's tree. None of other texts, and of
/// some of these.
pub fn recognised(text: &str) -> Option<Label<'_>>
    ensures { IfSome result (λ label. IsLabel text.now label.channel.now label.number) }
{
    if text.len() > EVENT_LIMIT {
        return None;
    }
    let root = element_at("", text, GREATEST_DEPTH)?;
    if !is_whole_event(&root) {
        return None;
    }
    let system = root.inside.system?;
    let number = read_plain_number(system.number.as_bytes(), MAX)?;
    if number == 0 {
        return None;
    }
    Some(Label {
        channel: system.channel,
        number,
    })
}

/// Whether an element is called Event, and nothing is left behind it.
fn is_whole_event(root: &Seen<'_>) -> bool
    ensures { result ≡ (length root.now.rest.now == 0 && same root.now.name.now (codes "Event")) }
{
    root.rest.len() == 0 && root.name == "Event"
}

/// The texts of the fields that say an event's channel and its number.
#[derive(Clone, Copy)]
struct System<'a> {
    channel: &'a str,
    number: &'a str,
}

/// What the first children of some names say.
#[derive(Clone, Copy)]
struct Found<'a> {
    channel: Option<&'a str>,
    number: Option<&'a str>,
    system: Option<System<'a>>,
}

/// The children of an element.
#[derive(Clone, Copy)]
struct Inside<'a> {
    /// The text that they are, where it is nothing else, and stands for itself.
    text: Option<&'a str>,
    found: Found<'a>,
    rest: &'a str,
}

/// An element.
#[derive(Clone, Copy)]
struct Seen<'a> {
    name: &'a str,
    text: Option<&'a str>,
    inside: Found<'a>,
    rest: &'a str,
}

/// The element that a text begins with, inside one of this namespace.
#[cycle(recognising)]
fn element_at<'a>(default: &'a str, text: &'a str, room: usize) -> Option<Seen<'a>>
    requires { IsBareSpace default.now }
    ensures { IfSome result (λ seen. IsSeen default.now room text.now seen) }
{
    if room == 0 {
        return None;
    }
    let start = start_at(default, text)?;
    let inside = inside_at(start.space, start.rest, room - 1)?;
    let rest = behind_end(start.name, inside.rest)?;
    Some(Seen {
        name: start.name,
        text: inside.text,
        inside: inside.found,
        rest,
    })
}

/// The children that a text begins with, before an end tag.
#[cycle(recognising)]
fn inside_at<'a>(space: &'a str, text: &'a str, room: usize) -> Option<Inside<'a>>
    requires { IsBareSpace space.now }
    ensures { IfSome result (λ inside. IsInside space.now room text.now inside) }
{
    match plain_inside(text) {
        Some(inside) => Some(inside),
        None => nodes_at(space, text, room),
    }
}

/// The plain text that a text begins with, before an end tag.
fn plain_inside(text: &str) -> Option<Inside<'_>>
    ensures { (space : List ℕ) (room : ℕ) → IfSome result (λ inside. IsInside space room text.now inside) }
{
    let rest = behind_plain(text);
    let _end = strip(b"</", rest)?;
    let plain = before(text, rest)?;
    Some(Inside {
        text: Some(plain),
        found: Found::new(),
        rest,
    })
}

/// The elements and texts that a text begins with, before an end tag.
#[cycle(recognising)]
fn nodes_at<'a>(space: &'a str, text: &'a str, room: usize) -> Option<Inside<'a>>
    requires { IsBareSpace space.now }
    ensures { IfSome result (λ inside. IsInside space.now room text.now inside) }
{
    let mut found = Found::new();
    let mut rest = text;
    for _turn in 0..text.len() {
        let behind = behind_text(rest);
        if strip(b"</", behind).is_some() {
            return Some(Inside {
                text: None,
                found,
                rest: behind,
            });
        }
        let child = element_at(space, behind, room)?;
        found = found.with(&child)?;
        rest = child.rest;
    }
    None
}

impl<'a> Found<'a> {
    fn new() -> Found<'a>
        ensures { IsFound result [] }
    {
        Found {
            channel: None,
            number: None,
            system: None,
        }
    }

    /// What is found with one more child. None where it can't be told.
    fn with(self, child: &Seen<'a>) -> Option<Found<'a>>
        ensures { (element : Element) → IsOf child.now element → IfSome result (λ more. FindsMore self.entry element more) }
    {
        let channel = first_text("Channel", self.channel, child)?;
        let number = first_text("EventRecordID", self.number, child)?;
        let system = first_system(self.system, child)?;
        Some(Found {
            channel,
            number,
            system,
        })
    }
}

/// The text of the first element of a name, which was found before or is this one.
fn first_text<'a>(name: &str, found: Option<&'a str>, child: &Seen<'a>) -> Option<Option<&'a str>>
    ensures { (element : Element) → IsOf child.now element → IfSome result (λ first. option_copied first ≡ option_or (option_copied found.entry) (option_map text_inside (if_named name.now element))) }
{
    if child.name != name {
        return Some(found);
    }
    let text = child.text?;
    Some(Some(found.unwrap_or(text)))
}

/// The first part System, which was found before or is this element.
fn first_system<'a>(found: Option<System<'a>>, child: &Seen<'a>) -> Option<Option<System<'a>>>
    ensures { (element : Element) → IsOf child.now element → IfSome result (λ first. option_map fields_said first ≡ option_or (option_map fields_said found.entry) (option_map fields_of (if_named (codes "System") element))) }
{
    if child.name != "System" {
        return Some(found);
    }
    let system = system_of(&child.inside)?;
    Some(Some(found.unwrap_or(system)))
}

/// The fields that are found in a part System. None where one isn't there.
fn system_of<'a>(found: &Found<'a>) -> Option<System<'a>>
    ensures { IfSome result (λ system. HasFields found.now system) }
{
    let channel = found.channel?;
    let number = found.number?;
    Some(System { channel, number })
}
