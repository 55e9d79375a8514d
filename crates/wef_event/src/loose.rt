//! Writing the one text of an event's tree in one pass over a loose text of it, in which elements
//! without children may stand as one tag. Such texts as hold prefixes aren't written, among others.

ghost use Rattle.std.specs.Prelude.{◌≡◌, ℕ, List, ◌++◌, IfSome, OnOk, codes};
ghost use Rattle.wef_canonical.specs.Tags.{IsBareSpace};
ghost use Rattle.wef_event.specs.Loose.{IsLooseTextOf, WritesElement, WritesNodes};

use crate::recognising::GREATEST_DEPTH;
use std::alloc::AllocError;
use wef_base::Text;
use wef_canonical::characters::behind_text;
use wef_canonical::cuts::{before, strip};
use wef_canonical::tags::{Start, behind_end, tag_head_at};

/// The one text of the tree of which this is a loose text. None of other texts, of some of these,
/// and where memory is wanting.
pub(crate) fn canonical_of(text: &Text) -> Option<Text>
    ensures { IfSome result (λ whole. IsLooseTextOf text.now whole) }
{
    let mut whole = Text::new(text.alloc());
    let rest = push_element(&mut whole, "", text.as_str(), GREATEST_DEPTH)?;
    if rest.len() > 0 {
        return None;
    }
    Some(whole)
}

/// Appends the one text of the element that a text begins with, inside one of this namespace. What
/// is left behind the element. After none a part may stand there.
#[cycle(writing)]
fn push_element<'a>(
    whole: &mut Text,
    default: &'a str,
    text: &'a str,
    room: usize,
) -> Option<&'a str>
    requires { IsBareSpace default.now }
    ensures { IfSome result (λ rest. WritesElement default.now room text.now rest.now whole.old whole.new) }
{
    if room == 0 {
        return None;
    }
    let tag = tag_head_at(default, text)?;
    if let Some(rest) = strip(b"/>", tag.rest) {
        push_empty(whole, text, &tag)?;
        return Some(rest);
    }
    let inside = strip(b">", tag.rest)?;
    push_passed(whole, text, inside)?;
    let end = push_nodes(whole, tag.space, inside, room - 1)?;
    let rest = behind_end(tag.name, end)?;
    push_passed(whole, end, rest)?;
    Some(rest)
}

/// Appends the one text of the nodes that a text begins with, before an end tag.
#[cycle(writing)]
fn push_nodes<'a>(whole: &mut Text, space: &'a str, text: &'a str, room: usize) -> Option<&'a str>
    requires { IsBareSpace space.now }
    ensures { IfSome result (λ rest. WritesNodes space.now room text.now rest.now whole.old whole.new) }
{
    let mut rest = text;
    for _turn in 0..text.len() {
        let behind = behind_text(rest);
        push_passed(whole, rest, behind)?;
        if strip(b"</", behind).is_some() {
            return Some(behind);
        }
        rest = push_element(whole, space, behind, room)?;
    }
    None
}

/// Appends what stands in a text before the end of it that is left.
fn push_passed(whole: &mut Text, text: &str, rest: &str) -> Option<()>
    ensures { (passed : List ℕ) → text.now ≡ passed ++ rest.now → IfSome result (λ _. whole.new ≡ whole.old ++ passed) }
{
    let passed = before(text, rest)?;
    match whole.push_str(passed) {
        Ok(()) => Some(()),
        Err(_) => None,
    }
}

/// Appends the two tags that are meant by one, whose end is left of the text.
fn push_empty(whole: &mut Text, text: &str, tag: &Start<'_>) -> Option<()>
    ensures { (passed : List ℕ) → text.now ≡ passed ++ tag.now.rest.now → IfSome result (λ _. whole.new ≡ whole.old ++ passed ++ codes "></" ++ tag.now.name.now ++ codes ">") }
{
    push_passed(whole, text, tag.rest)?;
    match push_end(whole, tag.name) {
        Ok(()) => Some(()),
        Err(_) => None,
    }
}

/// Appends the end of a start tag, and the end tag.
fn push_end(whole: &mut Text, name: &str) -> Result<(), AllocError>
    ensures { OnOk result (whole.new ≡ whole.old ++ codes "></" ++ name.now ++ codes ">") }
{
    whole.push_str("></")?;
    whole.push_str(name)?;
    whole.push_str(">")
}
