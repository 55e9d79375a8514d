//! The pieces that a document is a list of.

ghost use Rattle.wef_tree_pieces.specs.Pieces.{closed_tag, letter_at, markup_at, piece_at};
ghost use Rattle.wef_tree_pieces.specs.Reads.{Reads};

use crate::faults::Halt;
use crate::headings::declaration_tail;
use crate::names::Spelling;
use crate::references::reference_at;
use crate::sections::{comment_tail, section_tail};
use crate::sharing::Names;
use crate::tags::{Tag, end_tag_at, tag_at};
use std::alloc::Global;
use wef_base::{Text, is_xml_char};
use wef_xml::fronts::strip;

/// A piece of a document.
#[derive(Drop)]
pub enum Piece<'a> {
    /// `<?xml .. ?>`
    Declaration,
    Comment,
    Start(Tag),
    /// A tag that begins an element and ends it at once.
    Empty(Tag),
    End(Spelling<'a>),
    /// A CDATA section, by its text.
    Section(Text),
    /// A reference, by the character that it stands for.
    Reference(char),
    /// A character that stands for itself.
    Letter(char),
}

/// The piece that a text begins with, and what is left.
#[tactic(auto, unfolding(crate::specs::Pieces::piece_at))]
pub fn piece_at<'a>(
    alloc: Global,
    names: &mut Names,
    text: &'a [char],
) -> Result<(Piece<'a>, &'a [char]), Halt>
    ensures { Reads result (piece_at text.now) }
{
    match text {
        [] => Err(Halt::Bad),
        ['<', rest @ ..] => markup_at(alloc, names, rest),
        ['&', rest @ ..] => {
            let (character, rest) = reference_at(rest).ok_or(Halt::Bad)?;
            Ok((Piece::Reference(character), rest))
        }
        [character, rest @ ..] => letter_at(*character, rest),
    }
}

/// A piece whose text begins behind its `<`.
fn markup_at<'a>(
    alloc: Global,
    names: &mut Names,
    text: &'a [char],
) -> Result<(Piece<'a>, &'a [char]), Halt>
    ensures { Reads result (markup_at text.now) }
{
    if let Some(rest) = strip(b"!--", text) {
        let rest = comment_tail(rest).ok_or(Halt::Bad)?;
        return Ok((Piece::Comment, rest));
    }
    if let Some(rest) = strip(b"![CDATA[", text) {
        let (section, rest) = section_tail(alloc, rest)?;
        return Ok((Piece::Section(section), rest));
    }
    if let Some(rest) = strip(b"/", text) {
        let (name, rest) = end_tag_at(rest).ok_or(Halt::Bad)?;
        return Ok((Piece::End(name), rest));
    }
    if let Some(rest) = strip(b"?xml", text) {
        let rest = declaration_tail(rest).ok_or(Halt::Bad)?;
        return Ok((Piece::Declaration, rest));
    }
    let (tag, rest) = tag_at(alloc, names, text)?;
    closed_tag(tag, rest)
}

/// A tag with its end, `>` or `/>`.
fn closed_tag(tag: Tag, text: &[char]) -> Result<(Piece<'_>, &[char]), Halt>
    ensures { Reads result (closed_tag (tag, text.now)) }
{
    if let Some(rest) = strip(b">", text) {
        return Ok((Piece::Start(tag), rest));
    }
    match strip(b"/>", text) {
        Some(rest) => Ok((Piece::Empty(tag), rest)),
        None => Err(Halt::Bad),
    }
}

/// A character that stands for itself, which `]` doesn't where it begins `]]>`.
fn letter_at(character: char, rest: &[char]) -> Result<(Piece<'_>, &[char]), Halt>
    ensures { Reads result (letter_at character rest.now) }
{
    if !is_xml_char(character) || (character == ']' && strip(b"]>", rest).is_some()) {
        return Err(Halt::Bad);
    }
    Ok((Piece::Letter(character), rest))
}
