//! Names as they are spelt.

ghost use Rattle.std.specs.List.{prefix_len};
ghost use Rattle.std.specs.Option.{option_map};
ghost use Rattle.std.specs.Prelude.{◌≡◌, ◌≤◌, length, encode_utf8_all, IfOk};
ghost use Rattle.wef_base.specs.Names.{same};
ghost use Rattle.wef_tree_pieces.specs.Names.{name_after, name_at, plain_name_at, same_name};
ghost use Rattle.wef_tree_pieces.specs.Reads.{Reads};
ghost use Rattle.wef_tree_pieces.specs.Runs.{plain_name_length};
ghost use Rattle.wef_xml.specs.Letters.{is_name_char};

use crate::faults::Halt;
use crate::headings::behind_character;
use crate::sharing::Names;
use std::alloc::AllocError;
use std::marker::Model;
use wef_base::Text;
use wef_xml::letters::{is_name_char, is_name_start};

/// A name: a prefix, empty where there is none, and a local name.
#[derive(Drop)]
pub struct Name {
    pub prefix: Text,
    pub local: Text,
}

/// A name as it stands in a text, which contracts see as the name.
#[derive(Drop)]
pub struct Spelling<'a> {
    prefix: &'a [char],
    local: &'a [char],
}

impl<'a> Model for Spelling<'a> {
    ghost use Rattle.std.specs.Prelude.{encode_utf8_all};
    ghost use Rattle.wef_tree_pieces.specs.contracts.names.Name as name;
    ghost use Rattle.wef_tree_pieces.specs.declared.names.Name.{Name};

    ghost Value = { Name };

    ghost coded = { name.the_row.coded };

    ghost view = { λ s. record { prefix = encode_utf8_all s.prefix.now; local = encode_utf8_all s.local.now } };
}

impl<'a> Spelling<'a> {
    /// The name, in texts that it shares with the same name elsewhere.
    pub fn to_name(&self, names: &mut Names) -> Result<Name, AllocError>
        ensures { IfOk result (λ name. name ≡ self.now) }
    {
        Ok(Name {
            prefix: names.text(self.prefix)?,
            local: names.text(self.local)?,
        })
    }

    /// Whether a name is spelt so.
    pub fn is_of(&self, name: &Name) -> bool
        ensures { result ≡ same_name self.now name.now }
    {
        spells(self.prefix, &name.prefix) && spells(self.local, &name.local)
    }
}

/// Whether characters are those of a text.
pub fn spells(characters: &[char], text: &Text) -> bool
    ensures { result ≡ same (encode_utf8_all characters.now) text.now }
{
    let mut rest = characters;
    for character in text.as_str().chars() {
        match behind_character(character, rest) {
            Some(more) => rest = more,
            None => return false,
        }
    }
    rest.is_empty()
}

/// The name that a text begins with, and what is left.
pub fn name_at<'a>(names: &mut Names, text: &'a [char]) -> Result<(Name, &'a [char]), Halt>
    ensures { Reads result (name_at text.now) }
{
    let (spelling, rest) = spelling_at(text).ok_or(Halt::Bad)?;
    Ok((spelling.to_name(names)?, rest))
}

/// The same, as it stands there.
#[tactic(auto, unfolding(crate::specs::Names::name_at))]
pub fn spelling_at(text: &[char]) -> Option<(Spelling<'_>, &[char])>
    ensures { option_map (λ read. (read.0, read.1.now)) result ≡ name_at text.now }
{
    let (first, rest) = plain_name_at(text)?;
    spelling_after(first, rest)
}

/// The name whose first part was read.
fn spelling_after<'a>(first: &'a [char], text: &'a [char]) -> Option<(Spelling<'a>, &'a [char])>
    ensures { option_map (λ read. (read.0, read.1.now)) result ≡ name_after (encode_utf8_all first.now) text.now }
{
    match text {
        [':', rest @ ..] => {
            let (second, rest) = plain_name_at(rest)?;
            let spelling = Spelling {
                prefix: first,
                local: second,
            };
            Some((spelling, rest))
        }
        _ => {
            let spelling = Spelling {
                prefix: &[],
                local: first,
            };
            Some((spelling, text))
        }
    }
}

/// The name without `:` that a text begins with, and what is left.
#[tactic(auto, using(crate::proofs::Runs::plain_is, crate::proofs::Runs::plain_none))]
fn plain_name_at(text: &[char]) -> Option<(&[char], &[char])>
    ensures { option_map (λ read. (encode_utf8_all read.0.now, read.1.now)) result ≡ plain_name_at text.now }
{
    let length = plain_name_length(text);
    if length == 0 {
        return None;
    }
    Some(text.split_at(length))
}

/// How many characters the name without `:` has that a text begins with: 0 where there is none.
fn plain_name_length(text: &[char]) -> usize
    ensures value { result ≡ plain_name_length text.now }
    ensures within { result ≤ length text.now }
{
    match text {
        [character, ..] if is_name_start(*character) => name_length(text),
        _ => 0,
    }
}

/// How many characters that may stand in a name a text begins with.
fn name_length(text: &[char]) -> usize
    ensures value { result ≡ prefix_len is_name_char text.now }
    ensures within { result ≤ length text.now }
{
    let mut length = 0;
    let mut rest = text;
    while let [character, more @ ..] = rest {
        if !is_name_char(*character) {
            return length;
        }
        length += 1;
        rest = more;
    }
    length
}
