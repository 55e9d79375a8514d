//! Reading a document: piece by piece, until the text ends or no piece is good.

ghost use Rattle.std.specs.List.{list_any, prefix_len};
ghost use Rattle.std.specs.Prelude.{◌≡◌, ◌==◌, ◌≢◌, ◌≤◌, false, length, IfOk, OnOk};
ghost use Rattle.std.specs.declared.result.Result.TheVariants.{Ok};
ghost use Rattle.wef_tree_reading.specs.Building.{taken};
ghost use Rattle.wef_tree_reading.specs.Documents.{GivesTree, tree_of};
ghost use Rattle.wef_tree_reading.specs.Known.{KnowsBuilder};
ghost use Rattle.wef_tree_reading.specs.Reads.{Takes};
ghost use Rattle.wef_tree_reading.specs.Runs.{Walks, is_letter};
ghost use Rattle.wef_tree_reading.specs.Spelling.{ReadsText, ReadsTree, Steps, fault_at, is_tag, kind_by};
ghost use Rattle.wef_xml.specs.Decoding.{decoded, line_ends};
ghost use Rattle.wef_xml.specs.Good.{IsGoodTree};

use crate::building::{Builder, GREATEST_DEPTH};
use crate::faults::{FaultKind, Stop};
use crate::known::Known;
use std::alloc::Global;
use wef_base::names::trim_start;
use wef_base::{Charset, Element, is_xml_char};
use wef_tree_pieces::{Halt, Names, Piece, piece_at};
use wef_xml::decoding::decode;
use wef_xml::fronts::strip;
use wef_xml::line_ends::join_line_ends;
use wef_xml::places::place;
use wef_xml::{ToldTree, TreeFault};

/// Reads a document (XML 1.0 with Namespaces in XML 1.0), without document types and processing
/// instructions. It takes time and memory in proportion to the bytes, but for a logarithm, whatever
/// they are.
pub fn read_tree(alloc: Global, bytes: &[u8], charset: Charset) -> Result<Element, TreeFault>
    ensures read { ReadsTree charset bytes.now result }
    ensures good { IfOk result (λ root. IsGoodTree root) }
    ensures tree { GivesTree result (tree_of charset bytes.now) }
{
    match read_told_tree(alloc, bytes, charset) {
        Ok(tree) => Ok(tree.into_root()),
        Err(fault) => Err(fault),
    }
}

/// Reads a document as `read_tree` does. The tree is written in a shorter time where long namespaces
/// stand in it.
pub fn read_told_tree(alloc: Global, bytes: &[u8], charset: Charset) -> Result<ToldTree, TreeFault>
    ensures read { ReadsTree charset bytes.now result }
    ensures good { IfOk result (λ root. IsGoodTree root) }
    ensures tree { GivesTree result (tree_of charset bytes.now) }
{
    read_document(alloc, bytes, charset)
}

#[tactic(auto, using(crate::proofs::LineEnds::as_they_stand))]
fn read_document(alloc: Global, bytes: &[u8], charset: Charset) -> Result<ToldTree, TreeFault>
    ensures { ReadsTree charset bytes.now result }
{
    let decoded = decode(alloc, charset, bytes)?;
    let characters = decoded.as_slice();
    if !has_return(characters) {
        return read_characters(alloc, charset, bytes, characters, characters);
    }
    let joined = join_line_ends(alloc, characters)?;
    read_characters(alloc, charset, bytes, characters, joined.as_slice())
}

/// Whether a carriage return is among characters. Without one their line ends are one as they stand.
fn has_return(characters: &[char]) -> bool
    ensures { result ≡ list_any (λ c. c == 13) characters.now }
{
    characters.contains(&'\r')
}

/// Reads the text of a document; `characters`: those that its bytes are.
fn read_characters(
    alloc: Global,
    charset: Charset,
    bytes: &[u8],
    characters: &[char],
    text: &[char],
) -> Result<ToldTree, TreeFault>
    requires decoded { decoded charset bytes.now ≡ Ok characters.now }
    requires joined { text.now ≡ line_ends false characters.now }
    ensures { ReadsTree charset bytes.now result }
{
    match read_text(alloc, text) {
        Ok(tree) => Ok(tree),
        Err(Stop::NoMemory) => Err(TreeFault::NoMemory),
        Err(Stop::Fault { kind, left }) => {
            let at = place(charset, bytes, characters, text.len() - left);
            Err(fault_at(kind, at))
        }
    }
}

fn fault_at(kind: FaultKind, at: usize) -> TreeFault
    ensures { result ≡ fault_at kind at }
{
    match kind {
        FaultKind::Xml => TreeFault::BadXml { at },
        FaultKind::Deep => TreeFault::TooDeep { at },
        FaultKind::Refused => TreeFault::Refused { at },
    }
}

/// Reads a text whose line ends are one.
fn read_text(alloc: Global, text: &[char]) -> Result<ToldTree, Stop>
    ensures { ReadsText text.now result }
{
    let Ok(mut builder) = Builder::new(alloc) else {
        return Err(Stop::NoMemory);
    };
    let Ok(mut names) = Names::new(alloc) else {
        return Err(Stop::NoMemory);
    };
    let mut known = Known::new(alloc);
    let mut rest = text;
    while !rest.is_empty() {
        rest = walk(alloc, &mut builder, &mut known, &mut names, rest)?;
    }
    let Builder { root, .. } = builder;
    match root {
        Some(root) => Ok(ToldTree::new(root, known.told)),
        None => Err(Stop::Fault {
            kind: FaultKind::Xml,
            left: 0,
        }),
    }
}

/// Takes the first piece of a text, or all letters or spaces that it begins with, and gives what is
/// behind. It looks at no character of these twice, wherever they stand.
fn walk<'a>(
    alloc: Global,
    builder: &mut Builder,
    known: &mut Known,
    names: &mut Names,
    text: &'a [char],
) -> Result<&'a [char], Stop>
    requires { KnowsBuilder known.old builder.old }
    ensures walks { Walks builder.old builder.new text.now result }
    ensures knows { OnOk result (KnowsBuilder known.new builder.new) }
{
    if builder.depth() == 0 {
        return walk_outside(alloc, builder, known, names, text);
    }
    walk_inside(alloc, builder, known, names, text)
}

/// Walks where an element is open: letters are text of it.
#[tactic(auto, using(crate::proofs::Walks::one_step))]
fn walk_inside<'a>(
    alloc: Global,
    builder: &mut Builder,
    known: &mut Known,
    names: &mut Names,
    text: &'a [char],
) -> Result<&'a [char], Stop>
    requires inside { length builder.old.around ≢ 0 }
    requires known { KnowsBuilder known.old builder.old }
    ensures walks { Walks builder.old builder.new text.now result }
    ensures knows { OnOk result (KnowsBuilder known.new builder.new) }
{
    let length = letters_length(text);
    if length == 0 {
        return step(alloc, builder, known, names, text);
    }
    let (letters, behind) = text.split_at(length);
    match builder.take_letters(letters) {
        Ok(()) => Ok(behind),
        Err(_) => Err(Stop::NoMemory),
    }
}

/// Walks where no element is open: of the letters only spaces may stand there.
#[tactic(auto, using(crate::proofs::Walks::one_step))]
fn walk_outside<'a>(
    alloc: Global,
    builder: &mut Builder,
    known: &mut Known,
    names: &mut Names,
    text: &'a [char],
) -> Result<&'a [char], Stop>
    requires outside { length builder.old.around ≡ 0 }
    requires known { KnowsBuilder known.old builder.old }
    ensures walks { Walks builder.old builder.new text.now result }
    ensures knows { OnOk result (KnowsBuilder known.new builder.new) }
{
    let behind = trim_start(text);
    if behind.len() == text.len() {
        return step(alloc, builder, known, names, text);
    }
    builder.begun = true;
    Ok(behind)
}

/// How many characters a text begins with that are pieces by themselves, whatever follows.
fn letters_length(text: &[char]) -> usize
    ensures value { result ≡ prefix_len is_letter text.now }
    ensures within { result ≤ length text.now }
{
    let mut rest = text;
    while let [character, more @ ..] = rest {
        if !is_letter(*character) {
            return text.len() - rest.len();
        }
        rest = more;
    }
    text.len()
}

fn is_letter(character: char) -> bool
    ensures { result ≡ is_letter character }
{
    !matches!(character, '<' | '&' | ']') && is_xml_char(character)
}

/// Takes the first piece of a text, and gives what is behind it.
fn step<'a>(
    alloc: Global,
    builder: &mut Builder,
    known: &mut Known,
    names: &mut Names,
    text: &'a [char],
) -> Result<&'a [char], Stop>
    requires { KnowsBuilder known.old builder.old }
    ensures steps { Steps builder.old builder.new text.now result }
    ensures knows { OnOk result (KnowsBuilder known.new builder.new) }
{
    let depth = builder.depth();
    let (piece, behind) = match piece_at(alloc, names, text) {
        Ok(read) => read,
        Err(Halt::NoMemory) => return Err(Stop::NoMemory),
        Err(Halt::Bad) => return Err(stop_at(text, false, depth)),
    };
    let is_tag = is_tag(&piece);
    match take(alloc, builder, known, piece) {
        Ok(()) => Ok(behind),
        Err(Halt::NoMemory) => Err(Stop::NoMemory),
        Err(Halt::Bad) => Err(stop_at(text, is_tag, depth)),
    }
}

/// Takes a piece, and lets what it declares be known.
fn take(
    alloc: Global,
    builder: &mut Builder,
    known: &mut Known,
    piece: Piece<'_>,
) -> Result<(), Halt>
    requires { KnowsBuilder known.old builder.old }
    ensures takes { Takes result (taken builder.old piece.entry) builder.new }
    ensures knows { OnOk result (KnowsBuilder known.new builder.new) }
{
    known.add_piece(&piece)?;
    builder.take_piece(alloc, piece)
}

fn is_tag(piece: &Piece<'_>) -> bool
    ensures { result ≡ is_tag piece.now }
{
    matches!(piece, Piece::Start(_) | Piece::Empty(_))
}

/// The fault of a text whose first piece isn't good; `is_tag`: a whole tag stands there.
fn stop_at(text: &[char], is_tag: bool, depth: usize) -> Stop
    ensures { result ≡ Stop.Fault (kind_by text.now is_tag depth) (length text.now) }
{
    Stop::Fault {
        kind: kind_of(text, is_tag, depth),
        left: text.len(),
    }
}

fn kind_of(text: &[char], is_tag: bool, depth: usize) -> FaultKind
    ensures { result ≡ kind_by text.now is_tag depth }
{
    if strip(b"<!DOCTYPE", text).is_some() || strip(b"<?", text).is_some() {
        return FaultKind::Refused;
    }
    if is_tag && depth >= GREATEST_DEPTH {
        return FaultKind::Deep;
    }
    FaultKind::Xml
}
