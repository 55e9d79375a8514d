//! Putting pieces together.

ghost use Rattle.std.specs.Prelude.{◌≡◌, ◌++◌, length, true, encode_utf8, encode_utf8_all, IfOk, OnOk};
ghost use Rattle.wef_tree_reading.specs.Building.{element_of, flushed, has_room, nothing, opened, placed, taken, with_letter, with_more};
ghost use Rattle.wef_tree_reading.specs.Reads.{Gives, Takes};

use crate::attributes::attributes_by;
use crate::spaces::{declared_by, in_scope};
use crate::stack::{Open, Stack};
use std::alloc::{AllocError, Global};
use std::mem;
use wef_base::names::is_xml_space;
use wef_base::{Element, List, Node, Text};
use wef_tree_pieces::{Halt, Name, Piece, Spelling, Tag};

/// How many elements may be open at once.
pub(crate) const GREATEST_DEPTH: usize = 64;

/// What the pieces so far have put together.
#[derive(Drop)]
pub struct Builder {
    /// Whether a piece has come.
    pub begun: bool,
    pub around: Stack,
    /// Characters that will be text of the innermost element, once a tag comes.
    pub text: Text,
    pub root: Option<Element>,
}

impl Builder {
    /// Before the first piece.
    pub fn new(alloc: Global) -> Result<Builder, AllocError>
        ensures { IfOk result (λ builder. builder ≡ nothing) }
    {
        Ok(Builder {
            begun: false,
            around: Stack::new(alloc)?,
            text: Text::new(alloc),
            root: None,
        })
    }

    /// How many elements are open.
    pub fn depth(&self) -> usize
        ensures { result ≡ length self.now.around }
    {
        self.around.len()
    }

    /// Takes the next piece, where it is good in its place. What is there after an error may be
    /// anything.
    #[tactic(auto, unfolding(crate::specs::Building::taken))]
    pub fn take_piece(&mut self, alloc: Global, piece: Piece<'_>) -> Result<(), Halt>
        ensures { Takes result (taken self.old piece.entry) self.new }
    {
        match piece {
            Piece::Declaration => self.take_declaration(),
            Piece::Comment => {
                self.begun = true;
                Ok(())
            }
            Piece::Start(tag) => self.enter(alloc, tag),
            Piece::Empty(tag) => self.pass(alloc, tag),
            Piece::End(name) => self.end(alloc, &name),
            Piece::Section(text) => self.add_text(&text),
            Piece::Reference(character) => self.add_character(character),
            Piece::Letter(character) => self.add_letter(character),
        }
    }

    #[tactic(auto, unfolding(crate::specs::Building::taken))]
    fn take_declaration(&mut self) -> Result<(), Halt>
        ensures { Takes result (taken self.old Piece.Declaration) self.new }
    {
        if self.begun {
            return Err(Halt::Bad);
        }
        self.begun = true;
        Ok(())
    }

    #[tactic(auto, unfolding(crate::specs::Building::taken))]
    fn enter(&mut self, alloc: Global, tag: Tag) -> Result<(), Halt>
        ensures { Takes result (taken self.old (Piece.Start tag)) self.new }
    {
        let element = self.opened(alloc, tag)?;
        self.flush(alloc)?;
        Ok(self.around.push(element)?)
    }

    #[tactic(auto, unfolding(crate::specs::Building::taken))]
    fn pass(&mut self, alloc: Global, tag: Tag) -> Result<(), Halt>
        ensures { Takes result (taken self.old (Piece.Empty tag)) self.new }
    {
        let element = self.opened(alloc, tag)?;
        self.flush(alloc)?;
        Ok(self.place(element_of(element))?)
    }

    #[tactic(auto, unfolding(crate::specs::Building::taken))]
    fn end(&mut self, alloc: Global, name: &Spelling<'_>) -> Result<(), Halt>
        ensures { Takes result (taken self.old (Piece.End name.now)) self.new }
    {
        self.flush(alloc)?;
        let Some(element) = self.around.pop() else {
            return Err(Halt::Bad);
        };
        if !name.is_of(&element.name) {
            return Err(Halt::Bad);
        }
        self.place(element_of(element))?;
        Ok(())
    }

    fn add_letter(&mut self, character: char) -> Result<(), Halt>
        ensures { Takes result (with_letter self.old character) self.new }
    {
        if !self.around.is_empty() {
            return self.add_character(character);
        }
        if !is_xml_space(character) {
            return Err(Halt::Bad);
        }
        self.begun = true;
        Ok(())
    }

    fn add_character(&mut self, character: char) -> Result<(), Halt>
        ensures { Takes result (with_more self.old (encode_utf8 character)) self.new }
    {
        if self.around.is_empty() {
            return Err(Halt::Bad);
        }
        self.begun = true;
        self.text.push(character)?;
        Ok(())
    }

    /// Takes characters that stand for themselves inside an element.
    pub fn take_letters(&mut self, letters: &[char]) -> Result<(), AllocError>
        ensures { OnOk result (self.new ≡ record self.old { begun = true; text = self.old.text ++ encode_utf8_all letters.now }) }
    {
        self.begun = true;
        self.text.push_chars(letters)
    }

    fn add_text(&mut self, text: &Text) -> Result<(), Halt>
        ensures { Takes result (with_more self.old text.now) self.new }
    {
        if self.around.is_empty() {
            return Err(Halt::Bad);
        }
        self.begun = true;
        self.text.push_str(text.as_str())?;
        Ok(())
    }

    /// The element that a tag opens.
    fn opened(&self, alloc: Global, tag: Tag) -> Result<Open, Halt>
        ensures { Gives result (opened self.now tag) }
    {
        if !self.has_room() {
            return Err(Halt::Bad);
        }
        let declared = declared_by(alloc, tag.given.as_slice())?;
        let space = in_scope(&declared, &self.around, &tag.name.prefix)?.into_space();
        let attributes = attributes_by(alloc, &declared, &self.around, tag.given)?;
        Ok(Open {
            name: tag.name,
            space,
            attributes,
            declared,
            children: List::new(alloc),
        })
    }

    /// Whether one more element may begin.
    fn has_room(&self) -> bool
        ensures { result ≡ has_room self.now }
    {
        self.around.len() < GREATEST_DEPTH && self.root.is_none()
    }

    /// Gives the characters that waited to the innermost element, since a tag has come.
    fn flush(&mut self, alloc: Global) -> Result<(), AllocError>
        ensures { OnOk result (self.new ≡ flushed self.old) }
    {
        self.begun = true;
        let text = mem::replace(&mut self.text, Text::new(alloc));
        if text.is_empty() {
            return Ok(());
        }
        self.around.add_child(Node::Chars(text))
    }

    /// Puts an element that has ended where it belongs: in the innermost one, or as the root.
    fn place(&mut self, element: Element) -> Result<(), AllocError>
        ensures { OnOk result (self.new ≡ placed element self.old) }
    {
        if self.around.is_empty() {
            self.root = Some(element);
            return Ok(());
        }
        self.around.add_child(Node::Element(element))
    }
}

/// What an open element is once it ends.
fn element_of(element: Open) -> Element
    ensures { result ≡ element_of element }
{
    let Open {
        name,
        space,
        attributes,
        declared: _,
        children,
    } = element;
    let Name { prefix: _, local } = name;
    Element {
        space,
        name: local,
        attributes,
        children,
    }
}
