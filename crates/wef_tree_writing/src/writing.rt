//! Writing a tree as a document, in the one way in which it is written.

ghost use Rattle.std.specs.Prelude.{◌≡◌, ◌++◌, ◌≤◌, [], ◌∷◌, length, is_some, IfOk, IfErr, OnOk};
ghost use Rattle.wef_xml.specs.Canonical.{bytes_of, canonical, element_text, encoded, end_of, name_of, node_of, start_of, text_of, unless_longer, written_mark};
ghost use Rattle.wef_xml.specs.Good.{IsGoodTree};
ghost use Rattle.wef_xml.specs.Prefixes.{element_prefix, inside, new_bindings, outermost, root_bindings};
ghost use Rattle.wef_xml.specs.Told.{AreTold, IsTold};
ghost use Rattle.wef_xml.specs.declared.faults.TreeFault.TheVariants.{NoMemory};
ghost use Rattle.wef_tree_writing.specs.Apart.{IsElementTold, IsNodeTold};
ghost use Rattle.wef_tree_writing.specs.Levels.{all_of};
ghost use Rattle.wef_tree_writing.specs.Markup.{IsPast, IsTooLong, default_declaration, scope_of};

use crate::bindings::Bindings;
use crate::escaping::{push_ascii, push_text};
use crate::markup::{push_attributes, push_declarations, push_default, push_name};
use crate::pieces::{Piece, Spare};
use crate::prefixes::{element_prefix, new_bindings};
use crate::soap::{RootPrefixes, root_bindings};
use std::alloc::{AllocError, Global};
use wef_base::{Bytes, Charset, Element, List, Namespace, Node, Text};
use wef_xml::encoding::{self, push_mark};
use wef_xml::spaces::no_space;
use wef_xml::{Binding, ToldTree, TreeFault};

/// No memory holds more bytes than this.
const UNLIMITED: usize = usize::MAX;

/// Why a document isn't written to its end.
#[derive(Clone, Copy)]
pub enum Stop {
    NoMemory,
    /// It has more bytes than it may have.
    TooLong,
}

impl From<AllocError> for Stop {
    ghost use Rattle.std.specs.Prelude.{◌≡◌};
    ghost use Rattle.wef_tree_writing.specs.declared.writing.Stop.TheVariants.{NoMemory};

    ghost from_gives = { λ _ e. e ≡ NoMemory };

    fn from(_error: AllocError) -> Stop {
        Stop::NoMemory
    }
}

/// Writes a tree that documents say, in its one text: elements have a start tag and an end tag, and
/// nothing stands between them but their children. UTF-8 has no byte order mark, UTF-16 is
/// little-endian and has one. Only want of memory is refused. It takes time in proportion to the
/// text, but for a logarithm; and, for each element and attribute, to compare its namespace with those
/// in force.
pub fn write_tree(alloc: Global, root: &Element, charset: Charset) -> Result<Bytes, TreeFault>
    requires { IsGoodTree root.now }
    ensures value { IfOk result (λ bytes. bytes ≡ encoded charset (canonical root.now)) }
    ensures err { IfErr result (λ fault. fault ≡ NoMemory) }
{
    match write_document(alloc, root, false, charset, UNLIMITED) {
        Ok(bytes) => Ok(bytes),
        Err(_) => Err(TreeFault::NoMemory),
    }
}

/// Writes a tree that was read as `write_tree` does. Where its namespaces are told apart, many
/// elements and attributes in one long namespace take no more time than others.
pub fn write_told_tree(alloc: Global, tree: &ToldTree, charset: Charset) -> Result<Bytes, TreeFault>
    requires { IsGoodTree tree.now }
    ensures value { IfOk result (λ bytes. bytes ≡ encoded charset (canonical tree.now)) }
    ensures err { IfErr result (λ fault. fault ≡ NoMemory) }
{
    match write_document(alloc, tree.root(), tree.is_told(), charset, UNLIMITED) {
        Ok(bytes) => Ok(bytes),
        Err(_) => Err(TreeFault::NoMemory),
    }
}

/// Writes a tree as `write_tree` does, where its text has at most so many bytes; none where it has
/// more. It stops at the first tag or text that ends past the limit, so it takes the time of a text
/// of that length, and the memory of the limit and of one tag or text.
pub fn write_tree_within(
    alloc: Global,
    root: &Element,
    charset: Charset,
    limit: usize,
) -> Result<Option<Bytes>, TreeFault>
    requires { IsGoodTree root.now }
    ensures value { IfOk result (λ found. found ≡ unless_longer limit (encoded charset (canonical root.now))) }
    ensures err { IfErr result (λ fault. fault ≡ NoMemory) }
{
    write_element_within(alloc, false, root, charset, limit)
}

/// Writes a tree that was read as `write_tree_within` does, and as fast as `write_told_tree`.
pub fn write_told_tree_within(
    alloc: Global,
    tree: &ToldTree,
    charset: Charset,
    limit: usize,
) -> Result<Option<Bytes>, TreeFault>
    requires { IsGoodTree tree.now }
    ensures value { IfOk result (λ found. found ≡ unless_longer limit (encoded charset (canonical tree.now))) }
    ensures err { IfErr result (λ fault. fault ≡ NoMemory) }
{
    write_element_within(alloc, tree.is_told(), tree.root(), charset, limit)
}

/// Writes an element as a tree, as `write_tree_within` does; `told`: its namespaces are told apart by
/// their digests, as those of an element of a tree that is told. It is as fast as `write_told_tree`
/// then.
pub fn write_element_within(
    alloc: Global,
    told: bool,
    root: &Element,
    charset: Charset,
    limit: usize,
) -> Result<Option<Bytes>, TreeFault>
    requires good { IsGoodTree root.now }
    requires told { IsTold told root.now }
    ensures value { IfOk result (λ found. found ≡ unless_longer limit (encoded charset (canonical root.now))) }
    ensures err { IfErr result (λ fault. fault ≡ NoMemory) }
{
    match write_document(alloc, root, told, charset, limit) {
        Ok(bytes) => Ok(Some(bytes)),
        Err(Stop::TooLong) => Ok(None),
        Err(Stop::NoMemory) => Err(TreeFault::NoMemory),
    }
}

/// The bytes of a tree's document, where they are at most so many; `told`: its namespaces are told
/// apart by their digests.
fn write_document(
    alloc: Global,
    root: &Element,
    told: bool,
    charset: Charset,
    limit: usize,
) -> Result<Bytes, Stop>
    requires { IsTold told root.now }
    ensures bytes { IfOk result (λ bytes. bytes ≡ encoded charset (canonical root.now)) }
    ensures within { IfOk result (λ bytes. length bytes ≤ limit) }
    ensures past { IfErr result (λ stop. IsTooLong stop limit (encoded charset (canonical root.now))) }
{
    let mut writer = Writer::new(alloc, &root.space, told, charset, limit)?;
    writer.write_root(root)?;
    let Writer { bytes, .. } = writer;
    Ok(bytes)
}

/// A document that is being written, piece by piece.
#[derive(Drop)]
struct Writer {
    alloc: Global,
    /// Whether the namespaces of the tree are told apart by their digests.
    told: bool,
    charset: Charset,
    /// How many bytes the document may have.
    limit: usize,
    bytes: Bytes,
    root: RootPrefixes,
    bound: Bindings,
    spare: Spare,
}

impl Writer {
    /// Nothing, inside a root of this namespace.
    fn new(
        alloc: Global,
        space: &Namespace,
        told: bool,
        charset: Charset,
        limit: usize,
    ) -> Result<Writer, AllocError>
        ensures { IfOk result (λ w. (w.told ≡ told) × (w.bytes ≡ written_mark charset) × (w.charset ≡ charset) × (w.limit ≡ limit) × (scope_of w [] ≡ outermost space.now) × (w.bound ≡ root_bindings space.now ∷ [])) }
    {
        let mut bytes = Bytes::new(alloc);
        push_mark(&mut bytes, charset)?;
        let mut bound = Bindings::new(alloc);
        bound.enter(alloc, root_bindings(alloc, space)?)?;
        Ok(Writer {
            alloc,
            told,
            charset,
            limit,
            bytes,
            root: RootPrefixes::new(alloc, space)?,
            bound,
            spare: Spare::new(alloc),
        })
    }

    fn write_root(&mut self, root: &Element) -> Result<(), Stop>
        requires { IsElementTold self.old.told self.old.bound [] root.now }
        ensures written { OnOk result (self.new ≡ record self.old { bytes = self.old.bytes ++ bytes_of self.old.charset (element_text (root_bindings root.now.space) (scope_of self.old []) root.now) }) }
        ensures within { OnOk result (length self.new.bytes ≤ self.old.limit) }
        ensures past { IfErr result (λ stop. IsPast stop self.old (element_text (root_bindings root.now.space) (scope_of self.old []) root.now)) }
    {
        let first = root_bindings(self.alloc, &root.space)?;
        self.write_element(first.as_slice(), &no_space(self.alloc)?, root)
    }

    /// Writes a node inside this default namespace.
    #[cycle(writing)]
    fn write_node(&mut self, default: &Namespace, node: &Node) -> Result<(), Stop>
        requires { IsNodeTold self.old.told self.old.bound default.now node.now }
        ensures written { OnOk result (self.new ≡ record self.old { bytes = self.old.bytes ++ bytes_of self.old.charset (node_of node.now (scope_of self.old default.now)) }) }
        ensures within { OnOk result (length self.new.bytes ≤ self.old.limit) }
        ensures past { IfErr result (λ stop. IsPast stop self.old (node_of node.now (scope_of self.old default.now))) }
    {
        match node {
            Node::Chars(text) => self.write_text(text),
            Node::Element(element) => self.write_element(&[], default, element),
        }
    }

    /// Writes an element inside this default namespace. The root declares the first bindings besides
    /// its own needs.
    #[cycle(writing)]
    fn write_element(
        &mut self,
        first: &[Binding],
        default: &Namespace,
        element: &Element,
    ) -> Result<(), Stop>
        requires { IsElementTold self.old.told self.old.bound default.now element.now }
        ensures written { OnOk result (self.new ≡ record self.old { bytes = self.old.bytes ++ bytes_of self.old.charset (element_text first.now (scope_of self.old default.now) element.now) }) }
        ensures within { OnOk result (length self.new.bytes ≤ self.old.limit) }
        ensures past { IfErr result (λ stop. IsPast stop self.old (element_text first.now (scope_of self.old default.now) element.now)) }
    {
        self.write_start(first, default, element)?;
        let inner = self.inner_default(default, &element.space);
        for child in element.children.as_slice() {
            self.write_node(inner, child)?;
        }
        self.bound.leave();
        self.write_end(element)
    }

    /// Writes a text between two tags.
    fn write_text(&mut self, text: &Text) -> Result<(), Stop>
        ensures written { OnOk result (self.new ≡ record self.old { bytes = self.old.bytes ++ bytes_of self.old.charset (text_of text.now) }) }
        ensures within { OnOk result (length self.new.bytes ≤ self.old.limit) }
        ensures past { IfErr result (λ stop. IsPast stop self.old (text_of text.now)) }
    {
        let mut piece = self.spare.take(self.alloc);
        push_text(&mut piece, text.as_str())?;
        self.put(piece)
    }

    /// Writes a start tag, whose own bindings stay in force.
    fn write_start(
        &mut self,
        first: &[Binding],
        default: &Namespace,
        element: &Element,
    ) -> Result<(), Stop>
        requires { IsElementTold self.old.told self.old.bound default.now element.now }
        ensures written { let e = element.now in
            OnOk result (self.new ≡ record self.old { bytes = self.old.bytes ++ bytes_of self.old.charset (start_of first.now (scope_of self.old default.now) e.space e.name e.attributes); bound = new_bindings (all_of self.old.bound) e.attributes ∷ self.old.bound }) }
        ensures past { let e = element.now in IfErr result (λ stop. IsPast stop self.old (start_of first.now (scope_of self.old default.now) e.space e.name e.attributes)) }
    {
        let attributes = element.attributes.as_slice();
        let own = new_bindings(self.alloc, self.told, &self.bound, attributes)?;
        let tag = self.start_tag(first, default, element, own)?;
        self.put(tag)
    }

    /// The start tag of an element with these bindings of its own, which come into force.
    fn start_tag(
        &mut self,
        first: &[Binding],
        default: &Namespace,
        element: &Element,
        own: List<Binding>,
    ) -> Result<Piece, AllocError>
        requires told { IsElementTold self.old.told self.old.bound default.now element.now }
        requires own { own ≡ new_bindings (all_of self.old.bound) element.now.attributes }
        ensures tag { let e = element.now in IfOk result (λ tag. tag ≡ start_of first.now (scope_of self.old default.now) e.space e.name e.attributes) }
        ensures bound { let e = element.now in OnOk result (self.new ≡ record self.old { bound = own ∷ self.old.bound }) }
    {
        let mut start = self.spare.take(self.alloc);
        push_opening(&mut start, &self.root, self.told, default, element)?;
        push_declarations(&mut start, first)?;
        push_declarations(&mut start, own.as_slice())?;
        self.bound.enter(self.alloc, own)?;
        let attributes = element.attributes.as_slice();
        push_attributes(&mut start, self.told, &self.bound, attributes)?;
        start.push('>')?;
        Ok(start)
    }

    fn write_end(&mut self, element: &Element) -> Result<(), Stop>
        ensures written { OnOk result (self.new ≡ record self.old { bytes = self.old.bytes ++ bytes_of self.old.charset (end_of (scope_of self.old []) element.now.space element.now.name) }) }
        ensures within { OnOk result (length self.new.bytes ≤ self.old.limit) }
        ensures past { IfErr result (λ stop. IsPast stop self.old (end_of (scope_of self.old []) element.now.space element.now.name)) }
    {
        let tag = self.end_tag(element)?;
        self.put(tag)
    }

    fn end_tag(&mut self, element: &Element) -> Result<Piece, AllocError>
        ensures tag { IfOk result (λ tag. tag ≡ end_of (scope_of self.old []) element.now.space element.now.name) }
        ensures same { OnOk result (self.new ≡ self.old) }
    {
        let mut tag = self.spare.take(self.alloc);
        push_ascii(&mut tag, b"</")?;
        push_name(
            &mut tag,
            element_prefix(&self.root, &element.space),
            &element.name,
        )?;
        tag.push('>')?;
        Ok(tag)
    }

    /// Writes a piece, unless the document has too many bytes with it.
    fn put(&mut self, piece: Piece) -> Result<(), Stop>
        ensures written { OnOk result (self.new ≡ record self.old { bytes = self.old.bytes ++ bytes_of self.old.charset piece }) }
        ensures within { OnOk result (length self.new.bytes ≤ self.old.limit) }
        ensures past { IfErr result (λ stop. IsPast stop self.old piece) }
    {
        encoding::push_text(&mut self.bytes, self.charset, piece.as_str())?;
        self.spare.give(piece);
        if self.bytes.len() > self.limit {
            return Err(Stop::TooLong);
        }
        Ok(())
    }

    /// The default namespace inside an element of this namespace.
    fn inner_default<'a>(&self, default: &'a Namespace, space: &'a Namespace) -> &'a Namespace
        ensures { result.now ≡ (inside (scope_of self.now default.now) space.now []).default }
    {
        match element_prefix(&self.root, space) {
            Some(_) => default,
            None => space,
        }
    }
}

/// Appends the name of an element behind the bracket that opens its tag, and the declaration of its
/// default namespace.
fn push_opening(
    out: &mut Piece,
    root: &RootPrefixes,
    told: bool,
    default: &Namespace,
    element: &Element,
) -> Result<(), AllocError>
    requires { AreTold told default.now element.now.space }
    ensures { let prefix = element_prefix root.now element.now.space in
        OnOk result (out.new ≡ out.old ++ (60 ∷ name_of prefix element.now.name ++ default_declaration (is_some prefix) default.now element.now.space)) }
{
    let prefix = element_prefix(root, &element.space);
    out.push('<')?;
    push_name(out, prefix, &element.name)?;
    push_default(out, prefix.is_some(), told, default, &element.space)
}
