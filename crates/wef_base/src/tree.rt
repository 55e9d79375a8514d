//! Trees of XML: elements with their namespaces, attributes and children.

ghost use Rattle.std.specs.Prelude.{◌≡◌, IfOk};
ghost use Rattle.wef_base.specs.Digests.{digest_of, is_long};

use crate::list::List;
use crate::text::Text;
use sha2::{Digest, Sha256};
use std::alloc::{AllocError, Global};
use std::cmp::Ordering;
use std::marker::Model;
use std::rc::Rc;

/// How characters stand in bytes.
#[derive(Clone, Copy, Debug, PartialEq, Eq)]
pub enum Charset {
    /// UTF-8 (RFC 3629), with or without a byte order mark.
    Utf8,
    /// UTF-16 (RFC 2781), in the order that its byte order mark says, or little-endian.
    Utf16,
}

/// An element, or text between two tags.
#[cycle(tree)]
#[derive(Debug, Drop)]
pub enum Node {
    Element(Element),
    Chars(Text),
}

/// An element. Its prefix isn't kept: two elements are the same where their namespaces and local
/// names are (Namespaces in XML 1.0, 2.1).
#[cycle(tree)]
#[derive(Debug, Drop)]
pub struct Element {
    /// The namespace, empty for none.
    pub space: Namespace,
    /// The local name.
    pub name: Text,
    /// The attributes in the order of the document, declarations of namespaces aside.
    pub attributes: List<Attribute>,
    pub children: List<Node>,
}

/// An attribute of an element.
#[derive(Debug, Drop)]
pub struct Attribute {
    /// The namespace, empty for none.
    pub space: Namespace,
    /// The local name.
    pub name: Text,
    pub value: Text,
}

impl Node {
    /// A copy of the node with all inside it, which shares its texts. It goes as deep as the node does.
    #[cycle(copying)]
    pub fn clone(&self) -> Result<Node, AllocError>
        ensures { IfOk result (λ copy. copy ≡ self.now) }
    {
        match self {
            Node::Element(element) => Ok(Node::Element(element.clone()?)),
            Node::Chars(text) => Ok(Node::Chars(text.clone()?)),
        }
    }
}

impl Element {
    /// A copy of the element with all inside it, which shares its texts. It goes as deep as the element
    /// does.
    #[cycle(copying)]
    pub fn clone(&self) -> Result<Element, AllocError>
        ensures { IfOk result (λ copy. copy ≡ self.now) }
    {
        let mut children = List::new(self.name.alloc());
        for child in self.children.as_slice() {
            children.push(child.clone()?)?;
        }
        Ok(Element {
            space: self.space.clone()?,
            name: self.name.clone()?,
            attributes: clone_attributes(self.name.alloc(), self.attributes.as_slice())?,
            children,
        })
    }
}

fn clone_attributes(alloc: Global, attributes: &[Attribute]) -> Result<List<Attribute>, AllocError>
    ensures { IfOk result (λ copies. copies ≡ attributes.now) }
{
    let mut copies = List::new(alloc);
    for attribute in attributes {
        copies.push(attribute.clone()?)?;
    }
    Ok(copies)
}

impl Attribute {
    /// A copy of the attribute, which shares its texts.
    pub fn clone(&self) -> Result<Attribute, AllocError>
        ensures { IfOk result (λ copy. copy ≡ self.now) }
    {
        Ok(Attribute {
            space: self.space.clone()?,
            name: self.name.clone()?,
            value: self.value.clone()?,
        })
    }
}

/// A namespace of up to so many bytes is compared in full about as fast as two digests are.
const LONGEST_SHORT: usize = 256;

/// The name of a namespace with its digest, which contracts see as the name's bytes.
#[derive(Debug, Drop)]
struct Digested {
    name: Text,
    digest: [u8; 32],
}

impl Model for Digested {
    ghost use Rattle.std.specs.Prelude.{◌≡◌, ℕ, List};
    ghost use Rattle.wef_base.specs.Digests.{digest_of};

    ghost Value = { List ℕ };

    ghost view = { λ d. d.name };

    ghost invariant = { λ d. d.digest ≡ digest_of d.name };
}

impl Digested {
    fn new(name: Text) -> Digested
        ensures { result ≡ name }
    {
        let digest = digest_of(&name);
        Digested { name, digest }
    }

    fn name(&self) -> &Text
        ensures { result.now ≡ self.now }
    {
        &self.name
    }

    fn digest(&self) -> &[u8; 32]
        ensures { result.now ≡ digest_of self.now }
    {
        &self.digest
    }
}

#[tactic(auto, unfolding(crate::specs::Digests::digest_of))]
fn digest_of(name: &Text) -> [u8; 32]
    ensures { result ≡ digest_of name.now }
{
    if name.len() > LONGEST_SHORT {
        return Sha256::digest(name.as_str());
    }
    [0; 32]
}

/// The name of a namespace, which contracts see as its bytes; empty for none. All copies of one
/// share its text, so a tree is no larger than its document, however long a namespace is. They share
/// its digest too, by which two long ones are told apart in a fixed time, also where they differ at
/// their ends only. Short ones, which nearly all are, have zeros in place of a digest.
#[derive(Debug, Drop)]
pub struct Namespace {
    shared: Rc<Digested>,
}

impl Model for Namespace {
    ghost use Rattle.std.specs.Prelude.{ℕ, List};

    ghost Value = { List ℕ };

    ghost view = { λ n. n.shared.value };
}

impl Namespace {
    /// The namespace of this name, in time in proportion to the length of a long one.
    pub fn new(name: Text) -> Result<Namespace, AllocError>
        ensures { IfOk result (λ n. n ≡ name) }
    {
        let shared = Rc::new(name.alloc(), Digested::new(name))?;
        Ok(Namespace { shared })
    }

    /// The name. It takes no memory.
    pub fn as_text(&self) -> &Text
        ensures { result.now ≡ self.now }
    {
        self.shared.as_ref().name()
    }

    /// The digest of the name. It takes no memory.
    pub fn digest(&self) -> &[u8; 32]
        ensures { result.now ≡ digest_of self.now }
    {
        self.shared.as_ref().digest()
    }

    /// Whether the name is too long to be compared in full in place of its digest.
    pub fn is_long(&self) -> bool
        ensures { result ≡ is_long self.now }
    {
        self.as_text().len() > LONGEST_SHORT
    }

    /// The same namespace again, which shares the text.
    pub fn clone(&self) -> Result<Namespace, AllocError>
        ensures { IfOk result (λ copy. copy ≡ self.now) }
    {
        Ok(Namespace {
            shared: self.shared.clone()?,
        })
    }
}

impl PartialEq for Namespace {
    ghost use Rattle.std.specs.Prelude.{nat_eq};
    ghost use Rattle.std.specs.Cmp.{partial_equiv_from_equiv};
    ghost use Rattle.std.specs.Cmp.Lexicographic.{pointwise, nat_list_eq_equiv};

    ghost eq = { pointwise nat_eq };

    ghost laws = { partial_equiv_from_equiv nat_list_eq_equiv };

    fn eq(&self, other: &Namespace) -> bool {
        self.digest() == other.digest() && self.as_text() == other.as_text()
    }
}

impl Eq for Namespace {
    ghost use Rattle.std.specs.Cmp.Lexicographic.{nat_list_eq_equiv};

    ghost laws = { nat_list_eq_equiv };
}

impl PartialOrd for Namespace {
    ghost use Rattle.std.specs.Ordering.{nat_cmp};
    ghost use Rattle.std.specs.Cmp.Lexicographic.{slice_cmp, texts_po};
    ghost use Rattle.std.specs.declared.option.Option.TheVariants.{Some};

    ghost partial_cmp = { λ x y. Some (slice_cmp nat_cmp x y) };

    ghost laws = { texts_po };

    fn partial_cmp(&self, other: &Namespace) -> Option<Ordering> {
        Some(self.cmp(other))
    }
}

impl Ord for Namespace {
    ghost use Rattle.std.specs.Prelude.{refl};
    ghost use Rattle.std.specs.Ordering.{nat_cmp};
    ghost use Rattle.std.specs.Cmp.Lexicographic.{slice_cmp, nat_list_cmp_total, texts_ties};

    ghost cmp = { slice_cmp nat_cmp };

    ghost total = { nat_list_cmp_total };

    ghost matches_partial_cmp = { λ x y. refl };

    ghost matches_eq = { texts_ties };

    fn cmp(&self, other: &Namespace) -> Ordering {
        self.as_text().cmp(other.as_text())
    }
}
