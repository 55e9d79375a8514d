//! The headers that are known.

ghost use Rattle.std.specs.Prelude.{◌≡◌, option_copied};
ghost use Rattle.std.specs.List.{find};
ghost use Rattle.wef_elements.specs.Children.{elements_in};
ghost use Rattle.wef_envelope.specs.Headers.{first, header_of, is_header, is_of, is_private, name_of, number_of, space_of};

use wef_base::{Element, Node};
use wef_elements::{element_of, is_called};
use wef_xml::messages::{ADDRESSING, EVENTING, MACHINE, MANAGEMENT, WINDOWS};

/// A header that is known: first those that are kept, in the order in which they are written, then
/// those that aren't.
#[derive(Clone, Copy, Debug)]
pub enum Header {
    To,
    Resource,
    ReplyTo,
    Action,
    MessageId,
    Relates,
    Machine,
    MaxSize,
    Identifier,
    Bookmark,
    AckRequested,
    From,
    FaultTo,
    Locale,
    OperationTimeout,
    SelectorSet,
    OptionSet,
    /// Any header of the namespace of Windows.
    Private,
}

/// The headers that have a name of their own.
pub const NAMED: &[Header] = &[
    Header::To,
    Header::Resource,
    Header::ReplyTo,
    Header::Action,
    Header::MessageId,
    Header::Relates,
    Header::Machine,
    Header::MaxSize,
    Header::Identifier,
    Header::Bookmark,
    Header::AckRequested,
    Header::From,
    Header::FaultTo,
    Header::Locale,
    Header::OperationTimeout,
    Header::SelectorSet,
    Header::OptionSet,
];

impl Header {
    /// The namespace.
    #[tactic(auto, unfolding(crate::specs::Headers::space_of, crate::specs::Spaces::addressing, crate::specs::Spaces::eventing, crate::specs::Spaces::machine, crate::specs::Spaces::management, crate::specs::Spaces::windows))]
    pub fn space(self) -> &'static str
        ensures { result.now ≡ space_of self }
    {
        match self {
            Header::To
            | Header::ReplyTo
            | Header::Action
            | Header::MessageId
            | Header::Relates
            | Header::From
            | Header::FaultTo => ADDRESSING,
            Header::Resource
            | Header::MaxSize
            | Header::Bookmark
            | Header::AckRequested
            | Header::Locale
            | Header::OperationTimeout
            | Header::SelectorSet
            | Header::OptionSet => MANAGEMENT,
            Header::Identifier => EVENTING,
            Header::Machine => MACHINE,
            Header::Private => WINDOWS,
        }
    }

    /// The local name. Private headers have none of their own.
    #[tactic(auto, unfolding(crate::specs::Headers::name_of))]
    pub fn name(self) -> &'static str
        ensures { result.now ≡ name_of self }
    {
        match self {
            Header::To => "To",
            Header::Resource => "ResourceURI",
            Header::ReplyTo => "ReplyTo",
            Header::Action => "Action",
            Header::MessageId => "MessageID",
            Header::Relates => "RelatesTo",
            Header::Machine => "MachineID",
            Header::MaxSize => "MaxEnvelopeSize",
            Header::Identifier => "Identifier",
            Header::Bookmark => "Bookmark",
            Header::AckRequested => "AckRequested",
            Header::From => "From",
            Header::FaultTo => "FaultTo",
            Header::Locale => "Locale",
            Header::OperationTimeout => "OperationTimeout",
            Header::SelectorSet => "SelectorSet",
            Header::OptionSet => "OptionSet",
            Header::Private => "",
        }
    }

    fn number(self) -> u8
        ensures { result ≡ number_of self }
    {
        match self {
            Header::To => 0,
            Header::Resource => 1,
            Header::ReplyTo => 2,
            Header::Action => 3,
            Header::MessageId => 4,
            Header::Relates => 5,
            Header::Machine => 6,
            Header::MaxSize => 7,
            Header::Identifier => 8,
            Header::Bookmark => 9,
            Header::AckRequested => 10,
            Header::From => 11,
            Header::FaultTo => 12,
            Header::Locale => 13,
            Header::OperationTimeout => 14,
            Header::SelectorSet => 15,
            Header::OptionSet => 16,
            Header::Private => 17,
        }
    }

    /// The header that an element is, by its namespace and local name.
    #[tactic(auto, unfolding(crate::specs::Headers::header_of))]
    pub fn of(element: &Element) -> Option<Header>
        ensures { result ≡ header_of element.now }
    {
        if is_private(element) {
            return Some(Header::Private);
        }
        find_header(NAMED, element)
    }
}

#[tactic(auto, unfolding(crate::specs::Spaces::windows))]
fn is_private(element: &Element) -> bool
    ensures { result ≡ is_private element.now }
{
    WINDOWS == element.space.as_text().as_str()
}

fn find_header(headers: &[Header], element: &Element) -> Option<Header>
    ensures { result ≡ find (is_of element.now) headers.now }
{
    for &header in headers {
        if is_called(header.space(), header.name(), element) {
            return Some(header);
        }
    }
    None
}

/// Whether an element is this header.
pub fn is_header(header: Header, found: Option<Header>) -> bool
    ensures { result ≡ is_header header found }
{
    match found {
        Some(other) => header.number() == other.number(),
        None => false,
    }
}

/// The first header of a kind among nodes.
pub fn first(header: Header, nodes: &[Node]) -> Option<&Element>
    ensures { option_copied result ≡ first header (elements_in nodes.now) }
{
    for node in nodes {
        if let Some(element) = element_of(node) {
            if is_header(header, Header::of(element)) {
                return Some(element);
            }
        }
    }
    None
}
