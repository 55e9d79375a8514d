//! Faults: reading them, and writing those of the table.

ghost use Rattle.std.specs.Prelude.{◌≡◌, ◌++◌, ◌∷◌, [], true, codes, unwrap_or, option_copied, IfOk, OnOk};
ghost use Rattle.wef_elements.specs.Children.{first_called};
ghost use Rattle.wef_envelope.specs.Faults.{ReadsFault, action_by, action_of, behind_last, code_in, code_of, code_text, fault_in, fault_in_code, fault_of, fault_said, fault_tree, is_known, language, local_of, name_in, prefix_by, prefixed, reason_text, row_of, standard_of, subcode_in, subcode_of, value, value_in};
ghost use Rattle.wef_envelope.specs.Spaces.{soap};
ghost use Rattle.wef_envelope.specs.Written.{part};

use crate::actions::{ADDRESSING_FAULT, ENUMERATION_FAULT, EVENTING_FAULT, MANAGEMENT_FAULT};
use crate::envelopes::EnvelopeFault;
use crate::reading::is_part;
use crate::writing::{part, space};
use std::alloc::{AllocError, Global};
use wef_base::{Attribute, Element, List, Text};
use wef_elements::{first_called, said_in, with_text};
use wef_ids::FaultName;
use wef_xml::messages::SOAP;
use wef_xml::spaces::xml_space;

/// Who is at fault.
#[derive(Clone, Copy, Debug, PartialEq, Eq)]
pub enum FaultCode {
    Sender,
    Receiver,
    /// A header that isn't known had to be understood.
    MustUnderstand,
}

/// A fault that an end answers with, or that it was answered.
#[derive(Debug)]
pub struct Fault {
    pub code: FaultCode,
    pub name: FaultName,
}

/// One call for whoever lets a fault go, whatever it holds.
impl Drop for Fault {
    fn drop(self) {
        let Fault { code: _, name: _ } = self;
    }
}

impl Fault {
    /// The fault of a name, as it is written. Another name than those of the table counts as the
    /// receiver's.
    pub fn of(name: FaultName) -> Fault
        ensures { result ≡ fault_of name }
    {
        Fault {
            code: code_of(&name),
            name,
        }
    }

    /// The action of a message that has the fault.
    pub fn action(&self) -> &'static str
        ensures { result.now ≡ action_of self.now.name }
    {
        action_by(standard_of(&self.name))
    }
}

/// A standard that has names of faults.
#[derive(Clone, Copy, Debug)]
pub enum Standard {
    Soap,
    Addressing,
    Eventing,
    Management,
    Enumeration,
}

/// Who is at fault, and the standard that has the name.
fn row_of(name: &FaultName) -> (FaultCode, Option<Standard>)
    ensures { result ≡ row_of name.now }
{
    match name {
        FaultName::DeliveryModeRequestedUnavailable
        | FaultName::FilteringRequestedUnavailable
        | FaultName::InvalidExpirationTime
        | FaultName::InvalidMessage => (FaultCode::Sender, Some(Standard::Eventing)),
        FaultName::UnableToRenew => (FaultCode::Receiver, Some(Standard::Eventing)),
        FaultName::ActionNotSupported
        | FaultName::DestinationUnreachable
        | FaultName::MessageInformationHeaderRequired => {
            (FaultCode::Sender, Some(Standard::Addressing))
        }
        FaultName::InvalidBookmark | FaultName::EncodingLimit => {
            (FaultCode::Sender, Some(Standard::Management))
        }
        FaultName::InternalError => (FaultCode::Receiver, Some(Standard::Management)),
        FaultName::InvalidEnumerationContext => (FaultCode::Receiver, Some(Standard::Enumeration)),
        FaultName::MustUnderstand => (FaultCode::MustUnderstand, Some(Standard::Soap)),
        FaultName::Other(_) => (FaultCode::Receiver, None),
    }
}

fn code_of(name: &FaultName) -> FaultCode
    ensures { result ≡ code_of name.now }
{
    row_of(name).0
}

fn standard_of(name: &FaultName) -> Option<Standard>
    ensures { result ≡ standard_of name.now }
{
    row_of(name).1
}

/// The prefix of a standard's names.
#[tactic(auto, unfolding(crate::specs::Faults::prefix_by))]
fn prefix_by(standard: Option<Standard>) -> &'static str
    ensures { result.now ≡ prefix_by standard }
{
    match standard {
        Some(Standard::Soap) => "s",
        Some(Standard::Addressing) => "a",
        Some(Standard::Eventing) => "e",
        Some(Standard::Management) => "w",
        Some(Standard::Enumeration) => "n",
        None => "",
    }
}

/// The action of a message that has a fault, by the standard of the fault's name.
fn action_by(standard: Option<Standard>) -> &'static str
    ensures { result.now ≡ action_by standard }
{
    match standard {
        Some(Standard::Soap | Standard::Addressing) => ADDRESSING_FAULT,
        Some(Standard::Eventing) => EVENTING_FAULT,
        Some(Standard::Management) | None => MANAGEMENT_FAULT,
        Some(Standard::Enumeration) => ENUMERATION_FAULT,
    }
}

/// Reads a fault. Its code and its name are read by what stands behind their last colons; the name
/// stands in the Subcode, or is that of the code where there is none. `NotSoap` where the element is
/// no Fault with a Code that has a Value.
pub fn read_fault(node: &Element) -> Result<Fault, EnvelopeFault>
    ensures { ReadsFault result (fault_in node.now) }
{
    if !is_part("Fault", node) {
        return Err(EnvelopeFault::NotSoap);
    }
    let Some(code) = child("Code", node) else {
        return Err(EnvelopeFault::NotSoap);
    };
    match fault_in_code(code)? {
        Some(fault) => Ok(fault),
        None => Err(EnvelopeFault::NotSoap),
    }
}

/// The first child in the namespace of SOAP.
#[tactic(auto, unfolding(crate::specs::Spaces::soap))]
fn child<'a>(name: &str, node: &'a Element) -> Option<&'a Element>
    ensures { option_copied result ≡ first_called soap name.now node.now.children }
{
    first_called(SOAP, name, node.children.as_slice())
}

fn fault_in_code(code: &Element) -> Result<Option<Fault>, AllocError>
    ensures { IfOk result (λ fault. fault ≡ fault_in_code code.now) }
{
    let Some(value) = value_in(code)? else {
        return Ok(None);
    };
    let below = subcode_in(code)?;
    Ok(Some(fault_said(below, value)?))
}

/// What the child Value of an element says.
fn value_in(element: &Element) -> Result<Option<Text>, AllocError>
    ensures { IfOk result (λ text. text ≡ value_in element.now) }
{
    match child("Value", element) {
        Some(value) => Ok(Some(said_in(value)?)),
        None => Ok(None),
    }
}

fn subcode_in(code: &Element) -> Result<Option<Text>, AllocError>
    ensures { IfOk result (λ text. text ≡ subcode_in code.now) }
{
    match child("Subcode", code) {
        Some(subcode) => value_in(subcode),
        None => Ok(None),
    }
}

fn fault_said(below: Option<Text>, value: Text) -> Result<Fault, AllocError>
    ensures { IfOk result (λ fault. fault ≡ fault_said below value) }
{
    let code = code_in(local_of(&value)?.as_str());
    let name = name_in(local_of(&unwrap(below, value))?);
    Ok(Fault { code, name })
}

fn unwrap(below: Option<Text>, value: Text) -> Text
    ensures { result ≡ unwrap_or below value }
{
    match below {
        Some(text) => text,
        None => value,
    }
}

/// A name without its prefix.
fn local_of(text: &Text) -> Result<Text, AllocError>
    ensures { IfOk result (λ local. local ≡ local_of text.now) }
{
    let characters = text.characters()?;
    let mut local = Text::new(text.alloc());
    for &character in behind_last(characters.as_slice()) {
        local.push(character)?;
    }
    Ok(local)
}

/// The characters behind the last colon; all of them where there is none.
fn behind_last(characters: &[char]) -> &[char]
    ensures { result.now ≡ behind_last characters.now }
{
    let mut found = characters;
    let mut rest = characters;
    while let Some((&character, more)) = rest.split_first() {
        rest = more;
        if character == ':' {
            found = more;
        }
    }
    found
}

/// The code of a local name. One that isn't known counts as the receiver's.
#[tactic(auto, unfolding(crate::specs::Faults::code_in))]
fn code_in(local: &str) -> FaultCode
    ensures { result ≡ code_in local.now }
{
    if local == "Sender" {
        return FaultCode::Sender;
    }
    if local == "MustUnderstand" {
        return FaultCode::MustUnderstand;
    }
    FaultCode::Receiver
}

/// The name that is spelt so.
#[tactic(auto, unfolding(crate::specs::Faults::name_in))]
fn name_in(local: Text) -> FaultName
    ensures { result ≡ name_in local }
{
    if local.as_str() == "DeliveryModeRequestedUnavailable" {
        return FaultName::DeliveryModeRequestedUnavailable;
    }
    if local.as_str() == "FilteringRequestedUnavailable" {
        return FaultName::FilteringRequestedUnavailable;
    }
    if local.as_str() == "InvalidExpirationTime" {
        return FaultName::InvalidExpirationTime;
    }
    if local.as_str() == "InvalidMessage" {
        return FaultName::InvalidMessage;
    }
    if local.as_str() == "UnableToRenew" {
        return FaultName::UnableToRenew;
    }
    if local.as_str() == "ActionNotSupported" {
        return FaultName::ActionNotSupported;
    }
    if local.as_str() == "DestinationUnreachable" {
        return FaultName::DestinationUnreachable;
    }
    if local.as_str() == "MessageInformationHeaderRequired" {
        return FaultName::MessageInformationHeaderRequired;
    }
    if local.as_str() == "InvalidBookmark" {
        return FaultName::InvalidBookmark;
    }
    if local.as_str() == "EncodingLimit" {
        return FaultName::EncodingLimit;
    }
    if local.as_str() == "InternalError" {
        return FaultName::InternalError;
    }
    if local.as_str() == "InvalidEnumerationContext" {
        return FaultName::InvalidEnumerationContext;
    }
    if local.as_str() == "MustUnderstand" {
        return FaultName::MustUnderstand;
    }
    FaultName::Other(local)
}

/// The element of a fault that the table has.
#[tactic(auto, unfolding(crate::specs::Faults::fault_tree))]
pub fn fault_node(alloc: Global, fault: &Fault) -> Result<Element, AllocError>
    requires known { is_known fault.now.name ≡ true }
    requires tabled { fault.now.code ≡ code_of fault.now.name }
    ensures value { IfOk result (λ node. node ≡ fault_tree fault.now) }
{
    let mut parts = List::new(alloc);
    parts.push(code_node(alloc, fault)?)?;
    parts.push(reason_node(alloc, &fault.name)?)?;
    part(alloc, "Fault", parts)
}

fn code_node(alloc: Global, fault: &Fault) -> Result<Element, AllocError>
    ensures { IfOk result (λ node. node ≡ part (codes "Code") (value (code_text fault.now.code) ∷ subcode_of fault.now.name)) }
{
    let mut parts = List::new(alloc);
    let code = Text::from_str(alloc, code_text(fault.code))?;
    parts.push(value(alloc, code)?)?;
    push_subcode(alloc, &mut parts, &fault.name)?;
    part(alloc, "Code", parts)
}

#[tactic(auto, unfolding(crate::specs::Faults::code_text))]
fn code_text(code: FaultCode) -> &'static str
    ensures { result.now ≡ code_text code }
{
    match code {
        FaultCode::Sender => "s:Sender",
        FaultCode::Receiver => "s:Receiver",
        FaultCode::MustUnderstand => "s:MustUnderstand",
    }
}

#[tactic(auto, unfolding(crate::specs::Spaces::soap))]
fn value(alloc: Global, text: Text) -> Result<Element, AllocError>
    ensures { IfOk result (λ node. node ≡ value text) }
{
    with_text(space(alloc, SOAP)?, "Value", text)
}

/// Appends the Subcode of a name, but for MustUnderstand, whose code is its name.
fn push_subcode(
    alloc: Global,
    parts: &mut List<Element>,
    name: &FaultName,
) -> Result<(), AllocError>
    ensures { OnOk result (parts.new ≡ parts.old ++ subcode_of name.now) }
{
    if let FaultName::MustUnderstand = name {
        return Ok(());
    }
    let mut values = List::new(alloc);
    values.push(value(alloc, prefixed(alloc, name)?)?)?;
    parts.push(part(alloc, "Subcode", values)?)
}

/// The name with its prefix.
fn prefixed(alloc: Global, name: &FaultName) -> Result<Text, AllocError>
    ensures { IfOk result (λ text. text ≡ prefixed name.now) }
{
    let mut text = Text::from_str(alloc, prefix_by(standard_of(name)))?;
    text.push_str(":")?;
    text.push_str(name.as_str())?;
    Ok(text)
}

fn reason_node(alloc: Global, name: &FaultName) -> Result<Element, AllocError>
    ensures { IfOk result (λ node. node ≡ part (codes "Reason") (reason_text name.now ∷ [])) }
{
    let mut parts = List::new(alloc);
    parts.push(reason_text(alloc, name)?)?;
    part(alloc, "Reason", parts)
}

#[tactic(auto, unfolding(crate::specs::Spaces::soap))]
fn reason_text(alloc: Global, name: &FaultName) -> Result<Element, AllocError>
    ensures { IfOk result (λ node. node ≡ reason_text name.now) }
{
    let text = Text::from_str(alloc, name.as_str())?;
    let mut element = with_text(space(alloc, SOAP)?, "Text", text)?;
    element.attributes.push(language(alloc)?)?;
    Ok(element)
}

#[tactic(auto, unfolding(crate::specs::Faults::language))]
fn language(alloc: Global) -> Result<Attribute, AllocError>
    ensures { IfOk result (λ attribute. attribute ≡ language) }
{
    Ok(Attribute {
        space: xml_space(alloc)?,
        name: Text::from_str(alloc, "lang")?,
        value: Text::from_str(alloc, "en-US")?,
    })
}
