//! Reading events.

ghost use Rattle.std.specs.Prelude.{◌≡◌, true, false, ◌&&◌, ◌==◌, is_some, Some, IfErr, IfOk, IfSome};
ghost use Rattle.wef_base.specs.Names.{channel_name, same};
ghost use Rattle.wef_base.specs.declared.tree.Charset.TheVariants.{Utf8};
ghost use Rattle.wef_event.specs.Events as events;
ghost use Rattle.wef_event.specs.Events.{Finds, Gives, HasTree, IsEventOf, is_event_root, number_or, text_of_tree};
ghost use Rattle.wef_event.specs.Reading.{AsksForNoNumber, ReadsEvent, short_text};
ghost use Rattle.wef_event.specs.Recognising.{IsLabel};
ghost use Rattle.wef_tree_reading.specs.Documents.{tree_of};
ghost use Rattle.wef_xml.specs.Good.{IsGoodTree};
ghost use Rattle.wef_xml.specs.Told.{IsTold};

use crate::loose::canonical_of;
use crate::paths::{channel_in, number_in};
use crate::plain::EVENT_LIMIT;
use crate::recognising::{Label, recognised};
use crate::records::{Event, EventFault};
use std::alloc::AllocError;
use wef_base::{ChannelName, Charset, Element, Text};
use wef_tree::{ToldTree, TreeFault, read_told_tree, write_element_within};

/// Reads an event from its text, which is a document (XML 1.0) whose root is called Event. Its
/// channel and its number stand in the fields Channel and EventRecordID of its System, whatever the
/// namespaces. The text that is kept is the one text of the tree.
pub fn read_event(text: &Text) -> Result<Event, EventFault>
    ensures read { ReadsEvent true text.now result }
    ensures found { Finds result (events.event_in text.now) }
{
    read(true, text)
}

/// Reads an event as `read_event` does. It needs no number, and has 0 where it has none.
pub fn read_new_event(text: &Text) -> Result<Event, EventFault>
    ensures read { ReadsEvent false text.now result }
    ensures number { IfErr result AsksForNoNumber }
{
    read(false, text)
}

/// The event of a root, as `read_event` has it of a text; `told`: the namespaces in it are told apart by
/// their digests, so that its text is written in a shorter time.
pub fn event_of_node(told: bool, node: &Element) -> Result<Event, EventFault>
    requires good { IsGoodTree node.now }
    requires told { IsTold told node.now }
    ensures { Gives result (events.event_of true node.now) }
{
    event_from(true, told, node)
}

impl Event {
    /// The tree of the event. Each call reads it from the text.
    pub fn tree(&self) -> Result<Element, AllocError>
        ensures event { IfOk result (λ node. IsEventOf self.now node) }
        ensures text { IfOk result (λ node. tree_of Utf8 self.now.text ≡ Some node) }
    {
        Ok(self.told_tree()?.into_root())
    }

    /// The same, as it was read.
    pub(crate) fn told_tree(&self) -> Result<ToldTree, AllocError>
        ensures event { IfOk result (λ node. IsEventOf self.now node) }
        ensures text { IfOk result (λ node. tree_of Utf8 self.now.text ≡ Some node) }
    {
        match read_told_tree(
            self.text.alloc(),
            self.text.as_str().as_bytes(),
            Charset::Utf8,
        ) {
            Ok(tree) => Ok(tree),
            Err(fault) => match fault {
                TreeFault::NoMemory => Err(AllocError),
                _ => unreachable!(),
            },
        }
    }

    /// The text says a tree, which the type promises. It does nothing.
    pub fn has_tree(&self)
        ensures { is_some (tree_of Utf8 self.now.text) ≡ true }
    {
        let _kept = &self.text;
    }

    /// The event of this channel and this number whose text this is. None where the text isn't the
    /// one text of a tree that says them.
    pub fn of_text(
        channel: &ChannelName,
        number: u64,
        text: &Text,
    ) -> Result<Option<Event>, AllocError>
        ensures some { IfOk result (λ found. is_some found ≡ events.is_event (record { channel = channel.now; number = number; text = text.now })) }
        ensures value { IfOk result (λ found. IfSome found (λ event. event ≡ record { channel = channel.now; number = number; text = text.now })) }
    {
        if is_seen(channel, number, text) {
            return Ok(Some(Event {
                channel: channel.clone()?,
                number,
                text: text.clone()?,
            }));
        }
        match read_tree_event(true, text) {
            Ok(event) if event.is(channel, number, text) => Ok(Some(event)),
            Ok(_) => Ok(None),
            Err(fault) => match fault {
                EventFault::NoMemory => Err(AllocError),
                _ => Ok(None),
            },
        }
    }

    /// Whether the event has this channel, this number and this text.
    fn is(&self, channel: &ChannelName, number: u64, text: &Text) -> bool
        ensures { result ≡ (same channel.now self.now.channel && number == self.now.number && same text.now self.now.text) }
    {
        *channel == self.channel && number == self.number && *text == self.text
    }
}

/// Whether this event is seen to be that of its text, in one pass. It takes no memory.
fn is_seen(channel: &ChannelName, number: u64, text: &Text) -> bool
    ensures tree { result ≡ true → HasTree (record { channel = channel.now; number = number; text = text.now }) }
    ensures event { result ≡ true → events.is_event (record { channel = channel.now; number = number; text = text.now }) ≡ true }
{
    match recognised(text.as_str()) {
        Some(label) => number == label.number && gives_name(label.channel, channel),
        None => false,
    }
}

/// Whether a word of ASCII gives this name, without spaces at its ends.
fn gives_name(word: &str, channel: &ChannelName) -> bool
    ensures { result ≡ true → channel_name word.now ≡ Some channel.now }
{
    let name = channel.as_text().as_str();
    if !word.is_ascii() {
        return false;
    }
    if !name.is_ascii() {
        return false;
    }
    word.eq_ignore_ascii_case(name)
}

/// Reads an event; `needed`: it needs a number.
fn read(needed: bool, text: &Text) -> Result<Event, EventFault>
    ensures { ReadsEvent needed text.now result }
{
    match recognised(text.as_str()) {
        Some(label) => read_seen(needed, &label, text),
        None => read_unseen(needed, text),
    }
}

/// Reads an event whose text isn't seen to be the one text of its tree, but may be a loose one.
fn read_unseen(needed: bool, text: &Text) -> Result<Event, EventFault>
    ensures { ReadsEvent needed text.now result }
{
    if !text.as_str().contains("/>") {
        return read_tree_event(needed, text);
    }
    match canonical_of(text) {
        Some(whole) => read_canonical(needed, &whole),
        None => read_tree_event(needed, text),
    }
}

/// Reads an event from the one text of its tree.
fn read_canonical(needed: bool, text: &Text) -> Result<Event, EventFault>
    ensures { ReadsEvent needed text.now result }
{
    match recognised(text.as_str()) {
        Some(label) => read_seen(needed, &label, text),
        None => read_tree_event(needed, text),
    }
}

/// Reads an event of whose text this was seen.
fn read_seen(needed: bool, label: &Label<'_>, text: &Text) -> Result<Event, EventFault>
    requires { IsLabel text.now label.now.channel.now label.now.number }
    ensures { ReadsEvent needed text.now result }
{
    let word = Text::from_str(text.alloc(), label.channel)?;
    match ChannelName::named(&word)? {
        Some(channel) => Ok(Event {
            channel,
            number: label.number,
            text: text.clone()?,
        }),
        None => read_tree_event(needed, text),
    }
}

/// Reads an event by its tree.
fn read_tree_event(needed: bool, text: &Text) -> Result<Event, EventFault>
    ensures { ReadsEvent needed text.now result }
{
    match read_told_tree(text.alloc(), text.as_str().as_bytes(), Charset::Utf8) {
        Ok(tree) => event_from(needed, tree.is_told(), tree.root()),
        Err(TreeFault::NoMemory) => Err(EventFault::NoMemory),
        Err(TreeFault::BadCharset { at }) => Err(EventFault::BadEvent { at }),
        Err(TreeFault::BadXml { at }) => Err(EventFault::BadEvent { at }),
        Err(TreeFault::TooDeep { at }) => Err(EventFault::BadEvent { at }),
        Err(TreeFault::Refused { at }) => Err(EventFault::BadEvent { at }),
    }
}

/// The event of a root; `needed`: it needs a number; `told`: the namespaces in it are told apart by their
/// digests.
pub(crate) fn event_from(needed: bool, told: bool, node: &Element) -> Result<Event, EventFault>
    requires good { IsGoodTree node.now }
    requires told { IsTold told node.now }
    ensures { Gives result (events.event_of needed node.now) }
{
    if !is_event_root(node) {
        return Err(EventFault::BadEvent { at: 0 });
    }
    let Some(channel) = channel_in(node)? else {
        return Err(EventFault::NoChannel);
    };
    let Ok(number) = number_or(needed, number_in(node)?) else {
        return Err(EventFault::NoRecordId);
    };
    let Some(text) = text_of(told, node)? else {
        return Err(EventFault::TooLong);
    };
    Ok(Event {
        channel,
        number,
        text,
    })
}

fn is_event_root(root: &Element) -> bool
    ensures { result ≡ is_event_root root.now }
{
    root.name.as_str() == "Event"
}

/// The number that was found; where none was, it is needed, or 0 stands for none.
fn number_or(needed: bool, found: Option<u64>) -> Result<u64, EventFault>
    ensures { result ≡ number_or needed found }
{
    match found {
        Some(number) => Ok(number),
        None if needed => Err(EventFault::NoRecordId),
        None => Ok(0),
    }
}

/// The one text of a tree. None where it has more than `EVENT_LIMIT` bytes.
fn text_of(told: bool, node: &Element) -> Result<Option<Text>, AllocError>
    requires good { IsGoodTree node.now }
    requires told { IsTold told node.now }
    ensures { IfOk result (λ found. found ≡ short_text (text_of_tree node.now)) }
{
    let alloc = node.name.alloc();
    let Ok(found) = write_element_within(alloc, told, node, Charset::Utf8, EVENT_LIMIT) else {
        return Err(AllocError);
    };
    let Some(bytes) = found else {
        return Ok(None);
    };
    let Ok(text) = std::str::from_utf8(bytes.as_slice()) else {
        unreachable!()
    };
    Ok(Some(Text::from_str(alloc, text)?))
}
