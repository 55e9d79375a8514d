//! How a run ends: its status, and the line that it writes to the stream of messages.

ghost use Rattle.std.specs.Fmt.{decimal};
ghost use Rattle.std.specs.Prelude.{◌≡◌, true, false, codes, IfOk};
ghost use Rattle.wef_commands.specs.Endings as spec;

use crate::streams::write_whole;
use std::alloc::{AllocError, Global};
use wef_base::{Sink, SubId, Text};
use wef_documents::Part;
use wef_lines::name_line;

/// How a run ends.
#[derive(Debug, Drop)]
pub enum Ending {
    /// The command is done, and the input that it has was read to its end.
    Done,
    /// The words are no command line.
    BadCommand,
    /// A line of the input isn't good: the first such line, counted from 1. Of a line of `write` that
    /// says an event, its text may be too long with the number that it gets.
    BadLine(u64),
    /// The schedule has more than 16 MiB.
    TooLong,
    /// The bytes are no document of XML, by what stands at this place, counted in bytes from the start
    /// of the input.
    BadPlace(usize),
    /// The document is none of a subscription: this element isn't there, or isn't good.
    BadElement(Part),
    InputFailed,
    OutputFailed,
    /// The front can't listen at the address, or can't take a connection.
    ListeningFailed,
    /// The link can't connect, read or write.
    LinkFailed,
    NoMemory,
    /// The store can't be opened, read or written, or holds rows that aren't of their form.
    StoreFailed,
    /// There is no subscription of this name.
    Unknown(SubId),
    /// The subscription of this name was ended before.
    Already(SubId),
    /// There is a subscription of this name, live or ended.
    Exists(SubId),
    /// There are as many subscriptions as may be, ended ones counted.
    TooMany,
    /// The boot number of an end is at its greatest, or the last number of a channel's log is.
    Full,
    /// The source has no more ids to send messages with.
    Spent,
}

impl From<AllocError> for Ending {
    ghost use Rattle.std.specs.Prelude.{◌≡◌};
    ghost use Rattle.wef_commands.specs.declared.ending.Ending.TheVariants.{NoMemory};

    ghost from_gives = { λ _ e. e ≡ NoMemory };

    fn from(_error: AllocError) -> Ending {
        Ending::NoMemory
    }
}

impl Ending {
    /// The exit status.
    pub fn status(&self) -> u8
        ensures { result ≡ spec.status_of self.now }
    {
        match self {
            Ending::Done => 0,
            Ending::BadCommand => 2,
            Ending::BadLine(_) => 3,
            Ending::TooLong => 3,
            Ending::BadPlace(_) => 3,
            Ending::BadElement(_) => 3,
            Ending::StoreFailed => 4,
            Ending::InputFailed => 5,
            Ending::OutputFailed => 5,
            Ending::ListeningFailed => 5,
            Ending::LinkFailed => 5,
            Ending::NoMemory => 6,
            Ending::Unknown(_) => 7,
            Ending::Already(_) => 7,
            Ending::Exists(_) => 8,
            Ending::TooMany => 8,
            Ending::Full => 8,
            Ending::Spent => 8,
        }
    }

    /// Writes the message, or as much of it as the stream takes, and answers the ending that is told.
    /// Some messages are made in memory: where that is wanting, this is told in their place.
    pub fn tell<E: Sink>(self, alloc: Global, err: &mut E) -> Ending
        ensures told { spec.IsToldAs self result }
        ensures message { spec.WroteMessage result
            (spec.told_of E.taken E.faults err.old err.new) }
    {
        if !self.is_made() {
            tell_text(self.fixed_message(), err);
            return self;
        }
        match self.made_message(alloc) {
            Ok(text) => {
                tell_text(text.as_str(), err);
                self
            }
            Err(_) => {
                tell_text(Ending::NoMemory.fixed_message(), err);
                Ending::NoMemory
            }
        }
    }

    /// Whether the message is made in memory.
    fn is_made(&self) -> bool
        ensures { result ≡ spec.is_made self.now }
    {
        match self {
            Ending::BadLine(_) => true,
            Ending::BadPlace(_) => true,
            Ending::BadElement(_) => true,
            Ending::Unknown(_) => true,
            Ending::Already(_) => true,
            Ending::Exists(_) => true,
            _ => false,
        }
    }

    /// The message of an ending whose message isn't made; else none.
    #[tactic(auto, unfolding(crate::specs::Endings::message_of))]
    fn fixed_message(&self) -> &'static str
        ensures { spec.is_made self.now ≡ false → result.now ≡ spec.message_of self.now }
    {
        match self {
            Ending::BadCommand => "usage: wef COMMAND\n",
            Ending::TooLong => "schedule too long\n",
            Ending::InputFailed => "input failed\n",
            Ending::OutputFailed => "output failed\n",
            Ending::ListeningFailed => "listening failed\n",
            Ending::LinkFailed => "link failed\n",
            Ending::NoMemory => "no memory\n",
            Ending::StoreFailed => "store failed\n",
            Ending::TooMany => "too many\n",
            Ending::Full => "full\n",
            Ending::Spent => "spent\n",
            _ => "",
        }
    }

    /// The message of an ending whose message is made; else none.
    #[tactic(auto, unfolding(crate::specs::Endings::message_of))]
    fn made_message(&self, alloc: Global) -> Result<Text, AllocError>
        ensures { IfOk result (λ text. spec.is_made self.now ≡ true → text ≡ spec.message_of self.now) }
    {
        match self {
            Ending::BadLine(line) => numbered_line(alloc, "line ", *line),
            Ending::BadPlace(at) => numbered_line(alloc, "place ", *at as u64),
            Ending::BadElement(part) => element_line(alloc, *part),
            Ending::Unknown(name) => name_line("unknown", name.as_text()),
            Ending::Already(name) => name_line("already", name.as_text()),
            Ending::Exists(name) => name_line("exists", name.as_text()),
            _ => Ok(Text::new(alloc)),
        }
    }
}

/// Writes a text, or as much of it as the stream takes.
fn tell_text<E: Sink>(text: &str, err: &mut E)
    ensures { spec.WroteText
        (spec.told_of E.taken E.faults err.old err.new)
        text.now }
{
    // Where the stream fails there is nowhere else to tell it, and the status stands.
    let _ = write_whole(err, text.as_bytes());
}

/// What isn't understood, by its number.
#[tactic(auto, unfolding(crate::specs::Endings::not_understood))]
fn numbered_line(alloc: Global, word: &str, number: u64) -> Result<Text, AllocError>
    ensures { IfOk result (λ text. text ≡ spec.not_understood word.now (decimal number)) }
{
    let mut text = Text::from_str(alloc, word)?;
    text.push_number(number)?;
    text.push_str(": not understood\n")?;
    Ok(text)
}

/// Which element isn't understood.
#[tactic(auto, unfolding(crate::specs::Endings::not_understood))]
fn element_line(alloc: Global, part: Part) -> Result<Text, AllocError>
    ensures { IfOk result (λ text. text ≡ spec.not_understood (codes "element ") (spec.part_name part)) }
{
    let mut text = Text::from_str(alloc, "element ")?;
    text.push_str(part_name(part))?;
    text.push_str(": not understood\n")?;
    Ok(text)
}

#[tactic(auto, unfolding(crate::specs::Endings::part_name))]
fn part_name(part: Part) -> &'static str
    ensures { result.now ≡ spec.part_name part }
{
    match part {
        Part::Subscription => "Subscription",
        Part::SubscriptionId => "SubscriptionId",
        Part::SubscriptionType => "SubscriptionType",
        Part::Enabled => "Enabled",
        Part::Delivery => "Delivery",
        Part::MaxItems => "MaxItems",
        Part::Heartbeat => "Heartbeat",
        Part::MaxEnvelopeSize => "MaxEnvelopeSize",
        Part::Expires => "Expires",
        Part::Query => "Query",
        Part::Address => "Address",
        Part::Version => "Version",
    }
}
