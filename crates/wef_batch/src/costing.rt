//! What items cost.

ghost use Rattle.std.specs.Fmt.{decimal};
ghost use Rattle.std.specs.Prelude.{◌≡◌, ◌≤◌, min, length};
ghost use Rattle.wef_batch.specs.Cost as spec;
ghost use Rattle.wef_event.specs.Characters.{escape, escaped};

use crate::items::Item;
use wef_base::{ChannelName, Text};

/// How many bytes an item has as written in an envelope, in UTF-8, and `u64::MAX` where it has more.
/// It takes no memory.
#[tactic(auto, unfolding(crate::specs::Cost::cost, crate::specs::Cost::written))]
pub fn cost(item: &Item) -> u64
    ensures { result ≡ spec.cost item.now }
{
    match item {
        Item::Event(event) => event_cost(&event.text),
        Item::Dropped {
            channel,
            first,
            last,
        } => dropped_cost(channel, *first, *last),
        Item::Loose { count } => loose_cost(*count),
    }
}

fn event_cost(text: &Text) -> u64
    ensures { result ≡ min (length (spec.written_event text.now)) spec.most }
{
    event_tags_len().saturating_add(escaped_len(text.as_str()))
}

fn event_tags_len() -> u64
    ensures { result ≡ 77 }
{
    let open = "<w:Event Action=\"http://schemas.dmtf.org/wbem/wsman/1/wsman/Event\">";
    let close = "</w:Event>";
    (open.len() + close.len()) as u64
}

fn dropped_cost(channel: &ChannelName, first: u64, last: u64) -> u64
    ensures { result ≡ min (length (spec.written_dropped channel.now first last)) spec.most }
{
    let count = u128::from(last.saturating_sub(first)) + 1;
    let numbers = decimal_len(u128::from(first))
        + decimal_len(u128::from(last))
        + decimal_len(count);
    quoted_len(channel.as_text().as_str()).saturating_add(dropped_tags_len() + numbers)
}

fn dropped_tags_len() -> u64
    ensures { result ≡ 69 }
{
    let open = "<w:DroppedEvents u:Channel=\"";
    let first = "\" u:First=\"";
    let last = "\" u:Last=\"";
    let close = "\"></w:DroppedEvents>";
    (open.len() + first.len() + last.len() + close.len()) as u64
}

fn loose_cost(count: u64) -> u64
    ensures { result ≡ min (length (spec.written_loose count)) spec.most }
{
    loose_tags_len() + decimal_len(u128::from(count))
}

fn loose_tags_len() -> u64
    ensures { result ≡ 35 }
{
    let open = "<w:DroppedEvents>";
    let close = "</w:DroppedEvents>";
    (open.len() + close.len()) as u64
}

/// How many digits a number has.
fn decimal_len(number: u128) -> u64
    ensures value { result ≡ length (decimal number) }
    ensures small { result ≤ 39 }
{
    let mut len = 1;
    let mut rest = number;
    while rest >= 10 {
        rest /= 10;
        len += 1;
    }
    len
}

/// How many bytes a text has as it stands between two tags.
fn escaped_len(text: &str) -> u64
    ensures { result ≡ min (length (escaped text.now)) spec.most }
{
    let mut len = 0u64;
    for character in text.chars() {
        len = len.saturating_add(escape_len(character));
    }
    len
}

/// How many bytes a text has as it stands in an attribute.
fn quoted_len(text: &str) -> u64
    ensures { result ≡ min (length (spec.quoted text.now)) spec.most }
{
    let mut len = 0u64;
    for character in text.chars() {
        len = len.saturating_add(quoted_character_len(character));
    }
    len
}

fn quoted_character_len(character: char) -> u64
    ensures { result ≡ length (spec.quoted_character character) }
{
    match character {
        '"' => 6,
        _ => escape_len(character),
    }
}

fn escape_len(character: char) -> u64
    ensures { result ≡ length (escape character) }
{
    match character {
        '&' | '\t' | '\n' | '\r' => 5,
        '<' | '>' => 4,
        _ => character.len_utf8() as u64,
    }
}
