//! Requests to a collector.

use crate::deliveries::lost;
use std::alloc::{AllocError, Global};
use tests_collectors::requests::enumerate;
use tests_tasks::deliveries::edited;
use tests_tasks::escapes::unescaped;
use tests_tasks::utf16::{Order, in_utf16, units};
use wef_base::{Bytes, Charset, Text};
use wef_front::Target;

/// Where a request goes to.
#[derive(Clone, Copy)]
pub(crate) enum Place {
    /// Where the source `pc1` delivers for the subscription `base`.
    Base,
    /// Where it delivers for the subscription `none`.
    None,
    Manager,
    Root,
    /// Where the front of the line says, `SUBSCRIPTION; SOURCE; REQUEST`.
    Said,
}

/// What a request is made of.
#[derive(Clone, Copy)]
pub(crate) enum Kind {
    /// A document as it stands.
    Document,
    /// Edits of the delivery.
    Delivery,
    /// The same in UTF-16, spelt as the front of the line says, `SPELLING: EDITS`.
    Spelt,
    /// Edits of the Enumerate.
    Wish,
    /// The same in UTF-16.
    WideWish,
    /// Nothing: it delivers one lost record.
    Lost,
}

impl Kind {
    fn charset(self) -> Charset {
        match self {
            Kind::Spelt | Kind::WideWish => Charset::Utf16,
            _ => Charset::Utf8,
        }
    }
}

/// A request, as it comes.
#[derive(Drop)]
pub(crate) struct Request {
    pub target: Target,
    pub charset: Charset,
    pub body: Bytes,
}

/// The request of a line.
pub(crate) fn request_of(
    alloc: Global,
    place: Place,
    kind: Kind,
    line: &str,
) -> Result<Request, AllocError> {
    let target = target_of(alloc, place, line)?;
    let body = body_of(alloc, kind, said_in(place, line))?;
    Ok(Request {
        target,
        charset: kind.charset(),
        body,
    })
}

/// The request with these bytes.
pub(crate) fn request_with(
    alloc: Global,
    place: Place,
    bytes: &[u8],
) -> Result<Request, AllocError> {
    Ok(Request {
        target: target_of(alloc, place, "")?,
        charset: Charset::Utf8,
        body: Bytes::from_slice(alloc, bytes)?,
    })
}

/// What a line says behind the place that it may name.
fn said_in(place: Place, line: &str) -> &str {
    match place {
        Place::Said => parted(line).2,
        _ => line,
    }
}

/// A line as `SUBSCRIPTION; SOURCE; REQUEST`.
fn parted(line: &str) -> (&str, &str, &str) {
    let (sub, rest) = line.split_once("; ").unwrap_or((line, ""));
    let (source, said) = rest.split_once("; ").unwrap_or((rest, ""));
    (sub, source, said)
}

fn target_of(alloc: Global, place: Place, line: &str) -> Result<Target, AllocError> {
    match place {
        Place::Base => path_of(alloc, "base", "pc1"),
        Place::None => path_of(alloc, "none", "pc1"),
        Place::Manager => Ok(Target::Manager),
        Place::Root => Ok(Target::Root),
        Place::Said => {
            let (sub, source, _) = parted(line);
            path_of(alloc, sub, source)
        }
    }
}

/// Where a delivery of a source for a subscription goes to.
fn path_of(alloc: Global, sub: &str, source: &str) -> Result<Target, AllocError> {
    Ok(Target::Delivery {
        sub: segment(alloc, sub)?,
        source: segment(alloc, source)?,
    })
}

fn segment(alloc: Global, word: &str) -> Result<Text, AllocError> {
    let bytes = unescaped(alloc, word)?;
    let text = str::from_utf8(bytes.as_slice()).unwrap_or("no UTF-8");
    Text::from_str(alloc, text)
}

fn body_of(alloc: Global, kind: Kind, said: &str) -> Result<Bytes, AllocError> {
    match kind {
        Kind::Document => unescaped(alloc, said),
        Kind::Delivery => edited(alloc, said),
        Kind::Spelt => spelt(alloc, said),
        Kind::Wish => enumerate(alloc, said),
        Kind::WideWish => in_utf16(alloc, &enumerate(alloc, said)?),
        Kind::Lost => lost(alloc),
    }
}

/// The bytes of `SPELLING: EDITS`.
fn spelt(alloc: Global, line: &str) -> Result<Bytes, AllocError> {
    let (spelling, edits) = line.split_once(": ").unwrap_or((line, "as it is"));
    let document = edited(alloc, edits)?;
    let text = str::from_utf8(document.as_slice()).unwrap_or("no UTF-8");
    match spelling {
        "little" => units(alloc, Order::Little, "", text),
        "big" => units(alloc, Order::Big, "", text),
        "little with a mark" => units(alloc, Order::Little, "\u{FEFF}", text),
        "big with a mark" => units(alloc, Order::Big, "\u{FEFF}", text),
        "a byte more" => with_byte(units(alloc, Order::Little, "\u{FEFF}", text)?),
        _ => Ok(document),
    }
}

fn with_byte(bytes: Bytes) -> Result<Bytes, AllocError> {
    let mut bytes = bytes;
    bytes.push(0)?;
    Ok(bytes)
}
