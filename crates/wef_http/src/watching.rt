//! Following bytes as they come, so that they are parsed only where that may lead to something.

use crate::trailers::{Place, Skipped, skip};

/// How far bytes were followed.
#[derive(Debug, Drop)]
pub struct Watch {
    at: usize,
    place: Option<Place>,
}

impl Watch {
    /// No byte was followed yet.
    pub fn new() -> Watch {
        Watch { at: 0, place: None }
    }

    /// Whether a line has ended in the bytes that came since.
    pub fn sees_line(&mut self, bytes: &[u8]) -> bool {
        let more = &bytes[self.at.min(bytes.len())..];
        self.at = bytes.len();
        more.iter().any(|&byte| byte == b'\n')
    }

    /// Whether a head has ended in the bytes that came since: an empty line stands behind one that
    /// isn't empty.
    pub fn sees_head(&mut self, bytes: &[u8]) -> bool {
        let more = &bytes[self.at.min(bytes.len())..];
        self.at = bytes.len();
        let text = match self.place {
            Some(_) => more,
            None => without_blank(more),
        };
        if text.is_empty() {
            return false;
        }
        match skip(text, self.place.unwrap_or(Place::Inside)) {
            Skipped::Whole(_) => true,
            Skipped::Open(place) => {
                self.place = Some(place);
                false
            }
        }
    }
}

/// The bytes from the first one that isn't of an empty line.
fn without_blank(bytes: &[u8]) -> &[u8] {
    match bytes
        .iter()
        .position(|&byte| byte != b'\r' && byte != b'\n')
    {
        Some(at) => &bytes[at..],
        None => &[],
    }
}
