//! Texts of fixed length.

ghost use Rattle.std.specs.Prelude.{◌≡◌, ◌≤◌, ◌+◌, ◌<◌, ◌^◌};
ghost use Rattle.wef_times.specs.Forms.{HasField, field, fits_place, has_form};

use crate::digits::{is_digit, value_up_to};

/// Whether a text has a form: a digit where the form has `0`, and the form's own character elsewhere.
pub(crate) fn has_form(form: &str, text: &[u8]) -> bool
    ensures { result ≡ has_form form.now text.now }
{
    has_each(form.as_bytes(), text)
}

fn has_each(form: &[u8], text: &[u8]) -> bool
    ensures { result ≡ has_form form.now text.now }
{
    let mut places = form;
    let mut rest = text;
    while let Some((place, more_places)) = places.split_first() {
        let Some((character, more)) = rest.split_first() else {
            return false;
        };
        if !fits_place(*place, *character) {
            return false;
        }
        places = more_places;
        rest = more;
    }
    rest.is_empty()
}

fn fits_place(place: u8, character: u8) -> bool
    ensures { result ≡ fits_place place character }
{
    if place == b'0' {
        is_digit(character)
    } else {
        character == place
    }
}

/// The number of so many digits behind so many characters.
pub(crate) fn field(at: usize, digits: usize, text: &[u8]) -> u64
    requires digits { HasField at digits text.now }
    requires few { digits ≤ 4 }
    ensures value { result ≡ field at digits text.now }
    ensures within { result < 10 ^ digits }
{
    value_up_to(9999, &text[at..at + digits])
}
