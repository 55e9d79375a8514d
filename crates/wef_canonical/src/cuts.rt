//! Cutting texts where characters of ASCII stand. Nothing is copied.

ghost use Rattle.std.specs.Prelude.{◌≡◌, ◌<◌, ℕ, List, ◌∷◌, ◌++◌, IfSome};

/// What is left of a text that begins with these bytes. None of others, and where a character would
/// be cut in two.
pub fn strip<'a>(front: &[u8], text: &'a str) -> Option<&'a str>
    ensures { IfSome result (λ rest. text.now ≡ front.now ++ rest.now) }
{
    let _behind = text.as_bytes().strip_prefix(front)?;
    text.get(front.len()..)
}

/// What stands in a text before the end of it that is left. None where that is no end of it by its
/// length.
pub fn before<'a>(text: &'a str, rest: &str) -> Option<&'a str>
    ensures { (passed : List ℕ) → text.now ≡ passed ++ rest.now → IfSome result (λ front. front.now ≡ passed) }
{
    let length = text.len().checked_sub(rest.len())?;
    text.get(..length)
}

/// The first byte of a text, where it is one of ASCII, and what is left.
pub(crate) fn first_of_ascii(text: &str) -> Option<(u8, &str)>
    ensures { IfSome result (λ read. (text.now ≡ read.0 ∷ read.1.now) × (read.0 < 128)) }
{
    match text.as_bytes() {
        [first, ..] if *first < 128 => Some((*first, &text[1..])),
        _ => None,
    }
}
