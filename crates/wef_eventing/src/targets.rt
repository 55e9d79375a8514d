//! Which texts are addresses of HTTP, and which of these lead to a subscription.

ghost use Rattle.std.specs.List.{list_all, list_any};
ghost use Rattle.std.specs.Prelude.{◌≡◌, length, take, drop, Some, None, option_copied, IfOk, if◌then◌else◌};
ghost use Rattle.wef_base.specs.Names.{same};
ghost use Rattle.wef_eventing.specs.Addresses.{behind_slash, has_path, has_segments, is_address, is_delivery, is_printed, is_slash, scheme};

use crate::addresses::subscription_in;
use std::alloc::AllocError;
use wef_base::Text;

/// What an address of HTTP begins with.
pub const SCHEME: &str = "http://";

/// Whether a text is an address of HTTP whose segment before the last names a subscription.
pub fn is_delivery(address: &Text) -> Result<bool, AllocError>
    ensures { IfOk result (λ is. is ≡ is_delivery address.now) }
{
    if !is_address(address) || !has_segments(address.as_str().as_bytes()) {
        return Ok(false);
    }
    Ok(subscription_in(address)?.is_some())
}

/// Whether the path of an address has a segment before its last.
#[tactic(auto, using(std::proofs::lemmas::List::drop_all), unfolding(crate::specs::Addresses::scheme))]
fn has_segments(text: &[u8]) -> bool
    ensures { result ≡ has_segments text.now }
{
    let Some((_, rest)) = text.split_at_checked(SCHEME.len()) else {
        return false;
    };
    has_slash(behind_slash(rest))
}

/// What stands behind the first slash.
fn behind_slash(text: &[u8]) -> &[u8]
    ensures { result.now ≡ behind_slash text.now }
{
    let mut rest = text;
    while let Some((&byte, more)) = rest.split_first() {
        rest = more;
        if is_slash(byte) {
            return rest;
        }
    }
    rest
}

/// Whether a text is an address of HTTP (RFC 3986, section 3): the scheme, an authority that isn't
/// empty, and a path.
pub fn is_address(address: &Text) -> bool
    ensures { result ≡ is_address address.now }
{
    let text = address.as_str().as_bytes();
    let Some(rest) = behind_scheme(text) else {
        return false;
    };
    has_path(rest) && are_printed(text)
}

#[tactic(auto, unfolding(crate::specs::Addresses::scheme))]
fn behind_scheme(text: &[u8]) -> Option<&[u8]>
    ensures { option_copied result ≡ (if same (take (length scheme) text.now) scheme then Some (drop (length scheme) text.now) else None) }
{
    text.strip_prefix(SCHEME.as_bytes())
}

fn has_path(text: &[u8]) -> bool
    ensures { result ≡ has_path text.now }
{
    match text {
        [first, rest @ ..] => !is_slash(*first) && has_slash(rest),
        [] => false,
    }
}

fn is_slash(byte: u8) -> bool
    ensures { result ≡ is_slash byte }
{
    byte == b'/'
}

fn has_slash(text: &[u8]) -> bool
    ensures { result ≡ list_any is_slash text.now }
{
    text.iter().any(|byte| is_slash(*byte))
}

fn are_printed(text: &[u8]) -> bool
    ensures { result ≡ list_all is_printed text.now }
{
    text.iter().all(|byte| is_printed(*byte))
}

/// Whether a byte is a character of ASCII that is printed, and no space.
fn is_printed(byte: u8) -> bool
    ensures { result ≡ is_printed byte }
{
    b'!' <= byte && byte <= b'~'
}
