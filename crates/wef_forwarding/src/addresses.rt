//! The parts of an address of HTTP, `http://AUTHORITY/PATH`.

ghost use Rattle.std.specs.List.{after_first, before_first};
ghost use Rattle.std.specs.Prelude.{◌≡◌, IfOk};
ghost use Rattle.wef_eventing.specs.Addresses.{is_slash};
ghost use Rattle.wef_forwarding.specs.Addresses as spec;

use std::alloc::AllocError;
use wef_base::Text;

/// The authority of an address, as spelt.
pub(crate) fn authority_of(address: &Text) -> Result<Text, AllocError>
    ensures { IfOk result (λ authority. authority ≡ spec.authority_of address.now) }
{
    Text::from_str(address.alloc(), authority(behind_scheme(address.as_str())))
}

/// The path of an address, as spelt, with its query.
pub(crate) fn path_of(address: &Text) -> Result<Text, AllocError>
    ensures { IfOk result (λ path. path ≡ spec.path_of address.now) }
{
    let mut path = Text::from_str(address.alloc(), "/")?;
    path.push_str(behind_slash(behind_scheme(address.as_str())))?;
    Ok(path)
}

/// What stands behind the two slashes of the scheme.
fn behind_scheme(address: &str) -> &str
    ensures { result.now ≡ spec.behind_scheme address.now }
{
    behind_slash(behind_slash(address))
}

fn authority(text: &str) -> &str
    ensures { result.now ≡ before_first is_slash text.now }
{
    match text.split_once('/') {
        Some((authority, _)) => authority,
        None => text,
    }
}

fn behind_slash(text: &str) -> &str
    ensures { result.now ≡ after_first is_slash text.now }
{
    match text.split_once('/') {
        Some((_, rest)) => rest,
        None => "",
    }
}
