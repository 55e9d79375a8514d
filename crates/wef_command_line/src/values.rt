//! The words that were found behind the name of a command, by what they are.

ghost use Rattle.clap.specs.Matches.{found_of};
ghost use Rattle.clap.specs.Walk.{first_of, rows_of};
ghost use Rattle.std.specs.List.{list_all};
ghost use Rattle.std.specs.Prelude.{◌≡◌, true, IfOk};
ghost use Rattle.wef_base.specs.Numbers.{has_leading_zero, is_numeral, number_within};
ghost use Rattle.wef_command_line.specs.Command as spec;
ghost use Rattle.wef_command_line.specs.Values.{address_in, channel_in, name_in, number_in, seed_in, size_in, source_in};

use clap::ArgMatches;
use std::alloc::{AllocError, Global};
use wef_base::numbers::{is_numeral_text, read_plain_number};
use wef_base::{ChannelName, SourceName, SubId, Text};

/// The greatest number of connections, deliveries or requests that one run may be told.
pub const GREATEST_NUMBER: u64 = 1_000_000;

/// The greatest number of draws of a made schedule.
pub const GREATEST_SIZE: u64 = 100_000;

/// The name of a subscription.
pub fn subscription(alloc: Global, found: &ArgMatches<'_>) -> Result<Option<SubId>, AllocError>
    ensures { IfOk result (λ name. name ≡ name_in (rows_of (found_of found.now))) }
{
    match word(alloc, found, "NAME")? {
        Some(word) => SubId::named(&word),
        None => Ok(None),
    }
}

/// The name of a source.
pub fn source(alloc: Global, found: &ArgMatches<'_>) -> Result<Option<SourceName>, AllocError>
    ensures { IfOk result (λ name. name ≡ source_in (rows_of (found_of found.now))) }
{
    match word(alloc, found, "SOURCE")? {
        Some(word) => SourceName::named(&word),
        None => Ok(None),
    }
}

/// The name of a channel.
pub fn channel(alloc: Global, found: &ArgMatches<'_>) -> Result<Option<ChannelName>, AllocError>
    ensures { IfOk result (λ name. name ≡ channel_in (rows_of (found_of found.now))) }
{
    match word(alloc, found, "CHANNEL")? {
        Some(word) => ChannelName::named(&word),
        None => Ok(None),
    }
}

/// A host and a port.
pub fn address(alloc: Global, found: &ArgMatches<'_>) -> Result<Option<Text>, AllocError>
    ensures { IfOk result (λ address. address ≡ address_in (rows_of (found_of found.now))) }
{
    match word(alloc, found, "ADDRESS")? {
        Some(word) if is_address(&word) => Ok(Some(word)),
        _ => Ok(None),
    }
}

/// A number of connections, deliveries or requests.
pub fn number(alloc: Global, found: &ArgMatches<'_>) -> Result<Option<u64>, AllocError>
    ensures { IfOk result (λ number. number ≡ number_in (rows_of (found_of found.now))) }
{
    match word(alloc, found, "N")? {
        Some(word) => Ok(number_of(&word)),
        None => Ok(None),
    }
}

/// What a schedule is made from.
pub fn seed(alloc: Global, found: &ArgMatches<'_>) -> Result<Option<u64>, AllocError>
    ensures { IfOk result (λ seed. seed ≡ seed_in (rows_of (found_of found.now))) }
{
    match word(alloc, found, "SEED")? {
        Some(word) => Ok(seed_of(&word)),
        None => Ok(None),
    }
}

/// How many numbers are drawn for a made schedule.
pub fn size(alloc: Global, found: &ArgMatches<'_>) -> Result<Option<u32>, AllocError>
    ensures { IfOk result (λ size. size ≡ size_in (rows_of (found_of found.now))) }
{
    match word(alloc, found, "SIZE")? {
        Some(word) => Ok(size_of(&word)),
        None => Ok(None),
    }
}

/// The word that stands where a word in capital letters does.
#[tactic(auto, using(crate::proofs::Firsts::first_is))]
fn word(alloc: Global, found: &ArgMatches<'_>, capitals: &str) -> Result<Option<Text>, AllocError>
    ensures { IfOk result (λ word. word ≡ first_of capitals.now (rows_of (found_of found.now))) }
{
    match found.get_str(capitals) {
        Some(word) => Ok(Some(Text::from_str(alloc, word)?)),
        None => Ok(None),
    }
}

/// Whether a word is an address: one printed character of ASCII or more.
fn is_address(word: &Text) -> bool
    ensures { result ≡ spec.is_address word.now }
{
    let bytes = word.as_str().as_bytes();
    bytes.len() > 0 && all_printed(bytes)
}

fn all_printed(bytes: &[u8]) -> bool
    ensures { result ≡ list_all spec.is_printed bytes.now }
{
    bytes.iter().all(|&b| b >= 33 && b <= 126)
}

fn number_of(word: &Text) -> Option<u64>
    ensures { result ≡ spec.number_of word.now }
{
    match read_plain_number(word.as_str().as_bytes(), GREATEST_NUMBER) {
        Some(number) if number > 0 => Some(number),
        _ => None,
    }
}

fn size_of(word: &Text) -> Option<u32>
    ensures { result ≡ spec.size_of word.now }
{
    match read_plain_number(word.as_str().as_bytes(), GREATEST_SIZE) {
        Some(size) => Some(size as u32),
        None => None,
    }
}

#[tactic(auto, unfolding(wef_base::specs::Numbers::plain_number))]
fn seed_of(word: &Text) -> Option<u64>
    ensures { result ≡ spec.seed_of word.now }
{
    let bytes = word.as_str().as_bytes();
    if !is_numeral_text(bytes) || leads_with_zero(bytes) {
        return None;
    }
    number_of_digits(word.as_str())
}

/// The number that digits write, where it is one of 64 bits.
#[tactic(auto, using(crate::proofs::Digits::number_read, crate::proofs::Digits::number_refused))]
fn number_of_digits(digits: &str) -> Option<u64>
    requires { is_numeral digits.now ≡ true }
    ensures { result ≡ number_within spec.greatest_seed digits.now }
{
    match u64::from_str_radix(digits, 10) {
        Ok(number) => Some(number),
        Err(_) => None,
    }
}

fn leads_with_zero(word: &[u8]) -> bool
    ensures { result ≡ has_leading_zero word.now }
{
    match word {
        [first, _, ..] => *first == b'0',
        _ => false,
    }
}
