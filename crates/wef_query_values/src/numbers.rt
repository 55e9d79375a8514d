//! Whole numbers as texts, read byte by byte.

ghost use Rattle.std.specs.Prelude.{◌≡◌, ◌≤◌, ◌<◌, IfSome};
ghost use Rattle.wef_base.specs.Names.{is_space};
ghost use Rattle.wef_query_values.specs.Numbers.{base, decimal_digit, digit, hexadecimal_digit, limit, number_of, signed, up_to, with_digit};
ghost use Rattle.wef_query_values.specs.Numerals.{behind_number, first_byte, more_digits, next, value_of};
ghost use Rattle.wef_query_values.specs.Places.{plain, text_at};

use crate::feeding::{Feed, feed_spot};
use crate::spots::Spot;

/// How the digits of a number are read.
#[derive(Clone, Copy)]
pub(crate) enum Notation {
    /// Decimal digits.
    Decimal,
    /// Decimal digits behind a minus.
    Negative,
    /// Hexadecimal digits behind `0x`.
    Hexadecimal,
}

/// What a text is so far, as a whole number.
#[derive(Clone, Copy)]
pub(crate) enum Numeral {
    /// Nothing but spaces.
    Before,
    /// `0`, which `x` may follow.
    Zero,
    /// A minus or `0x`, before its first digit.
    Begun(Notation),
    /// Digits, by their number.
    Digits(Notation, u64),
    /// Digits and spaces behind them.
    Behind(Notation, u64),
    /// No number, whatever follows.
    Bad,
}

impl Feed for Numeral {
    ghost step = { next };

    fn feed(&mut self, byte: u8) {
        *self = self.next(byte);
    }
}

/// The whole number that a place is, from -2^63 to 2^64 - 1; none where it is none.
#[tactic(auto, using(crate::proofs::Numerals::number_is))]
pub(crate) fn number_at(spot: Spot) -> Option<i128>
    ensures { result ≡ number_of (text_at (plain spot.entry)) }
{
    let mut numeral = Numeral::Before;
    feed_spot(&mut numeral, spot);
    numeral.value()
}

impl Numeral {
    fn next(self, byte: u8) -> Numeral
        ensures { result ≡ next self byte }
    {
        match self {
            Numeral::Before => Numeral::first(byte),
            Numeral::Zero if byte == b'x' => Numeral::Begun(Notation::Hexadecimal),
            Numeral::Zero => Numeral::behind_number(Notation::Decimal, 0, byte),
            Numeral::Begun(notation) => Numeral::more_digits(notation, 0, byte),
            Numeral::Digits(notation, number) => Numeral::behind_number(notation, number, byte),
            Numeral::Behind(_, _) if is_space(byte) => self,
            Numeral::Behind(_, _) => Numeral::Bad,
            Numeral::Bad => Numeral::Bad,
        }
    }

    fn first(byte: u8) -> Numeral
        ensures { result ≡ first_byte byte }
    {
        if is_space(byte) {
            Numeral::Before
        } else if byte == b'-' {
            Numeral::Begun(Notation::Negative)
        } else if byte == b'0' {
            Numeral::Zero
        } else {
            Numeral::more_digits(Notation::Decimal, 0, byte)
        }
    }

    fn behind_number(notation: Notation, number: u64, byte: u8) -> Numeral
        ensures { result ≡ behind_number notation number byte }
    {
        if is_space(byte) {
            Numeral::Behind(notation, number)
        } else {
            Numeral::more_digits(notation, number, byte)
        }
    }

    fn more_digits(notation: Notation, number: u64, byte: u8) -> Numeral
        ensures { result ≡ more_digits notation number byte }
    {
        match notation.with_digit(number, byte) {
            Some(number) => Numeral::Digits(notation, number),
            None => Numeral::Bad,
        }
    }

    fn value(self) -> Option<i128>
        ensures { result ≡ value_of self }
    {
        match self {
            Numeral::Zero => Some(0),
            Numeral::Digits(notation, number) => Some(notation.signed(number)),
            Numeral::Behind(notation, number) => Some(notation.signed(number)),
            Numeral::Before | Numeral::Begun(_) | Numeral::Bad => None,
        }
    }
}

impl Notation {
    fn with_digit(self, number: u64, byte: u8) -> Option<u64>
        ensures { result ≡ up_to (limit self) (with_digit self number byte) }
    {
        let digit = self.digit(byte)?;
        let number = u128::from(number) * u128::from(self.base()) + u128::from(digit);
        if number <= u128::from(self.limit()) {
            Some(number as u64)
        } else {
            None
        }
    }

    fn digit(self, byte: u8) -> Option<u8>
        ensures value { result ≡ digit self byte }
        ensures within { IfSome result (λ d. d < 16) }
    {
        match self {
            Notation::Decimal | Notation::Negative => decimal_digit(byte),
            Notation::Hexadecimal => hexadecimal_digit(byte),
        }
    }

    fn base(self) -> u8
        ensures value { result ≡ base self }
        ensures within { result ≤ 16 }
    {
        match self {
            Notation::Decimal | Notation::Negative => 10,
            Notation::Hexadecimal => 16,
        }
    }

    fn limit(self) -> u64
        ensures { result ≡ limit self }
    {
        match self {
            Notation::Decimal | Notation::Hexadecimal => u64::MAX,
            Notation::Negative => 1 << 63,
        }
    }

    fn signed(self, size: u64) -> i128
        ensures { result ≡ signed self size }
    {
        match self {
            Notation::Decimal | Notation::Hexadecimal => i128::from(size),
            Notation::Negative => -i128::from(size),
        }
    }
}

fn decimal_digit(byte: u8) -> Option<u8>
    ensures value { result ≡ decimal_digit byte }
    ensures within { IfSome result (λ d. d < 16) }
{
    match byte {
        b'0'..=b'9' => Some(byte - b'0'),
        _ => None,
    }
}

fn hexadecimal_digit(byte: u8) -> Option<u8>
    ensures value { result ≡ hexadecimal_digit byte }
    ensures within { IfSome result (λ d. d < 16) }
{
    match byte {
        b'0'..=b'9' => Some(byte - b'0'),
        b'A'..=b'F' => Some(byte - b'A' + 10),
        b'a'..=b'f' => Some(byte - b'a' + 10),
        _ => None,
    }
}

/// Whether XML 1.0 calls a byte a space (its rule S).
pub(crate) fn is_space(byte: u8) -> bool
    ensures { result ≡ is_space byte }
{
    byte == b' ' || byte == b'\t' || byte == b'\n' || byte == b'\r'
}
