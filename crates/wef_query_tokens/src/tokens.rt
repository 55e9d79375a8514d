//! The tokens of a query's path (XPath 1.0, 3.7). XML's spaces may stand around them.

ghost use Rattle.std.specs.Prelude.{◌≡◌, IfOk};
ghost use Rattle.std.specs.Option.{option_map};
ghost use Rattle.wef_base.specs.Names.{without_start};
ghost use Rattle.wef_query_tokens.specs.Calls.{is_position_call, is_call};
ghost use Rattle.wef_query_tokens.specs.Reads.{Reads, ReadsFront};
ghost use Rattle.wef_query_tokens.specs.Tokens.{axis_at, axis_named, before_colon, behind_zero, call_named, decimal_digit, decimal_tail, hexadecimal, hexadecimal_tail, if_equals, is_joint, is_name_char, is_name_start, mark, name_tail, named, number_from, one_more, other_at, quoted, quoted_tail, sign_at, slash_at, token_at, token_from, unequal, whole, with_front, word_at};

use crate::axis::Axis;
use crate::halt::Halt;
use crate::operator::Operator;
use std::alloc::{AllocError, Global};
use wef_base::Text;
use wef_base::names::is_xml_space;

/// A token of a path.
#[derive(Drop)]
pub enum Token {
    /// An axis: `child::`, or `attribute::` and `@`.
    Along(Axis),
    /// `*`
    Star,
    /// A name, or an operator between conditions: which of them is told by where it stands.
    Word(Text),
    /// `and` or `or`, before a `(` or a `:`: an operator alone.
    Joint(Text),
    /// `position`, before a `(`
    PositionCall,
    /// `band`, before a `(`
    BandCall,
    Compare(Operator),
    /// A number.
    Figure(u64),
    /// A text in quotes, without them.
    Quote(Text),
    OpenSquare,
    CloseSquare,
    OpenRound,
    CloseRound,
    Slash,
    Comma,
}

impl Token {
    /// Whether it is a function's name before its `(`.
    pub fn is_call(&self) -> bool
        ensures { result ≡ is_call self.now }
    {
        match self {
            Token::PositionCall | Token::BandCall => true,
            _ => false,
        }
    }

    /// Whether it is the call `position()`.
    pub fn is_position_call(&self) -> bool
        ensures { result ≡ is_position_call self.now }
    {
        match self {
            Token::PositionCall => true,
            _ => false,
        }
    }
}

/// A text without the spaces that it begins with.
pub fn behind_spaces(text: &[char]) -> &[char]
    ensures { result.now ≡ without_start text.now }
{
    let mut rest = text;
    while let [character, more @ ..] = rest {
        if !is_xml_space(*character) {
            return rest;
        }
        rest = more;
    }
    rest
}

/// The token that a text begins with, and what is left.
pub fn token_at(alloc: Global, text: &[char]) -> Result<(Token, &[char]), Halt>
    ensures { ReadsFront result (token_at text.now) }
{
    match text {
        [] => Err(Halt::Refused),
        [character, rest @ ..] => token_from(alloc, *character, rest),
    }
}

#[tactic(auto, unfolding(crate::specs::Tokens::token_from))]
fn token_from(alloc: Global, character: char, rest: &[char]) -> Result<(Token, &[char]), Halt>
    ensures { ReadsFront result (token_from character rest.now) }
{
    if is_name_start(character) {
        return word_at(alloc, character, rest);
    }
    if let Some(digit) = decimal_digit(character) {
        return number_from(digit, rest);
    }
    other_at(alloc, character, rest)
}

fn other_at(alloc: Global, character: char, rest: &[char]) -> Result<(Token, &[char]), Halt>
    ensures { ReadsFront result (other_at character rest.now) }
{
    if character == '"' || character == '\'' {
        return quoted(alloc, character, rest);
    }
    sign_at(character, rest)
}

/// Whether a name may begin with a character: a letter of ASCII, `_`, or a character beyond ASCII.
pub fn is_name_start(character: char) -> bool
    ensures { result ≡ is_name_start character }
{
    matches!(character, 'A'..='Z' | 'a'..='z' | '_' | '\u{80}'..)
}

fn is_name_char(character: char) -> bool
    ensures { result ≡ is_name_char character }
{
    is_name_start(character) || matches!(character, '0'..='9' | '-' | '.')
}

/// What a text is that begins with a name.
fn word_at(alloc: Global, first: char, rest: &[char]) -> Result<(Token, &[char]), Halt>
    ensures { ReadsFront result (word_at first rest.now) }
{
    let mut begun = Text::new(alloc);
    begun.push(first)?;
    let (name, rest) = name_tail(begun, rest)?;
    named(name, rest, behind_spaces(rest))
}

/// A name that was begun, with the characters of it that a text begins with.
fn name_tail(begun: Text, text: &[char]) -> Result<(Text, &[char]), AllocError>
    ensures { IfOk result (λ read. (read.0, read.1.now) ≡ with_front begun (name_tail text.now)) }
{
    let mut name = begun;
    let mut rest = text;
    while let [character, more @ ..] = rest {
        if !is_name_char(*character) {
            return Ok((name, rest));
        }
        name.push(*character)?;
        rest = more;
    }
    Ok((name, rest))
}

/// What a name is before `rest`, which begins with `behind` but for spaces.
fn named<'a>(name: Text, rest: &'a [char], behind: &'a [char]) -> Result<(Token, &'a [char]), Halt>
    ensures { ReadsFront result (named name rest.now behind.now) }
{
    match behind {
        [':', behind @ ..] => before_colon(name, rest, behind),
        ['(', ..] => Ok((call_named(name)?, rest)),
        _ => Ok((Token::Word(name), rest)),
    }
}

/// What a name before `:` is, behind which `behind` stands.
fn before_colon<'a>(
    name: Text,
    rest: &'a [char],
    behind: &'a [char],
) -> Result<(Token, &'a [char]), Halt>
    ensures { ReadsFront result (before_colon name rest.now behind.now) }
{
    if is_joint(&name) {
        return Ok((Token::Joint(name), rest));
    }
    axis_at(&name, behind)
}

/// The axis of a name behind which `:` was read.
fn axis_at<'a>(name: &Text, rest: &'a [char]) -> Result<(Token, &'a [char]), Halt>
    ensures { ReadsFront result (axis_at name.now rest.now) }
{
    match rest {
        [':', behind @ ..] => axis_named(name, behind),
        _ => Err(Halt::Refused),
    }
}

fn axis_named<'a>(name: &Text, rest: &'a [char]) -> Result<(Token, &'a [char]), Halt>
    ensures { ReadsFront result (axis_named name.now rest.now) }
{
    if name.as_str() == "child" {
        return Ok((Token::Along(Axis::Child), rest));
    }
    if name.as_str() == "attribute" {
        return Ok((Token::Along(Axis::Attribute), rest));
    }
    Err(Halt::Refused)
}

/// What a name before `(` is.
fn call_named(name: Text) -> Result<Token, Halt>
    ensures { Reads result (call_named name) }
{
    if name.as_str() == "position" {
        return Ok(Token::PositionCall);
    }
    if name.as_str() == "band" {
        return Ok(Token::BandCall);
    }
    if is_joint(&name) {
        return Ok(Token::Joint(name));
    }
    Err(Halt::Refused)
}

fn is_joint(name: &Text) -> bool
    ensures { result ≡ is_joint name.now }
{
    name.as_str() == "and" || name.as_str() == "or"
}

fn decimal_digit(character: char) -> Option<u64>
    ensures { result ≡ decimal_digit character }
{
    let code = u64::from(u32::from(character));
    match code {
        0x30..=0x39 => Some(code - 0x30),
        _ => None,
    }
}

fn hexadecimal_digit(character: char) -> Option<u64>
    ensures { result ≡ hexadecimal character }
{
    let code = u64::from(u32::from(character));
    match code {
        0x30..=0x39 => Some(code - 0x30),
        0x41..=0x46 => Some(code - 0x37),
        0x61..=0x66 => Some(code - 0x57),
        _ => None,
    }
}

/// A number with one more digit, where that isn't too large.
fn one_more(base: u64, number: u64, digit: u64) -> Result<u64, Halt>
    ensures { Reads result (one_more base number digit) }
{
    let Some(shifted) = number.checked_mul(base) else {
        return Err(Halt::Refused);
    };
    match shifted.checked_add(digit) {
        Some(more) => Ok(more),
        None => Err(Halt::Refused),
    }
}

/// A number, whose first digit was read.
fn number_from(digit: u64, rest: &[char]) -> Result<(Token, &[char]), Halt>
    ensures { ReadsFront result (number_from digit rest.now) }
{
    if digit == 0 {
        behind_zero(rest)
    } else {
        decimal_tail(digit, rest)
    }
}

/// A number that begins with 0.
fn behind_zero(rest: &[char]) -> Result<(Token, &[char]), Halt>
    ensures { ReadsFront result (behind_zero rest.now) }
{
    match rest {
        ['x', digit, behind @ ..] => match hexadecimal_digit(*digit) {
            Some(first) => hexadecimal_tail(first, behind),
            None => Ok((Token::Figure(0), rest)),
        },
        _ => decimal_tail(0, rest),
    }
}

fn hexadecimal_tail(begun: u64, text: &[char]) -> Result<(Token, &[char]), Halt>
    ensures { ReadsFront result (hexadecimal_tail begun text.now) }
{
    let mut number = begun;
    let mut rest = text;
    while let [character, more @ ..] = rest {
        let Some(digit) = hexadecimal_digit(*character) else {
            return Ok((Token::Figure(number), rest));
        };
        number = one_more(16, number, digit)?;
        rest = more;
    }
    Ok((Token::Figure(number), rest))
}

fn decimal_tail(begun: u64, text: &[char]) -> Result<(Token, &[char]), Halt>
    ensures { ReadsFront result (decimal_tail begun text.now) }
{
    let mut number = begun;
    let mut rest = text;
    while let [character, more @ ..] = rest {
        let Some(digit) = decimal_digit(*character) else {
            return whole(number, rest);
        };
        number = one_more(10, number, digit)?;
        rest = more;
    }
    Ok((Token::Figure(number), rest))
}

/// A decimal number, behind which there is no point.
fn whole(number: u64, rest: &[char]) -> Result<(Token, &[char]), Halt>
    ensures { ReadsFront result (whole number rest.now) }
{
    match rest {
        ['.', ..] => Err(Halt::Refused),
        _ => Ok((Token::Figure(number), rest)),
    }
}

/// A text in quotes, behind its first quote.
fn quoted(alloc: Global, quote: char, text: &[char]) -> Result<(Token, &[char]), Halt>
    ensures { ReadsFront result (quoted quote text.now) }
{
    let (quoted, rest) = quoted_tail(Text::new(alloc), quote, text)?;
    Ok((Token::Quote(quoted), rest))
}

fn quoted_tail(begun: Text, quote: char, text: &[char]) -> Result<(Text, &[char]), Halt>
    ensures { ReadsFront result (option_map (with_front begun) (quoted_tail quote text.now)) }
{
    let mut quoted = begun;
    let mut rest = text;
    while let [character, more @ ..] = rest {
        if *character == quote {
            return Ok((quoted, more));
        }
        quoted.push(*character)?;
        rest = more;
    }
    Err(Halt::Refused)
}

fn sign_at(character: char, rest: &[char]) -> Result<(Token, &[char]), Halt>
    ensures { ReadsFront result (sign_at character rest.now) }
{
    match character {
        '<' => Ok(if_equals(Operator::LessOrEqual, Operator::Less, rest)),
        '>' => Ok(if_equals(Operator::GreaterOrEqual, Operator::Greater, rest)),
        '!' => unequal(rest),
        '/' => slash_at(rest),
        _ => Ok((mark(character)?, rest)),
    }
}

/// One operator where `=` follows, else another.
fn if_equals(with_equals: Operator, without: Operator, rest: &[char]) -> (Token, &[char])
    ensures { (result.0, result.1.now) ≡ if_equals with_equals without rest.now }
{
    match rest {
        ['=', behind @ ..] => (Token::Compare(with_equals), behind),
        _ => (Token::Compare(without), rest),
    }
}

/// `!=`, behind its first character.
fn unequal(rest: &[char]) -> Result<(Token, &[char]), Halt>
    ensures { ReadsFront result (unequal rest.now) }
{
    match rest {
        ['=', behind @ ..] => Ok((Token::Compare(Operator::NotEqual), behind)),
        _ => Err(Halt::Refused),
    }
}

/// `/`, which no other may follow: `//` is no token.
fn slash_at(rest: &[char]) -> Result<(Token, &[char]), Halt>
    ensures { ReadsFront result (slash_at rest.now) }
{
    match rest {
        ['/', ..] => Err(Halt::Refused),
        _ => Ok((Token::Slash, rest)),
    }
}

/// A sign of one character.
fn mark(character: char) -> Result<Token, Halt>
    ensures { Reads result (mark character) }
{
    match character {
        '*' => Ok(Token::Star),
        '@' => Ok(Token::Along(Axis::Attribute)),
        '[' => Ok(Token::OpenSquare),
        ']' => Ok(Token::CloseSquare),
        '(' => Ok(Token::OpenRound),
        ')' => Ok(Token::CloseRound),
        ',' => Ok(Token::Comma),
        '=' => Ok(Token::Compare(Operator::Equal)),
        _ => Err(Halt::Refused),
    }
}
