//! The token at the front of what is left of a text, or its flaw. Runs are found as a whole, not byte by byte.
ghost use Rattle.std.specs.Prelude.{◌≡◌, ◌+◌, ◌≤◌, ◌<◌, ◌∷◌, length, take, drop, MatchOption, MatchBool, MatchResult, IsTrue, IfSome};
ghost use Rattle.crs_text.specs.Tokens.{BeginsWith, IsInside, StopsAt, is_quote, IsLongestUtf8, IsUtf8Front};
ghost use Rattle.crs_text.specs.inner.Lexing.{IsShutAt, IsLexed, IsValidTo};
ghost use Rattle.crs_decimal.specs.Numbers as spelling;
ghost use Rattle.crs_text.specs.inner.Runs.{IsOneDigit, IsSigned, IsFractional};

use crate::refusal::Reason;
use crate::runs::{ByteKind, Digits, PlainAscii, RunBytes, WordBytes, ends_run};
use bstr::{ByteSlice, validate};
use crs_decimal::{Decimal, NumberFault};

/// What begins what is left; lengths count the raw bytes of a single token.
#[derive(Clone, Copy)]
pub(crate) enum Lexed {
    Number { length: usize },
    Text { length: usize },
    Word { length: usize },
    Comma,
    Opening { square: bool },
    Closing { square: bool },
    Flaw { reason: Reason, skip: usize },
}

/// The bytes from `at` on.
#[inline]
pub(crate) fn rest_of(bytes: &[u8], at: usize) -> &[u8]
    requires { at ≤ length bytes.now }
    ensures { result.now ≡ drop at bytes.now }
{
    bytes.split_at(at).1
}

/// The first bytes, up to `end`.
#[inline]
pub(crate) fn front_of(bytes: &[u8], end: usize) -> &[u8]
    requires { end ≤ length bytes.now }
    ensures { result.now ≡ take end bytes.now }
{
    bytes.split_at(end).0
}

fn flaw(reason: Reason, skip: usize) -> Lexed
    ensures { result ≡ Lexed.Flaw reason skip }
{
    Lexed::Flaw { reason, skip }
}

fn begins_with_quote(bytes: &[u8]) -> bool
    ensures { MatchBool result (bytes.now ≡ 34 ∷ drop 1 bytes.now) (StopsAt is_quote bytes.now) }
{
    matches!(bytes, [b'"', ..])
}

/// The place of the closing quote in the bytes after an opening one: the first quote that isn't doubled.
pub(crate) fn closing_quote(after: &[u8]) -> Option<usize>
    ensures { MatchOption result (IsInside after.now) (IsShutAt after.now) }
{
    let mut at = 0;
    while at < after.len() {
        let rest = rest_of(after, at);
        let quote = at + rest.find_byte(b'"').unwrap_or(rest.len());
        if quote == after.len() {
            return None;
        }
        if !begins_with_quote(rest_of(after, quote + 1)) {
            return Some(quote);
        }
        at = quote + 2;
    }
    None
}

/// The quoted text that begins what is left, if it is ASCII with no quote inside, as most are.
#[inline(always)]
pub(crate) fn plain_text(left: &[u8]) -> Option<Lexed>
    requires { left.now ≡ 34 ∷ drop 1 left.now }
    ensures { IfSome result (IsLexed left.now) }
{
    let after = rest_of(left, 1);
    let length = PlainAscii::length(after);
    let behind = rest_of(after, length);
    if begins_with_quote(behind) && !begins_with_quote(rest_of(behind, 1)) {
        Some(Lexed::Text { length })
    } else {
        None
    }
}

/// How many bytes in front are well-formed UTF-8: `Err` where no bytes to come complete the others. Profile.
pub(crate) fn valid_length(bytes: &[u8]) -> Result<usize, usize>
    ensures { MatchResult result (λ n. IsValidTo bytes.now n × IsUtf8Front bytes.now)
        (λ n. ¬ (IsUtf8Front bytes.now) × IsLongestUtf8 bytes.now n) }
{
    match validate(bytes) {
        Ok(()) => Ok(bytes.len()),
        Err(e) => match e.error_len() {
            None => Ok(e.valid_up_to()),
            Some(_) => Err(e.valid_up_to()),
        },
    }
}

// The quoted text that begins what is left, whatever is in it.
#[inline(never)]
fn any_quoted(left: &[u8]) -> Lexed
    requires { left.now ≡ 34 ∷ drop 1 left.now }
    ensures { IsLexed left.now result }
{
    let after = rest_of(left, 1);
    match closing_quote(after) {
        Some(length) => match valid_length(front_of(after, length + 1)) {
            // A quote ends every sequence: bytes that end in one are well-formed or ill-formed.
            Ok(_) => Lexed::Text { length },
            Err(valid) => flaw(Reason::NotUtf8, valid + 1),
        },
        None => match valid_length(after) {
            Ok(_) => flaw(Reason::OpenText, 0),
            Err(valid) => flaw(Reason::NotUtf8, 1 + valid),
        },
    }
}

// The run that begins what is left: a number, or what it is refused for.
#[inline(always)]
fn run(left: &[u8]) -> Lexed
    requires { BeginsWith spelling.is_run_start left.now }
    ensures { IsLexed left.now result }
{
    let length = RunBytes::length(left);
    match Decimal::parse(front_of(left, length)) {
        Ok(_) => Lexed::Number { length },
        Err(NumberFault::Malformed) => flaw(Reason::BadNumber, 0),
        Err(NumberFault::Range) => flaw(Reason::NumberRange, 0),
    }
}

// The most bytes of a number that is told by its form alone: with so many digits it is in bounds.
const PLAIN_LIMIT: usize = 38;

#[inline(always)]
fn sign_length(left: &[u8]) -> usize
    ensures signed { IsSigned left.now result }
    ensures within { result ≤ length left.now }
{
    match left {
        [b'-', ..] => 1,
        [b'+', ..] => 1,
        _ => 0,
    }
}

#[inline(always)]
fn fraction_length(left: &[u8]) -> usize
    ensures fraction { IsFractional left.now result }
    ensures within { result ≤ length left.now }
{
    match left {
        [b'.', ..] => 1 + Digits::length(rest_of(left, 1)),
        _ => 0,
    }
}

// Whether one digit comes first, and then a byte that is behind most such numbers.
#[inline(always)]
fn is_one_digit(left: &[u8]) -> bool
    ensures { IsTrue result → IsOneDigit left.now }
{
    match left {
        [digit, b',' | b']', ..] => Digits::has(*digit),
        _ => false,
    }
}

/// The number that begins what is left, if it has no exponent and so few digits that it is in bounds, as most have.
#[inline(always)]
pub(crate) fn plain_number(left: &[u8]) -> Option<Lexed>
    ensures { IfSome result (IsLexed left.now) }
{
    crs_decimal::laws::few_digits();
    crs_decimal::laws::spelled_as_a_run();
    if is_one_digit(left) {
        return Some(Lexed::Number { length: 1 });
    }
    let start = sign_length(left);
    let unsigned = rest_of(left, start);
    let whole = Digits::length(unsigned);
    if whole == 0 {
        return None;
    }
    let behind = rest_of(unsigned, whole);
    let fraction = fraction_length(behind);
    if whole + fraction > PLAIN_LIMIT {
        return None;
    }
    if ends_run(rest_of(behind, fraction)) {
        Some(Lexed::Number {
            length: start + whole + fraction,
        })
    } else {
        None
    }
}

/// The token or the flaw that begins what is left, which begins with no white space.
#[inline(always)]
pub(crate) fn token_at(left: &[u8]) -> Lexed
    requires { 0 < length left.now }
    ensures { IsLexed left.now result }
{
    match left[0] {
        b'A'..=b'Z' | b'a'..=b'z' => Lexed::Word {
            length: WordBytes::length(left),
        },
        b'0'..=b'9' | b'+' | b'-' | b'.' => run(left),
        b'"' => match plain_text(left) {
            Some(lexed) => lexed,
            None => any_quoted(left),
        },
        b',' => Lexed::Comma,
        b'[' => Lexed::Opening { square: true },
        b'(' => Lexed::Opening { square: false },
        b']' => Lexed::Closing { square: true },
        b')' => Lexed::Closing { square: false },
        _ => flaw(Reason::BadCharacter, 0),
    }
}
