//! Numbers of at most 19 bytes without an exponent, as nearly all are: their digits fit a `u64`.
ghost use Rattle.std.specs.Prelude.{◌≡◌, ◌≢◌, ◌+◌, ◌-◌, ◌*◌, ◌%◌, ◌^◌, ◌<◌, ◌≤◌, length, fold, IfSome};
ghost use Rattle.crs_decimal.specs.Numbers.{IsBounded, number_of, Parts, SameNumber, IsNormal, exact};
ghost use Rattle.crs_decimal.specs.inner.Cut.{IsPowerBetween};
ghost use Rattle.crs_decimal.specs.inner.Short.{IsReadShort, IsShortCut};
ghost use Rattle.crs_decimal.specs.inner.Split.{leading_digits, behind_digits};

use crate::cutting::{rest_of, split_sign};
use crate::decimal::Decimal;

/// The most bytes of a short number.
const LIMIT: usize = 19;

/// A short number's mantissa: all digits as one whole number, how many are a fraction, and whether a minus is in front.
#[derive(Clone, Copy)]
pub(crate) struct Short {
    pub(crate) value: u64,
    pub(crate) fraction: usize,
    pub(crate) negative: bool,
}

// the digits so far, as one whole number, and their count
#[derive(Clone, Copy)]
struct Digits {
    value: u64,
    count: usize,
}

// the number that the bytes spell, if it is a short one
#[inline(always)]
pub(crate) fn read_short(bytes: &[u8]) -> Option<Short>
    ensures { IfSome result (IsReadShort bytes.now) }
{
    if bytes.len() > LIMIT {
        return None;
    }
    let (negative, rest) = split_sign(bytes);
    let (whole, behind) = with_digits(Digits { value: 0, count: 0 }, rest);
    match behind {
        [] => some_digits(whole, 0, negative),
        [b'.', ..] => {
            let fraction = rest_of(behind, 1);
            let (all, more) = with_digits(whole, fraction);
            if !more.is_empty() {
                return None;
            }
            some_digits(all, fraction.len(), negative)
        }
        _ => None,
    }
}

// None where there are no digits
#[inline(always)]
fn some_digits(digits: Digits, fraction: usize, negative: bool) -> Option<Short>
    ensures { IfSome result (λ s. (s.value ≡ digits.value) × (s.fraction ≡ fraction) × (s.negative ≡ negative)
        × (0 < digits.count)) }
{
    if digits.count == 0 {
        return None;
    }
    Some(Short {
        value: digits.value,
        fraction,
        negative,
    })
}

// the digits in front of the bytes, after those so far, and what follows them
#[inline(always)]
fn with_digits(before: Digits, bytes: &[u8]) -> (Digits, &[u8])
    requires few { before.count + length bytes.now ≤ 19 }
    requires small { before.value < 10 ^ before.count }
    ensures value { result.0.value ≡ fold (λ n d. n * 10 + (d - 48)) before.value (leading_digits bytes.now) }
    ensures count { result.0.count ≡ before.count + length (leading_digits bytes.now) }
    ensures small { result.0.value < 10 ^ result.0.count }
    ensures rest { result.1.now ≡ behind_digits bytes.now }
    ensures len { result.0.count + length result.1.now ≡ before.count + length bytes.now }
{
    let mut value = before.value;
    let mut count = 0;
    for byte in bytes {
        if !byte.is_ascii_digit() {
            break;
        }
        value = value * 10 + u64::from(*byte - b'0');
        count += 1;
    }
    let digits = Digits {
        value,
        count: before.count + count,
    };
    (digits, rest_of(bytes, count))
}

impl Short {
    /// The number.
    #[inline(always)]
    pub(crate) fn decimal(self) -> Decimal
        requires { (p : Parts) × IsShortCut p self }
        ensures { (p : Parts) → IsShortCut p self
            → IsNormal result × IsBounded p × SameNumber (number_of p) (exact result) }
    {
        if self.value == 0 {
            return Decimal::zero();
        }
        let (digits, zeros) = stripped(self.value);
        Decimal::new(
            self.negative,
            u128::from(digits),
            small_power(zeros, self.fraction),
        )
    }
}

// the number without its closing zeros, and how many those are
#[inline(always)]
fn stripped(number: u64) -> (u64, usize)
    requires { 0 < number }
    ensures number { number ≡ result.0 * 10 ^ result.1 }
    ensures last { result.0 % 10 ≢ 0 }
{
    let mut digits = number;
    let mut zeros = 0;
    while digits % 10 == 0 {
        digits /= 10;
        zeros += 1;
    }
    (digits, zeros)
}

/// The power of ten that is 10^up / 10^down.
#[inline(always)]
pub(crate) fn small_power(up: usize, down: usize) -> i32
    requires { (up ≤ down + 40) × (down ≤ up + 40) }
    ensures { IsPowerBetween up down result }
{
    if up >= down {
        (up - down) as i32
    } else {
        -((down - up) as i32)
    }
}
