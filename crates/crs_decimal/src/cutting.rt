ghost use Rattle.std.specs.Prelude.{◌≡◌, ◌+◌, ◌<◌, ◌≤◌, ◌^◌, length, take, drop, MatchOption};
ghost use Rattle.std.specs.List.{prefix_len};
ghost use Rattle.crs_decimal.specs.Numbers.{is_minus, AreDigits, fraction_digits, is_digit};
ghost use Rattle.crs_decimal.specs.inner.Cut.{IsExponentWhole, IsExponentCut, IsCut};
ghost use Rattle.crs_decimal.specs.inner.Mantissa.{with_digits};
ghost use Rattle.crs_decimal.specs.inner.Split.{leading_digits, behind_digits, sign_of, behind_sign, fraction_of};
ghost use Rattle.crs_decimal.specs.inner.Split.{behind_fraction, parts_of, IsCutWhole};

use crate::mantissa::Mantissa;
use crate::plain::are_digits;

// what is kept of a number's parts
#[derive(Clone, Copy)]
pub(crate) struct Spelled<'a> {
    pub(crate) negative: bool,
    pub(crate) mantissa: Mantissa,
    pub(crate) count: usize,
    pub(crate) fraction: usize,
    pub(crate) below: bool,
    pub(crate) exponent: &'a [u8],
}

#[derive(Clone, Copy)]
struct Run<'a> {
    mantissa: Mantissa,
    count: usize,
    rest: &'a [u8],
}

pub(crate) fn read(bytes: &[u8]) -> Option<Spelled>
    ensures cut { MatchOption result (¬ (IsCutWhole bytes.now))
        (λ s. IsCutWhole bytes.now × IsCut (parts_of bytes.now) s) }
    ensures counts { MatchOption result (Unit {0})
        (λ s. (s.mantissa.zeros ≤ s.count) × (s.fraction ≤ s.count) × AreDigits s.exponent.now) }
{
    let (negative, rest) = split_sign(bytes);
    let whole = split_digits(rest, Mantissa::new());
    let fraction = split_fraction(whole.rest, whole.mantissa);
    let (below, exponent) = split_exponent(fraction.rest)?;
    let count = whole.count + fraction.count;
    if count == 0 {
        return None;
    }
    Some(Spelled {
        negative,
        mantissa: fraction.mantissa,
        count,
        fraction: fraction.count,
        below,
        exponent,
    })
}

// whether there is a minus in front, and what follows the sign
#[inline(always)]
pub(crate) fn split_sign(bytes: &[u8]) -> (bool, &[u8])
    ensures sign { result.0 ≡ is_minus (sign_of bytes.now) }
    ensures rest { result.1.now ≡ behind_sign bytes.now }
{
    match bytes {
        [b'-', rest @ ..] => (true, rest),
        [b'+', rest @ ..] => (false, rest),
        _ => (false, bytes),
    }
}

// the digits in front, taken after the mantissa
fn split_digits(bytes: &[u8], before: Mantissa) -> Run
    requires { before.zeros + length bytes.now < 2 ^ 64 }
    ensures mantissa { result.mantissa ≡ with_digits before (leading_digits bytes.now) }
    ensures count { result.count ≡ length (leading_digits bytes.now) }
    ensures rest { result.rest.now ≡ behind_digits bytes.now }
    ensures zeros { result.mantissa.zeros ≤ before.zeros + result.count }
    ensures len { result.count + length result.rest.now ≡ length bytes.now }
{
    let mut mantissa = before;
    let mut count = 0;
    for byte in bytes {
        if !byte.is_ascii_digit() {
            break;
        }
        mantissa = mantissa.with_digit(*byte - b'0');
        count += 1;
    }
    Run {
        mantissa,
        count,
        rest: rest_of(bytes, count),
    }
}

// the digits after a period in front, if there is one
fn split_fraction(bytes: &[u8], before: Mantissa) -> Run
    requires { before.zeros + length bytes.now < 2 ^ 64 }
    ensures mantissa { result.mantissa ≡ with_digits before (fraction_digits (fraction_of bytes.now)) }
    ensures count { result.count ≡ length (fraction_digits (fraction_of bytes.now)) }
    ensures rest { result.rest.now ≡ behind_fraction bytes.now }
    ensures zeros { result.mantissa.zeros ≤ before.zeros + result.count }
    ensures len { result.count ≤ length bytes.now }
{
    match bytes {
        [b'.', rest @ ..] => split_digits(rest, before),
        _ => Run {
            mantissa: before,
            count: 0,
            rest: bytes,
        },
    }
}

// Whether a minus is before an exponent's digits, and these, none where nothing is here; None where anything else is.
fn split_exponent(bytes: &[u8]) -> Option<(bool, &[u8])>
    ensures { MatchOption result (¬ (IsExponentWhole bytes.now))
        (λ e. IsExponentWhole bytes.now × IsExponentCut bytes.now e.0 e.1.now) }
{
    match bytes {
        [] => Some((false, bytes)),
        [b'E' | b'e', signed @ ..] => {
            let (below, digits) = split_sign(signed);
            if digits.is_empty() || !are_digits(digits) {
                return None;
            }
            Some((below, digits))
        }
        _ => None,
    }
}

pub(crate) fn digits_len(bytes: &[u8]) -> usize
    ensures value { result ≡ prefix_len is_digit bytes.now }
    ensures bound { result ≤ length bytes.now }
{
    bytes
        .iter()
        .take_while(|byte| byte.is_ascii_digit())
        .count()
}

pub(crate) fn front_of(bytes: &[u8], to: usize) -> &[u8]
    requires { to ≤ length bytes.now }
    ensures { result.now ≡ take to bytes.now }
{
    &bytes[..to]
}

#[inline(always)]
pub(crate) fn rest_of(bytes: &[u8], from: usize) -> &[u8]
    requires { from ≤ length bytes.now }
    ensures { result.now ≡ drop from bytes.now }
{
    &bytes[from..]
}
