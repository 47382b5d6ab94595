//! Spellings that are plain, or that have a plain part.
ghost use Rattle.std.specs.Prelude.{◌≡◌, ◌≢◌, ◌<◌, ◌≤◌, ◌∷◌, ◌+◌, ◌-◌, ◌==◌, ◌++◌, if◌then◌else◌, IfSome, IsTrue};
ghost use Rattle.std.specs.Prelude.{length, take, replicate, slice_index_or};
ghost use Rattle.std.specs.List.{list_all};
ghost use Rattle.crs_decimal.specs.Numbers.{Denotes, is_digit, Number, IsPlain, IsTrim};
ghost use Rattle.crs_decimal.specs.inner.PlainBytes.{IsUnsigned};

use crate::cutting::{digits_len, front_of, rest_of};

/// Whether all bytes are digits.
#[inline]
pub fn are_digits(raw: &[u8]) -> bool
    ensures { result ≡ list_all is_digit raw.now }
{
    raw.iter().all(|byte| byte.is_ascii_digit())
}

// Whether digits begin with no zero, or are one zero alone.
fn begins_trim(digits: &[u8]) -> bool
    ensures { IsTrue result → IsTrim digits.now }
{
    match digits {
        [] => false,
        [_] => true,
        [first, ..] => *first != b'0',
    }
}

// How long a fraction is without the zeros at its end.
fn kept_len(fraction: &[u8]) -> usize
    ensures bound { result ≤ length fraction.now }
    ensures zeros { fraction.now ≡ take result fraction.now ++ replicate (length fraction.now - result) 48 }
    ensures ends { 0 < result → slice_index_or fraction.now (result - 1) 0 ≢ 48 }
{
    let mut end = fraction.len();
    while end > 0 && fraction[end - 1] == b'0' {
        end -= 1;
    }
    end
}

// The plain spelling of the number that these bytes spell, which have no sign, where a quick test finds it: these
// bytes, or these without the zeros at the end of a fraction.
fn unsigned_plain(raw: &[u8]) -> Option<&[u8]>
    ensures plain { IfSome result (λ part. IsUnsigned part.now) }
    ensures same { IfSome result (λ part. (number : Number) → Denotes raw.now number → Denotes part.now number) }
    ensures whole { IfSome result (λ part. length part.now ≡ length raw.now → part.now ≡ raw.now) }
{
    let count = digits_len(raw);
    if !begins_trim(front_of(raw, count)) {
        return None;
    }
    match rest_of(raw, count) {
        [] => Some(raw),
        [b'.', fraction @ ..] if are_digits(fraction) => {
            let kept = kept_len(fraction);
            let behind = if kept == 0 { 0 } else { 1 + kept };
            Some(front_of(raw, count + behind))
        }
        _ => None,
    }
}

// Whether these bytes are a plain spelling without a sign.
fn is_unsigned(raw: &[u8]) -> bool
    ensures { IsTrue result → IsUnsigned raw.now }
{
    matches!(unsigned_plain(raw), Some(part) if part.len() == raw.len())
}

// Whether these bytes, of which there are several, are a plain spelling behind a minus.
fn is_below_zero(rest: &[u8]) -> bool
    ensures { IsTrue result → IsPlain (45 ∷ rest.now) }
{
    rest.len() > 1 && is_unsigned(rest)
}

/// Whether these bytes are a plain spelling, by a quick test that some plain spellings fail. Profile.
#[inline]
pub fn is_plain(raw: &[u8]) -> bool
    ensures { IsTrue result → IsPlain raw.now }
{
    match raw {
        [b'-', rest @ ..] => is_below_zero(rest),
        _ => is_unsigned(raw),
    }
}

/// The plain spelling of the number that these bytes spell, where a quick test finds it as a part of them. Profile.
pub fn plain_of(raw: &[u8]) -> Option<&[u8]>
    ensures plain { IfSome result (λ part. IsPlain part.now) }
    ensures same { IfSome result (λ part. (number : Number) → Denotes raw.now number → Denotes part.now number) }
{
    match raw {
        [b'+', rest @ ..] => unsigned_plain(rest),
        [b'-', rest @ ..] => { if is_below_zero(rest) { Some(raw) } else { None } }
        _ => unsigned_plain(raw),
    }
}
