ghost use Rattle.std.specs.Prelude.{◌≡◌, ◌+◌, ◌<◌, ◌≤◌, length, if◌then◌else◌, MatchOption, MatchResult};
ghost use Rattle.crs_decimal.specs.Numbers.{digits_value, IsBounded, number_of, Denotes, Parts, AreDigits, mantissa, SameNumber, IsNormal, exact};
ghost use Rattle.crs_decimal.specs.inner.Cut.{IsCut, IsFar, IsPowerBetween};
ghost use Rattle.crs_decimal.specs.Fault.{IsFault};

use crate::cutting::{Spelled, read};
use crate::decimal::Decimal;
use crate::fault::NumberFault;
use crate::short::{read_short, small_power};

impl Decimal {
    /// Reads a number, `[sign] (digits [. [digits]] | . digits) [E [sign] digits]`, with `e` for
    /// `E` as well. ISO 19162:2019, "Numbers"; the bounds are the profile's.
    ///
    /// `Malformed`: the bytes don't have that form. `Range`: they have it, but more than 100 mantissa or 3 exponent
    /// digits are written, or the number isn't zero and has more than 38 digits from the first to the last that isn't
    /// zero, or those times a power of ten that isn't from -40 to 40.
    #[inline(always)]
    pub fn parse(bytes: &[u8]) -> Result<Decimal, NumberFault>
        ensures { MatchResult result (λ d. IsNormal d × Denotes bytes.now (exact d)) (IsFault bytes.now) }
    {
        match read_short(bytes) {
            Some(number) => Ok(number.decimal()),
            None => Ok(parse_any(bytes)?.rebuilt()),
        }
    }
}

// the number that the bytes spell, short or not
#[inline(never)]
fn parse_any(bytes: &[u8]) -> Result<Decimal, NumberFault>
    ensures { MatchResult result (λ d. IsNormal d × Denotes bytes.now (exact d)) (IsFault bytes.now) }
{
    match read(bytes) {
        None => Err(NumberFault::Malformed),
        Some(spelled) => spelled.decimal().ok_or(NumberFault::Range),
    }
}

impl Spelled<'_> {
    // the number, if it is in bounds
    fn decimal(&self) -> Option<Decimal>
        requires zeros { self.now.mantissa.zeros ≤ self.now.count }
        requires fraction { self.now.fraction ≤ self.now.count }
        requires digits { AreDigits self.now.exponent.now }
        requires cut { (p : Parts) × IsCut p self.now × AreDigits (mantissa p) }
        ensures { (p : Parts) → IsCut p self.now → AreDigits (mantissa p) → MatchOption result (¬ (IsBounded p))
            (λ d. IsNormal d × IsBounded p × SameNumber (number_of p) (exact d)) }
    {
        if self.count > 100 || self.exponent.len() > 3 || self.mantissa.is_long {
            return None;
        }
        if self.mantissa.digits == 0 {
            return Some(Decimal::zero());
        }
        let (up, down) = self.exponent_powers();
        match power_between(up + self.mantissa.zeros, down + self.fraction) {
            None => None,
            Some(power) => Some(Decimal::new(self.negative, self.mantissa.digits, power)),
        }
    }

    // the powers of ten that the exponent means, above and below
    fn exponent_powers(&self) -> (usize, usize)
        requires digits { AreDigits self.now.exponent.now }
        requires few { length self.now.exponent.now ≤ 3 }
        ensures up { result.0 ≡ (if self.now.below then 0 else digits_value self.now.exponent.now) }
        ensures down { result.1 ≡ (if self.now.below then digits_value self.now.exponent.now else 0) }
        ensures small { (result.0 < 1000) × (result.1 < 1000) }
    {
        let size = exponent_value(self.exponent);
        if self.below { (0, size) } else { (size, 0) }
    }
}

// the number that at most three digits spell
fn exponent_value(digits: &[u8]) -> usize
    requires digits { AreDigits digits.now }
    requires few { length digits.now ≤ 3 }
    ensures value { result ≡ digits_value digits.now }
    ensures small { result < 1000 }
{
    let mut value = 0;
    for digit in digits {
        value = value * 10 + usize::from(*digit - b'0');
    }
    value
}

// the power of ten that is 10^up / 10^down; None where it isn't from -40 to 40
fn power_between(up: usize, down: usize) -> Option<i32>
    ensures { MatchOption result (IsFar up down) (IsPowerBetween up down) }
{
    if up.abs_diff(down) > 40 {
        return None;
    }
    Some(small_power(up, down))
}
