ghost use Rattle.std.specs.Prelude.{◌≡◌, ℕ, MatchOption, ◌≢◌, ◌==◌, ◌%◌, ◌^◌, ◌<◌, ◌↔◌, IsTrue};
ghost use Rattle.crs_decimal.specs.Numbers.{SameNumber, whole_number, IsNormal, exact, is_power, zero};

use crate::laws;
use crate::mantissa::scaled;
use std::marker::Model;

/// An exact number, `digits * 10^power`, in its normal form: at most 38 digits, the last not a
/// zero, and a power from -40 to 40; zero has neither sign nor power. Profile.
#[derive(Clone, Copy, PartialEq, Eq, Debug)]
pub struct Decimal {
    digits: u128,
    // `Decimal` has no padding: a struct with padding is copied by overlapping loads, which stall on store forwarding.
    power: i64,
    // 1 below zero, 0 elsewhere
    sign: u64,
}

impl Model for Decimal {
    ghost use Rattle.std.specs.Prelude.{◌<◌, ◌==◌};
    ghost use Rattle.std.specs.Int.{from_bool};
    ghost use Rattle.crs_decimal.specs.Numbers.{IsNormal};
    ghost use Rattle.crs_decimal.specs.Numbers as value;
    ghost use Rattle.crs_decimal.specs.inner.Sign.{sign_back};

    ghost Value = { value.Value };

    ghost view = { λ d. record { negative = d.sign == 1; digits = d.digits; power = d.power } };

    ghost invariant = { λ d. (d.sign < 2) × IsNormal (view d) };

    ghost inverse = { λ v. record { digits = v.digits; power = v.power; sign = from_bool v.negative } };

    ghost inverse_ok = { λ d h i. record { digits = d.digits; power = d.power; sign = sign_back d.sign h.0 i } };
}

impl Decimal {
    /// The number 0.
    pub fn zero() -> Decimal
        ensures value { result ≡ zero }
        ensures normal { IsNormal result }
    {
        Decimal {
            digits: 0,
            power: 0,
            sign: 0,
        }
    }

    pub(crate) fn new(negative: bool, digits: u128, power: i32) -> Decimal
        requires limit { digits < 10 ^ 38 }
        requires last { digits % 10 ≢ 0 }
        requires power { IsTrue (is_power power) }
        ensures negative { result.negative ≡ negative }
        ensures digits { result.digits ≡ digits }
        ensures power { result.power ≡ power }
        ensures normal { IsNormal result }
    {
        Decimal {
            digits,
            power: i64::from(power),
            sign: u64::from(negative),
        }
    }

    // This number, built anew. Where one of two ways leaves its number in registers and the other in memory, the
    // compiler merges them in memory, and a load from there stalls on store forwarding; if the number is built
    // anew, it merges the fields instead.
    #[inline(always)]
    pub(crate) fn rebuilt(self) -> Decimal
        ensures { result ≡ self }
    {
        Decimal {
            digits: self.digits,
            power: self.power,
            sign: self.sign,
        }
    }

    /// Whether the number is below zero.
    pub fn is_negative(&self) -> bool
        ensures value { result ≡ self.now.negative }
        ensures normal { IsNormal self.now }
    {
        self.sign == 1
    }

    /// Whether the number is zero.
    pub fn is_zero(&self) -> bool
        ensures value { result ≡ (self.now.digits == 0) }
        ensures normal { IsNormal self.now }
    {
        self.digits == 0
    }

    /// The digits without sign and closing zeros, as one whole number.
    pub fn digits(&self) -> u128
        ensures value { result ≡ self.now.digits }
        ensures normal { IsNormal self.now }
    {
        self.digits
    }

    /// The power of ten that the digits are multiplied by.
    pub fn power(&self) -> i32
        ensures value { result ≡ self.now.power }
        ensures normal { IsNormal self.now }
    {
        self.power as i32
    }

    /// Whether this and the other are the same number; `==` agrees.
    pub fn same_number(&self, other: &Decimal) -> bool
        ensures { IsTrue result ↔ SameNumber (exact self.now) (exact other.now) }
    {
        let _normal = (self.is_negative(), other.is_negative());
        self == other
    }

    /// The number as a `u64`; None where it is negative, not whole or above the largest `u64`.
    pub fn whole(&self) -> Option<u64>
        ensures { MatchOption result ((n : ℕ) → n < 2 ^ 64 → ¬ (SameNumber (exact self.now) (whole_number n)))
            (λ n. SameNumber (exact self.now) (whole_number n)) }
    {
        if self.is_negative() || self.power() < 0 {
            return None;
        }
        u64::try_from(scaled(self.digits(), self.power() as usize)?).ok()
    }

    /// Whether this is that whole number.
    pub fn is_whole(&self, number: u64) -> bool
        ensures { IsTrue result ↔ SameNumber (exact self.now) (whole_number number) }
    {
        laws::same_number_is_equivalence();
        match self.whole() {
            None => false,
            Some(whole) => whole == number,
        }
    }
}
