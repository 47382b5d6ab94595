//! Whole numbers in plain texts.
ghost use Rattle.std.specs.Prelude.{◌≡◌, ◌↔◌, ◌<◌, ◌^◌, ℕ, true};
ghost use Rattle.crs_decimal.specs.Numbers.{SameNumber, whole_number, Value, IsNormal, exact};
ghost use Rattle.crs_normal.specs.inner.SpelledCrs.{is_number};

use crs_decimal::laws::{one_form, plain_is_the_one, same_number_is_equivalence};

/// A normal value is a whole number of at most 64 bits exactly where its plain spelling is that number's digits. Profile.
pub fn whole_numbers_are_tested()
    ensures { (value : Value) (number : ℕ) → IsNormal value → number < 2 ^ 64 →
        (is_number value number ≡ true) ↔ SameNumber (exact value) (whole_number number) }
{
    one_form();
    plain_is_the_one();
    same_number_is_equivalence();
}
