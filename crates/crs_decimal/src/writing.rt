ghost use Rattle.std.specs.Prelude.{◌≡◌, suc, IsTrue, ◌+◌, ◌≤◌, ◌++◌, length, replicate, MatchResult};
ghost use Rattle.arrayvec.specs.ArrayVec.{array_vec_len};
ghost use Rattle.crs_decimal.specs.Numbers.{AppendsPlain, scaled, with_period, padded, IsNormal, is_power};

use crate::decimal::Decimal;
use arrayvec::ArrayVec;
use itoa::Buffer;
use std::alloc::AllocError;

impl Decimal {
    /// Appends the plain spelling: no exponent, no plus sign, no needless zero. Nothing is rounded. Profile.
    ///
    /// `AllocError`: there is no memory for it, and `out` is as before.
    pub fn write(&self, out: &mut Vec<u8>) -> Result<(), AllocError>
        ensures spelled { MatchResult result (λ _. AppendsPlain self.now out.old.items out.new.items)
            (λ _. out.new.items ≡ out.old.items) }
        ensures normal { IsNormal self.now }
    {
        let mut text = Text::new();
        if self.is_negative() {
            text.push(b'-');
        }
        let mut buffer = Buffer::new();
        let digits = buffer.format(self.digits()).as_bytes();
        push_scaled(&mut text, digits, self.power());
        out.extend_from_slice(text.as_slice())
    }
}

// the longest plain spelling: a sign, 38 digits and 40 zeros
const LONGEST: usize = 79;

type Text = ArrayVec<u8, LONGEST>;

fn push_all(text: &mut Text, bytes: &[u8])
    requires { array_vec_len text.old + length bytes.now ≤ 79 }
    ensures { text.new.items ≡ text.old.items ++ bytes.now }
{
    text.try_extend_from_slice(bytes).unwrap();
}

fn push_zeros(text: &mut Text, count: usize)
    requires { array_vec_len text.old + count ≤ 79 }
    ensures { text.new.items ≡ text.old.items ++ replicate count 48 }
{
    for _step in 0..count {
        text.push(b'0');
    }
}

// the digits times ten to the power
fn push_scaled(text: &mut Text, digits: &[u8], power: i32)
    requires room { array_vec_len text.old ≤ 1 }
    requires digits { length digits.now ≤ 38 }
    requires power { IsTrue (is_power power) }
    ensures { text.new.items ≡ text.old.items ++ scaled digits.now power }
{
    if power >= 0 {
        push_all(text, digits);
        push_zeros(text, power as usize);
    } else {
        push_with_period(text, digits, power.unsigned_abs() as usize);
    }
}

// the digits with a period before the last `places` of them, and zeros in front where they are few
fn push_with_period(text: &mut Text, digits: &[u8], places: usize)
    requires digits { array_vec_len text.old + length digits.now + 1 ≤ 79 }
    requires places { array_vec_len text.old + places + 2 ≤ 79 }
    ensures { text.new.items ≡ text.old.items ++ with_period places (padded (suc places) digits.now) }
{
    if digits.len() > places {
        let (whole, fraction) = digits.split_at(digits.len() - places);
        push_all(text, whole);
        text.push(b'.');
        push_all(text, fraction);
    } else {
        push_all(text, b"0.");
        push_zeros(text, places - digits.len());
        push_all(text, digits);
    }
}
