ghost use Rattle.std.specs.Prelude.{◌≡◌, ◌+◌, ◌<◌, ◌≤◌, ◌*◌, ◌^◌, if◌then◌else◌, Option, Some, None};
ghost use Rattle.crs_decimal.specs.inner.Mantissa.{no_digits, with_digit, fits};

/// Digits read so far, `digits * 10^zeros`; where they don't fit 38 digits only that is known.
#[derive(Clone, Copy)]
pub(crate) struct Mantissa {
    pub(crate) digits: u128,
    pub(crate) zeros: usize,
    pub(crate) is_long: bool,
}

const LIMIT: u128 = 100_000_000_000_000_000_000_000_000_000_000_000_000;

impl Mantissa {
    pub(crate) fn new() -> Self
        ensures { result ≡ no_digits }
    {
        Mantissa {
            digits: 0,
            zeros: 0,
            is_long: false,
        }
    }

    pub(crate) fn with_digit(self, digit: u8) -> Self
        requires digit { digit < 10 }
        requires room { self.zeros + 1 < 2 ^ 64 }
        ensures value { result ≡ with_digit self digit }
        ensures zeros { result.zeros ≤ self.zeros + 1 }
    {
        if digit == 0 {
            if self.digits == 0 {
                return self;
            }
            return Mantissa {
                zeros: self.zeros + 1,
                ..self
            };
        }
        match scaled(self.digits, self.zeros + 1) {
            Some(digits) => Mantissa {
                digits: digits + u128::from(digit),
                zeros: 0,
                ..self
            },
            None => Mantissa {
                is_long: true,
                ..self
            },
        }
    }
}

// digits * 10^zeros, where that has at most 38 digits
pub(crate) fn scaled(digits: u128, zeros: usize) -> Option<u128>
    ensures { result ≡ if fits digits zeros then Some (digits * 10 ^ zeros) else None }
{
    let mut product = digits;
    for _step in 0..zeros {
        if product >= LIMIT / 10 {
            return None;
        }
        product *= 10;
    }
    if product < LIMIT { Some(product) } else { None }
}
