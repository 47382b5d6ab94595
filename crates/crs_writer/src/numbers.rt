//! Numbers: as their bytes spell them, and whole ones.
ghost use Rattle.std.specs.Prelude.{◌≡◌, ◌++◌, OnOk, Some};
ghost use Rattle.crs_decimal.specs.Numbers.{plain, Value};
ghost use Rattle.crs_normal.specs.inner.SpelledItems.{whole_value};
ghost use Rattle.crs_writer.specs.inner.FromItems.{IsNumber, Writes};

use crate::texts::{append, write_decimal};
use crs_decimal::{Decimal, plain_of};
use itoa::Buffer;
use std::alloc::AllocError;

/// Appends the number that bytes spell, in its canonical spelling: most are in it already, but for a plus or zeros.
/// `AllocError`: there is no memory for it. Profile.
pub fn write_raw(out: &mut Vec<u8>, raw: &[u8]) -> Result<(), AllocError>
    ensures { OnOk result (Writes (IsNumber raw.now) plain out.old.items out.new.items) }
{
    crs_decimal::laws::plain_is_the_one();
    match plain_of(raw) {
        None => write_read(out, raw),
        Some(spelling) => append(out, spelling),
    }
}

/// The value of the number that bytes spell; None where they spell none. Profile.
pub fn decimal_of(raw: &[u8]) -> Option<Decimal>
    ensures { (value : Value) → IsNumber raw.now value → result ≡ Some value }
{
    crs_decimal::laws::denotes_one();
    match Decimal::parse(raw) {
        Ok(value) => Some(value),
        Err(_) => None,
    }
}

// A number as it is read. Bytes that spell none are copied.
fn write_read(out: &mut Vec<u8>, raw: &[u8]) -> Result<(), AllocError>
    ensures { OnOk result (Writes (IsNumber raw.now) plain out.old.items out.new.items) }
{
    match decimal_of(raw) {
        None => append(out, raw),
        Some(value) => write_decimal(out, &value),
    }
}

/// Appends a whole number. `AllocError`: there is no memory for it. Profile.
pub fn write_whole(out: &mut Vec<u8>, number: u64) -> Result<(), AllocError>
    ensures { OnOk result (out.new.items ≡ out.old.items ++ plain (whole_value number)) }
{
    let mut digits = Buffer::new();
    append(out, digits.format(number).as_bytes())
}
