//! The names of refusals, and the version.
ghost use Rattle.crs_c.specs.Buffers.{IsGiven};
ghost use Rattle.crs_c.specs.Names.{IsNameAnswer, version};

use crate::{NO_NUMBER, give};
use crs_text::Refusal;

/// The name of a refusal's number.
///
/// 0: it is at the front of `out`; `length` is its number of bytes. 5: `out` has less room; `length` is their number. 6:
/// no refusal has this number. What a code doesn't mention is as before.
#[unsafe(no_mangle)]
#[tactic(auto, unfolding(crate::specs::Names::IsNameAnswer))]
pub extern "C" fn crsdesk_refusal_name(number: u32, out: &mut [u8], length: &mut usize) -> u32
    ensures { IsNameAnswer number
        (record { items = out.old; told = length.old })
        (record { items = out.new; told = length.new })
        result }
{
    match u8::try_from(number) {
        Ok(number) => match Refusal::new(number, 0) {
            Some(refusal) => give(refusal.name().as_bytes(), out, length),
            None => NO_NUMBER,
        },
        Err(_) => NO_NUMBER,
    }
}

/// The version of the library.
///
/// 0: it is at the front of `out`; `length` is its number of bytes. 5: `out` has less room; `length` is their number.
#[unsafe(no_mangle)]
pub extern "C" fn crsdesk_version(out: &mut [u8], length: &mut usize) -> u32
    ensures { IsGiven version
        (record { items = out.old; told = length.old })
        (record { items = out.new; told = length.new })
        result }
{
    give(b"0.3.0", out, length)
}
