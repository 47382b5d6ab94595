//! Refusals as C has them.
ghost use Rattle.std.specs.Prelude.{◌≡◌};
ghost use Rattle.crs_text.specs.Fault.{refusal_of};
ghost use Rattle.crs_c.specs.Refusals.{no_refusal, place_and_number};
ghost use Rattle.crs_c.specs.inner.Told.{IsTold};

use crate::calls::codes::NO_MEMORY;
use crs_text::{Fault, Refusal};

/// A refusal, `struct crsdesk_refusal` of C: the place of the fault, in bytes from the text's first, and the number.
#[repr(C)]
#[derive(Drop)]
pub struct Refused {
    /// The place.
    pub place: usize,
    /// The number: 1 to 8 of the text, 11 to 13 of a shape, 21 to 29 of a value.
    pub number: u32,
}

pub(crate) fn no_refusal() -> Refused
    ensures { result ≡ no_refusal }
{
    Refused {
        place: 0,
        number: 0,
    }
}

pub(crate) fn place_and_number(refusal: Refusal) -> Refused
    ensures { result ≡ place_and_number refusal }
{
    let (place, number) = (refusal.place(), u32::from(refusal.number()));
    Refused { place, number }
}

/// Answers the refusal in a fault, with this code, or out of memory.
pub fn tell(fault: Fault, code: u32, refused: &mut Refused) -> u32
    ensures { IsTold (refusal_of fault) code refused.old refused.new result }
{
    match fault.refusal() {
        Some(refusal) => {
            *refused = place_and_number(refusal);
            code
        }
        None => NO_MEMORY,
    }
}
