ghost use Rattle.std.specs.Prelude.{◌≡◌, ◌++◌, OnErr, OnOk};
ghost use Rattle.std.specs.List.{flat_map};
ghost use Rattle.crs_text.specs.Refusal.{refused_text};

use crs_text::Refusal;
use itoa::Buffer;
use std::alloc::AllocError;

/// Appends `refused N NAME at P`. `AllocError`: there is no memory for it, and `out` is as before.
pub fn append_refusal(out: &mut Vec<u8>, refusal: Refusal) -> Result<(), AllocError>
    ensures ok { OnOk result (out.new.items ≡ out.old.items ++ refused_text refusal.number refusal.place) }
    ensures unchanged { OnErr result (out.new.items ≡ out.old.items) }
{
    let mut number = Buffer::new();
    let mut place = Buffer::new();
    append_all(
        out,
        &[
            b"refused ",
            number.format(refusal.number()).as_bytes(),
            b" ",
            refusal.name().as_bytes(),
            b" at ",
            place.format(refusal.place()).as_bytes(),
        ],
    )
}

// Appends the parts one after the other. Out of memory, nothing is appended.
fn append_all(out: &mut Vec<u8>, parts: &[&[u8]]) -> Result<(), AllocError>
    ensures ok { OnOk result (out.new.items ≡ out.old.items ++ flat_map (λ part. part.now) parts.now) }
    ensures unchanged { OnErr result (out.new.items ≡ out.old.items) }
{
    let before = out.len();
    for part in parts {
        if let Err(error) = out.extend_from_slice(part) {
            out.truncate(before);
            return Err(error);
        }
    }
    Ok(())
}
