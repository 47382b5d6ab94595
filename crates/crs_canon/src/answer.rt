//! The canonical text of a CRS.
ghost use Rattle.std.specs.Prelude.{◌≡◌, IfOk};
ghost use Rattle.crs_writer.specs.Canonical.{IsCanonicalText};

use crs_value::laws::crs_is_sound;
use crs_value::{Crs, Level};
use crs_writer::Canon;
use crs_writer::laws::crss_are_canonical;
use crs_writer::pieces::{Spell, canon_from};
use std::alloc::{AllocError, Global};

// The room that is taken at first for the text of a CRS whose source isn't known.
const ROOM: usize = 1024;

/// The canonical text of a CRS at a level: it is normal and accepted. `AllocError`: there is no memory for it. Profile.
pub fn canon_of(alloc: Global, crs: &Crs<'_>, level: Level) -> Result<Canon, AllocError>
    ensures text { IfOk result (λ canon. IsCanonicalText level crs.now canon.bytes) }
    ensures level { IfOk result (λ canon. canon.level ≡ level) }
{
    crs_is_sound(crs);
    crss_are_canonical();
    let mut bytes = Vec::with_capacity(alloc, ROOM)?;
    crs.spell(&mut bytes, level)?;
    Ok(canon_from(bytes, level).without_spare_room())
}
