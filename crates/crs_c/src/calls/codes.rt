//! Codes, kinds and levels as C has them.
ghost use Rattle.std.specs.Prelude.{◌≡◌};
ghost use Rattle.crs_c.specs.Codes.{kind_number, level_numbered};

use crs_value::{Kind, Level};

/// There is an answer.
pub const OK: u32 = 0;

/// A text is refused, the first of two.
pub const REFUSED: u32 = 1;

pub(crate) const SECOND_REFUSED: u32 = 2;

/// Memory was refused.
pub const NO_MEMORY: u32 = 3;

/// There is no such level.
pub const NO_LEVEL: u32 = 4;

pub(crate) const NO_ROOM: u32 = 5;

/// There is nothing of this number.
pub const NO_NUMBER: u32 = 6;

/// The number by which C knows a kind of CRS.
pub fn kind_number(kind: Kind) -> u32
    ensures { result ≡ kind_number kind }
{
    match kind {
        Kind::Geodetic => 1,
        Kind::Geographic => 2,
        Kind::Projected => 3,
        Kind::Vertical => 4,
        Kind::Compound => 5,
    }
}

/// The level of this number.
pub fn level_numbered(number: u32) -> Option<Level>
    ensures { result ≡ level_numbered number }
{
    match number {
        0 => Some(Level::Full),
        1 => Some(Level::Definition),
        _ => None,
    }
}
