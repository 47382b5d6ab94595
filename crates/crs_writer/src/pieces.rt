//! What `crs_canon` writes with. Out of memory, nothing is promised of a vector that is appended to.

pub use crate::canon_text::canon_from;
pub use crate::parts::Spell;
pub use crate::set::{gather, gather_all, write_set};
pub use crate::spelling::idents_and_units::write_bare_unit;
