//! Nodes that are compared and written by themselves.
ghost use Rattle.std.specs.Prelude.{◌↔◌, ℕ, IsTrue, List};
ghost use Rattle.crs_value.specs.declared.values.level.Level.{Level};
ghost use Rattle.crs_normal.specs.CanonicalForm.{IsCanonicalForm};
ghost use Rattle.crs_canon.specs.Appended.{AppendsOrNothing};

use crs_value::Level;
use crs_writer::pieces::Spell;
use std::alloc::{AllocError, Global};

/// A node of a CRS, or a CRS, compared and written by itself, at a level: identifiers and usages alike at every level,
/// units and axes with `UNIT` as a kind of its own, axes with the order and unit that they hold. Profile.
pub trait Canonical: Spell {
    /// What is asked of every value of the type.
    ghost IsValue: { Self → Type 0 };

    /// When two values are the same.
    ghost Same: { Level → Self → Self → Type 0 };

    /// That bytes are the one spelling of a value: a text of its kind, accepted and normal, of a same value.
    ghost IsSpelling: { Level → Self → List ℕ → Type 0 };

    /// Whether two values are the same.
    fn same(&self, other: &Self, level: Level) -> bool
        ensures { IsTrue result ↔ Same level self.now other.now };

    /// Appends the one spelling of the value. `AllocError`: there is no memory for it, and `out` is as before.
    fn write(&self, alloc: Global, level: Level, out: &mut Vec<u8>) -> Result<(), AllocError>
        ensures { AppendsOrNothing result (IsSpelling level self.now) out.old.items out.new.items }
    {
        self.laws();
        let mut text = Vec::new(alloc);
        self.spell(&mut text, level)?;
        out.extend_from_slice(text.as_slice())
    }

    /// The law of the type: its spellings are normal and one, they are equal, byte for byte, exactly where the values
    /// are the same, and each is closed; this is such a value; and `spell` appends the spelling. The call does nothing.
    fn laws(&self)
        ensures value { IsValue self.now }
        ensures form { (level : Level) → IsCanonicalForm IsValue (Same level) (IsSpelling level) }
        ensures written { (level : Level) (value : Self) → IsValue value → IsSpelling level value (Self.spelling level value) };
}
