//! The laws of values: calls that do nothing, and whose contracts are the laws.
ghost use Rattle.std.specs.Prelude.{◌≡◌, ◌≤◌, ◌⊎◌, ℕ, List, length};
ghost use Rattle.crs_text.specs.Items.{Item};
ghost use Rattle.crs_text.specs.Refusal.{RefusedAt};
ghost use Rattle.crs_text.specs.Written.{AreFormed};
ghost use Rattle.crs_value.specs.declared.values.crs.Crs.{Crs};
ghost use Rattle.crs_value.specs.Reads.{ReadsIdent, ReadsUnit, ReadsMember, ReadsExtent, ReadsUsage, ReadsParameter, ReadsGeoidModel};
ghost use Rattle.crs_value.specs.SoundCrs.{IsCrs};
ghost use Rattle.crs_value.specs.Spells.{SpellsCrs, RefusesCrs, Spells, Refuses, IsRefusalNumber};
ghost use Rattle.crs_value.specs.inner.ReadOnce.{IsReadOnce};

pub mod parts;

use crate::values::crs::Crs;

/// An item spells one value at most. Profile.
pub fn spells_one()
    ensures { (item : Item) (a b : Crs) → SpellsCrs item a → SpellsCrs item b → a ≡ b }
{
    crs_decimal::laws::denotes_one();
}

/// An item is read as one identifier at most, whatever its class; likewise members of sets and their parts. Profile.
pub fn members_read_once()
    ensures ident { IsReadOnce ReadsIdent }
    ensures unit { IsReadOnce ReadsUnit }
    ensures member { IsReadOnce ReadsMember }
    ensures parameter { IsReadOnce ReadsParameter }
    ensures geoid_model { IsReadOnce ReadsGeoidModel }
    ensures extent { IsReadOnce ReadsExtent }
    ensures usage { IsReadOnce ReadsUsage }
{
    crs_decimal::laws::denotes_one();
}

/// An item that spells a value isn't refused. Profile.
pub fn spelled_or_refused()
    ensures { (item : Item) (value : Crs) (fault : RefusedAt) → SpellsCrs item value → ¬ (RefusesCrs item fault) }
{}

/// An item is refused with one number at one place at most. Profile.
pub fn refused_once()
    ensures { (item : Item) (a b : RefusedAt) → RefusesCrs item a → RefusesCrs item b → a ≡ b }
{
    crs_shape::laws::fault_at_root_is_one();
}

/// A text spells one value at most, or is refused with one number at one place at most, and never both. Profile.
pub fn one_answer()
    ensures value { (text : List ℕ) (a b : Crs) → Spells text a → Spells text b → a ≡ b }
    ensures refusal { (text : List ℕ) (a b : RefusedAt) → Refuses text a → Refuses text b → a ≡ b }
    ensures apart { (text : List ℕ) (value : Crs) (fault : RefusedAt) → Spells text value → ¬ (Refuses text fault) }

    // A refusal has a number from 1 to 8, 11 to 13 or 21 to 29, and a place in the text or at its end.
    ensures within { (text : List ℕ) (fault : RefusedAt) → Refuses text fault → IsRefusalNumber fault.number ×
        (fault.place ≤ length text) }

    // Each list of bytes is one or the other.
    ensures either { (text : List ℕ) → ((value : Crs) × Spells text value)
        ⊎ ((fault : RefusedAt) × Refuses text fault) }
{
    crs_text::laws::one_answer();
    crs_text::laws::written_items();
    crs_decimal::laws::denotes_one();
    crs_decimal::laws::denotes_some();
    crs_shape::laws::fault_at_root_is_one();
    crs_shape::laws::fault_is_within();
    crs_shape::laws::no_fault_is_shape();
    crs_shape::laws::slots_count();
}

/// A value that a well-formed item spells meets all that is asked of a CRS: its texts are well formed,
/// its decimals are in their normal form and within their bounds, its axes and units fit. Profile.
pub fn spelled_is_sound()
    ensures { (item : Item) (value : Crs) → AreFormed item → SpellsCrs item value → IsCrs value }
{
    crs_shape::laws::no_fault_is_shape();
    crs_shape::laws::slots_count();
}

/// Every CRS, also one made by hand, meets all that is asked of one. Profile.
pub fn crs_is_sound(crs: &Crs<'_>)
    ensures { IsCrs crs.now }
{
    let _name = match crs {
        Crs::Geodetic(geodetic) => geodetic.name,
        Crs::Projected(projected) => projected.name,
        Crs::Vertical(vertical) => vertical.name,
        Crs::Compound(compound) => compound.name,
    };
}
