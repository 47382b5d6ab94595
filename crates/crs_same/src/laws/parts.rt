//! Laws of the definitions, as contracts of functions that do nothing.
ghost use Rattle.std.specs.Prelude.{length};
ghost use Rattle.crs_shape.specs.declared.unit_kind.UnitKind.{UnitKind};
ghost use Rattle.crs_value.specs.declared.values.level.Level.{Level};
ghost use Rattle.crs_same.specs.Sameness.{IsSameness};
ghost use Rattle.crs_same.specs.SameParts.{SameParameter, SameGeoidModel, SameDeformationModel, SameMember, SameAxisMeridian, SameAxisAlone, SameValue, SameUnit, SameLength, SameBox, SameExtent, SameUsage};
ghost use Rattle.crs_same.specs.SameIdents.{SameIdent, SameIdents};

use crs_decimal::laws;

/// Being the same number is an equivalence on decimals.
pub fn same_value_is_equivalence()
    ensures { IsSameness SameValue }
{
    laws::same_number_is_equivalence();
}

/// Sameness of identifiers is an equivalence.
pub fn same_ident_is_equivalence()
    ensures { IsSameness SameIdent }
{}

/// Sameness of sets of identifiers is an equivalence.
pub fn same_idents_is_equivalence()
    ensures { (level : Level) → IsSameness (SameIdents level) }
{
    same_ident_is_equivalence();
}

/// Sameness of units is an equivalence, whichever kind is asked.
pub fn same_unit_is_equivalence()
    ensures { (asked : UnitKind) (level : Level) → IsSameness (SameUnit asked level) }
{
    same_value_is_equivalence();
    same_idents_is_equivalence();
}

/// Sameness of units of length, a missing one being the metre, is an equivalence.
pub fn same_length_is_equivalence()
    ensures { (level : Level) → IsSameness (SameLength level) }
{
    same_unit_is_equivalence();
}

/// Sameness of parameters is an equivalence.
pub fn same_parameter_is_equivalence()
    ensures { (level : Level) → IsSameness (SameParameter level) }
{
    same_value_is_equivalence();
    same_unit_is_equivalence();
    same_idents_is_equivalence();
}

/// Sameness of each other kind of part is an equivalence.
pub fn same_part_is_equivalence()
    ensures geoid_model { (level : Level) → IsSameness (SameGeoidModel level) }
    ensures deformation_model { (level : Level) → IsSameness (SameDeformationModel level) }
    ensures member { (level : Level) → IsSameness (SameMember level) }
    ensures bounding_box { IsSameness SameBox }
    ensures extent { (level : Level) → IsSameness (SameExtent level) }
    ensures usage { IsSameness SameUsage }
    ensures axis_meridian { (level : Level) → IsSameness (SameAxisMeridian level) }
    ensures axis { (level : Level) → IsSameness (SameAxisAlone level) }
{
    same_value_is_equivalence();
    same_length_is_equivalence();
    same_unit_is_equivalence();
    same_idents_is_equivalence();
}
