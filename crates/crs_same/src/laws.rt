//! Laws of the definitions, as contracts of functions that do nothing.
ghost use Rattle.std.specs.Prelude.{◌≡◌, ◌≤◌, ◌↔◌, ◌⊎◌, ◌∷◌, ℕ, ⊤, List, [], None, Option, Some, length, map};
ghost use Rattle.crs_shape.specs.Words.{asked_kind};
ghost use Rattle.crs_value.specs.declared.values.crs.Crs.{Crs};
ghost use Rattle.crs_value.specs.declared.values.level.Level.{Level};
ghost use Rattle.crs_value.specs.declared.values.level.Level.TheVariants as levels;
ghost use Rattle.crs_value.specs.SoundCompound.{IsCompound};
ghost use Rattle.crs_value.specs.SoundCrs.{IsCrs};
ghost use Rattle.crs_value.specs.SoundSingle.{IsGeodetic, IsProjected, IsVertical};
ghost use Rattle.crs_value.specs.Sound.{IsSystem, Each};
ghost use Rattle.crs_value.specs.Values.{AxisParts, SystemParts};
ghost use Rattle.crs_same.specs.declared.step.Step.{Step};
ghost use Rattle.crs_same.specs.declared.step.Step.TheVariants as step;
ghost use Rattle.crs_same.specs.Definition.{IsOfDefinition};
ghost use Rattle.crs_same.specs.inner.Agreement.{AgreeWhereSame};
ghost use Rattle.crs_same.specs.Parts.{parts_of_method, parts_of_conversion, parts_of_tail, parts_of_geodetic};
ghost use Rattle.crs_same.specs.Parts.{parts_of_base, parts_of_projected, parts_of_vertical, parts_of_horizontal};
ghost use Rattle.crs_same.specs.Parts.{parts_of_compound, FirstInCrs, DifferencesInCrs};
ghost use Rattle.crs_same.specs.Parts.{parts_of_ellipsoid, parts_of_given, parts_of_meridian, parts_of_datum, parts_of_ensemble, parts_of_frame};
ghost use Rattle.crs_same.specs.Parts.{parts_of_axis, parts_of_system, ◌▸◌, AreSame, DifferenceParts, First, exchanged};
ghost use Rattle.crs_same.specs.Paths.{path_text};
ghost use Rattle.crs_same.specs.Sameness.{IsSameness, IsSamenessOf};
ghost use Rattle.crs_same.specs.SameCrs.{SameCrs, SameDynamic, IsHorizontalPart};
ghost use Rattle.crs_same.specs.SameParts.{HasAt, SameValue};

pub mod parts;

pub use crate::laws::parts::{
    same_ident_is_equivalence, same_idents_is_equivalence, same_length_is_equivalence,
    same_parameter_is_equivalence, same_part_is_equivalence, same_unit_is_equivalence,
    same_value_is_equivalence,
};
use crs_decimal::laws;

/// Each position of a coordinate system, from 1 to the number of its axes, has one axis.
pub fn one_axis_each()
    ensures some { (system : SystemParts) → IsSystem system → (position : ℕ) → 1 ≤ position →
        position ≤ length system.axes → HasAt position (λ axis. ⊤) 1 system.axes }
    ensures one { (system : SystemParts) → IsSystem system → (position : ℕ) (x y : AxisParts) →
        HasAt position (λ axis. axis ≡ x) 1 system.axes → HasAt position (λ axis. axis ≡ y) 1 system.axes → x ≡ y }
{
    laws::same_number_is_equivalence();
    laws::normal_is_one();
}

/// Coordinate systems of one dimension have as many axes.
#[tactic(auto, unfolding(crate::specs::SameParts::SameValue))]
pub fn as_many_axes()
    ensures { (a b : SystemParts) → IsSystem a → IsSystem b → SameValue a.dimension b.dimension →
        length a.axes ≡ length b.axes }
{
    laws::same_number_is_equivalence();
}

/// All parts of two values are the same exactly where the values agree, field by field: proofs rest on this.
pub fn parts_agree_where_same()
    ensures { (level : Level) → AgreeWhereSame level }
{
    as_many_axes();
    one_axis_each();
}

// ---- sameness is an equivalence

/// Sameness of each kind of node is an equivalence. Of prime meridians also where a missing one is Greenwich.
pub fn same_node_is_equivalence()
    ensures method { (level : Level) → IsSameness (AreSame parts_of_method level) }
    ensures conversion { (level : Level) → IsSameness (AreSame parts_of_conversion level) }
    ensures tail { (level : Level) → IsSameness (AreSame parts_of_tail level) }
    ensures ellipsoid { (level : Level) → IsSameness (AreSame parts_of_ellipsoid level) }
    ensures given { (level : Level) → IsSameness (AreSame parts_of_given level) }
    ensures meridian { (level : Level) → IsSameness (AreSame parts_of_meridian level) }
    ensures datum { (level : Level) → IsSameness (AreSame parts_of_datum level) }
    ensures ensemble { (level : Level) → IsSameness (AreSame parts_of_ensemble level) }
    ensures frame { (level : Level) → IsSameness (AreSame parts_of_frame level) }
    ensures dynamic { (level : Level) → IsSameness (SameDynamic level) }
    ensures system { (level : Level) → IsSamenessOf IsSystem (AreSame parts_of_system level) }
    ensures base { (level : Level) → IsSameness (AreSame parts_of_base level) }
    ensures geodetic { (level : Level) → IsSamenessOf IsGeodetic (AreSame parts_of_geodetic level) }
    ensures projected { (level : Level) → IsSamenessOf IsProjected (AreSame parts_of_projected level) }
    ensures vertical { (level : Level) → IsSamenessOf IsVertical (AreSame parts_of_vertical level) }
    ensures horizontal { (level : Level) → IsSamenessOf IsHorizontalPart (AreSame parts_of_horizontal level) }
    ensures compound { (level : Level) → IsSamenessOf IsCompound (AreSame parts_of_compound level) }
{
    parts_agree_where_same();
    one_axis_each();
    as_many_axes();
    same_value_is_equivalence();
    same_unit_is_equivalence();
    same_length_is_equivalence();
    same_idents_is_equivalence();
    same_parameter_is_equivalence();
    same_part_is_equivalence();
}

/// Sameness of CRSs is an equivalence.
pub fn same_crs_is_equivalence()
    ensures { (level : Level) → IsSamenessOf IsCrs (SameCrs level) }
{
    parts_agree_where_same();
    same_node_is_equivalence();
}

// ---- the first part that differs

/// A path to a first part that differs has a step.
pub fn first_part_has_a_step()
    ensures { (level : Level) (a b : Crs) (path : List Step) → FirstInCrs level a b (Some path) → 1 ≤ length path }
{}

/// A path that has a step writes at least one byte.
pub fn paths_have_words()
    ensures { (path : List Step) → 1 ≤ length path → 1 ≤ length (path_text path) }
{}

/// The first of all parts in which two CRSs differ is the first part in which they differ.
pub fn first_difference_is_first_part()
    ensures none { (level : Level) (a b : Crs) → DifferencesInCrs level a b [] → FirstInCrs level a b None }
    ensures some { (level : Level) (a b : Crs) (one : DifferenceParts) (further : List DifferenceParts) →
        DifferencesInCrs level a b (one ∷ further) → FirstInCrs level a b (Some one.path) }
{}

/// Two CRSs have one list of all parts in which they differ.
pub fn differences_are_one()
    ensures { (level : Level) (a b : Crs) → IsCrs a → IsCrs b → (found other : List DifferenceParts) →
        DifferencesInCrs level a b found → DifferencesInCrs level a b other → found ≡ other }
{
    one_axis_each();
}

/// Two CRSs and the same in the other order differ in the same parts, each with its values exchanged.
pub fn differences_are_exchanged()
    ensures { (level : Level) (a b : Crs) (found : List DifferenceParts) → DifferencesInCrs level a b found →
        DifferencesInCrs level b a (map exchanged found) }
{
    same_value_is_equivalence();
}

/// One kind of unit is asked of two axes of systems of one type, unless their name or direction differs first: whether
/// a part differs, and which first, is as if the kind that either asks were asked of both.
pub fn one_kind_is_asked()
    ensures { (at : List Step) (level : Level) (a b : SystemParts) (x y : AxisParts) → a.system_type ≡ b.system_type →
        (found : Option (List Step)) → First (parts_of_axis at level a b x y) found →
        (asked_kind a.system_type x.direction ≡ asked_kind b.system_type y.direction)
        ⊎ (found ≡ Some (at ▸ step.Name)) ⊎ (found ≡ Some (at ▸ step.Direction)) }
{}

/// No part of two CRSs differs first exactly where the CRSs are the same.
pub fn no_part_differs_where_same()
    ensures none { (level : Level) (a b : Crs) → (FirstInCrs level a b None ↔ SameCrs level a b) }
    ensures some { (level : Level) (a b : Crs) → IsCrs a → IsCrs b → (path : List Step) →
        FirstInCrs level a b (Some path) → ¬ SameCrs level a b }
{
    one_axis_each();
}

// ---- the two levels

/// CRSs that are the same at level `full` are the same at level `definition`.
pub fn same_crs_is_same_by_definition()
    ensures { (a b : Crs) → SameCrs levels.Full a b → SameCrs levels.Definition a b }
{}

/// The first part in which CRSs differ at level `definition` is neither identifiers, usages nor a remark.
pub fn first_part_is_of_definition()
    ensures { (a b : Crs) (path : List Step) → FirstInCrs levels.Definition a b (Some path) → Each IsOfDefinition path }
{}
