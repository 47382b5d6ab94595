//! Nodes by themselves, outside a CRS: each has one spelling, equal exactly where the nodes are the same.
ghost use Rattle.std.specs.Prelude.{◌≡◌, ◌++◌, [], ℕ, List};
ghost use Rattle.crs_text.specs.Items.{Item, IsNode};
ghost use Rattle.crs_text.specs.Written.{AreFormed, item_text};
ghost use Rattle.crs_shape.specs.declared.unit_kind.UnitKind.TheVariants as kinds;
ghost use Rattle.crs_value.specs.Sound.{IsAxis, IsAxisMeridian, IsIdent, IsUnit, IsBox, IsExtent, IsUsage};
ghost use Rattle.crs_value.specs.SoundCompound.{IsCompound};
ghost use Rattle.crs_value.specs.SoundParts.{IsConversion, IsGeoidModel, IsMethod, IsParameter, IsDeformationModel, IsDynamic};
ghost use Rattle.crs_value.specs.SoundParts.{IsDatum, IsEllipsoid, IsEnsemble, IsMember, IsMeridian};
ghost use Rattle.crs_value.specs.SoundSingle.{IsBase, IsGeodetic, IsProjected, IsVertical};
ghost use Rattle.crs_value.specs.Values.{AxisParts};
ghost use Rattle.crs_value.specs.declared.values.level.Level.{Level};
ghost use Rattle.crs_same.specs.Parts.{AreSame, parts_of_method, parts_of_conversion, parts_of_base, parts_of_geodetic};
ghost use Rattle.crs_same.specs.Parts.{parts_of_projected, parts_of_vertical, parts_of_compound, parts_of_horizontal};
ghost use Rattle.crs_same.specs.Parts.{parts_of_ellipsoid, parts_of_given, parts_of_datum, parts_of_ensemble, parts_of_frame};
ghost use Rattle.crs_same.specs.SameParts.{SameGeoidModel, SameParameter, SameDeformationModel, SameMember, SameAxisAlone, SameAxisMeridian, SameUnit, SameBox, SameExtent, SameUsage};
ghost use Rattle.crs_same.specs.SameCrs.{SameDynamic};
ghost use Rattle.crs_same.specs.SameIdents.{SameIdent};
ghost use Rattle.crs_normal.specs.AxisAlone.{IsSpelledAxis};
ghost use Rattle.crs_normal.specs.Closed.{IsClosed};
ghost use Rattle.crs_normal.specs.PartSpellings.{IsFrame, IsHorizontalPart, IsSpelledAxisMeridian, IsSpelledBase};
ghost use Rattle.crs_normal.specs.PartSpellings.{IsSpelledBox, IsSpelledCompound, IsSpelledConversion, IsSpelledDatum};
ghost use Rattle.crs_normal.specs.PartSpellings.{IsSpelledDeformationModel, IsSpelledDynamic, IsSpelledEllipsoid};
ghost use Rattle.crs_normal.specs.PartSpellings.{IsSpelledEnsemble, IsSpelledExtent, IsSpelledFrame, IsSpelledGeodetic};
ghost use Rattle.crs_normal.specs.PartSpellings.{IsSpelledGeoidModel, IsSpelledHorizontal, IsSpelledIdent};
ghost use Rattle.crs_normal.specs.PartSpellings.{IsSpelledMember, IsSpelledMeridian, IsSpelledMethod};
ghost use Rattle.crs_normal.specs.PartSpellings.{IsSpelledParameter, IsSpelledProjected, IsSpelledUnit, IsSpelledUsage, IsSpelledVertical};
ghost use Rattle.crs_normal.specs.inner.PartTexts.{axis_meridian_text, axis_text, base_text, box_text, compound_text};
ghost use Rattle.crs_normal.specs.inner.PartTexts.{conversion_text, datum_text, deformation_model_text, dynamic_text};
ghost use Rattle.crs_normal.specs.inner.PartTexts.{ellipsoid_text, ensemble_text, extent_text, frame_text, geodetic_text};
ghost use Rattle.crs_normal.specs.inner.PartTexts.{geoid_model_text, horizontal_text, ident_text, member_text, meridian_text};
ghost use Rattle.crs_normal.specs.inner.PartTexts.{method_text, parameter_text, projected_text, unit_text, usage_text};
ghost use Rattle.crs_normal.specs.inner.PartTexts.{norm_axis_alone, vertical_text};
ghost use Rattle.crs_normal.specs.inner.WrittenForm.{AreWrittenForms};

use crate::laws::lower::lower_laws;
use crate::laws::sets::sets_decide;
use crate::laws::texts::written_forms_are_equal_where_same;
use crs_same::laws::parts_agree_where_same;
use crs_value::laws::members_read_once;
use crs_value::laws::parts::{kinds_are_sound, parts_are_sound, parts_read_once};

// What the laws of parts rest on.
macro_rules! part_laws {
    () => {{
        lower_laws();
        sets_decide();
        parts_agree_where_same();
        members_read_once();
        parts_read_once();
        parts_are_sound();
    }};
}

/// The written text of a well-formed node is closed, and no closed text is the front of another. Profile.
pub fn closed_texts()
    ensures node { (item : Item) → AreFormed item → IsNode item → IsClosed (item_text item) }
    ensures front { (bytes more : List ℕ) → IsClosed bytes → IsClosed (bytes ++ more) → more ≡ [] }
{}

/// The spellings of identifiers by themselves. Profile.
pub fn identifiers_are_canonical()
    ensures { AreWrittenForms IsIdent (λ level. SameIdent) IsSpelledIdent ident_text }
{
    part_laws!()
}

/// The spellings of units; `UNIT` is a kind of its own. Profile.
pub fn units_are_canonical()
    ensures { AreWrittenForms IsUnit (SameUnit kinds.Plain) IsSpelledUnit unit_text }
{
    part_laws!()
}

/// The spellings of ellipsoids, prime meridians, members of ensembles and the meridians of axes. Profile.
pub fn frame_parts_are_canonical()
    ensures ellipsoid { AreWrittenForms IsEllipsoid (AreSame parts_of_ellipsoid) IsSpelledEllipsoid ellipsoid_text }
    ensures meridian { AreWrittenForms IsMeridian (AreSame parts_of_given) IsSpelledMeridian meridian_text }
    ensures member { AreWrittenForms IsMember SameMember IsSpelledMember member_text }
    ensures along { AreWrittenForms IsAxisMeridian SameAxisMeridian IsSpelledAxisMeridian axis_meridian_text }
{
    part_laws!()
}

/// The spellings of axes with their own orders and units; `UNIT` is a kind of its own. Profile.
pub fn axes_are_canonical()
    ensures { AreWrittenForms IsAxis SameAxisAlone IsSpelledAxis axis_text }
{
    part_laws!()
}

/// Axes whose texts are equal have one form. Profile.
pub fn axis_texts_tell_axes()
    ensures { (level : Level) (a b : AxisParts) → IsAxis a → IsAxis b → axis_text level a ≡ axis_text level b →
        norm_axis_alone level a ≡ norm_axis_alone level b }
{
    axes_are_canonical();
    lower_laws();
    sets_decide();
}

/// The spellings of conversions, their methods and parameters, and geoid models. Profile.
pub fn conversions_are_canonical()
    ensures method { AreWrittenForms IsMethod (AreSame parts_of_method) IsSpelledMethod method_text }
    ensures parameter { AreWrittenForms IsParameter SameParameter IsSpelledParameter parameter_text }
    ensures conversion { AreWrittenForms IsConversion (AreSame parts_of_conversion) IsSpelledConversion
        conversion_text }
    ensures geoid_model { AreWrittenForms IsGeoidModel SameGeoidModel IsSpelledGeoidModel geoid_model_text }
{
    part_laws!()
}

/// The spellings of deformation models and dynamic parts. Profile.
pub fn dynamic_parts_are_canonical()
    ensures deformation_model { AreWrittenForms IsDeformationModel SameDeformationModel IsSpelledDeformationModel
        deformation_model_text }
    ensures dynamic { AreWrittenForms IsDynamic SameDynamic IsSpelledDynamic dynamic_text }
{
    part_laws!()
}

/// The spellings of boxes and extents. Profile.
pub fn extents_are_canonical()
    ensures bounding_box { AreWrittenForms IsBox (λ level. SameBox) IsSpelledBox box_text }
    ensures extent { AreWrittenForms IsExtent SameExtent IsSpelledExtent extent_text }
{
    part_laws!()
}

/// The spellings of usages, which are written alike at every level. Profile.
pub fn usages_are_canonical()
    ensures { AreWrittenForms IsUsage (λ level. SameUsage) IsSpelledUsage usage_text }
{
    part_laws!()
}

/// The spellings of reference frames and ensembles: geodetic ones where they have an ellipsoid, else vertical ones. Profile.
pub fn datums_are_canonical()
    ensures datum { AreWrittenForms IsDatum (AreSame parts_of_datum) IsSpelledDatum datum_text }
    ensures ensemble { AreWrittenForms IsEnsemble (AreSame parts_of_ensemble) IsSpelledEnsemble ensemble_text }
{
    part_laws!()
}

/// The spellings of frames of either kind. Profile.
pub fn frames_are_canonical()
    ensures { AreWrittenForms IsFrame (AreSame parts_of_frame) IsSpelledFrame frame_text }
{
    datums_are_canonical();
}

/// The spellings of geodetic, projected, vertical and compound CRSs, and of base CRSs. Profile.
pub fn kinds_are_canonical()
    ensures base { AreWrittenForms IsBase (AreSame parts_of_base) IsSpelledBase base_text }
    ensures geodetic { AreWrittenForms IsGeodetic (AreSame parts_of_geodetic) IsSpelledGeodetic geodetic_text }
    ensures projected { AreWrittenForms IsProjected (AreSame parts_of_projected) IsSpelledProjected projected_text }
    ensures vertical { AreWrittenForms IsVertical (AreSame parts_of_vertical) IsSpelledVertical vertical_text }
    ensures compound { AreWrittenForms IsCompound (AreSame parts_of_compound) IsSpelledCompound compound_text }
{
    part_laws!();
    kinds_are_sound();
    written_forms_are_equal_where_same();
}

/// The spellings of the horizontal parts of compound CRSs. Profile.
pub fn horizontals_are_canonical()
    ensures { AreWrittenForms IsHorizontalPart (AreSame parts_of_horizontal) IsSpelledHorizontal horizontal_text }
{
    kinds_are_canonical();
    written_forms_are_equal_where_same();
}
