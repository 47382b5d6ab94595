//! Identifiers, and what has a name and identifiers: members of ensembles, geoid and deformation models, parameters.
ghost use Rattle.std.specs.Prelude.{◌↔◌, IsTrue, None};
ghost use Rattle.std.specs.Option.{option_copied};
ghost use Rattle.crs_same.specs.SameParts.{SameGeoidModel, SameDeformationModel, SameMember, SameParameter};
ghost use Rattle.crs_same.specs.SameIdents.{SameIdent, SameIdents, SameNamed, BothOrNeither};

use crate::laws;
use crate::sets::{SetMember, SetMembers, same_set};
use crate::single::{same_optional_text, same_text, same_units_as, same_value};
use crs_value::{
    CounterpartHints, DeformationModel, GeoidModel, Ident, Level, List, Member, Named, Parameter,
    UnitKind,
};

/// Whether two identifiers are the same: authority and code, and version, citation and URI, each in both or in
/// neither. An identifier by itself is compared alike at every level. Profile.
pub fn same_ident<'a>(a: &Ident<'a>, b: &Ident<'a>, _level: Level) -> bool
    ensures { IsTrue result ↔ SameIdent a.now b.now }
{
    same_text(a.authority, b.authority)
        && same_text(a.code, b.code)
        && same_optional_text(a.version, b.version)
        && same_optional_text(a.citation, b.citation)
        && same_optional_text(a.uri, b.uri)
}

impl SetMember for Ident<'_> {
    ghost Same = { λ level a b. SameIdent a b };

    fn is_same(&self, other: &Self, level: Level) -> bool {
        same_ident(self, other, level)
    }

    fn same_is_equivalence(&self) {
        laws::parts::same_ident_is_equivalence();
    }
}

/// Whether the identifiers that the level keeps of two parts are the same set. Profile.
pub fn same_kept_idents<'a>(
    a: &[Ident<'a>],
    b: &[Ident<'a>],
    hints: CounterpartHints<'_>,
    level: Level,
) -> bool
    ensures { IsTrue result ↔ SameIdents level a.now b.now }
{
    let (a, b) = (SetMembers::of(level.kept(a)), SetMembers::of(level.kept(b)));
    same_set(&a, &b, hints, Level::Full)
}

/// Whether the identifiers that the level keeps of two parts are the same set, by the members that are there once:
/// it takes no longer than the shorter list. Profile.
pub fn same_idents<'a>(a: &List<Ident<'a>>, b: &List<Ident<'a>>, level: Level) -> bool
    ensures { IsTrue result ↔ SameIdents level a.now b.now }
{
    let hints = a.counterpart_hints(b, Level::Full);
    same_kept_idents(a.as_set(), b.as_set(), hints, level)
}

impl<const KIND: u8> SetMember for Named<'_, KIND> {
    ghost Same = { λ level a b. SameNamed level a b };

    fn is_same(&self, other: &Self, level: Level) -> bool {
        same_text(self.name, other.name)
            && same_idents(&self.identifiers, &other.identifiers, level)
    }

    fn same_is_equivalence(&self) {
        laws::parts::same_part_is_equivalence();
    }
}

/// Whether two members of an ensemble are the same: name and identifiers. ISO 19162:2019, "Datum ensemble".
pub fn same_member<'a>(a: &Member<'a>, b: &Member<'a>, level: Level) -> bool
    ensures { IsTrue result ↔ SameMember level a.now b.now }
{
    a.is_same(b, level)
}

/// Whether two geoid models are the same: name and identifiers. ISO 19162:2019, "Geoid model".
pub fn same_geoid_model<'a>(a: &GeoidModel<'a>, b: &GeoidModel<'a>, level: Level) -> bool
    ensures { IsTrue result ↔ SameGeoidModel level a.now b.now }
{
    a.is_same(b, level)
}

/// Whether two deformation models are the same: name and identifiers. ISO 19162:2019, "Deformation model".
pub fn same_deformation_model<'a>(
    a: &DeformationModel<'a>,
    b: &DeformationModel<'a>,
    level: Level,
) -> bool
    ensures { IsTrue result ↔ SameDeformationModel level a.now b.now }
{
    a.is_same(b, level)
}

/// Whether two deformation models are the same, or both are missing. Profile.
pub fn same_models<'a>(
    a: Option<&DeformationModel<'a>>,
    b: Option<&DeformationModel<'a>>,
    level: Level,
) -> bool
    ensures { IsTrue result ↔ BothOrNeither (SameDeformationModel level) (option_copied a.entry) (option_copied b.entry) }
{
    both_or_neither!(a, b, |x, y| same_deformation_model(x, y, level))
}

impl SetMember for Parameter<'_> {
    ghost Same = { λ level a b. SameParameter level a b };

    fn is_same(&self, other: &Self, level: Level) -> bool {
        same_parameter(self, other, level)
    }

    fn same_is_equivalence(&self) {
        laws::parts::same_parameter_is_equivalence();
    }
}

/// Whether two parameters are the same: name, number, identifiers, and the units in both or in neither; `UNIT` is a
/// kind of its own. ISO 19162:2019, "Map projection parameter"; units: profile.
pub fn same_parameter<'a>(a: &Parameter<'a>, b: &Parameter<'a>, level: Level) -> bool
    ensures { IsTrue result ↔ SameParameter level a.now b.now }
{
    same_text(a.name, b.name)
        && same_value(&a.value, &b.value)
        && same_units_as(UnitKind::Plain, a.unit.as_ref(), b.unit.as_ref(), level)
        && same_idents(&a.identifiers, &b.identifiers, level)
}
