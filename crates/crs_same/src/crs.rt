//! Coordinate reference systems.
ghost use Rattle.std.specs.Prelude.{◌≡◌, ◌≤◌, ◌↔◌, [], IfOk, IfSome, IsTrue, None, length};
ghost use Rattle.crs_value.specs.ReadsCrs.{kind_by, kind_of};
ghost use Rattle.crs_same.specs.declared.content.Content.TheVariants as content;
ghost use Rattle.crs_same.specs.declared.step.Step.TheVariants as step;
ghost use Rattle.crs_same.specs.Parts.{◌▸◌, AreSame, kind_word, horizontal_word, parts_of_geodetic, parts_of_base};
ghost use Rattle.crs_same.specs.Parts.{parts_of_projected, parts_of_vertical, parts_of_horizontal};
ghost use Rattle.crs_same.specs.Parts.{parts_of_compound, parts_of_crs, FirstInCrs, DifferencesInCrs, words, unlike, sets};
ghost use Rattle.crs_same.specs.inner.Walked.{Walked};
ghost use Rattle.crs_same.specs.SameCrs.{SameCrs};
ghost use Rattle.crs_same.specs.SameParts.{SameGeoidModel};

use crate::content::{Content, Members};
use crate::found::{Differences, Found};
use crate::path::{At, Path};
use crate::step::Step;
use crate::{SetMembers, laws, same_set};
use crs_value::laws::crs_is_sound;
use crs_value::{
    Base, Compound, Crs, Geodetic, GeoidModel, Horizontal, Kind, Level, List, Projected,
    SystemType, Vertical, geodetic_kind,
};
use std::alloc::{AllocError, Global};

// The keyword of a CRS of this kind.
fn kind_word(kind: Kind) -> &'static str
    ensures { result.now ≡ kind_word kind }
{
    match kind {
        Kind::Geodetic => "GEODCRS",
        Kind::Geographic => "GEOGCRS",
        Kind::Projected => "PROJCRS",
        Kind::Vertical => "VERTCRS",
        Kind::Compound => "COMPOUNDCRS",
    }
}

// The keyword of the horizontal part of a compound CRS.
fn horizontal_word(part: &Horizontal<'_>) -> &'static str
    ensures { result.now ≡ horizontal_word part.now }
{
    match part {
        Horizontal::Geodetic(geodetic) => kind_word(geodetic_kind(geodetic.system.system_type)),
        Horizontal::Projected(_) => kind_word(Kind::Projected),
    }
}

impl<'b, 'a> Found<'b, 'a> {
    #[tactic(auto, using(crate::proofs::WalkedLemmas::part_rules))]
    fn kind(self, at: &At, a: SystemType, b: SystemType) -> Self
        ensures { Walked (words (at.now.path ▸ step.Kind) kind_word (kind_by a) (kind_by b)) self.entry result }
    {
        let (a, b) = (geodetic_kind(a), geodetic_kind(b));
        if a == b {
            return self;
        }
        self.unlike(at, Step::Kind, kind_word(a), kind_word(b))
    }

    #[tactic(auto, unfolding(crate::specs::Parts::parts_of_geodetic))]
    fn geodetic(self, at: At, a: &'b Geodetic<'a>, b: &'b Geodetic<'a>) -> Self
        requires { length at.path ≤ 2 }
        ensures { Walked (parts_of_geodetic at.path at.level a.now b.now) self.entry result }
    {
        let found = self.kind(&at, a.system.system_type, b.system.system_type);
        let found = found.text(&at, Step::Name, a.name, b.name);
        let found = found.dynamic(at.then(Step::Dynamic), &a.dynamic, &b.dynamic);
        let found = found.frame(at.then(Step::Datum), &a.frame, &b.frame);
        let found = found.meridian(at.then(Step::Meridian), &a.meridian, &b.meridian);
        let found = found.system(at.then(Step::System), &a.system, &b.system);
        found.tail(at, &a.tail, &b.tail)
    }

    #[tactic(auto, unfolding(crate::specs::Parts::parts_of_base))]
    fn base(self, at: At, a: &'b Base<'a>, b: &'b Base<'a>) -> Self
        requires { length at.path ≤ 2 }
        ensures { Walked (parts_of_base at.path at.level a.now b.now) self.entry result }
    {
        let found = self.text(&at, Step::Name, a.name, b.name);
        let found = found.dynamic(at.then(Step::Dynamic), &a.dynamic, &b.dynamic);
        let found = found.frame(at.then(Step::Datum), &a.frame, &b.frame);
        let found = found.meridian(at.then(Step::Meridian), &a.meridian, &b.meridian);
        let found = found.angle(&at, a.unit.as_ref(), b.unit.as_ref());
        found.identifiers(&at, &a.identifiers, &b.identifiers)
    }

    #[tactic(auto, unfolding(crate::specs::Parts::parts_of_projected))]
    fn projected(self, at: At, a: &'b Projected<'a>, b: &'b Projected<'a>) -> Self
        requires { length at.path ≤ 1 }
        ensures { Walked (parts_of_projected at.path at.level a.now b.now) self.entry result }
    {
        let found = self.text(&at, Step::Name, a.name, b.name);
        let found = found.base(at.then(Step::Base), &a.base, &b.base);
        let found = found.conversion(at.then(Step::Conversion), &a.conversion, &b.conversion);
        let found = found.system(at.then(Step::System), &a.system, &b.system);
        found.tail(at, &a.tail, &b.tail)
    }

    #[tactic(auto, using(crate::proofs::WalkedLemmas::part_rules))]
    fn geoids(self, at: &At, a: &'b List<GeoidModel<'a>>, b: &'b List<GeoidModel<'a>>) -> Self
        ensures { Walked (sets (at.now.path ▸ step.Geoid) (SameGeoidModel at.now.level) content.GeoidModels
            a.now b.now) self.entry result }
    {
        walk_sets!(self, at, Geoid, a, b, GeoidModels)
    }

    #[tactic(auto, unfolding(crate::specs::Parts::parts_of_vertical))]
    fn vertical(self, at: At, a: &'b Vertical<'a>, b: &'b Vertical<'a>) -> Self
        requires { length at.path ≤ 2 }
        ensures { Walked (parts_of_vertical at.path at.level a.now b.now) self.entry result }
    {
        let found = self.text(&at, Step::Name, a.name, b.name);
        let found = found.dynamic(at.then(Step::Dynamic), &a.dynamic, &b.dynamic);
        let found = found.frame(at.then(Step::Datum), &a.frame, &b.frame);
        let found = found.system(at.then(Step::System), &a.system, &b.system);
        let found = found.geoids(&at, &a.geoid_models, &b.geoid_models);
        found.tail(at, &a.tail, &b.tail)
    }

    #[tactic(auto, unfolding(crate::specs::Parts::parts_of_horizontal))]
    fn horizontal(self, at: At, a: &'b Horizontal<'a>, b: &'b Horizontal<'a>) -> Self
        requires { length at.path ≤ 1 }
        ensures { Walked (parts_of_horizontal at.path at.level a.now b.now) self.entry result }
    {
        match (a, b) {
            (Horizontal::Geodetic(x), Horizontal::Geodetic(y)) => self.geodetic(at, x, y),
            (Horizontal::Projected(x), Horizontal::Projected(y)) => self.projected(at, x, y),
            (Horizontal::Geodetic(_), Horizontal::Projected(_))
            | (Horizontal::Projected(_), Horizontal::Geodetic(_)) => {
                self.unlike(&at, Step::Kind, horizontal_word(a), horizontal_word(b))
            }
        }
    }

    #[tactic(auto, unfolding(crate::specs::Parts::parts_of_compound))]
    fn compound(self, at: At, a: &'b Compound<'a>, b: &'b Compound<'a>) -> Self
        requires { length at.path ≤ 0 }
        ensures { Walked (parts_of_compound at.path at.level a.now b.now) self.entry result }
    {
        let found = self.text(&at, Step::Name, a.name, b.name);
        let found = found.horizontal(at.then(Step::Horizontal), &a.horizontal, &b.horizontal);
        let found = found.vertical(at.then(Step::Vertical), &a.vertical, &b.vertical);
        found.tail(at, &a.tail, &b.tail)
    }

    // CRSs of which one is geodetic, projected, vertical or compound, and the other isn't.
    fn kinds(self, a: &'b Crs<'a>, b: &'b Crs<'a>, level: Level) -> Self
        ensures { Walked (unlike ([] ▸ step.Kind) (kind_word (kind_of a.now)) (kind_word (kind_of b.now)))
            self.entry result }
    {
        let at = At::start(level);
        self.unlike(&at, Step::Kind, kind_word(a.kind()), kind_word(b.kind()))
    }

    fn crs(self, a: &'b Crs<'a>, b: &'b Crs<'a>, level: Level) -> Self
        ensures { Walked (parts_of_crs level a.now b.now) self.entry result }
    {
        let at = At::start(level);
        match (a, b) {
            (Crs::Geodetic(x), Crs::Geodetic(y)) => self.geodetic(at, x, y),
            (Crs::Projected(x), Crs::Projected(y)) => self.projected(at, x, y),
            (Crs::Vertical(x), Crs::Vertical(y)) => self.vertical(at, x, y),
            (Crs::Compound(x), Crs::Compound(y)) => self.compound(at, x, y),
            _ => self.kinds(a, b, level),
        }
    }
}

/// Whether two geodetic or geographic CRSs are the same. ISO 19162:2019, "Geodetic and geographic CRS".
pub fn same_geodetic<'a>(a: &Geodetic<'a>, b: &Geodetic<'a>, level: Level) -> bool
    ensures { IsTrue result ↔ AreSame parts_of_geodetic level a.now b.now }
{
    laws::one_axis_each();
    let _name = a.name;
    let _name = b.name;
    Found::first().geodetic(At::start(level), a, b).is_same()
}

/// Whether two base CRSs are the same: name, dynamic part, frame, prime meridian, the units in both or in neither, and
/// identifiers. ISO 19162:2019, "Base CRS"; units: profile.
pub fn same_base<'a>(a: &Base<'a>, b: &Base<'a>, level: Level) -> bool
    ensures { IsTrue result ↔ AreSame parts_of_base level a.now b.now }
{
    Found::first().base(At::start(level), a, b).is_same()
}

/// Whether two projected CRSs are the same: name, base, conversion, system and end. ISO 19162:2019, "Projected CRS".
pub fn same_projected<'a>(a: &Projected<'a>, b: &Projected<'a>, level: Level) -> bool
    ensures { IsTrue result ↔ AreSame parts_of_projected level a.now b.now }
{
    laws::one_axis_each();
    let _name = a.name;
    let _name = b.name;
    Found::first().projected(At::start(level), a, b).is_same()
}

/// Whether two vertical CRSs are the same. ISO 19162:2019, "Vertical CRS".
pub fn same_vertical<'a>(a: &Vertical<'a>, b: &Vertical<'a>, level: Level) -> bool
    ensures { IsTrue result ↔ AreSame parts_of_vertical level a.now b.now }
{
    laws::one_axis_each();
    let _name = a.name;
    let _name = b.name;
    Found::first().vertical(At::start(level), a, b).is_same()
}

/// Whether two horizontal parts are the same: both geodetic or both projected, as such. ISO 19162:2019, "Compound CRS".
#[tactic(auto, unfolding(crate::specs::Parts::AreSame, crate::specs::Parts::parts_of_horizontal))]
pub fn same_horizontal<'a>(a: &Horizontal<'a>, b: &Horizontal<'a>, level: Level) -> bool
    ensures { IsTrue result ↔ AreSame parts_of_horizontal level a.now b.now }
{
    match (a, b) {
        (Horizontal::Geodetic(x), Horizontal::Geodetic(y)) => same_geodetic(x, y, level),
        (Horizontal::Projected(x), Horizontal::Projected(y)) => same_projected(x, y, level),
        (Horizontal::Geodetic(_), Horizontal::Projected(_))
        | (Horizontal::Projected(_), Horizontal::Geodetic(_)) => false,
    }
}

/// Whether two compound CRSs are the same: name, horizontal and vertical part, end. ISO 19162:2019, "Compound CRS".
pub fn same_compound<'a>(a: &Compound<'a>, b: &Compound<'a>, level: Level) -> bool
    ensures { IsTrue result ↔ AreSame parts_of_compound level a.now b.now }
{
    laws::one_axis_each();
    let _name = a.name;
    let _name = b.name;
    Found::first().compound(At::start(level), a, b).is_same()
}

/// The first part in which two CRSs differ, in the order of the canonical text, `kind` before all; None exactly where
/// they are the same. The path to a part has a step at least. Profile.
pub fn first_part<'a>(a: &Crs<'a>, b: &Crs<'a>, level: Level) -> Option<Path>
    ensures first { FirstInCrs level a.now b.now result }
    ensures same { (result ≡ None) ↔ SameCrs level a.now b.now }
    ensures step { IfSome result (λ path. 1 ≤ length path) }
{
    laws::first_part_has_a_step();
    laws::no_part_differs_where_same();
    crs_is_sound(a);
    crs_is_sound(b);
    Found::first().crs(a, b, level).into_first()
}

/// All parts in which two CRSs differ, in the order of the canonical text, each with its value in either; none exactly
/// where they are the same. A set is one part, and so is a unit. `AllocError`: there is no memory for them. Profile.
pub fn differences<'b, 'a>(
    alloc: Global,
    a: &'b Crs<'a>,
    b: &'b Crs<'a>,
    level: Level,
) -> Result<Differences<'b, 'a>, AllocError>
    ensures { IfOk result (λ differences. DifferencesInCrs level a.now b.now differences) }
{
    let differences = Vec::new(alloc);
    let found = Found::All(Differences { differences });
    found.crs(a, b, level).into_all()
}

/// Whether two CRSs are the same at a level: of one kind, and with the same parts. Profile; the defaults of an
/// ellipsoid's unit and of a prime meridian are the standard's. ISO 19162:2019, "Ellipsoid" and "Prime meridian".
pub fn same<'a>(a: &Crs<'a>, b: &Crs<'a>, level: Level) -> bool
    ensures { IsTrue result ↔ SameCrs level a.now b.now }
{
    first_part(a, b, level).is_none()
}
