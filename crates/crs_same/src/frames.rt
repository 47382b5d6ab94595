//! Ellipsoids, prime meridians, reference frames and ensembles.
ghost use Rattle.std.specs.Prelude.{◌≡◌, ◌≤◌, ◌↔◌, [], IsTrue, None, length};
ghost use Rattle.std.specs.Option.{option_copied};
ghost use Rattle.crs_value.specs.declared.values.frame.Frame.TheVariants as frame;
ghost use Rattle.crs_same.specs.declared.content.Content.TheVariants as content;
ghost use Rattle.crs_same.specs.declared.step.Step.TheVariants as step;
ghost use Rattle.crs_same.specs.Parts.{parts_of_ellipsoid, parts_of_ellipsoids, parts_of_given, datum_word};
ghost use Rattle.crs_same.specs.Parts.{unit_of, or_greenwich, parts_of_meridian, parts_of_datum, parts_of_ensemble, parts_of_frame, sets};
ghost use Rattle.crs_same.specs.inner.Walked.{Walked};
ghost use Rattle.crs_same.specs.Parts.{◌▸◌, AreSame};
ghost use Rattle.crs_same.specs.SameParts.{SameMember};

use crate::content::{Content, Members};
use crate::found::Found;
use crate::path::At;
use crate::step::Step;
use crate::{SetMembers, same_set};
use crs_decimal::Decimal;
use crs_value::{Datum, Ellipsoid, Ensemble, Frame, Ident, Level, List, Member, Meridian, Unit};

// At longitude 0 there is none.
fn unit_of<'b, 'a>(meridian: &'b Meridian<'a>) -> Option<&'b Unit<'a>>
    ensures { option_copied result ≡ unit_of meridian.now }
{
    if meridian.longitude.is_zero() {
        return None;
    }
    meridian.unit.as_ref()
}

fn no_identifiers<'b, 'a>() -> &'b [Ident<'a>]
    ensures { result.now ≡ [] }
{
    &[]
}

// The keyword of a reference frame.
fn datum_word(ellipsoid: &Option<Ellipsoid<'_>>) -> &'static str
    ensures { result.now ≡ datum_word ellipsoid.now }
{
    match ellipsoid {
        None => "VDATUM",
        Some(_) => "DATUM",
    }
}

impl<'b, 'a> Found<'b, 'a> {
    fn ellipsoid(self, at: At, a: &'b Ellipsoid<'a>, b: &'b Ellipsoid<'a>) -> Self
        ensures { Walked (parts_of_ellipsoid at.path at.level a.now b.now) self.entry result }
    {
        let found = self.text(&at, Step::Name, a.name, b.name);
        let found = found.number(&at, Step::SemiMajor, &a.semi_major_axis, &b.semi_major_axis);
        let (first, second) = (&a.inverse_flattening, &b.inverse_flattening);
        let found = found.number(&at, Step::Flattening, first, second);
        let found = found.length(&at, &a.unit, &b.unit);
        found.identifiers(&at, &a.identifiers, &b.identifiers)
    }

    // The ellipsoids of two frames: both have one, or neither.
    fn ellipsoids(self, at: At, a: &'b Option<Ellipsoid<'a>>, b: &'b Option<Ellipsoid<'a>>) -> Self
        ensures { Walked (parts_of_ellipsoids at.path at.level a.now b.now) self.entry result }
    {
        match (a, b) {
            (None, None) => self,
            (Some(x), Some(y)) => self.ellipsoid(at, x, y),
            (None, Some(y)) => self.alone(&at, Step::Name, Content::Nothing, Content::text(y.name)),
            (Some(x), None) => self.alone(&at, Step::Name, Content::text(x.name), Content::Nothing),
        }
    }

    fn given(self, at: At, a: &'b Meridian<'a>, b: &'b Meridian<'a>) -> Self
        ensures { Walked (parts_of_given at.path at.level a.now b.now) self.entry result }
    {
        let found = self.text(&at, Step::Name, a.name, b.name);
        let found = found.number(&at, Step::Longitude, &a.longitude, &b.longitude);
        let found = found.angle(&at, unit_of(a), unit_of(b));
        found.identifiers(&at, &a.identifiers, &b.identifiers)
    }

    // A written prime meridian before a missing one, which is Greenwich.
    fn before_greenwich(self, at: At, meridian: &'b Meridian<'a>) -> Self
        ensures { Walked (parts_of_given at.path at.level meridian.now (or_greenwich None)) self.entry result }
    {
        let found = self.text(&at, Step::Name, meridian.name, b"Greenwich");
        let found = found.number(&at, Step::Longitude, &meridian.longitude, &Decimal::zero());
        let found = found.angle(&at, unit_of(meridian), None);
        found.identifiers_of(&at, meridian.identifiers.as_slice(), no_identifiers())
    }

    // A missing prime meridian before a written one.
    fn behind_greenwich(self, at: At, meridian: &'b Meridian<'a>) -> Self
        ensures { Walked (parts_of_given at.path at.level (or_greenwich None) meridian.now) self.entry result }
    {
        let found = self.text(&at, Step::Name, b"Greenwich", meridian.name);
        let found = found.number(&at, Step::Longitude, &Decimal::zero(), &meridian.longitude);
        let found = found.angle(&at, None, unit_of(meridian));
        found.identifiers_of(&at, no_identifiers(), meridian.identifiers.as_slice())
    }

    #[tactic(auto, unfolding(crate::specs::Parts::parts_of_meridian))]
    pub(crate) fn meridian(
        self,
        at: At,
        a: &'b Option<Meridian<'a>>,
        b: &'b Option<Meridian<'a>>,
    ) -> Self
        ensures { Walked (parts_of_meridian at.path at.level a.now b.now) self.entry result }
    {
        if self.is_done() {
            return self;
        }
        match (a, b) {
            (None, None) => self,
            (Some(x), None) => self.before_greenwich(at, x),
            (None, Some(y)) => self.behind_greenwich(at, y),
            (Some(x), Some(y)) => self.given(at, x, y),
        }
    }

    #[tactic(auto, using(crate::proofs::WalkedLemmas::part_rules))]
    fn members(self, at: &At, a: &'b List<Member<'a>>, b: &'b List<Member<'a>>) -> Self
        ensures { Walked (sets (at.now.path ▸ step.Members) (SameMember at.now.level) content.Members a.now b.now)
            self.entry result }
    {
        walk_sets!(self, at, Members, a, b, Members)
    }

    fn datum(self, at: At, a: &'b Datum<'a>, b: &'b Datum<'a>) -> Self
        requires { length at.path ≤ 3 }
        ensures { Walked (parts_of_datum at.path at.level a.now b.now) self.entry result }
    {
        let found = self.text(&at, Step::Name, a.name, b.name);
        let found = found.ellipsoids(at.then(Step::Ellipsoid), &a.ellipsoid, &b.ellipsoid);
        let found = found.optional_text(&at, Step::Anchor, a.anchor, b.anchor);
        let (first, second) = (&a.anchor_epoch, &b.anchor_epoch);
        let found = found.optional_number(&at, Step::AnchorEpoch, first, second);
        found.identifiers(&at, &a.identifiers, &b.identifiers)
    }

    fn ensemble(self, at: At, a: &'b Ensemble<'a>, b: &'b Ensemble<'a>) -> Self
        requires { length at.path ≤ 3 }
        ensures { Walked (parts_of_ensemble at.path at.level a.now b.now) self.entry result }
    {
        let found = self.text(&at, Step::Name, a.name, b.name);
        let found = found.members(&at, &a.members, &b.members);
        let found = found.ellipsoids(at.then(Step::Ellipsoid), &a.ellipsoid, &b.ellipsoid);
        let found = found.number(&at, Step::Accuracy, &a.accuracy, &b.accuracy);
        found.identifiers(&at, &a.identifiers, &b.identifiers)
    }

    // A reference frame beside an ensemble: what both have.
    #[tactic(auto, unfolding(crate::specs::Parts::parts_of_frame))]
    fn datum_beside(self, at: At, a: &'b Datum<'a>, b: &'b Ensemble<'a>) -> Self
        requires { length at.path ≤ 3 }
        ensures { Walked (parts_of_frame at.path at.level (frame.Datum a.now) (frame.Ensemble b.now))
            self.entry result }
    {
        let found = self.unlike(&at, Step::Kind, datum_word(&a.ellipsoid), "ENSEMBLE");
        let found = found.text(&at, Step::Name, a.name, b.name);
        let found = found.ellipsoids(at.then(Step::Ellipsoid), &a.ellipsoid, &b.ellipsoid);
        found.identifiers(&at, &a.identifiers, &b.identifiers)
    }

    // An ensemble beside a reference frame: what both have.
    #[tactic(auto, unfolding(crate::specs::Parts::parts_of_frame))]
    fn ensemble_beside(self, at: At, a: &'b Ensemble<'a>, b: &'b Datum<'a>) -> Self
        requires { length at.path ≤ 3 }
        ensures { Walked (parts_of_frame at.path at.level (frame.Ensemble a.now) (frame.Datum b.now))
            self.entry result }
    {
        let found = self.unlike(&at, Step::Kind, "ENSEMBLE", datum_word(&b.ellipsoid));
        let found = found.text(&at, Step::Name, a.name, b.name);
        let found = found.ellipsoids(at.then(Step::Ellipsoid), &a.ellipsoid, &b.ellipsoid);
        found.identifiers(&at, &a.identifiers, &b.identifiers)
    }

    #[tactic(auto, unfolding(crate::specs::Parts::parts_of_frame))]
    pub(crate) fn frame(self, at: At, a: &'b Frame<'a>, b: &'b Frame<'a>) -> Self
        requires { length at.path ≤ 3 }
        ensures { Walked (parts_of_frame at.path at.level a.now b.now) self.entry result }
    {
        if self.is_done() {
            return self;
        }
        match (a, b) {
            (Frame::Datum(x), Frame::Datum(y)) => self.datum(at, x, y),
            (Frame::Ensemble(x), Frame::Ensemble(y)) => self.ensemble(at, x, y),
            (Frame::Datum(x), Frame::Ensemble(y)) => self.datum_beside(at, x, y),
            (Frame::Ensemble(x), Frame::Datum(y)) => self.ensemble_beside(at, x, y),
        }
    }
}

/// Whether two ellipsoids are the same; a missing unit is the metre. ISO 19162:2019, "Ellipsoid".
pub fn same_ellipsoid<'a>(a: &Ellipsoid<'a>, b: &Ellipsoid<'a>, level: Level) -> bool
    ensures { IsTrue result ↔ AreSame parts_of_ellipsoid level a.now b.now }
{
    Found::first().ellipsoid(At::start(level), a, b).is_same()
}

/// Whether two prime meridians are the same: name, longitude, identifiers, and the units in both or in neither, but at
/// longitude 0, where the unit doesn't count. ISO 19162:2019, "Prime meridian"; units: profile.
pub fn same_meridian<'a>(a: &Meridian<'a>, b: &Meridian<'a>, level: Level) -> bool
    ensures { IsTrue result ↔ AreSame parts_of_given level a.now b.now }
{
    Found::first().given(At::start(level), a, b).is_same()
}

/// Whether two reference frames are the same: name, ellipsoid, anchor and its epoch, each in both or in neither, and
/// identifiers. ISO 19162:2019, "Geodetic reference frame" and "Vertical reference frame".
pub fn same_datum<'a>(a: &Datum<'a>, b: &Datum<'a>, level: Level) -> bool
    ensures { IsTrue result ↔ AreSame parts_of_datum level a.now b.now }
{
    Found::first().datum(At::start(level), a, b).is_same()
}

/// Whether two ensembles are the same, the ellipsoid in both or in neither. ISO 19162:2019, "Datum ensemble".
pub fn same_ensemble<'a>(a: &Ensemble<'a>, b: &Ensemble<'a>, level: Level) -> bool
    ensures { IsTrue result ↔ AreSame parts_of_ensemble level a.now b.now }
{
    Found::first().ensemble(At::start(level), a, b).is_same()
}

/// Whether two frames are the same: both reference frames or both ensembles, and the same as such. Profile.
pub fn same_frame<'a>(a: &Frame<'a>, b: &Frame<'a>, level: Level) -> bool
    ensures { IsTrue result ↔ AreSame parts_of_frame level a.now b.now }
{
    Found::first().frame(At::start(level), a, b).is_same()
}
