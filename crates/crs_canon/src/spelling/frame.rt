//! Reference frames, ensembles and their members, ellipsoids, prime meridians, and dynamic parts.
ghost use Rattle.crs_value.specs.SoundParts.{IsDeformationModel, IsDynamic, IsDatum, IsEllipsoid, IsEnsemble, IsMember, IsMeridian};
ghost use Rattle.crs_same.specs.SameParts.{SameDeformationModel, SameMember};
ghost use Rattle.crs_same.specs.Parts.{AreSame, parts_of_datum, parts_of_ellipsoid, parts_of_ensemble, parts_of_frame, parts_of_given};
ghost use Rattle.crs_same.specs.SameCrs.{SameDynamic};
ghost use Rattle.crs_normal.specs.PartSpellings.{IsFrame, IsSpelledDatum, IsSpelledDeformationModel, IsSpelledDynamic};
ghost use Rattle.crs_normal.specs.PartSpellings.{IsSpelledEllipsoid, IsSpelledEnsemble, IsSpelledFrame, IsSpelledMember, IsSpelledMeridian};

use crate::canonical::Canonical;
use crs_normal::laws;
use crs_same::parts;
use crs_value::{
    Datum, DeformationModel, Dynamic, Ellipsoid, Ensemble, Frame, Level, Member, Meridian,
};

impl Canonical for Member<'_> {
    ghost IsValue = { IsMember };

    ghost Same = { SameMember };

    ghost IsSpelling = { IsSpelledMember };

    fn same(&self, other: &Self, level: Level) -> bool {
        parts::same_member(self, other, level)
    }

    fn laws(&self) {
        let _name = self.name;
        laws::parts::frame_parts_are_canonical();
    }
}

impl Canonical for Datum<'_> {
    ghost IsValue = { IsDatum };

    ghost Same = { AreSame parts_of_datum };

    ghost IsSpelling = { IsSpelledDatum };

    fn same(&self, other: &Self, level: Level) -> bool {
        parts::same_datum(self, other, level)
    }

    fn laws(&self) {
        let _name = self.name;
        laws::parts::datums_are_canonical();
    }
}

impl Canonical for Ensemble<'_> {
    ghost IsValue = { IsEnsemble };

    ghost Same = { AreSame parts_of_ensemble };

    ghost IsSpelling = { IsSpelledEnsemble };

    fn same(&self, other: &Self, level: Level) -> bool {
        parts::same_ensemble(self, other, level)
    }

    fn laws(&self) {
        let _name = self.name;
        laws::parts::datums_are_canonical();
    }
}

impl Canonical for Frame<'_> {
    ghost IsValue = { IsFrame };

    ghost Same = { AreSame parts_of_frame };

    ghost IsSpelling = { IsSpelledFrame };

    fn same(&self, other: &Self, level: Level) -> bool {
        parts::same_frame(self, other, level)
    }

    fn laws(&self) {
        match self {
            Frame::Datum(datum) => datum.laws(),
            Frame::Ensemble(ensemble) => ensemble.laws(),
        }
        laws::parts::frames_are_canonical();
    }
}

impl Canonical for Ellipsoid<'_> {
    ghost IsValue = { IsEllipsoid };

    ghost Same = { AreSame parts_of_ellipsoid };

    ghost IsSpelling = { IsSpelledEllipsoid };

    fn same(&self, other: &Self, level: Level) -> bool {
        parts::same_ellipsoid(self, other, level)
    }

    fn laws(&self) {
        let _name = self.name;
        laws::parts::frame_parts_are_canonical();
    }
}

impl Canonical for Meridian<'_> {
    ghost IsValue = { IsMeridian };

    ghost Same = { AreSame parts_of_given };

    ghost IsSpelling = { IsSpelledMeridian };

    fn same(&self, other: &Self, level: Level) -> bool {
        parts::same_meridian(self, other, level)
    }

    fn laws(&self) {
        let _name = self.name;
        laws::parts::frame_parts_are_canonical();
    }
}

impl Canonical for DeformationModel<'_> {
    ghost IsValue = { IsDeformationModel };

    ghost Same = { SameDeformationModel };

    ghost IsSpelling = { IsSpelledDeformationModel };

    fn same(&self, other: &Self, level: Level) -> bool {
        parts::same_deformation_model(self, other, level)
    }

    fn laws(&self) {
        let _name = self.name;
        laws::parts::dynamic_parts_are_canonical();
    }
}

impl Canonical for Dynamic<'_> {
    ghost IsValue = { IsDynamic };

    ghost Same = { SameDynamic };

    ghost IsSpelling = { IsSpelledDynamic };

    fn same(&self, other: &Self, level: Level) -> bool {
        parts::same_dynamic(self, other, level)
    }

    fn laws(&self) {
        let _model = &self.model;
        laws::parts::dynamic_parts_are_canonical();
    }
}
