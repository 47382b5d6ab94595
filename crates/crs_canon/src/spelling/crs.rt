//! Coordinate reference systems.
ghost use Rattle.crs_value.specs.SoundCompound.{IsCompound};
ghost use Rattle.crs_value.specs.SoundCrs.{IsCrs};
ghost use Rattle.crs_value.specs.SoundSingle.{IsBase, IsGeodetic, IsProjected, IsVertical};
ghost use Rattle.crs_same.specs.Parts.{AreSame, parts_of_base, parts_of_compound, parts_of_geodetic, parts_of_horizontal};
ghost use Rattle.crs_same.specs.Parts.{parts_of_projected, parts_of_vertical};
ghost use Rattle.crs_same.specs.SameCrs.{SameCrs};
ghost use Rattle.crs_normal.specs.PartSpellings.{IsHorizontalPart, IsSpelledBase, IsSpelledCompound, IsSpelledGeodetic};
ghost use Rattle.crs_normal.specs.PartSpellings.{IsSpelledHorizontal, IsSpelledProjected, IsSpelledVertical};
ghost use Rattle.crs_writer.specs.Canonical.{IsCanonicalText};

use crate::canonical::Canonical;
use crs_normal::laws::parts::{horizontals_are_canonical, kinds_are_canonical};
use crs_same::{parts, same};
use crs_value::laws::crs_is_sound;
use crs_value::{Base, Compound, Crs, Geodetic, Horizontal, Level, Projected, Vertical};
use crs_writer::laws::crss_are_canonical;

impl Canonical for Geodetic<'_> {
    ghost IsValue = { IsGeodetic };

    ghost Same = { AreSame parts_of_geodetic };

    ghost IsSpelling = { IsSpelledGeodetic };

    fn same(&self, other: &Self, level: Level) -> bool {
        parts::same_geodetic(self, other, level)
    }

    fn laws(&self) {
        let _name = self.name;
        kinds_are_canonical();
    }
}

impl Canonical for Base<'_> {
    ghost IsValue = { IsBase };

    ghost Same = { AreSame parts_of_base };

    ghost IsSpelling = { IsSpelledBase };

    fn same(&self, other: &Self, level: Level) -> bool {
        parts::same_base(self, other, level)
    }

    fn laws(&self) {
        let _name = self.name;
        kinds_are_canonical();
    }
}

impl Canonical for Projected<'_> {
    ghost IsValue = { IsProjected };

    ghost Same = { AreSame parts_of_projected };

    ghost IsSpelling = { IsSpelledProjected };

    fn same(&self, other: &Self, level: Level) -> bool {
        parts::same_projected(self, other, level)
    }

    fn laws(&self) {
        let _name = self.name;
        kinds_are_canonical();
    }
}

impl Canonical for Vertical<'_> {
    ghost IsValue = { IsVertical };

    ghost Same = { AreSame parts_of_vertical };

    ghost IsSpelling = { IsSpelledVertical };

    fn same(&self, other: &Self, level: Level) -> bool {
        parts::same_vertical(self, other, level)
    }

    fn laws(&self) {
        let _name = self.name;
        kinds_are_canonical();
    }
}

impl Canonical for Horizontal<'_> {
    ghost IsValue = { IsHorizontalPart };

    ghost Same = { AreSame parts_of_horizontal };

    ghost IsSpelling = { IsSpelledHorizontal };

    fn same(&self, other: &Self, level: Level) -> bool {
        parts::same_horizontal(self, other, level)
    }

    fn laws(&self) {
        match self {
            Horizontal::Geodetic(geodetic) => geodetic.laws(),
            Horizontal::Projected(projected) => projected.laws(),
        }
        horizontals_are_canonical();
    }
}

impl Canonical for Compound<'_> {
    ghost IsValue = { IsCompound };

    ghost Same = { AreSame parts_of_compound };

    ghost IsSpelling = { IsSpelledCompound };

    fn same(&self, other: &Self, level: Level) -> bool {
        parts::same_compound(self, other, level)
    }

    fn laws(&self) {
        let _name = self.name;
        kinds_are_canonical();
    }
}

impl Canonical for Crs<'_> {
    ghost IsValue = { IsCrs };

    ghost Same = { SameCrs };

    ghost IsSpelling = { IsCanonicalText };

    fn same(&self, other: &Self, level: Level) -> bool {
        same(self, other, level)
    }

    fn laws(&self) {
        crs_is_sound(self);
        crss_are_canonical();
    }
}
