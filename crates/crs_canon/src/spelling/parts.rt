//! Identifiers, units, axes, usages and their extents, conversions and geoid models.
ghost use Rattle.crs_shape.specs.declared.unit_kind.UnitKind.TheVariants as kinds;
ghost use Rattle.crs_value.specs.Sound.{IsAxis, IsAxisMeridian, IsIdent, IsUnit, IsBox, IsExtent, IsUsage};
ghost use Rattle.crs_value.specs.SoundParts.{IsConversion, IsGeoidModel, IsMethod, IsParameter};
ghost use Rattle.crs_same.specs.SameParts.{SameGeoidModel, SameParameter, SameAxisAlone, SameAxisMeridian, SameUnit, SameBox, SameExtent, SameUsage};
ghost use Rattle.crs_same.specs.SameIdents.{SameIdent};
ghost use Rattle.crs_same.specs.Parts.{AreSame, parts_of_conversion, parts_of_method};
ghost use Rattle.crs_normal.specs.AxisAlone.{IsSpelledAxis};
ghost use Rattle.crs_normal.specs.PartSpellings.{IsSpelledAxisMeridian, IsSpelledBox, IsSpelledConversion};
ghost use Rattle.crs_normal.specs.PartSpellings.{IsSpelledExtent, IsSpelledGeoidModel, IsSpelledIdent, IsSpelledMethod};
ghost use Rattle.crs_normal.specs.PartSpellings.{IsSpelledParameter, IsSpelledUnit, IsSpelledUsage};

use crate::canonical::Canonical;
use crs_normal::laws;
use crs_same::parts;
use crs_value::{
    Axis, AxisMeridian, BoundingBox, Conversion, Extent, GeoidModel, Ident, Level, Method,
    Parameter, Unit, Usage,
};

impl Canonical for Ident<'_> {
    ghost IsValue = { IsIdent };

    ghost Same = { λ level a b. SameIdent a b };

    ghost IsSpelling = { IsSpelledIdent };

    fn same(&self, other: &Self, level: Level) -> bool {
        parts::same_ident(self, other, level)
    }

    fn laws(&self) {
        let _authority = self.authority;
        laws::parts::identifiers_are_canonical();
    }
}

impl Canonical for Unit<'_> {
    ghost IsValue = { IsUnit };

    ghost Same = { SameUnit kinds.Plain };

    ghost IsSpelling = { IsSpelledUnit };

    fn same(&self, other: &Self, level: Level) -> bool {
        parts::same_unit(self, other, level)
    }

    fn laws(&self) {
        let _name = self.name;
        laws::parts::units_are_canonical();
    }
}

impl Canonical for AxisMeridian<'_> {
    ghost IsValue = { IsAxisMeridian };

    ghost Same = { SameAxisMeridian };

    ghost IsSpelling = { IsSpelledAxisMeridian };

    fn same(&self, other: &Self, level: Level) -> bool {
        parts::same_axis_meridian(self, other, level)
    }

    fn laws(&self) {
        let _longitude = self.longitude;
        laws::parts::frame_parts_are_canonical();
    }
}

impl Canonical for Axis<'_> {
    ghost IsValue = { IsAxis };

    ghost Same = { SameAxisAlone };

    ghost IsSpelling = { IsSpelledAxis };

    fn same(&self, other: &Self, level: Level) -> bool {
        parts::same_axis(self, other, level)
    }

    fn laws(&self) {
        let _name = self.name;
        laws::parts::axes_are_canonical();
    }
}

impl Canonical for BoundingBox {
    ghost IsValue = { IsBox };

    ghost Same = { λ level a b. SameBox a b };

    ghost IsSpelling = { IsSpelledBox };

    fn same(&self, other: &Self, level: Level) -> bool {
        parts::same_box(self, other, level)
    }

    fn laws(&self) {
        let _south = self.south;
        laws::parts::extents_are_canonical();
    }
}

impl Canonical for Extent<'_> {
    ghost IsValue = { IsExtent };

    ghost Same = { SameExtent };

    ghost IsSpelling = { IsSpelledExtent };

    fn same(&self, other: &Self, level: Level) -> bool {
        parts::same_extent(self, other, level)
    }

    fn laws(&self) {
        let _minimum = self.minimum;
        laws::parts::extents_are_canonical();
    }
}

impl Canonical for Usage<'_> {
    ghost IsValue = { IsUsage };

    ghost Same = { λ level a b. SameUsage a b };

    ghost IsSpelling = { IsSpelledUsage };

    fn same(&self, other: &Self, level: Level) -> bool {
        parts::same_usage(self, other, level)
    }

    fn laws(&self) {
        let _scope = self.scope;
        laws::parts::usages_are_canonical();
    }
}

impl Canonical for Method<'_> {
    ghost IsValue = { IsMethod };

    ghost Same = { AreSame parts_of_method };

    ghost IsSpelling = { IsSpelledMethod };

    fn same(&self, other: &Self, level: Level) -> bool {
        parts::same_method(self, other, level)
    }

    fn laws(&self) {
        let _name = self.name;
        laws::parts::conversions_are_canonical();
    }
}

impl Canonical for Parameter<'_> {
    ghost IsValue = { IsParameter };

    ghost Same = { SameParameter };

    ghost IsSpelling = { IsSpelledParameter };

    fn same(&self, other: &Self, level: Level) -> bool {
        parts::same_parameter(self, other, level)
    }

    fn laws(&self) {
        let _name = self.name;
        laws::parts::conversions_are_canonical();
    }
}

impl Canonical for Conversion<'_> {
    ghost IsValue = { IsConversion };

    ghost Same = { AreSame parts_of_conversion };

    ghost IsSpelling = { IsSpelledConversion };

    fn same(&self, other: &Self, level: Level) -> bool {
        parts::same_conversion(self, other, level)
    }

    fn laws(&self) {
        let _name = self.name;
        laws::parts::conversions_are_canonical();
    }
}

impl Canonical for GeoidModel<'_> {
    ghost IsValue = { IsGeoidModel };

    ghost Same = { SameGeoidModel };

    ghost IsSpelling = { IsSpelledGeoidModel };

    fn same(&self, other: &Self, level: Level) -> bool {
        parts::same_geoid_model(self, other, level)
    }

    fn laws(&self) {
        let _name = self.name;
        laws::parts::conversions_are_canonical();
    }
}
