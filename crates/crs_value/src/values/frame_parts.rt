//! Ellipsoids, prime meridians and what dynamic frames say.
ghost use Rattle.std.specs.Prelude.{◌≡◌};
ghost use Rattle.crs_value.specs.SoundParts.{IsEllipsoid, IsMeridian, IsDynamic};
ghost use Rattle.crs_value.specs.Values.{EllipsoidParts, MeridianParts, DynamicParts};
ghost use Rattle.crs_value.specs.Reads.{ReadsEllipsoid, ReadsMeridian, ReadsDynamic};
ghost use Rattle.crs_value.specs.inner.Arguments.{Requires};
ghost use Rattle.crs_shape.specs.declared.class.Class.TheVariants as classes;

use crate::reading::{Cursor, FromNode};
use crate::{DeformationModel, Ident, List, Made, Unit};
use crs_decimal::Decimal;
use crs_shape::{Class, laws};
use std::alloc::Global;
use std::marker::Model;

/// An ellipsoid, `ELLIPSOID[name, semi-major axis, inverse flattening, (unit), id..]`. ISO 19162:2019, "Ellipsoid".
#[derive(Drop)]
pub struct Ellipsoid<'a> {
    /// The name.
    pub name: &'a [u8],
    /// The semi-major axis, in the unit, in metres where none is written: above 0.
    pub semi_major_axis: Decimal,
    /// The inverse flattening: not negative, and 0 for a sphere.
    pub inverse_flattening: Decimal,
    /// The unit of the semi-major axis, a length.
    pub unit: Option<Unit<'a>>,
    /// The identifiers, as written.
    pub identifiers: List<Ident<'a>>,
}

impl<'a> Model for Ellipsoid<'a> {
    ghost Value = { EllipsoidParts };

    ghost view = { λ e. record {
      name = e.name.now;
      semi_major_axis = e.semi_major_axis;
      inverse_flattening = e.inverse_flattening;
      unit = e.unit;
      identifiers = e.identifiers;
    } };

    ghost invariant = { λ e. IsEllipsoid (view e) };
}

impl<'a> FromNode<'a> for Ellipsoid<'a> {
    ghost Suits = { λ c. c ≡ classes.Ellipsoid };

    ghost Reads = { λ c item parts. ReadsEllipsoid c item parts };

    fn read(alloc: Global, node: &Cursor<'_, 'a>) -> Made<Self> {
        Ok(Ellipsoid {
            name: node.text(),
            semi_major_axis: node.number_at(0),
            inverse_flattening: node.number_at(1),
            unit: node.optional(alloc, Class::LengthUnit)?,
            identifiers: node.many(alloc, Class::Identifier)?,
        })
    }
}

/// A prime meridian, `PRIMEM[name, longitude, (unit), id..]`. ISO 19162:2019, "Prime meridian".
#[derive(Drop)]
pub struct Meridian<'a> {
    /// The name.
    pub name: &'a [u8],
    /// The longitude from Greenwich, in the unit; if `unit` is None, the unit is unspecified.
    pub longitude: Decimal,
    /// The unit of the longitude, an angle.
    pub unit: Option<Unit<'a>>,
    /// The identifiers, as written.
    pub identifiers: List<Ident<'a>>,
}

impl<'a> Model for Meridian<'a> {
    ghost Value = { MeridianParts };

    ghost view = { λ m. record { name = m.name.now; longitude = m.longitude; unit = m.unit; identifiers = m.identifiers } };

    ghost invariant = { λ m. IsMeridian (view m) };
}

impl<'a> FromNode<'a> for Meridian<'a> {
    ghost Suits = { λ c. Requires c classes.Text 0 × Requires c classes.Number 0 };

    ghost Reads = { λ c item parts. ReadsMeridian c item parts };

    fn read(alloc: Global, node: &Cursor<'_, 'a>) -> Made<Self> {
        Ok(Meridian {
            name: node.text(),
            longitude: node.number(),
            unit: node.optional(alloc, Class::AngleUnit)?,
            identifiers: node.many(alloc, Class::Identifier)?,
        })
    }
}

/// What a dynamic frame says, `DYNAMIC[epoch, (model)]`. ISO 19162:2019, "Dynamic coordinate reference systems".
pub struct Dynamic<'a> {
    /// The frame's epoch, in years: when the coordinates of its points hold.
    pub epoch: Decimal,
    /// The model by which they move.
    pub model: Option<DeformationModel<'a>>,
}

impl<'a> Model for Dynamic<'a> {
    ghost Value = { DynamicParts };

    ghost view = { λ d. record { epoch = d.epoch; model = d.model } };

    ghost invariant = { λ d. IsDynamic (view d) };
}

impl Drop for Dynamic<'_> {
    fn drop(self) {
        let_go!(self: Dynamic { epoch, model });
    }
}

impl<'a> FromNode<'a> for Dynamic<'a> {
    ghost Suits = { λ c. c ≡ classes.Dynamic };

    ghost Reads = { λ c item parts. ReadsDynamic c item parts };

    fn read(alloc: Global, node: &Cursor<'_, 'a>) -> Made<Self> {
        laws::slots_count();
        Ok(Dynamic {
            epoch: node.one(alloc, Class::FrameEpoch)?,
            model: node.optional(alloc, Class::DeformationModel)?,
        })
    }
}
