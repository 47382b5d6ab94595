//! Single CRSs: geodetic, projected and vertical ones, with base CRSs.
ghost use Rattle.std.specs.Prelude.{◌≡◌};
ghost use Rattle.crs_value.specs.ReadsCrs.{IsGeodeticClass, ReadsBase, ReadsGeodetic, ReadsProjected, ReadsVertical};
ghost use Rattle.crs_shape.specs.declared.class.Class.TheVariants as classes;

use crate::reading::{Cursor, FromNode, firsts_of};
use crate::values::frame::read_frame;
use crate::values::system::read_system;
use crate::values::usage::read_tail;
use crate::{
    Conversion, Dynamic, Frame, GeoidModel, Ident, List, Made, Meridian, System, Tail, Unit,
};
use crs_shape::{Class, laws};
use std::alloc::Global;
use std::marker::Model;

/// A geodetic or geographic CRS, `GEODCRS[name, (dynamic), frame, (meridian), system, tail]` or with `GEOGCRS`.
/// ISO 19162:2019, "Geodetic and geographic CRS".
pub struct Geodetic<'a> {
    /// The name.
    pub name: &'a [u8],
    /// What a dynamic frame says; beside an ensemble there is none.
    pub dynamic: Option<Dynamic<'a>>,
    /// The geodetic frame or ensemble.
    pub frame: Frame<'a>,
    /// The prime meridian; None where none is written, which means Greenwich.
    pub meridian: Option<Meridian<'a>>,
    /// The coordinate system.
    pub system: System<'a>,
    /// Usages, identifiers and remark.
    pub tail: Tail<'a>,
}

impl<'a> Model for Geodetic<'a> {
    ghost use Rattle.crs_value.specs.CrsValues.{GeodeticParts};
    ghost use Rattle.crs_value.specs.SoundSingle.{IsGeodetic};

    ghost Value = { GeodeticParts };

    ghost view = { λ g. record {
      name = g.name.now;
      dynamic = g.dynamic;
      frame = g.frame;
      meridian = g.meridian;
      system = g.system;
      tail = g.tail;
    } };

    ghost invariant = { λ g. IsGeodetic (view g) };
}

impl Drop for Geodetic<'_> {
    fn drop(self) {
        let_go!(self: Geodetic { name, dynamic, frame, meridian, system, tail });
    }
}

impl<'a> FromNode<'a> for Geodetic<'a> {
    ghost Suits = { λ c. IsGeodeticClass c };

    ghost Reads = { λ c item parts. ReadsGeodetic c item parts };

    fn read(alloc: Global, node: &Cursor<'_, 'a>) -> Made<Self> {
        laws::slots_count();
        let firsts = firsts_of(node.items, node.id, node.class);
        Ok(Geodetic {
            name: node.text(),
            dynamic: node.optional_from(alloc, Class::Dynamic, firsts.dynamic)?,
            frame: read_frame(alloc, node, Class::GeodeticFrame, Class::GeodeticEnsemble)?,
            meridian: node.optional(alloc, Class::PrimeMeridian)?,
            system: read_system(alloc, node, &firsts)?,
            tail: read_tail(alloc, node, &firsts)?,
        })
    }
}

/// A projected CRS, `PROJCRS[name, base, conversion, system, tail]`. ISO 19162:2019, "Projected CRS".
pub struct Projected<'a> {
    /// The name.
    pub name: &'a [u8],
    /// The geodetic or geographic CRS that the conversion starts from.
    pub base: Base<'a>,
    /// The conversion.
    pub conversion: Conversion<'a>,
    /// The coordinate system.
    pub system: System<'a>,
    /// Usages, identifiers and remark.
    pub tail: Tail<'a>,
}

impl<'a> Model for Projected<'a> {
    ghost use Rattle.crs_value.specs.CrsValues.{ProjectedParts};
    ghost use Rattle.crs_value.specs.SoundSingle.{IsProjected};

    ghost Value = { ProjectedParts };

    ghost view = { λ p. record {
      name = p.name.now;
      base = p.base;
      conversion = p.conversion;
      system = p.system;
      tail = p.tail;
    } };

    ghost invariant = { λ p. IsProjected (view p) };
}

impl Drop for Projected<'_> {
    fn drop(self) {
        let_go!(self: Projected { name, base, conversion, system, tail });
    }
}

/// The base of a projected CRS, `BASEGEOGCRS[name, (dynamic), frame, (meridian), (unit), id..]` or with
/// `BASEGEODCRS`. ISO 19162:2019, "Base CRS".
pub struct Base<'a> {
    /// The name.
    pub name: &'a [u8],
    /// What a dynamic frame says; beside an ensemble there is none.
    pub dynamic: Option<Dynamic<'a>>,
    /// The geodetic frame or ensemble.
    pub frame: Frame<'a>,
    /// The prime meridian; None where none is written, which means Greenwich.
    pub meridian: Option<Meridian<'a>>,
    /// The unit of its angles.
    pub unit: Option<Unit<'a>>,
    /// The identifiers, as written.
    pub identifiers: List<Ident<'a>>,
}

impl<'a> Model for Base<'a> {
    ghost use Rattle.crs_value.specs.CrsValues.{BaseParts};
    ghost use Rattle.crs_value.specs.SoundSingle.{IsBase};

    ghost Value = { BaseParts };

    ghost view = { λ b. record {
      name = b.name.now;
      dynamic = b.dynamic;
      frame = b.frame;
      meridian = b.meridian;
      unit = b.unit;
      identifiers = b.identifiers;
    } };

    ghost invariant = { λ b. IsBase (view b) };
}

impl Drop for Base<'_> {
    fn drop(self) {
        let_go!(self: Base { name, dynamic, frame, meridian, unit, identifiers });
    }
}

impl<'a> FromNode<'a> for Projected<'a> {
    ghost Suits = { λ c. c ≡ classes.ProjectedCrs };

    ghost Reads = { λ c item parts. ReadsProjected c item parts };

    fn read(alloc: Global, node: &Cursor<'_, 'a>) -> Made<Self> {
        laws::slots_count();
        let firsts = firsts_of(node.items, node.id, node.class);
        Ok(Projected {
            name: node.text(),
            base: node.one(alloc, Class::BaseCrs)?,
            conversion: node.one(alloc, Class::Conversion)?,
            system: read_system(alloc, node, &firsts)?,
            tail: read_tail(alloc, node, &firsts)?,
        })
    }
}

impl<'a> FromNode<'a> for Base<'a> {
    ghost Suits = { λ c. c ≡ classes.BaseCrs };

    ghost Reads = { λ c item parts. ReadsBase c item parts };

    fn read(alloc: Global, node: &Cursor<'_, 'a>) -> Made<Self> {
        laws::slots_count();
        Ok(Base {
            name: node.text(),
            dynamic: node.optional(alloc, Class::Dynamic)?,
            frame: read_frame(alloc, node, Class::GeodeticFrame, Class::GeodeticEnsemble)?,
            meridian: node.optional(alloc, Class::PrimeMeridian)?,
            unit: node.optional(alloc, Class::AngleUnit)?,
            identifiers: node.many(alloc, Class::Identifier)?,
        })
    }
}

/// A vertical CRS, `VERTCRS[name, (dynamic), frame, system, tail]`. ISO 19162:2019, "Vertical CRS".
pub struct Vertical<'a> {
    /// The name.
    pub name: &'a [u8],
    /// What a dynamic frame says; beside an ensemble there is none.
    pub dynamic: Option<Dynamic<'a>>,
    /// The vertical frame or ensemble.
    pub frame: Frame<'a>,
    /// The coordinate system.
    pub system: System<'a>,
    /// The geoid models, as written.
    pub geoid_models: List<GeoidModel<'a>>,
    /// Usages, identifiers and remark.
    pub tail: Tail<'a>,
}

impl<'a> Model for Vertical<'a> {
    ghost use Rattle.crs_value.specs.CrsValues.{VerticalParts};
    ghost use Rattle.crs_value.specs.SoundSingle.{IsVertical};

    ghost Value = { VerticalParts };

    ghost view = { λ v. record {
      name = v.name.now;
      dynamic = v.dynamic;
      frame = v.frame;
      system = v.system;
      geoid_models = v.geoid_models;
      tail = v.tail;
    } };

    ghost invariant = { λ v. IsVertical (view v) };
}

impl Drop for Vertical<'_> {
    fn drop(self) {
        let_go!(self: Vertical { name, dynamic, frame, system, geoid_models, tail });
    }
}

impl<'a> FromNode<'a> for Vertical<'a> {
    ghost Suits = { λ c. c ≡ classes.VerticalCrs };

    ghost Reads = { λ c item parts. ReadsVertical c item parts };

    fn read(alloc: Global, node: &Cursor<'_, 'a>) -> Made<Self> {
        laws::slots_count();
        let firsts = firsts_of(node.items, node.id, node.class);
        Ok(Vertical {
            name: node.text(),
            dynamic: node.optional_from(alloc, Class::Dynamic, firsts.dynamic)?,
            frame: read_frame(alloc, node, Class::VerticalFrame, Class::VerticalEnsemble)?,
            system: read_system(alloc, node, &firsts)?,
            geoid_models: node.many(alloc, Class::GeoidModel)?,
            tail: read_tail(alloc, node, &firsts)?,
        })
    }
}
