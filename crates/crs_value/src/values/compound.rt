//! Compound CRSs.
ghost use Rattle.std.specs.Prelude.{◌≡◌, IfOk};
ghost use Rattle.crs_shape.specs.declared.class.Class.TheVariants as classes;
ghost use Rattle.crs_value.specs.inner.Cursor.{item};
ghost use Rattle.crs_value.specs.inner.ReadOnce.{IsSound};
ghost use Rattle.crs_value.specs.ReadsCrs.{ReadsCompound, ReadsHorizontal};

use crate::reading::{Cursor, FromNode, first, firsts_of};
use crate::values::usage::read_tail;
use crate::{Geodetic, Made, Projected, Tail, Vertical};
use crs_shape::{Class, laws};
use std::alloc::Global;
use std::marker::Model;

/// The horizontal part of a compound CRS. ISO 19162:2019, "Compound CRS".
#[derive(Drop)]
pub enum Horizontal<'a> {
    /// A geographic CRS.
    Geodetic(Geodetic<'a>),
    /// A projected CRS.
    Projected(Projected<'a>),
}

/// A compound CRS, `COMPOUNDCRS[name, horizontal, vertical, tail]`. ISO 19162:2019, "Compound CRS".
pub struct Compound<'a> {
    /// The name.
    pub name: &'a [u8],
    /// The horizontal part, geographic or projected, of dimension 2.
    pub horizontal: Horizontal<'a>,
    /// The vertical part.
    pub vertical: Vertical<'a>,
    /// Usages, identifiers and remark.
    pub tail: Tail<'a>,
}

impl<'a> Model for Compound<'a> {
    ghost use Rattle.crs_value.specs.CompoundValues.{CompoundParts};
    ghost use Rattle.crs_value.specs.SoundCompound.{IsCompound};

    ghost Value = { CompoundParts };

    ghost view = { λ c. record { name = c.name.now; horizontal = c.horizontal; vertical = c.vertical; tail = c.tail } };

    ghost invariant = { λ c. IsCompound (view c) };
}

impl Drop for Compound<'_> {
    fn drop(self) {
        let_go!(self: Compound { name, horizontal, vertical, tail });
    }
}

// The horizontal part of a compound CRS.
fn read_horizontal<'a>(alloc: Global, node: &Cursor<'_, 'a>) -> Made<Horizontal<'a>>
    requires sound { IsSound Class.CompoundCrs (item node.now) }
    ensures { IfOk result (λ value. ReadsHorizontal Class.CompoundCrs (item node.now) value) }
{
    laws::slots_count();
    let items = node.items;
    let class = Class::GeodeticCrs;
    if let Some(id) = first(items, node.id, Class::CompoundCrs, class) {
        return Geodetic::read(alloc, &Cursor { items, id, class }).map(Horizontal::Geodetic);
    }
    let class = Class::GeographicCrs;
    if let Some(id) = first(items, node.id, Class::CompoundCrs, class) {
        return Geodetic::read(alloc, &Cursor { items, id, class }).map(Horizontal::Geodetic);
    }
    let class = Class::ProjectedCrs;
    let id = first(items, node.id, Class::CompoundCrs, class).unwrap();
    Projected::read(alloc, &Cursor { items, id, class }).map(Horizontal::Projected)
}

impl<'a> FromNode<'a> for Compound<'a> {
    ghost Suits = { λ c. c ≡ classes.CompoundCrs };

    ghost Reads = { λ c item parts. ReadsCompound c item parts };

    fn read(alloc: Global, node: &Cursor<'_, 'a>) -> Made<Self> {
        laws::slots_count();
        let firsts = firsts_of(node.items, node.id, node.class);
        Ok(Compound {
            name: node.text(),
            horizontal: read_horizontal(alloc, node)?,
            vertical: node.one(alloc, Class::VerticalCrs)?,
            tail: read_tail(alloc, node, &firsts)?,
        })
    }
}
