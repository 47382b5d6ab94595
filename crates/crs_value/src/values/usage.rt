//! Usages, and the ends of CRSs.
ghost use Rattle.std.specs.Prelude.{IfOk, ◌≡◌};
ghost use Rattle.std.specs.Option.{option_copied};
ghost use Rattle.crs_text.specs.Items.{arguments};
ghost use Rattle.crs_shape.specs.declared.class.Class.TheVariants as classes;
ghost use Rattle.crs_value.specs.inner.Arguments.{Requires};
ghost use Rattle.crs_value.specs.inner.Cursor.{item};
ghost use Rattle.crs_value.specs.inner.ReadOnce.{IsSound};
ghost use Rattle.crs_value.specs.inner.FirstArguments.{AreFirsts};
ghost use Rattle.crs_value.specs.Reads.{ReadsBare, ReadsTail, ReadsBox, ReadsExtent, ReadsUsage};
ghost use Rattle.crs_value.specs.Values.{UsageParts, BoxParts, ExtentParts, TailParts};
ghost use Rattle.crs_value.specs.Sound.{IsUsage, IsBox, IsExtent, IsTail};

use crate::reading::{Cursor, Firsts, FromNode};
use crate::values::key::{Key, Keyed};
use crate::{Ident, Level, List, Made, Unit};
use crs_decimal::Decimal;
use crs_shape::{Class, laws};
use std::alloc::Global;
use std::marker::Model;

/// A usage, `USAGE[(scope), (area), (box), (extent)]`, with one part at least; or the parts of one that are bare at a
/// CRS's end, as in the 2015 edition. ISO 19162:2019, "Scope and extent".
pub struct Usage<'a> {
    /// What the CRS is for.
    pub scope: Option<&'a [u8]>,
    /// Where, in words.
    pub area: Option<&'a [u8]>,
    /// Where, as a box.
    pub bbox: Option<BoundingBox>,
    /// Where, in height.
    pub extent: Option<Extent<'a>>,
}

impl<'a> Model for Usage<'a> {
    ghost Value = { UsageParts };

    ghost view = { λ u. record {
      scope = option_copied u.scope;
      area = option_copied u.area;
      bbox = u.bbox;
      extent = u.extent;
    } };

    ghost invariant = { λ u. IsUsage (view u) };
}

impl Drop for Usage<'_> {
    fn drop(self) {
        let_go!(self: Usage { scope, area, bbox, extent });
    }
}

/// A box, `BBOX[south, west, north, east]`, in degrees. ISO 19162:2019, "Geographic bounding box".
#[derive(Drop)]
pub struct BoundingBox {
    /// The southern latitude.
    pub south: Decimal,
    /// The western longitude.
    pub west: Decimal,
    /// The northern latitude.
    pub north: Decimal,
    /// The eastern longitude.
    pub east: Decimal,
}

impl Model for BoundingBox {
    ghost Value = { BoxParts };

    ghost view = { λ b. record { south = b.south; west = b.west; north = b.north; east = b.east } };

    ghost invariant = { λ b. IsBox (view b) };
}

/// An extent in height, `VERTICALEXTENT[minimum, maximum, (unit)]`. ISO 19162:2019, "Vertical extent".
#[derive(Drop)]
pub struct Extent<'a> {
    /// The lowest height, in the unit, in metres where none is written.
    pub minimum: Decimal,
    /// The greatest height, likewise.
    pub maximum: Decimal,
    /// The unit of both, a length.
    pub unit: Option<Unit<'a>>,
}

impl<'a> Model for Extent<'a> {
    ghost Value = { ExtentParts };

    ghost view = { λ e. record { minimum = e.minimum; maximum = e.maximum; unit = e.unit } };

    ghost invariant = { λ e. IsExtent (view e) };
}

/// A CRS's end: usages, the bare parts of one, identifiers and a remark, in any order.
/// ISO 19162:2019, "Scope, extent, identifier and remark"; the order is the profile's.
pub struct Tail<'a> {
    /// The usages, as written.
    pub usages: List<Usage<'a>>,
    /// The usage whose parts are bare, None where no part is.
    pub bare_parts: Option<Usage<'a>>,
    /// The identifiers, as written.
    pub identifiers: List<Ident<'a>>,
    /// The remark.
    pub remark: Option<&'a [u8]>,
}

impl<'a> Model for Tail<'a> {
    ghost Value = { TailParts };

    ghost view = { λ t. record { usages = t.usages; bare_parts = t.bare_parts; identifiers = t.identifiers; remark = option_copied t.remark } };

    ghost invariant = { λ t. IsTail (view t) };
}

impl Drop for Tail<'_> {
    fn drop(self) {
        let_go!(self: Tail { usages, bare_parts, identifiers, remark });
    }
}

impl<'a> FromNode<'a> for BoundingBox {
    ghost Suits = { λ c. Requires c classes.Number 3 };

    ghost Reads = { λ c item parts. ReadsBox c item parts };

    fn read(_alloc: Global, node: &Cursor<'_, 'a>) -> Made<Self> {
        Ok(BoundingBox {
            south: node.number_at(0),
            west: node.number_at(1),
            north: node.number_at(2),
            east: node.number_at(3),
        })
    }
}

impl<'a> FromNode<'a> for Extent<'a> {
    ghost Suits = { λ c. Requires c classes.Number 1 };

    ghost Reads = { λ c item parts. ReadsExtent c item parts };

    fn read(alloc: Global, node: &Cursor<'_, 'a>) -> Made<Self> {
        Ok(Extent {
            minimum: node.number_at(0),
            maximum: node.number_at(1),
            unit: node.optional(alloc, Class::LengthUnit)?,
        })
    }
}

impl<'a> FromNode<'a> for Usage<'a> {
    ghost Suits = { λ c. c ≡ classes.Usage };

    ghost Reads = { λ c item parts. ReadsUsage c item parts };

    fn read(alloc: Global, node: &Cursor<'_, 'a>) -> Made<Self> {
        laws::slots_count();
        Ok(Usage {
            scope: node.optional_text(Class::Scope),
            area: node.optional_text(Class::Area),
            bbox: node.optional(alloc, Class::BoundingBox)?,
            extent: node.optional(alloc, Class::VerticalExtent)?,
        })
    }
}

impl Keyed for Usage<'_> {
    const HAS_TWO_KEYS: bool = false;

    fn key(&self, _level: Level) -> u128 {
        let mut key = Key::new();
        key.put_optional_text(self.scope);
        key.put_optional_text(self.area);
        key.put_box(&self.bbox);
        key.put_extent(&self.extent);
        key.finish()
    }
}

// The usage whose parts are bare at a CRS's end, None where no part is.
fn bare_usage<'a>(alloc: Global, node: &Cursor<'_, 'a>, firsts: &Firsts) -> Made<Option<Usage<'a>>>
    requires sound { IsSound node.now.class (item node.now) }
    requires firsts { AreFirsts node.now.items.now node.now.class (arguments (item node.now)) firsts.now }
    ensures { IfOk result (ReadsBare node.now.class (item node.now)) }
{
    let scope = node.optional_text_from(Class::Scope, firsts.scope);
    let area = node.optional_text_from(Class::Area, firsts.area);
    let bbox = node.optional_from(alloc, Class::BoundingBox, firsts.bbox)?;
    let extent = node.optional_from(alloc, Class::VerticalExtent, firsts.extent)?;
    if scope.is_none() && area.is_none() && bbox.is_none() && extent.is_none() {
        return Ok(None);
    }
    Ok(Some(Usage {
        scope,
        area,
        bbox,
        extent,
    }))
}

// The end of a CRS of this class.
pub(crate) fn read_tail<'a>(alloc: Global, node: &Cursor<'_, 'a>, firsts: &Firsts) -> Made<Tail<'a>>
    requires sound { IsSound node.now.class (item node.now) }
    requires firsts { AreFirsts node.now.items.now node.now.class (arguments (item node.now)) firsts.now }
    ensures { IfOk result (λ tail. ReadsTail node.now.class (item node.now) tail) }
{
    laws::slots_count();
    Ok(Tail {
        usages: node.many_from(alloc, Class::Usage, firsts.usage)?,
        bare_parts: bare_usage(alloc, node, firsts)?,
        identifiers: node.many_from(alloc, Class::Identifier, firsts.identifier)?,
        remark: node.optional_text_from(Class::Remark, firsts.remark),
    })
}
