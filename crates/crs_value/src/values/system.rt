//! Units, axes and coordinate systems.
ghost use Rattle.crs_value.specs.inner.Cursor.{item};
ghost use Rattle.crs_value.specs.inner.ReadOnce.{IsSound, HasSystem, IsUnitClass};
ghost use Rattle.crs_value.specs.Reads.{ReadsKind, ReadsUnit, ReadsDirection, ReadsAxisMeridian, ReadsAxis, HasType, ReadsType, ReadsSystem};
ghost use Rattle.crs_value.specs.Sound.{IsUnit, IsAxis, IsAxisMeridian, own_or, IsSystem};
ghost use Rattle.crs_value.specs.Values.{UnitParts, AxisParts, AxisMeridianParts, SystemParts};
ghost use Rattle.crs_value.specs.Reading.{those, ReadsFirst};
ghost use Rattle.crs_value.specs.inner.Arguments.{Requires, item_at};
ghost use Rattle.std.specs.Prelude.{◌≡◌, IfOk};
ghost use Rattle.crs_text.specs.Items.{arguments, HasId};
ghost use Rattle.std.specs.Option.{option_copied};
ghost use Rattle.crs_value.specs.inner.FirstArguments.{AreFirsts};
ghost use Rattle.crs_shape.specs.declared.class.Class.TheVariants as classes;

use crate::reading::{Cursor, Firsts, FromNode, required};
use crate::values::key::Keyed;
use crate::{Ident, Level, List, Made};
use crs_decimal::Decimal;
use crs_shape::{Class, Direction, SystemType, UnitKind, laws};
use crs_text::{ItemId, Items};
use std::alloc::Global;
use std::marker::Model;

/// A unit, `LENGTHUNIT[name, factor, id..]` or with another keyword of a unit. ISO 19162:2019, "Units".
#[derive(Drop)]
pub struct Unit<'a> {
    /// The kind, as the keyword says it.
    pub kind: UnitKind,
    /// The name.
    pub name: &'a [u8],
    /// How many metres, radians or ones the unit has: above 0.
    pub factor: Decimal,
    /// The identifiers, as written.
    pub identifiers: List<Ident<'a>>,
}

impl<'a> Model for Unit<'a> {
    ghost Value = { UnitParts };

    ghost view = { λ u. record { kind = u.kind; name = u.name.now; factor = u.factor; identifiers = u.identifiers } };

    ghost invariant = { λ u. IsUnit (view u) };
}

impl<'a> FromNode<'a> for Unit<'a> {
    ghost Suits = { λ c. IsUnitClass c × Requires c classes.Text 0 × Requires c classes.Number 0 };

    ghost Reads = { λ c item parts. ReadsUnit c item parts };

    fn read(alloc: Global, node: &Cursor<'_, 'a>) -> Made<Self> {
        Ok(Unit {
            kind: UnitKind::read(node.items.raw(node.id)).unwrap(),
            name: node.text(),
            factor: node.number(),
            identifiers: node.many(alloc, Class::Identifier)?,
        })
    }
}

/// An axis, `AXIS[name, direction, (meridian), (order), (unit), id..]`. ISO 19162:2019, "Axis".
pub struct Axis<'a> {
    /// The name and abbreviation, unsplit.
    pub name: &'a [u8],
    /// The direction.
    pub direction: Direction,
    /// The meridian that the axis goes along, at a pole.
    pub meridian: Option<AxisMeridian<'a>>,
    /// The axis's number in the system: from 1 to the number of axes.
    pub order: Option<Decimal>,
    /// The axis's own unit; None where the axes share one.
    pub unit: Option<Unit<'a>>,
    /// The identifiers, as written.
    pub identifiers: List<Ident<'a>>,
}

impl<'a> Model for Axis<'a> {
    ghost Value = { AxisParts };

    ghost view = { λ a. record {
      name = a.name.now;
      direction = a.direction;
      meridian = a.meridian;
      order = a.order;
      unit = a.unit;
      identifiers = a.identifiers;
    } };

    ghost invariant = { λ a. IsAxis (view a) };
}

impl Drop for Axis<'_> {
    fn drop(self) {
        let_go!(self: Axis { name, direction, meridian, order, unit, identifiers });
    }
}

/// The meridian of an axis at a pole, `MERIDIAN[longitude, unit]`. ISO 19162:2019, "Axis direction".
#[derive(Drop)]
pub struct AxisMeridian<'a> {
    /// The longitude, in the unit.
    pub longitude: Decimal,
    /// The unit of the longitude, an angle.
    pub unit: Unit<'a>,
}

impl<'a> Model for AxisMeridian<'a> {
    ghost Value = { AxisMeridianParts };

    ghost view = { λ m. record { longitude = m.longitude; unit = m.unit } };

    ghost invariant = { λ m. IsAxisMeridian (view m) };
}

impl<'a> FromNode<'a> for AxisMeridian<'a> {
    ghost Suits = { λ c. Requires c classes.Number 0 × Requires c classes.AngleUnit 0 };

    ghost Reads = { λ c item parts. ReadsAxisMeridian c item parts };

    fn read(alloc: Global, node: &Cursor<'_, 'a>) -> Made<Self> {
        Ok(AxisMeridian {
            longitude: node.number(),
            unit: node.one(alloc, Class::AngleUnit)?,
        })
    }
}

impl<'a> FromNode<'a> for Axis<'a> {
    ghost Suits = { λ c. c ≡ classes.Axis };

    ghost Reads = { λ c item parts. ReadsAxis c item parts };

    fn read(alloc: Global, node: &Cursor<'_, 'a>) -> Made<Self> {
        let word = required(node.items, node.id, Class::Axis, Class::Word);
        Ok(Axis {
            name: node.text(),
            direction: Direction::read(node.items.raw(word)).unwrap(),
            meridian: node.optional(alloc, Class::AxisMeridian)?,
            order: node.optional(alloc, Class::Order)?,
            unit: node.optional(alloc, Class::AxisUnit)?,
            identifiers: node.many(alloc, Class::Identifier)?,
        })
    }
}

// Axes are no set, whose members are looked for by keys: `many` asks for the trait.
impl Keyed for Axis<'_> {
    fn key(&self, _level: Level) -> u128 {
        0
    }
}

/// `CS[type, dimension, id..]`, the axes beside it, and their shared unit. ISO 19162:2019, "Coordinate system".
pub struct System<'a> {
    /// The type.
    pub system_type: SystemType,
    /// The number of axes.
    pub dimension: Decimal,
    /// The identifiers, as written.
    pub identifiers: List<Ident<'a>>,
    /// The axes, as written.
    pub axes: List<Axis<'a>>,
    /// The unit that the axes share; None where each has its own.
    pub unit: Option<Unit<'a>>,
}

impl<'a> Model for System<'a> {
    ghost Value = { SystemParts };

    ghost view = { λ s. record {
      system_type = s.system_type;
      dimension = s.dimension;
      identifiers = s.identifiers;
      axes = s.axes;
      unit = s.unit;
    } };

    ghost invariant = { λ s. IsSystem (view s) };
}

impl Drop for System<'_> {
    fn drop(self) {
        let_go!(self: System { system_type, dimension, identifiers, axes, unit });
    }
}

impl<'a> System<'a> {
    /// The unit of an axis of this system: its own, or else the one that the axes share. ISO 19162:2019, "Axis unit".
    pub fn unit_of<'b>(&'b self, axis: &'b Axis<'a>) -> Option<&'b Unit<'a>>
        ensures { option_copied result ≡ own_or axis.now.unit self.now.unit }
    {
        match &axis.unit {
            Some(unit) => Some(unit),
            None => self.unit.as_ref(),
        }
    }
}

fn system_type(items: &Items<'_>, id: ItemId) -> SystemType
    requires has { HasId items.now id }
    requires sound { IsSound Class.CoordinateSystem (item_at items.now id) }
    ensures { ReadsFirst ReadsType (those Class.CoordinateSystem Class.Word (arguments (item_at items.now id))) result }
{
    let word = required(items, id, Class::CoordinateSystem, Class::Word);
    SystemType::read(items.raw(word)).unwrap()
}

// The type of the system of a CRS of this class.
pub(crate) fn system_type_of(node: &Cursor<'_, '_>) -> SystemType
    requires sound { IsSound node.now.class (item node.now) }
    requires there { Requires node.now.class Class.CoordinateSystem 0 }
    ensures { ReadsFirst HasType (those node.now.class Class.CoordinateSystem (arguments (item node.now))) result }
{
    let items = node.items;
    system_type(
        items,
        required(items, node.id, node.class, Class::CoordinateSystem),
    )
}

// The system of a CRS of this class: its node `CS`, and the axes and the shared unit beside that.
pub(crate) fn read_system<'a>(
    alloc: Global,
    node: &Cursor<'_, 'a>,
    firsts: &Firsts,
) -> Made<System<'a>>
    requires sound { IsSound node.now.class (item node.now) }
    requires system { HasSystem node.now.class }
    requires there { Requires node.now.class Class.CoordinateSystem 0 × Requires node.now.class Class.Axis 0 }
    requires firsts { AreFirsts node.now.items.now node.now.class (arguments (item node.now)) firsts.now }
    ensures { IfOk result (λ system. ReadsSystem node.now.class (item node.now) system) }
{
    laws::slots_count();
    let items = node.items;
    let class = Class::CoordinateSystem;
    let id = required(items, node.id, node.class, class);
    let head = Cursor { items, id, class };
    Ok(System {
        system_type: system_type(items, id),
        dimension: head.number(),
        identifiers: head.many(alloc, Class::Identifier)?,
        axes: node.many_from(alloc, Class::Axis, firsts.axis)?,
        unit: node.optional_from(alloc, Class::AxisUnit, firsts.unit)?,
    })
}
