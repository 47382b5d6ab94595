//! Axes by themselves, and the axis at a position.
ghost use Rattle.std.specs.Prelude.{◌↔◌, IsTrue};
ghost use Rattle.std.specs.Option.{option_copied};
ghost use Rattle.crs_same.specs.SameIdents.{BothOrNeither};
ghost use Rattle.crs_same.specs.SameParts.{SameAxisMeridian, SameAxisAlone, IsPositionOf, StandsAt};

use crate::named::same_idents;
use crate::single::{same_optional_value, same_text, same_unit_as, same_units_as, same_value};
use crs_decimal::Decimal;
use crs_value::{Axis, AxisMeridian, Level, UnitKind};

/// Whether the meridians of two axes are the same: longitude and unit. ISO 19162:2019, "Axis direction".
pub fn same_axis_meridian<'a>(a: &AxisMeridian<'a>, b: &AxisMeridian<'a>, level: Level) -> bool
    ensures { IsTrue result ↔ SameAxisMeridian level a.now b.now }
{
    same_value(&a.longitude, &b.longitude) && same_unit_as(UnitKind::Angle, &a.unit, &b.unit, level)
}

/// Whether the meridians of two axes are the same, or both are missing. Profile.
pub fn same_axis_meridians<'a>(
    a: &Option<AxisMeridian<'a>>,
    b: &Option<AxisMeridian<'a>>,
    level: Level,
) -> bool
    ensures { IsTrue result ↔ BothOrNeither (SameAxisMeridian level) a.now b.now }
{
    both_or_neither!(a, b, |x, y| same_axis_meridian(x, y, level))
}

/// Whether two axes by themselves are the same: name, direction, identifiers, and meridian, order and unit, each in
/// both or in neither; `UNIT` is a kind of its own. ISO 19162:2019, "Axis"; order and unit: profile.
pub fn same_axis<'a>(a: &Axis<'a>, b: &Axis<'a>, level: Level) -> bool
    ensures { IsTrue result ↔ SameAxisAlone level a.now b.now }
{
    same_text(a.name, b.name)
        && a.direction == b.direction
        && same_axis_meridians(&a.meridian, &b.meridian, level)
        && same_optional_value(a.order, b.order)
        && same_units_as(UnitKind::Plain, a.unit.as_ref(), b.unit.as_ref(), level)
        && same_idents(&a.identifiers, &b.identifiers, level)
}

// Whether an axis that is written at this place, from 1 on, has this position.
fn is_at(position: u64, place: u64, order: Option<Decimal>) -> bool
    ensures { IsTrue result ↔ IsPositionOf position place order }
{
    match order {
        None => place == position,
        Some(order) => order.is_whole(position),
    }
}

/// The axis at this position, from 1, if there is one. Profile.
pub fn axis_at<'b, 'a>(axes: &'b [Axis<'a>], position: u64) -> Option<&'b Axis<'a>>
    ensures { StandsAt position axes.entry.now (option_copied result) }
{
    let mut place = 1;
    for axis in axes {
        if is_at(position, place, axis.order) {
            return Some(axis);
        }
        place += 1;
    }
    None
}
