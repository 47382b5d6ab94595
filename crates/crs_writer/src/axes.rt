//! The axes of a CRS, and their positions.
ghost use Rattle.std.specs.Prelude.{◌≡◌, List, length};
ghost use Rattle.crs_text.specs.Items.{HasId, arguments};
ghost use Rattle.crs_value.specs.Reading.{those, ReadsAll};
ghost use Rattle.crs_value.specs.inner.Arguments.{Holds, item_at};
ghost use Rattle.crs_value.specs.Reads.{ReadsAxis};
ghost use Rattle.crs_value.specs.Values.{AxisParts};
ghost use Rattle.crs_normal.specs.inner.SpelledCrs.{axis_at, is_at, is_number};
ghost use Rattle.crs_writer.specs.inner.FromItems.{IsReadAt};

use crate::Node;
use crate::nodes::lookup::{first, later};
use crate::numbers::decimal_of;
use crs_decimal::Decimal;
use crs_normal::laws::numbers::whole_numbers_are_tested;
use crs_shape::Class;
use crs_text::{ItemId, Items};

fn is_number(value: &Decimal, number: u64) -> bool
    ensures { result ≡ is_number value.now number }
{
    whole_numbers_are_tested();
    let _normal = value.is_negative();
    value.is_whole(number)
}

/// Whether an axis that is written at this place, from 1 on, and with this order if it has one, has this position. Profile.
pub fn is_at(position: u64, place: u64, order: Option<Decimal>) -> bool
    ensures { result ≡ is_at position place order }
{
    match order {
        None => place == position,
        Some(order) => is_number(&order, position),
    }
}

// Whether an axis that is written at this place, from 1 on, has this position.
fn is_axis_at(position: u64, place: u64, items: &Items<'_>, id: ItemId) -> bool
    requires { HasId items.now id }
    ensures { (axis : AxisParts) → ReadsAxis Class.Axis (item_at items.now id) axis →
        result ≡ is_at position place axis.order }
{
    let class = Class::Axis;
    let axis = Node { items, id, class };
    match axis.number_in(Class::Order) {
        None => is_at(position, place, None),
        Some(order) => is_at(position, place, decimal_of(order)),
    }
}

/// The axis at this position, None where there is none. Profile.
pub fn axis_at(items: &Items<'_>, id: ItemId, class: Class, position: u64) -> Option<ItemId>
    requires { HasId items.now id }
    ensures has { Holds items.now result }
    ensures read { (axes : List AxisParts) → ReadsAll ReadsAxis Class.Axis class (item_at items.now id) axes →
        IsReadAt ReadsAxis Class.Axis items.now (axis_at position 1 axes) result }
{
    let _bound = items.arg_count(id);
    let mut index: usize = 0;
    let mut at = first(items, id, class, Class::Axis);
    while let Some(axis) = at {
        if is_axis_at(position, index as u64 + 1, items, axis) {
            return Some(axis);
        }
        index += 1;
        at = later(items, axis, class, Class::Axis);
    }
    None
}

/// How many axes a CRS has. Profile.
pub fn axis_count(items: &Items<'_>, id: ItemId, class: Class) -> usize
    requires { HasId items.now id }
    ensures { result ≡ length (those class Class.Axis (arguments (item_at items.now id))) }
{
    let _bound = items.arg_count(id);
    let mut count = 0;
    let mut at = first(items, id, class, Class::Axis);
    while let Some(axis) = at {
        count += 1;
        at = later(items, axis, class, Class::Axis);
    }
    count
}
