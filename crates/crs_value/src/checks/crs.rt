//! The checks of a whole CRS: what may not be repeated, its coordinate system, and its dynamic parts.
ghost use Rattle.std.specs.Prelude.{◌≡◌, ◌↔◌, ◌≢◌, ◌<◌, ◌⊎◌, IfSome, IsTrue, Some, []};
ghost use Rattle.crs_text.specs.Items.{HasId, arguments, rest_of, here};
ghost use Rattle.crs_shape.specs.Dimensions.{dimensions_of};
ghost use Rattle.crs_shape.specs.ShapeFault.{Shaped};
ghost use Rattle.crs_value.specs.Checks.{AxisCount, BadDynamic, BadSystem, HasEnsemble, AnyOf, IsLeast, BreaksAmong, anchors, once, IsRepeated, OfHead, OfAxes, OfCrs, Repeats, RepeatsAny};
ghost use Rattle.crs_value.specs.inner.Cursor.{args, item};
ghost use Rattle.crs_value.specs.inner.FirstArguments.{AreFirsts};
ghost use Rattle.crs_value.specs.inner.Arguments.{AllShaped, item_at, IsFound, TakesOne};
ghost use Rattle.crs_value.specs.Reading.{those, IsReading};
ghost use Rattle.crs_value.specs.Reads.{HasType, HasDimension};

use crate::checks::axes::{bad_order, bad_unit};
use crate::checks::{Refused, any_from, lesser, refusal_at};
use crate::reading::{Cursor, Firsts, first, firsts_of, later, number, required};
use crs_decimal::{Decimal, laws as numbers};
use crs_shape::{Class, SystemType, laws};
use crs_text::{ItemId, Items, Refusal};

// The least number of a check of axes, their units and dynamic parts.
const ORDER: u8 = 26;

// The first node of this class after the first one.
#[inline(always)]
fn repeats(node: &Cursor<'_, '_>, class: Class) -> Option<Refusal>
    requires shaped { Shaped node.now.class (item node.now) }
    ensures { IsLeast (Repeats node.now.class (arguments (item node.now)) class) result }
{
    again(node, class, first(node.items, node.id, node.class, class))
}

// The first anchor or anchor's epoch of a frame behind the first of its class. In line: the cursor needs no memory.
#[inline(always)]
pub(crate) fn repeated_anchors(node: &Cursor<'_, '_>) -> Option<Refusal>
    requires shaped { Shaped node.now.class (item node.now) }
    ensures { IsLeast (RepeatsAny node.now.class (arguments (item node.now)) anchors) result }
{
    let epochs = repeats(node, Class::AnchorEpoch);
    lesser(repeats(node, Class::Anchor), epochs)
}

// The first node of this class after the first one, which was found. Mostly there is none.
#[inline(always)]
fn again(node: &Cursor<'_, '_>, class: Class, found: Option<ItemId>) -> Option<Refusal>
    requires shaped { Shaped node.now.class (item node.now) }
    requires found { IsFound node.now.items.now node.now.class class (args class node.now) found }
    ensures { IsLeast (Repeats node.now.class (arguments (item node.now)) class) result }
{
    match found {
        None => None,
        Some(first) => behind(node.items, first, node.class, class),
    }
}

// The first node of this class after this one.
#[inline(never)]
fn behind(items: &Items<'_>, id: ItemId, parent: Class, class: Class) -> Option<Refusal>
    requires has { HasId items.now id }
    requires shaped { AllShaped class (those parent class (rest_of (here items.now id))) }
    ensures { IsLeast (AnyOf IsRepeated (those parent class (rest_of (here items.now id)))) result }
{
    let next = later(items, id, parent, class);
    any_from(&Refused::<22>, items, next, parent, class)
}

// The first node of these classes after the first one of its class.
pub(crate) fn repeats_once(node: &Cursor<'_, '_>, firsts: &Firsts) -> Option<Refusal>
    requires firsts { AreFirsts node.now.items.now node.now.class (arguments (item node.now)) firsts.now }
    requires shaped { Shaped node.now.class (item node.now) }
    ensures { IsLeast (RepeatsAny node.now.class (arguments (item node.now)) once) result }
{
    let remarks = again(node, Class::Remark, firsts.remark);
    let extents = lesser(again(node, Class::VerticalExtent, firsts.extent), remarks);
    let boxes = lesser(again(node, Class::BoundingBox, firsts.bbox), extents);
    let areas = lesser(again(node, Class::Area, firsts.area), boxes);
    lesser(again(node, Class::Scope, firsts.scope), areas)
}

// The type of a node `CS`; None where its word is no type.
pub(crate) fn type_of(items: &Items<'_>, cs: ItemId) -> Option<SystemType>
    requires has { HasId items.now cs }
    requires shaped { Shaped Class.CoordinateSystem (item_at items.now cs) }
    ensures { IsReading (HasType (item_at items.now cs)) result }
{
    let word = required(items, cs, Class::CoordinateSystem, Class::Word);
    SystemType::read(items.raw(word))
}

// 23: a type and dimension that the CRS doesn't allow.
pub(crate) fn bad_system(
    items: &Items<'_>,
    cs: ItemId,
    class: Class,
    dimension: &Decimal,
) -> Option<Refusal>
    requires has { HasId items.now cs }
    requires shaped { Shaped Class.CoordinateSystem (item_at items.now cs) }
    requires dimension { HasDimension (item_at items.now cs) dimension.now }
    ensures { IsLeast (BadSystem (dimensions_of class) (item_at items.now cs)) result }
{
    numbers::denotes_one();
    let system_type = type_of(items, cs)?;
    if system_type.is_allowed(class, dimension) {
        None
    } else {
        Some(refusal_at(items, cs, 23))
    }
}

// 25: a number of axes that isn't the dimension.
pub(crate) fn bad_count(
    items: &Items<'_>,
    cs: ItemId,
    axes: usize,
    dimension: &Decimal,
) -> Option<Refusal>
    requires has { HasId items.now cs }
    requires dimension { HasDimension (item_at items.now cs) dimension.now }
    ensures { IsLeast (AxisCount axes (item_at items.now cs)) result }
{
    numbers::denotes_one();
    if dimension.is_whole(axes as u64) {
        None
    } else {
        Some(refusal_at(items, cs, 25))
    }
}

// Whether a node has an argument of this class.
pub(crate) fn has_some(items: &Items<'_>, id: ItemId, parent: Class, class: Class) -> bool
    requires { HasId items.now id }
    ensures { IsTrue result ↔ (those parent class (arguments (item_at items.now id)) ≢ []) }
{
    first(items, id, parent, class).is_some()
}

fn has_ensemble(items: &Items<'_>, id: ItemId, class: Class) -> bool
    requires { HasId items.now id }
    ensures { IsTrue result ↔ HasEnsemble class (item_at items.now id) }
{
    has_some(items, id, class, Class::GeodeticEnsemble)
        || has_some(items, id, class, Class::VerticalEnsemble)
}

// 29: the dynamic parts beside an ensemble, of which the first was found. In line, the cursor needs no place in memory.
#[inline(always)]
pub(crate) fn bad_dynamic(node: &Cursor<'_, '_>, dynamic: Option<ItemId>) -> Option<Refusal>
    requires shaped { Shaped node.now.class (item node.now) }
    requires found { IsFound node.now.items.now node.now.class Class.Dynamic (args Class.Dynamic node.now) dynamic }
    ensures { IsLeast (BadDynamic node.now.class (item node.now)) result }
{
    let (items, class) = (node.items, node.class);
    if dynamic.is_none() || !has_ensemble(items, node.id, class) {
        return None;
    }
    any_from(&Refused::<29>, items, dynamic, class, Class::Dynamic)
}

// 22, 23 and 25: repeated parts, and the nodes `CS`.
fn of_head(node: &Cursor<'_, '_>, firsts: &Firsts) -> Option<Refusal>
    requires shaped { Shaped node.now.class (item node.now) }
    requires once { TakesOne node.now.class Class.CoordinateSystem }
    requires firsts { AreFirsts node.now.items.now node.now.class (arguments (item node.now)) firsts.now }
    ensures { IsLeast (λ f. RepeatsAny node.now.class (arguments (item node.now)) once f
        ⊎ AnyOf (OfHead (dimensions_of node.now.class) (args Class.Axis node.now))
        (args Class.CoordinateSystem node.now) f) result }
{
    laws::slots_count();
    let repeated = repeats_once(node, firsts);
    let Some(cs) = firsts.system else {
        return repeated
    };
    let dimension = number(node.items, cs, Class::CoordinateSystem);
    let system = bad_system(node.items, cs, node.class, &dimension);
    let count = bad_count(node.items, cs, firsts.axes, &dimension);
    lesser(repeated, lesser(system, count))
}

// 26, 27 and 29: the axes and their units, and dynamic parts.
fn of_axes(node: &Cursor<'_, '_>, firsts: &Firsts) -> Option<Refusal>
    requires shaped { Shaped node.now.class (item node.now) }
    requires once { TakesOne node.now.class Class.CoordinateSystem }
    requires firsts { AreFirsts node.now.items.now node.now.class (arguments (item node.now)) firsts.now }
    ensures { IsLeast (λ f. OfAxes (args Class.CoordinateSystem node.now) (args Class.Axis node.now)
        (args Class.AxisUnit node.now) f ⊎ BadDynamic node.now.class (item node.now) f) result }
{
    let axes = lesser(bad_order(node, firsts), bad_unit(node, firsts));
    lesser(axes, bad_dynamic(node, firsts.dynamic))
}

// The refusal, if its number goes before those of the axes.
fn early(found: &Option<Refusal>) -> Option<Refusal>
    ensures { IfSome result (λ first. (found.now ≡ Some first) × (first.number < 26)) }
{
    let first = (*found)?;
    if first.number() < ORDER {
        Some(first)
    } else {
        None
    }
}

// The first break within a CRS of this class, `inside`, and among its own checks. Orders are compared with each
// other, which is quick: where nothing goes before them, type and dimension are allowed, so the axes are three at most.
pub(crate) fn whole_crs(node: &Cursor<'_, '_>, inside: Option<Refusal>) -> Option<Refusal>
    requires shaped { Shaped node.now.class (item node.now) }
    requires once { TakesOne node.now.class Class.CoordinateSystem }
    requires inside { IsLeast (BreaksAmong node.now.class (arguments (item node.now))) inside }
    ensures { IsLeast (λ f. BreaksAmong node.now.class (arguments (item node.now)) f
        ⊎ OfCrs (dimensions_of node.now.class) node.now.class (item node.now) f) result }
{
    let firsts = firsts_of(node.items, node.id, node.class);
    let found = lesser(inside, of_head(node, &firsts));
    match early(&found) {
        Some(first) => Some(first),
        None => lesser(found, of_axes(node, &firsts)),
    }
}
