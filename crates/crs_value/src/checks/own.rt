//! The checks that a node breaks by itself: of words, of numbers, and of its content.
ghost use Rattle.std.specs.Prelude.{◌≡◌, ◌≤◌, IsTrue, ◌↔◌, None};
ghost use Rattle.std.specs.List.{find};
ghost use Rattle.crs_text.specs.Items.{HasId, arguments};
ghost use Rattle.crs_shape.specs.declared.class.Class.TheVariants as classes;
ghost use Rattle.crs_shape.specs.ShapeFault.{Shaped};
ghost use Rattle.crs_value.specs.Checks.{IsAboveZero, NotAbove, IsNegative, IsNotEllipsoidal, IsNotPlane, IsNotHorizontal, BadComponent, AnyOf, IsLeast, OfCompound, OfEllipsoid, once, Own, RepeatsAny};
ghost use Rattle.crs_value.specs.inner.ReadOnce.{HasSystem};
ghost use Rattle.crs_value.specs.inner.Cursor.{args, item};
ghost use Rattle.crs_value.specs.inner.FirstByte.{is_telling};
ghost use Rattle.crs_value.specs.Reading.{those};
ghost use Rattle.crs_value.specs.inner.Arguments.{item_at, Requires, TakesOne};

use crate::checks::crs::{bad_dynamic, repeated_anchors, repeats_once, type_of};
use crate::checks::{Check, any_from, lesser, only_of, refusal_at};
use crate::judging::quick_checks::is_ascending;
use crate::reading::{Cursor, decimal_of, first, firsts_of, later, number, required};
use crs_decimal::{Decimal, laws};
use crs_shape::{Class, Direction, SystemType};
use crs_text::{ItemId, Items, Refusal};

fn is_leading(byte: u8) -> bool
    ensures { IsTrue result ↔ ((49 ≤ byte) × (byte ≤ 57)) }
{
    b'1' <= byte && byte <= b'9'
}

fn is_telling(byte: u8) -> bool
    ensures { result ≡ is_telling byte }
{
    byte != b'0' && byte != b'.' && byte != b'+'
}

// The first byte that shows whether a number is above zero.
fn first_telling(bytes: &[u8]) -> Option<u8>
    ensures { result ≡ find is_telling bytes.now }
{
    for byte in bytes {
        if is_telling(*byte) {
            return Some(*byte);
        }
    }
    None
}

// Whether a digit above 0 comes first, or behind zeros, a period and a plus alone: then the number is above zero.
fn begins_above_zero(items: &Items<'_>, id: ItemId) -> bool
    requires { HasId items.now id }
    ensures { IsTrue result → IsLeast (NotAbove (item_at items.now id)) None }
{
    match first_telling(items.raw(id)) {
        Some(byte) => is_leading(byte),
        None => false,
    }
}

// Whether a number begins with no minus: then it isn't negative, and needn't be read.
fn begins_without_minus(items: &Items<'_>, id: ItemId) -> bool
    requires { HasId items.now id }
    ensures { IsTrue result → IsLeast (IsNegative (item_at items.now id)) None }
{
    match items.raw(id).first() {
        Some(byte) => *byte != b'-',
        None => true,
    }
}

fn is_above_zero(value: Decimal) -> bool
    ensures { IsTrue result ↔ IsAboveZero value }
{
    !value.is_negative() && !value.is_zero()
}

// 21: a type that is no such word.
struct UnknownType;

impl Check for UnknownType {
    ghost use Rattle.crs_value.specs.Checks.{UnknownType};

    ghost Fits = { λ s tree class. Unit {0} };

    ghost Broken = { λ s tree item f. UnknownType item f };

    fn check(&self, items: &Items<'_>, id: ItemId, _class: Class) -> Option<Refusal> {
        match SystemType::read(items.raw(id)) {
            Some(_) => None,
            None => Some(refusal_at(items, id, 21)),
        }
    }
}

// 21: a direction that is no such word.
struct UnknownDirection;

impl Check for UnknownDirection {
    ghost use Rattle.crs_value.specs.Checks.{UnknownDirection};

    ghost Fits = { λ s tree class. Unit {0} };

    ghost Broken = { λ s tree item f. UnknownDirection item f };

    fn check(&self, items: &Items<'_>, id: ItemId, _class: Class) -> Option<Refusal> {
        match Direction::read(items.raw(id)) {
            Some(_) => None,
            None => Some(refusal_at(items, id, 21)),
        }
    }
}

// 28: a number that must be above zero.
struct AboveZero;

impl Check for AboveZero {
    ghost Fits = { λ s tree class. class ≡ classes.Number };

    ghost Broken = { λ s tree item f. NotAbove item f };

    #[inline(always)]
    fn check(&self, items: &Items<'_>, id: ItemId, _class: Class) -> Option<Refusal> {
        if begins_above_zero(items, id) {
            return None;
        }
        laws::denotes_one();
        let value = decimal_of(items, id);
        if is_above_zero(value) {
            None
        } else {
            Some(refusal_at(items, id, 28))
        }
    }
}

// 28: a number that may not be negative.
struct NotNegative;

impl Check for NotNegative {
    ghost Fits = { λ s tree class. class ≡ classes.Number };

    ghost Broken = { λ s tree item f. IsNegative item f };

    fn check(&self, items: &Items<'_>, id: ItemId, _class: Class) -> Option<Refusal> {
        if begins_without_minus(items, id) {
            return None;
        }
        laws::denotes_one();
        let value = decimal_of(items, id);
        if value.is_negative() {
            Some(refusal_at(items, id, 28))
        } else {
            None
        }
    }
}

// The numbers of an ellipsoid.
fn ellipsoid(items: &Items<'_>, id: ItemId) -> Option<Refusal>
    requires has { HasId items.now id }
    requires shaped { Shaped Class.Ellipsoid (item_at items.now id) }
    ensures { IsLeast (OfEllipsoid (those Class.Ellipsoid Class.Number (arguments (item_at items.now id)))) result }
{
    let found = first(items, id, Class::Ellipsoid, Class::Number)?;
    let next = later(items, found, Class::Ellipsoid, Class::Number);
    lesser(
        AboveZero.check(items, found, Class::Number),
        any_from(&NotNegative, items, next, Class::Ellipsoid, Class::Number),
    )
}

// Whether a node `CS` has a known type that isn't ellipsoidal.
fn is_not_ellipsoidal(items: &Items<'_>, cs: ItemId) -> bool
    requires has { HasId items.now cs }
    requires shaped { Shaped Class.CoordinateSystem (item_at items.now cs) }
    ensures { IsTrue result ↔ IsNotEllipsoidal (item_at items.now cs) }
{
    match type_of(items, cs) {
        None | Some(SystemType::Ellipsoidal) => false,
        Some(SystemType::Cartesian | SystemType::Spherical | SystemType::Vertical) => true,
    }
}

fn is_not_plane(items: &Items<'_>, cs: ItemId) -> bool
    requires has { HasId items.now cs }
    requires shaped { Shaped Class.CoordinateSystem (item_at items.now cs) }
    ensures { IsTrue result ↔ IsNotPlane (item_at items.now cs) }
{
    laws::denotes_one();
    !number(items, cs, Class::CoordinateSystem).is_whole(2)
}

// Whether a horizontal part of this class may not have a node `CS`.
fn is_not_horizontal(items: &Items<'_>, cs: ItemId, class: Class) -> bool
    requires has { HasId items.now cs }
    requires shaped { Shaped Class.CoordinateSystem (item_at items.now cs) }
    ensures { IsTrue result ↔ IsNotHorizontal class (item_at items.now cs) }
{
    match class {
        Class::GeodeticCrs | Class::GeographicCrs => is_not_ellipsoidal(items, cs)
            || is_not_plane(items, cs),
        _ => is_not_plane(items, cs),
    }
}

// 24: a part of this class that isn't geographic, or whose dimension isn't 2. In line: the cursor needs no memory.
#[inline(always)]
fn bad_part(node: &Cursor<'_, '_>, class: Class) -> Option<Refusal>
    requires shaped { Shaped node.now.class (item node.now) }
    requires there { Requires class Class.CoordinateSystem 0 }
    requires once { TakesOne node.now.class class }
    ensures { IsLeast (AnyOf (BadComponent class) (args class node.now)) result }
{
    crs_shape::laws::slots_count();
    let items = node.items;
    let part = first(items, node.id, node.class, class)?;
    let cs = required(items, part, class, Class::CoordinateSystem);
    if is_not_horizontal(items, cs, class) {
        Some(refusal_at(items, part, 24))
    } else {
        None
    }
}

// What is repeated at the end of a compound CRS. Mostly it is seen at once that nothing is.
#[inline(always)]
fn repeated(node: &Cursor<'_, '_>) -> Option<Refusal>
    requires shaped { Shaped node.now.class (item node.now) }
    ensures { IsLeast (RepeatsAny node.now.class (arguments (item node.now)) once) result }
{
    if is_ascending(node.items, node.items.arg(node.id, 0), node.class) {
        return None;
    }
    let firsts = firsts_of(node.items, node.id, node.class);
    repeats_once(node, &firsts)
}

// The checks of a compound CRS: what may not be repeated, and its horizontal part.
pub(crate) fn compound(items: &Items<'_>, id: ItemId) -> Option<Refusal>
    requires has { HasId items.now id }
    requires shaped { Shaped Class.CompoundCrs (item_at items.now id) }
    ensures { IsLeast (OfCompound (arguments (item_at items.now id))) result }
{
    let class = Class::CompoundCrs;
    let node = Cursor { items, id, class };
    let projected = bad_part(&node, Class::ProjectedCrs);
    let geographic = lesser(bad_part(&node, Class::GeographicCrs), projected);
    let geodetic = lesser(bad_part(&node, Class::GeodeticCrs), geographic);
    lesser(repeated(&node), geodetic)
}

// The checks that a node of a class without a coordinate system breaks by itself. Most nodes are of the classes that are
// named here, which have none: for these nothing is called.
#[tactic(auto, unfolding(crate::specs::Checks::Own))]
#[inline(always)]
pub(crate) fn own_of_part(items: &Items<'_>, id: ItemId, class: Class) -> Option<Refusal>
    requires has { HasId items.now id }
    requires shaped { Shaped class (item_at items.now id) }
    requires part { ¬ (HasSystem class) }
    ensures { IsLeast (Own class (item_at items.now id)) result }
{
    match class {
        Class::Identifier | Class::Parameter | Class::Member | Class::Usage | Class::Order => None,
        _ => own_checked(items, id, class),
    }
}

// The same, by a check of the class.
#[tactic(auto, unfolding(crate::specs::Checks::Own))]
fn own_checked(items: &Items<'_>, id: ItemId, class: Class) -> Option<Refusal>
    requires has { HasId items.now id }
    requires shaped { Shaped class (item_at items.now id) }
    requires part { ¬ (HasSystem class) }
    ensures { IsLeast (Own class (item_at items.now id)) result }
{
    let node = Cursor { items, id, class };
    match class {
        Class::GeodeticCrs | Class::GeographicCrs | Class::ProjectedCrs | Class::VerticalCrs =>
            unreachable!(),
        Class::CompoundCrs => compound(items, id),
        Class::BaseCrs => bad_dynamic(&node, first(items, id, class, Class::Dynamic)),
        Class::GeodeticFrame | Class::VerticalFrame => repeated_anchors(&node),
        Class::Ellipsoid => ellipsoid(items, id),
        Class::LengthUnit
        | Class::AngleUnit
        | Class::ScaleUnit
        | Class::PlainUnit
        | Class::AxisUnit => only_of(&AboveZero, &node, Class::Number),
        Class::CoordinateSystem => only_of(&UnknownType, &node, Class::Word),
        Class::Axis => only_of(&UnknownDirection, &node, Class::Word),
        _ => None,
    }
}
