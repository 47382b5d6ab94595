//! Quick checks: whether a CRS's own checks are seen to hold, where the walk for its shape told its parts' places.
ghost use Rattle.std.specs.Prelude.{◌≡◌, ◌≤◌, ◌+◌, ◌^◌, ◌<◌, IfSome, IsTrue, None, true, length, List, [], ◌∷◌};
ghost use Rattle.crs_text.specs.Items.{Item, HasId, arguments, here};
ghost use Rattle.crs_shape.specs.declared.class.Class.{Class};
ghost use Rattle.crs_shape.specs.Dimensions.{dimensions_of};
ghost use Rattle.crs_shape.specs.ShapeFault.{Shaped};
ghost use Rattle.crs_value.specs.Checks.{orders_in, units_in, once, Asks, BadOwnUnit, Fits, IsLeast, OfHead, RepeatsAny};
ghost use Rattle.crs_value.specs.inner.Arguments.{AllShaped, HasPlace, item_at, ahead, Holds};
ghost use Rattle.crs_value.specs.Reading.{is_a, those};
ghost use Rattle.crs_value.specs.Reads.{HasType};
ghost use Rattle.crs_value.specs.inner.QuickChecks.{rank, the_one, AreOrdered, Climbs, HasFacts, IsBehindName, IsHeld, IsLaid, IsNoted, PassesButDynamic, HaveFacts, IsShaped, UnitsFit};

use crate::checks::axes::{bad_order, fits, same_kind};
use crate::checks::crs::type_of;
use crate::reading::{Cursor, firsts_of, has_whole, later, same_place};
use crs_decimal::laws;
use crs_shape::{Class, Direction, SystemType, UnitKind, stands_as};
use crs_text::{ItemId, Items};

// Where the coordinate system of a CRS is, where its axes begin, then their shared unit, and then the rest.
#[derive(Clone, Copy, Default)]
pub(crate) struct Layout {
    pub(crate) system: Option<ItemId>,
    pub(crate) axes: Option<ItemId>,
    pub(crate) unit: Option<ItemId>,
    pub(crate) tail: Option<ItemId>,
}

// What an axis has that is checked beside the others: its direction, and its order and unit where they are written.
#[derive(Clone, Copy)]
struct AxisFacts {
    direction: Direction,
    order: Option<ItemId>,
    unit: Option<ItemId>,
}

// How many axes there are; whether each has an order, which is its place among them; whether none has an order; whether
// each has a unit that fits; whether none has a unit; and whether each asks for a length, or for an angle.
#[derive(Clone, Copy)]
struct AxesFacts {
    count: usize,
    orders_are_places: bool,
    no_orders: bool,
    own_units_fit: bool,
    no_own_units: bool,
    all_lengths: bool,
    all_angles: bool,
}

// No axis was seen yet.
const NONE: AxesFacts = AxesFacts {
    count: 0,
    orders_are_places: true,
    no_orders: true,
    own_units_fit: true,
    no_own_units: true,
    all_lengths: true,
    all_angles: true,
};

// No CRS has more axes.
const MOST: usize = 3;

// What an axis has; None where its word is no direction.
fn facts_of(items: &Items<'_>, axis: ItemId) -> Option<AxisFacts>
    requires has { HasId items.now axis }
    requires shaped { Shaped Class.Axis (item_at items.now axis) }
    ensures { IfSome result (HasFacts items.now (item_at items.now axis)) }
{
    crs_shape::laws::slots_count();
    let word = word_behind_name(items, axis)?;
    let direction = Direction::read(items.raw(word))?;
    Some(AxisFacts {
        direction,
        order: later(items, word, Class::Axis, Class::Order),
        unit: later(items, word, Class::Axis, Class::AxisUnit),
    })
}

// The word that an axis has behind its name, as its slots ask for.
fn word_behind_name(items: &Items<'_>, axis: ItemId) -> Option<ItemId>
    requires { HasId items.now axis }
    ensures { IfSome result (IsBehindName items.now (item_at items.now axis)) }
{
    let name = items.arg(axis, 0)?;
    if !stands_as(items, name, Class::Axis, Class::Text) {
        return None;
    }
    let word = items.next(name)?;
    if !stands_as(items, word, Class::Axis, Class::Word) {
        return None;
    }
    Some(word)
}

// Whether the order of an axis is this place.
fn has_place(items: &Items<'_>, order: Option<ItemId>, place: usize) -> bool
    requires { IsShaped items.now Class.Order order }
    ensures { IsTrue result → (axis : Item) → orders_in axis ≡ the_one items.now order → HasPlace place axis }
{
    match order {
        None => false,
        Some(order) => has_whole(items, order, Class::Order, place as u64),
    }
}

// Whether the unit of an axis fits where this kind is asked.
fn fits_own(items: &Items<'_>, unit: Option<ItemId>, kind: UnitKind) -> bool
    requires { IsShaped items.now Class.AxisUnit unit }
    ensures { IsTrue result → (cs : Item) → (axis : Item) → Asks cs axis kind → units_in axis ≡ the_one items.now unit →
        IsLeast (BadOwnUnit cs axis) None }
{
    match unit {
        None => false,
        Some(unit) => fits(items, unit, kind),
    }
}

// One axis more.
fn noted(items: &Items<'_>, system_type: SystemType, facts: AxisFacts, axes: AxesFacts) -> AxesFacts
    requires order { IsShaped items.now Class.Order facts.order }
    requires unit { IsShaped items.now Class.AxisUnit facts.unit }
    requires bound { axes.count + 1 < 2 ^ 64 }
    ensures { IsNoted items.now system_type facts axes result }
{
    let kind = system_type.asked_kind(facts.direction);
    let count = axes.count + 1;
    // By `&`, no test asks what the walk found before: mostly all hold.
    AxesFacts {
        count,
        orders_are_places: axes.orders_are_places & has_place(items, facts.order, count),
        no_orders: axes.no_orders & facts.order.is_none(),
        own_units_fit: axes.own_units_fit & fits_own(items, facts.unit, kind),
        no_own_units: axes.no_own_units & facts.unit.is_none(),
        all_lengths: axes.all_lengths & same_kind(kind, UnitKind::Length),
        all_angles: axes.all_angles & same_kind(kind, UnitKind::Angle),
    }
}

// Whether an argument is seen to be the only one of its class from there on.
fn is_only(items: &Items<'_>, id: ItemId, parent: Class, class: Class, next: Option<ItemId>) -> bool
    requires has { HasId items.now id }
    requires none { those parent class (ahead items.now next) ≡ [] }
    ensures { IsTrue result → those parent class (here items.now id) ≡ item_at items.now id ∷ [] }
{
    if !stands_as(items, id, parent, class) {
        return false;
    }
    let behind = items.next(id);
    same_place(&behind, &next)
}

// What the axes between two arguments have; None where a direction isn't known, or where they are more than a CRS has.
fn axes_until(
    items: &Items<'_>,
    class: Class,
    from: Option<ItemId>,
    until: Option<ItemId>,
    system_type: SystemType,
) -> Option<AxesFacts>
    requires holds { Holds items.now from }
    requires shaped { AllShaped Class.Axis (those class Class.Axis (ahead items.now from)) }
    requires none { those class Class.Axis (ahead items.now until) ≡ [] }
    ensures { IfSome result (λ axes. HaveFacts system_type axes (those class Class.Axis (ahead items.now from))) }
{
    let mut axes = NONE;
    let mut at = from;
    while let Some(axis) = at {
        if same_place(&at, &until) {
            return Some(axes);
        }
        if axes.count >= MOST {
            return None;
        }
        if !stands_as(items, axis, class, Class::Axis) {
            return None;
        }
        let facts = facts_of(items, axis)?;
        axes = noted(items, system_type, facts, axes);
        at = items.next(axis);
    }
    // Nothing is behind the axes.
    Some(axes)
}

// The unit that axes share, or that there is none; None where that isn't seen.
fn shared_unit(
    items: &Items<'_>,
    class: Class,
    at: Option<ItemId>,
    next: Option<ItemId>,
) -> Option<Option<ItemId>>
    requires holds { Holds items.now at }
    requires none { those class Class.AxisUnit (ahead items.now next) ≡ [] }
    ensures holds { IfSome result (λ shared. Holds items.now shared) }
    ensures unit { IfSome result (λ shared. those class Class.AxisUnit (ahead items.now at) ≡ the_one items.now shared) }
{
    if same_place(&at, &next) {
        return Some(None);
    }
    let Some(id) = at else { return None };
    if is_only(items, id, class, Class::AxisUnit, next) {
        Some(Some(id))
    } else {
        None
    }
}

// Whether a CRS of this class may have a coordinate system of this type and its dimension, which is the number of axes.
fn head_fits(
    items: &Items<'_>,
    cs: ItemId,
    class: Class,
    system_type: SystemType,
    count: usize,
) -> bool
    requires has { HasId items.now cs }
    requires shaped { Shaped Class.CoordinateSystem (item_at items.now cs) }
    requires type_read { HasType (item_at items.now cs) system_type }
    ensures { IsTrue result → (axes : List Item) → length axes ≡ count →
        IsLeast (OfHead (dimensions_of class) axes (item_at items.now cs)) None }
{
    laws::denotes_one();
    let dimension = count as u64;
    if !system_type.has_dimension(class, dimension) {
        return false;
    }
    has_whole(items, cs, Class::CoordinateSystem, dimension)
}

// Whether the orders of a CRS's axes fit one another. Mostly each is the place of its axis, or there is none.
fn is_ordered(items: &Items<'_>, id: ItemId, class: Class, axes: AxesFacts) -> bool
    requires has { HasId items.now id }
    requires shaped { Shaped class (item_at items.now id) }
    ensures { IsTrue result → AreOrdered axes (those class Class.Axis (arguments (item_at items.now id))) }
{
    axes.orders_are_places
        || axes.no_orders
        || bad_order(&Cursor { items, id, class }, &firsts_of(items, id, class)).is_none()
}

// Whether a unit fits where all axes ask for this kind, if they do.
fn fits_all(items: &Items<'_>, unit: ItemId, all: bool, kind: UnitKind) -> bool
    requires { HasId items.now unit }
    ensures { IsTrue result → (all ≡ true) × Fits (item_at items.now unit) kind }
{
    all && fits(items, unit, kind)
}

// Whether the units of the axes fit, with the one that they share.
fn units_fit(items: &Items<'_>, axes: AxesFacts, shared: Option<ItemId>) -> bool
    requires { Holds items.now shared }
    ensures { IsTrue result → UnitsFit items.now axes shared }
{
    let Some(unit) = shared else {
        return axes.own_units_fit
    };
    if !axes.no_own_units {
        return false;
    }
    fits_all(items, unit, axes.all_lengths, UnitKind::Length)
        || fits_all(items, unit, axes.all_angles, UnitKind::Angle)
}

// The highest rank with one argument more, of this rank; None where it doesn't follow the others by rank.
#[inline(always)]
fn climbed(last: u8, next: u8) -> Option<u8>
    ensures { IfSome result (λ highest. Climbs last next highest) }
{
    if next == 0 {
        return Some(last);
    }
    if next <= last { None } else { Some(next) }
}

// The rank of an argument among those that may stand but once at a CRS's end, in their usual order; 0 of others.
#[inline(always)]
fn rank_of(items: &Items<'_>, id: ItemId, parent: Class) -> u8
    requires { HasId items.now id }
    ensures { (d : Class) → 1 ≤ rank d → is_a parent d (item_at items.now id) ≡ true → result ≡ rank d }
{
    if stands_as(items, id, parent, Class::Scope) {
        1
    } else if stands_as(items, id, parent, Class::Area) {
        2
    } else if stands_as(items, id, parent, Class::BoundingBox) {
        3
    } else if stands_as(items, id, parent, Class::VerticalExtent) {
        4
    } else if stands_as(items, id, parent, Class::Remark) {
        5
    } else {
        0
    }
}

// Whether the arguments that may stand but once ascend by rank, so that none is repeated.
pub(crate) fn is_ascending(items: &Items<'_>, from: Option<ItemId>, parent: Class) -> bool
    requires { Holds items.now from }
    ensures { IsTrue result → IsLeast (RepeatsAny parent (ahead items.now from) once) None }
{
    let mut last = 0;
    let mut at = from;
    while let Some(id) = at {
        match climbed(last, rank_of(items, id, parent)) {
            None => return false,
            Some(next) => last = next,
        }
        at = items.next(id);
    }
    true
}

// Whether a CRS is seen to break none of its own checks but that of dynamic parts. Else it may still break none.
pub(crate) fn passes_at_once(items: &Items<'_>, id: ItemId, class: Class, layout: Layout) -> bool
    requires has { HasId items.now id }
    requires shaped { Shaped class (item_at items.now id) }
    requires held { IsHeld items.now layout }
    requires laid { IsLaid items.now class (arguments (item_at items.now id)) layout }
    ensures { IsTrue result → PassesButDynamic class (arguments (item_at items.now id)) }
{
    laws::denotes_one();
    laws::same_number_is_equivalence();
    let Some(cs) = layout.system else {
        return false
    };
    if !is_only(items, cs, class, Class::CoordinateSystem, layout.axes) {
        return false;
    }
    let Some(system_type) = type_of(items, cs) else {
        return false
    };
    let Some(axes) = axes_until(items, class, layout.axes, layout.unit, system_type) else {
        return false;
    };
    let Some(shared) = shared_unit(items, class, layout.unit, layout.tail) else {
        return false;
    };
    if !head_fits(items, cs, class, system_type, axes.count) {
        return false;
    }
    if !is_ordered(items, id, class, axes) {
        return false;
    }
    if !units_fit(items, axes, shared) {
        return false;
    }
    is_ascending(items, layout.tail, class)
}
