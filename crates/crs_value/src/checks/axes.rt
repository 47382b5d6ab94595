//! The checks of the axes of a CRS: their orders and their units.
ghost use Rattle.std.specs.Prelude.{◌≡◌, ◌↔◌, ◌≤◌, [], IsTrue, Some, length, take};
ghost use Rattle.crs_text.specs.Items.{HasId, arguments};
ghost use Rattle.crs_shape.specs.ShapeFault.{Shaped};
ghost use Rattle.crs_shape.specs.declared.class.Class.TheVariants as classes;
ghost use Rattle.crs_value.specs.inner.Cursor.{args, item};
ghost use Rattle.crs_value.specs.Checks.{IsPosition, HasThis, OneHas, LacksOrder, SomeHasOrder, BadOrders, orders_in, BadOrder, IsBadOrder, Asks, Fits, AllAsk, SharedFits, BadUnit, BadOwnUnit, HasOwnUnit, AnyOf, IsLeast};
ghost use Rattle.crs_value.specs.inner.Arguments.{from_found, AllShaped, item_at, Holds, TakesOne};
ghost use Rattle.crs_value.specs.inner.FirstArguments.{AreFirsts};
ghost use Rattle.crs_value.specs.Reading.{IsReading};
ghost use Rattle.crs_value.specs.Reads.{HasType, ReadsKind};

use crate::checks::crs::{has_some, type_of};
use crate::checks::{Check, Refused, any_from, lesser, only_of, refusal_at};
use crate::reading::{Cursor, Firsts, first, later, number, required};
use crs_decimal::{Decimal, laws as numbers};
use crs_shape::{Class, Direction, SystemType, UnitKind, laws};
use crs_text::{ItemId, Items, Refusal};

fn is_position(value: &Decimal, n: usize) -> bool
    ensures { IsTrue result ↔ IsPosition n value.now }
{
    numbers::same_number_is_equivalence();
    match value.whole() {
        None => false,
        Some(whole) => is_within(whole, n),
    }
}

fn is_within(whole: u64, n: usize) -> bool
    ensures { IsTrue result ↔ ((1 ≤ whole) × (whole ≤ n)) }
{
    1 <= whole && whole <= n as u64
}

fn same_value(a: &Decimal, b: &Decimal) -> bool
    ensures { IsTrue result ↔ (a.now ≡ b.now) }
{
    a == b
}

// Whether an axis has this order.
fn has_this(items: &Items<'_>, axis: ItemId, value: &Decimal) -> bool
    requires has { HasId items.now axis }
    requires shaped { Shaped Class.Axis (item_at items.now axis) }
    ensures { IsTrue result ↔ HasThis value.now (item_at items.now axis) }
{
    numbers::denotes_one();
    match first(items, axis, Class::Axis, Class::Order) {
        None => false,
        Some(order) => same_value(&number(items, order, Class::Order), value),
    }
}

// Whether one of the first `k` axes, from this one on, has this order.
fn one_has(items: &Items<'_>, class: Class, axis: Option<ItemId>, k: usize, value: &Decimal) -> bool
    requires holds { Holds items.now axis }
    requires shaped { AllShaped Class.Axis (from_found items.now class Class.Axis axis) }
    requires within { k ≤ length (from_found items.now class Class.Axis axis) }
    ensures { IsTrue result ↔ OneHas value.now (take k (from_found items.now class Class.Axis axis)) }
{
    let mut at = axis;
    for _step in 0..k {
        let Some(axis) = at else { unreachable!() };
        if has_this(items, axis, value) {
            return true;
        }
        at = later(items, axis, class, Class::Axis);
    }
    false
}

// 26: an order of an axis that is no position among the axes, or that one of the first `before` axes has.
fn wrong_order(
    crs: &Cursor<'_, '_>,
    firsts: &Firsts,
    axis: ItemId,
    before: usize,
) -> Option<Refusal>
    requires shaped { Shaped crs.now.class (item crs.now) }
    requires firsts { AreFirsts crs.now.items.now crs.now.class (arguments (item crs.now)) firsts.now }
    requires axis { HasId crs.now.items.now axis × Shaped Class.Axis (item_at crs.now.items.now axis) }
    requires within { before ≤ length (args Class.Axis crs.now) }
    ensures { IsLeast (AnyOf (IsBadOrder firsts.now.axes (take before (args Class.Axis crs.now)))
        (orders_in (item_at crs.now.items.now axis))) result }
{
    laws::slots_count();
    numbers::denotes_one();
    let items = crs.items;
    let order = first(items, axis, Class::Axis, Class::Order)?;
    let value = number(items, order, Class::Order);
    if !is_position(&value, firsts.axes) {
        return Some(refusal_at(items, order, 26));
    }
    if one_has(items, crs.class, firsts.axis, before, &value) {
        return Some(refusal_at(items, order, 26));
    }
    None
}

// 26: an axis that lacks an order.
struct Orderless;

impl Check for Orderless {
    ghost Fits = { λ s tree class. class ≡ classes.Axis };

    ghost Broken = { λ s tree item f. LacksOrder item f };

    fn check(&self, items: &Items<'_>, id: ItemId, _class: Class) -> Option<Refusal> {
        match first(items, id, Class::Axis, Class::Order) {
            None => Some(refusal_at(items, id, 26)),
            Some(_) => None,
        }
    }
}

// Whether some axis, from this one on, has an order.
fn some_has_order(items: &Items<'_>, class: Class, axis: Option<ItemId>) -> bool
    requires { Holds items.now axis }
    ensures { IsTrue result ↔ SomeHasOrder (from_found items.now class Class.Axis axis) }
{
    let mut at = axis;
    while let Some(axis) = at {
        if has_some(items, axis, Class::Axis, Class::Order) {
            return true;
        }
        at = later(items, axis, class, Class::Axis);
    }
    false
}

// 26: the first order that is no position or is repeated.
fn bad_orders(crs: &Cursor<'_, '_>, firsts: &Firsts) -> Option<Refusal>
    requires shaped { Shaped crs.now.class (item crs.now) }
    requires firsts { AreFirsts crs.now.items.now crs.now.class (arguments (item crs.now)) firsts.now }
    ensures { IsLeast (BadOrders (length (args Class.Axis crs.now)) [] (args Class.Axis crs.now)) result }
{
    // The axes are no more than the arguments, whose number is a usize.
    let items = crs.items;
    let class = crs.class;
    let _bound = items.arg_count(crs.id);
    let mut before = 0;
    let mut least = None;
    let mut at = firsts.axis;
    while let Some(axis) = at {
        least = lesser(least, wrong_order(crs, firsts, axis, before));
        before += 1;
        at = later(items, axis, class, Class::Axis);
    }
    least
}

// 26: an axis that lacks an order beside one that has it, or the first bad order.
pub(crate) fn bad_order(crs: &Cursor<'_, '_>, firsts: &Firsts) -> Option<Refusal>
    requires shaped { Shaped crs.now.class (item crs.now) }
    requires firsts { AreFirsts crs.now.items.now crs.now.class (arguments (item crs.now)) firsts.now }
    ensures { IsLeast (BadOrder (args Class.Axis crs.now)) result }
{
    let (items, class) = (crs.items, crs.class);
    match any_from(&Orderless, items, firsts.axis, class, Class::Axis) {
        None => bad_orders(crs, firsts),
        Some(lacks) if some_has_order(items, class, firsts.axis) => Some(lacks),
        Some(_) => None,
    }
}

// The kind of a unit, which its keyword tells. A number or text has none, but its bytes may be those of one.
fn kind_of(items: &Items<'_>, unit: ItemId) -> Option<UnitKind>
    requires { HasId items.now unit }
    ensures { IsReading (ReadsKind (item_at items.now unit)) result }
{
    match items.keyword(unit) {
        Some(keyword) => UnitKind::of(keyword),
        None => UnitKind::read(items.raw(unit)),
    }
}

// Whether a unit fits where this kind is asked.
pub(crate) fn fits(items: &Items<'_>, unit: ItemId, kind: UnitKind) -> bool
    requires { HasId items.now unit }
    ensures { IsTrue result ↔ Fits (item_at items.now unit) kind }
{
    match kind_of(items, unit) {
        None => false,
        Some(read) => read == UnitKind::Plain || read == kind,
    }
}

pub(crate) fn same_kind(a: UnitKind, b: UnitKind) -> bool
    ensures { IsTrue result ↔ (a ≡ b) }
{
    a == b
}

// What the units of axes are held against: a node `CS`, and the type that it has, if this is known.
#[derive(Clone, Copy)]
struct Asking {
    cs: ItemId,
    system_type: Option<SystemType>,
}

impl Asking {
    // The kind of unit that an axis asks for; None where a word isn't known.
    fn asked(&self, items: &Items<'_>, axis: ItemId) -> Option<UnitKind>
        requires axis { HasId items.now axis }
        requires system { IsReading (HasType (item_at items.now self.now.cs)) self.now.system_type }
        requires shaped { Shaped Class.Axis (item_at items.now axis) }
        ensures { IsReading (Asks (item_at items.now self.now.cs) (item_at items.now axis)) result }
    {
        let system_type = self.system_type?;
        let word = required(items, axis, Class::Axis, Class::Word);
        let direction = Direction::read(items.raw(word))?;
        Some(system_type.asked_kind(direction))
    }

    // Whether an axis asks for this kind of unit.
    fn asks(&self, items: &Items<'_>, axis: ItemId, kind: UnitKind) -> bool
        requires axis { HasId items.now axis }
        requires system { IsReading (HasType (item_at items.now self.now.cs)) self.now.system_type }
        requires shaped { Shaped Class.Axis (item_at items.now axis) }
        ensures { IsTrue result ↔ Asks (item_at items.now self.now.cs) (item_at items.now axis) kind }
    {
        match self.asked(items, axis) {
            None => false,
            Some(asked) => same_kind(asked, kind),
        }
    }

    // Whether a shared unit fits all axes of a CRS as one of this kind.
    fn fits_as(&self, crs: &Cursor<'_, '_>, unit: ItemId, kind: UnitKind) -> bool
        requires unit { HasId crs.now.items.now unit }
        requires system { IsReading (HasType (item_at crs.now.items.now self.now.cs)) self.now.system_type }
        requires shaped { Shaped crs.now.class (item crs.now) }
        ensures { IsTrue result ↔ (AllAsk (item_at crs.now.items.now self.now.cs) (args classes.Axis crs.now) kind
            × Fits (item_at crs.now.items.now unit) kind) }
    {
        // Mostly the unit says its kind, which is asked first: then the axes are asked for that kind alone.
        let (items, class) = (crs.items, crs.class);
        if !fits(items, unit, kind) {
            return false;
        }
        let mut at = first(items, crs.id, class, Class::Axis);
        while let Some(axis) = at {
            if !self.asks(items, axis, kind) {
                return false;
            }
            at = later(items, axis, class, Class::Axis);
        }
        true
    }

    // Whether a shared unit fits all axes of a CRS.
    fn fits(&self, crs: &Cursor<'_, '_>, unit: ItemId) -> bool
        requires unit { HasId crs.now.items.now unit }
        requires system { IsReading (HasType (item_at crs.now.items.now self.now.cs)) self.now.system_type }
        requires shaped { Shaped crs.now.class (item crs.now) }
        ensures { IsTrue result ↔ SharedFits (item_at crs.now.items.now self.now.cs) (args classes.Axis crs.now)
            (item_at crs.now.items.now unit) }
    {
        self.fits_as(crs, unit, UnitKind::Length)
            || self.fits_as(crs, unit, UnitKind::Angle)
            || self.fits_as(crs, unit, UnitKind::Scale)
            || self.fits_as(crs, unit, UnitKind::Plain)
    }
}

// 27: with no shared unit, an axis without a unit, or whose unit doesn't fit.
impl Check for Asking {
    ghost Fits = { λ s tree class. IsReading (HasType (item_at tree s.cs)) s.system_type × (class ≡ classes.Axis) };

    ghost Broken = { λ s tree item f. BadOwnUnit (item_at tree s.cs) item f };

    fn check(&self, items: &Items<'_>, id: ItemId, _class: Class) -> Option<Refusal> {
        laws::slots_count();
        let Some(unit) = first(items, id, Class::Axis, Class::AxisUnit) else {
            return Some(refusal_at(items, id, 27));
        };
        let kind = self.asked(items, id)?;
        if fits(items, unit, kind) {
            None
        } else {
            Some(refusal_at(items, unit, 27))
        }
    }
}

// 27: with a shared unit, a unit on an axis.
#[derive(Drop)]
struct NoUnit;

impl Check for NoUnit {
    ghost Fits = { λ s tree class. class ≡ classes.Axis };

    ghost Broken = { λ s tree item f. HasOwnUnit item f };

    fn check(&self, items: &Items<'_>, id: ItemId, _class: Class) -> Option<Refusal> {
        let class = Class::Axis;
        let axis = Cursor { items, id, class };
        only_of(&Refused::<27>, &axis, Class::AxisUnit)
    }
}

// 27: a unit that is missing, doesn't fit, or is beside a shared one.
pub(crate) fn bad_unit(crs: &Cursor<'_, '_>, firsts: &Firsts) -> Option<Refusal>
    requires shaped { Shaped crs.now.class (item crs.now) }
    requires once { TakesOne crs.now.class Class.CoordinateSystem }
    requires firsts { AreFirsts crs.now.items.now crs.now.class (arguments (item crs.now)) firsts.now }
    ensures { IsLeast (AnyOf (BadUnit (args Class.Axis crs.now) (args Class.AxisUnit crs.now))
        (args Class.CoordinateSystem crs.now)) result }
{
    laws::slots_count();
    let Some(cs) = firsts.system else { return None };
    let (items, class) = (crs.items, crs.class);
    let system_type = type_of(items, cs);
    let asking = Asking { cs, system_type };
    let Some(unit) = firsts.unit else {
        return any_from(&asking, items, firsts.axis, class, Class::Axis);
    };
    let beside = any_from(&NoUnit, items, firsts.axis, class, Class::Axis);
    if asking.fits(crs, unit) {
        beside
    } else {
        lesser(beside, Some(refusal_at(items, unit, 27)))
    }
}
