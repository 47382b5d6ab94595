//! Checks of items of the right shape: which is broken first.
pub(crate) mod axes;
pub(crate) mod crs;
pub(crate) mod own;

ghost use Rattle.std.specs.Prelude.{◌≡◌, IsTrue};
ghost use Rattle.crs_text.specs.Items.{Item, HasId};
ghost use Rattle.crs_text.specs.Refusal.{RefusedAt, is_refusal};
ghost use Rattle.crs_shape.specs.declared.class.Class.{Class};
ghost use Rattle.crs_shape.specs.ShapeFault.{Shaped};
ghost use Rattle.crs_value.specs.Checks.{at, AnyOf, IsLeast};
ghost use Rattle.crs_value.specs.inner.Cursor.{args, item};
ghost use Rattle.crs_value.specs.inner.Arguments.{from_found, AllShaped, lesser, item_at, Holds, TakesOne};

use crate::reading::{Cursor, first, later};
use crs_shape::{Class, laws};
use crs_text::{ItemId, Items, Refusal};

// The first of two refusals.
pub(crate) fn lesser(a: Option<Refusal>, b: Option<Refusal>) -> Option<Refusal>
    ensures { result ≡ lesser a b }
{
    let Some(x) = a else { return b };
    let Some(y) = b else { return a };
    if y.is_before(x) { b } else { a }
}

// The refusal with this number at an item's first byte.
pub(crate) fn refusal_at(items: &Items<'_>, id: ItemId, number: u8) -> Refusal
    requires has { HasId items.now id }
    requires known { IsTrue (is_refusal number) }
    ensures { result ≡ at number (item_at items.now id) }
{
    Refusal::new(number, items.place(id)).unwrap()
}

// A check on the items of one class.
pub(crate) trait Check {
    ghost Fits: { Self → Item → Class → Type 0 };

    ghost Broken: { Self → Item → Item → RefusedAt → Type 0 };

    fn check(&self, items: &Items<'_>, id: ItemId, class: Class) -> Option<Refusal>
        requires has { HasId items.now id }
        requires fits { Fits self.now items.now class }
        requires shaped { Shaped class (item_at items.now id) }
        ensures { IsLeast (Broken self.now items.now (item_at items.now id)) result };
}

// A check that any item breaks: it is refused with this number.
pub(crate) struct Refused<const NUMBER: u8>;

impl<const NUMBER: u8> Check for Refused<NUMBER> {
    ghost Fits = { λ s tree class. IsTrue (is_refusal NUMBER) };

    ghost Broken = { λ s tree item f. f ≡ at NUMBER item };

    fn check(&self, items: &Items<'_>, id: ItemId, _class: Class) -> Option<Refusal> {
        Some(refusal_at(items, id, NUMBER))
    }
}

// The first break among the items of one class from this one on.
pub(crate) fn any_from<C: Check>(
    check: &C,
    items: &Items<'_>,
    from: Option<ItemId>,
    parent: Class,
    class: Class,
) -> Option<Refusal>
    requires holds { Holds items.now from }
    requires fits { C.Fits check.now items.now class }
    requires shaped { AllShaped class (from_found items.now parent class from) }
    ensures { IsLeast (AnyOf (C.Broken check.now items.now) (from_found items.now parent class from)) result }
{
    let mut least = None;
    let mut at = from;
    while let Some(found) = at {
        least = lesser(least, check.check(items, found, class));
        at = later(items, found, parent, class);
    }
    least
}

// The break of a node's argument of a class that it may have once.
#[inline(always)]
pub(crate) fn only_of<C: Check>(check: &C, node: &Cursor<'_, '_>, class: Class) -> Option<Refusal>
    requires fits { C.Fits check.now node.now.items.now class }
    requires shaped { Shaped node.now.class (item node.now) }
    requires once { TakesOne node.now.class class }
    ensures { IsLeast (AnyOf (C.Broken check.now node.now.items.now) (args class node.now)) result }
{
    laws::slots_count();
    match first(node.items, node.id, node.class, class) {
        None => None,
        Some(found) => check.check(node.items, found, class),
    }
}
