//! The arguments of a node, by their class.
ghost use Rattle.std.specs.Prelude.{◌≡◌, IsTrue, drop};
ghost use Rattle.crs_text.specs.Items.{arguments, rest_of, here, HasId};
ghost use Rattle.crs_value.specs.inner.Arguments.{from_found, item_at, ahead, Holds};
ghost use Rattle.crs_value.specs.Reading.{those};
ghost use Rattle.crs_writer.specs.inner.FromItems.{AreLeaves};

use crs_shape::{Class, Sought};
use crs_text::{ItemId, Items};

/// Whether no argument of a node is a node, as most are that have no identifiers. Profile.
#[inline(always)]
pub fn is_flat(items: &Items<'_>, id: ItemId) -> bool
    requires { HasId items.now id }
    ensures { IsTrue result → AreLeaves (arguments (item_at items.now id)) }
{
    items.size(id).saturating_sub(1) == items.arg_count(id)
}

// The first argument of this class from this one on.
#[inline(always)]
fn found(items: &Items<'_>, from: Option<ItemId>, parent: Class, class: Class) -> Option<ItemId>
    requires { Holds items.now from }
    ensures holds { Holds items.now result }
    ensures all { from_found items.now parent class result ≡ those parent class (ahead items.now from) }
{
    let sought = Sought::new(parent, class);
    let mut at = from;
    while let Some(id) = at {
        if sought.is(items, id) {
            return Some(id);
        }
        at = items.next(id);
    }
    None
}

/// The first argument of this class. Profile.
#[inline(always)]
pub fn first(items: &Items<'_>, id: ItemId, parent: Class, class: Class) -> Option<ItemId>
    requires { HasId items.now id }
    ensures holds { Holds items.now result }
    ensures all { from_found items.now parent class result ≡ those parent class (arguments (item_at items.now id)) }
{
    found(items, items.arg(id, 0), parent, class)
}

/// The next argument of this class after this one. Profile.
#[inline(always)]
pub fn later(items: &Items<'_>, id: ItemId, parent: Class, class: Class) -> Option<ItemId>
    requires { HasId items.now id }
    ensures holds { Holds items.now result }
    ensures all { from_found items.now parent class result ≡ those parent class (rest_of (here items.now id)) }
{
    found(items, items.next(id), parent, class)
}

/// Argument number `k` of this class, the first being 0. Profile.
#[inline(always)]
pub fn nth(items: &Items<'_>, id: ItemId, parent: Class, class: Class, k: usize) -> Option<ItemId>
    requires { HasId items.now id }
    ensures holds { Holds items.now result }
    ensures all { from_found items.now parent class result
        ≡ drop k (those parent class (arguments (item_at items.now id))) }
{
    let mut at = first(items, id, parent, class);
    for _step in 0..k {
        let Some(found) = at else { return None };
        at = later(items, found, parent, class);
    }
    at
}
