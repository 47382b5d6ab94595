//! The arguments of a node, by their class.
ghost use Rattle.std.specs.Prelude.{◌≡◌, IsTrue, []};
ghost use Rattle.crs_text.specs.Items.{arguments, rest_of, here, HasId};
ghost use Rattle.crs_value.specs.Reading.{those};
ghost use Rattle.crs_value.specs.inner.Arguments.{item_at, ahead, Holds, IsFound};

use crs_shape::{Class, Sought};
use crs_text::{ItemId, Items};

#[inline(always)]
pub(crate) fn same_place(a: &Option<ItemId>, b: &Option<ItemId>) -> bool
    ensures { IsTrue result → a.now ≡ b.now }
{
    *a == *b
}

// The first argument of this class at `from` or after it; at `until` and after it there is none.
#[inline(always)]
pub(crate) fn first_from(
    items: &Items<'_>,
    from: Option<ItemId>,
    until: Option<ItemId>,
    parent: Class,
    class: Class,
) -> Option<ItemId>
    requires holds { Holds items.now from }
    requires none { those parent class (ahead items.now until) ≡ [] }
    ensures { IsFound items.now parent class (those parent class (ahead items.now from)) result }
{
    let sought = Sought::new(parent, class);
    let mut at = from;
    while let Some(id) = at {
        if same_place(&at, &until) {
            return None;
        }
        if sought.is(items, id) {
            return Some(id);
        }
        at = items.next(id);
    }
    None
}

// The first argument of this class.
#[inline(always)]
pub(crate) fn first(items: &Items<'_>, id: ItemId, parent: Class, class: Class) -> Option<ItemId>
    requires { HasId items.now id }
    ensures { IsFound items.now parent class (those parent class (arguments (item_at items.now id))) result }
{
    first_from(items, items.arg(id, 0), None, parent, class)
}

// The next argument of this class after this one.
#[inline(always)]
pub(crate) fn later(items: &Items<'_>, id: ItemId, parent: Class, class: Class) -> Option<ItemId>
    requires { HasId items.now id }
    ensures { IsFound items.now parent class (those parent class (rest_of (here items.now id))) result }
{
    first_from(items, items.next(id), None, parent, class)
}
