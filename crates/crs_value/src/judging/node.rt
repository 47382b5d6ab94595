//! A node as one of a class, whose arguments are walked over and then its own checks are made.
ghost use Rattle.std.specs.Prelude.{◌≡◌, ◌<◌, IsTrue, Some, true, length, [], ◌∷◌, ◌++◌};
ghost use Rattle.crs_text.specs.Items.{HasId, close_of};
ghost use Rattle.crs_shape.specs.declared.class.Class.TheVariants as kinds;
ghost use Rattle.crs_shape.specs.Keywords.{every_class, root_classes};
ghost use Rattle.crs_shape.specs.ShapeFault.{is_of};
ghost use Rattle.crs_shape.specs.Shape.{any_of, slots_of};
ghost use Rattle.crs_value.specs.inner.ReadOnce.{HasSystem};
ghost use Rattle.crs_value.specs.inner.Arguments.{IsAmong, lesser, item_at, Holds};
ghost use Rattle.crs_value.specs.inner.Judged.{class_at, Answers, Judged};
ghost use Rattle.crs_value.specs.inner.QuickChecks.{is_head, is_tail, rest_slots, Laid};

use crate::checks::crs::{bad_dynamic, whole_crs};
use crate::checks::lesser;
use crate::checks::own::own_of_part;
use crate::judging::quick_checks::{Layout, passes_at_once};
use crate::judging::slots::{
    Any, Breach, Either, End, One, OneOrMore, Optional, Parent, Part, Slot, Slots, Then, chain,
    ends, judge_crs, taken,
};
use crate::reading::{Cursor, first_from};
use crs_shape::{Class, classes, laws, row, stands_as};
use crs_text::{ItemId, Items, Refusal};

// What was found is joined by what a node breaks by itself, which mostly is nothing: then nothing is written.
#[inline(always)]
fn join(found: &mut Breach, own: Option<Refusal>)
    ensures { found.new ≡ lesser found.old own }
{
    match own {
        None => {}
        Some(_) => *found = lesser(*found, own),
    }
}

// Whether a node that may be of this class, which has these slots, fits it; what it breaks joins what was found.
#[inline(never)]
fn node_judged<S: Slots>(
    items: &Items<'_>,
    id: ItemId,
    class: Class,
    close: usize,
    found: &mut Breach,
) -> bool
    requires has { HasId items.now id }
    requires of { IsTrue (is_of class (item_at items.now id)) }
    requires close { close_of (item_at items.now id) ≡ Some close }
    requires slots { slots_of class ≡ S.slots }
    requires fits { S.fits }
    requires part { ¬ (HasSystem class) }
    ensures { Judged class (item_at items.now id) found.old result found.new }
{
    laws::walk_finds_the_fault();
    let parent = Parent {
        items,
        class,
        close,
    };
    let Some(end) = S::pass(parent, items.arg(id, 0), found) else {
        return false
    };
    if !ends(parent, end, found) {
        return false;
    }
    join(found, own_of_part(items, id, class));
    true
}

// Where the parts of a CRS begin, by its slots before its coordinate system and what its last slot takes; None where a
// fault of shape was found. What its arguments break joins what was found.
#[inline(always)]
fn laid<H: Slots, T: Part>(
    parent: Parent<'_, '_>,
    at: Option<ItemId>,
    found: &mut Breach,
) -> Option<Layout>
    requires holds { Holds parent.items.now at }
    requires fits { H.fits × T.fits }
    requires head { is_head H.slots ≡ true }
    requires tail { is_tail (any_of T.classes) ≡ true }
    ensures { Laid parent.entry.items.now parent.entry.class parent.entry.close (H.slots ++ rest_slots (any_of
        T.classes)) at found.old result found.new }
{
    let system = H::pass(parent, at, found)?;
    let layout = Layout {
        system,
        ..Layout::default()
    };
    let axes = One::<taken!(CoordinateSystem)>::pass(parent, layout.system, found)?;
    let layout = Layout { axes, ..layout };
    let unit = OneOrMore::<taken!(Axis)>::pass(parent, layout.axes, found)?;
    let layout = Layout { unit, ..layout };
    let tail = Optional::<taken!(AxisUnit)>::pass(parent, layout.unit, found)?;
    let layout = Layout { tail, ..layout };
    let end = Any::<T>::pass(parent, layout.tail, found)?;
    if !ends(parent, end, found) {
        return None;
    }
    Some(layout)
}

// Whether an item that may be a CRS of this class, with a coordinate system, fits it; what it breaks joins what was found.
fn crs_judged<H: Slots, T: Part>(
    class: Class,
    items: &Items<'_>,
    id: ItemId,
    found: &mut Breach,
) -> bool
    requires has { HasId items.now id }
    requires of { IsTrue (is_of class (item_at items.now id)) }
    requires slots { slots_of class ≡ H.slots ++ rest_slots (any_of T.classes) }
    requires fits { H.fits × T.fits }
    requires head { is_head H.slots ≡ true }
    requires tail { is_tail (any_of T.classes) ≡ true }
    requires system { HasSystem class }
    ensures { Judged class (item_at items.now id) found.old result found.new }
{
    laws::walk_finds_the_fault();
    // A word or a number, which alone aren't closed, is no CRS, and has no arguments that could be wrong.
    let Some(close) = items.close(id) else {
        return true
    };
    let mut inside = None;
    let parent = Parent {
        items,
        class,
        close,
    };
    let Some(layout) = laid::<H, T>(parent, items.arg(id, 0), &mut inside) else {
        *found = inside;
        return false;
    };
    // A dynamic part is before the coordinate system.
    let first = items.arg(id, 0);
    let dynamic = first_from(items, first, layout.system, class, Class::Dynamic);
    // Mostly its own checks are seen at once to hold.
    if passes_at_once(items, id, class, layout) {
        let own = bad_dynamic(&Cursor { items, id, class }, dynamic);
        join(found, lesser(inside, own));
        return true;
    }
    join(found, whole_crs(&Cursor { items, id, class }, inside));
    true
}

// An argument as one of a class without a system, with these slots; None where it is of another. No node needs no call.
#[inline(always)]
fn part<S: Slots>(
    class: Class,
    items: &Items<'_>,
    id: ItemId,
    parent: Class,
    found: &mut Breach,
) -> Option<bool>
    requires has { HasId items.now id }
    requires slots { slots_of class ≡ S.slots }
    requires fits { S.fits }
    requires part { ¬ (HasSystem class) }
    ensures { Answers parent (class ∷ []) (item_at items.now id) found.old result found.new }
{
    laws::walk_finds_the_fault();
    if !stands_as(items, id, parent, class) {
        return None;
    }
    match items.close(id) {
        None => Some(true),
        Some(close) => Some(node_judged::<S>(items, id, class, close, found)),
    }
}

// The class at this place among all.
#[inline(always)]
fn class_at(place: u8) -> Class
    requires { place < length every_class }
    ensures { result ≡ class_at place }
{
    classes()[place as usize]
}

// An item of the class at this place, without a coordinate system, which has these slots.
pub(crate) struct OfClass<const PLACE: u8, S>(S);

impl<const PLACE: u8, S: Slots> Part for OfClass<PLACE, S> {
    ghost classes = { class_at PLACE ∷ [] };

    ghost fits = { (PLACE < length every_class)
        × ((¬ (HasSystem (class_at PLACE))) × ((slots_of (class_at PLACE) ≡ S.slots) × S.fits)) };

    #[inline(always)]
    fn judge(items: &Items<'_>, id: ItemId, parent: Class, found: &mut Breach) -> Option<bool> {
        part::<S>(class_at(PLACE), items, id, parent, found)
    }
}

// An identifier.
pub(crate) struct Identifier;

impl Part for Identifier {
    ghost classes = { kinds.Identifier ∷ [] };

    fn judge(items: &Items<'_>, id: ItemId, parent: Class, found: &mut Breach) -> Option<bool> {
        part::<row!(Identifier, chain, ())>(Class::Identifier, items, id, parent, found)
    }
}

// A parameter.
pub(crate) struct Parameter;

impl Part for Parameter {
    ghost classes = { kinds.Parameter ∷ [] };

    fn judge(items: &Items<'_>, id: ItemId, parent: Class, found: &mut Breach) -> Option<bool> {
        part::<row!(Parameter, chain, ())>(Class::Parameter, items, id, parent, found)
    }
}

// An extent in height.
pub(crate) struct VerticalExtent;

impl Part for VerticalExtent {
    ghost classes = { kinds.VerticalExtent ∷ [] };

    fn judge(items: &Items<'_>, id: ItemId, parent: Class, found: &mut Breach) -> Option<bool> {
        part::<row!(VerticalExtent, chain, ())>(Class::VerticalExtent, items, id, parent, found)
    }
}

// A geodetic reference frame.
pub(crate) struct GeodeticFrame;

impl Part for GeodeticFrame {
    ghost classes = { kinds.GeodeticFrame ∷ [] };

    fn judge(items: &Items<'_>, id: ItemId, parent: Class, found: &mut Breach) -> Option<bool> {
        part::<row!(GeodeticFrame, chain, ())>(Class::GeodeticFrame, items, id, parent, found)
    }
}

// A geodetic ensemble.
pub(crate) struct GeodeticEnsemble;

impl Part for GeodeticEnsemble {
    ghost classes = { kinds.GeodeticEnsemble ∷ [] };

    fn judge(items: &Items<'_>, id: ItemId, parent: Class, found: &mut Breach) -> Option<bool> {
        part::<row!(GeodeticEnsemble, chain, ())>(Class::GeodeticEnsemble, items, id, parent, found)
    }
}

// A CRS with a coordinate system, of the class at this place.
pub(crate) struct Single<const PLACE: u8>;

impl<const PLACE: u8> Part for Single<PLACE> {
    ghost classes = { class_at PLACE ∷ [] };

    ghost fits = { (PLACE < length every_class) × HasSystem (class_at PLACE) };

    fn judge(items: &Items<'_>, id: ItemId, parent: Class, found: &mut Breach) -> Option<bool> {
        laws::walk_finds_the_fault();
        let class = class_at(PLACE);
        if !stands_as(items, id, parent, class) {
            return None;
        }
        Some(single_judged(items, id, class, found))
    }
}

// Whether an item that may be a CRS of this class, with a coordinate system, fits it; what it breaks joins what was found.
fn single_judged(items: &Items<'_>, id: ItemId, class: Class, found: &mut Breach) -> bool
    requires has { HasId items.now id }
    requires of { IsTrue (is_of class (item_at items.now id)) }
    requires system { HasSystem class }
    ensures { Judged class (item_at items.now id) found.old result found.new }
{
    match class {
        Class::GeodeticCrs => judge_crs!(GeodeticCrs, items, id, found),
        Class::GeographicCrs => judge_crs!(GeographicCrs, items, id, found),
        Class::ProjectedCrs => judge_crs!(ProjectedCrs, items, id, found),
        Class::VerticalCrs => judge_crs!(VerticalCrs, items, id, found),
        _ => unreachable!(),
    }
}

// Whether a whole text has no fault of shape as a CRS of this class; what it breaks joins what was found.
pub(crate) fn root_judged(items: &Items<'_>, id: ItemId, class: Class, found: &mut Breach) -> bool
    requires has { HasId items.now id }
    requires of { IsTrue (is_of class (item_at items.now id)) }
    requires root { IsAmong root_classes class }
    ensures { Judged class (item_at items.now id) found.old result found.new }
{
    match class {
        Class::CompoundCrs => match items.close(id) {
            // No CRS: see `crs_judged`.
            None => true,
            Some(close) => node_judged::<row!(CompoundCrs, chain, ())>(
                items, id, class, close, found,
            ),
        },
        _ => single_judged(items, id, class, found),
    }
}
