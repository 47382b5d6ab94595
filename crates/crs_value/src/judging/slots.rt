//! A walk over the arguments of a node, slot by slot.
ghost use Rattle.std.specs.Prelude.{◌≡◌, IfSome, List, Some, ◌∷◌, [], ◌++◌};
ghost use Rattle.crs_text.specs.Items.{HasId};
ghost use Rattle.crs_shape.specs.declared.class.Class.{Class};
ghost use Rattle.crs_shape.specs.ShapeFault.{misplaced, missing};
ghost use Rattle.crs_shape.specs.Shape.{SlotParts, one_of, optional_of, any_of, some_of};
ghost use Rattle.crs_value.specs.inner.Judged.{AllLeave, AllPassed, Answers, Leaves, Passed, Walked};
ghost use Rattle.crs_value.specs.inner.Arguments.{item_at, Holds};

use crs_shape::{Class, misplaced};
use crs_text::{ItemId, Items, Refusal};

// what a slot takes, as a type: by the class's place and its row, or one of its own, where types would nest too deep
macro_rules! taken {
    (Number) => { OfClass<0, row!(Number, chain, ())> };
    (Text) => { OfClass<1, row!(Text, chain, ())> };
    (Word) => { OfClass<2, row!(Word, chain, ())> };
    (GeodeticCrs) => { Single<3> };
    (GeographicCrs) => { Single<4> };
    (ProjectedCrs) => { Single<5> };
    (VerticalCrs) => { Single<6> };
    (BaseCrs) => { OfClass<8, row!(BaseCrs, chain, ())> };
    (Dynamic) => { OfClass<9, row!(Dynamic, chain, ())> };
    (FrameEpoch) => { OfClass<10, row!(FrameEpoch, chain, ())> };
    (DeformationModel) => { OfClass<11, row!(DeformationModel, chain, ())> };
    (GeodeticFrame) => { GeodeticFrame };
    (VerticalFrame) => { OfClass<13, row!(VerticalFrame, chain, ())> };
    (GeodeticEnsemble) => { GeodeticEnsemble };
    (VerticalEnsemble) => { OfClass<15, row!(VerticalEnsemble, chain, ())> };
    (Member) => { OfClass<16, row!(Member, chain, ())> };
    (EnsembleAccuracy) => { OfClass<17, row!(EnsembleAccuracy, chain, ())> };
    (Anchor) => { OfClass<18, row!(Anchor, chain, ())> };
    (AnchorEpoch) => { OfClass<19, row!(AnchorEpoch, chain, ())> };
    (Ellipsoid) => { OfClass<20, row!(Ellipsoid, chain, ())> };
    (PrimeMeridian) => { OfClass<21, row!(PrimeMeridian, chain, ())> };
    (PlainUnit) => { OfClass<22, row!(PlainUnit, chain, ())> };
    (LengthUnit) => { OfClass<23, row!(LengthUnit, chain, ())> };
    (AngleUnit) => { OfClass<24, row!(AngleUnit, chain, ())> };
    (ScaleUnit) => { OfClass<25, row!(ScaleUnit, chain, ())> };
    (AxisUnit) => { OfClass<26, row!(AxisUnit, chain, ())> };
    (CoordinateSystem) => { OfClass<27, row!(CoordinateSystem, chain, ())> };
    (Axis) => { OfClass<28, row!(Axis, chain, ())> };
    (AxisMeridian) => { OfClass<29, row!(AxisMeridian, chain, ())> };
    (Order) => { OfClass<30, row!(Order, chain, ())> };
    (Conversion) => { OfClass<31, row!(Conversion, chain, ())> };
    (Method) => { OfClass<32, row!(Method, chain, ())> };
    (Parameter) => { Parameter };
    (GeoidModel) => { OfClass<34, row!(GeoidModel, chain, ())> };
    (Usage) => { OfClass<35, row!(Usage, chain, ())> };
    (Scope) => { OfClass<36, row!(Scope, chain, ())> };
    (Area) => { OfClass<37, row!(Area, chain, ())> };
    (BoundingBox) => { OfClass<38, row!(BoundingBox, chain, ())> };
    (VerticalExtent) => { VerticalExtent };
    (Identifier) => { Identifier };
    (Citation) => { OfClass<41, row!(Citation, chain, ())> };
    (Uri) => { OfClass<42, row!(Uri, chain, ())> };
    (Remark) => { OfClass<43, row!(Remark, chain, ())> };
    ($part:ident, $($more:ident),+) => { Either<taken!($part), taken!($($more),+)> };
}

// the slots of a class, as a type
macro_rules! chain {
    (() [$($keyword:ident),*] $($slots:tt)*) => { chain!($($slots)*) };
    () => { End };
    (one($($part:ident),+) $($slots:tt)*) => { Then<One<taken!($($part),+)>, chain!($($slots)*)> };
    (optional($($part:ident),+) $($slots:tt)*) => { Then<Optional<taken!($($part),+)>, chain!($($slots)*)> };
    (any($($part:ident),+) $($slots:tt)*) => { Then<Any<taken!($($part),+)>, chain!($($slots)*)> };
    (some($($part:ident),+) $($slots:tt)*) => { Then<OneOrMore<taken!($($part),+)>, chain!($($slots)*)> };
}

// an item as a CRS with a coordinate system; its slots before that are told apart
macro_rules! judge_crs {
    ($class:ident, $($given:ident),+) => { row!($class, judge_crs, ($class, $($given),+)) };
    ($with:tt [$($keyword:ident),*] $($slots:tt)*) => { judge_crs!(@ $with [] $($slots)*) };
    (@ ($class:ident, $($given:ident),+) [$($head:tt)*]
        one(CoordinateSystem) some(Axis) optional(AxisUnit) any($($part:ident),+)) => {
        crs_judged::<chain!($($head)*), taken!($($part),+)>(Class::$class, $($given),+)
    };
    (@ $with:tt [$($head:tt)*] $count:ident $parts:tt $($slots:tt)*) => {
        judge_crs!(@ $with [$($head)* $count $parts] $($slots)*)
    };
}

pub(crate) use chain;
pub(crate) use judge_crs;
pub(crate) use taken;

// The first fault that was found, if any was.
pub(crate) type Breach = Option<Refusal>;

// The first argument behind those of a slot, if there is one; None where a fault of shape was found.
pub(crate) type Rest = Option<Option<ItemId>>;

// A node whose arguments are walked over: the items that it is among, its class, and the place where it is closed.
#[derive(Clone, Copy)]
pub(crate) struct Parent<'i, 'a> {
    pub(crate) items: &'i Items<'a>,
    pub(crate) class: Class,
    pub(crate) close: usize,
}

// What a slot takes.
pub(crate) trait Part {
    ghost classes: { List Class };

    // Each class within has the slots that it is judged by.
    ghost fits: { Type 0 } = { Unit {0} };

    // Whether an argument fits one of these classes, or None where it is of none; what it breaks joins what was found.
    fn judge(items: &Items<'_>, id: ItemId, parent: Class, found: &mut Breach) -> Option<bool>
        requires has { HasId items.now id }
        requires fits { fits }
        ensures { Answers parent classes (item_at items.now id) found.old result found.new };
}

// A slot.
pub(crate) trait Slot {
    ghost slot: { SlotParts };

    ghost fits: { Type 0 };

    // The arguments behind those of the slot; what these break joins what was found.
    fn pass(parent: Parent<'_, '_>, at: Option<ItemId>, found: &mut Breach) -> Rest
        requires holds { Holds parent.items.now at }
        requires fits { fits }
        ensures holds { IfSome result (λ next. Holds parent.entry.items.now next) }
        ensures leaves { IfSome result (λ next. Leaves parent.entry.items.now parent.entry.class slot at next) }
        ensures passed { Passed parent.entry.items.now parent.entry.class parent.entry.close slot at found.old
            result found.new };
}

// Slots one after another.
pub(crate) trait Slots {
    ghost slots: { List SlotParts };

    ghost fits: { Type 0 } = { Unit {0} };

    // The arguments behind those of these slots, as `pass` of one slot.
    fn pass(parent: Parent<'_, '_>, at: Option<ItemId>, found: &mut Breach) -> Rest
        requires holds { Holds parent.items.now at }
        requires fits { fits }
        ensures holds { IfSome result (λ next. Holds parent.entry.items.now next) }
        ensures leaves { IfSome result (λ next. AllLeave parent.entry.items.now parent.entry.class slots at next) }
        ensures passed { AllPassed parent.entry.items.now parent.entry.class parent.entry.close slots at found.old
            result found.new };
}

// The walk stops where an argument is missing.
#[cold]
fn stop_short(close: usize, found: &mut Breach)
    ensures { found.new ≡ Some (missing close) }
{
    *found = Some(Refusal::new(13, close).unwrap());
}

// The walk stops at an argument that isn't allowed where it is.
#[cold]
fn stop_at(items: &Items<'_>, id: ItemId, found: &mut Breach)
    requires { HasId items.now id }
    ensures { found.new ≡ Some (misplaced (item_at items.now id)) }
{
    *found = Some(misplaced(items, id));
}

// Whether no argument is left; the walk stops at one.
#[inline(always)]
pub(crate) fn ends(parent: Parent<'_, '_>, at: Option<ItemId>, found: &mut Breach) -> bool
    requires { Holds parent.items.now at }
    ensures { Walked parent.entry.items.now parent.entry.class parent.entry.close [] at found.old result found.new }
{
    let Some(id) = at else { return true };
    stop_at(parent.items, id, found);
    false
}

// One argument.
pub(crate) struct One<P>(P);

impl<P: Part> Slot for One<P> {
    ghost slot = { one_of P.classes };

    ghost fits = { P.fits };

    #[inline(always)]
    fn pass(parent: Parent<'_, '_>, at: Option<ItemId>, found: &mut Breach) -> Rest {
        let Some(id) = at else {
            stop_short(parent.close, found);
            return None;
        };
        match P::judge(parent.items, id, parent.class, found) {
            None => {
                stop_at(parent.items, id, found);
                None
            }
            Some(false) => None,
            Some(true) => Some(parent.items.next(id)),
        }
    }
}

// None or one argument.
pub(crate) struct Optional<P>(P);

impl<P: Part> Slot for Optional<P> {
    ghost slot = { optional_of P.classes };

    ghost fits = { P.fits };

    #[inline(always)]
    fn pass(parent: Parent<'_, '_>, at: Option<ItemId>, found: &mut Breach) -> Rest {
        let Some(id) = at else { return Some(None) };
        match P::judge(parent.items, id, parent.class, found) {
            None => Some(Some(id)),
            Some(false) => None,
            Some(true) => Some(parent.items.next(id)),
        }
    }
}

// Any number of arguments.
pub(crate) struct Any<P>(P);

impl<P: Part> Slot for Any<P> {
    ghost slot = { any_of P.classes };

    ghost fits = { P.fits };

    #[inline(always)]
    fn pass(parent: Parent<'_, '_>, at: Option<ItemId>, found: &mut Breach) -> Rest {
        let mut next = at;
        while let Some(id) = next {
            match P::judge(parent.items, id, parent.class, found) {
                None => return Some(Some(id)),
                Some(false) => return None,
                Some(true) => next = parent.items.next(id),
            }
        }
        Some(None)
    }
}

// One argument or more.
pub(crate) struct OneOrMore<P>(P);

impl<P: Part> Slot for OneOrMore<P> {
    ghost slot = { some_of P.classes };

    ghost fits = { P.fits };

    #[inline(always)]
    fn pass(parent: Parent<'_, '_>, at: Option<ItemId>, found: &mut Breach) -> Rest {
        match One::<P>::pass(parent, at, found) {
            None => None,
            Some(next) => Any::<P>::pass(parent, next, found),
        }
    }
}

// A slot before others.
pub(crate) struct Then<A, S>(A, S);

impl<A: Slot, S: Slots> Slots for Then<A, S> {
    ghost slots = { A.slot ∷ S.slots };

    ghost fits = { A.fits × S.fits };

    #[inline(always)]
    fn pass(parent: Parent<'_, '_>, at: Option<ItemId>, found: &mut Breach) -> Rest {
        match A::pass(parent, at, found) {
            None => None,
            Some(next) => S::pass(parent, next, found),
        }
    }
}

// No slots.
pub(crate) struct End;

impl Slots for End {
    ghost slots = { [] };

    #[inline(always)]
    fn pass(_parent: Parent<'_, '_>, at: Option<ItemId>, _found: &mut Breach) -> Rest {
        Some(at)
    }
}

// An argument of one of two sets of classes.
pub(crate) struct Either<A, B>(A, B);

impl<A: Part, B: Part> Part for Either<A, B> {
    ghost classes = { A.classes ++ B.classes };

    ghost fits = { A.fits × B.fits };

    #[inline(always)]
    fn judge(items: &Items<'_>, id: ItemId, parent: Class, found: &mut Breach) -> Option<bool> {
        match A::judge(items, id, parent, found) {
            None => B::judge(items, id, parent, found),
            Some(ok) => Some(ok),
        }
    }
}
