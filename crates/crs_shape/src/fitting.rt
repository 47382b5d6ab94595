//! Whether items have the shape of a class, and what could come where they don't.
ghost use Rattle.std.specs.Prelude.{◌≡◌, ◌&&◌, not, Some, IsTrue, MatchResult, All, MatchOption, option_map};
ghost use Rattle.crs_text.specs.Items.{first_of, kind_of_item, raw_of, here, HasId};
ghost use Rattle.crs_shape.specs.Keywords.{is_known};
ghost use Rattle.crs_text.specs.Refusal.{is_refusal};
ghost use Rattle.crs_shape.specs.inner.ClassSet.{HasSet};
ghost use Rattle.crs_shape.specs.Expected.{ExpectedAtRoot, ExpectedIn};
ghost use Rattle.crs_shape.specs.inner.Walk.{step_of, first_inside, after, may_end, left_of};
ghost use Rattle.crs_shape.specs.ShapeFault.{class_in, is_of, misplaced, IsFree, IsOnly, Inside, AtRoot, class_of_root};

use crate::class::Class;
use crate::expectation::Expected;
use crate::keyword::{has_keyword, known_by, root_by};
use crate::slot::Slot;
use crate::table::{class_by, row};
use crs_text::{ItemId, ItemKind, Items, Refusal, laws};

/// Whether an item has the shape of a class. Takes no memory; the time is linear in the item.
///
/// The error is the first fault in text order: 11 or 12 at the first byte of an item that isn't allowed where it is,
/// 11 if it is a node whose keyword is unknown; 13 at the closing delimiter of a node that lacks arguments. Profile.
pub fn fit(items: &Items<'_>, id: ItemId, class: Class) -> Result<(), Refusal>
    requires { HasId items.now id }
    ensures { MatchResult result (λ _. IsFree (Inside class (first_of (here items.now id))))
        (λ refusal. IsOnly (Inside class (first_of (here items.now id))) refusal) }
{
    if !is_of(items, id, class) {
        return Err(misplaced(items, id));
    }
    match fault_within(items, id, class) {
        None => Ok(()),
        Some((refusal, _)) => Err(refusal),
    }
}

/// The class of a whole text whose items have its shape, one of the five classes of CRS.
///
/// The error is the first fault as in `fit`, and 11 or 12 at the root if it has no such class. Profile.
pub fn fit_root(items: &Items<'_>) -> Result<Class, Refusal>
    ensures { MatchResult result (λ class. (class_of_root items.now ≡ Some class) × IsFree (AtRoot items.now))
        (λ refusal. IsOnly (AtRoot items.now) refusal) }
{
    let root = items.root();
    match class_at_root(items, root) {
        None => Err(misplaced(items, root)),
        Some(class) => {
            fit(items, root, class)?;
            Ok(class)
        }
    }
}

/// What could come at the fault for which `fit_root` refuses the items: the node whose argument isn't allowed there,
/// or whose arguments aren't complete, and exactly the classes with which an allowed list goes on after the arguments
/// before. None: the items have the shape of a CRS.
///
/// It takes no memory; time is linear in the items. Profile.
pub fn expected(items: &Items<'_>) -> Option<Expected>
    ensures { MatchOption result (IsFree (AtRoot items.now)) (ExpectedAtRoot items.now) }
{
    let root = items.root();
    match class_at_root(items, root) {
        None => Some(Expected::new(None, items.place(root), START)),
        Some(class) => {
            let (_, expected) = fault_within(items, root, class)?;
            Some(expected)
        }
    }
}

/// The class that an item's keyword names at a text's head; None where it names none, or for no node. Profile.
pub fn class_at_root(items: &Items<'_>, id: ItemId) -> Option<Class>
    requires { HasId items.now id }
    ensures { result ≡ class_of_root (first_of (here items.now id)) }
{
    laws::keywords_are_spelled();
    match items.kind(id) {
        ItemKind::Number | ItemKind::Text | ItemKind::Word => None,
        ItemKind::Node => root_by(items.keyword(id)),
    }
}

// The fault of the arguments of an item of this class, and what could come there.
pub(crate) fn fault_within(
    items: &Items<'_>,
    id: ItemId,
    class: Class,
) -> Option<(Refusal, Expected)>
    requires has { HasId items.now id }
    requires class { IsTrue (is_of class (first_of (here items.now id))) }
    ensures fault { option_map (λ f. f.0) result ≡ first_inside class (first_of (here items.now id)) }
    ensures expected { MatchOption result (IsFree (Inside class (first_of (here items.now id))))
        (λ f. ExpectedIn class (first_of (here items.now id)) f.1) }
{
    // A leaf has no argument that could be at fault.
    let close = items.close(id)?;
    let row = row(class);
    let mut walk = START;
    let mut next = items.arg(id, 0);
    while let Some(argument) = next {
        let Some((named, stepped)) = step(items, argument, class, row, walk) else {
            let expected = Expected::new(Some(class), items.place(id), walk);
            return Some((misplaced(items, argument), expected));
        };
        if let Some(fault) = fault_within(items, argument, named) {
            return Some(fault);
        }
        walk = stepped;
        next = items.next(argument);
    }
    if walk.may_end(row) {
        None
    } else {
        let expected = Expected::new(Some(class), items.place(id), walk);
        Some((refusal(13, close), expected))
    }
}

// The class of an argument in its parent and the walk after it; None where it isn't allowed there.
fn step(
    items: &Items<'_>,
    argument: ItemId,
    parent: Class,
    row: &[Slot],
    walk: Walk,
) -> Option<(Class, Walk)>
    requires has { HasId items.now argument }
    requires sets { All HasSet row.now }
    ensures { option_map (λ s. (s.0, left_of row.now s.1)) result
        ≡ step_of parent (left_of row.now walk) (first_of (here items.now argument)) }
{
    let class = class_in(items, argument, parent)?;
    let stepped = walk.after(row, class)?;
    Some((class, stepped))
}

/// The class of an item in a parent of this class: number, text, word, or its keyword's there, if any. Profile.
pub fn class_in(items: &Items<'_>, id: ItemId, parent: Class) -> Option<Class>
    requires { HasId items.now id }
    ensures { result ≡ class_in parent (first_of (here items.now id)) }
{
    laws::keywords_are_spelled();
    match items.kind(id) {
        ItemKind::Number => Some(Class::Number),
        ItemKind::Text => Some(Class::Text),
        ItemKind::Word => Some(Class::Word),
        ItemKind::Node => class_by(parent, items.keyword(id)),
    }
}

fn is_of(items: &Items<'_>, id: ItemId, class: Class) -> bool
    requires { HasId items.now id }
    ensures { result ≡ is_of class (first_of (here items.now id)) }
{
    laws::keywords_are_spelled();
    match items.kind(id) {
        ItemKind::Number => Class::Number == class,
        ItemKind::Text => Class::Text == class,
        ItemKind::Word => Class::Word == class,
        ItemKind::Node => has_keyword(class, items.keyword(id)),
    }
}

// Whether a node's keyword is one of any class.
fn is_known(items: &Items<'_>, id: ItemId) -> bool
    requires has { HasId items.now id }
    requires node { kind_of_item (first_of (here items.now id)) ≡ ItemKind.Node }
    ensures { result ≡ is_known (raw_of (first_of (here items.now id))) }
{
    laws::keywords_are_spelled();
    known_by(items.keyword(id))
}

/// The refusal of an item that isn't allowed where it is: 11 if it is a node whose keyword is unknown, else 12. Profile.
pub fn misplaced(items: &Items<'_>, id: ItemId) -> Refusal
    requires { HasId items.now id }
    ensures { result ≡ misplaced (first_of (here items.now id)) }
{
    let number = match items.kind(id) {
        ItemKind::Number | ItemKind::Text | ItemKind::Word => 12,
        ItemKind::Node => if is_known(items, id) { 12 } else { 11 },
    };
    refusal(number, items.place(id))
}

fn refusal(number: u8, place: usize) -> Refusal
    requires { IsTrue (is_refusal number) }
    ensures { result ≡ record { number = number; place = place } }
{
    Refusal::new(number, place).unwrap()
}

// Where a walk over a row of slots is: before slot number `at`, which has an argument already if `filled`.
#[derive(Clone, Copy)]
pub(crate) struct Walk {
    pub(crate) at: usize,
    pub(crate) filled: bool,
}

// A walk before the first argument.
pub(crate) const START: Walk = Walk {
    at: 0,
    filled: false,
};

impl Walk {
    // The walk after one more argument, of this class; None where it isn't allowed there.
    pub(crate) fn after(self, row: &[Slot], class: Class) -> Option<Walk>
        requires { All HasSet row.now }
        ensures { option_map (λ w. left_of row.now w) result ≡ after (left_of row.now self) class }
    {
        let mut filled = self.filled;
        for at in self.at..row.len() {
            let slot = &row[at];
            if slot.takes(class) {
                let next = if slot.many { at } else { at + 1 };
                return Some(Walk {
                    at: next,
                    filled: slot.many,
                });
            }
            if waits(slot, filled) {
                return None;
            }
            filled = false;
        }
        None
    }

    // Whether the arguments may end here.
    pub(crate) fn may_end(self, row: &[Slot]) -> bool
        ensures { result ≡ may_end (left_of row.now self) }
    {
        let mut filled = self.filled;
        for at in self.at..row.len() {
            if waits(&row[at], filled) {
                return false;
            }
            filled = false;
        }
        true
    }
}

fn waits(slot: &Slot, filled: bool) -> bool
    ensures { result ≡ (slot.now.required && not filled) }
{
    slot.required && !filled
}
