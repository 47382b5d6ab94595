//! The slots of each class.
ghost use Rattle.std.specs.Prelude.{◌≡◌, All, IsTrue, map};
ghost use Rattle.std.specs.List.{find};
ghost use Rattle.crs_shape.specs.inner.ClassSet.{HasSet, set_of};
ghost use Rattle.crs_shape.specs.inner.KeywordTable.{argument_classes, classes_by, is_part, IsClear};
ghost use Rattle.crs_shape.specs.Shape.{shown, slots_of, class_named, is_class};

use crate::bit_set::{BitSet, set};
use crate::class::Class;
use crate::keyword::{classes_by, rivals_of};
use crate::rows::{every_class, row, rows};
use crate::slot::Slot;
use crs_text::{Keyword, laws};

// a slot for arguments of these classes
macro_rules! slot {
    (one, $($class:ident),+) => { slot!(true, false, $($class),+) };
    (optional, $($class:ident),+) => { slot!(false, false, $($class),+) };
    (some, $($class:ident),+) => { slot!(true, true, $($class),+) };
    (any, $($class:ident),+) => { slot!(false, true, $($class),+) };
    ($required:literal, $many:literal, $($class:ident),+) => {
        Slot {
            classes: &[$(Class::$class),+],
            set: set!(Class: $($class),+),
            required: $required,
            many: $many,
        }
    };
}

// the slots of a class
macro_rules! slots_of {
    (() [$($keyword:ident),*] $($count:ident($($part:ident),+))*) => {
        &[$(slot!($count, $($part),+)),*]
    };
}

/// The slots of a class, in order; none for an item that isn't a node. ISO 19162:2019, the part of the standard that is
/// named above each row; tails and anchors in any order are the profile's.
pub fn slots(class: Class) -> &'static [Slot]
    ensures { map shown result.now ≡ slots_of class }
{
    row(class)
}

// The slots of a class, each with the set of its classes.
pub(crate) fn row(class: Class) -> &'static [Slot]
    ensures slots { map shown result.now ≡ slots_of class }
    ensures sets { All HasSet result.now }
{
    rows!(slots_of, class)
}

/// The class that this keyword names in a parent of this class; None where it names none. For an item that was
/// read, `class_in` answers it without a look at the keyword's bytes. Profile.
pub fn class_of(parent: Class, keyword: &[u8]) -> Option<Class>
    ensures { result ≡ class_named parent keyword.now }
{
    laws::keywords_are_spelled();
    class_by(parent, Keyword::of(keyword))
}

// The class that a keyword names in a parent of this class.
pub(crate) fn class_by(parent: Class, keyword: Option<Keyword>) -> Option<Class>
    ensures { result ≡ find (is_part parent) (classes_by keyword) }
{
    first_part(parent, classes_by(keyword))
}

#[inline(always)]
fn first_part(parent: Class, classes: &[Class]) -> Option<Class>
    ensures { result ≡ find (is_part parent) classes.now }
{
    for class in classes {
        if is_part(parent, *class) {
            return Some(*class);
        }
    }
    None
}

// Whether each keyword of a class names it in a parent of this class: it is allowed there, and no class that goes before
// it is. Where both classes are constants, so is the answer.
#[inline(always)]
pub(crate) fn is_clear(parent: Class, class: Class) -> bool
    ensures { IsTrue result → IsClear parent class }
{
    is_part(parent, class) && first_part(parent, rivals_of(class)).is_none()
}

pub(crate) fn is_class(named: Option<Class>, class: Class) -> bool
    ensures { result ≡ is_class class named }
{
    named == Some(class)
}

// the classes of a class's slots
macro_rules! parts_of {
    (() [$($keyword:ident),*] $($count:ident($($part:ident),+))*) => {
        set!(Class: $($($part),+),*)
    };
}

// Whether arguments of this class are allowed in a parent of that one: one test, in place of a walk over the slots.
#[inline(always)]
pub(crate) fn is_part(parent: Class, class: Class) -> bool
    ensures { result ≡ is_part parent class }
{
    parts(parent).has(class as u64)
}

// The classes of the arguments that are allowed in a parent of this class.
#[inline(always)]
fn parts(parent: Class) -> BitSet
    ensures { result.bits ≡ set_of (argument_classes parent) }
{
    rows!(parts_of, parent)
}
