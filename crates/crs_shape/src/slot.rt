//! Slots.
ghost use Rattle.std.specs.Prelude.{◌≡◌};
ghost use Rattle.crs_shape.specs.inner.ClassSet.{HasSet};
ghost use Rattle.crs_shape.specs.Shape.{shown, takes};

use crate::bit_set::BitSet;
use crate::class::Class;

/// A slot: a place in a class's row for arguments of its classes. It takes at least one argument if it
/// is required, and more than one only if it takes many. Profile.
#[derive(Clone, Copy, Debug)]
pub struct Slot {
    pub(crate) classes: &'static [Class],
    // the same classes
    pub(crate) set: BitSet,
    pub(crate) required: bool,
    pub(crate) many: bool,
}

impl Slot {
    /// The classes of the arguments that are allowed here.
    pub fn classes(&self) -> &'static [Class]
        ensures { result.now ≡ (shown self.now).classes }
    {
        self.classes
    }

    /// Whether at least one argument must be here.
    pub fn required(&self) -> bool
        ensures { result ≡ (shown self.now).required }
    {
        self.required
    }

    /// Whether more than one argument is allowed here.
    pub fn many(&self) -> bool
        ensures { result ≡ (shown self.now).many }
    {
        self.many
    }

    // Whether arguments of this class are allowed here.
    pub(crate) fn takes(&self, class: Class) -> bool
        requires { HasSet self.now }
        ensures { result ≡ takes (shown self.now) class }
    {
        self.set.has(class as u64)
    }
}
