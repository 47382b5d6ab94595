//! Sets of classes and of keywords, a bit for each: its test is one step; a `match` is an often mispredicted branch.
ghost use Rattle.std.specs.Prelude.{◌≡◌, ◌<◌};
ghost use Rattle.crs_shape.specs.inner.ClassSet.{has_bit};

// the set of these variants of an enum
macro_rules! set {
    ($of:ident: $($member:ident),*) => { BitSet { bits: 0 $(| 1 << $of::$member as u64)* } };
}

pub(crate) use set;

#[derive(Clone, Copy, Debug)]
pub(crate) struct BitSet {
    pub(crate) bits: u64,
}

impl BitSet {
    // Whether the variant of this number is one of the set.
    #[inline(always)]
    pub(crate) fn has(self, bit: u64) -> bool
        requires { bit < 64 }
        ensures { result ≡ has_bit self.bits bit }
    {
        (self.bits >> bit) & 1 == 1
    }
}
