//! The search for an argument of a class.
ghost use Rattle.std.specs.Prelude.{◌≡◌};
ghost use Rattle.crs_text.specs.Items.{first_of, here, HasId};
ghost use Rattle.crs_shape.specs.inner.ClassSet.{keyword_set};
ghost use Rattle.crs_shape.specs.ShapeFault.{class_in};
ghost use Rattle.crs_shape.specs.Shape.{is_class};
ghost use Rattle.crs_shape.specs.Sought.{SoughtParts};
ghost use Rattle.crs_shape.specs.inner.SoughtKind.{kind_for};

use crate::bit_set::{BitSet, set};
use crate::class::Class;
use crate::rows::{every_class, row, rows};
use crate::table::{class_by, is_class, is_clear};
use crs_text::{ItemId, ItemKind, Items, Keyword, laws};
use std::marker::Model;

/// What is sought among arguments: one of a class, in a parent of a class. What each argument is tested for first is
/// found once: its kind, and which keywords the class has. Profile.
#[derive(Clone, Copy)]
pub struct Sought {
    keywords: BitSet,
    kind: ItemKind,
    parent: Class,
    class: Class,
}

impl Model for Sought {
    ghost Value = { SoughtParts };

    ghost view = { λ s. record { parent = s.parent; class = s.class } };

    ghost invariant = { λ s. (s.keywords.bits ≡ keyword_set s.class) × (s.kind ≡ kind_for s.class) };

    ghost inverse = { λ v. record {
      keywords = record { bits = keyword_set v.class };
      kind = kind_for v.class;
      parent = v.parent;
      class = v.class;
    } };
}

impl Sought {
    /// An argument of this class in a parent of that one.
    #[inline(always)]
    pub fn new(parent: Class, class: Class) -> Sought
        ensures { result ≡ record { parent = parent; class = class } }
    {
        Sought {
            keywords: keywords_of(class),
            kind: kind_for(class),
            parent,
            class,
        }
    }

    /// Whether an item is what is sought.
    #[inline(always)]
    pub fn is(&self, items: &Items<'_>, id: ItemId) -> bool
        requires { HasId items.now id }
        ensures { result ≡ is_class self.now.class (class_in self.now.parent (first_of (here items.now id))) }
    {
        laws::keywords_are_spelled();
        if items.kind(id) != self.kind {
            return false;
        }
        if self.kind != ItemKind::Node {
            return true;
        }
        let Some(keyword) = items.keyword(id) else {
            return false;
        };
        if !self.keywords.has(keyword as u64) {
            return false;
        }
        if is_clear(self.parent, self.class) {
            return true;
        }
        is_class(class_by(self.parent, Some(keyword)), self.class)
    }
}

/// Whether an item is of that class in a parent of this one, cheaper than `class_in`; for many, one `Sought`. Profile.
#[inline(always)]
pub fn stands_as(items: &Items<'_>, id: ItemId, parent: Class, class: Class) -> bool
    requires { HasId items.now id }
    ensures { result ≡ is_class class (class_in parent (first_of (here items.now id))) }
{
    Sought::new(parent, class).is(items, id)
}

// What an item of this class is.
#[inline(always)]
fn kind_for(class: Class) -> ItemKind
    ensures { result ≡ kind_for class }
{
    if class == Class::Number {
        ItemKind::Number
    } else if class == Class::Text {
        ItemKind::Text
    } else if class == Class::Word {
        ItemKind::Word
    } else {
        ItemKind::Node
    }
}

// the sets of the keywords of classes
macro_rules! keyword_sets {
    (() [$($keyword:ident),*] $($count:ident($($part:ident),+))*) => {
        set!(Keyword: $($keyword),*)
    };
}

// The keywords of a class; none for an item that isn't a node.
#[inline(always)]
fn keywords_of(class: Class) -> BitSet
    ensures { result.bits ≡ keyword_set class }
{
    rows!(keyword_sets, class)
}
