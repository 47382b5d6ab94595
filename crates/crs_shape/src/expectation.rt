//! What could come at a fault of shape.
ghost use Rattle.std.specs.Prelude.{◌≡◌, Some, None};
ghost use Rattle.crs_shape.specs.Keywords.{every_class};
ghost use Rattle.crs_shape.specs.Expected.{may_come, ExpectedParts};
ghost use Rattle.crs_shape.specs.inner.Walk.{classes_left, end_left};

use crate::class::Class;
use crate::fitting::Walk;
use crate::keyword::is_root;
use crate::rows::every_class;
use crate::table::row;
use std::marker::Model;

/// What could come at a fault of shape: which classes of arguments in which node. Profile.
#[derive(Drop)]
pub struct Expected {
    parent: Option<Class>,
    place: usize,
    // where the walk over the parent's slots is
    walk: Walk,
}

impl Model for Expected {
    ghost Value = { ExpectedParts };

    ghost view = { λ e. record {
      parent = e.parent;
      place = e.place;
      classes = classes_left e.parent e.walk;
      may_end = end_left e.parent e.walk;
    } };
}

impl Expected {
    // What may come where this walk is, in a node of this class, or at the root of a text.
    pub(crate) fn new(parent: Option<Class>, place: usize, walk: Walk) -> Self
        ensures { result ≡ record {
          parent = parent;
          place = place;
          classes = classes_left parent walk;
          may_end = end_left parent walk;
        } }
    {
        Expected {
            parent,
            place,
            walk,
        }
    }

    /// The class of the node in which the fault is; None where the text's own class is at fault.
    pub fn parent(&self) -> Option<Class>
        ensures { result ≡ self.now.parent }
    {
        self.parent
    }

    /// The place of the first byte of that node, or of the text's item where it has no class.
    pub fn place(&self) -> usize
        ensures { result ≡ self.now.place }
    {
        self.place
    }

    /// Whether an argument of this class could come at the fault, or a text of this class at the root.
    pub fn has(&self, class: Class) -> bool
        ensures { result ≡ may_come self.now class }
    {
        match self.parent {
            None => is_root(class),
            Some(parent) => self.walk.after(row(parent), class).is_some(),
        }
    }

    /// Whether the node's closing delimiter could come at the fault.
    pub fn may_end(&self) -> bool
        ensures { result ≡ self.now.may_end }
    {
        match self.parent {
            None => false,
            Some(parent) => self.walk.may_end(row(parent)),
        }
    }
}

// these classes
macro_rules! classes {
    (() $($class:ident)+) => { &[$(Class::$class),+] };
}

/// All classes, in the order of the table. Profile.
pub fn classes() -> &'static [Class]
    ensures { result.now ≡ every_class }
{
    every_class!(classes, ())
}
