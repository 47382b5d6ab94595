//! When two coordinate reference systems are the same: values are compared as written, nothing filled in or sorted.
#![tactic(auto)]

// Whether two values are both missing, or both there and the same, as the last expression says.
macro_rules! both_or_neither {
    ($a:ident, $b:ident, |$x:ident, $y:ident| $same:expr) => {
        match ($a, $b) {
            (None, None) => true,
            (Some($x), Some($y)) => $same,
            (None, Some(_)) | (Some(_), None) => false,
        }
    };
}

// A walk over two lists that are taken as sets: where they aren't the same, with one part more.
macro_rules! walk_sets {
    ($found:ident, $at:ident, $step:ident, $a:ident, $b:ident, $content:ident) => {{
        let (a, b) = ($a.as_slice(), $b.as_slice());
        let (these, others) = (SetMembers { bare: None, listed: a }, SetMembers { bare: None, listed: b });
        if $found.is_done() || same_set(&these, &others, $a.counterpart_hints($b, $at.level), $at.level) {
            return $found;
        }
        let first = Content::$content(Members { members: a }, Members { members: b });
        let second = Content::$content(Members { members: b }, Members { members: a });
        $found.alone($at, Step::$step, first, second)
    }};
}

mod axes;
mod content;
mod crs;
mod found;
mod frames;
pub mod laws;
mod named;
mod nodes;
pub mod parts;
mod path;
mod sets;
mod single;
mod step;
mod systems;
mod usages;

pub use axes::{axis_at, same_axis, same_axis_meridian, same_axis_meridians};
pub use content::{Borrowed, Content, Members, Text, Usages};
pub use crs::{differences, first_part, same};
pub use found::{Difference, Differences};
pub use named::{
    same_deformation_model, same_geoid_model, same_ident, same_idents, same_kept_idents,
    same_member, same_models, same_parameter,
};
pub use path::Path;
pub use sets::{SetMember, SetMembers, same_set};
pub use single::{
    same_length, same_optional_text, same_optional_value, same_text, same_unit, same_unit_as,
    same_units_as, same_units_asked, same_value,
};
pub use step::Step;
pub use usages::{same_box, same_extent, same_usage};
