//! Usages, and the boxes and extents that they hold.
ghost use Rattle.std.specs.Prelude.{◌↔◌, IsTrue};
ghost use Rattle.crs_same.specs.SameIdents.{BothOrNeither};
ghost use Rattle.crs_same.specs.SameParts.{SameBox, SameExtent, SameUsage};

use crate::laws;
use crate::sets::SetMember;
use crate::single::{same_length, same_optional_text, same_value};
use crs_value::{BoundingBox, Extent, Level, Usage};

/// Whether two bounding boxes are the same, alike at every level. ISO 19162:2019, "Geographic bounding box".
pub fn same_box(a: &BoundingBox, b: &BoundingBox, _level: Level) -> bool
    ensures { IsTrue result ↔ SameBox a.now b.now }
{
    same_value(&a.south, &b.south)
        && same_value(&a.west, &b.west)
        && same_value(&a.north, &b.north)
        && same_value(&a.east, &b.east)
}

fn same_boxes(a: &Option<BoundingBox>, b: &Option<BoundingBox>) -> bool
    ensures { IsTrue result ↔ BothOrNeither SameBox a.now b.now }
{
    both_or_neither!(a, b, |x, y| same_box(x, y, Level::Full))
}

/// Whether two vertical extents are the same: minimum, maximum and unit. A missing unit is the metre.
/// ISO 19162:2019, "Vertical extent"; unit: profile.
pub fn same_extent<'a>(a: &Extent<'a>, b: &Extent<'a>, level: Level) -> bool
    ensures { IsTrue result ↔ SameExtent level a.now b.now }
{
    same_value(&a.minimum, &b.minimum)
        && same_value(&a.maximum, &b.maximum)
        && same_length(&a.unit, &b.unit, level)
}

fn same_extents<'a>(a: &Option<Extent<'a>>, b: &Option<Extent<'a>>, level: Level) -> bool
    ensures { IsTrue result ↔ BothOrNeither (SameExtent level) a.now b.now }
{
    both_or_neither!(a, b, |x, y| same_extent(x, y, level))
}

/// Whether two usages are the same: scope, area, bounding box and vertical extent, each in both or in neither. A usage
/// by itself is compared alike at every level. ISO 19162:2019, "Scope and extent".
pub fn same_usage<'a>(a: &Usage<'a>, b: &Usage<'a>, _level: Level) -> bool
    ensures { IsTrue result ↔ SameUsage a.now b.now }
{
    same_optional_text(a.scope, b.scope)
        && same_optional_text(a.area, b.area)
        && same_boxes(&a.bbox, &b.bbox)
        && same_extents(&a.extent, &b.extent, Level::Full)
}

impl SetMember for Usage<'_> {
    ghost Same = { λ level a b. SameUsage a b };

    fn is_same(&self, other: &Self, level: Level) -> bool {
        same_usage(self, other, level)
    }

    fn same_is_equivalence(&self) {
        laws::parts::same_part_is_equivalence();
    }
}
