//! From the items of a text to its value.
ghost use Rattle.std.specs.Prelude.{◌≡◌, MatchResult, IfOk, Some};
ghost use Rattle.crs_shape.specs.ShapeFault.{class_of_root};
ghost use Rattle.crs_value.specs.declared.values.crs.Crs.{Crs};
ghost use Rattle.crs_value.specs.ReadsCrs.{kind_of};
ghost use Rattle.crs_value.specs.Spells.{SpellsCrs, IsFaultOf, RefusesCrs, Spells, IsFaultOfText};

use crate::judging::node::root_judged;
use crate::reading::cursor::Cursor;
use crate::values::crs::{Crs, Kind, kind_of_root, read_crs};
use crs_shape::{Class, class_at_root, misplaced};
use crs_text::{Fault, Items, Refusal, read_items};
use std::alloc::Global;

/// The class of the CRS that the items of a text spell. Its value isn't built, and no memory is taken.
///
/// The items are refused where `value_of` refuses them, with the same number and place. Time is linear in the items.
/// ISO 19162:2019, "Coordinate reference systems"; the checks are the profile's.
pub fn judge(items: &Items<'_>) -> Result<Class, Refusal>
    ensures answer { MatchResult result (λ _. (value : Crs) × SpellsCrs items.now value) (RefusesCrs items.now) }
    ensures class { IfOk result (λ class. class_of_root items.now ≡ Some class) }
{
    crs_shape::laws::keywords_name_classes();
    crs_shape::laws::no_fault_is_shape();
    crs_shape::laws::slots_count();
    crs_shape::laws::walk_finds_the_fault();
    crs_decimal::laws::denotes_some();
    let root = items.root();
    items.formed(root);
    let Some(class) = class_at_root(items, root) else {
        return Err(misplaced(items, root));
    };
    let mut found = None;
    root_judged(items, root, class, &mut found);
    match found {
        None => Ok(class),
        Some(refusal) => Err(refusal),
    }
}

/// The kind of the CRS that the items of a text spell. Its value isn't built, and no memory is taken.
///
/// The items are refused where `value_of` refuses them, with the same number and place. Time is linear in the items.
/// ISO 19162:2019, "Coordinate reference systems"; the checks are the profile's.
pub fn kind_of(items: &Items<'_>) -> Result<Kind, Refusal>
    ensures { MatchResult result (λ kind. (value : Crs) × SpellsCrs items.now value × (kind ≡ kind_of value))
        (RefusesCrs items.now) }
{
    crs_shape::laws::no_fault_is_shape();
    let id = items.root();
    items.formed(id);
    let class = judge(items)?;
    Ok(kind_of_root(&Cursor { items, id, class }))
}

/// The value that the items of a text spell, with the text's bytes borrowed.
///
/// `Refused`: the items spell no value. The number is 11 to 13 for a fault of shape; else it is the number of the check that
/// is broken first, from 21 on: the lowest number, and of these the least place. `Memory`: memory for a list was
/// refused. Time is linear in the items. ISO 19162:2019, "Coordinate reference systems"; the checks are the profile's.
pub fn value_of<'a>(alloc: Global, items: &Items<'a>) -> Result<Crs<'a>, Fault>
    ensures { MatchResult result (SpellsCrs items.now) (IsFaultOf items.now) }
{
    crs_shape::laws::no_fault_is_shape();
    let id = items.root();
    items.formed(id);
    match judge(items) {
        Ok(class) => read_crs(alloc, &Cursor { items, id, class }),
        Err(refusal) => Err(Fault::Refused(refusal)),
    }
}

/// The value that a text spells, with its bytes borrowed.
///
/// `Refused`: the text spells no value. The number is 1 to 8 for a fault of the text; else 11 to 13 for a
/// fault of shape; else it is the number of the check that is broken first, from 21 on. The place counts bytes
/// from 0. `Memory`: memory for the items or for a list was refused. Time is linear in the text.
/// ISO 19162:2019, "Coordinate reference systems"; the limits and the checks are the profile's.
pub fn read<'a>(alloc: Global, bytes: &'a [u8]) -> Result<Crs<'a>, Fault>
    ensures { MatchResult result (Spells bytes.now) (IsFaultOfText bytes.now) }
{
    value_of(alloc, &read_items(alloc, bytes)?)
}
