//! Which unit is found and which each axis requires, if they don't fit. No clause says which words these are.
ghost use Rattle.crs_text.specs.Items.{HasId};
ghost use Rattle.crs_value.specs.inner.Arguments.{Holds};

use crate::Made;
use crate::place::name_text;
use crate::system::{around, crs_around, is_called, part_around, raw_at};
use crs_shape::{Direction, SystemType, UnitKind};
use crs_streams::append_number;
use crs_text::{Fault, ItemId, Items, Keyword, read_items};
use std::alloc::Global;

// The keywords of units.
const UNITS: [Keyword; 3] = [Keyword::LengthUnit, Keyword::AngleUnit, Keyword::PlainUnit];

/// For a unit on an axis, or if there is none, `found LENGTHUNIT in AXIS at 66, expected ANGLEUNIT`; for one that all
/// axes share `found LENGTHUNIT for all axes, expected ANGLEUNIT for AXIS at 66, LENGTHUNIT for AXIS at 84`; nothing if
/// the text has no items, or no unit is at the place or missing there.
pub(crate) fn units(alloc: Global, text: &[u8], place: usize) -> Made<Vec<u8>> {
    match read_items(alloc, text) {
        Ok(items) => units_of(alloc, &items, place),
        Err(Fault::Refused(_)) => Ok(Vec::new(alloc)),
        Err(Fault::Memory(error)) => Err(error),
    }
}

fn units_of(alloc: Global, items: &Items<'_>, place: usize) -> Made<Vec<u8>> {
    let crs = crs_around(items, place);
    let part = part_around(items, place);
    let system = InCrs { items, crs };
    let mut out = Vec::new(alloc);
    if is_called(items, part, Keyword::Axis) {
        system.append_of_axis(part, around(items, part, place), &mut out)?;
    } else if is_one_of(items, part, &UNITS) {
        system.append_of_all(part, &mut out)?;
    }
    Ok(out)
}

// Whether an item is a node of one of these keywords.
fn is_one_of(items: &Items<'_>, id: ItemId, keywords: &[Keyword]) -> bool
    requires { HasId items.now id }
{
    items.keyword(id).is_some_and(|it| keywords.contains(&it))
}

// A CRS of a text.
#[derive(Clone, Copy)]
struct InCrs<'i, 'a> {
    items: &'i Items<'a>,
    crs: ItemId,
    ghost has: { HasId items.now crs },
}

impl InCrs<'_, '_> {
    // `found LENGTHUNIT in AXIS at 66, expected ANGLEUNIT`, or that all axes share one too; nothing where none is.
    fn append_of_axis(&self, axis: ItemId, found: ItemId, out: &mut Vec<u8>) -> Made<()>
        requires axis { HasId self.now.items.now axis }
        requires found { HasId self.now.items.now found }
    {
        let is_shared = self.first(self.crs, &UNITS).is_some();
        if is_one_of(self.items, found, &UNITS) {
            out.extend_from_slice(b"found ")?;
            out.extend_from_slice(&name_text(*out.allocator(), self.items.raw(found))?)?;
        } else if is_shared || self.first(axis, &UNITS).is_some() {
            return Ok(());
        } else {
            out.extend_from_slice(b"found no unit")?;
        }
        out.extend_from_slice(b" in AXIS at ")?;
        append_number(self.items.place(axis), out)?;
        if is_shared {
            return out.extend_from_slice(b" beside one for all axes, expected one of both");
        }
        out.extend_from_slice(b", expected ")?;
        out.extend_from_slice(self.asked(axis))
    }

    // The first argument of a node that is a node of one of these keywords.
    fn first(&self, id: ItemId, keywords: &[Keyword]) -> Option<ItemId>
        requires { HasId self.now.items.now id }
        ensures { Holds self.now.items.now result }
    {
        let mut at = self.items.arg(id, 0);
        while let Some(argument) = at {
            if is_one_of(self.items, argument, keywords) {
                return Some(argument);
            }
            at = self.items.next(argument);
        }
        None
    }

    // `found LENGTHUNIT for all axes, expected ANGLEUNIT for AXIS at 66, LENGTHUNIT for AXIS at 84`
    fn append_of_all(&self, unit: ItemId, out: &mut Vec<u8>) -> Made<()>
        requires { HasId self.now.items.now unit }
    {
        let items = self.items;
        out.extend_from_slice(b"found ")?;
        out.extend_from_slice(&name_text(*out.allocator(), items.raw(unit))?)?;
        out.extend_from_slice(b" for all axes, expected ")?;
        let mut separator: &[u8] = b"";
        let mut at = items.arg(self.crs, 0);
        while let Some(argument) = at {
            if is_called(items, argument, Keyword::Axis) {
                out.extend_from_slice(separator)?;
                out.extend_from_slice(self.asked(argument))?;
                out.extend_from_slice(b" for AXIS at ")?;
                append_number(items.place(argument), out)?;
                separator = b", ";
            }
            at = items.next(argument);
        }
        Ok(())
    }

    // The keyword of the unit for which an axis asks; `a unit` where its kind isn't known.
    fn asked(&self, axis: ItemId) -> &'static [u8]
        requires { HasId self.now.items.now axis }
    {
        let kind = self.kind_of(axis);
        kind.map_or(b"a unit", |it| it.keyword().as_bytes())
    }

    // By the type of its coordinate system and by its direction.
    fn kind_of(&self, axis: ItemId) -> Option<UnitKind>
        requires { HasId self.now.items.now axis }
    {
        let system = self.first(self.crs, &[Keyword::Cs])?;
        let system_type = SystemType::read(raw_at(self.items, system, 0))?;
        let direction = Direction::read(raw_at(self.items, axis, 1))?;
        Some(system_type.asked_kind(direction))
    }
}
