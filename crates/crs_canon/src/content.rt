//! The value of a part of a CRS, as the canonical text writes it.
ghost use Rattle.std.specs.Prelude.{◌≡◌, OnOk};
ghost use Rattle.crs_value.specs.declared.values.level.Level.TheVariants as levels;
ghost use Rattle.crs_same.specs.declared.content.Content.TheVariants as content;
ghost use Rattle.crs_normal.specs.PartSpellings.{IsSpelledUsage};
ghost use Rattle.crs_writer.specs.inner.Members.{ArePut, spellings};
ghost use Rattle.crs_canon.specs.Appended.{AppendsOrNothing};
ghost use Rattle.crs_canon.specs.ContentText.{IsContentText};

use crate::canonical::Canonical;
use crate::lacking::{append_lacking, append_lacking_members};
use crate::set_view::are_spelled;
use crs_decimal::Decimal;
use crs_normal::laws::{parts, sets};
use crs_same::{Content, Usages};
use crs_value::{Level, Unit, UnitKind, Usage};
use crs_writer::open_text;
use crs_writer::pieces::{gather, gather_all, write_bare_unit};
use std::alloc::{AllocError, Global};
use std::collections::BTreeSet;

fn append_bytes(out: &mut Vec<u8>, bytes: &[u8]) -> Result<(), AllocError>
    ensures { AppendsOrNothing result (λ written. written ≡ bytes.now) out.old.items out.new.items }
{
    out.extend_from_slice(bytes)
}

// A text in quotes.
fn append_text(alloc: Global, out: &mut Vec<u8>, text: &[u8]) -> Result<(), AllocError>
    ensures { AppendsOrNothing result (IsContentText levels.Full (content.Text text.now)) out.old.items out.new.items }
{
    let mut quoted = Vec::new(alloc);
    open_text(&mut quoted, b"\"", text)?;
    out.extend_from_slice(quoted.as_slice())
}

fn append_number(out: &mut Vec<u8>, number: &Decimal) -> Result<(), AllocError>
    ensures { AppendsOrNothing result (IsContentText levels.Full (content.Number number.now))
        out.old.items out.new.items }
{
    number.write(out)
}

/// Appends a unit as `write_content` does, as asked of this kind. `AllocError`: no memory, `out` is as before. Profile.
pub fn append_unit(
    alloc: Global,
    out: &mut Vec<u8>,
    asked: UnitKind,
    unit: &Unit<'_>,
    level: Level,
) -> Result<(), AllocError>
    ensures { AppendsOrNothing result (IsContentText level (content.Unit asked unit.now)) out.old.items out.new.items }
{
    let _name = unit.name;
    parts::units_are_canonical();
    let mut text = Vec::new(alloc);
    write_bare_unit(&mut text, asked, unit, level)?;
    out.extend_from_slice(text.as_slice())
}

// Puts the spellings of usages among the others.
fn gather_usages<'a>(
    alloc: Global,
    sorted: &mut BTreeSet<Vec<u8>>,
    usages: &Usages<'_, 'a>,
    level: Level,
) -> Result<(), AllocError>
    ensures { OnOk result (ArePut (IsSpelledUsage level) usages.now
        (spellings sorted.old.keys) (spellings sorted.new.keys)) }
{
    let (bare, others) = usages.parts();
    are_spelled(others);
    match bare {
        None => gather_all::<Usage<'a>, &[Usage<'a>]>(alloc, sorted, others, level),
        Some(usage) => {
            usage.laws();
            gather::<Usage<'a>, &Usage<'a>>(alloc, sorted, &usage, level)?;
            gather_all::<Usage<'a>, &[Usage<'a>]>(alloc, sorted, others, level)
        }
    }
}

fn append_usages(
    alloc: Global,
    out: &mut Vec<u8>,
    these: &Usages<'_, '_>,
    others: &Usages<'_, '_>,
    level: Level,
) -> Result<(), AllocError>
    ensures { AppendsOrNothing result (IsContentText level (content.Usages these.now others.now))
        out.old.items out.new.items }
{
    sets::texts_are_in_order();
    let mut sorted = BTreeSet::new(alloc);
    gather_usages(alloc, &mut sorted, these, level)?;
    let mut other = BTreeSet::new(alloc);
    gather_usages(alloc, &mut other, others, level)?;
    append_lacking(alloc, out, &sorted, &other)
}

/// Appends the value of a part of a CRS, as the canonical text at a level writes it: nothing; a word; a text in its
/// quotes; a number in its plain spelling; a node; or, for a set, the members that have no same one in the other CRS,
/// each once, in ascending order of their bytes, a comma between two. A unit has the keyword of its kind; one written
/// as `UNIT` has the asked kind's. `AllocError`: there is no memory for it, and `out` is as before. Profile.
pub fn write_content(
    content: &Content<'_, '_>,
    alloc: Global,
    level: Level,
    out: &mut Vec<u8>,
) -> Result<(), AllocError>
    ensures { AppendsOrNothing result (IsContentText level content.now) out.old.items out.new.items }
{
    match content {
        Content::Nothing => Ok(()),
        Content::Word(word) => append_bytes(out, word.as_bytes()),
        Content::Text(text) => append_text(alloc, out, text.as_bytes()),
        Content::Number(number) => append_number(out, number),
        Content::Unit(asked, unit) => append_unit(alloc, out, *asked, unit.get(), level),
        Content::Metre => append_bytes(out, b"LENGTHUNIT[\"metre\",1]"),
        Content::Meridian(meridian) => meridian.get().write(alloc, level, out),
        Content::Model(model) => model.get().write(alloc, level, out),
        Content::Identifiers(these, others) => {
            append_lacking_members(alloc, out, these.as_slice(), others.as_slice(), level)
        }
        Content::Usages(these, others) => append_usages(alloc, out, these, others, level),
        Content::Members(these, others) => {
            append_lacking_members(alloc, out, these.as_slice(), others.as_slice(), level)
        }
        Content::Parameters(these, others) => {
            append_lacking_members(alloc, out, these.as_slice(), others.as_slice(), level)
        }
        Content::GeoidModels(these, others) => {
            append_lacking_members(alloc, out, these.as_slice(), others.as_slice(), level)
        }
    }
}
