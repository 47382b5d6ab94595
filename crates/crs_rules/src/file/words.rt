//! The words of what doesn't count, and of kinds.
ghost use Rattle.std.specs.Prelude.{◌≡◌};
ghost use Rattle.std.specs.Str.{str_eq_ignore_ascii_case};
ghost use Rattle.crs_text.specs.Items.{HasId};
ghost use Rattle.crs_value.specs.inner.Arguments.{item_at};
ghost use Rattle.crs_rules.specs.Statements.{is_meridian, kind_in, kind_named, meridian_named, with_item, with_word};

use crate::Uncounted;
use crs_text::{ItemId, ItemKind, Items};
use crs_value::UnitKind;

// Whether a word is this one, letter case aside.
pub(crate) fn is_word(name: &str, raw: &[u8]) -> bool
    ensures { result ≡ str_eq_ignore_ascii_case name.now raw.now }
{
    name.as_bytes().eq_ignore_ascii_case(raw)
}

// What doesn't count, with what a word names; `None` where it names nothing.
fn with_word(raw: &[u8], uncounted: Uncounted) -> Option<Uncounted>
    ensures { result ≡ with_word raw.now uncounted }
{
    let mut more = uncounted;
    if is_word("crsName", raw) {
        more.crs_names = true;
    } else if is_word("baseName", raw) {
        more.base_names = true;
    } else if is_word("conversionName", raw) {
        more.conversion_names = true;
    } else if is_word("axisName", raw) {
        more.axis_names = true;
    } else if is_word("dynamic", raw) {
        more.dynamics = true;
    } else if is_word("anchor", raw) {
        more.anchors = true;
    } else if is_word("geoidModel", raw) {
        more.geoid_models = true;
    } else if is_word("baseUnit", raw) {
        more.base_units = true;
    } else if is_word("ensemble", raw) {
        more.ensembles = true;
    } else if is_word("axisOrder", raw) {
        more.axis_order = true;
    } else {
        return None;
    }
    Some(more)
}

// The same with what an item names, which is a word by itself.
pub(crate) fn with_item(items: &Items<'_>, id: ItemId, uncounted: Uncounted) -> Option<Uncounted>
    requires { HasId items.now id }
    ensures { result ≡ with_item (item_at items.now id) uncounted }
{
    match items.kind(id) {
        ItemKind::Word => with_word(items.raw(id), uncounted),
        ItemKind::Number | ItemKind::Text | ItemKind::Node => None,
    }
}

// The kind that a word names; `None` where it names none.
fn kind_named(raw: &[u8]) -> Option<UnitKind>
    ensures { result ≡ kind_named raw.now }
{
    if is_word("ANGLEUNIT", raw) {
        Some(UnitKind::Angle)
    } else if is_word("LENGTHUNIT", raw) {
        Some(UnitKind::Length)
    } else if is_word("SCALEUNIT", raw) {
        Some(UnitKind::Scale)
    } else {
        None
    }
}

// The kind that an item names, which is a word by itself.
pub(crate) fn kind_in(items: &Items<'_>, id: ItemId) -> Option<UnitKind>
    requires { HasId items.now id }
    ensures { result ≡ kind_in (item_at items.now id) }
{
    match items.kind(id) {
        ItemKind::Word => kind_named(items.raw(id)),
        ItemKind::Number | ItemKind::Text | ItemKind::Node => None,
    }
}

// Whether a word names all prime meridians, whose longitudes are angles.
fn meridian_named(kind: UnitKind, raw: &[u8]) -> bool
    ensures { result ≡ meridian_named kind raw.now }
{
    kind == UnitKind::Angle && is_word("PRIMEM", raw)
}

// Whether an item does, which is a word by itself.
pub(crate) fn is_meridian(items: &Items<'_>, id: ItemId, kind: UnitKind) -> bool
    requires { HasId items.now id }
    ensures { result ≡ is_meridian kind (item_at items.now id) }
{
    match items.kind(id) {
        ItemKind::Word => meridian_named(kind, items.raw(id)),
        ItemKind::Number | ItemKind::Text | ItemKind::Node => false,
    }
}
