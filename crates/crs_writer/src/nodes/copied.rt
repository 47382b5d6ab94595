//! Nodes of the commonest forms that are canonical as they stand: what is written of one is a copy of its bytes. A node
//! that isn't found to have its form may be canonical too: it is written part by part.
ghost use Rattle.std.specs.Prelude.{◌≡◌, IfSome, IsFalse, IsTrue, codes};
ghost use Rattle.crs_text.specs.Items.{End, HasId, Item};
ghost use Rattle.crs_text.specs.Written.{item_text};
ghost use Rattle.crs_value.specs.Values.{MethodParts, ParameterParts, AxisParts, DatumParts, IdentParts, SystemParts, UsageParts};
ghost use Rattle.crs_value.specs.inner.Arguments.{Holds, ahead, item_at};
ghost use Rattle.crs_value.specs.Reads.{ReadsAxis, ReadsDatum, ReadsIdent, ReadsUsage, ReadsMethod, ReadsParameter};
ghost use Rattle.crs_value.specs.declared.values.level.Level.TheVariants as levels;
ghost use Rattle.crs_normal.specs.inner.PartTexts.{method_text, parameter_text, usage_text};
ghost use Rattle.crs_normal.specs.inner.SpelledFrames.{item_datum, norm_datum};
ghost use Rattle.crs_normal.specs.inner.SpelledItems.{is_short, item_ident};
ghost use Rattle.crs_normal.specs.inner.SpelledCrs.{item_axis, norm_axis};
ghost use Rattle.crs_writer.specs.inner.Copied.{IsDirectionWord, IsEnd, IsNext, IsOpened, IsPlainBox, IsPlainEllipsoid};
ghost use Rattle.crs_writer.specs.inner.Copied.{IsPlainNumber, IsPlainOrder, IsSaidKind, IsSaidUnit, IsShortIdent, IsTextNode};
ghost use Rattle.crs_writer.specs.inner.Node.{item};

use crate::nodes::node::Node;
use crs_decimal::{are_digits, is_plain};
use crs_shape::{Class, Direction};
use crs_text::{ItemId, ItemKind, Items};
use crs_value::Level;
use itoa::Buffer;

// ---- arguments one after another

// The first argument of a node that has this keyword.
#[inline(always)]
fn opened(items: &Items<'_>, id: ItemId, keyword: &[u8]) -> Option<Option<ItemId>>
    requires { HasId items.now id }
    ensures { IfSome result (λ at. IsOpened items.now id keyword.now at) }
{
    if items.raw(id) != keyword {
        return None;
    }
    Some(items.arg(id, 0))
}

// The argument that comes next, if it is of this kind, and the one behind it.
#[inline(always)]
fn next_of(
    items: &Items<'_>,
    at: Option<ItemId>,
    kind: ItemKind,
) -> Option<(ItemId, Option<ItemId>)>
    requires { Holds items.now at }
    ensures { IfSome result (λ found. IsNext items.now at kind found.0 found.1) }
{
    let id = at?;
    if items.kind(id) != kind {
        return None;
    }
    Some((id, items.next(id)))
}

// The same, if it is a number in its plain spelling.
#[inline(always)]
fn next_plain(items: &Items<'_>, at: Option<ItemId>) -> Option<(ItemId, Option<ItemId>)>
    requires { Holds items.now at }
    ensures next { IfSome result (λ found. IsNext items.now at ItemKind.Number found.0 found.1) }
    ensures plain { IfSome result (λ found. IsPlainNumber (item_at items.now found.0)) }
{
    crs_decimal::laws::plain_is_the_one();
    let (number, next) = next_of(items, at, ItemKind::Number)?;
    is_plain(items.raw(number)).then_some((number, next))
}

// Nothing comes next.
#[inline(always)]
fn none_next(at: Option<ItemId>) -> Option<()>
    ensures { IfSome result (λ _. (tree : Item) → ahead tree at ≡ End) }
{
    at.is_none().then_some(())
}

// ---- levels, numbers and keywords

/// Whether the level keeps identifiers, usages and remarks. Profile.
#[inline(always)]
pub fn keeps(level: Level) -> bool
    ensures full { IsTrue result → level ≡ levels.Full }
    ensures definition { IsFalse result → level ≡ levels.Definition }
{
    matches!(level, Level::Full)
}

/// Whether a code is written without quotes. Profile.
pub fn is_short(raw: &[u8]) -> bool
    ensures { result ≡ is_short raw.now }
{
    are_digits(raw) && 1 <= raw.len() && raw.len() <= 18
}

// Whether this is the keyword of a kind of unit, which `UNIT` isn't.
fn is_said_kind(raw: &[u8]) -> bool
    ensures { IsTrue result → IsSaidKind raw.now }
{
    raw == b"ANGLEUNIT".as_slice()
        || raw == b"LENGTHUNIT".as_slice()
        || raw == b"SCALEUNIT".as_slice()
}

fn is_direction_word(raw: &[u8]) -> bool
    ensures { IsTrue result → IsDirectionWord raw.now }
{
    match Direction::read(raw) {
        None => false,
        Some(direction) => direction.word().as_bytes() == raw,
    }
}

// ---- forms: `Some` where the item has the form

fn short_ident(items: &Items<'_>, id: ItemId) -> Option<()>
    requires { HasId items.now id }
    ensures { IfSome result (λ _. IsShortIdent (item_at items.now id)) }
{
    let at = opened(items, id, b"ID")?;
    let (_authority, at) = next_of(items, at, ItemKind::Text)?;
    let (code, at) = next_of(items, at, ItemKind::Number)?;
    none_next(at)?;
    is_short(items.raw(code)).then_some(())
}

fn ends(items: &Items<'_>, at: Option<ItemId>, level: Level) -> Option<()>
    requires { Holds items.now at }
    ensures { IfSome result (λ _. IsEnd level (ahead items.now at)) }
{
    let Some(id) = at else { return Some(()) };
    if !keeps(level) || items.next(id).is_some() {
        return None;
    }
    short_ident(items, id)
}

fn said_unit(items: &Items<'_>, id: ItemId, level: Level) -> Option<()>
    requires { HasId items.now id }
    ensures { IfSome result (λ _. IsSaidUnit level (item_at items.now id)) }
{
    if !is_said_kind(items.raw(id)) {
        return None;
    }
    let (_name, at) = next_of(items, items.arg(id, 0), ItemKind::Text)?;
    let (_factor, at) = next_plain(items, at)?;
    ends(items, at, level)
}

fn text_node(items: &Items<'_>, id: ItemId, word: &[u8]) -> Option<()>
    requires { HasId items.now id }
    ensures { IfSome result (λ _. IsTextNode word.now (item_at items.now id)) }
{
    let at = opened(items, id, word)?;
    let (_inner, at) = next_of(items, at, ItemKind::Text)?;
    none_next(at)
}

fn plain_box(items: &Items<'_>, id: ItemId) -> Option<()>
    requires { HasId items.now id }
    ensures { IfSome result (λ _. IsPlainBox (item_at items.now id)) }
{
    let at = opened(items, id, b"BBOX")?;
    let (_south, at) = next_plain(items, at)?;
    let (_west, at) = next_plain(items, at)?;
    let (_north, at) = next_plain(items, at)?;
    let (_east, at) = next_plain(items, at)?;
    none_next(at)?;
    Some(())
}

fn plain_ellipsoid(items: &Items<'_>, id: ItemId, level: Level) -> Option<()>
    requires { HasId items.now id }
    ensures { IfSome result (λ _. IsPlainEllipsoid level (item_at items.now id)) }
{
    let at = opened(items, id, b"ELLIPSOID")?;
    let (_name, at) = next_of(items, at, ItemKind::Text)?;
    let (_axis, at) = next_plain(items, at)?;
    let (_flattening, at) = next_plain(items, at)?;
    let (unit, at) = next_of(items, at, ItemKind::Node)?;
    none_next(at)?;
    if items.raw(unit) != b"LENGTHUNIT".as_slice() {
        return None;
    }
    said_unit(items, unit, level)?;
    Some(())
}

fn plain_order(items: &Items<'_>, id: ItemId, position: u64) -> Option<()>
    requires { HasId items.now id }
    ensures { IfSome result (λ _. IsPlainOrder position (item_at items.now id)) }
{
    let at = opened(items, id, b"ORDER")?;
    let (number, at) = next_of(items, at, ItemKind::Number)?;
    none_next(at)?;
    let mut digits = Buffer::new();
    (digits.format(position).as_bytes() == items.raw(number)).then_some(())
}

// ---- copies

/// The text of the identifier that is read from a node, if that is the node's bytes. Profile.
pub fn ident<'a>(node: &Node<'_, 'a>) -> Option<&'a [u8]>
    ensures { IfSome result (λ bytes. (i : IdentParts) → ReadsIdent node.now.class (item node.now) i →
        bytes.now ≡ item_text (item_ident i)) }
{
    let items = node.items;
    short_ident(items, node.id)?;
    items.written(node.id)
}

/// The text of the method that is read from a node, if that is the node's bytes. Profile.
pub fn method<'a>(node: &Node<'_, 'a>, level: Level) -> Option<&'a [u8]>
    ensures { IfSome result (λ bytes. (m : MethodParts) → ReadsMethod node.now.class (item node.now) m →
        bytes.now ≡ method_text level m) }
{
    let items = node.items;
    if node.class != Class::Method {
        return None;
    }
    let at = opened(items, node.id, b"METHOD")?;
    let (_name, at) = next_of(items, at, ItemKind::Text)?;
    ends(items, at, level)?;
    items.written(node.id)
}

/// The text of the parameter that is read from a node, if that is the node's bytes. Profile.
pub fn parameter<'a>(node: &Node<'_, 'a>, level: Level) -> Option<&'a [u8]>
    ensures { IfSome result (λ bytes. (p : ParameterParts) → ReadsParameter node.now.class (item node.now) p →
        bytes.now ≡ parameter_text level p) }
{
    let items = node.items;
    if node.class != Class::Parameter {
        return None;
    }
    let at = opened(items, node.id, b"PARAMETER")?;
    let (_name, at) = next_of(items, at, ItemKind::Text)?;
    let (_value, at) = next_plain(items, at)?;
    let (unit, at) = next_of(items, at, ItemKind::Node)?;
    said_unit(items, unit, level)?;
    ends(items, at, level)?;
    items.written(node.id)
}

/// The text of the usage that is read from a node, if that is the node's bytes. Profile.
pub fn usage<'a>(node: &Node<'_, 'a>, level: Level) -> Option<&'a [u8]>
    ensures { IfSome result (λ bytes. (u : UsageParts) → ReadsUsage node.now.class (item node.now) u →
        bytes.now ≡ usage_text level u) }
{
    let items = node.items;
    if node.class != Class::Usage {
        return None;
    }
    let at = opened(items, node.id, b"USAGE")?;
    let (scope, at) = next_of(items, at, ItemKind::Node)?;
    let (area, at) = next_of(items, at, ItemKind::Node)?;
    let (bbox, at) = next_of(items, at, ItemKind::Node)?;
    none_next(at)?;
    text_node(items, scope, b"SCOPE")?;
    text_node(items, area, b"AREA")?;
    plain_box(items, bbox)?;
    items.written(node.id)
}

/// The text of the geodetic reference frame that is read from a node, if that is the node's bytes. Profile.
pub fn datum<'a>(node: &Node<'_, 'a>, level: Level) -> Option<&'a [u8]>
    ensures { IfSome result (λ bytes. (d : DatumParts) → ReadsDatum node.now.class (item node.now) d →
        bytes.now ≡ item_text (item_datum (codes "DATUM") (norm_datum level d))) }
{
    let items = node.items;
    if node.class != Class::GeodeticFrame {
        return None;
    }
    let at = opened(items, node.id, b"DATUM")?;
    let (_name, at) = next_of(items, at, ItemKind::Text)?;
    let (ellipsoid, at) = next_of(items, at, ItemKind::Node)?;
    none_next(at)?;
    plain_ellipsoid(items, ellipsoid, level)?;
    items.written(node.id)
}

/// The text of the axis at this position that is read from a node, if that is the node's bytes. Profile.
pub fn axis<'a>(node: &Node<'_, 'a>, position: u64, level: Level) -> Option<&'a [u8]>
    ensures { IfSome result (λ bytes. (s : SystemParts) (a : AxisParts) → ReadsAxis node.now.class (item node.now) a →
        bytes.now ≡ item_text (item_axis (norm_axis level s position a))) }
{
    let items = node.items;
    if node.class != Class::Axis {
        return None;
    }
    let at = opened(items, node.id, b"AXIS")?;
    let (_name, at) = next_of(items, at, ItemKind::Text)?;
    let (direction, at) = next_of(items, at, ItemKind::Word)?;
    let (order, at) = next_of(items, at, ItemKind::Node)?;
    let (unit, at) = next_of(items, at, ItemKind::Node)?;
    if !is_direction_word(items.raw(direction)) {
        return None;
    }
    plain_order(items, order, position)?;
    if items.raw(unit) == b"SCALEUNIT".as_slice() {
        return None;
    }
    said_unit(items, unit, level)?;
    ends(items, at, level)?;
    items.written(node.id)
}
