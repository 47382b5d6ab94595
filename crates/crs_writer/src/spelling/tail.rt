//! Usages and their extents, and the ends of CRSs: usages, identifiers and remark.
ghost use Rattle.std.specs.Prelude.{◌≡◌, ◌++◌, ◌<◌, ℕ, List, OnOk, Option, Some, codes, length, slice_set};
ghost use Rattle.std.specs.Option.{option_copied, option_map};
ghost use Rattle.crs_decimal.specs.Numbers.{Value};
ghost use Rattle.crs_text.specs.Items.{End, More, Siblings};
ghost use Rattle.crs_text.specs.Written.{item_text, others_text};
ghost use Rattle.crs_value.specs.Kept.{kept_one};
ghost use Rattle.crs_value.specs.Reading.{ReadsIfAny};
ghost use Rattle.crs_value.specs.Reads.{ReadsBox, ReadsExtent, ReadsUsage, ReadsTail, ReadsTextOf};
ghost use Rattle.crs_value.specs.Values.{BoxParts, ExtentParts, UnitParts, IdentParts, TailParts};
ghost use Rattle.crs_value.specs.declared.values.level.Level.TheVariants as levels;
ghost use Rattle.crs_same.specs.SameParts.{usages_of};
ghost use Rattle.crs_normal.specs.inner.PartTexts.{box_text, extent_text, usage_text};
ghost use Rattle.crs_normal.specs.inner.SpelledItems.{node_from, number_item, opt, text_node, each, item_unit, norm_length, item_ident, set_idents};
ghost use Rattle.crs_normal.specs.inner.SpelledItems.{item_box, item_extent, norm_extent, item_usage, norm_tail, set_usages, tail_items};
ghost use Rattle.crs_writer.specs.inner.Node.{item};
ghost use Rattle.crs_writer.specs.inner.FromItems.{SaysIfAny, Writes};
ghost use Rattle.crs_writer.specs.inner.Openings.{enclosed, numbered_node};

use crate::members::{ReadAs, SetReadAs};
use crate::nodes::copied;
use crate::parts::{Appended, IdentsPart, NumberPart, Spell, UnitPart, ValuePart, write_optional};
use crate::set::{write_set, write_set_with};
use crate::spelling::idents_and_units::write_length;
use crate::{Node, append, keeps, write_optional_text};
use crs_shape::Class;
use crs_value::{BoundingBox, Extent, Level, Tail, Usage};

#[tactic(auto, using(crate::proofs::FlatLemmas::number_rules))]
fn write_box<N: NumberPart>(out: &mut Vec<u8>, south: N, west: N, north: N, east: N) -> Appended
    ensures { OnOk result ((s w n e : Value) → N.Says south s → N.Says west w → N.Says north n → N.Says east e →
        out.new.items ≡ out.old.items ++ numbered_node (codes "BBOX[") s
        (More (number_item w) (More (number_item n) (More (number_item e) End)))) }
{
    south.open(out, b"BBOX[")?;
    west.open(out, b",")?;
    north.open(out, b",")?;
    east.open(out, b",")?;
    append(out, b"]")
}

impl Spell for BoundingBox {
    ghost spelling = { box_text };

    fn spell(&self, out: &mut Vec<u8>, _level: Level) -> Appended {
        write_box(out, &self.south, &self.west, &self.north, &self.east)
    }
}

impl<'a> ReadAs<'a> for BoundingBox {
    ghost Reads = { ReadsBox };

    fn write_of(node: &Node<'_, 'a>, out: &mut Vec<u8>, _level: Level) -> Appended {
        let (south, west) = (node.nth_number(0), node.nth_number(1));
        let (north, east) = (node.nth_number(2), node.nth_number(3));
        write_box(out, south, west, north, east)
    }
}

#[tactic(auto, using(crate::proofs::FlatLemmas::number_rules))]
fn write_extent<N: NumberPart, U: UnitPart>(
    out: &mut Vec<u8>,
    minimum: N,
    maximum: N,
    unit: Option<U>,
    level: Level,
) -> Appended
    ensures { OnOk result ((l h : Value) (u : Option UnitParts) → N.Says minimum l → N.Says maximum h →
        SaysIfAny U.Says unit u → out.new.items ≡ out.old.items ++ numbered_node (codes "VERTICALEXTENT[") l
        (More (number_item h) (opt item_unit (Some (norm_length level u)) End))) }
{
    minimum.open(out, b"VERTICALEXTENT[")?;
    maximum.open(out, b",")?;
    write_length(out, unit, level)?;
    append(out, b"]")
}

impl Spell for Extent<'_> {
    ghost spelling = { extent_text };

    fn spell(&self, out: &mut Vec<u8>, level: Level) -> Appended {
        let unit = self.unit.as_ref();
        write_extent(out, &self.minimum, &self.maximum, unit, level)
    }
}

impl<'a> ReadAs<'a> for Extent<'a> {
    ghost Reads = { ReadsExtent };

    fn write_of(node: &Node<'_, 'a>, out: &mut Vec<u8>, level: Level) -> Appended {
        let unit = node.first(Class::LengthUnit);
        let (minimum, maximum) = (node.nth_number(0), node.nth_number(1));
        write_extent(out, minimum, maximum, unit.as_ref(), level)
    }
}

// ---- usages, of which any part may be the first

fn open_at(out: &mut Vec<u8>, at: usize)
    requires { at < length out.old.items }
    ensures { out.new.items ≡ slice_set out.old.items at 91 }
{
    out[at] = b'[';
}

// Delimiters around the arguments from this place on; the opening one replaces the first comma.
fn enclose(out: &mut Vec<u8>, at: usize) -> Appended
    ensures { OnOk result ((front : List ℕ) (items : Siblings) → out.old.items ≡ front ++ others_text items →
        length front ≡ at → out.new.items ≡ front ++ enclosed items) }
{
    if out.len() <= at {
        return Ok(());
    }
    open_at(out, at);
    append(out, b"]")
}

fn write_usage<'a, B: ValuePart<BoundingBox>, E: ValuePart<Extent<'a>>>(
    out: &mut Vec<u8>,
    scope: Option<&[u8]>,
    area: Option<&[u8]>,
    bbox: Option<B>,
    extent: Option<E>,
) -> Appended
    ensures { OnOk result ((s a : Option (List ℕ)) (b : Option BoxParts) (e : Option ExtentParts) →
        s ≡ option_copied scope.entry → a ≡ option_copied area.entry → SaysIfAny B.Says bbox b →
        SaysIfAny E.Says extent e → out.new.items ≡ out.old.items ++ item_text (node_from (codes "USAGE")
        (opt (text_node (codes "SCOPE")) s (opt (text_node (codes "AREA")) a
        (opt item_box b (opt item_extent (option_map (norm_extent levels.Full) e) End)))))) }
{
    append(out, b"USAGE")?;
    let at = out.len();
    write_optional_text(out, b",SCOPE[\"", scope)?;
    write_optional_text(out, b",AREA[\"", area)?;
    write_optional::<BoundingBox, B>(out, bbox, Level::Full)?;
    write_optional::<Extent<'a>, E>(out, extent, Level::Full)?;
    enclose(out, at)
}

impl Spell for Usage<'_> {
    ghost spelling = { usage_text };

    #[tactic(auto, using(crate::proofs::FlatLemmas::value_rules))]
    fn spell(&self, out: &mut Vec<u8>, _level: Level) -> Appended {
        let bbox = self.bbox.as_ref();
        let extent = self.extent.as_ref();
        write_usage(out, self.scope, self.area, bbox, extent)
    }
}

impl<'a> ReadAs<'a> for Usage<'a> {
    ghost Reads = { ReadsUsage };

    fn write_of(node: &Node<'_, 'a>, out: &mut Vec<u8>, _level: Level) -> Appended {
        let bbox = node.first(Class::BoundingBox);
        let extent = node.first(Class::VerticalExtent);
        let scope = node.text_in(Class::Scope);
        let area = node.text_in(Class::Area);
        write_usage(out, scope, area, bbox.as_ref(), extent.as_ref())
    }
}

impl<'a> SetReadAs<'a> for Usage<'a> {
    fn copied(node: &Node<'_, 'a>, level: Level) -> Option<&'a [u8]> {
        copied::usage(node, level)
    }
}

// ---- the ends of CRSs

/// The end of a CRS, which the item of the CRS has.
pub(crate) trait TailPart: Copy {
    ghost Says: { Self → TailParts → Type 0 };

    fn put(&self, out: &mut Vec<u8>, level: Level) -> Appended
        ensures { OnOk result (Writes (Says self.now) (λ t. others_text (tail_items (norm_tail level t)))
            out.old.items out.new.items) };
}

// The identifiers that the level keeps, and a remark, if there is one.
fn write_end<I: IdentsPart>(
    out: &mut Vec<u8>,
    ids: I,
    remark: Option<&[u8]>,
    level: Level,
) -> Appended
    ensures { OnOk result ((is : List IdentParts) (r : Option (List ℕ)) → I.Says ids is → r ≡ option_copied remark.entry →
        out.new.items ≡ out.old.items ++ others_text
        (each item_ident (set_idents level is) (opt (text_node (codes "REMARK")) r End))) }
{
    ids.put(out, level)?;
    write_optional_text(out, b",REMARK[\"", remark)
}

// ---- of a value

// The usages that the level keeps; the bare parts are together one usage more.
#[tactic(auto, using(crate::proofs::WrittenLemmas::written_rules))]
fn write_usages<'a>(out: &mut Vec<u8>, tail: &Tail<'a>, level: Level) -> Appended
    ensures { OnOk result (out.new.items
        ≡ out.old.items ++ others_text (each item_usage (set_usages level (usages_of tail.now)) End)) }
{
    let usages = level.kept(tail.usages.as_slice());
    match level.kept_one(tail.bare_parts.as_ref()) {
        None => write_set::<Usage<'a>, _>(out, &usages, Level::Full),
        Some(bare) => write_set_with::<Usage<'a>, _, _>(out, &bare, &usages, Level::Full),
    }
}

impl<'b, 'a> TailPart for &'b Tail<'a> {
    ghost Says = { λ s v. v ≡ s.now };

    #[tactic(auto, using(crate::proofs::PieceLemmas::then_rules))]
    fn put(&self, out: &mut Vec<u8>, level: Level) -> Appended {
        write_usages(out, *self, level)?;
        write_end(out, &self.identifiers, level.kept_text(self.remark), level)
    }
}

// ---- of an item

// The usages that the level keeps; the bare parts are together one usage more.
fn write_usages_of<'a>(node: &Node<'_, 'a>, out: &mut Vec<u8>, level: Level) -> Appended
    ensures { OnOk result (Writes (ReadsTail node.now.class (item node.now))
        (λ t. others_text (each item_usage (set_usages level (usages_of t)) End)) out.old.items out.new.items) }
{
    if keeps(level) {
        let usages = node.all(Class::Usage);
        if node.has_bare() {
            write_set_with::<Usage<'a>, _, _>(out, node, &usages, Level::Full)
        } else {
            write_set::<Usage<'a>, _>(out, &usages, Level::Full)
        }
    } else {
        Ok(())
    }
}

// The remark, if the level keeps it.
fn remark_of<'a>(node: &Node<'_, 'a>, level: Level) -> Option<&'a [u8]>
    ensures { (value : Option (List ℕ)) → ReadsIfAny ReadsTextOf Class.Remark node.now.class (item node.now) value →
        kept_one level value ≡ option_copied result }
{
    if keeps(level) {
        node.text_in(Class::Remark)
    } else {
        None
    }
}

impl<'c, 'i, 'a> TailPart for &'c Node<'i, 'a> {
    ghost Says = { λ n t. ReadsTail n.now.class (item n.now) t };

    #[tactic(auto, using(crate::proofs::PieceLemmas::then_rules))]
    fn put(&self, out: &mut Vec<u8>, level: Level) -> Appended {
        write_usages_of(*self, out, level)?;
        write_end(out, *self, remark_of(*self, level), level)
    }
}
