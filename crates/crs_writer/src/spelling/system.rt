//! Coordinate systems: their axes are in order of position.
ghost use Rattle.std.specs.Prelude.{◌≡◌, ◌∷◌, ◌++◌, [], ℕ, IfOk, List, OnOk, Option, codes, length};
ghost use Rattle.std.specs.Option.{option_copied};
ghost use Rattle.crs_decimal.specs.Numbers.{Value};
ghost use Rattle.crs_text.specs.Items.{End, More};
ghost use Rattle.crs_text.specs.Written.{item_text, others_text};
ghost use Rattle.crs_shape.specs.Words.{SpellsWord, direction_word, system_word};
ghost use Rattle.crs_shape.specs.declared.direction.Direction.{Direction};
ghost use Rattle.crs_shape.specs.declared.system_type.SystemType.{SystemType};
ghost use Rattle.crs_shape.specs.declared.unit_kind.UnitKind.{UnitKind};
ghost use Rattle.crs_shape.specs.declared.unit_kind.UnitKind.TheVariants as kinds;
ghost use Rattle.crs_value.specs.Reading.{ReadsFirst, ReadsIfAny};
ghost use Rattle.crs_value.specs.Reads.{ReadsAxis, ReadsAxisMeridian, ReadsSystem, ReadsType, ReadsUnit};
ghost use Rattle.crs_value.specs.Values.{AxisMeridianParts, AxisParts, IdentParts, SystemParts, UnitParts};
ghost use Rattle.crs_same.specs.SameParts.{own_or};
ghost use Rattle.crs_normal.specs.inner.PartTexts.{axis_meridian_text, axis_text};
ghost use Rattle.crs_normal.specs.inner.SpelledItems.{each, number_node, opt, word_item, item_ident, item_unit, norm_units, set_idents};
ghost use Rattle.crs_normal.specs.inner.SpelledCrs.{axes_from, axis_at, item_axis, item_axis_meridian, item_head, norm_axis};
ghost use Rattle.crs_normal.specs.inner.SpelledCrs.{norm_axis_meridians, norm_system, system_items, with_axis};
ghost use Rattle.crs_writer.specs.inner.Node.{args, item};
ghost use Rattle.crs_writer.specs.inner.FromItems.{SaysIfAny, Writes};
ghost use Rattle.crs_writer.specs.inner.Openings.{named_node, numbered_node};

use crate::members::ReadAs;
use crate::nodes::copied;
use crate::parts::{
    Appended, IdentsPart, NumberPart, Spell, UnitPart, ValuePart, write_optional,
    write_optional_number,
};
use crate::spelling::idents_and_units::write_optional_unit;
use crate::{Node, append, append_item, axes, is_at, open_text};
use crs_shape::Class;
use crs_value::{Axis, AxisMeridian, Direction, Level, System, SystemType, UnitKind};
use std::alloc::AllocError;

// With its unit, if there is one.
#[tactic(auto, using(crate::proofs::FlatLemmas::along_rules))]
fn write_axis_meridian<N: NumberPart, U: UnitPart>(
    out: &mut Vec<u8>,
    longitude: N,
    unit: Option<U>,
    level: Level,
) -> Appended
    ensures { OnOk result ((l : Value) (u : Option UnitParts) → N.Says longitude l → SaysIfAny U.Says unit u → out.new.items
        ≡ out.old.items ++ numbered_node (codes "MERIDIAN[") l (opt item_unit (norm_units level kinds.Angle u) End)) }
{
    longitude.open(out, b"MERIDIAN[")?;
    write_optional_unit(out, UnitKind::Angle, unit, level)?;
    append(out, b"]")
}

impl Spell for AxisMeridian<'_> {
    ghost spelling = { axis_meridian_text };

    fn spell(&self, out: &mut Vec<u8>, level: Level) -> Appended {
        write_axis_meridian(out, &self.longitude, Some(&self.unit), level)
    }
}

impl<'a> ReadAs<'a> for AxisMeridian<'a> {
    ghost Reads = { ReadsAxisMeridian };

    fn write_of(node: &Node<'_, 'a>, out: &mut Vec<u8>, level: Level) -> Appended {
        let unit = node.first(Class::AngleUnit);
        write_axis_meridian(out, node.number(), unit.as_ref(), level)
    }
}

// The unit is of the kind that is asked.
#[derive(Drop)]
struct AxisFields<'b, M, N, U, I> {
    name: &'b [u8],
    direction: Direction,
    meridian: Option<M>,
    order: Option<N>,
    asked: UnitKind,
    unit: Option<U>,
    ids: I,
}

fn write_axis<'a, M: ValuePart<AxisMeridian<'a>>, N: NumberPart, U: UnitPart, I: IdentsPart>(
    out: &mut Vec<u8>,
    fields: AxisFields<'_, M, N, U, I>,
    level: Level,
) -> Appended
    ensures { OnOk result ((n : List ℕ) (d : Direction) (m : Option AxisMeridianParts) (o : Option Value) (k : UnitKind)
        (u : Option UnitParts) (is : List IdentParts) → n ≡ fields.entry.name.now → d ≡ fields.entry.direction →
        SaysIfAny M.Says fields.entry.meridian m → SaysIfAny N.Says fields.entry.order o → k ≡ fields.entry.asked →
        SaysIfAny U.Says fields.entry.unit u → I.Says fields.entry.ids is →
        out.new.items ≡ out.old.items ++ named_node (codes "AXIS[\"") n
        (More (word_item (direction_word d)) (opt item_axis_meridian (norm_axis_meridians level m)
        (opt (number_node (codes "ORDER")) o (opt item_unit (norm_units level k u)
        (each item_ident (set_idents level is) End)))))) }
{
    open_text(out, b"AXIS[\"", fields.name)?;
    append_item(out, fields.direction.word().as_bytes())?;
    write_optional::<AxisMeridian<'a>, M>(out, fields.meridian, level)?;
    write_optional_number(out, b",ORDER[", fields.order)?;
    write_optional_unit(out, fields.asked, fields.unit, level)?;
    fields.ids.put(out, level)?;
    append(out, b"]")
}

// By itself: with its own order and unit, of which `UNIT` is a kind of its own.
impl Spell for Axis<'_> {
    ghost spelling = { axis_text };

    #[tactic(auto, using(crate::proofs::FlatLemmas::value_rules))]
    fn spell(&self, out: &mut Vec<u8>, level: Level) -> Appended {
        let fields = AxisFields {
            name: self.name,
            direction: self.direction,
            meridian: self.meridian.as_ref(),
            order: self.order.as_ref(),
            asked: UnitKind::Plain,
            unit: self.unit.as_ref(),
            ids: &self.identifiers,
        };
        write_axis(out, fields, level)
    }
}

// A position in a coordinate system of a type.
#[derive(Drop)]
pub(crate) struct SystemPosition {
    system_type: SystemType,
    position: u64,
}

/// The coordinate system of a CRS, which the item of the CRS has.
pub(crate) trait SystemPart: Copy {
    ghost Says: { Self → SystemParts → Type 0 };

    fn system_type(&self) -> SystemType
        ensures { (s : SystemParts) → Says self.now s → s.system_type ≡ result };

    // The node `CS` after a comma; the answer is the system's type.
    fn put_head(&self, out: &mut Vec<u8>, level: Level) -> Result<SystemType, AllocError>
        ensures is { IfOk result (λ t. (s : SystemParts) → Says self.now s → s.system_type ≡ t) }
        ensures head { OnOk result (Writes (Says self.now) (λ s. 44 ∷ item_text (item_head (norm_system level s)))
            out.old.items out.new.items) };

    fn axis_count(&self) -> usize
        ensures { (s : SystemParts) → Says self.now s → length s.axes ≡ result };

    // The axis of a system of this type at a position after a comma, if there is one.
    fn put_axis(&self, out: &mut Vec<u8>, at: SystemPosition, level: Level) -> Appended
        ensures { OnOk result ((s : SystemParts) → s.system_type ≡ at.system_type → Says self.now s →
            out.new.items ≡ out.old.items ++ others_text (each item_axis
            (with_axis level s at.position (axis_at at.position 1 s.axes) []) End)) };
}

fn write_head<N: NumberPart, I: IdentsPart>(
    out: &mut Vec<u8>,
    system_type: SystemType,
    dimension: N,
    ids: I,
    level: Level,
) -> Appended
    ensures { OnOk result ((s : SystemParts) → s.system_type ≡ system_type → N.Says dimension s.dimension →
        I.Says ids s.identifiers → out.new.items ≡ out.old.items ++ 44 ∷ item_text (item_head (norm_system level s))) }
{
    append(out, b",CS[")?;
    append(out, system_type.word().as_bytes())?;
    dimension.open(out, b",")?;
    ids.put(out, level)?;
    append(out, b"]")
}

fn write_axes<S: SystemPart>(
    out: &mut Vec<u8>,
    system: S,
    system_type: SystemType,
    level: Level,
) -> Appended
    ensures { OnOk result ((s : SystemParts) → s.system_type ≡ system_type → S.Says system s →
        out.new.items ≡ out.old.items ++ others_text (each item_axis (axes_from level s 1 (length s.axes)) End)) }
{
    let count = system.axis_count();
    for index in 0..count {
        let at = SystemPosition {
            system_type,
            position: index as u64 + 1,
        };
        system.put_axis(out, at, level)?;
    }
    Ok(())
}

#[tactic(auto, using(crate::proofs::PieceLemmas::then_rules))]
pub(crate) fn write_system<S: SystemPart>(out: &mut Vec<u8>, system: S, level: Level) -> Appended
    ensures { OnOk result (Writes (S.Says system) (λ s. others_text (system_items (norm_system level s) End))
        out.old.items out.new.items) }
{
    let system_type = system.put_head(out, level)?;
    write_axes(out, system, system_type, level)
}

// ---- of a value

// The axis at this position.
fn axis_at<'b, 'a>(axes: &'b [Axis<'a>], position: u64) -> Option<&'b Axis<'a>>
    ensures { option_copied result ≡ axis_at position 1 axes.entry.now }
{
    let mut place = 1;
    for axis in axes {
        if is_at(position, place, axis.order) {
            return Some(axis);
        }
        place += 1;
    }
    None
}

// After a comma; the axis of a system at this position.
fn write_axis_in<'a>(
    out: &mut Vec<u8>,
    system: &System<'a>,
    axis: &Axis<'a>,
    position: u64,
    level: Level,
) -> Appended
    ensures { OnOk result (out.new.items
        ≡ out.old.items ++ 44 ∷ item_text (item_axis (norm_axis level system.now position axis.now))) }
{
    append(out, b",")?;
    let fields = AxisFields {
        name: axis.name,
        direction: axis.direction,
        meridian: axis.meridian.as_ref(),
        order: Some(position),
        asked: system.system_type.asked_kind(axis.direction),
        unit: system.unit_of(axis),
        ids: &axis.identifiers,
    };
    write_axis(out, fields, level)
}

impl<'b, 'a> SystemPart for &'b System<'a> {
    ghost Says = { λ s v. v ≡ s.now };

    fn system_type(&self) -> SystemType {
        self.system_type
    }

    fn put_head(&self, out: &mut Vec<u8>, level: Level) -> Result<SystemType, AllocError> {
        let ids = &self.identifiers;
        write_head(out, self.system_type, &self.dimension, ids, level)?;
        Ok(self.system_type)
    }

    fn axis_count(&self) -> usize {
        self.axes.as_slice().len()
    }

    fn put_axis(&self, out: &mut Vec<u8>, at: SystemPosition, level: Level) -> Appended {
        match axis_at(self.axes.as_slice(), at.position) {
            None => Ok(()),
            Some(axis) => write_axis_in(out, *self, axis, at.position, level),
        }
    }
}

// ---- of an item

// The type that a word spells, letter case aside, which its first letter tells.
fn type_by(word: &[u8]) -> SystemType
    ensures { (value : SystemType) → SpellsWord word.now (system_word value) → value ≡ result }
{
    match word {
        [b'C' | b'c', ..] => SystemType::Cartesian,
        [b'E' | b'e', ..] => SystemType::Ellipsoidal,
        [b'S' | b's', ..] => SystemType::Spherical,
        _ => SystemType::Vertical,
    }
}

// Stands for the type of a system that isn't there: no value is read then, and nothing is promised of what is written.
const NO_TYPE: SystemType = SystemType::Vertical;

// The type of a system, of which this is the node `CS`.
fn type_of(head: &Node<'_, '_>) -> SystemType
    ensures { (value : SystemType) → ReadsFirst ReadsType (args Class.Word head.now) value → value ≡ result }
{
    match head.first(Class::Word) {
        None => NO_TYPE,
        Some(word) => type_by(word.raw()),
    }
}

// The unit that an axis has by itself or shares.
fn unit_of<'i, 'a>(crs: &Node<'i, 'a>, axis: &Node<'i, 'a>) -> Option<Node<'i, 'a>>
    ensures { (own shared : Option UnitParts) → ReadsIfAny ReadsUnit Class.AxisUnit axis.now.class (item axis.now) own →
        ReadsIfAny ReadsUnit Class.AxisUnit crs.now.class (item crs.now) shared →
        SaysIfAny (λ n u. ReadsUnit n.class (item n) u) result (own_or own shared) }
{
    match axis.first(Class::AxisUnit) {
        None => crs.first(Class::AxisUnit),
        Some(found) => Some(found),
    }
}

// After a comma.
fn write_axis_of<'i, 'a>(
    out: &mut Vec<u8>,
    crs: &Node<'i, 'a>,
    axis: &Node<'i, 'a>,
    at: SystemPosition,
    level: Level,
) -> Appended
    ensures { OnOk result ((s : SystemParts) (a : AxisParts) → s.system_type ≡ at.system_type →
        ReadsIfAny ReadsUnit Class.AxisUnit crs.now.class (item crs.now) s.unit →
        ReadsAxis axis.now.class (item axis.now) a →
        out.new.items ≡ out.old.items ++ 44 ∷ item_text (item_axis (norm_axis level s at.position a))) }
{
    if let Some(bytes) = copied::axis(axis, at.position, level) {
        return append_item(out, bytes);
    }
    append(out, b",")?;
    let direction = axis.direction();
    let meridian = axis.first(Class::AxisMeridian);
    let unit = unit_of(crs, axis);
    let fields = AxisFields {
        name: axis.text(),
        direction,
        meridian: meridian.as_ref(),
        order: Some(at.position),
        asked: at.system_type.asked_kind(direction),
        unit: unit.as_ref(),
        ids: axis,
    };
    write_axis(out, fields, level)
}

impl<'c, 'i, 'a> SystemPart for &'c Node<'i, 'a> {
    ghost Says = { λ n s. ReadsSystem n.now.class (item n.now) s };

    fn system_type(&self) -> SystemType {
        match self.first(Class::CoordinateSystem) {
            None => NO_TYPE,
            Some(head) => type_of(&head),
        }
    }

    fn put_head(&self, out: &mut Vec<u8>, level: Level) -> Result<SystemType, AllocError> {
        let Some(head) = self.first(Class::CoordinateSystem) else {
            return Ok(NO_TYPE);
        };
        let system_type = type_of(&head);
        write_head(out, system_type, head.number(), &head, level)?;
        Ok(system_type)
    }

    fn axis_count(&self) -> usize {
        axes::axis_count(self.items, self.id, self.class)
    }

    fn put_axis(&self, out: &mut Vec<u8>, at: SystemPosition, level: Level) -> Appended {
        let items = self.items;
        let class = Class::Axis;
        match axes::axis_at(items, self.id, self.class, at.position) {
            None => Ok(()),
            Some(id) => write_axis_of(out, *self, &Node { items, id, class }, at, level),
        }
    }
}
