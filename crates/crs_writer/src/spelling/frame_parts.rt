//! Ellipsoids, prime meridians and dynamic parts.
ghost use Rattle.std.specs.Prelude.{◌≡◌, ◌++◌, ◌∷◌, [], None, OnOk, Option, Some, if◌then◌else◌};
ghost use Rattle.std.specs.Option.{option_map};
ghost use Rattle.crs_decimal.specs.Numbers.{plain, Value};
ghost use Rattle.crs_text.specs.Items.{End, More};
ghost use Rattle.crs_text.specs.Written.{item_text, others_text};
ghost use Rattle.crs_value.specs.Values.{DeformationModelParts, EllipsoidParts, UnitParts};
ghost use Rattle.crs_value.specs.Reads.{ReadsEllipsoid, ReadsMeridian, ReadsDeformationModel, ReadsDynamic};
ghost use Rattle.crs_normal.specs.inner.PartTexts.{deformation_model_text, dynamic_text, ellipsoid_text, meridian_text};
ghost use Rattle.crs_normal.specs.inner.SpelledCrs.{item_deformation_model, norm_deformation_model};
ghost use Rattle.crs_normal.specs.inner.SpelledFrames.{greenwich, is_zero, item_meridian, norm_meridian};
ghost use Rattle.crs_normal.specs.inner.SpelledItems.{each, number_item, opt, item_ident, item_unit, norm_length, set_idents};
ghost use Rattle.crs_writer.specs.inner.FromItems.{SaysIfAny, Writes};
ghost use Rattle.crs_writer.specs.inner.Openings.{named_node};

use crate::members::ReadAs;
use crate::parts::{
    Appended, IdentsPart, NumberPart, Spell, UnitPart, ValuePart, write_number_node, write_optional,
};
use crate::spelling::idents_and_units::{
    MeasuredFields, write_length, write_measured, write_named,
};
use crate::{Node, append, open_text};
use crs_shape::Class;
use crs_value::{DeformationModel, Dynamic, Ellipsoid, Level, Meridian, UnitKind};

#[derive(Drop)]
struct EllipsoidFields<'b, N, U, I> {
    name: &'b [u8],
    semi_major_axis: N,
    inverse_flattening: N,
    unit: Option<U>,
    ids: I,
}

// After an opening.
#[tactic(auto, using(crate::proofs::FlatLemmas::flat_rules))]
fn write_ellipsoid<N: NumberPart, U: UnitPart, I: IdentsPart>(
    out: &mut Vec<u8>,
    opening: &[u8],
    fields: EllipsoidFields<'_, N, U, I>,
    level: Level,
) -> Appended
    ensures { OnOk result ((e : EllipsoidParts) → e.name ≡ fields.entry.name.now →
        N.Says fields.entry.semi_major_axis e.semi_major_axis →
        N.Says fields.entry.inverse_flattening e.inverse_flattening → SaysIfAny U.Says fields.entry.unit e.unit →
        I.Says fields.entry.ids e.identifiers → out.new.items ≡ out.old.items ++ named_node opening.now e.name
        (More (number_item e.semi_major_axis) (More (number_item e.inverse_flattening)
        (opt item_unit (Some (norm_length level e.unit)) (each item_ident (set_idents level e.identifiers) End))))) }
{
    open_text(out, opening, fields.name)?;
    fields.semi_major_axis.open(out, b",")?;
    fields.inverse_flattening.open(out, b",")?;
    write_length(out, fields.unit, level)?;
    fields.ids.put(out, level)?;
    append(out, b"]")
}

impl Spell for Ellipsoid<'_> {
    ghost spelling = { ellipsoid_text };

    fn spell(&self, out: &mut Vec<u8>, level: Level) -> Appended {
        let fields = EllipsoidFields {
            name: self.name,
            semi_major_axis: &self.semi_major_axis,
            inverse_flattening: &self.inverse_flattening,
            unit: self.unit.as_ref(),
            ids: &self.identifiers,
        };
        write_ellipsoid(out, b"ELLIPSOID[\"", fields, level)
    }
}

impl<'a> ReadAs<'a> for Ellipsoid<'a> {
    ghost Reads = { ReadsEllipsoid };

    fn write_of(node: &Node<'_, 'a>, out: &mut Vec<u8>, level: Level) -> Appended {
        let unit = node.first(Class::LengthUnit);
        let fields = EllipsoidFields {
            name: node.text(),
            semi_major_axis: node.nth_number(0),
            inverse_flattening: node.nth_number(1),
            unit: unit.as_ref(),
            ids: node,
        };
        write_ellipsoid(out, b"ELLIPSOID[\"", fields, level)
    }
}

// At longitude 0 a unit says nothing.
fn unit_said<N: NumberPart, U: UnitPart>(longitude: N, unit: Option<U>) -> Option<U>
    ensures { (l : Value) (u : Option UnitParts) → N.Says longitude l → SaysIfAny U.Says unit u →
        SaysIfAny U.Says result (if is_zero l then None else u) }
{
    if longitude.is_zero() { None } else { unit }
}

impl Spell for Meridian<'_> {
    ghost spelling = { meridian_text };

    fn spell(&self, out: &mut Vec<u8>, level: Level) -> Appended {
        let fields = MeasuredFields {
            name: self.name,
            number: &self.longitude,
            asked: UnitKind::Angle,
            unit: unit_said(&self.longitude, self.unit.as_ref()),
            ids: &self.identifiers,
        };
        write_measured(out, b"PRIMEM[\"", fields, level)
    }
}

impl<'a> ReadAs<'a> for Meridian<'a> {
    ghost Reads = { ReadsMeridian };

    fn write_of(node: &Node<'_, 'a>, out: &mut Vec<u8>, level: Level) -> Appended {
        let unit = node.first(Class::AngleUnit);
        let longitude = node.number();
        let fields = MeasuredFields {
            name: node.text(),
            number: longitude,
            asked: UnitKind::Angle,
            unit: unit_said(longitude, unit.as_ref()),
            ids: node,
        };
        write_measured(out, b"PRIMEM[\"", fields, level)
    }
}

fn write_greenwich(out: &mut Vec<u8>) -> Appended
    ensures { OnOk result (out.new.items ≡ out.old.items ++ 44 ∷ item_text (item_meridian greenwich)) }
{
    append(out, b",PRIMEM[\"Greenwich\",0]")
}

// The prime meridian of a CRS: where none is written, Greenwich.
pub(crate) fn write_meridian<'a, M: ValuePart<Meridian<'a>>>(
    out: &mut Vec<u8>,
    meridian: Option<M>,
    level: Level,
) -> Appended
    ensures { OnOk result (Writes (SaysIfAny M.Says meridian)
        (λ m. others_text (opt item_meridian (norm_meridian level m) End)) out.old.items out.new.items) }
{
    match meridian {
        None => write_greenwich(out),
        Some(meridian) => meridian.put(out, level),
    }
}

impl Spell for DeformationModel<'_> {
    ghost spelling = { deformation_model_text };

    fn spell(&self, out: &mut Vec<u8>, level: Level) -> Appended {
        write_named(out, b"MODEL[\"", self.name, &self.identifiers, level)
    }
}

impl<'a> ReadAs<'a> for DeformationModel<'a> {
    ghost Reads = { ReadsDeformationModel };

    fn write_of(node: &Node<'_, 'a>, out: &mut Vec<u8>, level: Level) -> Appended {
        write_named(out, b"MODEL[\"", node.text(), node, level)
    }
}

// After the opening of the frame epoch in it.
#[tactic(auto, using(crate::proofs::FlatLemmas::dynamic_rules))]
fn write_dynamic<'a, N: NumberPart, M: ValuePart<DeformationModel<'a>>>(
    out: &mut Vec<u8>,
    opening: &[u8],
    epoch: N,
    model: Option<M>,
    level: Level,
) -> Appended
    ensures { OnOk result ((e : Value) (m : Option DeformationModelParts) → N.Says epoch e → SaysIfAny M.Says model m →
        out.new.items ≡ out.old.items ++ ((opening.now ++ (plain e ++ 93 ∷ []))
        ++ (others_text (opt item_deformation_model (option_map (norm_deformation_model level) m) End) ++ 93 ∷ []))) }
{
    write_number_node(out, opening, epoch)?;
    write_optional::<DeformationModel<'a>, M>(out, model, level)?;
    append(out, b"]")
}

impl Spell for Dynamic<'_> {
    ghost spelling = { dynamic_text };

    fn spell(&self, out: &mut Vec<u8>, level: Level) -> Appended {
        let model = self.model.as_ref();
        write_dynamic(out, b"DYNAMIC[FRAMEEPOCH[", &self.epoch, model, level)
    }
}

impl<'a> ReadAs<'a> for Dynamic<'a> {
    ghost Reads = { ReadsDynamic };

    fn write_of(node: &Node<'_, 'a>, out: &mut Vec<u8>, level: Level) -> Appended {
        let epoch = node.one_number(Class::FrameEpoch);
        let model = node.first(Class::DeformationModel);
        write_dynamic(out, b"DYNAMIC[FRAMEEPOCH[", epoch, model.as_ref(), level)
    }
}
