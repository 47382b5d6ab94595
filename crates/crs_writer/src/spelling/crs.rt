//! CRSs of each kind, and the base CRSs of projected ones.
ghost use Rattle.std.specs.Prelude.{◌≡◌, ◌∷◌, ◌++◌, [], ℕ, List, OnOk, Option, codes};
ghost use Rattle.std.specs.Option.{option_map};
ghost use Rattle.crs_text.specs.Items.{End, More};
ghost use Rattle.crs_text.specs.Written.{item_text};
ghost use Rattle.crs_shape.specs.declared.unit_kind.UnitKind.TheVariants as kinds;
ghost use Rattle.crs_value.specs.CompoundValues.{CompoundParts};
ghost use Rattle.crs_value.specs.CrsValues.{ProjectedParts, VerticalParts};
ghost use Rattle.crs_value.specs.Values.{DynamicParts, IdentParts, MeridianParts, SystemParts, TailParts, UnitParts};
ghost use Rattle.crs_value.specs.ReadsCrs.{ReadsBase, ReadsCompound, ReadsCrs, ReadsGeodetic, ReadsHorizontal, ReadsProjected, ReadsVertical};
ghost use Rattle.crs_value.specs.declared.values.frame.Frame.{Frame};
ghost use Rattle.crs_normal.specs.inner.PartTexts.{base_text, compound_text, geodetic_text, horizontal_text, projected_text, vertical_text};
ghost use Rattle.crs_normal.specs.inner.SpelledCrs.{geodetic_keyword, item_dynamic, norm_dynamic, norm_system, system_items};
ghost use Rattle.crs_normal.specs.inner.SpelledFrames.{item_frame, item_meridian, norm_frame, norm_meridian};
ghost use Rattle.crs_normal.specs.inner.SpelledItems.{each, node_of, opt, text_item, item_ident, item_unit, norm_units, set_idents};
ghost use Rattle.crs_normal.specs.inner.SpelledItems.{norm_tail, tail_items};
ghost use Rattle.crs_writer.specs.inner.Node.{item};
ghost use Rattle.crs_writer.specs.inner.FromItems.{SaysIfAny, IsRead, Writes};
ghost use Rattle.crs_writer.specs.inner.Openings.{named_node};
ghost use Rattle.crs_writer.specs.inner.CrsText.{crs_text};

use crate::members::{MembersPart, ReadAs};
use crate::parts::{Appended, IdentsPart, Spell, UnitPart, ValuePart, write_optional};
use crate::set::write_set;
use crate::spelling::frame::FramePart;
use crate::spelling::frame_parts::write_meridian;
use crate::spelling::idents_and_units::write_optional_unit;
use crate::spelling::system::{SystemPart, write_system};
use crate::spelling::tail::TailPart;
use crate::{Node, append, open_text};
use crs_shape::Class;
use crs_value::{
    Base, Compound, Conversion, Crs, Dynamic, Geodetic, GeoidModel, Horizontal, Level, Meridian,
    Projected, SystemType, UnitKind, Vertical,
};
use std::alloc::AllocError;

// The keyword of a geodetic CRS whose coordinate system has this type, the opening delimiter and a quote.
fn geodetic_opening(system_type: SystemType) -> &'static str
    ensures { result.now ≡ geodetic_keyword system_type ++ 91 ∷ 34 ∷ [] }
{
    match system_type {
        SystemType::Ellipsoidal => "GEOGCRS[\"",
        SystemType::Cartesian | SystemType::Spherical | SystemType::Vertical => "GEODCRS[\"",
    }
}

#[derive(Drop)]
struct GeodeticFields<'b, D, F, M, S, T> {
    name: &'b [u8],
    dynamic: Option<D>,
    frame: F,
    meridian: Option<M>,
    system: S,
    tail: T,
}

#[tactic(auto, using(crate::proofs::FlatLemmas::crs_rules))]
fn write_geodetic<
    'a,
    D: ValuePart<Dynamic<'a>>,
    F: FramePart,
    M: ValuePart<Meridian<'a>>,
    S: SystemPart,
    T: TailPart,
>(out: &mut Vec<u8>, fields: GeodeticFields<'_, D, F, M, S, T>, level: Level) -> Appended
    ensures { OnOk result ((n : List ℕ) (d : Option DynamicParts) (f : Frame) (m : Option MeridianParts)
        (s : SystemParts) (t : TailParts) → n ≡ fields.entry.name.now → SaysIfAny D.Says fields.entry.dynamic d →
        F.SaysGeodetic fields.entry.frame f → SaysIfAny M.Says fields.entry.meridian m → S.Says fields.entry.system s →
        T.Says fields.entry.tail t → out.new.items ≡ out.old.items
        ++ item_text (node_of (geodetic_keyword s.system_type) (text_item n)
        (opt item_dynamic (option_map (norm_dynamic level) d) (More (item_frame (codes "DATUM") (norm_frame level f))
        (opt item_meridian (norm_meridian level m)
        (system_items (norm_system level s) (tail_items (norm_tail level t)))))))) }
{
    let opening = geodetic_opening(fields.system.system_type());
    open_text(out, opening.as_bytes(), fields.name)?;
    write_optional::<Dynamic<'a>, D>(out, fields.dynamic, level)?;
    fields.frame.put_geodetic(out, level)?;
    write_meridian::<M>(out, fields.meridian, level)?;
    write_system(out, fields.system, level)?;
    fields.tail.put(out, level)?;
    append(out, b"]")
}

impl Spell for Geodetic<'_> {
    ghost spelling = { geodetic_text };

    #[tactic(auto, using(crate::proofs::FlatLemmas::value_rules))]
    fn spell(&self, out: &mut Vec<u8>, level: Level) -> Appended {
        let fields = GeodeticFields {
            name: self.name,
            dynamic: self.dynamic.as_ref(),
            frame: &self.frame,
            meridian: self.meridian.as_ref(),
            system: &self.system,
            tail: &self.tail,
        };
        write_geodetic(out, fields, level)
    }
}

impl<'a> ReadAs<'a> for Geodetic<'a> {
    ghost Reads = { ReadsGeodetic };

    fn write_of(node: &Node<'_, 'a>, out: &mut Vec<u8>, level: Level) -> Appended {
        let dynamic = node.first(Class::Dynamic);
        let meridian = node.first(Class::PrimeMeridian);
        let fields = GeodeticFields {
            name: node.text(),
            dynamic: dynamic.as_ref(),
            frame: node,
            meridian: meridian.as_ref(),
            system: node,
            tail: node,
        };
        write_geodetic(out, fields, level)
    }
}

// The unit is that of its angles.
#[derive(Drop)]
struct BaseFields<'b, D, F, M, U, I> {
    name: &'b [u8],
    dynamic: Option<D>,
    frame: F,
    meridian: Option<M>,
    unit: Option<U>,
    ids: I,
}

// After an opening.
#[tactic(auto, using(crate::proofs::FlatLemmas::crs_rules))]
fn write_base<
    'a,
    D: ValuePart<Dynamic<'a>>,
    F: FramePart,
    M: ValuePart<Meridian<'a>>,
    U: UnitPart,
    I: IdentsPart,
>(
    out: &mut Vec<u8>,
    opening: &[u8],
    fields: BaseFields<'_, D, F, M, U, I>,
    level: Level,
) -> Appended
    ensures { OnOk result ((n : List ℕ) (d : Option DynamicParts) (f : Frame) (m : Option MeridianParts)
        (u : Option UnitParts) (is : List IdentParts) → n ≡ fields.entry.name.now →
        SaysIfAny D.Says fields.entry.dynamic d → F.SaysGeodetic fields.entry.frame f →
        SaysIfAny M.Says fields.entry.meridian m → SaysIfAny U.Says fields.entry.unit u → I.Says fields.entry.ids is →
        out.new.items ≡ out.old.items ++ named_node opening.now n (opt item_dynamic (option_map (norm_dynamic level) d)
        (More (item_frame (codes "DATUM") (norm_frame level f)) (opt item_meridian (norm_meridian level m)
        (opt item_unit (norm_units level kinds.Angle u) (each item_ident (set_idents level is) End)))))) }
{
    open_text(out, opening, fields.name)?;
    write_optional::<Dynamic<'a>, D>(out, fields.dynamic, level)?;
    fields.frame.put_geodetic(out, level)?;
    write_meridian::<M>(out, fields.meridian, level)?;
    write_optional_unit(out, UnitKind::Angle, fields.unit, level)?;
    fields.ids.put(out, level)?;
    append(out, b"]")
}

impl Spell for Base<'_> {
    ghost spelling = { base_text };

    fn spell(&self, out: &mut Vec<u8>, level: Level) -> Appended {
        let fields = BaseFields {
            name: self.name,
            dynamic: self.dynamic.as_ref(),
            frame: &self.frame,
            meridian: self.meridian.as_ref(),
            unit: self.unit.as_ref(),
            ids: &self.identifiers,
        };
        write_base(out, b"BASEGEOGCRS[\"", fields, level)
    }
}

impl<'a> ReadAs<'a> for Base<'a> {
    ghost Reads = { ReadsBase };

    fn write_of(node: &Node<'_, 'a>, out: &mut Vec<u8>, level: Level) -> Appended {
        let dynamic = node.first(Class::Dynamic);
        let meridian = node.first(Class::PrimeMeridian);
        let unit = node.first(Class::AngleUnit);
        let fields = BaseFields {
            name: node.text(),
            dynamic: dynamic.as_ref(),
            frame: node,
            meridian: meridian.as_ref(),
            unit: unit.as_ref(),
            ids: node,
        };
        write_base(out, b"BASEGEOGCRS[\"", fields, level)
    }
}

// The derivation is the base CRS and the conversion.
fn write_projected<
    'a,
    B: ValuePart<Base<'a>>,
    C: ValuePart<Conversion<'a>>,
    S: SystemPart,
    T: TailPart,
>(out: &mut Vec<u8>, named: (&[u8], T), derivation: (B, C), system: S, level: Level) -> Appended
    ensures { OnOk result ((p : ProjectedParts) → p.name ≡ named.entry.0.now → B.Says derivation.0 p.base →
        C.Says derivation.1 p.conversion → S.Says system p.system → T.Says named.entry.1 p.tail →
        out.new.items ≡ out.old.items ++ projected_text level p) }
{
    let (name, tail) = named;
    let (base, conversion) = derivation;
    open_text(out, b"PROJCRS[\"", name)?;
    base.put(out, level)?;
    conversion.put(out, level)?;
    write_system(out, system, level)?;
    tail.put(out, level)?;
    append(out, b"]")
}

impl Spell for Projected<'_> {
    ghost spelling = { projected_text };

    fn spell(&self, out: &mut Vec<u8>, level: Level) -> Appended {
        let (named, derivation) = ((self.name, &self.tail), (&self.base, &self.conversion));
        write_projected(out, named, derivation, &self.system, level)
    }
}

impl<'a> ReadAs<'a> for Projected<'a> {
    ghost Reads = { ReadsProjected };

    fn write_of(node: &Node<'_, 'a>, out: &mut Vec<u8>, level: Level) -> Appended {
        let base = node.first(Class::BaseCrs);
        let conversion = node.first(Class::Conversion);
        let derivation = (base.as_ref(), conversion.as_ref());
        write_projected(out, (node.text(), node), derivation, node, level)
    }
}

#[derive(Drop)]
struct VerticalFields<'b, D, F, S, T> {
    name: &'b [u8],
    dynamic: Option<D>,
    frame: F,
    system: S,
    tail: T,
}

fn write_vertical<
    'a,
    D: ValuePart<Dynamic<'a>>,
    F: FramePart,
    S: SystemPart,
    G: MembersPart<GeoidModel<'a>>,
    T: TailPart,
>(out: &mut Vec<u8>, fields: VerticalFields<'_, D, F, S, T>, models: &G, level: Level) -> Appended
    requires { G.Hold models.now }
    ensures { OnOk result ((v : VerticalParts) → v.name ≡ fields.entry.name.now →
        SaysIfAny D.Says fields.entry.dynamic v.dynamic → F.SaysVertical fields.entry.frame v.frame →
        S.Says fields.entry.system v.system → G.Say models.now v.geoid_models →
        T.Says fields.entry.tail v.tail → out.new.items ≡ out.old.items ++ vertical_text level v) }
{
    open_text(out, b"VERTCRS[\"", fields.name)?;
    write_optional::<Dynamic<'a>, D>(out, fields.dynamic, level)?;
    fields.frame.put_vertical(out, level)?;
    write_system(out, fields.system, level)?;
    write_set::<GeoidModel<'a>, G>(out, models, level)?;
    fields.tail.put(out, level)?;
    append(out, b"]")
}

impl Spell for Vertical<'_> {
    ghost spelling = { vertical_text };

    fn spell(&self, out: &mut Vec<u8>, level: Level) -> Appended {
        let models = self.geoid_models.as_slice();
        let fields = VerticalFields {
            name: self.name,
            dynamic: self.dynamic.as_ref(),
            frame: &self.frame,
            system: &self.system,
            tail: &self.tail,
        };
        write_vertical(out, fields, &models, level)
    }
}

impl<'a> ReadAs<'a> for Vertical<'a> {
    ghost Reads = { ReadsVertical };

    fn write_of(node: &Node<'_, 'a>, out: &mut Vec<u8>, level: Level) -> Appended {
        let dynamic = node.first(Class::Dynamic);
        let models = node.all(Class::GeoidModel);
        let fields = VerticalFields {
            name: node.text(),
            dynamic: dynamic.as_ref(),
            frame: node,
            system: node,
            tail: node,
        };
        write_vertical(out, fields, &models, level)
    }
}

impl Spell for Horizontal<'_> {
    ghost spelling = { horizontal_text };

    fn spell(&self, out: &mut Vec<u8>, level: Level) -> Appended {
        match self {
            Horizontal::Geodetic(geodetic) => geodetic.spell(out, level),
            Horizontal::Projected(projected) => projected.spell(out, level),
        }
    }
}

// In the node of the compound CRS.
impl<'a> ReadAs<'a> for Horizontal<'a> {
    ghost Reads = { ReadsHorizontal };

    fn write_of(node: &Node<'_, 'a>, out: &mut Vec<u8>, level: Level) -> Appended {
        if let Some(found) = node.first(Class::GeodeticCrs) {
            return Geodetic::write_of(&found, out, level);
        }
        if let Some(found) = node.first(Class::GeographicCrs) {
            return Geodetic::write_of(&found, out, level);
        }
        match node.first(Class::ProjectedCrs) {
            None => Ok(()),
            Some(found) => Projected::write_of(&found, out, level),
        }
    }
}

// The components are the horizontal and the vertical one.
fn write_compound<'a, H: ValuePart<Horizontal<'a>>, V: ValuePart<Vertical<'a>>, T: TailPart>(
    out: &mut Vec<u8>,
    named: (&[u8], T),
    components: (H, V),
    level: Level,
) -> Appended
    ensures { OnOk result ((p : CompoundParts) → p.name ≡ named.entry.0.now → H.Says components.0 p.horizontal →
        V.Says components.1 p.vertical → T.Says named.entry.1 p.tail →
        out.new.items ≡ out.old.items ++ compound_text level p) }
{
    let (name, tail) = named;
    let (horizontal, vertical) = components;
    open_text(out, b"COMPOUNDCRS[\"", name)?;
    horizontal.put(out, level)?;
    vertical.put(out, level)?;
    tail.put(out, level)?;
    append(out, b"]")
}

impl Spell for Compound<'_> {
    ghost spelling = { compound_text };

    fn spell(&self, out: &mut Vec<u8>, level: Level) -> Appended {
        let components = (&self.horizontal, &self.vertical);
        write_compound(out, (self.name, &self.tail), components, level)
    }
}

impl<'a> ReadAs<'a> for Compound<'a> {
    ghost Reads = { ReadsCompound };

    fn write_of(node: &Node<'_, 'a>, out: &mut Vec<u8>, level: Level) -> Appended {
        let vertical = node.first(Class::VerticalCrs);
        write_compound(out, (node.text(), node), (node, vertical.as_ref()), level)
    }
}

impl Spell for Crs<'_> {
    ghost spelling = { crs_text };

    fn spell(&self, out: &mut Vec<u8>, level: Level) -> Appended {
        match self {
            Crs::Geodetic(geodetic) => geodetic.spell(out, level),
            Crs::Projected(projected) => projected.spell(out, level),
            Crs::Vertical(vertical) => vertical.spell(out, level),
            Crs::Compound(compound) => compound.spell(out, level),
        }
    }
}

/// Appends the canonical text of the CRS of its class that an item spells. `AllocError`: no memory for it. Profile.
pub fn write_crs(node: &Node<'_, '_>, out: &mut Vec<u8>, level: Level) -> Result<(), AllocError>
    requires { IsRead (ReadsCrs node.now.class (item node.now)) }
    ensures { OnOk result (Writes (ReadsCrs node.now.class (item node.now)) (crs_text level) out.old.items out.new.items) }
{
    match node.class {
        Class::GeodeticCrs | Class::GeographicCrs => Geodetic::write_of(node, out, level),
        Class::ProjectedCrs => Projected::write_of(node, out, level),
        Class::VerticalCrs => Vertical::write_of(node, out, level),
        Class::CompoundCrs => Compound::write_of(node, out, level),
        _ => unreachable!(),
    }
}
