//! Identifiers, nodes that have only a name and identifiers, units, and nodes of a number in a unit.
ghost use Rattle.std.specs.Prelude.{◌≡◌, ◌∷◌, ◌++◌, [], ℕ, List, OnOk, Option, Some, map};
ghost use Rattle.std.specs.Option.{option_copied};
ghost use Rattle.crs_decimal.specs.Numbers.{Value};
ghost use Rattle.crs_text.specs.Items.{End, More};
ghost use Rattle.crs_text.specs.Written.{item_text, others_text};
ghost use Rattle.crs_shape.specs.Words.{unit_word};
ghost use Rattle.crs_value.specs.Reads.{ReadsUnit, ReadsIdent, ReadsIds};
ghost use Rattle.crs_value.specs.Values.{IdentParts, UnitParts};
ghost use Rattle.crs_normal.specs.inner.PartTexts.{unit_text, ident_text};
ghost use Rattle.crs_normal.specs.inner.SpelledItems.{each, number_item, opt, code_item, item_ident, item_unit, metre, norm_length, norm_unit, norm_units, set_idents};
ghost use Rattle.crs_writer.specs.inner.Node.{item};
ghost use Rattle.crs_writer.specs.inner.FromItems.{SaysIfAny, Writes};
ghost use Rattle.crs_writer.specs.inner.Openings.{named_node};
ghost use Rattle.crs_writer.specs.inner.Members.{set_text};
ghost use Rattle.crs_writer.specs.inner.Parts.{opt_text};

use crate::members::{ReadAs, SetReadAs};
use crate::nodes::copied;
use crate::parts::{Appended, IdentsPart, NumberPart, Spell, UnitPart};
use crate::set::write_set;
use crate::{Chain, Node, append, keeps, open_text, write_code, write_number, write_optional_text};
use crs_shape::Class;
use crs_value::{Ident, Level, List, Unit, UnitKind};
use std::alloc::AllocError;

#[inline(always)]
fn write_version(out: &mut Vec<u8>, version: Option<&[u8]>) -> Appended
    ensures { OnOk result (out.new.items
        ≡ out.old.items ++ others_text (opt code_item (option_copied version.entry) End)) }
{
    if let Some(version) = version {
        return write_code(out, version);
    }
    Ok(())
}

#[derive(Drop)]
struct IdentFields<'b> {
    authority: &'b [u8],
    code: &'b [u8],
    version: Option<&'b [u8]>,
    citation: Option<&'b [u8]>,
    uri: Option<&'b [u8]>,
}

#[inline(always)]
fn write_ident(out: &mut Vec<u8>, fields: IdentFields<'_>) -> Appended
    ensures { OnOk result ((i : IdentParts) → i.authority ≡ fields.entry.authority.now →
        i.code ≡ fields.entry.code.now → i.version ≡ option_copied fields.entry.version →
        i.citation ≡ option_copied fields.entry.citation → i.uri ≡ option_copied fields.entry.uri →
        out.new.items ≡ out.old.items ++ item_text (item_ident i)) }
{
    open_text(out, b"ID[\"", fields.authority)?;
    write_code(out, fields.code)?;
    write_version(out, fields.version)?;
    write_optional_text(out, b",CITATION[\"", fields.citation)?;
    write_optional_text(out, b",URI[\"", fields.uri)?;
    append(out, b"]")
}

impl Spell for Ident<'_> {
    ghost spelling = { ident_text };

    fn spell(&self, out: &mut Vec<u8>, _level: Level) -> Appended {
        let fields = IdentFields {
            authority: self.authority,
            code: self.code,
            version: self.version,
            citation: self.citation,
            uri: self.uri,
        };
        write_ident(out, fields)
    }
}

impl<'a> ReadAs<'a> for Ident<'a> {
    ghost Reads = { ReadsIdent };

    fn write_of(node: &Node<'_, 'a>, out: &mut Vec<u8>, _level: Level) -> Appended {
        let (citation, uri) = node.references();
        let fields = IdentFields {
            authority: node.text(),
            code: node.code(),
            version: node.version(),
            citation,
            uri,
        };
        write_ident(out, fields)
    }
}

impl<'a> SetReadAs<'a> for Ident<'a> {
    fn copied(node: &Node<'_, 'a>, _level: Level) -> Option<&'a [u8]> {
        copied::ident(node)
    }
}

// The identifiers that the level keeps of a part.
#[tactic(auto, using(crate::proofs::WrittenLemmas::written_rules))]
#[inline(always)]
pub(crate) fn write_idents<'a>(out: &mut Vec<u8>, ids: &List<Ident<'a>>, level: Level) -> Appended
    ensures { OnOk result (out.new.items
        ≡ out.old.items ++ others_text (each item_ident (set_idents level ids.now) End)) }
{
    let kept = level.kept(ids.as_slice());
    write_set::<Ident<'a>, &[Ident<'a>]>(out, &kept, Level::Full)
}

impl<'b, 'a> IdentsPart for &'b List<Ident<'a>> {
    ghost Says = { λ s v. v ≡ s.now };

    #[inline(always)]
    fn put(&self, out: &mut Vec<u8>, level: Level) -> Appended {
        write_idents(out, *self, level)
    }
}

// The identifiers of a node, one after another.
fn write_chain<'i, 'a>(node: &Node<'i, 'a>, out: &mut Vec<u8>) -> Appended
    ensures { OnOk result (Writes (ReadsIds node.now.class (item node.now))
        (λ ids. set_text (map (λ i. item_text (item_ident i)) ids)) out.old.items out.new.items) }
{
    let identifiers = node.all(Class::Identifier);
    write_set::<Ident<'a>, Chain<'i, 'a>>(out, &identifiers, Level::Full)
}

impl<'c, 'i, 'a> IdentsPart for &'c Node<'i, 'a> {
    ghost Says = { λ n ids. ReadsIds n.now.class (item n.now) ids };

    #[inline(always)]
    fn put(&self, out: &mut Vec<u8>, level: Level) -> Appended {
        if keeps(level) {
            if self.is_flat() {
                Ok(())
            } else {
                write_chain(*self, out)
            }
        } else {
            Ok(())
        }
    }
}

// A node of a name and identifiers, after an opening.
#[tactic(auto, using(crate::proofs::FlatLemmas::flat_rules))]
#[inline(always)]
pub(crate) fn write_named<I: IdentsPart>(
    out: &mut Vec<u8>,
    opening: &[u8],
    name: &[u8],
    ids: I,
    level: Level,
) -> Appended
    ensures { OnOk result ((n : List ℕ) (is : List IdentParts) → n ≡ name.now → I.Says ids is →
        out.new.items ≡ out.old.items ++ named_node opening.now n (each item_ident (set_idents level is) End)) }
{
    open_text(out, opening, name)?;
    ids.put(out, level)?;
    append(out, b"]")
}

// ---- units

// A comma, the keyword of a kind of unit, the opening delimiter and a quote.
fn unit_opening(kind: UnitKind) -> &'static str
    ensures { result.now ≡ 44 ∷ (unit_word kind ++ 91 ∷ 34 ∷ []) }
{
    match kind {
        UnitKind::Length => ",LENGTHUNIT[\"",
        UnitKind::Angle => ",ANGLEUNIT[\"",
        UnitKind::Scale => ",SCALEUNIT[\"",
        UnitKind::Plain => ",UNIT[\"",
    }
}

// Without the comma.
fn bare_opening(kind: UnitKind) -> &'static [u8]
    ensures { result.now ≡ unit_word kind ++ 91 ∷ 34 ∷ [] }
{
    match unit_opening(kind).as_bytes() {
        [] => &[],
        [_, opening @ ..] => opening,
    }
}

fn write_metre(out: &mut Vec<u8>) -> Appended
    ensures { OnOk result (out.new.items ≡ out.old.items ++ 44 ∷ item_text (item_unit metre)) }
{
    append(out, b",LENGTHUNIT[\"metre\",1]")
}

impl<'b, 'a> UnitPart for &'b Unit<'a> {
    ghost Says = { λ s v. v ≡ s.now };

    fn put(&self, out: &mut Vec<u8>, asked: UnitKind, level: Level) -> Appended {
        append(out, b",")?;
        write_bare_unit(out, asked, *self, level)
    }
}

impl<'c, 'i, 'a> UnitPart for &'c Node<'i, 'a> {
    ghost Says = { λ n u. ReadsUnit n.now.class (item n.now) u };

    fn put(&self, out: &mut Vec<u8>, asked: UnitKind, level: Level) -> Appended {
        let opening = unit_opening(self.kind().as_asked(asked));
        open_text(out, opening.as_bytes(), self.text())?;
        self.number().open(out, b",")?;
        IdentsPart::put(self, out, level)?;
        append(out, b"]")
    }
}

/// Appends a unit where this kind is asked, as which `UNIT` counts. `AllocError`: there is no memory for it. Profile.
pub fn write_bare_unit(
    out: &mut Vec<u8>,
    asked: UnitKind,
    unit: &Unit<'_>,
    level: Level,
) -> Result<(), AllocError>
    ensures { OnOk result (out.new.items ≡ out.old.items ++ item_text (item_unit (norm_unit level asked unit.now))) }
{
    open_text(out, bare_opening(unit.kind.as_asked(asked)), unit.name)?;
    write_number(out, &unit.factor)?;
    write_idents(out, &unit.identifiers, level)?;
    append(out, b"]")
}

impl Spell for Unit<'_> {
    ghost spelling = { unit_text };

    fn spell(&self, out: &mut Vec<u8>, level: Level) -> Appended {
        write_bare_unit(out, UnitKind::Plain, self, level)
    }
}

// A unit that may be missing.
pub(crate) fn write_optional_unit<U: UnitPart>(
    out: &mut Vec<u8>,
    asked: UnitKind,
    unit: Option<U>,
    level: Level,
) -> Appended
    ensures { OnOk result (Writes (SaysIfAny U.Says unit)
        (opt_text (λ u. item_text (item_unit (norm_unit level asked u)))) out.old.items out.new.items) }
{
    match unit {
        None => Ok(()),
        Some(unit) => unit.put(out, asked, level),
    }
}

// A length: where none is written, the metre.
pub(crate) fn write_length<U: UnitPart>(
    out: &mut Vec<u8>,
    unit: Option<U>,
    level: Level,
) -> Appended
    ensures { OnOk result (Writes (SaysIfAny U.Says unit)
        (λ u. others_text (opt item_unit (Some (norm_length level u)) End)) out.old.items out.new.items) }
{
    match unit {
        None => write_metre(out),
        Some(unit) => unit.put(out, UnitKind::Length, level),
    }
}

/// The fields of a node of a name, and a number in a unit of the kind that is asked.
#[derive(Drop)]
pub(crate) struct MeasuredFields<'b, N, U, I> {
    pub(crate) name: &'b [u8],
    pub(crate) number: N,
    pub(crate) asked: UnitKind,
    pub(crate) unit: Option<U>,
    pub(crate) ids: I,
}

// After an opening.
#[tactic(auto, using(crate::proofs::FlatLemmas::flat_rules))]
pub(crate) fn write_measured<N: NumberPart, U: UnitPart, I: IdentsPart>(
    out: &mut Vec<u8>,
    opening: &[u8],
    fields: MeasuredFields<'_, N, U, I>,
    level: Level,
) -> Appended
    ensures { OnOk result ((n : List ℕ) (v : Value) (u : Option UnitParts) (is : List IdentParts) →
        n ≡ fields.entry.name.now → N.Says fields.entry.number v → SaysIfAny U.Says fields.entry.unit u →
        I.Says fields.entry.ids is → out.new.items ≡ out.old.items ++ named_node opening.now n (More (number_item v)
        (opt item_unit (norm_units level fields.entry.asked u) (each item_ident (set_idents level is) End)))) }
{
    open_text(out, opening, fields.name)?;
    fields.number.open(out, b",")?;
    write_optional_unit(out, fields.asked, fields.unit, level)?;
    fields.ids.put(out, level)?;
    append(out, b"]")
}
