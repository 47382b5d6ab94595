//! Reference frames, ensembles and their members.
ghost use Rattle.std.specs.Prelude.{◌≡◌, ◌∷◌, ◌++◌, OnOk, codes};
ghost use Rattle.std.specs.Option.{option_copied};
ghost use Rattle.crs_text.specs.Written.{item_text};
ghost use Rattle.crs_value.specs.Reading.{ReadsOne, ReadsNamed};
ghost use Rattle.crs_value.specs.Reads.{ReadsDatum, ReadsEnsemble};
ghost use Rattle.crs_value.specs.ReadsCrs.{ReadsGeodeticFrame, ReadsVerticalFrame};
ghost use Rattle.crs_value.specs.Values.{DatumParts, EnsembleParts};
ghost use Rattle.crs_value.specs.declared.values.frame.Frame.{Frame};
ghost use Rattle.crs_normal.specs.inner.PartTexts.{datum_text, ensemble_text, frame_text, member_text};
ghost use Rattle.crs_normal.specs.inner.SpelledFrames.{item_datum, item_frame, norm_datum, norm_frame};
ghost use Rattle.crs_writer.specs.inner.Node.{item};
ghost use Rattle.crs_writer.specs.inner.FromItems.{SaysIfAny, Writes};
ghost use Rattle.crs_writer.specs.inner.Parts.{datum_node};

use crate::members::{MembersPart, ReadAs, SetReadAs};
use crate::nodes::copied;
use crate::parts::{
    Appended, IdentsPart, NumberPart, Spell, ValuePart, write_number_node, write_optional,
    write_optional_number, write_part,
};
use crate::set::write_set;
use crate::spelling::idents_and_units::write_named;
use crate::{Node, append, append_item, open_text, write_optional_text};
use crs_shape::Class;
use crs_value::{Datum, Ellipsoid, Ensemble, Frame, Level, Member};

impl Spell for Member<'_> {
    ghost spelling = { member_text };

    fn spell(&self, out: &mut Vec<u8>, level: Level) -> Appended {
        write_named(out, b"MEMBER[\"", self.name, &self.identifiers, level)
    }
}

impl<'a> ReadAs<'a> for Member<'a> {
    ghost Reads = { ReadsNamed };

    fn write_of(node: &Node<'_, 'a>, out: &mut Vec<u8>, level: Level) -> Appended {
        write_named(out, b"MEMBER[\"", node.text(), node, level)
    }
}

impl<'a> SetReadAs<'a> for Member<'a> {
    fn copied(_node: &Node<'_, 'a>, _level: Level) -> Option<&'a [u8]> {
        None
    }
}

#[derive(Drop)]
struct DatumFields<'b, E, N, I> {
    name: &'b [u8],
    ellipsoid: Option<E>,
    anchor: Option<&'b [u8]>,
    anchor_epoch: Option<N>,
    ids: I,
}

// A reference frame after an opening.
#[tactic(auto, using(crate::proofs::FlatLemmas::flat_rules))]
fn write_datum<'a, E: ValuePart<Ellipsoid<'a>>, N: NumberPart, I: IdentsPart>(
    out: &mut Vec<u8>,
    opening: &[u8],
    fields: DatumFields<'_, E, N, I>,
    level: Level,
) -> Appended
    ensures { OnOk result ((d : DatumParts) → d.name ≡ fields.entry.name.now →
        SaysIfAny E.Says fields.entry.ellipsoid d.ellipsoid → d.anchor ≡ option_copied fields.entry.anchor →
        SaysIfAny N.Says fields.entry.anchor_epoch d.anchor_epoch → I.Says fields.entry.ids d.identifiers →
        out.new.items ≡ out.old.items ++ datum_node level opening.now d) }
{
    open_text(out, opening, fields.name)?;
    write_optional::<Ellipsoid<'a>, E>(out, fields.ellipsoid, level)?;
    write_optional_text(out, b",ANCHOR[\"", fields.anchor)?;
    write_optional_number(out, b",ANCHOREPOCH[", fields.anchor_epoch)?;
    fields.ids.put(out, level)?;
    append(out, b"]")
}

// The reference frame that a value is, after an opening.
#[tactic(auto, using(crate::proofs::FlatLemmas::value_rules))]
fn write_datum_in(out: &mut Vec<u8>, opening: &[u8], datum: &Datum<'_>, level: Level) -> Appended
    ensures { OnOk result (out.new.items ≡ out.old.items ++ datum_node level opening.now datum.now) }
{
    let fields = DatumFields {
        name: datum.name,
        ellipsoid: datum.ellipsoid.as_ref(),
        anchor: datum.anchor,
        anchor_epoch: datum.anchor_epoch.as_ref(),
        ids: &datum.identifiers,
    };
    write_datum(out, opening, fields, level)
}

// The reference frame that is read from an item, after an opening.
fn write_datum_of(out: &mut Vec<u8>, opening: &[u8], node: &Node<'_, '_>, level: Level) -> Appended
    ensures { OnOk result (Writes (ReadsDatum node.now.class (item node.now)) (datum_node level opening.now)
        out.old.items out.new.items) }
{
    let ellipsoid = node.first(Class::Ellipsoid);
    let fields = DatumFields {
        name: node.text(),
        ellipsoid: ellipsoid.as_ref(),
        anchor: node.text_in(Class::Anchor),
        anchor_epoch: node.number_in(Class::AnchorEpoch),
        ids: node,
    };
    write_datum(out, opening, fields, level)
}

// The geodetic reference frame that is read from an item, after a comma.
fn write_geodetic_datum(out: &mut Vec<u8>, node: &Node<'_, '_>, level: Level) -> Appended
    ensures { OnOk result (Writes (ReadsDatum node.now.class (item node.now))
        (λ d. 44 ∷ item_text (item_datum (codes "DATUM") (norm_datum level d))) out.old.items out.new.items) }
{
    match copied::datum(node, level) {
        Some(bytes) => append_item(out, bytes),
        None => write_datum_of(out, b",DATUM[\"", node, level),
    }
}

// By itself: with an ellipsoid it is geodetic, else vertical.
impl Spell for Datum<'_> {
    ghost spelling = { datum_text };

    fn spell(&self, out: &mut Vec<u8>, level: Level) -> Appended {
        match &self.ellipsoid {
            Some(_) => write_datum_in(out, b"DATUM[\"", self, level),
            None => write_datum_in(out, b"VDATUM[\"", self, level),
        }
    }
}

// An ensemble; its other parts are the ellipsoid and the accuracy.
fn write_ensemble<
    'a,
    M: MembersPart<Member<'a>>,
    E: ValuePart<Ellipsoid<'a>>,
    N: NumberPart,
    I: IdentsPart,
>(
    out: &mut Vec<u8>,
    named: (&[u8], I),
    members: &M,
    others: (Option<E>, N),
    level: Level,
) -> Appended
    requires { M.Hold members.now }
    ensures { OnOk result ((e : EnsembleParts) → e.name ≡ named.entry.0.now →
        M.Say members.now e.members → SaysIfAny E.Says others.0 e.ellipsoid → N.Says others.1 e.accuracy →
        I.Says named.entry.1 e.identifiers → out.new.items ≡ out.old.items ++ ensemble_text level e) }
{
    let (name, ids) = named;
    let (ellipsoid, accuracy) = others;
    open_text(out, b"ENSEMBLE[\"", name)?;
    write_set::<Member<'a>, M>(out, members, level)?;
    write_optional::<Ellipsoid<'a>, E>(out, ellipsoid, level)?;
    write_number_node(out, b",ENSEMBLEACCURACY[", accuracy)?;
    ids.put(out, level)?;
    append(out, b"]")
}

impl Spell for Ensemble<'_> {
    ghost spelling = { ensemble_text };

    fn spell(&self, out: &mut Vec<u8>, level: Level) -> Appended {
        let named = (self.name, &self.identifiers);
        let others = (self.ellipsoid.as_ref(), &self.accuracy);
        write_ensemble(out, named, &self.members.as_slice(), others, level)
    }
}

impl Spell for Frame<'_> {
    ghost spelling = { frame_text };

    fn spell(&self, out: &mut Vec<u8>, level: Level) -> Appended {
        match self {
            Frame::Datum(datum) => datum.spell(out, level),
            Frame::Ensemble(ensemble) => ensemble.spell(out, level),
        }
    }
}

/// The frame of a CRS, which the item of the CRS has. Profile.
pub(crate) trait FramePart: Copy {
    ghost SaysGeodetic: { Self → Frame → Type 0 };

    ghost SaysVertical: { Self → Frame → Type 0 };

    // After a comma.
    fn put_geodetic(&self, out: &mut Vec<u8>, level: Level) -> Appended
        ensures { OnOk result (Writes (SaysGeodetic self.now)
            (λ f. 44 ∷ item_text (item_frame (codes "DATUM") (norm_frame level f))) out.old.items out.new.items) };

    // After a comma.
    fn put_vertical(&self, out: &mut Vec<u8>, level: Level) -> Appended
        ensures { OnOk result (Writes (SaysVertical self.now)
            (λ f. 44 ∷ item_text (item_frame (codes "VDATUM") (norm_frame level f))) out.old.items out.new.items) };
}

impl<'b, 'a> FramePart for &'b Frame<'a> {
    ghost SaysGeodetic = { λ s v. v ≡ s.now };

    ghost SaysVertical = { λ s v. v ≡ s.now };

    fn put_geodetic(&self, out: &mut Vec<u8>, level: Level) -> Appended {
        match *self {
            Frame::Datum(datum) => write_datum_in(out, b",DATUM[\"", datum, level),
            Frame::Ensemble(ensemble) => write_part(out, ensemble, level),
        }
    }

    fn put_vertical(&self, out: &mut Vec<u8>, level: Level) -> Appended {
        match *self {
            Frame::Datum(datum) => write_datum_in(out, b",VDATUM[\"", datum, level),
            Frame::Ensemble(ensemble) => write_part(out, ensemble, level),
        }
    }
}

// An ensemble of this class that a node has in the place of a frame, after a comma.
fn write_ensemble_of(out: &mut Vec<u8>, node: &Node<'_, '_>, class: Class, level: Level) -> Appended
    ensures { OnOk result (Writes (ReadsOne ReadsEnsemble class node.now.class (item node.now))
        (λ e. 44 ∷ ensemble_text level e) out.old.items out.new.items) }
{
    let Some(found) = node.first(class) else {
        return Ok(());
    };
    append(out, b",")?;
    let ellipsoid = found.first(Class::Ellipsoid);
    let accuracy = found.one_number(Class::EnsembleAccuracy);
    let named = (found.text(), &found);
    let members = found.all(Class::Member);
    write_ensemble(out, named, &members, (ellipsoid.as_ref(), accuracy), level)
}

impl<'c, 'i, 'a> FramePart for &'c Node<'i, 'a> {
    ghost SaysGeodetic = { λ n f. ReadsGeodeticFrame n.now.class (item n.now) f };

    ghost SaysVertical = { λ n f. ReadsVerticalFrame n.now.class (item n.now) f };

    fn put_geodetic(&self, out: &mut Vec<u8>, level: Level) -> Appended {
        match self.first(Class::GeodeticFrame) {
            None => write_ensemble_of(out, *self, Class::GeodeticEnsemble, level),
            Some(found) => write_geodetic_datum(out, &found, level),
        }
    }

    fn put_vertical(&self, out: &mut Vec<u8>, level: Level) -> Appended {
        match self.first(Class::VerticalFrame) {
            None => write_ensemble_of(out, *self, Class::VerticalEnsemble, level),
            Some(found) => write_datum_of(out, b",VDATUM[\"", &found, level),
        }
    }
}
