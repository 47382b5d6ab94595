//! Reference frames and datum ensembles.
ghost use Rattle.std.specs.Prelude.{◌≡◌, [], ◌∷◌, IfOk};
ghost use Rattle.crs_value.specs.inner.Arguments.{Requires, RequiresOneOf};
ghost use Rattle.crs_value.specs.EnsembleFrames.{datum_of};
ghost use Rattle.crs_value.specs.inner.ReadOnce.{IsSound};
ghost use Rattle.crs_value.specs.inner.Cursor.{item};
ghost use Rattle.crs_value.specs.Reads.{ReadsDatum, ReadsEnsemble};
ghost use Rattle.crs_value.specs.ReadsCrs.{ReadsFrame};
ghost use Rattle.crs_shape.specs.declared.class.Class.TheVariants as classes;

use crate::reading::{Cursor, FromNode, first};
use crate::{Ellipsoid, Ident, List, Made, Member};
use crs_decimal::Decimal;
use crs_shape::{Class, laws};
use std::alloc::Global;
use std::marker::Model;
use std::mem;

/// What a CRS's coordinates refer to. ISO 19162:2019, "Datum".
#[derive(Drop)]
pub enum Frame<'a> {
    /// A reference frame.
    Datum(Datum<'a>),
    /// A datum ensemble.
    Ensemble(Ensemble<'a>),
}

impl<'a> Frame<'a> {
    /// Turns an ensemble into a frame of its name, ellipsoid and identifiers; a frame stays as it is. Profile.
    pub fn make_datum(&mut self, alloc: Global)
        ensures { self.new ≡ Frame.Datum (datum_of self.old) }
    {
        if let Frame::Ensemble(ensemble) = self {
            let datum = Datum {
                name: ensemble.name,
                ellipsoid: ensemble.ellipsoid.take(),
                anchor: None,
                anchor_epoch: None,
                identifiers: mem::replace(&mut ensemble.identifiers, List::new(alloc)),
            };
            *self = Frame::Datum(datum);
        }
    }
}

/// A geodetic reference frame, `DATUM[name, ellipsoid, (anchor), (anchor epoch), id..]`, or a vertical one, which has
/// no ellipsoid. ISO 19162:2019, "Datum"; the anchor's epoch: profile.
pub struct Datum<'a> {
    /// The name.
    pub name: &'a [u8],
    /// The ellipsoid, exactly if the frame is geodetic.
    pub ellipsoid: Option<Ellipsoid<'a>>,
    /// How the frame is tied to the Earth.
    pub anchor: Option<&'a [u8]>,
    /// When it was tied so, in years.
    pub anchor_epoch: Option<Decimal>,
    /// The identifiers, as written.
    pub identifiers: List<Ident<'a>>,
}

impl<'a> Model for Datum<'a> {
    ghost use Rattle.std.specs.Option.{option_copied};
    ghost use Rattle.crs_value.specs.SoundParts.{IsDatum};
    ghost use Rattle.crs_value.specs.Values.{DatumParts};

    ghost Value = { DatumParts };

    ghost view = { λ d. record {
      name = d.name.now;
      ellipsoid = d.ellipsoid;
      anchor = option_copied d.anchor;
      anchor_epoch = d.anchor_epoch;
      identifiers = d.identifiers;
    } };

    ghost invariant = { λ d. IsDatum (view d) };
}

impl Drop for Datum<'_> {
    fn drop(self) {
        let_go!(self: Datum { name, ellipsoid, anchor, anchor_epoch, identifiers });
    }
}

/// A datum ensemble, `ENSEMBLE[name, member.., ellipsoid, accuracy, id..]`; one of vertical frames has
/// no ellipsoid. ISO 19162:2019, "Datum ensemble".
pub struct Ensemble<'a> {
    /// The name.
    pub name: &'a [u8],
    /// The members, as written; at least one.
    pub members: List<Member<'a>>,
    /// The ellipsoid, exactly if the ensemble is geodetic.
    pub ellipsoid: Option<Ellipsoid<'a>>,
    /// How far apart the members are, in metres.
    pub accuracy: Decimal,
    /// The identifiers, as written.
    pub identifiers: List<Ident<'a>>,
}

impl<'a> Model for Ensemble<'a> {
    ghost use Rattle.crs_value.specs.SoundParts.{IsEnsemble};
    ghost use Rattle.crs_value.specs.Values.{EnsembleParts};

    ghost Value = { EnsembleParts };

    ghost view = { λ e. record {
      name = e.name.now;
      members = e.members;
      ellipsoid = e.ellipsoid;
      accuracy = e.accuracy;
      identifiers = e.identifiers;
    } };

    ghost invariant = { λ e. IsEnsemble (view e) };
}

impl Drop for Ensemble<'_> {
    fn drop(self) {
        let_go!(self: Ensemble { name, members, ellipsoid, accuracy, identifiers });
    }
}

impl<'a> FromNode<'a> for Datum<'a> {
    ghost Reads = { λ c item parts. ReadsDatum c item parts };

    fn read(alloc: Global, node: &Cursor<'_, 'a>) -> Made<Self> {
        Ok(Datum {
            name: node.text(),
            ellipsoid: node.optional(alloc, Class::Ellipsoid)?,
            anchor: node.optional_text(Class::Anchor),
            anchor_epoch: node.optional(alloc, Class::AnchorEpoch)?,
            identifiers: node.many(alloc, Class::Identifier)?,
        })
    }
}

impl<'a> FromNode<'a> for Ensemble<'a> {
    ghost Suits = { λ c. Requires c classes.Text 0 × Requires c classes.Member 0
        × Requires c classes.EnsembleAccuracy 0 };

    ghost Reads = { λ c item parts. ReadsEnsemble c item parts };

    fn read(alloc: Global, node: &Cursor<'_, 'a>) -> Made<Self> {
        laws::slots_count();
        Ok(Ensemble {
            name: node.text(),
            members: node.many(alloc, Class::Member)?,
            ellipsoid: node.optional(alloc, Class::Ellipsoid)?,
            accuracy: node.one(alloc, Class::EnsembleAccuracy)?,
            identifiers: node.many(alloc, Class::Identifier)?,
        })
    }
}

// The frame of a CRS: its reference frame, of the one class, or where there is none its ensemble, of the other.
pub(crate) fn read_frame<'a>(
    alloc: Global,
    node: &Cursor<'_, 'a>,
    frame: Class,
    ensemble: Class,
) -> Made<Frame<'a>>
    requires sound { IsSound node.now.class (item node.now) }
    requires there { RequiresOneOf node.now.class (frame ∷ ensemble ∷ []) }
    requires frame { Requires frame Class.Text 0 }
    requires ensemble { Requires ensemble Class.Text 0 × Requires ensemble Class.Member 0
        × Requires ensemble Class.EnsembleAccuracy 0 }
    ensures { IfOk result (λ value. ReadsFrame frame ensemble node.now.class (item node.now) value) }
{
    laws::slots_count();
    let items = node.items;
    if let Some(id) = first(items, node.id, node.class, frame) {
        let class = frame;
        return Datum::read(alloc, &Cursor { items, id, class }).map(Frame::Datum);
    }
    let id = first(items, node.id, node.class, ensemble).unwrap();
    let class = ensemble;
    Ensemble::read(alloc, &Cursor { items, id, class }).map(Frame::Ensemble)
}
