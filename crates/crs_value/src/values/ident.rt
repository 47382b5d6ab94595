//! Identifiers, and values that have only a name and identifiers.
ghost use Rattle.std.specs.Prelude.{◌≡◌, IsTrue, IfOk};
ghost use Rattle.std.specs.Option.{option_copied};
ghost use Rattle.crs_text.specs.Items.{arguments, skip};
ghost use Rattle.crs_shape.specs.declared.class.Class.TheVariants as classes;
ghost use Rattle.crs_value.specs.inner.Cursor.{item};
ghost use Rattle.crs_value.specs.inner.ReadOnce.{IsSound};
ghost use Rattle.crs_value.specs.Members.{HaveSameMembers, IsIn};
ghost use Rattle.crs_value.specs.Reading.{ReadsFirst, ReadsOptional, ReadsNamed};
ghost use Rattle.crs_value.specs.Reads.{ReadsText, single_of, ReadsIdent};
ghost use Rattle.crs_value.specs.Sound.{IsIdent, IsNamed};
ghost use Rattle.crs_value.specs.NamedValues.{IdentParts, NamedParts};

use crate::reading::{Cursor, FromNode};
use crate::values::key::{Key, Keyed, Places};
use crate::{Level, List, Made};
use crs_shape::Class;
use crs_text::ItemKind;
use std::alloc::Global;
use std::marker::Model;

/// An identifier, `ID[authority, code, (version), (citation), (uri)]`. A text is what is between its quotes, each
/// quote among them doubled; code and version are their characters, quoted or not. ISO 19162:2019, "Identifier".
#[derive(Drop)]
pub struct Ident<'a> {
    /// The authority that gave the code.
    pub authority: &'a [u8],
    /// The code.
    pub code: &'a [u8],
    /// The version of the code or of the register.
    pub version: Option<&'a [u8]>,
    /// The authority's citation, `CITATION[text]`.
    pub citation: Option<&'a [u8]>,
    /// `URI[text]`.
    pub uri: Option<&'a [u8]>,
}

impl<'a> Model for Ident<'a> {
    ghost Value = { IdentParts };

    ghost view = { λ i. record {
      authority = i.authority.now;
      code = i.code.now;
      version = option_copied i.version;
      citation = option_copied i.citation;
      uri = option_copied i.uri;
    } };

    ghost invariant = { λ i. IsIdent (view i) };
}

// What is at this place among the arguments, if that is no node.
fn single<'a>(node: &Cursor<'_, 'a>, k: usize) -> Option<&'a [u8]>
    ensures { ReadsOptional ReadsText (single_of (skip k (arguments (item node.now)))) (option_copied result) }
{
    let items = node.items;
    let found = items.arg(node.id, k)?;
    match items.kind(found) {
        ItemKind::Number | ItemKind::Text | ItemKind::Word => Some(items.raw(found)),
        ItemKind::Node => None,
    }
}

impl<'a> FromNode<'a> for Ident<'a> {
    ghost Suits = { λ c. c ≡ classes.Identifier };

    ghost Reads = { λ c item parts. ReadsIdent c item parts };

    fn read(_alloc: Global, node: &Cursor<'_, 'a>) -> Made<Self> {
        Ok(Ident {
            authority: node.text(),
            code: single(node, 1).unwrap(),
            version: single(node, 2),
            citation: node.optional_text(Class::Citation),
            uri: node.optional_text(Class::Uri),
        })
    }
}

impl Keyed for Ident<'_> {
    const HAS_TWO_KEYS: bool = false;

    fn key(&self, _level: Level) -> u128 {
        let mut key = Key::new();
        key.put_text(self.authority);
        key.put_text(self.code);
        key.put_optional_text(self.version);
        key.put_optional_text(self.citation);
        key.put_optional_text(self.uri);
        key.finish()
    }

    fn once(alloc: Global, members: &[Self], places: &[Places]) -> Made<Option<Vec<Self>>> {
        match places {
            [places] if places.count_of_keys() < members.len() => Ok(Some(each_once(
                alloc, members, places,
            )?)),
            _ => Ok(None),
        }
    }
}

fn is_equal<'a>(a: &Ident<'a>, b: &Ident<'a>) -> bool
    ensures { IsTrue result → a.now ≡ b.now }
{
    a.authority == b.authority
        && a.code == b.code
        && a.version == b.version
        && a.citation == b.citation
        && a.uri == b.uri
}

fn copied<'a>(ident: &Ident<'a>) -> Ident<'a>
    ensures { result ≡ ident.now }
{
    Ident {
        authority: ident.authority,
        code: ident.code,
        version: ident.version,
        citation: ident.citation,
        uri: ident.uri,
    }
}

// Whether an identifier is equal to one of these, at this place.
fn is_equal_at<'a>(ident: &Ident<'a>, idents: &[Ident<'a>], place: usize) -> bool
    ensures { IsTrue result → IsIn ident.now idents.now }
{
    match idents.get(place) {
        Some(other) => is_equal(ident, other),
        None => false,
    }
}

// Each identifier, unless it is equal to the last one before it that has its key.
fn each_once<'a>(alloc: Global, idents: &[Ident<'a>], places: &Places) -> Made<Vec<Ident<'a>>>
    ensures { IfOk result (λ once. HaveSameMembers once.items idents.now) }
{
    let mut once = Vec::with_capacity(alloc, places.count_of_keys())?;
    let mut at: usize = 0;
    for ident in idents {
        if !is_equal_at(ident, &idents[..at], places.before_of(at)) {
            once.push(copied(ident))?;
        }
        at += 1;
    }
    Ok(once)
}

// The kinds of `Named`.
const METHOD: u8 = 0;

const MEMBER: u8 = 1;

const GEOID_MODEL: u8 = 2;

const DEFORMATION_MODEL: u8 = 3;

/// A value that has only a name and identifiers. Each kind of it is a type of its own: `Method` and others. Profile.
#[derive(Drop)]
pub struct Named<'a, const KIND: u8> {
    /// The name.
    pub name: &'a [u8],
    /// The identifiers, as written.
    pub identifiers: List<Ident<'a>>,
}

/// The method of a conversion, `METHOD[name, id..]`. ISO 19162:2019, "Map projection method".
pub type Method<'a> = Named<'a, METHOD>;

/// A member of a datum ensemble, `MEMBER[name, id..]`. ISO 19162:2019, "Datum ensemble".
pub type Member<'a> = Named<'a, MEMBER>;

/// A geoid model, `GEOIDMODEL[name, id..]`. ISO 19162:2019, "Vertical CRS".
pub type GeoidModel<'a> = Named<'a, GEOID_MODEL>;

/// A deformation model, `MODEL[name, id..]`, or a velocity grid. ISO 19162:2019, "Deformation model".
pub type DeformationModel<'a> = Named<'a, DEFORMATION_MODEL>;

impl<'a, const KIND: u8> Model for Named<'a, KIND> {
    ghost Value = { NamedParts };

    ghost view = { λ n. record { name = n.name.now; identifiers = n.identifiers } };

    ghost invariant = { λ n. IsNamed (view n) };
}

impl<'a, const KIND: u8> FromNode<'a> for Named<'a, KIND> {
    ghost Reads = { λ c item parts. ReadsNamed c item parts };

    fn read(alloc: Global, node: &Cursor<'_, 'a>) -> Made<Self> {
        Ok(Named {
            name: node.text(),
            identifiers: node.many(alloc, Class::Identifier)?,
        })
    }
}

impl<const KIND: u8> Keyed for Named<'_, KIND> {
    fn key(&self, level: Level) -> u128 {
        let mut key = Key::new();
        key.put_text(self.name);
        key.put_idents(&self.identifiers, level);
        key.finish()
    }
}
