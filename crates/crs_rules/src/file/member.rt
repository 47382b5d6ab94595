//! The nodes of a `SAME`, and their classes.
ghost use Rattle.std.specs.Prelude.{◌≡◌, ◌↔◌, IfSome, IsTrue, Some};
ghost use Rattle.crs_text.specs.Items.{HasId, here, kind_of_item, rest_of};
ghost use Rattle.crs_value.specs.Checks.{IsAboveZero};
ghost use Rattle.crs_value.specs.Reading.{IsReading};
ghost use Rattle.crs_value.specs.inner.Arguments.{item_at};
ghost use Rattle.crs_rules.specs.Members.{Says, SaysFactor, kind_of, subject_of};
ghost use Rattle.crs_rules.specs.inner.Named.{SaysNamed};

use crs_decimal::Decimal;
use crs_decimal::laws::denotes_one;
use crs_shape::Class;
use crs_text::{ItemId, ItemKind, Items, Keyword};
use crs_value::UnitKind;
use std::marker::Model;

/// What a node says that counts as another, or as which others count.
pub struct Member<'a> {
    /// Its class.
    pub class: Class,
    /// Its name.
    pub name: &'a [u8],
    /// The factor of a unit, else zero.
    pub factor: Decimal,
}

impl<'a> Model for Member<'a> {
    ghost use Rattle.crs_rules.specs.Members.{MemberParts};
    ghost use Rattle.crs_rules.specs.inner.Named.{IsMember};

    ghost Value = { MemberParts };

    ghost view = { λ m. record { class = m.class; name = m.name.now; factor = m.factor } };

    ghost invariant = { λ m. IsMember (view m) };
}

impl Drop for Member<'_> {
    fn drop(self) {
        let Member {
            class: _,
            name: _,
            factor: _,
        } = self;
    }
}

// The class that a keyword is of, where there is one; `None` where nodes of its classes never count as one.
fn subject_of(keyword: Option<Keyword>) -> Option<Class>
    ensures { result ≡ subject_of keyword }
{
    match keyword? {
        Keyword::Datum | Keyword::Trf | Keyword::GeodeticDatum => Some(Class::GeodeticFrame),
        Keyword::VDatum | Keyword::Vrf | Keyword::VerticalDatum => Some(Class::VerticalFrame),
        Keyword::Member => Some(Class::Member),
        Keyword::Ellipsoid | Keyword::Spheroid => Some(Class::Ellipsoid),
        Keyword::PrimeM | Keyword::PrimeMeridian => Some(Class::PrimeMeridian),
        Keyword::Method | Keyword::Projection => Some(Class::Method),
        Keyword::Parameter => Some(Class::Parameter),
        Keyword::GeoidModel => Some(Class::GeoidModel),
        Keyword::Model | Keyword::VelocityGrid => Some(Class::DeformationModel),
        Keyword::Axis => Some(Class::Axis),
        Keyword::PlainUnit => Some(Class::PlainUnit),
        Keyword::LengthUnit => Some(Class::LengthUnit),
        Keyword::AngleUnit => Some(Class::AngleUnit),
        Keyword::ScaleUnit => Some(Class::ScaleUnit),
        _ => None,
    }
}

// The kind of units of this class; `None` where its nodes are no units.
pub(crate) fn kind_of(class: Class) -> Option<UnitKind>
    ensures { result ≡ kind_of class }
{
    match class {
        Class::PlainUnit => Some(UnitKind::Plain),
        Class::LengthUnit => Some(UnitKind::Length),
        Class::AngleUnit => Some(UnitKind::Angle),
        Class::ScaleUnit => Some(UnitKind::Scale),
        _ => None,
    }
}

fn is_above_zero(number: &Decimal) -> bool
    ensures { IsTrue result ↔ IsAboveZero number.now }
{
    !number.is_negative() && !number.is_zero()
}

// The factor that an item is, above zero.
fn factor_at(items: &Items<'_>, id: ItemId) -> Option<Decimal>
    requires { HasId items.now id }
    ensures { IsReading (SaysFactor (Some UnitKind.Plain) (here items.now id)) result }
{
    denotes_one();
    if items.next(id).is_some() {
        return None;
    }
    let factor = items.number(id)?;
    if is_above_zero(&factor) {
        Some(factor)
    } else {
        None
    }
}

// What follows a name in a node of this class: nothing, but in a unit its factor.
fn factor_after(items: &Items<'_>, name: ItemId, class: Class) -> Option<Decimal>
    requires { HasId items.now name }
    ensures { IsReading (SaysFactor (kind_of class) (rest_of (here items.now name))) result }
{
    match (kind_of(class), items.next(name)) {
        (None, None) => Some(Decimal::zero()),
        (Some(_), Some(next)) => factor_at(items, next),
        (None, Some(_)) | (Some(_), None) => None,
    }
}

// What a node of this class says if its first argument is this text.
fn named<'a>(items: &Items<'a>, text: ItemId, class: Class) -> Option<Member<'a>>
    requires has { HasId items.now text }
    requires text { kind_of_item (item_at items.now text) ≡ ItemKind.Text }
    ensures class { IfSome result (λ m. m.class ≡ class) }
    ensures says { IsReading (SaysNamed class (here items.now text)) result }
{
    items.formed(text);
    let factor = factor_after(items, text, class)?;
    Some(Member {
        class,
        name: items.raw(text),
        factor,
    })
}

// What a node says; `None` where it is none that may stand in a `SAME`.
pub(crate) fn member_at<'a>(items: &Items<'a>, id: ItemId) -> Option<Member<'a>>
    requires { HasId items.now id }
    ensures { IsReading (Says (item_at items.now id)) result }
{
    let class = subject_of(items.keyword(id))?;
    let text = items.arg(id, 0)?;
    match items.kind(text) {
        ItemKind::Text => named(items, text, class),
        ItemKind::Number | ItemKind::Word | ItemKind::Node => None,
    }
}
