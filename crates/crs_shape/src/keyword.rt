//! Keywords, and the classes of each.
ghost use Rattle.std.specs.Prelude.{◌≡◌};
ghost use Rattle.std.specs.List.{find};
ghost use Rattle.crs_shape.specs.inner.KeywordTable.{classes_of, classes_by, is_among, is_root, rivals_of};
ghost use Rattle.crs_shape.specs.Keywords.{keywords_of, is_known, root_named};
ghost use Rattle.crs_shape.specs.Shape.{has_class};

use crate::class::Class;
use crate::rows::{every_class, row, rows};
use crs_text::{Keyword, laws};

// the keywords of a class
macro_rules! keywords_of {
    (() [$($keyword:ident),*] $($count:ident($($part:ident),+))*) => {
        &[$(Keyword::$keyword),*]
    };
}

/// The keywords of a class, none for an item that isn't a node. The first is the one that is written; but a
/// geodetic CRS with an ellipsoidal system is written as a geographic one, and a unit on an axis by its kind.
pub fn keywords(class: Class) -> &'static [Keyword]
    ensures { result.now ≡ keywords_of class }
{
    rows!(keywords_of, class)
}

/// The class that this keyword names at the root of a text; None where it is no CRS's keyword. Profile.
pub fn root_class(keyword: &[u8]) -> Option<Class>
    ensures { result ≡ root_named keyword.now }
{
    laws::keywords_are_spelled();
    root_by(Keyword::of(keyword))
}

// The class that a keyword names at the root of a text.
pub(crate) fn root_by(keyword: Option<Keyword>) -> Option<Class>
    ensures { result ≡ find is_root (classes_by keyword) }
{
    classes_by(keyword).iter().copied().find(|it| is_root(*it))
}

pub(crate) fn is_root(class: Class) -> bool
    ensures { result ≡ is_root class }
{
    matches!(
        class,
        Class::GeodeticCrs
            | Class::GeographicCrs
            | Class::ProjectedCrs
            | Class::VerticalCrs
            | Class::CompoundCrs
    )
}

/// Whether this word is a keyword of any class. Profile.
pub fn known(keyword: &[u8]) -> bool
    ensures { result ≡ is_known keyword.now }
{
    laws::keywords_are_spelled();
    known_by(Keyword::of(keyword))
}

// Whether any class has this keyword.
pub(crate) fn known_by(keyword: Option<Keyword>) -> bool
    ensures { result ≡ has_class (classes_by keyword) }
{
    matches!(classes_by(keyword), [_, ..])
}

// Whether a class has this keyword. Mostly it is the keyword's first class, so `any` is quicker than `contains`.
pub(crate) fn has_keyword(class: Class, keyword: Option<Keyword>) -> bool
    ensures { result ≡ is_among class (classes_by keyword) }
{
    classes_by(keyword).iter().any(|own| *own == class)
}

// these classes
macro_rules! classes {
    ($($class:ident),+) => { &[$(Class::$class),+] };
}

// The classes that have this keyword; where several may be in one parent, that which it names there goes first.
#[inline(always)]
fn classes_of(keyword: Keyword) -> &'static [Class]
    ensures { result.now ≡ classes_of keyword }
{
    match keyword {
        Keyword::Id => classes!(Identifier),
        Keyword::Cs => classes!(CoordinateSystem),
        Keyword::Trf | Keyword::Datum | Keyword::GeodeticDatum => classes!(GeodeticFrame),
        Keyword::Vrf | Keyword::VDatum | Keyword::VerticalDatum => classes!(VerticalFrame),
        Keyword::Uri => classes!(Uri),
        Keyword::Axis => classes!(Axis),
        Keyword::BBox => classes!(BoundingBox),
        Keyword::Area => classes!(Area),
        Keyword::PlainUnit => classes!(PlainUnit, LengthUnit, AngleUnit, AxisUnit),
        Keyword::Order => classes!(Order),
        Keyword::Scope => classes!(Scope),
        Keyword::Usage => classes!(Usage),
        Keyword::Member => classes!(Member),
        Keyword::PrimeM | Keyword::PrimeMeridian => classes!(PrimeMeridian),
        Keyword::Method | Keyword::Projection => classes!(Method),
        Keyword::Remark => classes!(Remark),
        Keyword::Anchor => classes!(Anchor),
        Keyword::AnchorEpoch => classes!(AnchorEpoch),
        Keyword::Dynamic => classes!(Dynamic),
        Keyword::FrameEpoch => classes!(FrameEpoch),
        Keyword::Model | Keyword::VelocityGrid => classes!(DeformationModel),
        Keyword::GeogCrs | Keyword::GeographicCrs => classes!(GeographicCrs),
        Keyword::ProjCrs | Keyword::ProjectedCrs => classes!(ProjectedCrs),
        Keyword::GeodCrs | Keyword::GeodeticCrs => classes!(GeodeticCrs),
        Keyword::VertCrs | Keyword::VerticalCrs => classes!(VerticalCrs),
        Keyword::Ensemble => classes!(GeodeticEnsemble, VerticalEnsemble),
        Keyword::Meridian => classes!(AxisMeridian),
        Keyword::Spheroid | Keyword::Ellipsoid => classes!(Ellipsoid),
        Keyword::Citation => classes!(Citation),
        Keyword::AngleUnit => classes!(AngleUnit, AxisUnit),
        Keyword::Parameter => classes!(Parameter),
        Keyword::ScaleUnit => classes!(ScaleUnit),
        Keyword::LengthUnit => classes!(LengthUnit, AxisUnit),
        Keyword::Conversion => classes!(Conversion),
        Keyword::GeoidModel => classes!(GeoidModel),
        Keyword::BaseGeogCrs | Keyword::BaseGeodCrs => classes!(BaseCrs),
        Keyword::CompoundCrs => classes!(CompoundCrs),
        Keyword::VerticalExtent => classes!(VerticalExtent),
        Keyword::EnsembleAccuracy => classes!(EnsembleAccuracy),
    }
}

// The classes that have this keyword; none where there is no keyword.
#[inline(always)]
pub(crate) fn classes_by(keyword: Option<Keyword>) -> &'static [Class]
    ensures { result.now ≡ classes_by keyword }
{
    match keyword {
        None => &[],
        Some(keyword) => classes_of(keyword),
    }
}

// The classes that go before a class where it shares a keyword with them.
#[inline(always)]
pub(crate) fn rivals_of(class: Class) -> &'static [Class]
    ensures { result.now ≡ rivals_of class }
{
    match class {
        Class::VerticalEnsemble => classes!(GeodeticEnsemble),
        Class::LengthUnit => classes!(PlainUnit),
        Class::AngleUnit => classes!(PlainUnit, LengthUnit),
        Class::AxisUnit => classes!(PlainUnit, LengthUnit, AngleUnit),
        _ => &[],
    }
}
