//! The value of a part of a CRS, borrowed from it.
ghost use Rattle.std.specs.Prelude.{◌≡◌};
ghost use Rattle.std.specs.Option.{option_copied};
ghost use Rattle.crs_same.specs.declared.content.Content.TheVariants as content;
ghost use Rattle.crs_same.specs.Parts.{given, length_unit};

use crate::SetMembers;
use crs_decimal::Decimal;
use crs_value::{
    AxisMeridian, DeformationModel, GeoidModel, Ident, Member, Parameter, Unit, UnitKind, Usage,
};
use std::marker::Model;

// The content of a part, or nothing where there is none.
macro_rules! given {
    ($part:ident, |$given:ident| $content:expr) => {
        match $part {
            None => Content::Nothing,
            Some($given) => $content,
        }
    };
}

/// A word or the characters of a text. Profile.
#[derive(Drop)]
pub struct Text<'a> {
    pub(crate) bytes: &'a [u8],
}

impl<'a> Model for Text<'a> {
    ghost use Rattle.std.specs.Prelude.{ℕ, List};

    ghost Value = { List ℕ };

    ghost view = { λ t. t.bytes.now };
}

impl<'a> Text<'a> {
    /// The bytes.
    pub fn as_bytes(&self) -> &'a [u8]
        ensures { result.now ≡ self.now }
    {
        self.bytes
    }
}

/// A part, borrowed from its CRS. Profile.
#[derive(Drop)]
pub struct Borrowed<'b, T> {
    pub(crate) part: &'b T,
}

// With a `ghost use` of its own: without one the block takes those of the file, which lead back to this struct.
impl<'b, T> Model for Borrowed<'b, T> {
    ghost use Rattle.std.specs.Prelude as std;

    ghost Value = { T };

    ghost view = { λ b. b.part.now };
}

impl<'b, T> Borrowed<'b, T> {
    /// The part.
    pub fn get(&self) -> &'b T
        ensures { result.now ≡ self.now }
    {
        self.part
    }
}

/// The members of a set, in the order in which they are written. Profile.
#[derive(Drop)]
pub struct Members<'b, T> {
    pub(crate) members: &'b [T],
}

impl<'b, T> Model for Members<'b, T> {
    ghost use Rattle.std.specs.Prelude as std;

    ghost Value = { std.List T };

    ghost view = { λ m. m.members.now };
}

impl<'b, T> Members<'b, T> {
    /// The members, in order.
    pub fn as_slice(&self) -> &'b [T]
        ensures { result.now ≡ self.now }
    {
        self.members
    }
}

/// The usages at the end of a CRS; the parts that are bare are together one. Profile.
pub type Usages<'b, 'a> = SetMembers<'b, Usage<'a>>;

/// The value of a part of one of two CRSs. A set comes with the members that the other CRS has there. Profile.
#[derive(Drop)]
pub enum Content<'b, 'a> {
    /// Nothing.
    Nothing,
    /// A keyword or another word.
    Word(Text<'static>),
    /// A text, without its quotes.
    Text(Text<'a>),
    /// A number.
    Number(Decimal),
    /// A unit where a kind is asked: `UNIT` counts as that kind.
    Unit(UnitKind, Borrowed<'b, Unit<'a>>),
    /// The metre, the default of a missing unit of length.
    Metre,
    /// The meridian that an axis goes along.
    Meridian(Borrowed<'b, AxisMeridian<'a>>),
    /// A deformation model.
    Model(Borrowed<'b, DeformationModel<'a>>),
    /// Identifiers, and the other CRS's.
    Identifiers(Members<'b, Ident<'a>>, Members<'b, Ident<'a>>),
    /// Usages, and the other CRS's.
    Usages(Usages<'b, 'a>, Usages<'b, 'a>),
    /// Members of an ensemble, and the other CRS's.
    Members(Members<'b, Member<'a>>, Members<'b, Member<'a>>),
    /// Parameters of a conversion, and the other CRS's.
    Parameters(Members<'b, Parameter<'a>>, Members<'b, Parameter<'a>>),
    /// Geoid models, and the other CRS's.
    GeoidModels(Members<'b, GeoidModel<'a>>, Members<'b, GeoidModel<'a>>),
}

impl<'b, 'a> Content<'b, 'a> {
    pub(crate) fn word(word: &'static str) -> Content<'b, 'a>
        ensures { result ≡ content.Word word.now }
    {
        Content::Word(Text {
            bytes: word.as_bytes(),
        })
    }

    pub(crate) fn text(text: &'a [u8]) -> Content<'b, 'a>
        ensures { result ≡ content.Text text.now }
    {
        Content::Text(Text { bytes: text })
    }

    pub(crate) fn optional_text(text: Option<&'a [u8]>) -> Content<'b, 'a>
        ensures { result ≡ given content.Text (option_copied text.entry) }
    {
        given!(text, |text| Content::text(text))
    }

    pub(crate) fn optional_number(number: Option<Decimal>) -> Content<'b, 'a>
        ensures { result ≡ given content.Number number }
    {
        given!(number, |number| Content::Number(number))
    }

    // Where this kind is asked.
    pub(crate) fn optional_unit(asked: UnitKind, unit: Option<&'b Unit<'a>>) -> Content<'b, 'a>
        ensures { result ≡ given (content.Unit asked) (option_copied unit.entry) }
    {
        given!(unit, |unit| Content::Unit(asked, Borrowed { part: unit }))
    }

    pub(crate) fn length(unit: Option<&'b Unit<'a>>) -> Content<'b, 'a>
        ensures { result ≡ length_unit (option_copied unit.entry) }
    {
        match unit {
            None => Content::Metre,
            Some(unit) => Content::Unit(UnitKind::Length, Borrowed { part: unit }),
        }
    }

    pub(crate) fn optional_meridian(meridian: Option<&'b AxisMeridian<'a>>) -> Content<'b, 'a>
        ensures { result ≡ given content.Meridian (option_copied meridian.entry) }
    {
        given!(meridian, |it| Content::Meridian(Borrowed { part: it }))
    }

    pub(crate) fn optional_model(model: Option<&'b DeformationModel<'a>>) -> Content<'b, 'a>
        ensures { result ≡ given content.Model (option_copied model.entry) }
    {
        given!(model, |model| Content::Model(Borrowed { part: model }))
    }
}
