//! The kinds of unit.
ghost use Rattle.std.specs.Prelude.{◌≡◌, ℕ, List, Some};
ghost use Rattle.crs_text.specs.Keywords.{keyword_of};
ghost use Rattle.crs_shape.specs.Dimensions.{IsReading};
ghost use Rattle.crs_shape.specs.Words.{kind_as, SpellsWord, unit_word};

use crate::spelled::is_spelled;
use crs_text::{Keyword, laws};

/// The kind of a unit, as its keyword says it. ISO 19162:2019, "Units".
#[derive(Clone, Copy, Debug, PartialEq, Eq)]
pub enum UnitKind {
    /// `LENGTHUNIT`.
    Length,
    /// `ANGLEUNIT`.
    Angle,
    /// `SCALEUNIT`.
    Scale,
    /// `UNIT`, which doesn't say its kind.
    Plain,
}

impl UnitKind {
    /// The kind of a unit of this kind where that one is asked: `UNIT` is of the asked kind. ISO 19162:2019, "Units".
    pub fn as_asked(self, asked: UnitKind) -> UnitKind
        ensures { result ≡ kind_as asked self }
    {
        match self {
            UnitKind::Plain => asked,
            UnitKind::Length | UnitKind::Angle | UnitKind::Scale => self,
        }
    }

    /// The first keyword of a unit of this kind. ISO 19162:2019, "Units".
    pub fn keyword(&self) -> &'static str
        ensures { result.now ≡ unit_word self.now }
    {
        match self {
            UnitKind::Length => "LENGTHUNIT",
            UnitKind::Angle => "ANGLEUNIT",
            UnitKind::Scale => "SCALEUNIT",
            UnitKind::Plain => "UNIT",
        }
    }

    /// The kind that a keyword says, letter case aside; None where it says none. ISO 19162:2019, "Units".
    pub fn read(word: &[u8]) -> Option<UnitKind>
        ensures { IsReading (λ value. SpellsWord word.now (unit_word value)) result }
    {
        for kind in [
            UnitKind::Length,
            UnitKind::Angle,
            UnitKind::Scale,
            UnitKind::Plain,
        ] {
            if is_spelled(kind.keyword().as_bytes(), word) {
                return Some(kind);
            }
        }
        None
    }

    /// The kind that a keyword says; None where it is none of units. ISO 19162:2019, "Units".
    pub fn of(keyword: Keyword) -> Option<UnitKind>
        ensures { (word : List ℕ) → keyword_of word ≡ Some keyword → IsReading (λ kind. SpellsWord word (unit_word kind)) result }
    {
        laws::keywords_are_spelled();
        match keyword {
            Keyword::LengthUnit => Some(UnitKind::Length),
            Keyword::AngleUnit => Some(UnitKind::Angle),
            Keyword::ScaleUnit => Some(UnitKind::Scale),
            Keyword::PlainUnit => Some(UnitKind::Plain),
            _ => None,
        }
    }
}
