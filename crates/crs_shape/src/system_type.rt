ghost use Rattle.std.specs.Prelude.{◌≡◌, ◌↔◌, IfSome, IsTrue, [], ◌∷◌};
ghost use Rattle.crs_shape.specs.Dimensions.{IsReading, OneIs, IsOneOf, dimensions_of};
ghost use Rattle.crs_shape.specs.Words.{asked_kind, every_type, system_word, SpellsWord};

use crate::class::Class;
use crate::direction::Direction;
use crate::spelled::is_spelled;
use crate::unit_kind::UnitKind;
use crs_decimal::{Decimal, laws};

/// The type of a coordinate system. ISO 19162:2019, "Coordinate system".
#[derive(Clone, Copy, Debug, PartialEq, Eq)]
pub enum SystemType {
    /// Orthogonal straight axes.
    Cartesian,
    /// Latitude and longitude, and height where there are three axes.
    Ellipsoidal,
    /// Angles and a distance from the centre.
    Spherical,
    /// Height or depth.
    Vertical,
}

const SYSTEM_TYPES: [SystemType; 4] = [
    SystemType::Cartesian,
    SystemType::Ellipsoidal,
    SystemType::Spherical,
    SystemType::Vertical,
];

// The type, if the word spells it.
#[inline(always)]
fn if_spelled(word: &[u8], system_type: SystemType) -> Option<SystemType>
    ensures { IfSome result (λ value. SpellsWord word.now (system_word value)) }
{
    is_spelled(system_type.word().as_bytes(), word).then_some(system_type)
}

// The type that a word spells, if it is the one with its first letter.
fn by_letter(word: &[u8]) -> Option<SystemType>
    ensures { IfSome result (λ value. SpellsWord word.now (system_word value)) }
{
    match word.first()? {
        b'c' | b'C' => if_spelled(word, SystemType::Cartesian),
        b'e' | b'E' => if_spelled(word, SystemType::Ellipsoidal),
        b's' | b'S' => if_spelled(word, SystemType::Spherical),
        _ => if_spelled(word, SystemType::Vertical),
    }
}

fn is_two_or_three(dimension: u64) -> bool
    ensures { IsTrue result ↔ OneIs (λ n. dimension ≡ n) (2 ∷ 3 ∷ []) }
{
    dimension == 2 || dimension == 3
}

impl SystemType {
    /// All types. ISO 19162:2019, "Coordinate system".
    #[tactic(auto, unfolding(crate::specs::Words::every_type))]
    pub fn every() -> &'static [SystemType]
        ensures { result.now ≡ every_type }
    {
        &SYSTEM_TYPES
    }

    /// The word that a text has for the type, as it is written.
    pub fn word(&self) -> &'static str
        ensures { result.now ≡ system_word self.now }
    {
        match self {
            SystemType::Cartesian => "Cartesian",
            SystemType::Ellipsoidal => "ellipsoidal",
            SystemType::Spherical => "spherical",
            SystemType::Vertical => "vertical",
        }
    }

    /// The kind of unit that an axis of this direction asks for in a system of this type. Profile.
    pub fn asked_kind(self, direction: Direction) -> UnitKind
        ensures { result ≡ asked_kind self direction }
    {
        match self {
            SystemType::Cartesian | SystemType::Vertical => UnitKind::Length,
            SystemType::Ellipsoidal | SystemType::Spherical => match direction {
                Direction::Up | Direction::Down => UnitKind::Length,
                _ => UnitKind::Angle,
            },
        }
    }

    /// Whether a CRS of this class may have a system of this type and dimension. ISO 19162:2019, "Coordinate system".
    pub fn has_dimension(self, class: Class, dimension: u64) -> bool
        ensures { IsTrue result ↔ OneIs (λ n. dimension ≡ n) (dimensions_of class self) }
    {
        match (class, self) {
            (Class::GeodeticCrs, SystemType::Cartesian) => dimension == 3,
            (Class::GeodeticCrs, SystemType::Ellipsoidal) => is_two_or_three(dimension),
            (Class::GeodeticCrs, SystemType::Spherical) => is_two_or_three(dimension),
            (Class::GeographicCrs, SystemType::Ellipsoidal) => is_two_or_three(dimension),
            (Class::ProjectedCrs, SystemType::Cartesian) => is_two_or_three(dimension),
            (Class::VerticalCrs, SystemType::Vertical) => dimension == 1,
            _ => false,
        }
    }

    /// Whether a CRS of this class may have a coordinate system of this type and dimension, the dimension given as a
    /// decimal; one that isn't whole is never allowed. ISO 19162:2019, "Coordinate system".
    pub fn is_allowed(self, class: Class, dimension: &Decimal) -> bool
        ensures { IsTrue result ↔ IsOneOf dimension.now (dimensions_of class self) }
    {
        laws::same_number_is_equivalence();
        match dimension.whole() {
            None => false,
            Some(whole) => self.has_dimension(class, whole),
        }
    }

    /// The type that a word spells, letter case aside; None where it spells none. ISO 19162:2019, "Coordinate system".
    pub fn read(word: &[u8]) -> Option<SystemType>
        ensures { IsReading (λ value. SpellsWord word.now (system_word value)) result }
    {
        if let Some(system_type) = by_letter(word) {
            return Some(system_type);
        }
        for system_type in SYSTEM_TYPES {
            if is_spelled(system_type.word().as_bytes(), word) {
                return Some(system_type);
            }
        }
        None
    }
}
