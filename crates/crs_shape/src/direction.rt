ghost use Rattle.std.specs.Prelude.{◌≡◌, IfSome};
ghost use Rattle.crs_shape.specs.Dimensions.{IsReading};
ghost use Rattle.crs_shape.specs.Words.{direction_word, every_direction, SpellsWord};

use crate::spelled::is_spelled;

/// The direction of an axis. ISO 19162:2019, "Axis direction".
#[derive(Clone, Copy, Debug, PartialEq, Eq)]
pub enum Direction {
    /// Compass direction north.
    North,
    /// Compass direction north-north-east.
    NorthNorthEast,
    /// Compass direction north-east.
    NorthEast,
    /// Compass direction east-north-east.
    EastNorthEast,
    /// Compass direction east.
    East,
    /// Compass direction east-south-east.
    EastSouthEast,
    /// Compass direction south-east.
    SouthEast,
    /// Compass direction south-south-east.
    SouthSouthEast,
    /// Compass direction south.
    South,
    /// Compass direction south-south-west.
    SouthSouthWest,
    /// Compass direction south-west.
    SouthWest,
    /// Compass direction west-south-west.
    WestSouthWest,
    /// Compass direction west.
    West,
    /// Compass direction west-north-west.
    WestNorthWest,
    /// Compass direction north-west.
    NorthWest,
    /// Compass direction north-north-west.
    NorthNorthWest,
    /// Towards the intersection of the equator with the prime meridian, in the equatorial plane.
    GeocentricX,
    /// A quarter turn eastwards from `GeocentricX`, in the equatorial plane.
    GeocentricY,
    /// Towards the north pole, parallel to the axis of rotation.
    GeocentricZ,
    /// Away from the centre, against gravity.
    Up,
    /// Towards the centre, along gravity.
    Down,
    /// No direction is given.
    Unspecified,
}

// calls the macro `$each` with `$with` and all directions, each with its word
macro_rules! directions {
    ($each:ident, $with:tt) => {
        $each! {
            $with
            North "north", NorthNorthEast "northNorthEast", NorthEast "northEast",
            EastNorthEast "eastNorthEast", East "east", EastSouthEast "eastSouthEast",
            SouthEast "southEast", SouthSouthEast "southSouthEast", South "south",
            SouthSouthWest "southSouthWest", SouthWest "southWest", WestSouthWest "westSouthWest",
            West "west", WestNorthWest "westNorthWest", NorthWest "northWest",
            NorthNorthWest "northNorthWest", GeocentricX "geocentricX", GeocentricY "geocentricY",
            GeocentricZ "geocentricZ", Up "up", Down "down", Unspecified "unspecified"
        }
    };
}

// all directions
macro_rules! list {
    (() $($direction:ident $word:literal),+) => { [$(Direction::$direction),+] };
}

// the word of a direction
macro_rules! word_of {
    (($of:expr) $($direction:ident $word:literal),+) => {
        match $of {
            $(Direction::$direction => $word,)+
        }
    };
}

const DIRECTIONS: [Direction; 22] = directions!(list, ());

// The direction, if the word spells it.
#[inline(always)]
fn if_spelled(word: &[u8], direction: Direction) -> Option<Direction>
    ensures { IfSome result (λ value. SpellsWord word.now (direction_word value)) }
{
    is_spelled(direction.word().as_bytes(), word).then_some(direction)
}

// The direction that a word spells, if it is the commonest with the word's first letter, or a geocentric one.
fn common(word: &[u8]) -> Option<Direction>
    ensures { IfSome result (λ value. SpellsWord word.now (direction_word value)) }
{
    match word {
        [b'n' | b'N', ..] => if_spelled(word, Direction::North),
        [b'e' | b'E', ..] => if_spelled(word, Direction::East),
        [b'u' | b'U', ..] => if_spelled(word, Direction::Up),
        [b's' | b'S', ..] => if_spelled(word, Direction::South),
        [b'w' | b'W', ..] => if_spelled(word, Direction::West),
        [b'd' | b'D', ..] => if_spelled(word, Direction::Down),
        [.., b'x' | b'X'] => if_spelled(word, Direction::GeocentricX),
        [.., b'y' | b'Y'] => if_spelled(word, Direction::GeocentricY),
        _ => if_spelled(word, Direction::GeocentricZ),
    }
}

impl Direction {
    /// All directions. ISO 19162:2019, "Axis direction".
    #[tactic(auto, unfolding(crate::specs::Words::every_direction))]
    pub fn every() -> &'static [Direction]
        ensures { result.now ≡ every_direction }
    {
        &DIRECTIONS
    }

    /// The word that a text has for the direction, as it is written.
    pub fn word(&self) -> &'static str
        ensures { result.now ≡ direction_word self.now }
    {
        directions!(word_of, (self))
    }

    /// The direction that a word spells, letter case aside; None where it spells none. ISO 19162:2019, "Axis direction".
    pub fn read(word: &[u8]) -> Option<Direction>
        ensures { IsReading (λ value. SpellsWord word.now (direction_word value)) result }
    {
        if let Some(direction) = common(word) {
            return Some(direction);
        }
        for direction in DIRECTIONS {
            if direction.word().as_bytes().eq_ignore_ascii_case(word) {
                return Some(direction);
            }
        }
        None
    }
}
