//! Why a text is refused: a number, and the place of the fault.
ghost use Rattle.std.specs.Prelude.{◌≡◌, ◌↔◌, IsSome, IfSome, IsTrue};
ghost use Rattle.crs_text.specs.Refusal.{is_before, is_refusal, name_of};

use std::marker::Model;

/// A refusal: its number, and the place of the fault in bytes from the text's first, which is 0. Profile.
#[derive(Clone, Copy, Debug, PartialEq, Eq)]
pub struct Refusal {
    // As wide as a machine word, so that a refusal has no padding, which would be copied with it.
    number: u64,
    place: usize,
}

impl Model for Refusal {
    ghost use Rattle.std.specs.Prelude.{IsTrue};
    ghost use Rattle.crs_text.specs.Refusal.{RefusedAt, is_refusal};

    ghost Value = { RefusedAt };

    ghost view = { λ r. record { number = r.number; place = r.place } };

    ghost invariant = { λ r. IsTrue (is_refusal r.number) };

    ghost inverse = { λ r. record { number = r.number; place = r.place } };
}

/// Why a text is no node, as the number of its refusal.
#[derive(Clone, Copy)]
pub(crate) enum Reason {
    /// A byte begins no token.
    BadCharacter = 1,
    /// A run isn't of the number form.
    BadNumber,
    /// A number is out of bounds.
    NumberRange,
    /// No well-formed UTF-8 continues so.
    NotUtf8,
    /// A quoted text has no end.
    OpenText,
    /// No text goes on with this token.
    Unexpected,
    /// The text ends too early.
    UnexpectedEnd,
    /// An opening delimiter is inside 12 open ones.
    TooDeep,
}

impl Reason {
    ghost use Rattle.crs_text.specs.TextFault.{reason_number};

    /// The refusal for this reason, at this place.
    pub(crate) fn at(self, place: usize) -> Refusal
        ensures number { result.number ≡ reason_number self }
        ensures place { result.place ≡ place }
    {
        Refusal {
            number: self as u64,
            place,
        }
    }
}

impl Refusal {
    /// A refusal with this number; None where no refusal has it.
    pub fn new(number: u8, place: usize) -> Option<Refusal>
        ensures known { IsSome result ↔ IsTrue (is_refusal number) }
        ensures value { IfSome result (λ r. (r.number ≡ number) × (r.place ≡ place)) }
    {
        match number {
            1..=8 | 11..=13 | 21..=29 => Some(Refusal {
                number: u64::from(number),
                place,
            }),
            _ => None,
        }
    }

    /// The number: 1 to 8 of the text, 11 to 13 of a shape, 21 to 29 of a value.
    pub fn number(&self) -> u8
        ensures value { result ≡ self.now.number }
        ensures known { IsTrue (is_refusal self.now.number) }
    {
        self.number as u8
    }

    /// The place of the fault.
    pub fn place(&self) -> usize
        ensures { result ≡ self.now.place }
    {
        self.place
    }

    /// Whether this goes before the other: it has the lower number, or the same number and the earlier place. Profile.
    pub fn is_before(self, other: Refusal) -> bool
        ensures { result ≡ is_before self other }
    {
        self.number < other.number || (self.number == other.number && self.place < other.place)
    }

    /// The number's name.
    pub fn name(&self) -> &'static str
        ensures { result.now ≡ name_of self.now.number }
    {
        match self.number {
            1 => "BadCharacter",
            2 => "BadNumber",
            3 => "NumberRange",
            4 => "NotUtf8",
            5 => "OpenText",
            6 => "Unexpected",
            7 => "UnexpectedEnd",
            8 => "TooDeep",
            11 => "UnknownKeyword",
            12 => "NotHere",
            13 => "Missing",
            21 => "UnknownWord",
            22 => "RepeatedPart",
            23 => "BadSystem",
            24 => "BadComponent",
            25 => "AxisCount",
            26 => "BadOrder",
            27 => "BadUnit",
            28 => "BadValue",
            _ => "BadDynamic",
        }
    }
}
