//! What the numbers of refusals mean.
use crs_text::Refusal;

/// What the number of a refusal means, in a sentence.
pub fn meaning(refusal: Refusal) -> &'static str {
    match refusal.number() {
        1 =>
            "This byte begins no token: outside quotes a text has delimiters, commas, numbers and words alone.",
        2 => "This begins as a number does, and doesn't have the form of one.",
        3 => {
            "This number is outside the bounds: 38 digits from the first to the last that isn't zero, a power of ten \
             from -40 to 40, 100 digits written, and 3 of an exponent."
        }
        4 => "The bytes of this quoted text aren't UTF-8.",
        5 =>
            "The quoted text that is opened here has no end: a quote is missing, here or before, or the text was cut off.",
        6 =>
            "No text can go on like this: a comma is missing or twice, '[' is closed by ')', or a second text follows.",
        7 =>
            "The text ends before it is complete: a closing delimiter is missing somewhere before, or it was cut off.",
        8 => "More than 12 delimiters are open here.",
        11 => "This keyword is in no table, and no node of this name may be here.",
        12 => "This may not be at this place of its node, or what must come before it is missing.",
        13 => "The node that is closed here lacks a part that it must have.",
        21 => "This type of coordinate system, or this direction of an axis, isn't known.",
        22 => "This part may be given once, and is given here again.",
        23 => "The coordinate system's type and dimension don't fit a CRS of this kind.",
        24 =>
            "The horizontal part of a compound CRS is a geographic or projected CRS of dimension 2, and this isn't one.",
        25 => "There are more or fewer axes than the dimension of this coordinate system.",
        26 =>
            "The orders of axes are missing on some, repeated, or not the numbers from 1 to the number of axes.",
        27 => "A unit is missing here, is both on an axis and shared, or is of the wrong kind.",
        28 =>
            "A factor and a semi-major axis are above zero, and an inverse flattening isn't negative.",
        29 => "A dynamic part may not be beside an ensemble.",
        _ => unreachable!(),
    }
}
