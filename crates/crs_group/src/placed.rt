use crs_text::Refusal;

/// Where a line was placed in a catalogue.
#[derive(Clone, Copy, Debug, PartialEq, Eq)]
pub enum Placed {
    /// The line is only white space, or empty.
    Blank,
    /// The line spells no CRS.
    Refused(Refusal),
    /// The line spells a CRS, and is in the group of this number, counted from 1 in the order of their first lines.
    Group(usize),
}
