/// Which groups of a catalogue are written, how, and how their lines are named.
#[derive(Clone, Copy, Debug)]
pub struct Listing {
    /// Whether groups of one line are left out.
    pub repeated: bool,
    /// Whether a line is a name, a tab and a text: the name is written instead of its number, or beside it in an
    /// object. A line without a tab is all text, and its number is written.
    pub names: bool,
    /// Whether texts come from files: their names are written instead of numbers, and begin the line of a refused one.
    pub files: bool,
    /// Whether groups and refused lines are written as objects of JSON, one per line.
    pub json: bool,
}

/// Every group is written, in a line, and lines by their numbers.
pub const PLAIN: Listing = Listing {
    repeated: false,
    names: false,
    files: false,
    json: false,
};
