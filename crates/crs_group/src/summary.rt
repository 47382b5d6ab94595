/// What a catalogue has.
#[derive(Clone, Copy, Debug, PartialEq, Eq)]
pub struct Summary {
    /// How many lines there are, blank ones included.
    pub lines: u64,
    /// How many lines are only white space, or empty.
    pub blank: u64,
    /// How many lines spell no CRS and are not blank.
    pub refused: u64,
    /// How many groups there are.
    pub groups: u64,
}
