use thiserror::Error;

/// Why bytes aren't read as a number. Profile.
#[derive(Clone, Copy, Debug, PartialEq, Eq, Error)]
pub enum NumberFault {
    /// The bytes don't have the form of a number.
    #[error("not a number")]
    Malformed,
    /// The number has too many digits, or its power of ten is out of bounds.
    #[error("number out of bounds")]
    Range,
}
