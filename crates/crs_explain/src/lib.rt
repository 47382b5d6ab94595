//! A refusal of a text or of a rules file, and the parts in which two CRSs differ, explained so that a person can act on
//! them: where a text is refused, what is found there and what is expected, what the text most likely is; the values of
//! each part that differs. Each is one text for a person, and of texts pieces or an object of JSON for a program.
#![tactic(auto)]

mod code_points;
mod difference_texts;
mod differences;
mod excerpt;
mod expected;
mod hint;
pub mod laws;
mod names;
mod pieces;
mod place;
mod refusal;
mod rules_file;
mod system;
mod units;

pub use difference_texts::{DifferenceTexts, differing_parts};
pub use differences::{
    append_difference_line, append_difference_members, difference_lines, difference_objects,
    difference_pieces, ordered_parts,
};
pub use hint::meanings::meaning;
pub use hint::place::{UNEXPECTED, UNEXPECTED_END, UNKNOWN_KEYWORD};
pub use hint::writing::{hints, still_open};
pub use names::Name as StepWord;
pub use pieces::Pieces;
pub use refusal::{ExplanationPieces, refusal_object, refusal_pieces, refusal_text};
pub use rules_file::mistake::rules_refusal_text;
pub use rules_file::used::Used;

/// A value, or `AllocError`.
pub(crate) type Made<T> = std::result::Result<T, std::alloc::AllocError>;
