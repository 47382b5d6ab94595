//! Why the bytes of a rules file gave no rules.
ghost use Rattle.std.specs.Prelude.{◌≡◌};
ghost use Rattle.crs_rules.specs.RulesFile.{meaning_of};

use crs_text::Refusal;
use std::alloc::AllocError;
use thiserror::Error;

/// The number of a line that is no statement.
pub const NO_STATEMENT: u8 = 41;

/// The number of an item that is no node or word of its statement.
pub const NOT_HERE: u8 = 42;

/// The number of a node of another kind than the first of its set.
pub const OTHER_CLASS: u8 = 43;

/// The number of a node that stood in such a statement before.
pub const REPEATED: u8 = 44;

/// The first refused line of a rules file: its number, from 1, the number of the refusal, and the place in it, in bytes.
#[derive(Clone, Copy, Debug)]
pub struct RulesRefusal {
    /// The line.
    pub line: usize,
    /// The number of the refusal: 1 to 8 as of a refused text, since the line is no node, and 41 to 44 of a statement.
    pub number: u8,
    /// The place in the line.
    pub place: usize,
}

impl RulesRefusal {
    /// What its number means, in words; of 1 to 8 the name of a text's refusal.
    pub fn meaning(&self) -> &'static str
        ensures { result.now ≡ meaning_of self.now.number }
    {
        match self.number {
            NO_STATEMENT => "neither SAME, UNCOUNTED nor KIND",
            NOT_HERE => "no node or word that may stand here",
            OTHER_CLASS => "a node of another kind than the first of its set",
            REPEATED => "a node that stood in such a statement before",
            number => match Refusal::new(number, 0) {
                Some(refusal) => refusal.name(),
                None => "",
            },
        }
    }
}

/// Why the bytes of a rules file gave no rules.
#[derive(Clone, Copy, Debug, Error)]
pub enum RulesFault {
    /// A line is refused.
    #[error("line {}: refused {} at {}: {}", .0.line, .0.number, .0.place, .0.meaning())]
    Refused(RulesRefusal),
    /// Memory was refused.
    #[error("out of memory")]
    Memory(AllocError),
}
