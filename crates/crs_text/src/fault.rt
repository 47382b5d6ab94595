//! Why a call gave no answer: a refusal, or out of memory.
ghost use Rattle.std.specs.Prelude.{◌≡◌};

use crate::refusal::Refusal;
use std::alloc::AllocError;
use thiserror::Error;

/// Why a text gave no answer. Profile.
#[derive(Clone, Copy, Debug, Error)]
pub enum Fault {
    /// The text is refused.
    #[error("refused {} {} at {}", .0.number(), .0.name(), .0.place())]
    Refused(Refusal),
    /// Memory was refused.
    #[error("out of memory")]
    Memory(AllocError),
}

impl Fault {
    ghost use Rattle.crs_text.specs.Fault.{refusal_of};

    /// The refusal, if that is the reason.
    pub fn refusal(&self) -> Option<Refusal>
        ensures { result ≡ refusal_of self.now }
    {
        match self {
            Fault::Refused(refusal) => Some(*refusal),
            Fault::Memory(_) => None,
        }
    }
}
