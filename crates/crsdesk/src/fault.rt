//! Why the program ends without an answer.
use crs_desk::{JobFault, RunFault};
use std::alloc::AllocError;
use std::io;
use thiserror::Error;

/// Why the program ends without an answer.
#[derive(Clone, Copy, Debug, Error)]
pub enum Fault {
    /// A word of the command line isn't UTF-8.
    #[error("a word of the command line isn't UTF-8")]
    Word,
    /// Standard input is named twice.
    #[error("standard input is read once, and `-` stands twice")]
    Twice,
    /// The request is no job.
    #[error("{0}")]
    Job(#[from] JobFault),
    /// A read of standard input failed, for this reason.
    #[error("read failed")]
    Read(io::Error),
    /// A write to standard output failed, for this reason.
    #[error("write failed")]
    Write(io::Error),
    /// A run ended with a fault.
    #[error("{0}")]
    Run(#[from] RunFault),
    /// The user has a message already, or nobody reads standard output any more.
    #[error("told")]
    Told,
}

impl From<AllocError> for Fault {
    fn from(_error: AllocError) -> Fault {
        Fault::Run(RunFault::Memory)
    }
}
