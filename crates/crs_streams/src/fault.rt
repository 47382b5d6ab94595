use std::fmt;
use thiserror::Error;

/// Why a run ends with no status.
#[derive(Clone, Copy, Debug, PartialEq, Eq, Error)]
pub enum RunFault {
    /// A read answered a failure.
    #[error("read failed")]
    ReadFailed,
    /// A write answered a failure.
    #[error("write failed")]
    WriteFailed,
    /// A line is longer than 1,048,576 bytes, lines being counted from 1; 0 where the input is one text.
    #[error("{}", TooLongText(*.0))]
    TooLong(u64),
    /// A source or a stream made all the reads that it may, and none showed the end.
    #[error("too many reads")]
    TooManyReads,
    /// Memory ran out.
    #[error("out of memory")]
    Memory,
}

#[derive(Drop)]
struct TooLongText(u64);

impl fmt::Display for TooLongText {
    fn fmt<W: fmt::Write>(&self, f: &mut fmt::Formatter<W>) -> fmt::Result {
        let line = self.0;
        if line == 0 {
            write!(f, "text too long")
        } else {
            write!(f, "line {line} too long")
        }
    }
}
