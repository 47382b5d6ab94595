//! Standard output.
use std::io;
use std::io::{Stdout, Write};

/// Standard output, with the failure of the last write that failed.
#[derive(Drop)]
pub struct Output {
    stdout: Stdout,
    failure: Option<io::Error>,
}

impl Output {
    /// Standard output, to which nothing was written.
    pub fn new(rt: &HostRuntime) -> Output {
        let (stdout, failure) = (rt.stdout(), None);
        Output { stdout, failure }
    }

    /// Why the last write that failed did so.
    pub fn failure(&self) -> Option<io::Error> {
        self.failure
    }

    /// Whether a write failed since nobody reads any more.
    pub fn is_closed(&self) -> bool {
        self.failure
            .is_some_and(|error| error.kind() == io::ErrorKind::BrokenPipe)
    }
}

impl Write for Output {
    fn write(&mut self, buf: &[u8]) -> io::Result<usize> {
        let answer = self.stdout.write(buf);
        if let Err(error) = answer {
            self.failure = Some(error);
        }
        answer
    }

    fn flush(&mut self) -> io::Result<()> {
        Ok(())
    }
}
