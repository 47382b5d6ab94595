//! A reader that cuts its text into pieces, goes on without end or fails, and a writer that takes few bytes or fails.
use std::alloc::Global;
use std::io;
use std::io::{ErrorKind, Read, Write};

/// How a text is read and an answer written: a row's words `pieces=N`, `fails=N`, `endless`, `takes=N`, `stops=N` and
/// `interrupted`. Reads and writes are counted from 1; none fails at 0.
#[derive(Clone, Copy)]
pub struct Transfer {
    // the most bytes of one read, and of one write
    piece: usize,
    takes: usize,
    /// The read that fails.
    pub fails_at: usize,
    /// The write that fails.
    pub stops_at: usize,
    // whether the text begins anew where it ends
    is_endless: bool,
    is_interrupted: bool,
}

impl Transfer {
    /// The transfer that the words say; None if a word says none.
    pub fn read(words: &str) -> Option<Transfer> {
        let mut transfer = Transfer {
            piece: usize::MAX,
            takes: usize::MAX,
            fails_at: 0,
            stops_at: 0,
            is_endless: false,
            is_interrupted: false,
        };
        for word in words.split(' ') {
            let (name, count) = word.split_once('=').unwrap_or((word, "0"));
            if !transfer.set(name, count.parse().unwrap_or(0)) {
                return None;
            }
        }
        Some(transfer)
    }

    // Whether this is the name of a word.
    fn set(&mut self, name: &str, count: usize) -> bool {
        match name {
            "" => (),
            "pieces" => self.piece = count,
            "fails" => self.fails_at = count,
            "takes" => self.takes = count,
            "stops" => self.stops_at = count,
            "endless" => self.is_endless = true,
            "interrupted" => self.is_interrupted = true,
            _ => return false,
        }
        true
    }

    fn failure(&self) -> io::Error {
        io::Error::from(if self.is_interrupted {
            ErrorKind::Interrupted
        } else {
            ErrorKind::BrokenPipe
        })
    }
}

/// A reader of a text, in this transfer.
#[derive(Clone, Copy)]
pub struct Pieces<'t> {
    text: &'t [u8],
    left: &'t [u8],
    transfer: Transfer,
    calls: usize,
}

impl<'t> Pieces<'t> {
    pub fn new(text: &'t [u8], transfer: Transfer) -> Pieces<'t> {
        Pieces {
            text,
            left: text,
            transfer,
            calls: 0,
        }
    }
}

impl Read for Pieces<'_> {
    fn read(&mut self, buf: &mut [u8]) -> io::Result<usize> {
        self.calls = self.calls.saturating_add(1);
        if self.calls == self.transfer.fails_at {
            return Err(self.transfer.failure());
        }
        if self.left.is_empty() && self.transfer.is_endless {
            self.left = self.text;
        }
        let count = buf.len().min(self.transfer.piece);
        self.left.read(&mut buf[..count])
    }
}

/// A writer into memory, in this transfer.
#[derive(Drop)]
pub struct Page {
    pub written: Vec<u8>,
    transfer: Transfer,
    calls: usize,
}

impl Page {
    pub fn new(alloc: Global, transfer: Transfer) -> Page {
        Page {
            written: Vec::new(alloc),
            transfer,
            calls: 0,
        }
    }
}

impl Write for Page {
    fn write(&mut self, buf: &[u8]) -> io::Result<usize> {
        self.calls = self.calls.saturating_add(1);
        if self.calls == self.transfer.stops_at {
            return Err(self.transfer.failure());
        }
        let count = buf.len().min(self.transfer.takes);
        self.written.extend_from_slice(&buf[..count])?;
        Ok(count)
    }

    fn flush(&mut self) -> io::Result<()> {
        Ok(())
    }
}
