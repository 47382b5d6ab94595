//! The answer of a call, as a row writes it.
use crs_text::Fault;
use std::alloc::{AllocError, Global};
use std::fmt::Display;
use std::io;
use std::io::Write;

/// The bytes of an answer. It remembers that memory ran out, so that what puts a part of it needn't report that.
#[derive(Drop)]
pub struct Answer {
    bytes: Vec<u8>,
    had_memory: bool,
}

impl Answer {
    /// An answer with nothing in it yet.
    pub fn new(alloc: Global) -> Answer {
        Answer {
            bytes: Vec::new(alloc),
            had_memory: true,
        }
    }

    /// What its memory comes from.
    pub fn alloc(&self) -> Global {
        *self.bytes.allocator()
    }

    /// What was put; the error is that memory ran out.
    pub fn bytes(&self) -> Result<&[u8], AllocError> {
        if self.had_memory {
            Ok(&self.bytes)
        } else {
            Err(AllocError)
        }
    }

    /// Prints what was put, as a line; the error is that memory ran out, too.
    pub fn print(&self, rt: &impl Print) -> io::Result<()> {
        io::writer(rt).write_all(self.bytes()?)?;
        io::writer(rt).write_all(b"\n")
    }

    /// Whether the same was put in another answer; the error is that memory ran out for one of them.
    pub fn is(&self, other: &Answer) -> Result<bool, AllocError> {
        Ok(self.bytes()? == other.bytes()?)
    }

    /// Remembers that memory ran out, if it did.
    pub fn note(&mut self, done: Result<(), AllocError>) {
        self.had_memory = self.had_memory && done.is_ok();
    }

    /// What was made; None if memory ran out, which it remembers.
    pub fn made<T>(&mut self, made: Result<T, AllocError>) -> Option<T> {
        self.had_memory = self.had_memory && made.is_ok();
        made.ok()
    }

    /// Whether what was asked holds; not if memory ran out, which it remembers.
    pub fn holds(&mut self, asked: Result<bool, AllocError>) -> bool {
        self.made(asked).unwrap_or(false)
    }

    /// What was accepted; None if a text was refused, which is put.
    pub fn accepted<T>(&mut self, found: Result<T, Fault>) -> Option<T> {
        match found {
            Ok(value) => return Some(value),
            Err(fault) => self.put_fault(fault),
        }
        None
    }

    pub fn put(&mut self, text: &str) {
        self.put_bytes(text.as_bytes());
    }

    pub fn put_bytes(&mut self, bytes: &[u8]) {
        let done = self.bytes.extend_from_slice(bytes);
        self.note(done);
    }

    /// Puts a word, which ends in a blank, and bytes.
    pub fn put_after(&mut self, word: &str, bytes: &[u8]) {
        self.put(word);
        self.put_bytes(bytes);
    }

    /// Where a call appends to the answer; whether it could is then noted.
    pub fn end(&mut self) -> &mut Vec<u8> {
        &mut self.bytes
    }

    /// Puts what a format gives; `write!` calls it.
    pub fn write_fmt<D: Display + Drop>(&mut self, value: D) {
        let mut text = String::new(self.alloc());
        let done = text.write_fmt(value);
        self.note(done);
        self.put(text.as_str());
    }

    /// Puts `refused`, the number, the name and the place, or remembers that memory ran out.
    pub fn put_fault(&mut self, fault: Fault) {
        match fault {
            Fault::Refused(refusal) => {
                let (number, place): (u8, usize) = (refusal.number(), refusal.place());
                let name: &'static str = refusal.name();
                write!(self, "refused {number} {name} at {place}");
            }
            Fault::Memory(error) => self.note(Err(error)),
        }
    }
}
