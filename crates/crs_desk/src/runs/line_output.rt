//! What commands write for the text of a line, and lines after a prefix.
ghost use Rattle.std.specs.Prelude.{◌≡◌, ◌++◌, IfOk, OnOk, drop, if◌then◌else◌};
ghost use Rattle.crs_desk.specs.LinesRun.{prefixed};

use crate::{TextCommand, line_of};
use bstr::ByteSlice;
use crs_group::is_blank;
use std::alloc::{AllocError, Global};
use std::marker::Model;

/// A command over the text of a line; a blank line has an answer of its own.
#[derive(Drop)]
pub struct OfLine<C: TextCommand> {
    /// What answers a line that isn't blank.
    pub command: C,
    /// What is written for a blank one: often nothing, an empty line.
    pub blank: &'static [u8],
}

impl<C: TextCommand> TextCommand for OfLine<C> {
    ghost use Rattle.crs_desk.specs.LinesRun.{IsLineOutput};

    ghost Output = { λ s text written status. IsLineOutput s.blank.now (C.Output s.command) text written status };

    fn output(&self, alloc: Global, text: &[u8]) -> Result<(Vec<u8>, u8), AllocError> {
        if is_blank(text) {
            let line = Vec::from_slice(alloc, self.blank)?;
            return Ok((line_of(line)?, 0));
        }
        self.command.output(alloc, text)
    }
}

// A command each of whose lines is written after a prefix.
#[derive(Drop)]
pub(crate) struct Prefixed<'p, C: TextCommand> {
    pub(crate) prefix: &'p Prefix,
    pub(crate) command: C,
}

impl<C: TextCommand> TextCommand for Prefixed<'_, C> {
    ghost use Rattle.crs_desk.specs.LinesRun.{IsPrefixed};

    ghost Output = { λ s text written status. IsPrefixed s.prefix.now (C.Output s.command text) written status };

    fn output(&self, alloc: Global, text: &[u8]) -> Result<(Vec<u8>, u8), AllocError> {
        let (plain, status) = self.command.output(alloc, text)?;
        Ok((prefix_lines(self.prefix, plain)?, status))
    }
}

// What stands before each line: some bytes, which take the place of the opening brace where lines are objects.
#[derive(Drop)]
pub(crate) struct Prefix {
    pub(crate) bytes: Vec<u8>,
    pub(crate) in_object: bool,
}

impl Model for Prefix {
    ghost use Rattle.crs_desk.specs.LinesRun.{PrefixParts};

    ghost Value = { PrefixParts };

    ghost view = { λ p. record { bytes = p.bytes.items; in_object = p.in_object } };
}

impl Prefix {
    pub(crate) fn alloc(&self) -> Global {
        *self.bytes.allocator()
    }
}

// These bytes, each of their lines after a prefix; the bytes themselves where nothing goes before a line.
pub(crate) fn prefix_lines(prefix: &Prefix, bytes: Vec<u8>) -> Result<Vec<u8>, AllocError>
    ensures { IfOk result (λ lines. lines.items ≡ prefixed prefix.now bytes.items) }
{
    if prefix.bytes.is_empty() && !prefix.in_object {
        return Ok(bytes);
    }
    let mut lines = Vec::new(prefix.alloc());
    for line in bytes.as_slice().lines_with_terminator() {
        append_line(&mut lines, prefix, line)?;
    }
    Ok(lines)
}

// Appends a line after the prefix, which takes the place of its first byte where lines are objects.
fn append_line(out: &mut Vec<u8>, prefix: &Prefix, line: &[u8]) -> Result<(), AllocError>
    ensures { OnOk result (out.new.items ≡ out.old.items ++ (prefix.now.bytes
        ++ (if prefix.now.in_object then drop 1 line.now else line.now))) }
{
    out.extend_from_slice(&prefix.bytes)?;
    out.extend_from_slice(if prefix.in_object {
        line.get(1..).unwrap_or(b"")
    } else {
        line
    })
}
