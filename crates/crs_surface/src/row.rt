//! What is asked in a row, or of a call that is tried, and from the name of a call to its answer.
use crate::answer::Answer;
use crate::examples::put_example;
use crate::{catalogues, numbers, runs, shapes, texts, values, written};
use crs_shape::known;
use crs_value::Level;
use std::alloc::{AllocError, Global};
use std::{io, str};

/// A call and the parts of its input.
#[derive(Drop)]
pub struct Row<'t> {
    /// The name of a call; after a blank it may have words.
    pub call: &'t str,
    pub level: Level,
    // all parts, and where each ends
    input: Vec<u8>,
    ends: Vec<usize>,
}

impl<'t> Row<'t> {
    pub fn new(alloc: Global) -> Row<'t> {
        Row {
            call: "",
            level: Level::Full,
            input: Vec::new(alloc),
            ends: Vec::new(alloc),
        }
    }

    /// A line with the call's name, and then the parts, a NUL byte between. The error: no UTF-8, or out of memory.
    pub fn of(alloc: Global, bytes: &'t [u8]) -> io::Result<Row<'t>> {
        let mut row = Row::new(alloc);
        let mut lines = bytes.splitn(2, |byte| *byte == b'\n');
        match str::from_utf8(lines.next().unwrap_or(&[])) {
            Ok(call) => row.call = call,
            Err(_) => return Err(unusable()),
        }
        for part in lines.next().unwrap_or(&[]).split(|byte| *byte == 0) {
            row.add(1, part)?;
        }
        Ok(row)
    }

    /// Sets the call; its last two words may be `at definition`, its level.
    pub fn set_call(&mut self, call: &'t str) {
        let is_full = !call.ends_with(" at definition");
        self.level = if is_full {
            Level::Full
        } else {
            Level::Definition
        };
        self.call = call.strip_suffix(" at definition").unwrap_or(call);
    }

    /// Adds a part, which is a text so many times.
    pub fn add(&mut self, count: u32, text: &[u8]) -> Result<(), AllocError> {
        for _turn in 0..count {
            self.input.extend_from_slice(text)?;
        }
        self.ends.push(self.input.len())?;
        Ok(())
    }

    /// All parts, one after the other.
    pub fn text(&self) -> &[u8] {
        &self.input
    }

    pub fn count(&self) -> usize {
        self.ends.len()
    }

    /// The part at an index; an empty one if there is none.
    pub fn part(&self, index: usize) -> &[u8] {
        let begin = match index {
            0 => 0,
            _ => self.ends.get(index - 1).copied().unwrap_or(0),
        };
        let end = self.ends.get(index).copied().unwrap_or(begin);
        self.input.get(begin..end).unwrap_or(&[])
    }
}

/// The parts of a row.
pub fn parts_of<'r>(alloc: Global, row: &'r Row<'_>) -> Result<Vec<&'r [u8]>, AllocError> {
    let mut parts = Vec::new(alloc);
    for index in 0..row.count() {
        parts.push(row.part(index))?;
    }
    Ok(parts)
}

/// The input is none of the call's.
pub fn unusable() -> io::Error {
    io::Error::from(io::ErrorKind::InvalidInput)
}

/// Puts the answer of a row's call.
pub fn put_answer(out: &mut Answer, row: &Row<'_>) {
    let (name, words) = row.call.split_once(' ').unwrap_or((row.call, ""));
    let input = row.text();
    match name {
        "feed" => texts::put_fed(out, row),
        "read_items" => texts::put_tree(out, input),
        "prefixes" => texts::put_prefixes(out, input),
        "column" => texts::put_column(out, row, words),
        "fit_root" => shapes::put_class(out, input),
        "fit" => shapes::put_fit(out, row),
        "class_of" => shapes::put_keywords(out, input),
        "slots" => shapes::put_slots(out, input),
        "known" => out.put(if known(input) { "known" } else { "unknown" }),
        _ => put_answer_of_value(out, row, name, words),
    }
}

fn put_answer_of_value(out: &mut Answer, row: &Row<'_>, name: &str, words: &str) {
    match name {
        "Refusal::new" => numbers::put_name(out, row.text()),
        "Decimal" => numbers::put_number(out, row, words),
        "read" => values::put_read(out, row.text()),
        "canon" => values::put_canon(out, row),
        "same" => values::put_same(out, row, words),
        "write" => values::put_part(out, row, words),
        "written" => written::put_whole(out, row, words),
        "example" => put_example(out, row, words),
        _ => put_answer_of_run(out, row, name, words),
    }
}

fn put_answer_of_run(out: &mut Answer, row: &Row<'_>, name: &str, words: &str) {
    match name {
        "Catalogue" => catalogues::put_catalogue(out, row),
        "failed_reads" => runs::put_failed(out, words, row, "reads"),
        "failed_writes" => runs::put_failed(out, words, row, "writes"),
        "Source" => runs::put_handed(out, row.text()),
        "Filling" => runs::put_filled(out, words, row.text()),
        _ => runs::put_run(out, row),
    }
}
