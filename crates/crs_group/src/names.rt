//! Lines that begin with a name and a tab, and the names of lines.
ghost use Rattle.std.specs.Prelude.{◌≡◌, ◌&&◌, ◌++◌, ◌<◌, ◌∷◌, [], MatchOption, OnOk, false, if◌then◌else◌, length, slice_get, true, unwrap_or};
ghost use Rattle.crs_group.specs.inner.GroupReading.{IsNamed, text_in};
ghost use Rattle.std.specs.List.{list_all};
ghost use Rattle.crs_text.specs.Tokens.{is_white};
ghost use Rattle.crs_group.specs.Names.{blank_of, has_name, is_marked, name_at, tab_at, text_behind};

use crate::catalogue::is_blank;
use bstr::ByteSlice;
use itoa::Buffer;
use std::alloc::{AllocError, Global};
use std::marker::Model;

// The names of lines, in the order of their numbers.
#[derive(Drop)]
pub(crate) struct Names {
    alloc: Global,
    names: Vec<Vec<u8>>,
}

impl Model for Names {
    ghost use Rattle.std.specs.Prelude.{ℕ, List, map};

    ghost Value = { List (List ℕ) };

    ghost view = { λ names. map (λ name. name.items) names.names.items };
}

impl Names {
    // No names. They take no memory.
    pub(crate) fn new(alloc: Global) -> Names
        ensures { result ≡ [] }
    {
        let names = Vec::new(alloc);
        Names { alloc, names }
    }

    // Keeps the name of the next line, whose number is this one, where lines have names.
    pub(crate) fn keep(&mut self, named: bool, number: u64, line: &[u8]) -> Result<(), AllocError>
        ensures { OnOk result (IsNamed named number line.now self.old self.new) }
    {
        if !named {
            return Ok(());
        }
        match name_end(line) {
            Some(at) => self.push(&line[..at]),
            None => self.push(Buffer::new().format(number).as_bytes()),
        }
    }

    pub(crate) fn push(&mut self, name: &[u8]) -> Result<(), AllocError>
        ensures { OnOk result (self.new ≡ self.old ++ name.now ∷ []) }
    {
        let bytes = Vec::from_slice(self.alloc, name)?;
        self.names.push(bytes)?;
        Ok(())
    }

    // The name of the line of this number; nothing where there is none.
    pub(crate) fn at(&self, number: u64) -> &[u8]
        ensures { result.now ≡ name_at number self.now }
    {
        match number {
            0 => b"",
            _ => self.at_place(number as usize - 1),
        }
    }

    // The name at this place, from 0; nothing where there is none.
    fn at_place(&self, at: usize) -> &[u8]
        ensures { result.now ≡ unwrap_or (slice_get self.now at) [] }
    {
        match self.names.get(at) {
            Some(name) => name.as_slice(),
            None => b"",
        }
    }
}

// The text of a line: what is behind its first tab where lines have names and it has a tab, else the whole line.
pub(crate) fn text_in(named: bool, line: &[u8]) -> &[u8]
    ensures { result.now ≡ text_in named line.now }
{
    if !named {
        return line;
    }
    match name_end(line) {
        Some(at) => &line[at + 1..],
        None => line,
    }
}

// Keeps the number of a line that has a name and no text, where lines have names.
pub(crate) fn keep_blank(
    blanks: &mut Vec<u64>,
    named: bool,
    number: u64,
    line: &[u8],
) -> Result<(), AllocError>
    ensures { OnOk result (blanks.new.items ≡ blanks.old.items ++ blank_of named number line.now) }
{
    if named && is_named_blank(line) {
        blanks.push(number)?;
    }
    Ok(())
}

// Keeps the number of a blank text.
pub(crate) fn keep_blank_text(
    blanks: &mut Vec<u64>,
    number: u64,
    text: &[u8],
) -> Result<(), AllocError>
    ensures { OnOk result (blanks.new.items
        ≡ blanks.old.items ++ (if list_all is_white text.now then number ∷ [] else [])) }
{
    if is_blank(text) {
        blanks.push(number)?;
    }
    Ok(())
}

fn is_named_blank(line: &[u8]) -> bool
    ensures { result ≡ (has_name line.now && list_all is_white (text_behind line.now)) }
{
    match name_end(line) {
        Some(at) => is_blank(&line[at + 1..]),
        None => false,
    }
}

// Where the name of a line ends: at its first tab.
fn name_end(line: &[u8]) -> Option<usize>
    ensures { MatchOption result (has_name line.now ≡ false)
        (λ at. (has_name line.now ≡ true) × (tab_at line.now ≡ at) × (at < length line.now)) }
{
    if is_marked(line) {
        return None;
    }
    first_tab(line)
}

// Whether a line begins with a byte order mark.
fn is_marked(line: &[u8]) -> bool
    ensures { result ≡ is_marked line.now }
{
    line.get(..3) == Some(b"\xEF\xBB\xBF".as_slice())
}

#[tactic(auto, using(crate::proofs::TabLemmas::tab_found))]
fn first_tab(line: &[u8]) -> Option<usize>
    ensures { MatchOption result (tab_at line.now ≡ length line.now)
        (λ at. (tab_at line.now ≡ at) × (at < length line.now)) }
{
    line.find_byte(b'\t')
}
