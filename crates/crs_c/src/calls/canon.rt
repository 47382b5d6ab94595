//! The canonical texts of many texts at once, or their digests.
ghost use Rattle.std.specs.Prelude.{◌≡◌, ◌≤◌, length};
ghost use Rattle.crs_text.specs.Fault.{refusal_of};
ghost use Rattle.crs_c.specs.Each.{IsEachAt, text_of};
ghost use Rattle.crs_c.specs.inner.Wanting.{IsMadeOf, IsWanted, level_wanted};
ghost use Rattle.crs_c.specs.inner.Turns.{IsTurn, IsWritten, refused_entry};

use crate::calls::buffer::give;
use crate::calls::codes::{NO_MEMORY, OK, REFUSED};
use crate::calls::piece::{front_of, rest_of};
use crs_canon::canon_in;
use crs_text::Fault;
use crs_value::Level;
use sha2::{Digest, Sha256};
use std::alloc::Global;

/// A text of many, and the answer to it: `struct crsdesk_entry` of C.
#[repr(C)]
#[derive(Clone, Copy)]
pub struct Entry {
    /// Where the text begins among the bytes of all texts. The caller sets it.
    pub begin: usize,
    /// Where it ends there. The caller sets it.
    pub end: usize,
    /// Where the answer ends among the bytes written; it begins where the answer of the entry before ends.
    pub written_end: usize,
    /// The place of its refusal, in bytes from its own first.
    pub place: usize,
    /// The number of its refusal.
    pub number: u32,
    /// The code.
    pub code: u32,
}

/// The answer to a text.
#[derive(Clone, Copy)]
pub enum Wanted {
    /// Its canonical text at a level.
    Canonical(Level),
    /// The digest of its canonical text.
    Digest(Level),
}

impl Wanted {
    fn level(self) -> Level
        ensures { result ≡ level_wanted self }
    {
        match self {
            Wanted::Canonical(level) | Wanted::Digest(level) => level,
        }
    }
}

/// Answers the entries of many texts: how many, and why no more.
pub fn answer_entries(
    alloc: Global,
    texts: &[u8],
    entries: &mut [Entry],
    wanted: Wanted,
    out: &mut [u8],
) -> (usize, u32)
    ensures { IsEachAt (IsWanted wanted) texts.now
        (record { entries = entries.old; out = out.old; done = 0 })
        (record { entries = entries.new; out = out.new; done = result.0 })
        result.1 }
{
    let mut room = Vec::new(alloc);
    let mut at = 0;
    for index in 0..entries.len() {
        let (entry, code) = answer((texts, wanted), entries[index], out, at, &mut room);
        if code != OK {
            return (index, code);
        }
        at = entry.written_end;
        entries[index] = entry;
    }
    (entries.len(), OK)
}

// Answers an entry, and writes what is answered at this place. Its canonical text is in memory that goes from entry to
// entry.
fn answer(
    asked: (&[u8], Wanted),
    entry: Entry,
    out: &mut [u8],
    at: usize,
    room: &mut Vec<u8>,
) -> (Entry, u32)
    requires { at ≤ length out.old }
    ensures { IsTurn (IsWanted asked.entry.1) asked.entry.0.now at entry out.old result.0 out.new result.1 }
{
    let (texts, wanted) = asked;
    match canon_in(
        *room.allocator(),
        text_of(texts, entry),
        wanted.level(),
        room,
    ) {
        Ok(canonical) => {
            let answered = made(wanted, canonical.bytes(), entry, out, at);
            *room = canonical.into_bytes();
            room.clear();
            answered
        }
        Err(fault) => refused(fault, entry, at),
    }
}

fn text_of(texts: &[u8], entry: Entry) -> &[u8]
    ensures { result.now ≡ text_of texts.now entry }
{
    let rest = rest_of(texts, entry.begin);
    front_of(rest, entry.end.saturating_sub(entry.begin))
}

// Writes what is wanted of a canonical text.
fn made(wanted: Wanted, canonical: &[u8], entry: Entry, out: &mut [u8], at: usize) -> (Entry, u32)
    requires { at ≤ length out.old }
    ensures { IsMadeOf wanted canonical.now at entry out.old result.0 out.new result.1 }
{
    match wanted {
        Wanted::Canonical(_) => written(canonical, entry, out, at),
        Wanted::Digest(_) => written(&Sha256::digest(canonical), entry, out, at),
    }
}

#[tactic(auto, unfolding(crate::specs::inner::Turns::IsWritten, crate::specs::Buffers::IsGiven))]
fn written(bytes: &[u8], entry: Entry, out: &mut [u8], at: usize) -> (Entry, u32)
    requires { at ≤ length out.old }
    ensures { IsWritten bytes.now at entry out.old result.0 out.new result.1 }
{
    let (_, rest) = out.split_at_mut(at);
    let mut length = 0;
    let code = give(bytes, rest, &mut length);
    if code != OK {
        return (entry, code);
    }
    let entry = Entry {
        written_end: at + length,
        place: 0,
        number: 0,
        code: OK,
        ..entry
    };
    (entry, OK)
}

fn refused(fault: Fault, entry: Entry, at: usize) -> (Entry, u32)
    ensures { result ≡ refused_entry at (refusal_of fault) entry }
{
    match fault.refusal() {
        Some(refusal) => {
            let entry = Entry {
                written_end: at,
                place: refusal.place(),
                number: u32::from(refusal.number()),
                code: REFUSED,
                ..entry
            };
            (entry, OK)
        }
        None => (entry, NO_MEMORY),
    }
}
