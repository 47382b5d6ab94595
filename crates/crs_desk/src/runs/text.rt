//! What a text spells, and the runs over one text that write a line for it: its canonical text, its kind, or its refusal.
ghost use Rattle.std.specs.Prelude.{◌≡◌, IfOk, OnOk, ◌++◌, ◌∷◌, [], codes, ℕ, List, MatchResult, Some};
ghost use Rattle.crs_desk.specs.Ending.{IsRun};
ghost use Rattle.crs_desk.specs.Output.{IsCanonOutput, IsCheckOutput, kind_told, kind_word, refusal_told, which_told};
ghost use Rattle.crs_desk.specs.inner.Found.{WritesFound};
ghost use Rattle.crs_desk.specs.declared.runs.manner.Manner.TheVariants as manner;
ghost use Rattle.crs_streams.specs.Streams.{fresh_sink, fresh_source};
ghost use Rattle.crs_text.specs.Refusal.{refused_text};
ghost use Rattle.crs_text.specs.Fault.{refusal_of};
ghost use Rattle.crs_value.specs.Spells.{IsFaultOfText, SpellsKind, Refuses};
ghost use Rattle.crs_desk.specs.inner.Pieces.{IsWholeHeld};
ghost use Rattle.crs_writer.specs.Canonical.{IsCanonicalOf};

use crate::runs::answer::{Answer, ForText, TextCommand, write_answer};
use crate::runs::reading::{read_pieces, read_text};
use crate::{Level, Manner, RunFault, Sink, Source};
use crs_streams::json::{append_number_member, append_text_member};
use crs_streams::{append_number, append_refusal};
use crs_text::{Fault, Feeder, Refusal, laws, read_items};
use crs_value::{Kind, kind_of};
use crs_writer::{Canon, canon_in};
use std::alloc::{AllocError, Global};
use std::io::{Read, Write};

/// Reads a text to its end, and writes a line: the canonical text at a level of a text that spells a CRS, with status
/// 0, else the refusal, with status 1. The faults are the same as for `run_text`.
pub fn run_canon<R: Read, W: Write>(
    alloc: Global,
    level: Level,
    r: &mut Source<R>,
    w: &mut Sink<W>,
) -> Result<u8, RunFault>
    requires source { r.old ≡ fresh_source r.old.remaining }
    requires sink { w.old ≡ fresh_sink w.old.contents }
    ensures { IsRun (IsCanonOutput level) r.old r.new w.old w.new result }
{
    run_text(alloc, CanonText { level }, r, w)
}

/// Reads a text to its end, and writes what a command returns for it. `ReadFailed`, `WriteFailed`: the source or the
/// sink has failed. `TooLong(0)`: it has more than 1,048,576 bytes. `TooManyReads`: 1,048,576 reads have not shown the
/// end. `Memory`: memory ran out. Every fault except `WriteFailed` leaves the sink untouched.
pub fn run_text<C: TextCommand + Drop, R: Read, W: Write>(
    alloc: Global,
    command: C,
    r: &mut Source<R>,
    w: &mut Sink<W>,
) -> Result<u8, RunFault>
    requires source { r.old ≡ fresh_source r.old.remaining }
    requires sink { w.old ≡ fresh_sink w.old.contents }
    ensures { IsRun (C.Output command) r.old r.new w.old w.new result }
{
    let bytes = read_text(alloc, r)?;
    let text = bytes.as_slice();
    write_answer(alloc, &ForText { command, text }, w)
}

/// `canon`, at this level.
#[derive(Clone, Copy)]
pub struct CanonText {
    /// The level.
    pub level: Level,
}

impl TextCommand for CanonText {
    ghost use Rattle.crs_desk.specs.Output.{IsCanonOutput};

    ghost Output = { λ s text written status. IsCanonOutput s.level text written status };

    fn output(&self, alloc: Global, text: &[u8]) -> Result<(Vec<u8>, u8), AllocError> {
        match canonical(alloc, text, self.level) {
            Ok(canon) => Ok((line_of(canon.into_bytes())?, 0)),
            Err(fault) => Ok((refused_line(alloc, b"", refusal_in(fault)?)?, 1)),
        }
    }
}

// The canonical text of a text, in memory that has room for more.
fn canonical(alloc: Global, text: &[u8], level: Level) -> Result<Canon, Fault>
    ensures answer { MatchResult result (λ canon. IsCanonicalOf level text.now canon.bytes) (IsFaultOfText text.now) }
    ensures level { IfOk result (λ canon. canon.level ≡ level) }
{
    let mut room = Vec::new(alloc);
    canon_in(alloc, text, level, &mut room)
}

/// Reads a text to its end, and writes a line: `accepted KIND` for a text that spells a CRS, with status 0, else the
/// refusal, with status 1. The faults are the same as for `run_text`.
pub fn run_check<R: Read, W: Write>(
    alloc: Global,
    r: &mut Source<R>,
    w: &mut Sink<W>,
) -> Result<u8, RunFault>
    requires source { r.old ≡ fresh_source r.old.remaining }
    requires sink { w.old ≡ fresh_sink w.old.contents }
    ensures { IsRun (IsCheckOutput manner.Lines) r.old r.new w.old w.new result }
{
    let feeder = read_pieces(alloc, r)?;
    let found = judged(&feeder).map_err(|_| RunFault::Memory)?;
    write_answer(alloc, &found, w)
}

impl Answer for Result<Kind, Refusal> {
    ghost use Rattle.crs_desk.specs.inner.Found.{WritesFound};
    ghost use Rattle.crs_desk.specs.declared.runs.manner.Manner.TheVariants.{Lines};

    ghost Output = { λ s written status. WritesFound Lines s written status };

    fn output(&self, alloc: Global) -> Result<(Vec<u8>, u8), AllocError> {
        found_output(alloc, Manner::Lines, *self)
    }
}

/// `check`.
#[derive(Clone, Copy)]
pub struct CheckText {
    /// In a line, or as an object in one.
    pub how: Manner,
}

impl TextCommand for CheckText {
    ghost use Rattle.crs_desk.specs.Output.{IsCheckOutput};

    ghost Output = { λ s text written status. IsCheckOutput s.how text written status };

    fn output(&self, alloc: Global, text: &[u8]) -> Result<(Vec<u8>, u8), AllocError> {
        let found = kind_of_text(alloc, text)?;
        found_output(alloc, self.how, found)
    }
}

// The line of a kind or of a refusal, and the status.
fn found_output(
    alloc: Global,
    how: Manner,
    found: Result<Kind, Refusal>,
) -> Result<(Vec<u8>, u8), AllocError>
    ensures { IfOk result (λ output. WritesFound how found output.0.items output.1) }
{
    match found {
        Ok(kind) => Ok((kind_line(alloc, how, kind)?, 0)),
        Err(refusal) => Ok((refusal_line(alloc, how, b"", refusal)?, 1)),
    }
}

// `accepted KIND` or `{"accepted":"KIND"}`, and a line end.
pub(crate) fn kind_line(alloc: Global, how: Manner, kind: Kind) -> Result<Vec<u8>, AllocError>
    ensures { IfOk result (λ line. line.items ≡ kind_told how kind ++ 10 ∷ []) }
{
    match how {
        Manner::Lines => accepted_line(alloc, kind),
        Manner::Objects => {
            let mut line = Vec::from_slice(alloc, b"{\"accepted\":\"")?;
            line.extend_from_slice(kind_word(kind).as_bytes())?;
            line.extend_from_slice(b"\"}\n")?;
            Ok(line)
        }
    }
}

/// A refusal after the bytes that say which text it is, or an object with it, and a line end. `AllocError`: memory ran out.
pub fn refusal_line(
    alloc: Global,
    how: Manner,
    which: &[u8],
    refusal: Refusal,
) -> Result<Vec<u8>, AllocError>
    ensures { IfOk result (λ line. line.items ≡ refusal_told how which.now refusal ++ 10 ∷ []) }
{
    match how {
        Manner::Lines => refused_line(alloc, which, refusal),
        Manner::Objects => refusal_object(alloc, which, refusal),
    }
}

fn refusal_object(alloc: Global, which: &[u8], refusal: Refusal) -> Result<Vec<u8>, AllocError>
    ensures { IfOk result (λ line. line.items ≡ refusal_told manner.Objects which.now refusal ++ 10 ∷ []) }
{
    let mut line = Vec::from_slice(alloc, b"{")?;
    append_which(which, &mut line)?;
    line.extend_from_slice(b"\"refused\":")?;
    append_number(usize::from(refusal.number()), &mut line)?;
    append_text_member(b"name", refusal.name().as_bytes(), &mut line)?;
    append_number_member(b"place", refusal.place(), &mut line)?;
    line.extend_from_slice(b"}\n")?;
    Ok(line)
}

// `"text":"first",`, or nothing where there is one text.
fn append_which(which: &[u8], out: &mut Vec<u8>) -> Result<(), AllocError>
    ensures { OnOk result (out.new.items ≡ out.old.items ++ which_told which.now) }
{
    if which.is_empty() {
        return Ok(());
    }
    out.extend_from_slice(b"\"text\":\"")?;
    out.extend_from_slice(&which[..which.len() - 1])?;
    out.extend_from_slice(b"\",")
}

/// `accepted KIND` and a line end. `AllocError`: memory ran out.
pub fn accepted_line(alloc: Global, kind: Kind) -> Result<Vec<u8>, AllocError>
    ensures { IfOk result (λ line. line.items ≡ (codes "accepted " ++ kind_word kind) ++ 10 ∷ []) }
{
    let mut line = Vec::from_slice(alloc, b"accepted ")?;
    line.extend_from_slice(kind_word(kind).as_bytes())?;
    line.push(b'\n')?;
    Ok(line)
}

/// The word for a kind of CRS.
pub fn kind_word(kind: Kind) -> &'static str
    ensures { result.now ≡ kind_word kind }
{
    match kind {
        Kind::Geodetic => "geodetic",
        Kind::Geographic => "geographic",
        Kind::Projected => "projected",
        Kind::Vertical => "vertical",
        Kind::Compound => "compound",
    }
}

/// `refused N NAME at P` after these bytes, and a line end. `AllocError`: memory ran out.
pub fn refused_line(alloc: Global, front: &[u8], refusal: Refusal) -> Result<Vec<u8>, AllocError>
    ensures { IfOk result (λ line. line.items ≡ (front.now ++ refused_text refusal.number refusal.place) ++ 10 ∷ []) }
{
    let mut line = Vec::from_slice(alloc, front)?;
    append_refusal(&mut line, refusal)?;
    line.extend_from_slice(b"\n")?;
    Ok(line)
}

/// These bytes and a line end, in their own memory if that has room. `AllocError`: memory ran out.
pub fn line_of(mut bytes: Vec<u8>) -> Result<Vec<u8>, AllocError>
    ensures { IfOk result (λ line. line.items ≡ bytes.items ++ 10 ∷ []) }
{
    bytes.push(b'\n')?;
    Ok(bytes)
}

// The kind of the CRS that a text spells, or the refusal, by a feeder that holds the text or enough to refuse it.
fn judged(feeder: &Feeder) -> Result<Result<Kind, Refusal>, AllocError>
    ensures { IfOk result (λ found. (text : List ℕ) → IsWholeHeld text feeder.now →
        MatchResult found (SpellsKind text) (Refuses text)) }
{
    laws::one_answer();
    laws::settled_refusals();
    match feeder.finish() {
        Ok(items) => Ok(kind_of(&items)),
        Err(fault) => Ok(Err(refusal_in(fault)?)),
    }
}

/// The kind of the CRS that a text spells, or the refusal. `AllocError`: memory ran out.
pub fn kind_of_text(alloc: Global, text: &[u8]) -> Result<Result<Kind, Refusal>, AllocError>
    ensures { IfOk result (λ found. MatchResult found (SpellsKind text.now) (Refuses text.now)) }
{
    match read_items(alloc, text) {
        Ok(items) => Ok(kind_of(&items)),
        Err(fault) => Ok(Err(refusal_in(fault)?)),
    }
}

/// The refusal in a fault, which is the text's. `AllocError`: the fault is out of memory.
#[tactic(auto, using(crate::proofs::JudgedLemmas::refuses_text))]
pub fn refusal_in(fault: Fault) -> Result<Refusal, AllocError>
    ensures answer { IfOk result (λ refusal. Some refusal ≡ refusal_of fault) }
    ensures refuses { (text : List ℕ) → IsFaultOfText text fault → IfOk result (Refuses text) }
{
    fault.refusal().ok_or(AllocError)
}
