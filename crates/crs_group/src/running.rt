//! Reads the lines of a source to its end, and writes their catalogue. Bytes are cut into lines piece by piece: a line
//! that is whole within a piece is read in place; the bytes of others are kept until their line feed comes.
ghost use Rattle.std.specs.Prelude.{◌≡◌, ◌≤◌, ◌+◌, ◌^◌, ◌<◌, ◌++◌, ◌∷◌, [], ℕ, List, IfErr, IfOk, IsFalse, IsTrue, OnOk, false, length};
ghost use Rattle.crs_group.specs.inner.GroupReading.{IsCutTo, IsCutFault, IsKept, IsLedgerFor, IsNextLine, IsNotKept, no_lines, IsLedgerWhole, IsReadInto, IsWritingFault, WritesLedger};
ghost use Rattle.crs_group.specs.GroupOutput.{IsGroupOutputBy};
ghost use Rattle.crs_group.specs.GroupRun.{IsGroupRun, IsReadingFault};
ghost use Rattle.crs_streams.specs.Streams.{fresh_sink, fresh_source};
ghost use Rattle.crs_streams.specs.Lines.{HasNoFeed};

use crate::group_text::listed_text;
use crate::ledger::{Adding, Ledger, Way};
use crate::listing::Listing;
use crate::summary::Summary;
use crs_streams::laws::lines_are_cut;
use crs_streams::{
    MAX_LINE, MAX_READS, RunFault, Sink, Source, append_bytes, make_room, split_line, text_of,
};
use crs_value::Level;
use std::alloc::{AllocError, Global};
use std::io::{Read, Write};
use std::marker::Model;

/// Adds the lines of a source in this way, and writes the groups of their catalogue that are listed and the refused lines.
pub fn run_adding<A: Adding + Drop, R: Read, W: Write>(
    alloc: Global,
    adding: A,
    listing: Listing,
    r: &mut Source<R>,
    w: &mut Sink<W>,
) -> Result<Summary, RunFault>
    requires source { r.old ≡ fresh_source r.old.remaining }
    requires sink { w.old ≡ fresh_sink w.old.contents }
    ensures { IsGroupRun (IsGroupOutputBy (A.Form adding) (A.Share adding) listing (A.level adding)) r.old r.new w.old w.new result }
{
    let named = listing.names;
    let ledger = read_ledger(alloc, &Way { adding, named }, r)?;
    write_listing(alloc, listing, &ledger, w)
}

fn read_ledger<A: Adding, R: Read>(
    alloc: Global,
    way: &Way<A>,
    source: &mut Source<R>,
) -> Result<Ledger, RunFault>
    requires { source.old ≡ fresh_source source.old.remaining }
    ensures ok { IfOk result (IsLedgerWhole (A.Form way.now.adding) (A.Share way.now.adding) way.now.named (A.level way.now.adding) source.old source.new) }
    ensures reads { source.new.reads ≤ 1048576 }
    ensures past_end { source.new.past_end ≡ false }
    ensures err { IfErr result (IsReadingFault source.old source.new) }
{
    lines_are_cut();
    let mut room = make_room(alloc).map_err(|_| RunFault::Memory)?;
    let mut cutter = Cutter::new(alloc, way.adding.level());
    read_into(way, &mut cutter, source, room.as_mut_slice())?;
    cutter.finish(way).map_err(|_| RunFault::Memory)
}

fn read_into<A: Adding, R: Read>(
    way: &Way<A>,
    cutter: &mut Cutter,
    source: &mut Source<R>,
    room: &mut [u8],
) -> Result<(), RunFault>
    requires source { source.old ≡ fresh_source source.old.remaining }
    requires cutter { IsCutTo (A.Form way.now.adding) (A.Share way.now.adding) way.now.named [] cutter.old }
    requires room { length room.old ≡ 65536 }
    ensures ok { OnOk result (IsReadInto (A.Form way.now.adding) (A.Share way.now.adding) way.now.named source.old source.new cutter.new) }
    ensures reads { source.new.reads ≤ 1048576 }
    ensures past_end { source.new.past_end ≡ false }
    ensures err { IfErr result (IsReadingFault source.old source.new) }
    ensures level { cutter.new.ledger.catalogue.level ≡ cutter.old.ledger.catalogue.level }
{
    lines_are_cut();
    for turn in 0..MAX_READS {
        let count = source.read(room).map_err(|_| RunFault::ReadFailed)?;
        if count == 0 {
            return Ok(());
        }
        cutter.take(way, &room[..count])?;
    }
    Err(RunFault::TooManyReads)
}

// Writes the groups of a ledger that are listed and its refused lines, and answers its summary.
fn write_listing<W: Write>(
    alloc: Global,
    listing: Listing,
    ledger: &Ledger,
    sink: &mut Sink<W>,
) -> Result<Summary, RunFault>
    requires { sink.old ≡ fresh_sink sink.old.contents }
    ensures ok { IfOk result (WritesLedger listing ledger.now sink.old sink.new) }
    ensures err { IfErr result (IsWritingFault sink.old sink.new) }
    ensures past_failure { sink.new.past_failure ≡ false }
{
    let text = listed_text(alloc, listing, ledger).map_err(|_| RunFault::Memory)?;
    if !text.is_empty() {
        sink.write_all(&text).map_err(|_| RunFault::WriteFailed)?;
    }
    Ok(ledger.summary())
}

#[derive(Drop)]
struct Cutter {
    ledger: Ledger,
    partial: Vec<u8>,
}

impl Model for Cutter {
    ghost use Rattle.crs_group.specs.inner.GroupReading.{CutterParts};

    ghost Value = { CutterParts };

    ghost view = { λ cutter. record { ledger = cutter.ledger; partial = cutter.partial.items } };
}

impl Cutter {
    fn new(alloc: Global, level: Level) -> Cutter
        ensures empty { result ≡ record { ledger = no_lines level; partial = [] } }
        ensures level { result.ledger.catalogue.level ≡ level }
    {
        let (ledger, partial) = (Ledger::new(alloc, level), Vec::new(alloc));
        Cutter { ledger, partial }
    }

    fn take<A: Adding>(&mut self, way: &Way<A>, piece: &[u8]) -> Result<(), RunFault>
        requires fits { self.old.ledger.lines + length piece.now + 1 < 2 ^ 64 }
        requires small { length piece.now ≤ 65536 }
        ensures cut { OnOk result ((bytes : List ℕ) →
            IsCutTo (A.Form way.now.adding) (A.Share way.now.adding) way.now.named bytes self.old →
            IsCutTo (A.Form way.now.adding) (A.Share way.now.adding) way.now.named (bytes ++ piece.now) self.new) }
        ensures fault { IfErr result (λ fault. (bytes : List ℕ) →
            IsCutTo (A.Form way.now.adding) (A.Share way.now.adding) way.now.named bytes self.old →
            IsCutFault (bytes ++ piece.now) fault) }
        ensures level { self.new.ledger.catalogue.level ≡ self.old.ledger.catalogue.level }
    {
        lines_are_cut();
        let mut rest = piece;
        while let Some((line, left)) = split_line(rest) {
            self.end_line(way, line)?;
            rest = left;
        }
        self.keep(rest)
    }

    // The ledger of all lines: what follows the last line feed is one, if it has a byte.
    fn finish<A: Adding>(self, way: &Way<A>) -> Result<Ledger, AllocError>
        requires { self.ledger.lines + 1 < 2 ^ 64 }
        ensures lines { IfOk result (λ ledger. (bytes : List ℕ) →
            IsCutTo (A.Form way.now.adding) (A.Share way.now.adding) way.now.named bytes self →
            IsLedgerFor (A.Form way.now.adding) (A.Share way.now.adding) way.now.named bytes ledger) }
        ensures level { IfOk result (λ ledger. ledger.catalogue.level ≡ self.ledger.catalogue.level) }
    {
        lines_are_cut();
        let mut ledger = self.ledger;
        if self.partial.is_empty() {
            return Ok(ledger);
        }
        ledger.add(way, &self.partial)?;
        Ok(ledger)
    }

    // The bytes before a line feed: after what was kept they complete a line.
    fn end_line<A: Adding>(&mut self, way: &Way<A>, line: &[u8]) -> Result<(), RunFault>
        requires one { HasNoFeed line.now }
        requires fits { self.old.ledger.lines + 1 < 2 ^ 64 }
        ensures cut { OnOk result ((bytes : List ℕ) →
            IsCutTo (A.Form way.now.adding) (A.Share way.now.adding) way.now.named bytes self.old →
            IsCutTo (A.Form way.now.adding) (A.Share way.now.adding) way.now.named (bytes ++ (line.now ++ 10 ∷ [])) self.new) }
        ensures fault { IfErr result (λ fault. (bytes rest : List ℕ) → length line.now + length rest ≤ 65536 →
            IsCutTo (A.Form way.now.adding) (A.Share way.now.adding) way.now.named bytes self.old →
            IsCutFault (bytes ++ (line.now ++ rest)) fault) }
        ensures lines { OnOk result (self.new.ledger.lines ≡ self.old.ledger.lines + 1) }
        ensures level { self.new.ledger.catalogue.level ≡ self.old.ledger.catalogue.level }
    {
        lines_are_cut();
        if self.is_over(line) {
            return Err(RunFault::TooLong(self.ledger.lines() + 1));
        }
        if self.partial.is_empty() {
            return add_line(&mut self.ledger, way, line);
        }
        append_bytes(&mut self.partial, line)?;
        add_line(&mut self.ledger, way, &self.partial)?;
        self.partial.clear();
        Ok(())
    }

    // The bytes after the last line feed of a piece.
    fn keep(&mut self, bytes: &[u8]) -> Result<(), RunFault>
        requires { self.old.ledger.lines + 1 < 2 ^ 64 }
        ensures kept { OnOk result (IsKept bytes.now self.old self.new) }
        ensures fault { IfErr result (IsNotKept bytes.now self.old) }
        ensures level { self.new.ledger.catalogue.level ≡ self.old.ledger.catalogue.level }
    {
        if self.is_over(bytes) {
            return Err(RunFault::TooLong(self.ledger.lines() + 1));
        }
        append_bytes(&mut self.partial, bytes)
    }

    // Whether the line is too long with these bytes.
    fn is_over(&self, bytes: &[u8]) -> bool
        ensures over { IsTrue result → 1048576 < length self.now.partial + length bytes.now }
        ensures fits { IsFalse result → length self.now.partial + length bytes.now ≤ 1048576 }
    {
        self.partial.len() + bytes.len() > MAX_LINE
    }
}

fn add_line<A: Adding>(ledger: &mut Ledger, way: &Way<A>, line: &[u8]) -> Result<(), RunFault>
    requires { ledger.old.lines + 1 < 2 ^ 64 }
    ensures added { OnOk result (IsNextLine (A.Form way.now.adding) (A.Share way.now.adding) way.now.named line.now ledger.old ledger.new) }
    ensures fault { IfErr result (λ fault. fault ≡ RunFault.Memory) }
    ensures lines { OnOk result (ledger.new.lines ≡ ledger.old.lines + 1) }
    ensures level { ledger.new.catalogue.level ≡ ledger.old.catalogue.level }
{
    ledger.add(way, text_of(line)).map_err(|_| RunFault::Memory)
}
