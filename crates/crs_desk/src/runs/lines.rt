//! Runs over lines: each line of a stream is a text, and what a command writes for it goes into a sink. A line that is
//! whole within a piece of the stream is read in place; the bytes of others are kept until their line feed comes.
ghost use Rattle.std.specs.Prelude.{◌≡◌, ◌≤◌, ◌^◌, ◌↔◌, [], IfErr, IfOk, IsErrOf, OnOk, false, length, true, ◌+◌, ◌<◌};
ghost use Rattle.std.specs.Prelude.{◌++◌, ◌∷◌, ℕ, List, IsFalse, IsTrue};
ghost use Rattle.crs_streams.specs.Streams.{fresh_source, SinkState};
ghost use Rattle.crs_desk.specs.inner.LineCutting.{IsHealthy, IsReadThrough, IsCut, IsEmptied, IsFlushed, IsKept, IsLinesCut};
ghost use Rattle.crs_desk.specs.inner.LineCutting.{IsNotKept, IsPut, IsPutOut, IsStopped, IsWrittenOut, PutsLine};
ghost use Rattle.crs_desk.specs.LinesRun.{IsLinesAnswered, IsLinesFault};
ghost use Rattle.crs_streams.specs.Lines.{HasNoFeed};

use crate::{RunFault, Sink, Stream, TextCommand};
use crs_streams::laws::lines_are_cut;
use crs_streams::{MAX_LINE, MAX_STREAM_READS, append_bytes, make_room, split_line, text_of};
use std::alloc::Global;
use std::io::{Read, Write};
use std::marker::Model;

/// Reads lines of texts to the end, and writes for each in its turn what a command writes for its text: `OfLine` of
/// `CanonText` or of `CheckText` what `run_canon` or `run_check` writes for it by itself; without `OfLine` a blank line
/// is refused as a text. The status is the greatest of all. What is written for the lines that a read has ended is
/// passed to the sink before the next read (no clause says so; rows with `input-in-turn` try it), and earlier if it
/// fills 65,536 bytes, so that memory is bounded by the longest line. `ReadFailed`, `WriteFailed`: the stream or the
/// sink has failed. `TooLong(n)`: line `n` has more than 1,048,576 bytes before its line feed. `TooManyReads`: 2^47
/// reads have not shown the end. `Memory`: memory ran out. At a fault all whole lines that were read have their
/// answers, at `TooLong` all before the long one; out of memory any number of them, the first; at `WriteFailed` the
/// sink got a front of such answers.
pub fn run_lines<C: TextCommand, R: Read, W: Write>(
    alloc: Global,
    command: &C,
    source: &mut Stream<R>,
    sink: &mut Sink<W>,
) -> Result<u8, RunFault>
    requires source { source.old ≡ fresh_source source.old.remaining }
    requires sink { (sink.old.failed ≡ false) × (sink.old.past_failure ≡ false) }
    ensures answered { IfOk result (IsLinesAnswered (C.Output command.now) source.old source.new sink.old sink.new) }
    ensures past_end { source.new.past_end ≡ false }
    ensures fault { IfErr result (IsLinesFault (C.Output command.now) source.old source.new sink.old sink.new) }
    ensures read_failed { IsErrOf result RunFault.ReadFailed ↔ (source.new.failed ≡ true) }
    ensures write_failed { IsErrOf result RunFault.WriteFailed ↔ (sink.new.failed ≡ true) }
    ensures past_failure { sink.new.past_failure ≡ false }
{
    lines_are_cut();
    let mut room = make_room(alloc).map_err(|_| RunFault::Memory)?;
    let mut cutter = LineCutter::new(alloc);
    let room = room.as_mut_slice();
    read_through(command, &mut cutter, source, room, sink)?;
    cutter.finish(command, sink)
}

fn read_through<C: TextCommand, R: Read, W: Write>(
    command: &C,
    cutter: &mut LineCutter,
    source: &mut Stream<R>,
    room: &mut [u8],
    sink: &mut Sink<W>,
) -> Result<(), RunFault>
    requires source { source.old ≡ fresh_source source.old.remaining }
    requires sink { IsHealthy sink.old }
    requires cutter { cutter.old ≡ record { writer = record { out = []; status = 0 }; partial = []; lines = 0 } }
    requires room { length room.old ≡ 65536 }
    ensures ok { OnOk result (IsReadThrough (C.Output command.now) source.old source.new sink.old cutter.new sink.new) }
    ensures past_end { source.new.past_end ≡ false }
    ensures err { IfErr result (IsLinesFault (C.Output command.now) source.old source.new sink.old sink.new) }
    ensures past_failure { sink.new.past_failure ≡ false }
{
    lines_are_cut();
    for turn in 0..MAX_STREAM_READS {
        let count = source.read(room).map_err(|_| RunFault::ReadFailed)?;
        if count == 0 {
            return Ok(());
        }
        cutter.take(command, &room[..count], sink)?;
    }
    Err(RunFault::TooManyReads)
}

// The least number of bytes that are sent in one write, but for the last.
const BLOCK: usize = 65_536;

// The output of lines, kept until it fills a block.
#[derive(Drop)]
struct LineWriter {
    out: Vec<u8>,
    status: u8,
}

impl Model for LineWriter {
    ghost use Rattle.crs_desk.specs.inner.LineCutting.{WriterParts};

    ghost Value = { WriterParts };

    ghost view = { λ writer. record { out = writer.out.items; status = writer.status } };
}

impl LineWriter {
    fn put<C: TextCommand>(&mut self, command: &C, text: &[u8]) -> Result<(), RunFault>
        ensures put { OnOk result (IsPut (C.Output command.now) text.now self.old self.new) }
        ensures fault { IfErr result (λ fault. fault ≡ RunFault.Memory) }
    {
        let alloc = *self.out.allocator();
        let (line, status) = command.output(alloc, text).map_err(|_| RunFault::Memory)?;
        append_bytes(&mut self.out, &line)?;
        self.status = self.status.max(status);
        Ok(())
    }

    // Sends what is kept where it fills a block.
    fn send_block<W: Write>(&mut self, sink: &mut Sink<W>) -> Result<(), RunFault>
        ensures sent { OnOk result (IsFlushed self.old self.new sink.old sink.new) }
        ensures cut { IfErr result (IsCut self.old sink.old sink.new) }
    {
        if self.out.len() < BLOCK {
            return Ok(());
        }
        self.send(sink)
    }

    fn send<W: Write>(&mut self, sink: &mut Sink<W>) -> Result<(), RunFault>
        ensures sent { OnOk result (IsEmptied self.old self.new sink.old sink.new) }
        ensures cut { IfErr result (IsCut self.old sink.old sink.new) }
    {
        sink.write_all(&self.out)
            .map_err(|_| RunFault::WriteFailed)?;
        self.out.clear();
        Ok(())
    }
}

#[derive(Drop)]
struct LineCutter {
    writer: LineWriter,
    partial: Vec<u8>,
    lines: u64,
}

impl Model for LineCutter {
    ghost use Rattle.crs_desk.specs.inner.LineCutting.{CutterParts};

    ghost Value = { CutterParts };

    ghost view = { λ cutter. record { writer = cutter.writer; partial = cutter.partial.items; lines = cutter.lines } };
}

impl LineCutter {
    fn new(alloc: Global) -> LineCutter
        ensures { result ≡ record { writer = record { out = []; status = 0 }; partial = []; lines = 0 } }
    {
        let (out, status) = (Vec::new(alloc), 0);
        let writer = LineWriter { out, status };
        LineCutter {
            writer,
            partial: Vec::new(alloc),
            lines: 0,
        }
    }

    // The next piece of the bytes. What is written for the lines that it ends is sent.
    fn take<C: TextCommand, W: Write>(
        &mut self,
        command: &C,
        piece: &[u8],
        sink: &mut Sink<W>,
    ) -> Result<(), RunFault>
        requires fits { self.old.lines + length piece.now + 1 < 2 ^ 64 }
        requires small { length piece.now ≤ 65536 }
        ensures cut { OnOk result ((before : SinkState) (bytes : List ℕ) →
            IsLinesCut (C.Output command.now) before bytes self.old sink.old →
            IsLinesCut (C.Output command.now) before (bytes ++ piece.now) self.new sink.new) }
        ensures fault { IfErr result (λ fault. (before : SinkState) (bytes : List ℕ) →
            IsLinesCut (C.Output command.now) before bytes self.old sink.old →
            IsStopped (C.Output command.now) false before (bytes ++ piece.now) sink.new fault) }
        ensures sent { OnOk result (self.new.writer.out ≡ []) }
    {
        lines_are_cut();
        let mut rest = piece;
        while let Some((line, left)) = split_line(rest) {
            self.end_line(command, line, sink)?;
            rest = left;
        }
        self.writer.send(sink)?;
        self.keep(rest)
    }

    // The status of all lines: what follows the last line feed is one, if it has a byte.
    fn finish<C: TextCommand, W: Write>(
        &mut self,
        command: &C,
        sink: &mut Sink<W>,
    ) -> Result<u8, RunFault>
        ensures written { IfOk result (λ status. (before : SinkState) (bytes : List ℕ) →
            IsLinesCut (C.Output command.now) before bytes self.old sink.old →
            IsWrittenOut (C.Output command.now) before bytes sink.new status) }
        ensures fault { IfErr result (λ fault. (before : SinkState) (bytes : List ℕ) →
            IsLinesCut (C.Output command.now) before bytes self.old sink.old →
            IsStopped (C.Output command.now) true before bytes sink.new fault) }
    {
        self.end_last(command)?;
        self.writer.send(sink)?;
        Ok(self.writer.status)
    }

    // The bytes before a line feed: after what was kept they complete a line.
    fn end_line<C: TextCommand, W: Write>(
        &mut self,
        command: &C,
        line: &[u8],
        sink: &mut Sink<W>,
    ) -> Result<(), RunFault>
        requires one { HasNoFeed line.now }
        requires fits { self.old.lines + 1 < 2 ^ 64 }
        ensures cut { OnOk result ((before : SinkState) (bytes : List ℕ) →
            IsLinesCut (C.Output command.now) before bytes self.old sink.old →
            IsLinesCut (C.Output command.now) before (bytes ++ (line.now ++ 10 ∷ [])) self.new sink.new) }
        ensures fault { IfErr result (λ fault. (before : SinkState) (bytes rest : List ℕ) →
            length line.now + length (10 ∷ rest) ≤ 65536 →
            IsLinesCut (C.Output command.now) before bytes self.old sink.old →
            IsStopped (C.Output command.now) false before (bytes ++ (line.now ++ 10 ∷ rest)) sink.new fault) }
        ensures lines { OnOk result (self.new.lines ≡ self.old.lines + 1) }
    {
        lines_are_cut();
        if self.is_over(line) {
            // What is written for the lines before it is sent first.
            self.writer.send(sink)?;
            return Err(RunFault::TooLong(self.lines + 1));
        }
        self.put_line(command, line)?;
        self.lines += 1;
        self.writer.send_block(sink)
    }

    // What is written for the line that ends with these bytes.
    fn put_line<C: TextCommand>(&mut self, command: &C, line: &[u8]) -> Result<(), RunFault>
        ensures put { OnOk result (PutsLine (C.Output command.now) line.now self.old self.new) }
        ensures fault { IfErr result (λ fault. fault ≡ RunFault.Memory) }
    {
        if self.partial.is_empty() {
            return self.writer.put(command, text_of(line));
        }
        append_bytes(&mut self.partial, line)?;
        self.writer.put(command, text_of(&self.partial))?;
        self.partial.clear();
        Ok(())
    }

    // The bytes after the last line feed of a piece.
    fn keep(&mut self, bytes: &[u8]) -> Result<(), RunFault>
        requires { self.old.lines + 1 < 2 ^ 64 }
        ensures kept { OnOk result (IsKept bytes.now self.old self.new) }
        ensures fault { IfErr result (IsNotKept bytes.now self.old) }
    {
        if self.is_over(bytes) {
            return Err(RunFault::TooLong(self.lines + 1));
        }
        append_bytes(&mut self.partial, bytes)
    }

    // What is written for the line that has no line feed, if it has a byte.
    fn end_last<C: TextCommand>(&mut self, command: &C) -> Result<(), RunFault>
        ensures put { OnOk result ((before after : SinkState) (bytes : List ℕ) →
            IsLinesCut (C.Output command.now) before bytes self.old after →
            IsPutOut (C.Output command.now) true before bytes self.new.writer after) }
        ensures fault { IfErr result (λ fault. fault ≡ RunFault.Memory) }
    {
        lines_are_cut();
        if self.partial.is_empty() {
            return Ok(());
        }
        self.writer.put(command, &self.partial)
    }

    // Whether the line is too long with these bytes.
    fn is_over(&self, bytes: &[u8]) -> bool
        ensures over { IsTrue result → 1048576 < length self.now.partial + length bytes.now }
        ensures fits { IsFalse result → length self.now.partial + length bytes.now ≤ 1048576 }
    {
        self.partial.len() + bytes.len() > MAX_LINE
    }
}
