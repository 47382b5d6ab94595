//! Command lines, runs of commands over texts, and what is put of them.
use self::Outcome::{Groups, Status};
use crate::answer::Answer;
use crate::row::Row;
use crate::streams::{Page, Pieces, Transfer};
use crs_desk::{
    CanonText, CheckText, Filling, LineWord, Manner, OfLine, Request, RequestFault, Stream,
    run_canon, run_check, run_lines, run_same,
};
use crs_group::{RunFault, Sink, Source, Summary, run_group};
use crs_value::Level;
use std::alloc::{AllocError, Global};
use std::io;
use std::io::Read;

/// A run of a command over its text or texts, in a transfer.
#[derive(Clone, Copy)]
pub struct Run<'t> {
    command: &'t str,
    // the second is that of `run_same`
    texts: [&'t [u8]; 2],
    level: Level,
    pub transfer: Transfer,
}

/// What a command returns beside what it writes.
#[derive(Clone, Copy)]
pub enum Outcome {
    /// Its status.
    Status(u8),
    /// What a catalogue has come to.
    Groups(Summary),
}

/// What a run did.
#[derive(Drop)]
pub struct Done {
    pub outcome: Result<Outcome, RunFault>,
    // how often it has read
    reads: u64,
    source_failed: bool,
    sink_failed: bool,
}

impl<'t> Run<'t> {
    /// The run that the first word names, in the transfer of the others, over the parts of a row; None for other words.
    pub fn of(words: &'t str, row: &'t Row<'_>) -> Option<Run<'t>> {
        let (command, transfer) = words.split_once(' ').unwrap_or((words, ""));
        if !command.starts_with("run_") {
            return None;
        }
        let texts = if command == "run_same" {
            [row.part(0), row.part(1)]
        } else {
            [row.text(), &[]]
        };
        let (level, transfer) = (row.level, Transfer::read(transfer)?);
        Some(Run {
            command,
            texts,
            level,
            transfer,
        })
    }

    /// Whether each line has its own answer.
    pub fn is_by_line(self) -> bool {
        self.command.ends_with("_lines")
    }

    /// Runs the command onto a page, which has what is written; a text that it reads is read in the run's transfer.
    pub fn fill(self, alloc: Global, page: &mut Page) -> Done {
        let level = self.level;
        let [text, second] = self.texts;
        let mut source = Source::new(Pieces::new(text, self.transfer));
        let mut stream = Stream::new(Pieces::new(text, self.transfer));
        let mut sink = Sink::new(page);
        let outcome = match self.command {
            "run_canon" => run_canon(alloc, level, &mut source, &mut sink).map(Status),
            "run_canon_lines" => {
                let (command, blank) = (CanonText { level }, b"".as_slice());
                run_lines(alloc, &OfLine { command, blank }, &mut stream, &mut sink).map(Status)
            }
            "run_check" => run_check(alloc, &mut source, &mut sink).map(Status),
            "run_check_lines" => {
                let how = Manner::Lines;
                let (command, blank) = (CheckText { how }, b"".as_slice());
                run_lines(alloc, &OfLine { command, blank }, &mut stream, &mut sink).map(Status)
            }
            "run_group" => run_group(alloc, level, &mut source, &mut sink).map(Groups),
            _ => run_same(alloc, level, text, second, &mut sink).map(Status),
        };
        Done {
            outcome,
            reads: u64::from(source.reads()).saturating_add(stream.reads()),
            source_failed: source.failed() || stream.failed(),
            sink_failed: sink.failed(),
        }
    }
}

/// How a run ended.
pub fn put_outcome(out: &mut Answer, outcome: &Result<Outcome, RunFault>) {
    match outcome {
        Ok(Status(status)) => write!(out, "status {status}"),
        Ok(Groups(counts)) => {
            write!(out, "lines {}, blank {}, ", counts.lines, counts.blank);
            write!(out, "refused {}, groups {}", counts.refused, counts.groups);
        }
        Err(RunFault::Memory) => out.note(Err(AllocError)),
        Err(fault) => write!(out, "fault {fault}"),
    }
}

/// What the run that a row's words name did; `no such call` if they name none.
pub fn put_run(out: &mut Answer, row: &Row<'_>) {
    let Some(run) = Run::of(row.call, row) else {
        return out.put("no such call");
    };
    let mut page = Page::new(out.alloc(), run.transfer);
    let done = run.fill(out.alloc(), &mut page);
    put_done(out, &done, &page.written);
}

// What a run did: how it ended, the count of its reads, which of source and sink has failed, and what it wrote.
fn put_done(out: &mut Answer, done: &Done, written: &[u8]) {
    put_outcome(out, &done.outcome);
    write!(out, ", reads {}", done.reads);
    if done.source_failed {
        out.put(", source failed");
    }
    if done.sink_failed {
        out.put(", sink failed");
    }
    put_written(out, written);
}

/// `, written` and what was written, or that nothing was.
pub fn put_written(out: &mut Answer, written: &[u8]) {
    if written.is_empty() {
        out.put(", nothing written");
    } else {
        out.put_after(", written ", written);
    }
}

/// What a reader that fills its room, of 8 bytes, gives of an input that is read in the transfer of the words, up to its
/// end or its eighth read: the bytes of each read in brackets, `failure` for one that failed.
pub fn put_filled(out: &mut Answer, words: &str, input: &[u8]) {
    let Some(transfer) = Transfer::read(words) else {
        return out.put("no such reader");
    };
    let mut reader = Filling::new(Pieces::new(input, transfer));
    let mut room = [0; 8];
    for _turn in 0..8 {
        match reader.read(&mut room) {
            Ok(0) => return out.put("end"),
            Ok(count) => {
                out.put_after("[", &room[..count]);
                out.put("], ");
            }
            Err(_) => out.put("failure, "),
        }
    }
    out.put("no end");
}

/// What a source gives of a text in one read of 8 bytes, as a sink passes it on.
pub fn put_handed(out: &mut Answer, input: &[u8]) {
    let mut written = Vec::new(out.alloc());
    let mut source: Source<&[u8]> = Source::new(input);
    let mut sink = Sink::new(&mut written);
    let mut room = [0u8; 8];
    let read: io::Result<usize> = source.read(room.as_mut_slice());
    let wrote: io::Result<()> = sink.write_all(room.get(..read.unwrap_or(0)).unwrap_or(&[]));
    let (reads, failed): (u32, bool) = (source.reads(), source.failed() || sink.failed());
    if wrote.is_ok() && !failed {
        write!(out, "reads {reads}");
        put_written(out, &written);
    }
}

/// Runs a command with its first read failing, then its second, and so on, or its writes. A run whose read fails must
/// end with `ReadFailed` and nothing written, or the first whole lines if each line has its own answer; one whose write
/// fails with `WriteFailed` and a front of the answer, longer each time. How many did, and what the next one did.
pub fn put_failed(out: &mut Answer, words: &str, row: &Row<'_>, what: &str) {
    let Some(mut run) = Run::of(words, row) else {
        return out.put("no such call");
    };
    let mut whole = Page::new(out.alloc(), run.transfer);
    let _done = run.fill(out.alloc(), &mut whole);
    let mut least: usize = 0;
    // No row reads or writes more often.
    for nth in 1..10_000 {
        if what == "reads" {
            run.transfer.fails_at = nth;
        } else {
            run.transfer.stops_at = nth;
        }
        let mut page = Page::new(out.alloc(), run.transfer);
        let done = run.fill(out.alloc(), &mut page);
        let written = page.written.as_slice();
        let is_front = whole.written.starts_with(written);
        let is_left = written.is_empty()
            || run.is_by_line() && written.ends_with(b"\n") && is_front;
        let is_failed = match (what, &done.outcome) {
            ("reads", Err(RunFault::ReadFailed)) => {
                is_left && done.reads == nth as u64 && done.source_failed && !done.sink_failed
            }
            ("writes", Err(RunFault::WriteFailed)) => {
                done.sink_failed && written.len() >= least && is_front
            }
            _ => false,
        };
        if !is_failed {
            let count = nth - 1;
            write!(out, "{count} {what} failed in turn; then ");
            return put_done(out, &done, written);
        }
        least = written.len().saturating_add(1);
    }
    out.put("no end");
}

/// The command, and its words in brackets, the level first; if the line is wrong, the message for the user.
pub fn put_request(out: &mut Answer, asked: &Result<Request, RequestFault>) {
    match asked {
        Ok(Request::Canon(level)) => put_command(out, "canon", &[level]),
        Ok(Request::Check) => out.put("check"),
        Ok(Request::Same(first, second, level)) => {
            put_command(out, "same", &[level, first, second])
        }
        Ok(Request::Group(level)) => put_command(out, "group", &[level]),
        Ok(_) => out.put("another command"),
        Err(RequestFault::Line(error)) => {
            let error: &clap::Error = error;
            write!(out, "message {error}");
        }
        Err(RequestFault::Memory(error)) => out.note(Err(*error)),
    }
}

fn put_command(out: &mut Answer, name: &str, words: &[&LineWord]) {
    out.put(name);
    for word in words {
        let word: &str = word.as_str();
        write!(out, " [{word}]");
    }
}
