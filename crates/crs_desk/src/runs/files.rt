//! A run over files: what a command writes for each of them, in their order.
ghost use Rattle.std.specs.Prelude.{◌≡◌, [], ℕ, List, Option, IfErr, IfOk, IfSome, false, OnOk};
ghost use Rattle.crs_streams.specs.Streams.{fresh_sink};
ghost use Rattle.crs_desk.specs.inner.FileAnswers.{Ends, IsAnswerSent, IsFileFault, IsFileSent, IsSendFault, NoFront};
ghost use Rattle.crs_desk.specs.FilesRun.{AreFilesAnswered, IsFilesFault, IsGroupedOutput, IsTaskFront, IsTaskOutput, are_named, blank_told, is_json, name_prefix};
ghost use Rattle.crs_desk.specs.inner.LineCutting.{IsHealthy};
ghost use Rattle.std.specs.Io.KnownBytes.{Appends};
ghost use Rattle.crs_group.specs.GroupOutput.{IsGroupOutputBy};
ghost use Rattle.crs_desk.specs.LinesRun.{IsFrontOutput, IsLineOutput, IsLinesOutput, prefixed};

use crate::runs::explain::ExplainText;
use crate::runs::line_output::{OfLine, Prefix, Prefixed, prefix_lines};
use crate::runs::lines::run_lines;
use crate::{
    CanonText, CheckText, DigestText, Filling, Level, LineWord, Listing, Manner, RulesText,
    RunFault, Sink, Source, Spelled, Stream, TextCommand, Under, Used, read_text,
};
use crs_group::pieces::{Adding, ByCanon, ByForm, run_adding};
use crs_rules::Rules;
use crs_streams::append_escaped;
use crs_streams::json::append_text;
use std::alloc::{AllocError, Global};
use std::io::{Read, Write};

// The status of a file that fails.
pub(crate) const FAILED: u8 = 2;

/// Files that are opened by their names.
pub trait Inputs {
    /// What an opened file is read from.
    type Input: Read + Drop;

    /// The bytes of the file of a name, if they are known.
    ghost known: { Self → List ℕ → Option (List ℕ) };

    /// Opens the file of a name. `None`: that fails, which it reports to the user.
    fn open(&self, name: &str) -> Option<Self::Input>
        ensures { IfSome result (λ input. Self.Input.remaining input ≡ known self.now name.now) };

    /// Reports to the user with which fault the file of a name failed; what it was read from may know more.
    fn tell(&self, name: &str, input: &Self::Input, fault: &RunFault);
}

/// Writes for each file in its turn what is asked of it. If there are several, or names are asked for, each line begins
/// with the file's name and a colon; in the name control characters, ends of lines, marks of direction and backslashes
/// are escaped. An object of JSON has the name as its first member, `"file"`. A file that can't be opened, or not be
/// read to its end within the bounds of its task, is reported to the user and has status 2, and the others go on; of
/// its answer nothing was written, or, if each line is a text, the answers for its first whole lines. The status is the
/// greatest of all. `WriteFailed`: the sink has failed. `Memory`: memory ran out.
pub fn run_files<I: Inputs, W: Write>(
    alloc: Global,
    task: FileTask<'_>,
    named: bool,
    names: &[LineWord],
    files: &I,
    w: &mut Sink<W>,
) -> Result<u8, RunFault>
    requires { w.old ≡ fresh_sink w.old.contents }
    ensures answered { IfOk result (AreFilesAnswered task.entry named (I.known files.now) names.now w.old w.new) }
    ensures fault { IfErr result (IsFilesFault w.new) }
    ensures past_failure { w.new.past_failure ≡ false }
{
    let mut status = 0;
    let shown = are_named(named, names);
    for name in names {
        let prefix = prefix_of(alloc, task, shown, name).map_err(|_| RunFault::Memory)?;
        let own = answer_file(task, &prefix, name, files, w)?;
        status = status.max(own);
    }
    Ok(status)
}

// Whether lines begin with names of files.
fn are_named(named: bool, names: &[LineWord]) -> bool
    ensures { result ≡ are_named named names.now }
{
    named || names.len() > 1
}

// What stands before each line of a file's answer: nothing, or its name, or a first member with it.
fn prefix_of(
    alloc: Global,
    task: FileTask<'_>,
    named: bool,
    name: &LineWord,
) -> Result<Prefix, AllocError>
    ensures { IfOk result (λ prefix. prefix ≡ name_prefix task.entry named name.now) }
{
    let mut bytes = Vec::new(alloc);
    if !named {
        let in_object = false;
        return Ok(Prefix { bytes, in_object });
    }
    let in_object = is_json(task);
    if in_object {
        bytes.extend_from_slice(b"{\"file\":")?;
        append_text(name.as_str().as_bytes(), &mut bytes)?;
        bytes.extend_from_slice(b",")?;
        return Ok(Prefix { bytes, in_object });
    }
    append_escaped(name.as_str().as_bytes(), &mut bytes)?;
    bytes.extend_from_slice(b":")?;
    Ok(Prefix { bytes, in_object })
}

// Whether each line of a file's answer is an object of JSON.
fn is_json(task: FileTask<'_>) -> bool
    ensures { result ≡ is_json task.entry }
{
    match task {
        FileTask::Check(how) | FileTask::CheckLines(how) | FileTask::Explain(how) => {
            matches!(how, Manner::Objects)
        }
        FileTask::Group(_, listing) => listing.json,
        FileTask::FormGroup(_, listing, _) => listing.json,
        _ => false,
    }
}

fn answer_file<I: Inputs, W: Write>(
    task: FileTask<'_>,
    prefix: &Prefix,
    name: &LineWord,
    files: &I,
    sink: &mut Sink<W>,
) -> Result<u8, RunFault>
    requires { IsHealthy sink.old }
    ensures answered { IfOk result (IsFileSent task.entry prefix.now (I.known files.now name.now) sink.old sink.new) }
    ensures fault { IfErr result (IsFilesFault sink.new) }
    ensures past_failure { sink.new.past_failure ≡ false }
{
    let Some(mut input) = files.open(name.as_str()) else {
        return Ok(FAILED);
    };
    match answer_input(task, prefix, &mut input, sink) {
        Ok(status) => Ok(status),
        Err(fault @ (RunFault::WriteFailed | RunFault::Memory)) => Err(fault),
        Err(fault) => {
            files.tell(name.as_str(), &input, &fault);
            Ok(FAILED)
        }
    }
}

// Writes the answer for all that a reader gives, each line after a prefix.
fn answer_input<R: Read + Drop, W: Write>(
    task: FileTask<'_>,
    prefix: &Prefix,
    reader: R,
    sink: &mut Sink<W>,
) -> Result<u8, RunFault>
    requires { IsHealthy sink.old }
    ensures answered { IfOk result (IsAnswerSent (IsTaskOutput task.entry) prefix.now (R.remaining reader) sink.old sink.new) }
    ensures fault { IfErr result (IsFileFault (IsTaskFront task.entry) prefix.now (R.remaining reader) sink.old sink.new) }
{
    match task {
        FileTask::Canon(level) => answer_text(&CanonText { level }, prefix, reader, sink),
        FileTask::Digest(by) => answer_text(&DigestText { by }, prefix, reader, sink),
        FileTask::Check(how) => answer_text(&CheckText { how }, prefix, reader, sink),
        FileTask::Explain(how) => answer_text(&ExplainText { how }, prefix, reader, sink),
        FileTask::Rules(used) => answer_text(&RulesText { used }, prefix, reader, sink),
        FileTask::Group(level, listing) => {
            answer_group(ByCanon(level), listing, prefix, reader, sink)
        }
        FileTask::CanonLines(level) => {
            answer_lines(CanonText { level }, b"", prefix, reader, sink)
        }
        FileTask::DigestLines(by) => answer_lines(DigestText { by }, b"", prefix, reader, sink),
        FileTask::CheckLines(how) => {
            answer_lines(CheckText { how }, blank_told(how), prefix, reader, sink)
        }
        FileTask::Form(level, rules) => {
            answer_text(&Under { level, rules }, prefix, reader, sink)
        }
        FileTask::FormGroup(level, listing, rules) => {
            let adding = ByForm(Under { level, rules });
            answer_group(adding, listing, prefix, reader, sink)
        }
        FileTask::FormLines(level, rules) => {
            answer_lines(Under { level, rules }, b"", prefix, reader, sink)
        }
    }
}

fn answer_text<C: TextCommand, R: Read + Drop, W: Write>(
    command: &C,
    prefix: &Prefix,
    reader: R,
    sink: &mut Sink<W>,
) -> Result<u8, RunFault>
    requires { IsHealthy sink.old }
    ensures answered { IfOk result (IsAnswerSent (C.Output command.now) prefix.now (R.remaining reader) sink.old sink.new) }
    ensures fault { IfErr result (IsFileFault NoFront prefix.now (R.remaining reader) sink.old sink.new) }
{
    let alloc = prefix.alloc();
    let text = read_text(alloc, &mut Source::new(Filling::new(reader)))?;
    let (plain, status) = command.output(alloc, &text).map_err(|_| RunFault::Memory)?;
    send(prefix, plain, sink)?;
    Ok(status)
}

fn answer_group<A: Adding + Drop, R: Read + Drop, W: Write>(
    adding: A,
    listing: Listing,
    prefix: &Prefix,
    reader: R,
    sink: &mut Sink<W>,
) -> Result<u8, RunFault>
    requires { IsHealthy sink.old }
    ensures answered { IfOk result (IsAnswerSent (IsGroupedOutput (IsGroupOutputBy (A.Form adding) (A.Share adding)
        listing (A.level adding))) prefix.now (R.remaining reader) sink.old sink.new) }
    ensures fault { IfErr result (IsFileFault NoFront prefix.now (R.remaining reader) sink.old sink.new) }
{
    let alloc = prefix.alloc();
    let mut source = Source::new(Filling::new(reader));
    let mut held = Sink::new(Vec::new(alloc));
    match run_adding(alloc, adding, listing, &mut source, &mut held) {
        Ok(summary) => {
            send(prefix, held.into_inner(), sink)?;
            Ok(if summary.refused == 0 { 0 } else { 1 })
        }
        Err(RunFault::WriteFailed) => Err(RunFault::Memory),
        Err(fault) => Err(fault),
    }
}

/// What `check` writes for a blank line.
pub fn blank_told(how: Manner) -> &'static [u8]
    ensures { result.now ≡ blank_told how }
{
    match how {
        Manner::Lines => b"",
        Manner::Objects => b"{\"blank\":true}",
    }
}

fn answer_lines<C: TextCommand + Drop, R: Read + Drop, W: Write>(
    command: C,
    blank: &'static [u8],
    prefix: &Prefix,
    reader: R,
    sink: &mut Sink<W>,
) -> Result<u8, RunFault>
    requires healthy { IsHealthy sink.old }
    requires ends { Ends (C.Output command) }
    ensures answered { IfOk result (IsAnswerSent (IsLinesOutput (IsLineOutput blank.now (C.Output command))) prefix.now
        (R.remaining reader) sink.old sink.new) }
    ensures fault { IfErr result (IsFileFault
        (λ bytes written. IsFrontOutput (IsLineOutput blank.now (C.Output command)) bytes false written)
        prefix.now (R.remaining reader) sink.old sink.new) }
{
    let command = OfLine { command, blank };
    let command = Prefixed { prefix, command };
    run_lines(prefix.alloc(), &command, &mut Stream::new(reader), sink)
}

// Writes these bytes, each line after a prefix.
fn send<W: Write>(prefix: &Prefix, plain: Vec<u8>, sink: &mut Sink<W>) -> Result<(), RunFault>
    requires { IsHealthy sink.old }
    ensures sent { OnOk result (Appends sink.old.contents sink.new.contents (prefixed prefix.now plain.items)) }
    ensures healthy { OnOk result (IsHealthy sink.new) }
    ensures fault { IfErr result (IsSendFault sink.new) }
{
    let lines = prefix_lines(prefix, plain).map_err(|_| RunFault::Memory)?;
    sink.write_all(&lines).map_err(|_| RunFault::WriteFailed)
}

/// What is asked of each of some files.
#[derive(Clone, Copy)]
pub enum FileTask<'r> {
    /// What `run_canon` writes, at a level.
    Canon(Level),
    /// What `CheckText` writes.
    Check(Manner),
    /// What `DigestText` writes.
    Digest(Spelled<'r>),
    /// What `ExplainText` writes.
    Explain(Manner),
    /// What `RulesText` writes.
    Rules(Option<&'r Used>),
    /// What `run_group_listing` writes, at a level, with status 1 if a line was refused.
    Group(Level, Listing),
    /// What `OfLine` of `CanonText` writes for each line, at a level.
    CanonLines(Level),
    /// What `OfLine` of `CheckText` writes for each line.
    CheckLines(Manner),
    /// What `OfLine` of `DigestText` writes for each line.
    DigestLines(Spelled<'r>),
    /// What `Under` writes, at a level.
    Form(Level, &'r Rules),
    /// What `run_group_under` writes, at a level, with status 1 if a line was refused.
    FormGroup(Level, Listing, &'r Rules),
    /// What `OfLine` of `Under` writes for each line, at a level.
    FormLines(Level, &'r Rules),
}
