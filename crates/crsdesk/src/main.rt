//! `crsdesk`: reads WKT2 texts of coordinate reference systems, compares, spells and groups them.
#![tactic(auto)]

mod fault;
mod input;
mod messages;
mod output;
mod runs;

use crs_desk::{JobFault, PATH_WORDS, RequestFault, RunFault, is_verbose, request};
use fault::Fault;
use messages::{is_marked, line_words, tell_bad_words, tell_of, tell_usage, words_of};
use runs::answer;
use std::process::ExitCode;
use std::{io, str};

const FAULT: u8 = 2;

fn main(rt: HostRuntime) -> ExitCode {
    let status = match &run(&rt) {
        Ok(status) => *status,
        Err(fault) => report(&rt, fault),
    };
    ExitCode::from(status)
}

fn run(rt: &HostRuntime) -> Result<u8, Fault> {
    let owned = line_words(rt, &words_of(rt)?)?;
    let words: Vec<&str> = owned.iter().map(|word| word.as_str()).collect(rt.alloc())?;
    match request(rt.alloc(), &words) {
        Ok(asked) => answer(rt, &asked.into_job(rt.alloc())?),
        Err(RequestFault::Line(_)) if words.iter().any(|word| is_marked(word)) => Err(Fault::Word),
        Err(RequestFault::Line(error)) => Ok(tell_line(rt, &words, &error)),
        Err(RequestFault::Memory(_)) => Err(Fault::Run(RunFault::Memory)),
    }
}

// Each fault is a line. A failure of standard error itself can't be told.
fn report(rt: &HostRuntime, fault: &Fault) -> u8 {
    if let Fault::Told = fault {
        return FAULT;
    }
    let _ = eprintln!(rt; "crsdesk: {fault}");
    if has_reason(fault)
        && let Ok(words) = words_of(rt)
        && is_verbose(&words)
    {
        tell_reason(rt, fault, &words);
    }
    FAULT
}

fn has_reason(fault: &Fault) -> bool {
    matches!(
        fault,
        Fault::Word
            | Fault::Job(JobFault::Level | JobFault::Part)
            | Fault::Read(_)
            | Fault::Write(_)
            | Fault::Run(RunFault::TooLong(_))
    )
}

// Why a fault came, where that is known.
fn tell_reason(rt: &HostRuntime, fault: &Fault, words: &[Vec<u8>]) {
    match fault {
        Fault::Word => tell_bad_words(rt, words),
        Fault::Job(JobFault::Level) => {
            let _ = eprintln!(rt; "crsdesk: --level takes full or definition");
        }
        Fault::Job(JobFault::Part) => tell_path_words(rt, words),
        Fault::Run(RunFault::TooLong(_)) => {
            let _ = eprintln!(rt; "crsdesk: a text, and a line, has at most 1,048,576 bytes");
        }
        Fault::Read(error) => {
            let _ = eprintln!(rt; "crsdesk: standard input: {error}");
        }
        Fault::Write(error) => {
            let _ = eprintln!(rt; "crsdesk: standard output: {error}");
        }
        _ => {}
    }
}

// Which words of `--first` are in no path, and those that are.
fn tell_path_words(rt: &HostRuntime, words: &[Vec<u8>]) {
    for place in 0..words.len() {
        let word = words[place].as_slice();
        if word == b"--first".as_slice() && place + 1 < words.len() {
            tell_parts(rt, words[place + 1].as_slice());
        } else if let Some(parts) = word.strip_prefix(b"--first=".as_slice()) {
            tell_parts(rt, parts);
        }
    }
    if let Ok(words) = PATH_WORDS.join(rt.alloc(), ", ") {
        let _ = eprintln!(rt; "crsdesk: --first takes words of paths: {words}");
    }
}

fn tell_parts(rt: &HostRuntime, parts: &[u8]) {
    let Ok(parts) = str::from_utf8(parts) else {
        return;
    };
    for part in parts.split(',') {
        if part != "axes" && !PATH_WORDS.contains(&part) {
            tell_of(rt, part, "this is in no path");
        }
    }
}

// `clap`'s own text. Help and the version that can't be written are a fault.
fn tell_line(rt: &HostRuntime, words: &[&str], error: &clap::Error) -> u8 {
    if error.use_stderr() {
        tell_usage(rt, error);
    } else if let Err(failure) = error.print(rt) {
        if failure.kind() != io::ErrorKind::BrokenPipe {
            return report(rt, &Fault::Write(failure));
        }
        return FAULT;
    } else {
        return 0;
    }
    if let Some(advice) = advice(words) {
        let _ = eprintln!(rt; "crsdesk: {advice}");
    }
    FAULT
}

// What to write in place of an option that a command doesn't have.
fn advice(words: &[&str]) -> Option<&'static str> {
    let command = words.get(1)?;
    if *command == "explain" && words.contains(&"--lines") {
        return Some("explain takes texts; check --lines tells which lines are refused");
    }
    if !matches!(*command, "canon" | "digest" | "check") {
        return None;
    }
    if words.contains(&"--files") {
        return Some("words are names of files here without --files");
    }
    if words.contains(&"--json") {
        return Some("group --json has canonical texts in objects");
    }
    None
}
