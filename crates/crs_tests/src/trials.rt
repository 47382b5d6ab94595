//! The calls that take memory, each made while a growth may be refused; after out of memory it is made once more.
use crate::turn::Turn;
use crs_canon::{Canon, canon, canon_of};
use crs_decimal::Decimal;
use crs_desk::{Request, RequestFault, request};
use crs_group::Catalogue;
use crs_same::Path;
use crs_surface::{
    Answer, Page, Row, Run, answer_of, append_part, compared, fed, kind_word, parts_of, put_all,
    put_outcome, put_placed, put_read, put_request, put_spelling, put_taken, put_written, unusable,
};
use crs_text::{Fault, Feeder, Items, read_items};
use crs_value::{Crs, Level, read, value_of};
use std::alloc::{AllocError, Global};
use std::{io, str};

/// Makes a call; the error is a call of another name, or out of memory.
pub fn try_call(rt: &(impl Print + AllocGlobal), row: &Row<'_>) -> io::Result<()> {
    let text = row.part(0);
    match row.call {
        "read_items" => try_reading(rt, Call::ReadItems(text)),
        "read" => try_reading(rt, Call::Read(text)),
        "canon" => try_reading(rt, Call::Canon(text)),
        "canon_of" => try_of_crs(rt, "canon_of", text),
        "Feeder::finish" => {
            let feeder = fed(rt.alloc(), &parts_of(rt.alloc(), row)?)?;
            try_reading(rt, Call::Finish(&feeder))
        }
        "value_of" => {
            let items = read_items(rt.alloc(), text).map_err(unmade)?;
            try_reading(rt, Call::ValueOf(&items))
        }
        "request" => try_request(rt, row),
        _ => try_change(rt, row),
    }
}

fn try_change(rt: &(impl Print + AllocGlobal), row: &Row<'_>) -> io::Result<()> {
    let text = row.part(0);
    match row.call {
        "Decimal::write" => match Decimal::parse(text) {
            Ok(number) => try_append(rt, &Appended::Number(number)),
            Err(_) => Err(unusable()),
        },
        "Path::write" => try_path(rt, text, row.part(1)),
        "Set::write" => try_of_crs(rt, "set", text),
        "Feeder::feed" => try_feed(rt, row, row.count().saturating_sub(1)),
        "Feeder::feed all" => try_feed(rt, row, 0),
        "Catalogue::add" => try_add(rt, row),
        _ => match row.call.split_once(' ') {
            Some(("Canonical::write", part)) => try_of_crs(rt, part, text),
            _ => try_run(rt, row),
        },
    }
}

// A value that a call is handed couldn't be made.
fn unmade(fault: Fault) -> io::Error {
    match fault {
        Fault::Refused(_) => unusable(),
        Fault::Memory(error) => io::Error::from(error),
    }
}

// A call that changes nothing that it is handed.
#[derive(Clone, Copy)]
enum Call<'a, 't> {
    ReadItems(&'t [u8]),
    Finish(&'a Feeder),
    Read(&'t [u8]),
    ValueOf(&'a Items<'t>),
    Canon(&'t [u8]),
    CanonOf(&'a Crs<'t>),
    Request(&'a [&'t str]),
}

fn try_reading(rt: &(impl Print + AllocGlobal), call: Call<'_, '_>) -> io::Result<()> {
    let mut turn = Turn::begin(rt)?;
    for _turn in 0..2 {
        read_once(&mut turn, call);
        if turn.is_done(true)? {
            break;
        }
    }
    Ok(())
}

fn read_once<R: Print + AllocGlobal>(turn: &mut Turn<'_, R>, call: Call<'_, '_>) {
    let alloc = turn.alloc();
    match call {
        Call::ReadItems(text) => put_items(turn, read_items(alloc, text)),
        Call::Finish(feeder) => put_items(turn, feeder.finish()),
        Call::Read(text) => put_value(turn, read(alloc, text)),
        Call::ValueOf(items) => put_value(turn, value_of(alloc, items)),
        Call::Canon(text) => put_text(turn, canon(alloc, text, Level::Full)),
        Call::CanonOf(crs) => put_text(
            turn,
            canon_of(alloc, crs, Level::Full).map_err(Fault::Memory),
        ),
        Call::Request(words) => put_asked(turn, request(alloc, words)),
    }
}

fn put_items<R: Print + AllocGlobal>(turn: &mut Turn<'_, R>, read: Result<Items<'_>, Fault>) {
    put_read(turn.end(), read);
}

// A value by its kind and its canonical text.
fn put_value<R: Print + AllocGlobal>(turn: &mut Turn<'_, R>, made: Result<Crs<'_>, Fault>) {
    let out = turn.end();
    match made {
        Ok(crs) => {
            out.put_after(kind_word(crs.kind()), b" ");
            if let Some(text) = out.made(canon_of(out.alloc(), &crs, Level::Full)) {
                out.put_bytes(text.bytes());
            }
        }
        Err(fault) => out.put_fault(fault),
    }
}

fn put_text<R: Print + AllocGlobal>(turn: &mut Turn<'_, R>, made: Result<Canon, Fault>) {
    let out = turn.end();
    if let Some(text) = out.accepted(made) {
        put_spelling(out, &text);
    }
}

fn put_asked<R: Print + AllocGlobal>(turn: &mut Turn<'_, R>, asked: Result<Request, RequestFault>) {
    put_request(turn.end(), &asked);
}

// `request` of words, of which the first is the program's name.
fn try_request(rt: &(impl Print + AllocGlobal), row: &Row<'_>) -> io::Result<()> {
    let mut words = Vec::new(rt.alloc());
    for index in 0..row.count() {
        words.push(str::from_utf8(row.part(index)).map_err(|_| unusable())?)?;
    }
    try_reading(rt, Call::Request(words.as_slice()))
}

// `canon_of` the CRS that a text spells, or an append of the part of it that is named.
fn try_of_crs(rt: &(impl Print + AllocGlobal), call: &str, text: &[u8]) -> io::Result<()> {
    match read(rt.alloc(), text) {
        Ok(crs) => {
            if call == "canon_of" {
                try_reading(rt, Call::CanonOf(&crs))
            } else {
                try_append(rt, &Appended::Part(&crs, call))
            }
        }
        Err(fault) => Err(unmade(fault)),
    }
}

// What a call appends to a vector.
#[derive(Clone, Copy)]
enum Appended<'a, 't> {
    Number(Decimal),
    Path(&'a Path),
    Part(&'a Crs<'t>, &'a str),
}

impl Appended<'_, '_> {
    // A CRS that has no such part is no input of the call: nothing is appended.
    fn append(&self, out: &mut Vec<u8>) -> Result<(), AllocError> {
        match self {
            Appended::Number(number) => number.write(out),
            Appended::Path(path) => path.write(out),
            Appended::Part(crs, part) => append_part(crs, part, Level::Full, out)
                .unwrap_or(Ok(true))
                .and(Ok(())),
        }
    }
}

// What the vector holds before the call.
const BEFORE: &[u8] = b"before:";

// An append to a vector that has no room left.
fn try_append(rt: &(impl Print + AllocGlobal), what: &Appended<'_, '_>) -> io::Result<()> {
    let mut bytes = BEFORE.to_vec(rt.alloc())?;
    bytes.shrink_to_fit();
    let mut turn = Turn::begin(rt)?;
    for _turn in 0..2 {
        let done = what.append(&mut bytes);
        let out = turn.end();
        out.note(done);
        out.put_bytes(&bytes);
        if turn.is_done(bytes.as_slice() == BEFORE)? {
            break;
        }
    }
    Ok(())
}

// `Path::write` of the path to the first part in which the CRSs of two texts differ.
fn try_path<'t>(
    rt: &(impl Print + AllocGlobal),
    first: &'t [u8],
    second: &'t [u8],
) -> io::Result<()> {
    let found = compared(rt.alloc(), first, second, Level::Full).map_err(unmade)?;
    match &found.path {
        Some(path) => try_append(rt, &Appended::Path(path)),
        None => Err(unusable()),
    }
}

// `Feeder::feed` of each piece in turn, after so many others. The answer is what the last piece is answered, and what
// `finish` answers then, which shows which bytes the feeder holds: before, those of the pieces before the refused one.
fn try_feed(rt: &(impl Print + AllocGlobal), row: &Row<'_>, count: usize) -> io::Result<()> {
    let pieces = parts_of(rt.alloc(), row)?;
    let mut fed_count = count;
    let mut feeder = fed(rt.alloc(), pieces.get(..count).unwrap_or(&[]))?;
    let mut turn = Turn::begin(rt)?;
    for _turn in 0..2 {
        let taken = feed(&mut feeder, &pieces, &mut fed_count);
        let out = turn.end();
        put_taken(out, taken);
        out.put("; ");
        put_read(out, feeder.finish());
        let before = fed(rt.alloc(), pieces.get(..fed_count).unwrap_or(&[]))?;
        let held = answer_of(feeder.finish(), rt.alloc());
        if turn.is_done(answer_of(before.finish(), rt.alloc()).is(&held)?)? {
            break;
        }
    }
    Ok(())
}

// What the last piece is answered. After out of memory the refused piece is the next one again.
fn feed(feeder: &mut Feeder, pieces: &[&[u8]], count: &mut usize) -> Result<(), Fault> {
    let mut taken = Ok(());
    for piece in pieces.iter().skip(*count) {
        taken = feeder.feed(piece);
        if let Err(Fault::Memory(_)) = &taken {
            return taken;
        }
        *count = count.saturating_add(1);
    }
    taken
}

// `Catalogue::add` of the last part, after the others; lines are numbered from 1.
fn try_add(rt: &(impl Print + AllocGlobal), row: &Row<'_>) -> io::Result<()> {
    let Some(last) = row.count().checked_sub(1) else {
        return Err(unusable());
    };
    let mut catalogue = Catalogue::new(rt.alloc(), Level::Full);
    let mut line: u64 = 1;
    for index in 0..last {
        catalogue.add(line, row.part(index))?;
        line = line.saturating_add(1);
    }
    let before = told(rt.alloc(), &catalogue);
    let mut turn = Turn::begin(rt)?;
    for _turn in 0..2 {
        let added = catalogue.add(line, row.part(last));
        let out = turn.end();
        if let Some(placed) = out.made(added) {
            put_placed(out, placed);
            put_all(out, &catalogue);
        }
        if turn.is_done(told(rt.alloc(), &catalogue).is(&before)?)? {
            break;
        }
    }
    Ok(())
}

fn told(alloc: Global, catalogue: &Catalogue) -> Answer {
    let mut text = Answer::new(alloc);
    put_all(&mut text, catalogue);
    text
}

// The run of a command over its text or texts, onto a page that has room for what is written. Where it is out of memory,
// nothing was written, or whole lines where each line is answered by itself.
fn try_run(rt: &(impl Print + AllocGlobal), row: &Row<'_>) -> io::Result<()> {
    let Some(run) = Run::of(row.call, row) else {
        return Err(unusable());
    };
    let mut page = Page::new(rt.alloc(), run.transfer);
    // No row writes more bytes.
    page.written.reserve(65_536)?;
    let mut turn = Turn::begin(rt)?;
    for _turn in 0..2 {
        page.written.clear();
        let ended = run.fill(turn.alloc(), &mut page);
        let out = turn.end();
        put_outcome(out, &ended.outcome);
        put_written(out, &page.written);
        let is_of_lines = run.is_by_line() && page.written.ends_with(b"\n");
        if turn.is_done(page.written.is_empty() || is_of_lines)? {
            break;
        }
    }
    Ok(())
}
