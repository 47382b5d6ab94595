//! Catalogues of lines.
use crate::answer::Answer;
use crate::row::Row;
use crs_group::{Catalogue, Placed};
use crs_text::Refusal;
use std::str;

/// The answers of a catalogue's calls, one per line: `add N TEXT`, `groups`, `lines N`, `text N` and `refused`.
pub fn put_catalogue(out: &mut Answer, row: &Row<'_>) {
    let mut catalogue = Catalogue::new(out.alloc(), row.level);
    for (index, line) in row.text().split(|byte| *byte == b'\n').enumerate() {
        out.put(if index > 0 { "; " } else { "" });
        put_call(out, &mut catalogue, line);
    }
}

fn put_call(out: &mut Answer, catalogue: &mut Catalogue, line: &[u8]) {
    let (call, rest) = split_blank(line);
    match call {
        b"add" => {
            let (number, text) = split_blank(rest);
            if let Some(placed) = out.made(catalogue.add(number_of(number) as u64, text)) {
                put_placed(out, placed);
            }
        }
        b"groups" => write!(out, "{}", catalogue.groups()),
        b"lines" => put_lines(out, catalogue.lines(number_of(rest))),
        b"text" => out.put_bytes(catalogue.text(number_of(rest)).unwrap_or(b"none")),
        b"refused" => put_refused(out, catalogue.refused()),
        _ => out.put("no such call"),
    }
}

fn split_blank(text: &[u8]) -> (&[u8], &[u8]) {
    let mut words = text.splitn(2, |byte| *byte == b' ');
    (words.next().unwrap_or(&[]), words.next().unwrap_or(&[]))
}

// 0 where it isn't a number.
fn number_of(digits: &[u8]) -> usize {
    match str::from_utf8(digits) {
        Ok(text) => text.parse().unwrap_or(0),
        Err(_) => 0,
    }
}

/// Where a line was placed.
pub fn put_placed(out: &mut Answer, placed: Placed) {
    match placed {
        Placed::Blank => out.put("blank"),
        Placed::Refused(refusal) => put_refusal(out, refusal),
        Placed::Group(number) => write!(out, "group {number}"),
    }
}

fn put_refusal(out: &mut Answer, refusal: Refusal) {
    write!(out, "{} at {}", refusal.number(), refusal.place());
}

// The lines of a group; `none` where there is no such group.
fn put_lines(out: &mut Answer, lines: Option<&[u64]>) {
    let Some(lines) = lines else {
        return out.put("none");
    };
    out.put("lines");
    for line in lines {
        write!(out, " {line}");
    }
}

// The lines that were refused.
fn put_refused(out: &mut Answer, refused: &[(u64, Refusal)]) {
    out.put("refused");
    for (line, refusal) in refused {
        write!(out, " {line}: ");
        put_refusal(out, *refusal);
    }
}

/// All that a catalogue returns: each group's lines and text, then the refused lines.
pub fn put_all(out: &mut Answer, catalogue: &Catalogue) {
    for group in 1..=catalogue.groups() {
        out.put("; ");
        put_lines(out, catalogue.lines(group));
        out.put_after("; ", catalogue.text(group).unwrap_or(b"none"));
    }
    out.put("; ");
    put_refused(out, catalogue.refused());
}
