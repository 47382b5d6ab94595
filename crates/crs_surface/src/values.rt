//! The calls on the values of texts: of a CRS, and of the parts of a vertical one, which it compares and writes.
use crate::answer::Answer;
use crate::row::Row;
use crate::texts::agree;
use crs_canon::{Canon, Canonical, Set, canon, canon_of};
use crs_same::parts::same_axis;
use crs_same::{Path, first_part, same};
use crs_text::{Fault, read_items};
use crs_value::{Axis, Crs, Ident, Kind, Level, Vertical, read, value_of};
use std::alloc::{AllocError, Global};

/// `kind` and the kind of the CRS that a text spells, or its refusal; `another answer in pieces` if a cut into pieces
/// gives one, and `another answer of items` if the text's items do.
pub fn put_read(out: &mut Answer, input: &[u8]) {
    let alloc = out.alloc();
    let of_text = kind_told(alloc, read(alloc, input));
    let of_items = match read_items(alloc, input) {
        Ok(items) => kind_told(alloc, value_of(alloc, &items)),
        Err(fault) => kind_told(alloc, Err(fault)),
    };
    if !out.holds(agree(alloc, input)) {
        out.put("another answer in pieces");
    } else if !out.holds(of_text.is(&of_items)) {
        out.put("another answer of items");
    } else {
        out.put_bytes(of_text.bytes().unwrap_or(&[]));
    }
}

fn kind_told(alloc: Global, made: Result<Crs<'_>, Fault>) -> Answer {
    let mut out = Answer::new(alloc);
    match made {
        Ok(crs) => out.put_after("kind ", kind_taken(crs).as_bytes()),
        Err(fault) => out.put_fault(fault),
    }
    out
}

// The name of a CRS's kind; the CRS is matched by value.
fn kind_taken(crs: Crs<'_>) -> &'static str {
    match crs {
        Crs::Vertical(vertical) => kind_word(Crs::Vertical(vertical).kind()),
        other => kind_word(other.kind()),
    }
}

/// The name of a kind.
pub fn kind_word(kind: Kind) -> &'static str {
    match kind {
        Kind::Geodetic => "geodetic",
        Kind::Geographic => "geographic",
        Kind::Projected => "projected",
        Kind::Vertical => "vertical",
        Kind::Compound => "compound",
    }
}

/// `text` and the canonical text of a text, or its refusal; `another text` if the text's value has another one, or if
/// the canonical text isn't its own, with everything too, or isn't the canonical text of the one with everything.
pub fn put_canon(out: &mut Answer, row: &Row<'_>) {
    let (alloc, input, level) = (out.alloc(), row.text(), row.level);
    if let Some(text) = out.accepted(canon(alloc, input, level))
        && let Some(full) = out.accepted(canon(alloc, input, Level::Full))
    {
        if has_text(alloc, text.bytes(), Level::Full, text.bytes())
            && has_text(alloc, full.bytes(), level, text.bytes())
            && out.holds(is_spelled(alloc, input, &text))
        {
            put_spelling(out, &text);
        } else {
            out.put("another text");
        }
    }
}

// Whether this is the canonical text of the value of a text.
fn is_spelled(alloc: Global, input: &[u8], text: &Canon) -> Result<bool, AllocError> {
    match read(alloc, input) {
        Ok(crs) => spells(&crs, alloc, text),
        Err(_) => Ok(false),
    }
}

// Whether this is a CRS's canonical text at its level, and what the CRS appends by itself.
fn spells(crs: &Crs<'_>, alloc: Global, text: &Canon) -> Result<bool, AllocError> {
    let level = text.level();
    let own = canon_of(alloc, crs, level)?;
    let mut appended = Vec::from_slice(alloc, b"x")?;
    crs.write(alloc, level, &mut appended)?;
    let is_appended = matches!(appended.as_slice(), [b'x', own @ ..] if own == text.bytes());
    Ok(own.level() == level && own.same(text) && is_appended)
}

// Whether this is the canonical text of a text.
fn has_text(alloc: Global, input: &[u8], level: Level, text: &[u8]) -> bool {
    match canon(alloc, input, level) {
        Ok(own) => own.bytes() == text,
        Err(_) => false,
    }
}

/// `text` and a canonical text.
pub fn put_spelling(out: &mut Answer, text: &Canon) {
    out.put_after("text ", text.bytes());
}

/// Whether a part is the same as itself, once it is appended; None if there is no such part.
pub type Appended = Option<Result<bool, AllocError>>;

/// Appends at a level what this name says of a CRS: `crs`, the CRS itself; of a vertical one `frame`, `dynamic part`
/// and its `model`, the first `axis` and its `unit`, the first `usage` and its `extent`, the first `identifier`, or the
/// `set` of all identifiers. None if there is no such part, also for any other name.
pub fn append_part(crs: &Crs<'_>, part: &str, level: Level, out: &mut Vec<u8>) -> Appended {
    match crs {
        _ if part == "crs" => append_whole(crs, level, out),
        Crs::Vertical(vertical) => append_of(vertical, part, level, out),
        Crs::Geodetic(_) | Crs::Projected(_) | Crs::Compound(_) => None,
    }
}

fn append_whole(crs: &Crs<'_>, level: Level, out: &mut Vec<u8>) -> Appended {
    let written = crs.write(*out.allocator(), level, out);
    Some(written.and(Ok(crs.same(crs, level) && same(crs, crs, level))))
}

fn append_of(crs: &Vertical<'_>, part: &str, level: Level, out: &mut Vec<u8>) -> Appended {
    let axes = crs.system.axes.as_slice();
    let usages = crs.tail.usages.as_slice();
    let idents = crs.tail.identifiers.as_slice();
    match part {
        "axis" => append(axes.first()?, level, out),
        "unit" => append(axes.first()?.unit.as_ref()?, level, out),
        "frame" => append(&crs.frame, level, out),
        "dynamic part" => append(crs.dynamic.as_ref()?, level, out),
        "model" => append(crs.dynamic.as_ref()?.model.as_ref()?, level, out),
        "usage" => append(usages.first()?, level, out),
        "extent" => append(usages.first()?.extent.as_ref()?, level, out),
        "identifier" => append(idents.first()?, level, out),
        "set" => append_set(idents, level, out),
        _ => None,
    }
}

fn append<T: Canonical>(node: &T, level: Level, out: &mut Vec<u8>) -> Appended {
    let written = node.write(*out.allocator(), level, out);
    Some(written.and(Ok(node.same(node, level))))
}

fn append_set(idents: &[Ident<'_>], level: Level, out: &mut Vec<u8>) -> Appended {
    let set = Set::of(idents);
    let written = set.write(*out.allocator(), level, out);
    Some(written.and(Ok(set.same(&set, level))))
}

/// `text` and what a part of a text's CRS appends by itself, or the refusal; `no` and the name of a part that it lacks,
/// `one way` if the part isn't the same as itself, and `nothing` for an empty set, which appends nothing.
pub fn put_part(out: &mut Answer, row: &Row<'_>, part: &str) {
    let mut text = Vec::new(out.alloc());
    let appended = match read(out.alloc(), row.text()) {
        Ok(crs) => append_part(&crs, part, row.level, &mut text),
        Err(fault) => return out.put_fault(fault),
    };
    match appended {
        Some(is_itself) if !out.holds(is_itself) => out.put("one way"),
        Some(_) if text.is_empty() => out.put("nothing"),
        Some(_) => out.put_after("text ", &text),
        None => write!(out, "no {part}"),
    }
}

/// What is asked of two CRSs.
#[derive(Drop)]
pub struct Comparison {
    is_same: bool,
    /// The first part in which they differ.
    pub path: Option<Path>,
    // whether the first axes of two vertical CRSs are the same by themselves; `no axes` for other ones
    axes: &'static str,
}

/// What is asked of the CRSs of two texts, or the refusal of the first text that has one.
pub fn compared<'t>(
    alloc: Global,
    first: &'t [u8],
    second: &'t [u8],
    level: Level,
) -> Result<Comparison, Fault> {
    match read(alloc, first) {
        Ok(first) => compared_with(alloc, &first, second, level),
        Err(fault) => Err(fault),
    }
}

fn compared_with<'t>(
    alloc: Global,
    first: &Crs<'t>,
    second: &'t [u8],
    level: Level,
) -> Result<Comparison, Fault> {
    match read(alloc, second) {
        Ok(second) => Ok(of_two(first, &second, level)),
        Err(fault) => Err(fault),
    }
}

fn of_two<'t>(first: &Crs<'t>, second: &Crs<'t>, level: Level) -> Comparison {
    Comparison {
        is_same: same(first, second, level),
        path: first_part(first, second, level),
        axes: axes_of(first, second, level),
    }
}

/// `same`, or `different` and the first part in which two texts' CRSs differ, or the answer on axes, or the first
/// refusal; `one way` if the orders of the two disagree, or only one call says that they are the same.
pub fn put_same(out: &mut Answer, row: &Row<'_>, what: &str) {
    let (alloc, first, second) = (out.alloc(), row.part(0), row.part(1));
    if let Some(forth) = out.accepted(compared(alloc, first, second, row.level))
        && let Some(back) = out.accepted(compared(alloc, second, first, row.level))
    {
        if what == "axis" {
            out.put(forth.axes);
        } else {
            put_compared(out, &forth, &back);
        }
    }
}

fn put_compared(out: &mut Answer, forth: &Comparison, back: &Comparison) {
    match (&forth.path, &back.path, forth.is_same, back.is_same) {
        (None, None, true, true) => out.put("same"),
        (Some(path), Some(other), false, false) if path.steps() == other.steps() => {
            out.put("different ");
            let done = path.write(out.end());
            out.note(done);
        }
        _ => out.put("one way"),
    }
}

fn axes_of<'a>(first: &Crs<'a>, second: &Crs<'a>, level: Level) -> &'static str {
    match (first, second) {
        (Crs::Vertical(x), Crs::Vertical(y)) => {
            axes_told(x.system.axes.as_slice(), y.system.axes.as_slice(), level)
        }
        _ => "no axes",
    }
}

fn axes_told<'a>(first: &[Axis<'a>], second: &[Axis<'a>], level: Level) -> &'static str {
    match (first, second) {
        ([x, ..], [y, ..]) if same_axis(x, y, level) && same_axis(y, x, level) => "same",
        _ => "different",
    }
}
