//! The calls on texts and their items, and on texts in pieces.
ghost use Rattle.crs_text.specs.Items.{HasId};

use crate::answer::Answer;
use crate::numbers::put_spelled;
use crate::row::Row;
use crs_text::{Fault, Feeder, ItemId, ItemKind, Items, read_items};
use std::alloc::{AllocError, Global};

// No item is inside more delimiters than these.
const DEPTH: u8 = 12;

/// The items of a text, node by node, or its refusal; `another answer in pieces` if a cut into pieces gives one.
pub fn put_tree(out: &mut Answer, input: &[u8]) {
    if let Some(items) = read_agreed(out, input) {
        put_read(out, Ok(items));
    }
}

/// `tree` and the items that were read, node by node, or the refusal.
pub fn put_read(out: &mut Answer, read: Result<Items<'_>, Fault>) {
    put_items(out, read, "tree");
}

/// What each item has in the column that a call names, `none` if it has nothing there, in the order in which the items
/// begin, behind the name of the call: the `places` of their first bytes, where nodes have their closing delimiters
/// (`closes`), the values of `numbers`, how many items are in each, itself included (`sizes`), the places of the
/// arguments after them in their nodes (`nexts`), and the `keywords` that words and nodes' words are.
pub fn put_column(out: &mut Answer, row: &Row<'_>, column: &str) {
    let read = read_items(out.alloc(), row.text());
    put_items(out, read, column);
}

fn put_items(out: &mut Answer, read: Result<Items<'_>, Fault>, column: &str) {
    if let Some(items) = out.accepted(read) {
        out.put_after(column, b" ");
        put_each(out, &items, items.root(), column, DEPTH);
    }
}

/// The refusal of each proper prefix, its number and place joined by `@`; `accepted` if it has none, and
/// `another-in-pieces` if its pieces of 1 to 7 bytes have another.
pub fn put_prefixes(out: &mut Answer, input: &[u8]) {
    out.put("refusals");
    for count in 0..input.len() {
        put_prefix(out, &input[..count]);
    }
}

fn put_prefix(out: &mut Answer, prefix: &[u8]) {
    match read_items(out.alloc(), prefix) {
        Ok(_items) => out.put(" accepted"),
        Err(fault) => put_verdict(out, fault),
    }
    if !out.holds(agree_in_many(out.alloc(), prefix)) {
        out.put(" another-in-pieces");
    }
}

fn put_verdict(out: &mut Answer, fault: Fault) {
    match fault {
        Fault::Refused(refusal) => write!(out, " {}@{}", refusal.number(), refusal.place()),
        Fault::Memory(error) => out.note(Err(error)),
    }
}

// What an item and those in it have in a column; in a `tree` the arguments of a node are in brackets.
fn put_each(out: &mut Answer, items: &Items<'_>, id: ItemId, column: &str, depth: u8)
    requires { HasId items.now id }
{
    if put_cell(out, items, id, column).is_none() {
        out.put("none");
    }
    for i in 0..items.arg_count(id) {
        out.put(match column {
            "tree" if i == 0 => "[",
            "tree" => ", ",
            _ => " ",
        });
        if depth > 0
            && let Some(arg) = items.arg(id, i)
        {
            put_each(out, items, arg, column, depth - 1);
        }
    }
    if column == "tree" && items.arg_count(id) > 0 {
        out.put("]");
    }
}

fn put_raw(out: &mut Answer, items: &Items<'_>, id: ItemId)
    requires { HasId items.now id }
{
    let (before, behind) = match items.kind(id) {
        ItemKind::Node => ("", ""),
        ItemKind::Word => ("word ", ""),
        ItemKind::Number => ("number ", ""),
        ItemKind::Text => ("text \"", "\""),
    };
    out.put_after(before, items.raw(id));
    out.put(behind);
}

// None where the item has nothing in the column.
fn put_cell(out: &mut Answer, items: &Items<'_>, id: ItemId, column: &str) -> Option<()>
    requires { HasId items.now id }
{
    match column {
        "tree" => put_raw(out, items, id),
        "places" if items.contains(id) => write!(out, "{}", items.place(id)),
        "places" => return None,
        "closes" => write!(out, "{}", items.close(id)?),
        "numbers" => put_spelled(out, &items.number(id)?, "", b""),
        "sizes" => write!(out, "{}", items.size(id)),
        "nexts" => write!(out, "{}", items.place(items.next(id)?)),
        _ => write!(out, "{:?}", items.keyword(id)?),
    }
    Some(())
}

// The longest text of which every cut is tried.
const LONGEST: usize = 2000;

/// The answer of each piece, and then of `finish`, with `; ` between two: `ok`, the items, or the refusal.
pub fn put_fed(out: &mut Answer, row: &Row<'_>) {
    let mut feeder = Feeder::new(out.alloc());
    for index in 0..row.count() {
        put_taken(out, feeder.feed(row.part(index)));
        out.put("; ");
    }
    put_read(out, feeder.finish());
}

/// What `feed` returns: `ok`, or the refusal.
pub fn put_taken(out: &mut Answer, taken: Result<(), Fault>) {
    if out.accepted(taken).is_some() {
        out.put("ok");
    }
}

/// The items of a text. None if it is refused, which is put, or has another answer in pieces, which is put too.
pub fn read_agreed<'t>(out: &mut Answer, text: &'t [u8]) -> Option<Items<'t>> {
    if !out.made(agree(out.alloc(), text))? {
        out.put("another answer in pieces");
        return None;
    }
    out.accepted(read_items(out.alloc(), text))
}

/// Whether a text that isn't long gives the same answer as a whole, in any two pieces, and in pieces of 1 to 7 bytes.
pub fn agree(alloc: Global, text: &[u8]) -> Result<bool, AllocError> {
    if text.len() > LONGEST {
        return Ok(true);
    }
    let whole = answer_of(read_items(alloc, text), alloc);
    for cut in 0..text.len() {
        let (first, second) = text.split_at(cut);
        if !agrees_in(alloc, &[first, second], &whole)? {
            return Ok(false);
        }
    }
    agree_in_many(alloc, text)
}

// Whether a text gives the same answer as a whole and in pieces of 1 to 7 bytes.
fn agree_in_many(alloc: Global, text: &[u8]) -> Result<bool, AllocError> {
    let whole = answer_of(read_items(alloc, text), alloc);
    for size in 1..8 {
        let pieces: Vec<&[u8]> = text.chunks(size).collect(alloc)?;
        if !agrees_in(alloc, &pieces, &whole)? {
            return Ok(false);
        }
    }
    Ok(true)
}

fn agrees_in(alloc: Global, pieces: &[&[u8]], whole: &Answer) -> Result<bool, AllocError> {
    let feeder = fed(alloc, pieces)?;
    answer_of(feeder.finish(), alloc).is(whole)
}

/// A feeder of these pieces; `finish` returns the refusal of one again.
pub fn fed(alloc: Global, pieces: &[&[u8]]) -> Result<Feeder, AllocError> {
    let mut feeder = Feeder::new(alloc);
    for piece in pieces {
        if let Err(Fault::Memory(error)) = feeder.feed(piece) {
            return Err(error);
        }
    }
    Ok(feeder)
}

/// The items that were read, node by node, or the refusal, as an answer by itself.
pub fn answer_of(read: Result<Items<'_>, Fault>, alloc: Global) -> Answer {
    let mut answer = Answer::new(alloc);
    put_read(&mut answer, read);
    answer
}
