//! Which hints apply to a refused text, and how they are written.
ghost use Rattle.std.specs.Prelude.{◌≡◌, ◌++◌, ◌∷◌, IfOk, OnOk, codes, decimal};
ghost use Rattle.crs_explain.specs.Explained.{IsOpenText, open_text};
ghost use Rattle.crs_explain.specs.Found.{named_by};

use crate::Made;
use crate::hint::before::{look_before, node_at};
use crate::hint::front::by_front;
use crate::hint::glance::{looked_at, rest};
use crate::hint::place::by_place;
use crate::hint::sentence::BY_PROJ;
use crate::hint::{About, Filling, Hint, NodeStart};
use crate::place::name_text;
use bstr::ByteSlice;
use crs_streams::append_number;
use crs_text::{Refusal, open_delimiter};
use std::alloc::Global;

// The last number of a refusal of the text itself; those of shapes and values are above it.
const LAST_OF_TEXT: u8 = 8;

/// The hints that apply to a refused text, a sentence or more without a line end; nothing if none applies. A hint looks
/// at the text's front, the refusal's place, and what is open there. `AllocError`: no memory for them.
pub fn hints(alloc: Global, text: &[u8], refusal: Refusal) -> Made<Vec<u8>> {
    let whole = by_front(text);
    let before = look_before(text, refusal.place());
    let there = by_place(text, refusal.number(), &before);
    let mut out = Vec::new(alloc);
    let beside = beside(whole, there, refusal.number());
    for hint in [whole, beside].iter().flatten() {
        if !out.is_empty() {
            out.push(b' ')?;
        }
        append_hint(hint, &mut out)?;
    }
    Ok(out)
}

// What to say of the place beside the whole. For a class that isn't read, only damage: behind WKT1 a text may stand.
fn beside<'a>(whole: Option<Hint<'_>>, there: Option<Hint<'a>>, number: u8) -> Option<Hint<'a>> {
    let Some(whole) = whole else { return there };
    let is_of_class = matches!(whole.about, About::Class) && number <= LAST_OF_TEXT;
    let is_of_damage = !matches!(there?.about, About::Behind);
    (is_of_class && is_of_damage).then_some(there?)
}

/// The node open at a refusal, such as `CS[ at 24 is still open`; nothing if none is. `AllocError`: no memory.
pub fn still_open(alloc: Global, text: &[u8], refusal: Refusal) -> Made<Vec<u8>>
    ensures { IfOk result (λ words. IsOpenText words.items) }
{
    let Some(at) = open_delimiter(text, refusal.place()) else {
        return Ok(Vec::new(alloc));
    };
    match rest(text, at) {
        [delimiter, ..] => open_text(alloc, node_at(text, at, *delimiter)),
        [] => Ok(Vec::new(alloc)),
    }
}

fn open_text(alloc: Global, node: NodeStart<'_>) -> Made<Vec<u8>>
    ensures { IfOk result (λ words. words.items ≡ open_text node.entry.keyword.now node.entry.delimiter node.entry.begin) }
{
    let mut words = Vec::new(alloc);
    append_node(node, &mut words)?;
    words.extend_from_slice(b" is still open")?;
    Ok(words)
}

fn append_hint(hint: &Hint<'_>, out: &mut Vec<u8>) -> Made<()> {
    let words = hint.sentence;
    let (front, back) = words.split_once("{}").unwrap_or((words, ""));
    out.extend_from_slice(front.as_bytes())?;
    append_filling(hint.filling, out)?;
    out.extend_from_slice(back.as_bytes())
}

fn append_filling(filling: Filling<'_>, out: &mut Vec<u8>) -> Made<()> {
    match filling {
        Filling::Nothing => Ok(()),
        Filling::Words(words) => out.extend_from_slice(words),
        Filling::Capitals(word) => append_capitals(word, out),
        Filling::Argument(prefix, word) => {
            out.extend_from_slice(prefix)?;
            append_shell_word(word, out)
        }
        Filling::ByProj(transformation) => append_by_proj(transformation, out),
        Filling::Place(begin) => append_number(begin, out),
        Filling::Control(byte) => {
            out.extend_from_slice(format!(in *out.allocator(); "{byte:#04x}")?.as_bytes())
        }
        Filling::Node(node) => append_node(node, out),
        Filling::Inside(node, outer) => {
            append_node(node, out)?;
            out.extend_from_slice(b" is inside ")?;
            append_node(outer, out)
        }
        Filling::Open(front, nodes) => {
            let mut separator = front;
            for node in nodes {
                out.extend_from_slice(separator)?;
                append_node(*node, out)?;
                separator = b", ";
            }
            Ok(())
        }
    }
}

/// A word in capitals, or the front of a long one.
pub(crate) fn append_capitals(word: &[u8], out: &mut Vec<u8>) -> Made<()>
    ensures { OnOk result (out.new.items ≡ out.old.items ++ named_by word.now) }
{
    out.extend_from_slice(&name_text(*out.allocator(), word)?)
}

// The word as it is where a shell takes none of its bytes for anything else, else in single quotes.
fn append_shell_word(word: &[u8], out: &mut Vec<u8>) -> Made<()> {
    let is_plain = |it: &u8| it.is_ascii_alphanumeric() || b"@%+=:,./_-".contains(it);
    if word.iter().all(is_plain) {
        return out.extend_from_slice(word);
    }
    out.push(b'\'')?;
    out.extend_from_slice(&word.replace(*out.allocator(), b"'", b"'\"'\"'")?)?;
    out.extend_from_slice(b"'")
}

// What PROJ does, and what becomes of a transformation.
fn append_by_proj(transformation: &[u8], out: &mut Vec<u8>) -> Made<()> {
    out.extend_from_slice(BY_PROJ)?;
    if transformation.is_empty() {
        return Ok(());
    }
    out.extend_from_slice(b" With ")?;
    out.extend_from_slice(transformation)?;
    out.extend_from_slice(
        b" it becomes a BOUNDCRS, which isn't read: its source CRS loses the \
         transformation, so keep the transformation as part of a key.",
    )
}

// `CS[ at 24`
fn append_node(node: NodeStart<'_>, out: &mut Vec<u8>) -> Made<()>
    ensures { OnOk result (out.new.items ≡ out.old.items ++ (named_by node.entry.keyword.now
        ++ node.entry.delimiter ∷ codes " at " ++ decimal node.entry.begin)) }
{
    append_capitals(node.keyword, out)?;
    out.push(node.delimiter)?;
    out.extend_from_slice(b" at ")?;
    append_number(node.begin, out)
}
