//! A few texts in ascending order of their bytes, each once. A set of few members needs no more than three vectors.
ghost use Rattle.std.specs.Prelude.{◌≡◌, ◌≤◌, ◌++◌, ◌∷◌, MatchOption, OnOk, drop, length, take};
ghost use Rattle.crs_normal.specs.inner.SpelledItems.{put};
ghost use Rattle.crs_writer.specs.SetText.{commas};
ghost use Rattle.crs_writer.specs.inner.Spans.{AreInOrder, AreWithin, IsPutAmong, IsWithin, text_at, texts_at};

use crate::append;
use crate::parts::Appended;
use crs_normal::laws::sets::texts_are_in_order;
use std::cmp::Ordering;

/// Where a text is among bytes: its first byte, and behind its last. Profile.
#[derive(Clone, Copy)]
pub struct Span {
    pub(crate) start: usize,
    pub(crate) end: usize,
}

/// Texts in order. Profile.
#[derive(Drop)]
pub struct Texts {
    /// Their bytes, one after another as they came.
    pub(crate) bytes: Vec<u8>,
    /// Where each is among the bytes, in order.
    pub(crate) spans: Vec<Span>,
    /// Room for a text that is made apart first; its bytes are lost.
    pub(crate) room: Vec<u8>,
}

fn text_at(bytes: &[u8], span: Span) -> &[u8]
    requires { IsWithin bytes.now span }
    ensures { result.now ≡ text_at bytes.now span }
{
    &bytes[span.start..span.end]
}

// How many of the ordered texts go before a text. None: it is one of them.
fn place_of(text: &[u8], bytes: &[u8], spans: &[Span]) -> Option<usize>
    requires { AreInOrder bytes.now spans.now }
    ensures { MatchOption result (put (λ b. b) text.now (texts_at bytes.now spans.now) ≡ texts_at bytes.now spans.now)
        (λ at. (at ≤ length spans.now) × (put (λ b. b) text.now (texts_at bytes.now spans.now)
        ≡ take at (texts_at bytes.now spans.now) ++ text.now ∷ drop at (texts_at bytes.now spans.now))) }
{
    let mut at = spans.len();
    while at > 0 {
        match text.cmp(text_at(bytes, spans[at - 1])) {
            Ordering::Less => at -= 1,
            Ordering::Equal => return None,
            Ordering::Greater => return Some(at),
        }
    }
    Some(0)
}

fn rest_of(bytes: &[u8], start: usize) -> &[u8]
    requires { start ≤ length bytes.now }
    ensures { result.now ≡ drop start bytes.now }
{
    &bytes[start..]
}

// Puts the text that begins at `start`, and ends with the bytes, among the others.
pub(crate) fn put_last(bytes: &mut Vec<u8>, spans: &mut Vec<Span>, start: usize) -> Appended
    requires start { start ≤ length bytes.old.items }
    requires order { AreInOrder (take start bytes.old.items) spans.old.items }
    ensures { OnOk result (IsPutAmong (drop start bytes.old.items) (take start bytes.old.items) spans.old.items
        bytes.new.items spans.new.items) }
{
    texts_are_in_order();
    let end = bytes.len();
    match place_of(rest_of(bytes, start), bytes, spans) {
        None => bytes.truncate(start),
        Some(at) => spans.insert(at, Span { start, end })?,
    }
    Ok(())
}

// Appends the texts in order, a comma before each.
pub(crate) fn write_spans(out: &mut Vec<u8>, bytes: &[u8], spans: &[Span]) -> Appended
    requires { AreWithin bytes.now spans.now }
    ensures { OnOk result (out.new.items ≡ out.old.items ++ commas (texts_at bytes.now spans.now)) }
{
    for span in spans {
        append(out, b",")?;
        append(out, text_at(bytes, *span))?;
    }
    Ok(())
}
