//! The piece of a line at a place, and below it a caret under the place.
ghost use Rattle.std.specs.Prelude.{◌≡◌, ◌++◌, ◌≤◌, ◌-◌, ℕ, List, IfOk, IfSome, OnOk, length, take, drop};
ghost use Rattle.crs_explain.specs.Excerpt.{IsExcerpt, blanks, blanks_below, is_hidden, printed, printed_text, shown_place};

use crate::Made;
use crate::place::rest_of;
use bstr::{ByteSlice, ByteVec};
use crs_text::position_of;
use std::alloc::Global;
use ucd_category::GeneralCategory;
use unicode_width::UnicodeWidthChar;

// How many characters of the line are shown before the place, and from the place on.
const BEFORE: usize = 50;

const BEHIND: usize = 25;

// The most bytes that so many characters have.
const BYTES_BEFORE: usize = 200;

const BYTES_BEHIND: usize = 100;

/// The piece of the line at a place, and a caret under the place, in two lines.
pub(crate) fn excerpt(alloc: Global, text: &[u8], place: usize) -> Made<Vec<u8>>
    requires { place ≤ length text.now }
    ensures { IfOk result (λ lines. IsExcerpt text.now place lines.items) }
{
    let shown = shown_place(text, place);
    let position = position_of(text, shown);
    let left = before_place(between(text, position.begin, shown));
    let right = behind_place(between(text, shown, position.end));
    let mut out = Vec::from_slice(alloc, b"  ")?;
    append_printed(left, &mut out)?;
    append_printed(right, &mut out)?;
    out.extend_from_slice(b"\n  ")?;
    append_blanks(left, &mut out)?;
    out.extend_from_slice(b"^\n")?;
    Ok(out)
}

fn between(text: &[u8], begin: usize, end: usize) -> &[u8]
    requires ordered { begin ≤ end }
    requires within { end ≤ length text.now }
    ensures { result.now ≡ take (end - begin) (drop begin text.now) }
{
    &text[begin..end]
}

// A place at the end of the text moves to the end of what it says, since the last line may be empty.
fn shown_place(text: &[u8], place: usize) -> usize
    requires { place ≤ length text.now }
    ensures value { result ≡ shown_place text.now place }
    ensures within { result ≤ length text.now }
{
    if place == text.len() {
        text.trim_ascii_end().len()
    } else {
        place
    }
}

// The last characters of the bytes.
fn before_place(bytes: &[u8]) -> &[u8]
    ensures { (front : List ℕ) × (bytes.now ≡ front ++ result.now) }
{
    let hidden = bytes.len().saturating_sub(BYTES_BEFORE);
    let last = rest_of(bytes, hidden);
    let more = last.chars().count().saturating_sub(BEFORE);
    match last.char_indices().nth(more) {
        Some((begin, _, _)) => rest_of(bytes, hidden.saturating_add(begin)),
        None => last,
    }
}

// The first characters of the bytes, without the white space at their end.
fn behind_place(bytes: &[u8]) -> &[u8]
    ensures { (rest : List ℕ) × (bytes.now ≡ result.now ++ rest) }
{
    let most = bytes.len().min(BYTES_BEHIND);
    let end = match between(bytes, 0, most).char_indices().nth(BEHIND) {
        Some((end, _, _)) => end.min(most),
        None => most,
    };
    between(bytes, 0, end).trim_ascii_end()
}

// Appends bytes as they are printed.
fn append_printed(bytes: &[u8], out: &mut Vec<u8>) -> Made<()>
    ensures { OnOk result (out.new.items ≡ out.old.items ++ printed_text bytes.now) }
{
    for c in bytes.chars() {
        out.push_char(printed(c))?;
    }
    Ok(())
}

// Appends blanks as wide as bytes that are printed.
fn append_blanks(bytes: &[u8], out: &mut Vec<u8>) -> Made<()>
    ensures { OnOk result (out.new.items ≡ out.old.items ++ blanks_below bytes.now) }
{
    for c in bytes.chars() {
        out.extend_from_slice(blanks(printed(c).width()))?;
    }
    Ok(())
}

fn blanks(columns: Option<usize>) -> &'static [u8]
    requires { IfSome columns (λ n. n ≤ 3) }
    ensures { result.now ≡ blanks columns }
{
    match columns {
        Some(columns) => &b"   "[..columns],
        None => b"",
    }
}

// The character as it is printed: a blank for a tab, and the replacement character for what can't be printed, such as
// control characters, ends of lines, and what reverses the direction of a text.
fn printed(c: char) -> char
    ensures { result ≡ printed c }
{
    if c == '\t' {
        ' '
    } else if c == ' ' {
        c
    } else if is_hidden(GeneralCategory::for_char(c)) {
        '\u{fffd}'
    } else {
        c
    }
}

fn is_hidden(category: GeneralCategory) -> bool
    ensures { result ≡ is_hidden category }
{
    matches!(
        category,
        GeneralCategory::Control
            | GeneralCategory::Format
            | GeneralCategory::Surrogate
            | GeneralCategory::PrivateUse
            | GeneralCategory::Unassigned
            | GeneralCategory::SpaceSeparator
            | GeneralCategory::LineSeparator
            | GeneralCategory::ParagraphSeparator
    )
}
