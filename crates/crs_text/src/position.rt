//! A place of a text as a person counts it: its line and its column.
ghost use Rattle.std.specs.Prelude.{◌≡◌, ◌≤◌, length, take, drop};
ghost use Rattle.crs_text.specs.Position.{feeds, characters, BeginsLine, EndsLine, IsPosition};

use crate::lexing::{front_of, rest_of};
use bstr::ByteSlice;

/// Where a place of a text is, and its line, `&text[begin..end]`. Profile.
#[derive(Clone, Copy, Debug, PartialEq, Eq)]
pub struct Position {
    /// The line, counted from 1.
    pub line: usize,
    /// The column, which counts the line's characters from 1.
    pub column: usize,
    /// Where the line's bytes begin.
    pub begin: usize,
    /// Where they end, without the line feed.
    pub end: usize,
}

// How many line feeds the bytes have.
fn feeds(bytes: &[u8]) -> usize
    ensures { result ≡ feeds bytes.now }
{
    bytes.iter().filter(|b| **b == b'\n').count()
}

// How many characters begin in the bytes: bytes from 0x80 to 0xBF continue one.
fn characters(bytes: &[u8]) -> usize
    ensures { result ≡ characters bytes.now }
{
    bytes.iter().filter(|b| !matches!(**b, 0x80..=0xBF)).count()
}

// Where the last line of these bytes begins.
fn last_line(bytes: &[u8]) -> usize
    ensures within { result ≤ length bytes.now }
    ensures begins { BeginsLine (take result bytes.now) }
    ensures one_line { feeds (drop result bytes.now) ≡ 0 }
{
    match bytes.rfind_byte(b'\n') {
        Some(feed) => feed + 1,
        None => 0,
    }
}

// Where the first line of these bytes ends.
fn first_line(bytes: &[u8]) -> usize
    ensures within { result ≤ length bytes.now }
    ensures one_line { feeds (take result bytes.now) ≡ 0 }
    ensures ends { EndsLine (drop result bytes.now) }
{
    match bytes.find_byte(b'\n') {
        Some(feed) => feed,
        None => bytes.len(),
    }
}

/// Where this place of the text is; the text's end is a place too.
///
/// A line ends only at a line feed: a carriage return is a character of its line. A byte from 128 to
/// 191 continues a character, and isn't counted. Time is linear in the text. Profile.
pub fn position_of(text: &[u8], place: usize) -> Position
    requires { place ≤ length text.now }
    ensures position { IsPosition text.now place result }
    ensures within { (result.begin ≤ place) × (place ≤ result.end) × (result.end ≤ length text.now) }
{
    let front = front_of(text, place);
    let begin = last_line(front);
    Position {
        line: 1 + feeds(front_of(front, begin)),
        column: 1 + characters(rest_of(front, begin)),
        begin,
        end: place + first_line(rest_of(text, place)),
    }
}
