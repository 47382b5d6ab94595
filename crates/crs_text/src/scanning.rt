//! From a text to its items, in one pass: each token is found, and the table takes it or refuses it.
ghost use Rattle.std.specs.Prelude.{◌≡◌, ◌+◌, ◌≤◌, ◌<◌, ℕ, List, length, drop, true, MatchResult, IfSome, IsTrue};
ghost use Rattle.std.specs.List.{prefix_len};
ghost use Rattle.crs_text.specs.Tokens.{Forms, opening, is_letter, is_white, BeginsWith};
ghost use Rattle.crs_text.specs.TextFault.{IsTextFault, SpellsNode};
ghost use Rattle.crs_text.specs.inner.Scan.{IsReached, IsFurther, IsPassed, IsTaken, IsStoppedBy, IsScanned};
ghost use Rattle.crs_text.specs.inner.Lexing.{IsLexed};
ghost use Rattle.crs_text.specs.Items.{keyword_at};
ghost use Rattle.crs_text.specs.inner.Table.{flat_single, IsStep};

use crate::fault::Fault;
use crate::items::{ItemKind, Items};
use crate::keyword::{Keyword, front_keyword};
use crate::lexing::{Lexed, front_of, plain_number, plain_text, rest_of, token_at};
use crate::refusal::Reason;
use crate::runs::{ByteKind, Digits, is_letter, is_white, letters_length};
use crate::table::{Opened, Table};
use std::alloc::Global;

// A number, text or word: whether the table takes it.
#[inline(always)]
fn take_single(
    table: &mut Table,
    kind: ItemKind,
    at: usize,
    raw: &[u8],
    keyword: Option<Keyword>,
) -> Result<bool, Fault>
    requires { keyword ≡ keyword_at kind raw.now }
    ensures { MatchResult result (λ taken. IsStep (flat_single table.old kind at raw.now) taken table.old table.new)
        (λ fault. (text : List ℕ) → IsStoppedBy text at table.old fault) }
{
    table.single(kind, at, raw, keyword).map_err(Fault::Memory)
}

/// What begins at this place, if it is a token that the table takes; `taken` is how many bytes it has.
///
/// That count comes back by reference, as does the place that is reached: a count and a fault that share the room of
/// one answer are kept byte by byte, which costs some four instructions a token.
#[inline(always)]
pub(crate) fn take_lexed(
    table: &mut Table,
    text: &[u8],
    at: usize,
    lexed: Lexed,
    taken: &mut usize,
) -> Result<(), Fault>
    requires more { at < length text.now }
    requires lexed { IsLexed (drop at text.now) lexed }
    ensures { MatchResult result (λ _. IsTaken text.now at table.old table.new taken.new)
        (IsStoppedBy text.now at table.old) }
{
    let left = rest_of(text, at);
    let (was_taken, size) = match lexed {
        Lexed::Number { length } => {
            let raw = front_of(left, length);
            (take_single(table, ItemKind::Number, at, raw, None)?, length)
        }
        Lexed::Text { length } => {
            let raw = front_of(rest_of(left, 1), length);
            (
                take_single(table, ItemKind::Text, at, raw, None)?,
                length + 2,
            )
        }
        Lexed::Word { length } => {
            let keyword = front_keyword(left, length);
            let raw = front_of(left, length);
            (
                take_single(table, ItemKind::Word, at, raw, keyword)?,
                length,
            )
        }
        Lexed::Comma => (table.comma(), 1),
        Lexed::Closing { square } => (table.close(at, square), 1),
        Lexed::Opening { square } => match table.open(square) {
            Opened::Taken => (true, 1),
            Opened::TooDeep => return Err(Fault::Refused(Reason::TooDeep.at(at))),
            Opened::Refused => (false, 1),
        },
        Lexed::Flaw { reason, skip } => return Err(Fault::Refused(reason.at(at + skip))),
    };
    if !was_taken {
        return Err(Fault::Refused(Reason::Unexpected.at(at)));
    }
    *taken = size;
    Ok(())
}

/// Where the white space that begins at `end` has an end.
#[inline(always)]
pub(crate) fn after_white(text: &[u8], end: usize) -> usize
    requires { end ≤ length text.now }
    ensures { result ≡ end + prefix_len is_white (drop end text.now) }
{
    let mut at = end;
    while at < text.len() {
        if !is_white(text[at]) {
            return at;
        }
        at += 1;
    }
    at
}

// The place behind a comma that comes here, if the table takes it.
#[inline(always)]
fn past_comma(table: &mut Table, text: &[u8], at: usize) -> usize
    requires { IsPassed text.now table.old at }
    ensures passed { IsPassed text.now table.new result }
    ensures further { at ≤ result }
{
    if at < text.len() && text[at] == b',' && table.comma() {
        at + 1
    } else {
        at
    }
}

// Takes this token, which begins here, and a comma right behind it; moves the place past them and white space. Each
// caller knows what kind of token it is, so that each kind has code of its own.
#[inline(always)]
fn pass(table: &mut Table, text: &[u8], at: &mut usize, lexed: Lexed) -> Result<(), Fault>
    requires more { at.old < length text.now }
    requires reached { IsReached text.now table.old at.old }
    requires lexed { IsLexed (drop at.old text.now) lexed }
    ensures { MatchResult result (λ _. IsFurther text.now at.old table.new at.new) (IsTextFault text.now) }
{
    let mut taken = 0;
    take_lexed(table, text, *at, lexed, &mut taken)?;
    let end = past_comma(table, text, *at + taken);
    *at = after_white(text, end);
    Ok(())
}

// Whatever is here.
#[inline(never)]
fn pass_any(table: &mut Table, text: &[u8], at: &mut usize) -> Result<(), Fault>
    requires more { at.old < length text.now }
    requires reached { IsReached text.now table.old at.old }
    ensures { MatchResult result (λ _. IsFurther text.now at.old table.new at.new) (IsTextFault text.now) }
{
    let lexed = token_at(rest_of(text, *at));
    pass(table, text, at, lexed)
}

// The same with a place and an answer of its own, so that those of the common tokens can stay in registers.
#[inline(always)]
fn pass_else(table: &mut Table, text: &[u8], at: &mut usize) -> Result<(), Fault>
    requires more { at.old < length text.now }
    requires reached { IsReached text.now table.old at.old }
    ensures { MatchResult result (λ _. IsFurther text.now at.old table.new at.new) (IsTextFault text.now) }
{
    let mut place = *at;
    pass_any(table, text, &mut place)?;
    *at = place;
    Ok(())
}

// The token here, if it is seen by a quick look.
#[inline(always)]
fn pass_if(table: &mut Table, text: &[u8], at: &mut usize, seen: Option<Lexed>) -> Result<(), Fault>
    requires more { at.old < length text.now }
    requires reached { IsReached text.now table.old at.old }
    requires lexed { IfSome seen (IsLexed (drop at.old text.now)) }
    ensures { MatchResult result (λ _. IsFurther text.now at.old table.new at.new) (IsTextFault text.now) }
{
    match seen {
        Some(lexed) => pass(table, text, at, lexed),
        None => pass_else(table, text, at),
    }
}

// Whether a square delimiter comes here.
#[inline(always)]
fn is_opening(text: &[u8], at: usize) -> bool
    requires { at ≤ length text.now }
    ensures { IsTrue result → (at < length text.now)
        × Forms (length text.now) (opening true) (drop at text.now) (drop (at + 1) text.now) }
{
    at < text.len() && text[at] == b'['
}

// A word of so many bytes at this place with the square delimiter right behind it.
#[inline(always)]
fn pass_node(table: &mut Table, text: &[u8], at: &mut usize, count: usize) -> Result<(), Fault>
    requires within { at.old + count < length text.now }
    requires reached { IsReached text.now table.old at.old }
    requires lexed { IsLexed (drop at.old text.now) (Lexed.Word count) }
    requires opening { Forms (length text.now) (opening true) (drop (at.old + count) text.now)
        (drop (at.old + count + 1) text.now) }
    ensures { MatchResult result (λ _. IsFurther text.now at.old table.new at.new) (IsTextFault text.now) }
{
    let start = *at;
    let left = rest_of(text, start);
    let keyword = front_keyword(left, count);
    if !table
        .node(start, front_of(left, count), keyword)
        .map_err(Fault::Memory)?
    {
        return pass_else(table, text, at);
    }
    *at = after_white(text, start + count + 1);
    Ok(())
}

// A word at this place: most are of fewer than sixteen letters alone, and begin a node.
#[inline(always)]
fn pass_word(table: &mut Table, text: &[u8], at: &mut usize) -> Result<(), Fault>
    requires more { at.old < length text.now }
    requires reached { IsReached text.now table.old at.old }
    requires letter { BeginsWith is_letter (drop at.old text.now) }
    ensures { MatchResult result (λ _. IsFurther text.now at.old table.new at.new) (IsTextFault text.now) }
{
    match letters_length(rest_of(text, *at)) {
        Some(length) if is_opening(text, *at + length) => pass_node(table, text, at, length),
        Some(length) => pass(table, text, at, Lexed::Word { length }),
        None => pass_else(table, text, at),
    }
}

// Takes the token at this place, and a comma or a delimiter right behind it; moves the place past them and white space.
// By tests in a row, which are predicted better than one jump to many places.
#[inline(always)]
fn advance(table: &mut Table, text: &[u8], at: &mut usize) -> Result<(), Fault>
    requires more { at.old < length text.now }
    requires reached { IsReached text.now table.old at.old }
    ensures { MatchResult result (λ _. IsFurther text.now at.old table.new at.new) (IsTextFault text.now) }
{
    let first = text[*at];
    if first == b'"' {
        pass_if(table, text, at, plain_text(rest_of(text, *at)))
    } else if first == b']' {
        pass(table, text, at, Lexed::Closing { square: true })
    } else if is_letter(first) {
        pass_word(table, text, at)
    } else if Digits::has(first) {
        pass_if(table, text, at, plain_number(rest_of(text, *at)))
    } else if first == b',' {
        pass(table, text, at, Lexed::Comma)
    } else if first == b'(' {
        pass(table, text, at, Lexed::Opening { square: false })
    } else if first == b')' {
        pass(table, text, at, Lexed::Closing { square: false })
    } else if first == b'[' {
        pass(table, text, at, Lexed::Opening { square: true })
    } else {
        pass_if(table, text, at, plain_number(rest_of(text, *at)))
    }
}

// Reads the last bytes of the text, from this place on: Ok where all tokens are one whole node. `advance` is called in
// one place alone, since the compiler then makes its code part of the loop there.
#[inline(never)]
fn scan_last(table: &mut Table, text: &[u8], from: usize) -> Result<(), Fault>
    requires { IsReached text.now table.old from }
    ensures { MatchResult result (λ _. IsScanned text.now table.new) (IsTextFault text.now) }
{
    let mut at = from;
    while at < text.len() {
        pass_any(table, text, &mut at)?;
    }
    if table.is_whole() {
        Ok(())
    } else {
        Err(Fault::Refused(Reason::UnexpectedEnd.at(text.len())))
    }
}

// With so many bytes left a token's first bytes are looked at with no further test for the end of the text.
const ROOM: usize = 32;

/// Reads the rest of the text, from this place on: Ok where all its tokens are one whole node.
pub(crate) fn scan_from(table: &mut Table, text: &[u8], from: usize) -> Result<(), Fault>
    requires { IsReached text.now table.old from }
    ensures { MatchResult result (λ _. IsScanned text.now table.new) (IsTextFault text.now) }
{
    let mut at = from;
    while text.len() - at >= ROOM {
        advance(table, text, &mut at)?;
    }
    scan_last(table, text, at)
}

/// Most texts have fewer items than one in so many bytes; for others the table of rows grows.
const BYTES_A_ROW: usize = 8;

/// The items of a text, which borrow it.
///
/// `Refused`: the text is no node, with a number from 1 to 8 and the place of the first fault.
/// `Memory`: a row of the table was refused. Time and memory are linear in the text.
/// ISO 19162:2019, "Backus-Naur Form (BNF) syntax"; the limits are the profile's.
pub fn read_items<'a>(alloc: Global, text: &'a [u8]) -> Result<Items<'a>, Fault>
    ensures { MatchResult result (SpellsNode text.now) (IsTextFault text.now) }
{
    let rows = Vec::with_capacity(alloc, text.len() / BYTES_A_ROW).map_err(Fault::Memory)?;
    items_in(Table::new(rows), text, after_white(text, 0))
}

/// The items of a text; the table shows the items before this place.
#[inline(always)]
pub(crate) fn items_in<'a>(mut table: Table, text: &'a [u8], at: usize) -> Result<Items<'a>, Fault>
    requires { IsReached text.now table at }
    ensures { MatchResult result (SpellsNode text.now) (IsTextFault text.now) }
{
    scan_from(&mut table, text, at)?;
    Ok(Items::from_table(text, table))
}
