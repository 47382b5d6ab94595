//! What each call does to a catalogue, which it takes by value and returns: where a text was placed, and C's numbers.
ghost use Rattle.std.specs.Prelude.{◌≡◌, length};
ghost use Rattle.crs_c.specs.Catalogues.{IsAdded, IsAddedUnder, IsMadeEmpty, IsPieceAt, line_at, standing_of, without_memory};

use crate::calls::codes::{NO_LEVEL, NO_MEMORY, NO_NUMBER, OK, REFUSED, level_numbered};
use crate::calls::piece::{MOST, Piece, piece_of};
use crate::calls::refused::{Refused, no_refusal, place_and_number};
use crate::calls::rules::HeldRules;
use crate::letting_go::let_go_anywhere;
use crs_group::{Catalogue, Placed};
use crs_value::Level;
use std::alloc::Global;

/// Where a text was placed in a catalogue: `struct crsdesk_standing` of C.
#[repr(C)]
#[derive(Drop)]
pub struct Standing {
    /// The number of its group; 0 if it is in none.
    pub group: usize,
    /// Why it spells no CRS, with code 1.
    pub refused: Refused,
    /// The code.
    pub code: u32,
}

/// A line's number: `struct crsdesk_line` of C.
#[repr(C)]
#[derive(Drop)]
pub struct Numbered {
    /// The number under which it was added.
    pub number: u64,
    /// The code.
    pub code: u32,
}

// What is answered of a line that was added.
fn standing_of(place: Placed) -> Standing
    ensures { result ≡ standing_of place }
{
    match place {
        Placed::Blank => in_group(0, OK),
        Placed::Refused(refusal) => Standing {
            group: 0,
            refused: place_and_number(refusal),
            code: REFUSED,
        },
        Placed::Group(number) => in_group(number, OK),
    }
}

// What is answered with this code of a line that isn't refused; its group is 0 where it is in none.
fn in_group(group: usize, code: u32) -> Standing
    ensures { result ≡ record without_memory { group = group; code = code } }
{
    Standing {
        group,
        refused: no_refusal(),
        code,
    }
}

/// An empty catalogue at the level of this number.
#[tactic(auto, unfolding(crate::specs::Catalogues::IsMadeEmpty))]
pub fn new_catalogue(alloc: Global, level: u32) -> (Catalogue, u32)
    ensures { IsMadeEmpty level result.0 result.1 }
{
    match level_numbered(level) {
        Some(level) => (Catalogue::new(alloc, level), OK),
        None => (Catalogue::new(alloc, Level::Full), NO_LEVEL),
    }
}

/// Adds a text.
#[tactic(auto, unfolding(crate::specs::Catalogues::IsAdded))]
pub fn add_text(held: Catalogue, number: u64, text: &[u8]) -> (Catalogue, Standing)
    ensures { IsAdded number text.now held result.0 result.1 }
{
    let mut held = held;
    let told = match held.add(number, text) {
        Ok(place) => standing_of(place),
        Err(_) => in_group(0, NO_MEMORY),
    };
    (held, told)
}

/// Adds a text under rules.
#[tactic(auto, unfolding(crate::specs::Catalogues::IsAddedUnder))]
pub fn add_text_under(
    held: Catalogue,
    rules: HeldRules,
    number: u64,
    text: &[u8],
) -> (Catalogue, HeldRules, Standing)
    ensures { (result.1 ≡ rules) × IsAddedUnder rules.reading.rules number text.now held result.0 result.2 }
{
    let mut held = held;
    let told = match held.add_under(number, text, rules.reader.rules()) {
        Ok(place) => standing_of(place),
        Err(_) => in_group(0, NO_MEMORY),
    };
    (held, rules, told)
}

/// How many groups there are.
pub fn group_count(held: Catalogue) -> (Catalogue, usize)
    ensures same { result.0 ≡ held }
    ensures count { result.1 ≡ length held.groups }
{
    let count = held.groups();
    (held, count)
}

/// The number of a group's text.
pub fn line_number(held: Catalogue, group: usize, index: usize) -> (Catalogue, Numbered)
    ensures same { result.0 ≡ held }
    ensures found { result.1 ≡ line_at held group index }
{
    let found = line_of(&held, group, index);
    (held, found)
}

fn line_of(catalogue: &Catalogue, group: usize, index: usize) -> Numbered
    ensures { result ≡ line_at catalogue.now group index }
{
    let found = match catalogue.lines(group) {
        Some(lines) => lines.get(index),
        None => None,
    };
    let (number, code) = match found {
        Some(number) => (*number, OK),
        None => (0, NO_NUMBER),
    };
    Numbered { number, code }
}

/// A piece of a group's text.
pub fn text_piece(held: Catalogue, group: usize, from: usize) -> (Catalogue, Piece)
    ensures same { result.0 ≡ held }
    ensures piece { IsPieceAt held group from result.1 }
{
    let piece = match held.text(group) {
        Some(text) => piece_of(text, from),
        None => Piece {
            bytes: [0; MOST],
            length: 0,
            code: NO_NUMBER,
        },
    };
    (held, piece)
}

/// Drops a catalogue.
pub fn drop_catalogue(held: Catalogue) {
    let_go_anywhere(held);
}
