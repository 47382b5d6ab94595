//! A catalogue in memory of the caller's.
ghost use Rattle.std.specs.Prelude.{◌≡◌, length};
ghost use Rattle.std.specs.Borrow.{sem};
ghost use Rattle.crs_group.specs.Catalogue.{CatalogueParts};
ghost use Rattle.crs_c.specs.Catalogues.{IsAdded, IsAddedUnder, IsMadeEmpty, IsPieceAt, line_at};
ghost use Rattle.crs_c.specs.Held.{HeldParts};
ghost use Rattle.crs_c.specs.Places.{catalogue_at, has_room, rules_at};

use crate::{
    HeldRules, Numbered, Piece, Standing, add_text, add_text_under, drop_catalogue, group_count,
    line_number, new_catalogue, text_piece,
};
use crs_group::Catalogue;
use std::alloc::Global;

/// The front of `struct crsdesk_catalogue` of C, which holds a catalogue, or of `struct crsdesk_rules`, which holds
/// rules. How many words C reserves there is only in the header; `layout.c` compares them with what a catalogue and
/// rules need.
#[repr(C)]
pub struct Room {
    hidden: u64,
}

/// Makes a catalogue of no texts, at the level of this number, without memory. Code 0, or 4: no such level, so at full.
#[unsafe(no_mangle)]
pub unsafe extern "C" fn crsdesk_catalogue_new(alloc: Global, at: *mut Room, level: u32) -> u32
    requires* { sem 𝓛 (has_room at) }
    ensures* { ∃ₛ (λ (new : CatalogueParts). sem 𝓛 (catalogue_at at new) ∗ ⌜ IsMadeEmpty level new result ⌝) }
{
    let place = at as *mut Catalogue;
    let (new, code) = new_catalogue(alloc, level);
    place.write(new);
    code
}

/// Adds a text to a catalogue, under a number of the caller's. The code of the answer is 0: the text is in the group of
/// the answer's number, or in none if it is only white space; 1: it spells no CRS, and `refused` says why; 3: memory
/// was refused, and the catalogue is as before.
#[unsafe(no_mangle)]
pub unsafe extern "C" fn crsdesk_catalogue_add(at: *mut Room, number: u64, text: &[u8]) -> Standing
    ghost held: { CatalogueParts }
    requires* { sem 𝓛 (catalogue_at at held) }
    ensures* { ∃ₛ (λ (new : CatalogueParts).
        sem 𝓛 (catalogue_at at new) ∗ ⌜ IsAdded number text.now held new result ⌝) }
{
    let place = at as *mut Catalogue;
    let held = place.read();
    let (held, told) = add_text(held, number, text);
    place.write(held);
    told
}

/// Adds a text to a catalogue under rules, with the texts that are the same under them; a group's text is its form. All
/// texts of a catalogue are added under the same rules. The codes of the answer are the codes of
/// `crsdesk_catalogue_add`. The rules are as before, and the form that they keep is too.
#[unsafe(no_mangle)]
pub unsafe extern "C" fn crsdesk_catalogue_add_under(
    at: *mut Room,
    rules: *mut Room,
    number: u64,
    text: &[u8],
) -> Standing
    ghost held: { CatalogueParts × HeldParts }
    requires* { sem 𝓛 (catalogue_at at held.0) ∗ sem 𝓛 (rules_at rules held.1) }
    ensures* { ∃ₛ (λ (new : CatalogueParts). (sem 𝓛 (catalogue_at at new) ∗ sem 𝓛 (rules_at rules held.1)) ∗
        ⌜ IsAddedUnder held.1.reading.rules number text.now held.0 new result ⌝) }
{
    let place = at as *mut Catalogue;
    let rules_place = rules as *mut HeldRules;
    let held = place.read();
    let under = rules_place.read();
    let (held, under, told) = add_text_under(held, under, number, text);
    place.write(held);
    rules_place.write(under);
    told
}

/// How many groups a catalogue has.
#[unsafe(no_mangle)]
pub unsafe extern "C" fn crsdesk_catalogue_groups(at: *mut Room) -> usize
    ghost held: { CatalogueParts }
    requires* { sem 𝓛 (catalogue_at at held) }
    ensures* { sem 𝓛 (catalogue_at at held) ∗ ⌜ result ≡ length held.groups ⌝ }
{
    let place = at as *mut Catalogue;
    let held = place.read();
    let (held, count) = group_count(held);
    place.write(held);
    count
}

/// The number under which a text of a group was added; the group's texts are counted from 0, in the order in which they
/// were added. Code 0, or 6: there is no such group, or it has no more texts.
#[unsafe(no_mangle)]
pub unsafe extern "C" fn crsdesk_catalogue_line(
    at: *mut Room,
    group: usize,
    index: usize,
) -> Numbered
    ghost held: { CatalogueParts }
    requires* { sem 𝓛 (catalogue_at at held) }
    ensures* { sem 𝓛 (catalogue_at at held) ∗ ⌜ result ≡ line_at held group index ⌝ }
{
    let place = at as *mut Catalogue;
    let held = place.read();
    let (held, found) = line_number(held, group, index);
    place.write(held);
    found
}

/// A piece of a group's canonical text: its bytes from an index on, 240 at most. Code 0, or 6: there is no such group.
#[unsafe(no_mangle)]
pub unsafe extern "C" fn crsdesk_catalogue_piece(at: *mut Room, group: usize, from: usize) -> Piece
    ghost held: { CatalogueParts }
    requires* { sem 𝓛 (catalogue_at at held) }
    ensures* { sem 𝓛 (catalogue_at at held) ∗ ⌜ IsPieceAt held group from result ⌝ }
{
    let place = at as *mut Catalogue;
    let held = place.read();
    let (held, piece) = text_piece(held, group, from);
    place.write(held);
    piece
}

/// Gives back what a catalogue holds. Its memory holds no catalogue then.
#[unsafe(no_mangle)]
pub unsafe extern "C" fn crsdesk_catalogue_free(at: *mut Room)
    ghost held: { CatalogueParts }
    requires* { sem 𝓛 (catalogue_at at held) }
    ensures* { sem 𝓛 (has_room at) }
{
    let place = at as *mut Catalogue;
    let held = place.read();
    drop_catalogue(held);
}
