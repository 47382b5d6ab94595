//! Rules in memory of the caller's, and forms of texts under them.
ghost use Rattle.std.specs.Borrow.{sem};
ghost use Rattle.crs_c.specs.Held.{HeldParts, nothing_held};
ghost use Rattle.crs_c.specs.RulesCalls.{IsFileRead, IsFormed};
ghost use Rattle.crs_c.specs.Pieces.{IsPiece};
ghost use Rattle.crs_c.specs.Places.{has_room_for_rules, rules_at};

use crate::catalogue::Room;
use crate::{
    Form, HeldRules, Piece, RulesStanding, add_file, drop_rules, form_piece, make_form, no_rules,
};
use std::alloc::Global;

/// Makes no rules: everything counts. They take no memory.
#[unsafe(no_mangle)]
pub unsafe extern "C" fn crsdesk_rules_new(alloc: Global, at: *mut Room)
    requires* { sem 𝓛 (has_room_for_rules at) }
    ensures* { sem 𝓛 (rules_at at nothing_held) }
{
    let place = at as *mut HeldRules;
    let new = no_rules(alloc);
    place.write(new);
}

/// Adds the rules of one more file. The code of the answer is 0: they are added, and no form is kept; 1: the file is
/// refused, with the number of its first refused line, the number of the refusal and its place in the line; 3: memory
/// was refused. With 1 and 3 all is as before.
#[unsafe(no_mangle)]
pub unsafe extern "C" fn crsdesk_rules_add(at: *mut Room, text: &[u8]) -> RulesStanding
    ghost held: { HeldParts }
    requires* { sem 𝓛 (rules_at at held) }
    ensures* { ∃ₛ (λ (new : HeldParts). sem 𝓛 (rules_at at new) ∗ ⌜ IsFileRead text.now held new result ⌝) }
{
    let place = at as *mut HeldRules;
    let held = place.read();
    let (held, told) = add_file(held, text);
    place.write(held);
    told
}

/// Keeps the form of a text under rules, at the level of this number. The code of the answer is 0: the form has so many
/// bytes; 1: the text spells no CRS, and `refused` says why; 3: memory was refused; 4: there is no such level. With
/// another code than 0 the form before it is still kept.
#[unsafe(no_mangle)]
pub unsafe extern "C" fn crsdesk_rules_form(at: *mut Room, level: u32, text: &[u8]) -> Form
    ghost held: { HeldParts }
    requires* { sem 𝓛 (rules_at at held) }
    ensures* { ∃ₛ (λ (new : HeldParts). sem 𝓛 (rules_at at new) ∗ ⌜ IsFormed level text.now held new result ⌝) }
{
    let place = at as *mut HeldRules;
    let held = place.read();
    let (held, told) = make_form(held, level, text);
    place.write(held);
    told
}

/// A piece of the form that is kept: its bytes from an index on, 240 at most, none after its end. Code 0.
#[unsafe(no_mangle)]
pub unsafe extern "C" fn crsdesk_rules_piece(at: *mut Room, from: usize) -> Piece
    ghost held: { HeldParts }
    requires* { sem 𝓛 (rules_at at held) }
    ensures* { sem 𝓛 (rules_at at held) ∗ ⌜ IsPiece from result held.form ⌝ }
{
    let place = at as *mut HeldRules;
    let held = place.read();
    let (held, piece) = form_piece(held, from);
    place.write(held);
    piece
}

/// Gives back what rules hold. Their memory holds no rules then.
#[unsafe(no_mangle)]
pub unsafe extern "C" fn crsdesk_rules_free(at: *mut Room)
    ghost held: { HeldParts }
    requires* { sem 𝓛 (rules_at at held) }
    ensures* { sem 𝓛 (has_room_for_rules at) }
{
    let place = at as *mut HeldRules;
    let held = place.read();
    drop_rules(held);
}
