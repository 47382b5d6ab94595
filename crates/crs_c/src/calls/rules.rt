//! Rules as a caller of C holds them: what each call does to them, which it takes by value and returns, and its answer.
ghost use Rattle.std.specs.Prelude.{◌≡◌, MatchResult};
ghost use Rattle.crs_text.specs.Fault.{refusal_of};
ghost use Rattle.crs_value.specs.Spells.{IsFaultOfText};
ghost use Rattle.crs_c.specs.Held.{nothing_held};
ghost use Rattle.crs_c.specs.Pieces.{IsPiece};
ghost use Rattle.crs_c.specs.RulesCalls.{IsFileRead, IsFormAt, IsFormed, IsOwnForm, file_fault, file_read, form_fault, form_without_level};

use crate::calls::codes::{NO_LEVEL, NO_MEMORY, OK, REFUSED, level_numbered};
use crate::calls::piece::{Piece, piece_of};
use crate::calls::refused::{Refused, no_refusal, place_and_number};
use crate::letting_go::let_go_anywhere;
use crs_rules::laws::files::read_rules_are_steady;
use crs_rules::laws::{forms_are_their_own, rules_are_sound};
use crs_rules::{RulesFault, RulesReader, canon_under};
use crs_text::Fault;
use crs_value::Level;
use crs_writer::Canon;
use std::alloc::Global;
use std::marker::Model;

/// The rules of the files so far, and the last form of a text under them.
#[derive(Drop)]
pub struct HeldRules {
    pub(crate) alloc: Global,
    pub(crate) reader: RulesReader,
    pub(crate) form: Vec<u8>,
}

impl Model for HeldRules {
    ghost use Rattle.crs_c.specs.Held.{HeldParts};
    ghost use Rattle.crs_c.specs.inner.Files.{AreOfFiles};

    ghost Value = { HeldParts };

    ghost view = { λ held. record { reading = held.reader; form = held.form.items } };

    ghost invariant = { λ held. AreOfFiles held.reader };
}

/// The answer to a rules file: `struct crsdesk_rules_standing` of C.
#[repr(C)]
#[derive(Drop)]
pub struct RulesStanding {
    /// The first refused line, with code 1.
    pub line: usize,
    /// The place in that line.
    pub place: usize,
    /// The number of the refusal.
    pub number: u32,
    /// The code.
    pub code: u32,
}

/// The answer to a text under rules: `struct crsdesk_form` of C.
#[repr(C)]
#[derive(Drop)]
pub struct Form {
    /// How many bytes its form has.
    pub length: usize,
    /// Why it spells no CRS, with code 1.
    pub refused: Refused,
    /// The code.
    pub code: u32,
}

// What is answered with this code of a file in which no line is refused.
fn without_line(code: u32) -> RulesStanding
    ensures { result ≡ record file_read { code = code } }
{
    RulesStanding {
        line: 0,
        place: 0,
        number: 0,
        code,
    }
}

// What is answered of a file that wasn't.
fn file_fault(fault: RulesFault) -> RulesStanding
    ensures { result ≡ file_fault fault }
{
    match fault {
        RulesFault::Refused(refusal) => RulesStanding {
            line: refusal.line,
            place: refusal.place,
            number: u32::from(refusal.number),
            code: REFUSED,
        },
        RulesFault::Memory(_) => without_line(NO_MEMORY),
    }
}

// What is answered of a text without a form.
fn form_fault(fault: Fault) -> Form
    ensures { result ≡ form_fault (refusal_of fault) }
{
    match fault.refusal() {
        Some(refusal) => Form {
            length: 0,
            refused: place_and_number(refusal),
            code: REFUSED,
        },
        None => without_form(NO_MEMORY),
    }
}

// What is answered with this code of a text that has no form, but isn't refused.
fn without_form(code: u32) -> Form
    ensures { result ≡ record form_without_level { code = code } }
{
    Form {
        length: 0,
        refused: no_refusal(),
        code,
    }
}

/// No rules.
#[tactic(auto, using(crate::proofs::FilesLemmas::no_files))]
pub fn no_rules(alloc: Global) -> HeldRules
    ensures { result ≡ nothing_held }
{
    HeldRules {
        alloc,
        reader: RulesReader::new(alloc),
        form: Vec::new(alloc),
    }
}

/// Adds the rules of one more file.
#[tactic(auto, unfolding(crate::specs::RulesCalls::IsFileRead))]
pub fn add_file(held: HeldRules, text: &[u8]) -> (HeldRules, RulesStanding)
    ensures { IsFileRead text.now held result.0 result.1 }
{
    let mut held = held;
    let told = match held.reader.read(held.alloc, text) {
        Ok(()) => {
            held.form = Vec::new(held.alloc);
            without_line(OK)
        }
        Err(fault) => file_fault(fault),
    };
    (held, told)
}

/// Keeps the form of a text.
#[tactic(auto, unfolding(crate::specs::RulesCalls::IsFormed))]
pub fn make_form(held: HeldRules, level: u32, text: &[u8]) -> (HeldRules, Form)
    ensures { IsFormed level text.now held result.0 result.1 }
{
    let mut held = held;
    let told = match level_numbered(level) {
        Some(level) => keep_form_at(&mut held, level, text),
        None => without_form(NO_LEVEL),
    };
    (held, told)
}

// The form of a text, which is its own form: no rules of files chain.
fn own_form(held: &HeldRules, level: Level, text: &[u8]) -> Result<Canon, Fault>
    ensures { MatchResult result (λ form. IsOwnForm held.now.reading.rules level text.now form.bytes) (IsFaultOfText text.now) }
{
    forms_are_their_own();
    read_rules_are_steady();
    let rules = held.reader.rules();
    rules_are_sound(rules);
    canon_under(held.alloc, text, level, rules)
}

#[tactic(auto, unfolding(crate::specs::RulesCalls::IsFormAt))]
fn keep_form_at(held: &mut HeldRules, level: Level, text: &[u8]) -> Form
    ensures { IsFormAt level text.now held.old held.new result }
{
    match own_form(held, level, text) {
        Ok(form) => {
            let form = form.into_bytes();
            let told = Form {
                length: form.len(),
                refused: no_refusal(),
                code: OK,
            };
            held.form = form;
            told
        }
        Err(fault) => form_fault(fault),
    }
}

/// A piece of the form that is kept.
pub fn form_piece(held: HeldRules, from: usize) -> (HeldRules, Piece)
    ensures same { result.0 ≡ held }
    ensures piece { IsPiece from result.1 held.form }
{
    let piece = piece_of(&held.form, from);
    (held, piece)
}

/// Drops rules.
pub fn drop_rules(held: HeldRules) {
    let_go_anywhere(held);
}
