//! How the structs that C shares with the library are laid out in memory. `layout.c` compares it with the header when
//! the library is built; the finished library doesn't export these calls.
ghost use Rattle.std.specs.Prelude.{◌≡◌};
ghost use Rattle.crs_c.specs.Layout.{marked_refusal, marks, sizes};

use crate::{Entry, Explained, Form, HeldRules, Numbered, Piece, Refused, RulesStanding, Standing};
use crs_group::Catalogue;
use std::mem::{align_of, size_of};

/// Sizes in bytes.
#[repr(C)]
#[derive(Drop)]
pub struct Sizes {
    /// What a catalogue takes of `struct crsdesk_catalogue`.
    pub catalogue: usize,
    /// The alignment that a catalogue needs.
    pub alignment: usize,
    /// What rules take of `struct crsdesk_rules`.
    pub rules: usize,
    /// The alignment that rules need.
    pub rules_alignment: usize,
    /// `struct crsdesk_refusal`.
    pub refusal: usize,
    /// `struct crsdesk_standing`.
    pub standing: usize,
    /// `struct crsdesk_line`.
    pub line: usize,
    /// `struct crsdesk_piece`.
    pub piece: usize,
    /// `struct crsdesk_rules_standing`.
    pub rules_standing: usize,
    /// `struct crsdesk_form`.
    pub form: usize,
    /// `struct crsdesk_explained`.
    pub explained: usize,
    /// `struct crsdesk_entry`.
    pub entry: usize,
}

/// The sizes.
#[unsafe(no_mangle)]
pub extern "C" fn crsdesk_layout_sizes() -> Sizes
    ensures { result ≡ sizes }
{
    Sizes {
        catalogue: size_of::<Catalogue>(),
        alignment: align_of::<Catalogue>(),
        rules: size_of::<HeldRules>(),
        rules_alignment: align_of::<HeldRules>(),
        refusal: size_of::<Refused>(),
        standing: size_of::<Standing>(),
        line: size_of::<Numbered>(),
        piece: size_of::<Piece>(),
        rules_standing: size_of::<RulesStanding>(),
        form: size_of::<Form>(),
        explained: size_of::<Explained>(),
        entry: size_of::<Entry>(),
    }
}

/// The structs, with a mark in each field.
#[repr(C)]
#[derive(Drop)]
pub struct Marks {
    /// A refusal.
    pub refusal: Refused,
    /// Where a text was placed.
    pub standing: Standing,
    /// A line's number.
    pub line: Numbered,
    /// A piece of a text.
    pub piece: Piece,
    /// The answer to a rules file.
    pub rules_standing: RulesStanding,
    /// The answer to a text under rules.
    pub form: Form,
    /// A refusal and its place as a person counts.
    pub explained: Explained,
    /// A text of many.
    pub entry: Entry,
}

/// The marks.
#[unsafe(no_mangle)]
pub extern "C" fn crsdesk_layout_marks() -> Marks
    ensures { result ≡ marks }
{
    Marks {
        refusal: marked_refusal(),
        standing: Standing {
            group: 3_333_333_333_333_333_333,
            refused: marked_refusal(),
            code: 4_000_000_004,
        },
        line: Numbered {
            number: 5_555_555_555_555_555_555,
            code: 4_000_000_006,
        },
        piece: Piece {
            bytes: [7; 240],
            length: 8_888_888_888_888_888_888,
            code: 4_000_000_009,
        },
        rules_standing: RulesStanding {
            line: 1_111_111_111_111_111_112,
            place: 2_222_222_222_222_222_223,
            number: 2_222_222_228,
            code: 4_000_000_010,
        },
        form: Form {
            length: 5_555_555_555_555_555_556,
            refused: marked_refusal(),
            code: 4_000_000_011,
        },
        explained: Explained {
            refused: marked_refusal(),
            line: 1_111_111_111_111_111_113,
            column: 2_222_222_222_222_222_224,
            node: 3_333_333_333_333_333_335,
        },
        entry: Entry {
            begin: 1_111_111_111_111_111_114,
            end: 2_222_222_222_222_222_225,
            written_end: 3_333_333_333_333_333_336,
            place: 4_444_444_444_444_444_445,
            number: 2_222_222_226,
            code: 4_000_000_012,
        },
    }
}

fn marked_refusal() -> Refused
    ensures { result ≡ marked_refusal }
{
    Refused {
        place: 1_111_111_111_111_111_111,
        number: 2_222_222_222,
    }
}
