//! The kind of the CRS that a text spells, or why it is refused, explained to a person, and as data.
ghost use Rattle.std.specs.Prelude.{◌≡◌, ◌==◌, ℕ, IfOk, MatchOption, MatchResult, if◌then◌else◌};
ghost use Rattle.crs_value.specs.Spells.{IsFaultOfText, Refuses, SpellsKind};
ghost use Rattle.crs_canon.specs.MainTheorem.{IsAccepted};
ghost use Rattle.crs_explain.specs.Explained.{AreExplainedPieces};
ghost use Rattle.crs_c.specs.Explain.{IsExplanation};
ghost use Rattle.crs_c.specs.ExplainPieces.{refusal_and_numbers};
ghost use Rattle.crs_c.specs.PieceBuffers.{AreGiven, buffers_of};

use crate::calls::buffer::give_pieces;
use crate::calls::codes::{OK, REFUSED};
use crate::calls::refused::{Refused, place_and_number};
use crs_explain::{ExplanationPieces, Pieces, refusal_pieces, refusal_text};
use crs_text::{Fault, Refusal, read_items};
use crs_value::{Kind, kind_of, laws};
use std::alloc::{AllocError, Global};

/// The kind of the CRS that a text spells; no value is built.
pub fn kind_of_text(alloc: Global, text: &[u8]) -> Result<Kind, Fault>
    ensures { MatchResult result (SpellsKind text.now) (IsFaultOfText text.now) }
{
    match read_items(alloc, text) {
        Ok(items) => match kind_of(&items) {
            Ok(kind) => Ok(kind),
            Err(refusal) => Err(Fault::Refused(refusal)),
        },
        Err(fault) => Err(fault),
    }
}

// The refusal of a text; none where it spells a CRS.
#[tactic(auto, using(crate::proofs::ExplainLemmas::refused_text))]
fn refusal_of(alloc: Global, text: &[u8]) -> Result<Option<Refusal>, AllocError>
    ensures { IfOk result (λ found. MatchOption found (IsAccepted text.now) (Refuses text.now)) }
{
    match kind_of_text(alloc, text) {
        Ok(_) => Ok(None),
        Err(fault) => match fault.refusal() {
            Some(refusal) => Ok(Some(refusal)),
            None => Err(AllocError),
        },
    }
}

/// The explanation of a text's refusal; nothing for a text that spells a CRS.
pub fn explanation(alloc: Global, text: &[u8]) -> Result<Vec<u8>, AllocError>
    ensures { IfOk result (λ told. IsExplanation text.now told.items) }
{
    laws::one_answer();
    match refusal_of(alloc, text)? {
        Some(refusal) => refusal_text(alloc, text, refusal),
        None => Ok(Vec::new(alloc)),
    }
}

/// A text's refusal, and its explanation in pieces; none for a text that spells a CRS.
pub fn explained_refusal(
    alloc: Global,
    text: &[u8],
) -> Result<Option<(Refusal, ExplanationPieces)>, AllocError>
    ensures { IfOk result (λ found. MatchOption found (IsAccepted text.now)
        (λ e. Refuses text.now e.0 × AreExplainedPieces text.now e.0 e.1)) }
{
    laws::one_answer();
    match refusal_of(alloc, text)? {
        Some(refusal) => {
            let told = refusal_pieces(alloc, text, refusal)?;
            Ok(Some((refusal, told)))
        }
        None => Ok(None),
    }
}

/// A refusal, and where its place is as a person counts: `struct crsdesk_explained` of C.
#[repr(C)]
#[derive(Drop)]
pub struct Explained {
    /// The refusal.
    pub refused: Refused,
    /// The line of its place, counted from 1.
    pub line: usize,
    /// The character of that line at its place, counted from 1.
    pub column: usize,
    /// Where the node begins in which something else is expected; 0 if that isn't known.
    pub node: usize,
}

/// A refusal and the numbers of its explanation.
pub fn refusal_and_numbers(refusal: Refusal, told: &ExplanationPieces) -> Explained
    ensures { result ≡ refusal_and_numbers refusal told.now }
{
    Explained {
        refused: place_and_number(refusal),
        line: told.line,
        column: told.column,
        node: told.node,
    }
}

/// Gives the pieces of a refusal: with code 1 if they have room.
pub fn give_refused(
    pieces: &Pieces,
    out: &mut [u8],
    length: &mut usize,
    ends: &mut [usize],
    count: &mut usize,
) -> u32
    ensures { (given : ℕ) × AreGiven pieces.now (buffers_of out.old length.old ends.old count.old)
        (buffers_of out.new length.new ends.new count.new) given × (result ≡ (if given == 0 then 1 else given)) }
{
    let given = give_pieces(pieces, out, length, ends, count);
    if given == OK { REFUSED } else { given }
}
