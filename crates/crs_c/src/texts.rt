//! What a text spells, or why it is refused, and canonical texts.
ghost use Rattle.crs_writer.specs.Canonical.{IsCanonicalOf};
ghost use Rattle.crs_c.specs.Canon.{IsCanonAnswer, IsDigestAnswer, IsDigestOf};
ghost use Rattle.crs_c.specs.Check.{IsCheckAnswer};
ghost use Rattle.crs_c.specs.Each.{IsEachAnswer};
ghost use Rattle.crs_c.specs.Explain.{IsExplainAnswer};
ghost use Rattle.crs_c.specs.ExplainPieces.{IsRefusalPiecesAnswer};
ghost use Rattle.crs_c.specs.PieceBuffers.{buffers_of};

use crate::calls::canon::{Wanted, answer_entries};
use crate::calls::codes::kind_number;
use crate::calls::explain::{
    explained_refusal, explanation, give_refused, kind_of_text, refusal_and_numbers,
};
use crate::calls::refused::tell;
use crate::{
    Entry, Explained, NO_LEVEL, NO_MEMORY, OK, REFUSED, Refused, give, give_pieces, level_numbered,
};
use crs_canon::canon;
use sha2::{Digest, Sha256};
use std::alloc::Global;

/// Whether a text spells a CRS, and the kind of the CRS; no value is built.
///
/// 0: it does, and `kind` is the number of its kind. 1: it spells none, and `refused` says why. 3: memory was
/// refused. What a code doesn't mention is as before. ISO 19162:2019, "Coordinate reference systems".
#[unsafe(no_mangle)]
#[tactic(auto, unfolding(crate::specs::Check::IsCheckAnswer))]
pub extern "C" fn crsdesk_check(
    alloc: Global,
    text: &[u8],
    kind: &mut u32,
    refused: &mut Refused,
) -> u32
    ensures { IsCheckAnswer text.now
        (record { answer = kind.old; refused = refused.old })
        (record { answer = kind.new; refused = refused.new })
        result }
{
    match kind_of_text(alloc, text) {
        Ok(found) => {
            *kind = kind_number(found);
            OK
        }
        Err(fault) => tell(fault, REFUSED, refused),
    }
}

/// Why a text spells no CRS, over some lines: its refusal, the line and column, the piece of the line with a caret,
/// what is expected there, what the number means, and a hint if one applies. No bytes if the text spells a CRS.
///
/// 0: the explanation is at the front of `out`; `length` is its number of bytes. 3: memory was refused. 5: it has
/// more bytes than `out`; `length` is their number. What a code doesn't mention is as before.
#[unsafe(no_mangle)]
#[tactic(auto, unfolding(crate::specs::Explain::IsExplainAnswer))]
pub extern "C" fn crsdesk_explain(
    alloc: Global,
    text: &[u8],
    out: &mut [u8],
    length: &mut usize,
) -> u32
    ensures { IsExplainAnswer text.now
        (record { items = out.old; told = length.old })
        (record { items = out.new; told = length.new })
        result }
{
    match explanation(alloc, text) {
        Ok(told) => give(&told, out, length),
        Err(_) => NO_MEMORY,
    }
}

/// Why a text spells no CRS, in pieces: the piece of the line with a caret, in two lines; for 11 to 13, 21 and 25 the
/// line of what is found and what could be there, the keyword of the node in which something else is expected, and what
/// is found; what is open, was meant or is expected; what the number means; hints; and then the name of each that could
/// be there. A piece that doesn't apply has no bytes.
///
/// 0: the text spells a CRS. 1: it spells none, and `explained` says why and where; the bytes of all pieces are at the
/// front of `out`, one after the other, and where each ends at the front of `ends`; `length` and `count` are their
/// numbers. 3: memory was refused. 5: it spells none, and `explained` says why and where; there are more bytes than
/// `out` or more pieces than `ends` has room for; `length` and `count` are their numbers, and a buffer with the room has
/// what it has with 1. What a code doesn't mention is as before.
#[unsafe(no_mangle)]
#[tactic(auto, unfolding(crate::specs::ExplainPieces::IsRefusalPiecesAnswer, crate::specs::ExplainPieces::IsRefusalExplained, crate::specs::ExplainPieces::IsExplanationGiven))]
pub extern "C" fn crsdesk_refusal_pieces(
    alloc: Global,
    text: &[u8],
    out: &mut [u8],
    length: &mut usize,
    ends: &mut [usize],
    count: &mut usize,
    explained: &mut Explained,
) -> u32
    ensures { IsRefusalPiecesAnswer text.now
        (record { buffers = buffers_of out.old length.old ends.old count.old; explained = explained.old })
        (record { buffers = buffers_of out.new length.new ends.new count.new; explained = explained.new })
        result }
{
    match explained_refusal(alloc, text) {
        Ok(Some((refusal, told))) => {
            *explained = refusal_and_numbers(refusal, &told);
            give_refused(&told.pieces, out, length, ends, count)
        }
        Ok(None) => OK,
        Err(_) => NO_MEMORY,
    }
}

/// The canonical text, at a level, of the CRS that a text spells.
///
/// 0: it is at the front of `out`; `length` is its number of bytes. 1: the text spells no CRS, and `refused` says
/// why. 3: memory was refused. 4: there is no such level. 5: the canonical text has more bytes than `out`; `length`
/// is their number. What a code doesn't mention is as before.
#[unsafe(no_mangle)]
#[tactic(auto, unfolding(crate::specs::Canon::IsSpelledAt))]
pub extern "C" fn crsdesk_canon(
    alloc: Global,
    text: &[u8],
    level: u32,
    out: &mut [u8],
    length: &mut usize,
    refused: &mut Refused,
) -> u32
    ensures { IsCanonAnswer level text.now
        (record { answer = record { items = out.old; told = length.old }; refused = refused.old })
        (record { answer = record { items = out.new; told = length.new }; refused = refused.new })
        result }
{
    at_level!(level => match canon(alloc, text, level) {
        Ok(canonical) => give(canonical.bytes(), out, length),
        Err(fault) => tell(fault, REFUSED, refused),
    })
}

/// The digest, by SHA-256 (FIPS 180-4), of the canonical text, at a level, of the CRS that a text spells: 32 bytes.
///
/// 0: it is at the front of `out`; `length` is 32. 1: the text spells no CRS, and `refused` says why. 3: memory was
/// refused. 4: there is no such level. 5: `out` has less room; `length` is 32. What a code doesn't mention is as before.
#[unsafe(no_mangle)]
#[tactic(auto, unfolding(crate::specs::Canon::IsSpelledAt))]
pub extern "C" fn crsdesk_digest(
    alloc: Global,
    text: &[u8],
    level: u32,
    out: &mut [u8],
    length: &mut usize,
    refused: &mut Refused,
) -> u32
    ensures { IsDigestAnswer level text.now
        (record { answer = record { items = out.old; told = length.old }; refused = refused.old })
        (record { answer = record { items = out.new; told = length.new }; refused = refused.new })
        result }
{
    at_level!(level => match canon(alloc, text, level) {
        Ok(canonical) => give(&Sha256::digest(canonical.bytes()), out, length),
        Err(fault) => tell(fault, REFUSED, refused),
    })
}

/// The canonical texts, at a level, of many texts in one buffer, written one after the other into another. The text of
/// an entry is what the buffer has from its beginning to its end; if the buffer has less, the text is what there is.
///
/// 0: each entry has its answer; `done` is their number. 3: memory was refused to the entry after the first `done`. 4:
/// there is no such level, and all is as before. 5: the canonical text of the entry after the first `done` has more
/// bytes than there is room for. With 3 and 5 the first `done` entries have their answers too: code 0, and their
/// canonical text ends at `written_end`, or 1, and they say why their text spells no CRS. All else is as before.
#[unsafe(no_mangle)]
#[tactic(auto, unfolding(crate::specs::Each::IsEachAt))]
pub extern "C" fn crsdesk_canon_each(
    alloc: Global,
    texts: &[u8],
    entries: &mut [Entry],
    level: u32,
    out: &mut [u8],
    done: &mut usize,
) -> u32
    ensures { IsEachAnswer IsCanonicalOf level texts.now
        (record { entries = entries.old; out = out.old; done = done.old })
        (record { entries = entries.new; out = out.new; done = done.new })
        result }
{
    at_level!(level => {
        let (count, code) = answer_entries(alloc, texts, entries, Wanted::Canonical(level), out);
        *done = count;
        code
    })
}

/// The digests of the canonical texts, at a level, of many texts in one buffer: like `crsdesk_canon_each`, but for each
/// text that spells a CRS the 32 bytes of its digest are written.
#[unsafe(no_mangle)]
#[tactic(auto, unfolding(crate::specs::Each::IsEachAt))]
pub extern "C" fn crsdesk_digest_each(
    alloc: Global,
    texts: &[u8],
    entries: &mut [Entry],
    level: u32,
    out: &mut [u8],
    done: &mut usize,
) -> u32
    ensures { IsEachAnswer IsDigestOf level texts.now
        (record { entries = entries.old; out = out.old; done = done.old })
        (record { entries = entries.new; out = out.new; done = done.new })
        result }
{
    at_level!(level => {
        let (count, code) = answer_entries(alloc, texts, entries, Wanted::Digest(level), out);
        *done = count;
        code
    })
}
