//! Answers and pieces into buffers of the caller's.
ghost use Rattle.crs_c.specs.Buffers.{IsGiven};
ghost use Rattle.crs_c.specs.PieceBuffers.{AreGiven, buffers_of};

use crate::calls::codes::{NO_ROOM, OK};
use crs_explain::Pieces;

/// Puts an answer at the front of a buffer, if that has the room, and returns its length.
#[tactic(auto, unfolding(crate::specs::Buffers::IsGiven))]
pub fn give<T: Copy>(answer: &[T], out: &mut [T], length: &mut usize) -> u32
    ensures { IsGiven answer.now
        (record { items = out.old; told = length.old })
        (record { items = out.new; told = length.new })
        result }
{
    let count = answer.len();
    *length = count;
    if out.len() < count {
        return NO_ROOM;
    }
    let (front, _) = out.split_at_mut(count);
    front.copy_from_slice(answer);
    OK
}

/// Puts the bytes of pieces at the front of a buffer, and where each ends at the front of another, each if it has the
/// room, and returns how many bytes and how many pieces there are.
#[tactic(auto, unfolding(crate::specs::PieceBuffers::AreGiven))]
pub fn give_pieces(
    pieces: &Pieces,
    out: &mut [u8],
    length: &mut usize,
    ends: &mut [usize],
    count: &mut usize,
) -> u32
    ensures { AreGiven pieces.now (buffers_of out.old length.old ends.old count.old)
        (buffers_of out.new length.new ends.new count.new) result }
{
    let first = give(pieces.bytes(), out, length);
    let second = give(pieces.ends(), ends, count);
    if first == OK { second } else { first }
}
