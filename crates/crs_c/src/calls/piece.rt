//! A piece of a text, as C has it.
ghost use Rattle.std.specs.Prelude.{◌≡◌, ◌≤◌, length, take, drop};
ghost use Rattle.crs_c.specs.Pieces.{IsPiece};

use crate::calls::codes::OK;

// The most bytes of a piece.
pub(crate) const MOST: usize = 240;

/// A piece of a text: `struct crsdesk_piece` of C.
#[repr(C)]
#[derive(Drop)]
pub struct Piece {
    /// Its bytes at the front, and zeros behind them.
    pub bytes: [u8; MOST],
    /// How many.
    pub length: usize,
    /// The code.
    pub code: u32,
}

pub(crate) fn piece_of(text: &[u8], from: usize) -> Piece
    ensures { IsPiece from result text.now }
{
    let piece = front_of(rest_of(text, from), MOST);
    let mut bytes = [0; MOST];
    let (front, _) = bytes.split_at_mut(piece.len());
    front.copy_from_slice(piece);
    Piece {
        bytes,
        length: piece.len(),
        code: OK,
    }
}

// The bytes from an index on.
#[tactic(auto, using(std::proofs::lemmas::List::drop_all))]
pub(crate) fn rest_of(text: &[u8], from: usize) -> &[u8]
    ensures { result.now ≡ drop from text.now }
{
    if from >= text.len() {
        return &[];
    }
    let (_, rest) = text.split_at(from);
    rest
}

// The first bytes, so many at most.
pub(crate) fn front_of(text: &[u8], most: usize) -> &[u8]
    ensures value { result.now ≡ take most text.now }
    ensures at_most { length result.now ≤ most }
{
    if text.len() <= most {
        return text;
    }
    let (front, _) = text.split_at(most);
    front
}
