//! How far runs of bytes go, sixteen bytes at a time.
ghost use Rattle.std.specs.Prelude.{◌≡◌, ◌≤◌, ℕ, Bool, length, IsTrue, IsFalse, IfSome};
ghost use Rattle.std.specs.List.{prefix_len};
ghost use Rattle.crs_text.specs.Tokens.{StopsAt};
ghost use Rattle.crs_text.specs.inner.Runs.{first_set, is_plain_ascii};
ghost use Rattle.crs_text.specs.Tokens as tokens;
ghost use Rattle.crs_decimal.specs.Numbers as spelling;

use crate::lexing::rest_of;
use std::simd::prelude::*;

/// How many bytes are loaded at once.
const LANES: usize = 16;

/// Whether a byte is white space.
#[inline(always)]
pub(crate) fn is_white(byte: u8) -> bool
    ensures { result ≡ tokens.is_white byte }
{
    byte == b' ' || byte == b'\t' || byte == b'\n' || byte == b'\r'
}

/// Whether a byte is a letter.
#[inline(always)]
pub(crate) fn is_letter(byte: u8) -> bool
    ensures { result ≡ tokens.is_letter byte }
{
    (byte | 0x20).wrapping_sub(b'a') < 26
}

/// How many lanes come before the first that is set.
#[inline(always)]
pub(crate) fn first_set(lanes: u64) -> usize
    ensures { result ≡ first_set lanes }
{
    if lanes == 0 {
        LANES
    } else {
        lanes.trailing_zeros() as usize
    }
}

/// A kind of bytes, and how long a run of them is.
pub(crate) trait ByteKind {
    ghost of_kind: { ℕ → Bool };

    /// Whether a byte is of the kind.
    fn has(byte: u8) -> bool
        ensures { result ≡ of_kind byte };

    /// How many come first in a block of sixteen.
    fn lanes(block: u8x16) -> usize
        ensures { result ≡ prefix_len of_kind block };

    /// How many come first, byte by byte: for the end, which fills no block.
    #[inline(never)]
    fn last_length(left: &[u8]) -> usize
        ensures { result ≡ prefix_len of_kind left.now }
    {
        left.iter().take_while(|b| Self::has(**b)).count()
    }

    /// How many come first, block by block.
    #[inline(always)]
    fn length(left: &[u8]) -> usize
        ensures value { result ≡ prefix_len of_kind left.now }
        ensures within { result ≤ length left.now }
    {
        let mut at = 0;
        while left.len() - at >= LANES {
            let count = Self::lanes(u8x16::from_slice(&left[at..]));
            if count < LANES {
                return at + count;
            }
            at += LANES;
        }
        at + Self::last_length(rest_of(left, at))
    }
}

/// The bytes of a word.
pub(crate) struct WordBytes;

impl ByteKind for WordBytes {
    ghost of_kind = { tokens.is_word_byte };

    #[inline(always)]
    fn has(byte: u8) -> bool {
        matches!(byte, b'A'..=b'Z' | b'a'..=b'z' | b'0'..=b'9' | b'_')
    }

    #[inline(always)]
    fn lanes(block: u8x16) -> usize {
        let letters = (block | u8x16::splat(0x20)) - u8x16::splat(b'a');
        let digits = block - u8x16::splat(b'0');
        let others = letters.simd_ge(u8x16::splat(26)) & digits.simd_ge(u8x16::splat(10));
        first_set((others & block.simd_ne(u8x16::splat(b'_'))).to_bitmask())
    }
}

/// The bytes of a number's run.
pub(crate) struct RunBytes;

impl ByteKind for RunBytes {
    ghost of_kind = { spelling.is_run_byte };

    #[inline(always)]
    fn has(byte: u8) -> bool {
        WordBytes::has(byte) || byte == b'.' || byte == b'+' || byte == b'-'
    }

    #[inline(always)]
    fn lanes(block: u8x16) -> usize {
        let letters = (block | u8x16::splat(0x20)) - u8x16::splat(b'a');
        let digits = block - u8x16::splat(b'0');
        let others = letters.simd_ge(u8x16::splat(26)) & digits.simd_ge(u8x16::splat(10));
        let signs = block.simd_ne(u8x16::splat(b'+')) & block.simd_ne(u8x16::splat(b'-'));
        let marks = block.simd_ne(u8x16::splat(b'.')) & block.simd_ne(u8x16::splat(b'_'));
        first_set((others & signs & marks).to_bitmask())
    }
}

/// Digits.
pub(crate) struct Digits;

impl ByteKind for Digits {
    ghost of_kind = { spelling.is_digit };

    #[inline(always)]
    fn has(byte: u8) -> bool {
        matches!(byte, b'0'..=b'9')
    }

    #[inline(always)]
    fn lanes(block: u8x16) -> usize {
        let digits = block - u8x16::splat(b'0');
        first_set(digits.simd_ge(u8x16::splat(10)).to_bitmask())
    }
}

/// ASCII bytes other than the quote.
pub(crate) struct PlainAscii;

impl ByteKind for PlainAscii {
    ghost of_kind = { is_plain_ascii };

    #[inline(always)]
    fn has(byte: u8) -> bool {
        byte != b'"' && byte.is_ascii()
    }

    #[inline(always)]
    fn lanes(block: u8x16) -> usize {
        let quotes = block.simd_eq(u8x16::splat(b'"'));
        first_set((quotes | block.simd_ge(u8x16::splat(0x80))).to_bitmask())
    }
}

#[inline(always)]
fn letter_lanes(block: u8x16) -> usize
    ensures { result ≡ prefix_len tokens.is_letter block }
{
    let letters = (block | u8x16::splat(0x20)) - u8x16::splat(b'a');
    first_set(letters.simd_ge(u8x16::splat(26)).to_bitmask())
}

#[inline(always)]
fn ends_word(byte: u8) -> bool
    ensures { IsTrue result → IsFalse (tokens.is_word_byte byte) }
{
    match byte {
        // Most words end at one of these.
        b'[' | b',' => true,
        _ => !WordBytes::has(byte),
    }
}

/// How many bytes of a word come first, if they are fewer than sixteen, all letters.
#[inline(always)]
pub(crate) fn letters_length(left: &[u8]) -> Option<usize>
    ensures { IfSome result (λ n. n ≡ prefix_len tokens.is_word_byte left.now) }
{
    if left.len() < LANES {
        return None;
    }
    let count = letter_lanes(u8x16::from_slice(left));
    if count < LANES && ends_word(left[count]) {
        Some(count)
    } else {
        None
    }
}

/// Whether a number in front of these bytes ends there.
#[inline(always)]
pub(crate) fn ends_run(bytes: &[u8]) -> bool
    ensures { IsTrue result → StopsAt spelling.is_run_byte bytes.now }
{
    match bytes {
        [] => true,
        // Most numbers end at one of these.
        [b',' | b']', ..] => true,
        [byte, ..] => !RunBytes::has(*byte),
    }
}
