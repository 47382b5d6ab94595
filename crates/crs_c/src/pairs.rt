//! Whether two texts spell the same CRS, and where they differ.
ghost use Rattle.crs_c.specs.Explain.{IsDifferencesAnswer};
ghost use Rattle.crs_c.specs.ExplainPieces.{IsDifferencePiecesAnswer};
ghost use Rattle.crs_c.specs.FirstPart.{IsPartAnswer};
ghost use Rattle.crs_c.specs.PieceBuffers.{buffers_of};
ghost use Rattle.crs_c.specs.Same.{IsSameAnswer};

use crate::calls::comparison::{DifferencePieces, FirstPart, Lines, Sameness, made_of_both};
use crate::{NO_LEVEL, OK, Refused, give, give_pieces, level_numbered};
use std::alloc::Global;

/// Whether two texts spell the same CRS at a level.
///
/// 0: each spells a CRS, and `is_same` is 1 if they are the same, else 0. 1: the first spells none, and `refused` says
/// why. 2: the first spells a CRS and the second none, and `refused` says why. 3: memory was refused. 4: there is no
/// such level. What a code doesn't mention is as before.
#[unsafe(no_mangle)]
pub extern "C" fn crsdesk_same(
    alloc: Global,
    first: &[u8],
    second: &[u8],
    level: u32,
    is_same: &mut u32,
    refused: &mut Refused,
) -> u32
    ensures { IsSameAnswer level first.now second.now
        (record { answer = is_same.old; refused = refused.old })
        (record { answer = is_same.new; refused = refused.new })
        result }
{
    at_level!(level => match made_of_both(alloc, Sameness(level), first, second, refused) {
        Ok(found) => {
            *is_same = u32::from(found);
            OK
        }
        Err(code) => code,
    })
}

/// The first part in which two CRSs differ at a level: its path's words, with `/` between; none if they are the same.
///
/// 0: each spells a CRS, and the path is at the front of `out`; `length` is its number of bytes. 1: the first spells
/// none, and `refused` says why. 2: the first spells a CRS and the second none, and `refused` says why. 3: memory was
/// refused. 4: there is no such level. 5: `out` has less room; `length` is their number. All else is as before.
#[unsafe(no_mangle)]
pub extern "C" fn crsdesk_first_part(
    alloc: Global,
    first: &[u8],
    second: &[u8],
    level: u32,
    out: &mut [u8],
    length: &mut usize,
    refused: &mut Refused,
) -> u32
    ensures { IsPartAnswer level first.now second.now
        (record { answer = record { items = out.old; told = length.old }; refused = refused.old })
        (record { answer = record { items = out.new; told = length.new }; refused = refused.new })
        result }
{
    at_level!(level => match made_of_both(alloc, FirstPart(level), first, second, refused) {
        Ok(told) => give(&told, out, length),
        Err(code) => code,
    })
}

/// All parts in which the CRSs of two texts differ at a level, one per line: the path, and the values in the first and
/// in the second. No lines exactly if they are the same.
///
/// 0: each spells a CRS, and the lines are at the front of `out`; `length` is their number of bytes. 1: the first
/// spells none, and `refused` says why. 2: the first spells a CRS and the second none, and `refused` says why. 3:
/// memory was refused. 4: there is no such level. 5: the lines have more bytes than `out`; `length` is their number.
/// What a code doesn't mention is as before.
#[unsafe(no_mangle)]
pub extern "C" fn crsdesk_differences(
    alloc: Global,
    first: &[u8],
    second: &[u8],
    level: u32,
    out: &mut [u8],
    length: &mut usize,
    refused: &mut Refused,
) -> u32
    ensures { IsDifferencesAnswer level first.now second.now
        (record { answer = record { items = out.old; told = length.old }; refused = refused.old })
        (record { answer = record { items = out.new; told = length.new }; refused = refused.new })
        result }
{
    at_level!(level => match made_of_both(alloc, Lines(level), first, second, refused) {
        Ok(told) => give(&told, out, length),
        Err(code) => code,
    })
}

/// All parts in which the CRSs of two texts differ at a level, three pieces each: the path, and the values in the first
/// and in the second, with nothing escaped and no bytes if there is no value. No pieces exactly if they are the same.
///
/// 0: each spells a CRS; the bytes of all pieces are at the front of `out`, one after the other, and where each ends at
/// the front of `ends`; `length` and `count` are their numbers. 1: the first spells none, and `refused` says why. 2: the
/// first spells a CRS and the second none, and `refused` says why. 3: memory was refused. 4: there is no such level. 5:
/// there are more bytes than `out` or more pieces than `ends` has room for; `length` and `count` are their numbers, and a
/// buffer with the room has what it has with 0. What a code doesn't mention is as before.
#[unsafe(no_mangle)]
pub extern "C" fn crsdesk_difference_pieces(
    alloc: Global,
    first: &[u8],
    second: &[u8],
    level: u32,
    out: &mut [u8],
    length: &mut usize,
    ends: &mut [usize],
    count: &mut usize,
    refused: &mut Refused,
) -> u32
    ensures { IsDifferencePiecesAnswer level first.now second.now
        (record { answer = buffers_of out.old length.old ends.old count.old; refused = refused.old })
        (record { answer = buffers_of out.new length.new ends.new count.new; refused = refused.new })
        result }
{
    at_level!(level => match made_of_both(alloc, DifferencePieces(level), first, second, refused) {
        Ok(told) => give_pieces(&told, out, length, ends, count),
        Err(code) => code,
    })
}
