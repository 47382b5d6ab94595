//! All parts in which two CRSs differ, in order, for people and programs: in lines, as objects of JSON, and in pieces.
ghost use Rattle.std.specs.Prelude.{◌≡◌, ◌≢◌, ◌++◌, ◌≤◌, [], IfOk, IfSome, MatchOption, OnOk, false, length, true};
ghost use Rattle.std.specs.List.{flat_map, prefix_len};
ghost use Rattle.crs_explain.specs.Differing.{difference_line, part_pieces, shown};
ghost use Rattle.crs_explain.specs.InOrder.{AreOrderedTexts, has_step_from, is_of_word, rank, word_at};
ghost use Rattle.crs_explain.specs.Json.{difference_members, difference_object};
ghost use Rattle.crs_same.specs.SameCrs.{SameCrs};

use crate::code_points::append_code_points;
use crate::difference_texts::{DifferenceTexts, append_texts};
use crate::laws::nothing_is_told_where_same;
use crate::names::Name;
use crate::{Made, Pieces};
use crs_same::{differences, laws};
use crs_streams::append_escaped;
use crs_streams::json::{append_text, append_value_member};
use crs_value::laws::crs_is_sound;
use crs_value::{Crs, Level};
use std::alloc::Global;

/// The texts of all parts in which two CRSs differ, in the order of some words: first the parts whose path has the
/// first word, then the parts whose path has the next, and so on, then the others; the parts of one word are in the
/// order of `differing_parts`. None exactly if the CRSs are the same. `AllocError`: there is no memory for it.
// The CRSs come first: what is called with a CRS behind another reference is slow to prove.
pub fn ordered_parts<'a>(
    alloc: Global,
    a: &Crs<'a>,
    b: &Crs<'a>,
    level: Level,
    words: &[Name],
) -> Made<Option<Vec<DifferenceTexts>>>
    ensures parts { IfOk result (λ found. MatchOption found (SameCrs level a.now b.now)
        (λ texts. (¬ SameCrs level a.now b.now) × AreOrderedTexts words.now level a.now b.now texts.items)) }
    ensures some { IfOk result (λ found. IfSome found (λ texts. texts.items ≢ [])) }
{
    laws::first_difference_is_first_part();
    laws::no_part_differs_where_same();
    nothing_is_told_where_same();
    crs_is_sound(a);
    crs_is_sound(b);
    let differences = differences(alloc, a, b, level)?;
    if differences.as_slice().is_empty() {
        return Ok(None);
    }
    let mut texts = Vec::new(alloc);
    append_texts(&mut texts, alloc, level, differences)?;
    texts.sort_by_key(|part| rank(words, part))?;
    Ok(Some(texts))
}

/// A line for each part that differs, `PATH: FIRST | SECOND` and a line feed: the values of the first CRS and of the
/// second, `none` if there are no bytes. Control characters, ends of lines, marks of direction and backslashes are
/// escaped, such as `\n`, `\x1B`, `\u202E` and `\\`. If the first characters in which the values differ aren't both
/// ASCII, their code points follow, such as ` (U+0410 | U+0041)`. `AllocError`: there is no memory for it.
pub fn difference_lines(alloc: Global, differences: &[DifferenceTexts]) -> Made<Vec<u8>>
    ensures { IfOk result (λ lines. lines.items ≡ flat_map difference_line differences.now) }
{
    let mut lines = Vec::new(alloc);
    for difference in differences {
        append_difference_line(difference, &mut lines)?;
    }
    Ok(lines)
}

/// An object of JSON and a line feed for each part that differs: its path, and the values of the first CRS and of the
/// second, `null` if there is none. `AllocError`: there is no memory for it.
pub fn difference_objects(alloc: Global, differences: &[DifferenceTexts]) -> Made<Vec<u8>>
    ensures { IfOk result (λ objects. objects.items ≡ flat_map difference_object differences.now) }
{
    let mut objects = Vec::new(alloc);
    for difference in differences {
        objects.push(b'{')?;
        append_difference_members(difference, &mut objects)?;
    }
    Ok(objects)
}

/// Appends the line of a part that differs. `AllocError`: no memory for it, and `out` has a beginning of it.
pub fn append_difference_line(difference: &DifferenceTexts, out: &mut Vec<u8>) -> Made<()>
    ensures { OnOk result (out.new.items ≡ out.old.items ++ difference_line difference.now) }
{
    append_escaped(&difference.path, out)?;
    out.extend_from_slice(b": ")?;
    append_value(&difference.first, out)?;
    out.extend_from_slice(b" | ")?;
    append_value(&difference.second, out)?;
    append_code_points(&difference.first, &difference.second, out)?;
    out.extend_from_slice(b"\n")
}

/// Appends the object of a part, behind its brace. `AllocError`: no memory, and `out` has a beginning of it.
pub fn append_difference_members(difference: &DifferenceTexts, out: &mut Vec<u8>) -> Made<()>
    ensures { OnOk result (out.new.items ≡ out.old.items ++ difference_members difference.now) }
{
    out.extend_from_slice(b"\"path\":")?;
    append_text(&difference.path, out)?;
    append_value_member(b"first", &difference.first, out)?;
    append_value_member(b"second", &difference.second, out)?;
    out.extend_from_slice(b"}\n")
}

/// The same as data: three texts for each part, its path, and the values of the first CRS and of the second, with
/// nothing escaped and no bytes if there is no value. `AllocError`: there is no memory for it.
pub fn difference_pieces(alloc: Global, differences: &[DifferenceTexts]) -> Made<Pieces>
    ensures { IfOk result (λ pieces. pieces ≡ flat_map part_pieces differences.now) }
{
    let mut pieces = Pieces::new(alloc);
    for difference in differences {
        pieces.push(&difference.path)?;
        pieces.push(&difference.first)?;
        pieces.push(&difference.second)?;
    }
    Ok(pieces)
}

// `none` where there are no bytes.
fn append_value(bytes: &[u8], out: &mut Vec<u8>) -> Made<()>
    ensures { OnOk result (out.new.items ≡ out.old.items ++ shown bytes.now) }
{
    if bytes.is_empty() {
        return out.extend_from_slice(b"none");
    }
    append_escaped(bytes, out)
}

fn rank(words: &[Name], part: &DifferenceTexts) -> usize
    ensures { result ≡ rank words.now part.now }
{
    words
        .iter()
        .take_while(|word| !has_step(&part.path, word.bytes()))
        .count()
}

fn has_step(path: &[u8], word: &[u8]) -> bool
    ensures { result ≡ has_step_from true false word.now path.now }
{
    let mut begins = true;
    let mut is_quoted = false;
    let mut left = path;
    while let [byte, rest @ ..] = left {
        if begins && word_at(left) == word {
            return true;
        }
        begins = !is_quoted && *byte == b'/';
        is_quoted = if *byte == b'"' { !is_quoted } else { is_quoted };
        left = rest;
    }
    false
}

fn word_at(path: &[u8]) -> &[u8]
    ensures { result.now ≡ word_at path.now }
{
    &path[..word_length(path)]
}

fn word_length(path: &[u8]) -> usize
    ensures value { result ≡ prefix_len is_of_word path.now }
    ensures within { result ≤ length path.now }
{
    path.iter().take_while(|b| b.is_ascii_lowercase()).count()
}
