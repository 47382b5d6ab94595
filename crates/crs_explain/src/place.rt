//! What is at a place of a well-formed text.
ghost use Rattle.std.specs.Prelude.{◌≡◌, ◌≤◌, IfOk, drop, length, take};
ghost use Rattle.std.specs.List.{prefix_len};
ghost use Rattle.crs_explain.specs.Found.{first_byte, found_in, is_of_word, named_by, opens, opens_after_white, word_of, word_shown};

use crate::Made;
use std::alloc::Global;

/// How many bytes of a word are shown.
pub(crate) const SHOWN: usize = 40;

/// What begins at the front of these bytes, or the delimiter that closes there.
pub(crate) fn found_text(alloc: Global, there: &[u8]) -> Made<Vec<u8>>
    ensures { IfOk result (λ found. found.items ≡ found_in there.now) }
{
    match first_byte(there) {
        b']' => Vec::from_slice(alloc, b"]"),
        b')' => Vec::from_slice(alloc, b")"),
        b'"' => Vec::from_slice(alloc, b"a text in quotes"),
        // The keyword of a node, or a word.
        letter if letter.is_ascii_alphabetic() => {
            if opens_after_white(rest_of(there, word_length(there))) {
                name_text(alloc, word_at(there))
            } else {
                Vec::from_slice(alloc, b"a word")
            }
        }
        _ => Vec::from_slice(alloc, b"a number"),
    }
}

/// The first byte, 0 where there is none.
pub(crate) fn first_byte(bytes: &[u8]) -> u8
    ensures { result ≡ first_byte bytes.now }
{
    bytes.first().copied().unwrap_or(0)
}

fn opens_after_white(bytes: &[u8]) -> bool
    ensures { result ≡ opens_after_white bytes.now }
{
    opens(bytes.trim_ascii_start())
}

fn opens(bytes: &[u8]) -> bool
    ensures { result ≡ opens bytes.now }
{
    matches!(first_byte(bytes), b'[' | b'(')
}

/// A word in capitals, or the front of a long one.
pub(crate) fn name_text(alloc: Global, word: &[u8]) -> Made<Vec<u8>>
    ensures { IfOk result (λ name. name.items ≡ named_by word.now) }
{
    shown_text(alloc, word)?.to_ascii_uppercase(alloc)
}

/// A word as it is written, or the front of a long one.
pub(crate) fn shown_text(alloc: Global, word: &[u8]) -> Made<Vec<u8>>
    ensures { IfOk result (λ shown. shown.items ≡ word_shown word.now) }
{
    if word.len() <= SHOWN {
        return Vec::from_slice(alloc, word);
    }
    let mut shown = Vec::from_slice(alloc, front_of(word, SHOWN))?;
    shown.extend_from_slice(b"..")?;
    Ok(shown)
}

fn front_of(word: &[u8], count: usize) -> &[u8]
    requires { count ≤ length word.now }
    ensures { result.now ≡ take count word.now }
{
    &word[..count]
}

/// The word that the bytes begin with.
pub(crate) fn word_at(there: &[u8]) -> &[u8]
    ensures { result.now ≡ word_of there.now }
{
    &there[..word_length(there)]
}

fn word_length(there: &[u8]) -> usize
    ensures value { result ≡ prefix_len is_of_word there.now }
    ensures within { result ≤ length there.now }
{
    there
        .iter()
        .take_while(|it| it.is_ascii_alphanumeric() || **it == b'_')
        .count()
}

/// The bytes from a place on.
pub(crate) fn rest_of(text: &[u8], place: usize) -> &[u8]
    ensures { result.now ≡ drop place text.now }
{
    text.get(place..).unwrap_or(b"")
}
