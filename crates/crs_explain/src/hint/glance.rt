//! Short looks at bytes.
ghost use Rattle.std.specs.Prelude.{◌≡◌, take};

use crs_shape::{Class, keywords};

/// How many bytes a hint looks at, from the text's front and from the place on.
const LOOKED_AT: usize = 400;

/// The bytes from a place on, at most as many as a hint looks at.
pub(crate) fn looked_at(text: &[u8], place: usize) -> &[u8] {
    front(rest(text, place), LOOKED_AT)
}

/// The bytes after so many.
pub(crate) fn rest(text: &[u8], count: usize) -> &[u8] {
    text.get(count..).unwrap_or(b"")
}

/// The first bytes, at most so many.
#[tactic(auto, using(std::proofs::lemmas::List::take_all))]
pub(crate) fn front(text: &[u8], count: usize) -> &[u8]
    ensures { result.now ≡ take count text.now }
{
    text.get(..count).unwrap_or(text)
}

/// The last bytes, at most so many.
pub(crate) fn back(text: &[u8], count: usize) -> &[u8] {
    rest(text, text.len().saturating_sub(count))
}

/// Whether the bytes begin so, letter case aside.
pub(crate) fn begins(text: &[u8], words: &[u8]) -> bool {
    front(text, words.len()).eq_ignore_ascii_case(words)
}

/// Whether the bytes end so, letter case aside.
pub(crate) fn ends(text: &[u8], words: &[u8]) -> bool {
    back(text, words.len()).eq_ignore_ascii_case(words)
}

/// Whether a word is one of these words, which are separated by blanks, letter case aside.
pub(crate) fn is_one_of(word: &[u8], words: &[u8]) -> bool {
    words
        .split(|it| *it == b' ')
        .any(|it| it.eq_ignore_ascii_case(word))
}

/// Whether a word is a keyword of one of these classes, letter case aside.
pub(crate) fn names(word: &[u8], classes: &[Class]) -> bool {
    let mut keywords = classes.iter().flat_map(|it| keywords(*it));
    keywords.any(|it| it.spelling().eq_ignore_ascii_case(word))
}

/// Whether a byte may be part of a word.
pub(crate) fn is_of_word(byte: u8) -> bool {
    byte.is_ascii_alphanumeric() || byte == b'_'
}

/// The number of bytes of words that the bytes begin with.
pub(crate) fn word_length(text: &[u8]) -> usize {
    text.iter().take_while(|it| is_of_word(**it)).count()
}

/// The number of digits that the bytes begin with.
pub(crate) fn digit_count(text: &[u8]) -> usize {
    text.iter().take_while(|it| it.is_ascii_digit()).count()
}

/// The word behind white space, a letter, then letters, digits and underscores, or none; and what follows it and white space.
pub(crate) fn split_word(text: &[u8]) -> (&[u8], &[u8]) {
    let text = text.trim_ascii_start();
    let length = match text {
        [first, ..] if first.is_ascii_alphabetic() => word_length(text),
        _ => 0,
    };
    (front(text, length), rest(text, length).trim_ascii_start())
}

/// The keyword of the node that the bytes begin with, after white space; empty if they begin with no node.
pub(crate) fn keyword_at(text: &[u8]) -> &[u8] {
    match split_word(text) {
        (word, [b'[' | b'(', ..]) => word,
        _ => b"",
    }
}
