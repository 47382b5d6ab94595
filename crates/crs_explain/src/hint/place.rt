//! What is at the place of a refusal, is missing before it, or is open there.
use crate::hint::before::Before;
use crate::hint::class::{by_keyword, is_of_text};
use crate::hint::glance::{back, digit_count, keyword_at, looked_at, names, rest};
use crate::hint::{About, Entry, Filling, Hint, by_first_bytes, filled, said, sentence};
use crs_shape::Class;

/// A byte begins no token.
pub(crate) const BAD_CHARACTER: u8 = 1;
/// A run isn't of the number form.
pub(crate) const BAD_NUMBER: u8 = 2;
/// A quoted text isn't UTF-8.
pub(crate) const NOT_UTF8: u8 = 4;
/// A quoted text has no end.
pub(crate) const OPEN_TEXT: u8 = 5;
/// No text goes on with this token.
pub const UNEXPECTED: u8 = 6;
/// The text ends too early.
pub const UNEXPECTED_END: u8 = 7;
/// A node of a keyword that isn't known.
pub const UNKNOWN_KEYWORD: u8 = 11;
// An item that isn't allowed where it is.
const NOT_HERE: u8 = 12;

/// What is at the place of a refusal, or is missing before it.
pub(crate) fn by_place<'t>(text: &[u8], number: u8, found: &'t Before<'t>) -> Option<Hint<'t>> {
    let behind = rest(text, found.text.len());
    let there = looked_at(behind, 0);
    let keyword = keyword_at(there);
    let hint = match number {
        BAD_CHARACTER => by_character(there),
        BAD_NUMBER => by_number(behind),
        NOT_UTF8 => said(
            "It is Latin-1, most likely, or another encoding: write the file in UTF-8 (iconv -f \
             ISO-8859-1 -t UTF-8 FILE).",
        ),
        UNKNOWN_KEYWORD => by_keyword(keyword),
        NOT_HERE if names(keyword, &[Class::BaseCrs]) => {
            said("This is a derived CRS. Derived CRSs aren't read.")
        }
        NOT_HERE => by_keyword(keyword).or(by_comma(found.text, there)),
        _ => None,
    };
    by_whole_text(found, number, there)
        .or(hint)
        .or(by_delimiters(found, number, there))
}

// Characters by their first bytes, most of which look like others, and what to say of each.
const CHARACTERS: [Entry; 18] = [
    (b"&quot;", sentence::XML_QUOTE, b""),
    (b"&#34;", sentence::XML_QUOTE, b""),
    (b"\\\"", sentence::ESCAPED_QUOTE, b""),
    (b"\xe2\x80\x9c", sentence::TYPOGRAPHIC_QUOTE, b""),
    (b"\xe2\x80\x9d", sentence::TYPOGRAPHIC_QUOTE, b""),
    (b"\xe2\x80\x9e", sentence::TYPOGRAPHIC_QUOTE, b""),
    (b"\xc2\xab", sentence::TYPOGRAPHIC_QUOTE, b""),
    (b"\xc2\xbb", sentence::TYPOGRAPHIC_QUOTE, b""),
    (b"\xce", sentence::LETTER, b"Greek"),
    (b"\xcf", sentence::LETTER, b"Greek"),
    (b"\xd0", sentence::LETTER, b"Cyrillic"),
    (b"\xd1", sentence::LETTER, b"Cyrillic"),
    (b"\xc2\xa0", sentence::SPACE, b"no-break space"),
    (b"\xe2\x80\xaf", sentence::SPACE, b"no-break space"),
    (b"\xe2\x80\x8b", sentence::SPACE, b"zero-width space"),
    (b"\xef\xbb\xbf", sentence::SPACE, b"byte order mark"),
    (b"'", "Texts are written in double quotes (\").", b""),
    (b";", "Arguments are separated by commas.", b""),
];

// What a byte is that begins no token.
fn by_character(there: &[u8]) -> Option<Hint<'static>> {
    match there {
        [byte, ..] if byte.is_ascii_control() => {
            let told = "A control character is here, {}: this is no text, or it was damaged.";
            filled(told, Filling::Control(*byte))
        }
        _ => by_first_bytes(there, &CHARACTERS),
    }
}

// What is where a number should begin.
fn by_number(there: &[u8]) -> Option<Hint<'static>> {
    let near = looked_at(there, 0);
    if is_cut_off(there) {
        said("The text ends in this number: it was cut off, most likely.")
    } else if is_date(near) {
        said("A date is no number: an epoch is a year, with a fraction.")
    } else if has_unit(near) {
        said("The number is written alone: a unit is a node of its own, behind it.")
    } else {
        None
    }
}

// Whether the text ends in a number that goes on, as `298.` and `1e-` do.
fn is_cut_off(there: &[u8]) -> bool {
    matches!(there, [.., b'+' | b'-' | b'.' | b'e' | b'E'])
        && there.iter().all(|it| matches!(*it, b'0'..=b'9' | b'+' | b'-' | b'.' | b'e' | b'E'))
}

// `2010-01-01`
fn is_date(there: &[u8]) -> bool {
    digit_count(there) == 4 && matches!(rest(there, 4), [b'-', b'0'..=b'9', ..])
}

// `6378137m`
fn has_unit(there: &[u8]) -> bool {
    let there = match there {
        [b'+' | b'-', unsigned @ ..] => unsigned,
        _ => there,
    };
    let digits = there
        .iter()
        .take_while(|it| it.is_ascii_digit() || **it == b'.')
        .count();
    let unit = rest(there, digits).first();
    digits > 0 && unit.is_some_and(|it| it.is_ascii_alphabetic() && !it.eq_ignore_ascii_case(&b'e'))
}

// A number too many after a number, as where a comma is written for a decimal point or between thousands.
fn by_comma(before: &[u8], there: &[u8]) -> Option<Hint<'static>> {
    let before = back(before, 100).trim_ascii_end();
    let number = match there {
        [b'+' | b'-', number @ ..] => number,
        _ => there,
    };
    match (before, number) {
        ([.., b'0'..=b'9', b','], [b'0'..=b'9' | b'.', ..]) => {
            let is_of_thousands = digit_count(there) == 3 && ends_with_thousands(before);
            said(if is_of_thousands {
                "A number too many: most likely commas separate thousands or stand for decimal \
                 points, here or before (write 6378137, not 6,378,137, and 0.5, not 0,5)."
            } else {
                "A number too many: most likely a comma stands for a decimal point, here or before (write 0.5, not 0,5)."
            })
        }
        _ => None,
    }
}

// Whether the digits and commas at the end are a number with a comma before each three digits, and a comma: `6,378,`.
fn ends_with_thousands(before: &[u8]) -> bool {
    let run = before
        .iter()
        .rev()
        .take_while(|it| it.is_ascii_digit() || **it == b',')
        .count();
    let number = back(before, run);
    let number = number.strip_prefix(b",").unwrap_or(number);
    let mut groups = number
        .strip_suffix(b",")
        .unwrap_or(b"")
        .split(|it| *it == b',');
    let begins = matches!(groups.next(), Some([b'1'..=b'9', further @ ..]) if further.len() < 3);
    begins && groups.all(|it| it.len() == 3)
}

// What is at a place behind a complete text, or where a quote is missing before; `there` is the text from the place on.
fn by_whole_text(found: &Before<'_>, number: u8, there: &[u8]) -> Option<Hint<'static>> {
    if let Some(place) = found.quote_missing
        && matches!(
            number,
            BAD_CHARACTER | BAD_NUMBER | OPEN_TEXT | UNEXPECTED | UNEXPECTED_END
        )
    {
        let told =
            "A quote is missing, most likely: at the end of the quoted text that is opened at {}, or before it.";
        return filled(told, Filling::Place(place));
    }
    if !found.is_complete() || number > UNEXPECTED {
        return None;
    }
    let keyword = keyword_at(there.strip_prefix(b",").unwrap_or(there));
    if is_of_text(keyword) {
        return behind("A second text begins here: a file has one text.");
    }
    said(if !keyword.is_empty() {
        "The CRS is complete before this node: a closing delimiter before it is one too many, most likely."
    } else if matches!(there, [b']' | b')', ..]) {
        "The CRS is complete before this delimiter: it is one too many, or one is missing before."
    } else {
        return behind("The CRS is complete before this: cut off what follows it.");
    })
}

// What follows a complete text.
fn behind(sentence: &'static str) -> Option<Hint<'static>> {
    said(sentence).map(|it| it.about(About::Behind))
}

// What is open before the place of a refusal, or too many there; `there` is the text from the place on.
fn by_delimiters<'t>(found: &'t Before<'t>, number: u8, there: &[u8]) -> Option<Hint<'t>> {
    let open = found.open.as_slice();
    if number == OPEN_TEXT {
        let told = "Still open at the end: this quoted text{}.";
        return filled(told, Filling::Open(b", ", open));
    }
    let node = found.innermost()?;
    match number {
        UNEXPECTED_END if !matches!(found.text.trim_ascii_end(), [.., b']' | b')']) => {
            let told =
                "The text was cut off, most likely: it has no closing delimiter at its end. Still open at the end: {}.";
            filled(told, Filling::Open(b"", open))
        }
        UNEXPECTED_END if found.outside.is_none() && open.len() > 1 => {
            filled("Still open at the end: {}.", Filling::Open(b"", open))
        }
        UNEXPECTED_END | NOT_HERE => by_outside(found),
        // A closing delimiter that doesn't match the opening delimiter.
        UNEXPECTED => match (node.delimiter, there) {
            (b'[', [b')', ..]) => filled("{} is closed by ], not by ).", Filling::Node(node)),
            (b'(', [b']', ..]) => filled("{} is closed by ), not by ].", Filling::Node(node)),
            _ => None,
        },
        _ => None,
    }
}

// A node that is where none of its kind can be.
fn by_outside<'t>(found: &Before<'t>) -> Option<Hint<'t>> {
    let (node, outer) = found.outside?;
    let told = "{}, which is still open there: its closing delimiter is missing, most likely.";
    filled(told, Filling::Inside(node, outer))
}
