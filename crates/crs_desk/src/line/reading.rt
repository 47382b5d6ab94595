//! Words and flags, read of the matches that `clap` gives.
ghost use Rattle.std.specs.Prelude.{◌≡◌, IfOk};
ghost use Rattle.clap.specs.Words.{found_of, rows_of};
ghost use Rattle.crs_desk.specs.Requests.{has_flag, kind_of_words, layout_of, level_of, listing_of, manner_of, words_of};

use crate::{Layout, LineWord, LineWords, Listing, Manner, WordKind};
use clap::ArgMatches;
use std::alloc::{AllocError, Global};

const USUAL_LEVEL: &str = "full";

// The word of the level, `full` where none is named. `AllocError`: memory ran out.
pub(crate) fn level_word(alloc: Global, matches: &ArgMatches) -> Result<LineWord, AllocError>
    ensures { IfOk result (λ level. level ≡ level_of (rows_of (found_of matches.now))) }
{
    LineWord::new(alloc, matches.get_str("level").unwrap_or(USUAL_LEVEL))
}

// All words of an operand or an option. `AllocError`: memory ran out.
pub(crate) fn words_named(
    alloc: Global,
    matches: &ArgMatches,
    name: &str,
) -> Result<LineWords, AllocError>
    ensures { IfOk result (λ words. words ≡ words_of name.now (rows_of (found_of matches.now))) }
{
    match matches.get_strs(name) {
        Some(words) => LineWords::of(alloc, words),
        None => LineWords::of(alloc, &[]),
    }
}

pub(crate) fn listing(matches: &ArgMatches) -> Listing
    ensures { result ≡ listing_of (rows_of (found_of matches.now)) }
{
    Listing {
        repeated: flag_asked(matches, "repeated"),
        names: flag_asked(matches, "names"),
        files: flag_asked(matches, "files"),
        json: flag_asked(matches, "json"),
    }
}

pub(crate) fn layout(matches: &ArgMatches) -> Layout
    ensures { result ≡ layout_of (rows_of (found_of matches.now)) }
{
    if flag_asked(matches, "lines") {
        Layout::Lines
    } else {
        Layout::OneText
    }
}

pub(crate) fn manner(matches: &ArgMatches) -> Manner
    ensures { result ≡ manner_of (rows_of (found_of matches.now)) }
{
    if flag_asked(matches, "json") {
        Manner::Objects
    } else {
        Manner::Lines
    }
}

pub(crate) fn word_kind(matches: &ArgMatches) -> WordKind
    ensures { result ≡ kind_of_words (rows_of (found_of matches.now)) }
{
    if flag_asked(matches, "files") {
        WordKind::FileName
    } else {
        WordKind::Text
    }
}

pub(crate) fn flag_asked(matches: &ArgMatches, name: &str) -> bool
    ensures { result ≡ has_flag name.now (rows_of (found_of matches.now)) }
{
    matches.get_str(name).unwrap_or("false") == "true"
}
