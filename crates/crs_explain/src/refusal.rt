//! The refusal of a text, explained to a person and to a program: in lines, in pieces, and as an object of JSON.
ghost use Rattle.std.specs.Prelude.{◌≡◌, ◌++◌, ◌∷◌, ◌≤◌, [], IfOk, OnOk, codes, decimal, length};
ghost use Rattle.crs_explain.specs.Explained.{AreExplainedPieces, Explains, IsExplained, TellsOpen, head, in_line, line_if_any, line_words, sentence_lines};
ghost use Rattle.crs_explain.specs.Json.{IsRefusalObject, expected_members, place_members, sentence_members, which_member};

use crate::excerpt::excerpt;
use crate::expected::{ExpectedTexts, UNKNOWN_WORD, expectation, or_nothing};
use crate::hint::glance::front;
use crate::names::{append_array, push_each};
use crate::place::word_at;
use crate::units::units;
use crate::{
    Made, Pieces, UNEXPECTED, UNEXPECTED_END, UNKNOWN_KEYWORD, hints, meaning, still_open,
};
use crs_streams::json::{
    append_key, append_number_member, append_text, append_text_member, append_value_member,
};
use crs_streams::{append_number, append_refusal};
use crs_text::{Position, Refusal, position_of};
use std::alloc::Global;
use std::marker::Model;

// The most bytes of a line of words.
const MOST: usize = 1000;

// A unit that is missing, given twice, or of the wrong kind.
const BAD_UNIT: u8 = 27;

// What is explained of a refusal. Of words there are no bytes where nothing is to be said.
struct ExplanationOf {
    position: Position,
    // The piece of the line and the caret, a line each.
    excerpt: Vec<u8>,
    expected: Option<ExpectedTexts>,
    // What is open, was meant or is asked for.
    clue: Vec<u8>,
    // What the number means.
    meaning: Vec<u8>,
    hints: Vec<u8>,
}

// Hand-written: a derived drop is expanded wherever a value is dropped, which slows the proofs.
impl Drop for ExplanationOf {
    fn drop(self) {
        let ExplanationOf {
            position: _,
            excerpt: _,
            expected: _,
            clue: _,
            meaning: _,
            hints: _,
        } = self;
    }
}

impl Model for ExplanationOf {
    ghost use Rattle.crs_explain.specs.Explained.{Explanation};

    ghost Value = { Explanation };

    ghost view = { λ e. record {
      position = e.position;
      excerpt = e.excerpt.items;
      expected = e.expected;
      sentences = record { open_or_meant = e.clue.items; meaning = e.meaning.items; hints = e.hints.items };
    } };
}

impl ExplanationOf {
    // Appends its sentences, a line each.
    fn append_sentences(&self, out: &mut Vec<u8>) -> Made<()>
        ensures { OnOk result (out.new.items ≡ out.old.items ++ sentence_lines self.now.sentences) }
    {
        append_line_if_any(&self.clue, out)?;
        append_line(&self.meaning, out)?;
        append_line_if_any(&self.hints, out)
    }

    // Adds each of them to pieces.
    fn push_sentences(&self, out: &mut Pieces) -> Made<()>
        ensures { OnOk result (out.new ≡ out.old ++ self.now.sentences.open_or_meant
            ∷ self.now.sentences.meaning ∷ self.now.sentences.hints ∷ []) }
    {
        out.push(&self.clue)?;
        out.push(&self.meaning)?;
        out.push(&self.hints)
    }

    // Appends them as members of an object.
    fn append_sentence_members(&self, out: &mut Vec<u8>) -> Made<()>
        ensures { OnOk result (out.new.items ≡ out.old.items ++ sentence_members self.now.sentences) }
    {
        append_value_member(b"clue", &self.clue, out)?;
        append_text_member(b"meaning", &self.meaning, out)?;
        append_value_member(b"hints", &self.hints, out)
    }
}

// The explanation of a text's refusal. Time is linear in the text.
fn explanation(alloc: Global, text: &[u8], refusal: Refusal) -> Made<ExplanationOf>
    requires { refusal.place ≤ length text.now }
    ensures { IfOk result (Explains text.now refusal) }
{
    let place = refusal.place();
    let position = position_of(text, place);
    let excerpt = excerpt(alloc, text, place)?;
    let expected = expectation(alloc, text, refusal)?;
    let hints = hints(alloc, text, refusal)?;
    let meant: &[u8] = match &expected {
        Some(expected) if hints.is_empty() => &expected.meant,
        _ => b"",
    };
    let clue = clue(alloc, text, refusal, meant)?;
    Ok(ExplanationOf {
        position,
        excerpt,
        expected,
        clue: words_of(alloc, &clue)?,
        meaning: words_of(alloc, meaning(refusal).as_bytes())?,
        hints: words_of(alloc, &hints)?,
    })
}

// What is open at the place, which units are asked for, or which name was meant; empty where there is none.
fn clue(alloc: Global, text: &[u8], refusal: Refusal, meant: &[u8]) -> Made<Vec<u8>>
    ensures { IfOk result (λ clue. TellsOpen refusal clue.items) }
{
    match refusal.number() {
        UNEXPECTED | UNEXPECTED_END => still_open(alloc, text, refusal),
        UNKNOWN_KEYWORD | UNKNOWN_WORD if !meant.is_empty() => {
            [b"Did you mean ", meant, b"?"].concat(alloc)
        }
        BAD_UNIT => units(alloc, text, refusal.place()),
        _ => Ok(Vec::new(alloc)),
    }
}

// The words of a line: the first of these, with blanks for line feeds.
fn words_of(alloc: Global, words: &[u8]) -> Made<Vec<u8>>
    ensures { IfOk result (λ line. line.items ≡ line_words words.now) }
{
    let mut line = Vec::new(alloc);
    for byte in front(words, MOST) {
        line.push(in_line(*byte))?;
    }
    Ok(line)
}

fn in_line(byte: u8) -> u8
    ensures { result ≡ in_line byte }
{
    if byte == b'\n' { b' ' } else { byte }
}

/// Explains the refusal of a text, so that a person can repair the text: a line with the refusal and its line and
/// column; the piece of that line with a caret under the place; for a fault of shape, an unknown word or a number of
/// axes a line with the node, what is found there and what is expected; what is open, which name was meant or which
/// units are expected; what the number means, and a hint if one applies. Each line has its line feed. `AllocError`:
/// there is no memory for it. Time is linear in the text.
pub fn refusal_text(alloc: Global, text: &[u8], refusal: Refusal) -> Made<Vec<u8>>
    requires { refusal.place ≤ length text.now }
    ensures { IfOk result (λ told. IsExplained text.now refusal told.items) }
{
    let explanation = explanation(alloc, text, refusal)?;
    let nothing = ExpectedTexts::nothing(alloc);
    let mut told = Vec::new(alloc);
    append_head(refusal, explanation.position, &mut told)?;
    told.extend_from_slice(&explanation.excerpt)?;
    or_nothing(&explanation.expected, &nothing).append_line(&mut told)?;
    explanation.append_sentences(&mut told)?;
    Ok(told)
}

/// The explanation of a refusal as numbers and pieces.
#[derive(Drop)]
pub struct ExplanationPieces {
    /// The line of the place, counted from 1.
    pub line: usize,
    /// The character of the line at the place, counted from 1.
    pub column: usize,
    /// Where the node begins in which something else is expected, the first byte being 0; 0 if that isn't known.
    pub node: usize,
    /// The piece of the line with the caret, in two lines; the line of what is found and expected; the keyword of that
    /// node; what is found; what is open, was meant or is expected; what the number means; hints; and then names.
    pub pieces: Pieces,
}

impl Model for ExplanationPieces {
    ghost use Rattle.crs_explain.specs.Explained.{ExplainedPieces};

    ghost Value = { ExplainedPieces };

    ghost view = { λ e. record { line = e.line; column = e.column; node = e.node; pieces = e.pieces } };
}

/// Explains the refusal of a text like `refusal_text`, to a program: each line or sentence by itself. A sentence has no
/// line feed, and no bytes if it doesn't apply. `AllocError`: no memory. Time is linear.
pub fn refusal_pieces(alloc: Global, text: &[u8], refusal: Refusal) -> Made<ExplanationPieces>
    requires { refusal.place ≤ length text.now }
    ensures { IfOk result (AreExplainedPieces text.now refusal) }
{
    let explanation = explanation(alloc, text, refusal)?;
    let nothing = ExpectedTexts::nothing(alloc);
    let expected = or_nothing(&explanation.expected, &nothing);
    let mut pieces = Pieces::new(alloc);
    pieces.push(&explanation.excerpt)?;
    expected.push_found(alloc, &mut pieces)?;
    explanation.push_sentences(&mut pieces)?;
    push_each(&expected.names, &mut pieces)?;
    Ok(ExplanationPieces {
        line: explanation.position.line,
        column: explanation.position.column,
        node: expected.place,
        pieces,
    })
}

/// Explains the refusal of a text like `refusal_text`, in an object of JSON and a line feed: the number, its name, the
/// place, line and column; the piece of the line and the caret; what is found and what could be there, `null` and no
/// name if that isn't known; and sentences, `null` if they don't apply. A word says which of two texts it is, such as
/// `first `; for a single text it has no bytes. `AllocError`: no memory for it. Time is linear in the text.
pub fn refusal_object(alloc: Global, which: &[u8], text: &[u8], refusal: Refusal) -> Made<Vec<u8>>
    requires { refusal.place ≤ length text.now }
    ensures { IfOk result (λ object. IsRefusalObject which.now text.now refusal object.items) }
{
    let explanation = explanation(alloc, text, refusal)?;
    let mut out = Vec::from_slice(alloc, b"{")?;
    append_which(which, &mut out)?;
    append_place(refusal, explanation.position, &mut out)?;
    append_text_member(b"excerpt", &explanation.excerpt, &mut out)?;
    append_expected(&explanation.expected, &mut out)?;
    explanation.append_sentence_members(&mut out)?;
    out.extend_from_slice(b"}\n")?;
    Ok(out)
}

// `refused N NAME at P, line L, column C`, and a line feed.
fn append_head(refusal: Refusal, position: Position, out: &mut Vec<u8>) -> Made<()>
    ensures { OnOk result (out.new.items ≡ out.old.items ++ head refusal position) }
{
    append_refusal(out, refusal)?;
    append_position(position, out)
}

// `, line L, column C`, and a line feed.
fn append_position(position: Position, out: &mut Vec<u8>) -> Made<()>
    ensures { OnOk result (out.new.items ≡ out.old.items ++ (codes ", line " ++ decimal position.line
        ++ codes ", column " ++ decimal position.column ++ 10 ∷ [])) }
{
    out.extend_from_slice(b", line ")?;
    append_number(position.line, out)?;
    out.extend_from_slice(b", column ")?;
    append_number(position.column, out)?;
    out.extend_from_slice(b"\n")
}

fn append_line_if_any(words: &[u8], out: &mut Vec<u8>) -> Made<()>
    ensures { OnOk result (out.new.items ≡ out.old.items ++ line_if_any words.now) }
{
    if words.is_empty() {
        return Ok(());
    }
    append_line(words, out)
}

fn append_line(words: &[u8], out: &mut Vec<u8>) -> Made<()>
    ensures { OnOk result (out.new.items ≡ out.old.items ++ (words.now ++ 10 ∷ [])) }
{
    out.extend_from_slice(words)?;
    out.extend_from_slice(b"\n")
}

// `"text":"first",`, or nothing where there is one text.
fn append_which(which: &[u8], out: &mut Vec<u8>) -> Made<()>
    ensures { OnOk result (out.new.items ≡ out.old.items ++ which_member which.now) }
{
    if which.is_empty() {
        return Ok(());
    }
    out.extend_from_slice(b"\"text\":")?;
    append_text(word_at(which), out)?;
    out.extend_from_slice(b",")
}

fn append_place(refusal: Refusal, position: Position, out: &mut Vec<u8>) -> Made<()>
    ensures { OnOk result (out.new.items ≡ out.old.items ++ place_members refusal position) }
{
    out.extend_from_slice(b"\"refused\":")?;
    append_number(usize::from(refusal.number()), out)?;
    append_text_member(b"name", refusal.name().as_bytes(), out)?;
    append_number_member(b"place", refusal.place(), out)?;
    append_number_member(b"line", position.line, out)?;
    append_number_member(b"column", position.column, out)
}

fn append_expected(expected: &Option<ExpectedTexts>, out: &mut Vec<u8>) -> Made<()>
    ensures { OnOk result (out.new.items ≡ out.old.items ++ expected_members expected.now) }
{
    let Some(expected) = expected else {
        return out.extend_from_slice(
            b",\"node\":null,\"node_place\":null,\"found\":null,\"expected\":[]",
        );
    };
    append_value_member(b"node", &expected.node, out)?;
    append_number_member(b"node_place", expected.place, out)?;
    append_text_member(b"found", &expected.found, out)?;
    append_key(b"expected", out)?;
    append_array(&expected.names, out)
}
