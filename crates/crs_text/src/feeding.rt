//! How far a text's front is settled while more may come; what is pending is scanned from where the last piece left it.
ghost use Rattle.std.specs.Prelude.{◌<◌, length, IfSome, MatchBool, MatchResult};
ghost use Rattle.crs_text.specs.inner.Lexing.{IsLexed};
ghost use Rattle.crs_text.specs.inner.Feeding.{IsFlawSettled, IsLexedSettled, IsSettledTo, IsUnsettledAt, IsFedTo};
ghost use Rattle.crs_text.specs.inner.Feeding.{IsFedBefore, IsSettledFault, IsPendingIn, IsPendingBefore, StaysPending, IsInsideTo, IsOpenTo};

use crate::fault::Fault;
use crate::lexing::{Lexed, closing_quote, rest_of, token_at, valid_length};
use crate::refusal::Reason;
use crate::runs::{ByteKind, RunBytes, WordBytes};
use crate::scanning::{after_white, take_lexed};
use crate::table::Table;

/// What is known of a token that isn't settled.
#[derive(Clone, Copy)]
pub(crate) enum Pending {
    Unknown,
    /// A word, to the end.
    Word,
    /// Bytes that a number could take, to the end.
    Run,
    /// An opening quote: so many bytes after it are inside the text, so many are well-formed UTF-8.
    Text { inside: usize, valid: usize },
}

/// Where the first token begins that isn't settled, and what is known of it.
#[derive(Clone, Copy)]
pub(crate) struct Held {
    pub(crate) at: usize,
    pub(crate) pending: Pending,
}

// A run is settled where a byte follows that a number wouldn't take.
#[tactic(auto, using(crate::proofs::settled::FeedingLemmas::run_rules))]
fn is_settled_flaw(left: &[u8], reason: Reason) -> bool
    ensures { MatchBool result (IsFlawSettled reason left.now) (¬ (IsFlawSettled reason left.now)) }
{
    match reason {
        Reason::BadCharacter | Reason::NotUtf8 => true,
        Reason::BadNumber | Reason::NumberRange => RunBytes::length(left) < left.len(),
        Reason::OpenText | Reason::Unexpected | Reason::UnexpectedEnd | Reason::TooDeep => false,
    }
}

// Whether no byte to come changes what begins what is left.
fn is_settled(left: &[u8], lexed: Lexed) -> bool
    requires { IsLexed left.now lexed }
    ensures { MatchBool result (IsLexedSettled left.now lexed) (¬ (IsLexedSettled left.now lexed)) }
{
    match lexed {
        Lexed::Number { length } | Lexed::Word { length } => length < left.len(),
        Lexed::Text { length } => length + 2 < left.len(),
        Lexed::Comma | Lexed::Opening { .. } | Lexed::Closing { .. } => true,
        Lexed::Flaw { reason, .. } => is_settled_flaw(left, reason),
    }
}

// Takes the settled tokens from here on, each with the white space after it: where the first that isn't settled begins.
fn settle_all(table: &mut Table, text: &[u8], from: usize) -> Result<usize, Fault>
    requires { IsSettledTo text.now table.old from }
    ensures { MatchResult result (λ at. IsSettledTo text.now table.new at × IsUnsettledAt text.now at)
        (IsSettledFault text.now) }
{
    let mut at = from;
    while at < text.len() {
        let left = rest_of(text, at);
        let lexed = token_at(left);
        if !is_settled(left, lexed) {
            return Ok(at);
        }
        let mut taken = 0;
        take_lexed(table, text, at, lexed, &mut taken)?;
        at = after_white(text, at + taken);
    }
    Ok(at)
}

// How many bytes are inside the text, where so many are known to be; None where a byte follows its closing quote.
fn open_to(after: &[u8], known: usize) -> Option<usize>
    requires { IsInsideTo after.now known }
    ensures { IfSome result (IsOpenTo after.now) }
{
    match closing_quote(rest_of(after, known)) {
        Some(more) if known + more + 1 == after.len() => Some(known + more),
        Some(_) => None,
        None => Some(after.len()),
    }
}

// The quoted text, if it is still open and well-formed so far.
fn stays_open(left: &[u8], inside: usize, valid: usize) -> Option<Pending>
    requires { IsPendingIn left.now (Pending.Text inside valid) }
    ensures { IfSome result (StaysPending left.now) }
{
    let after = rest_of(left, 1);
    let inside = open_to(after, inside)?;
    // None where no more bytes complete those that aren't known to be well-formed.
    let valid = valid + valid_length(rest_of(after, valid)).ok()?;
    Some(Pending::Text { inside, valid })
}

// What was pending before this piece, if it still is.
fn stays(left: &[u8], piece: &[u8], pending: Pending) -> Option<Pending>
    requires { IsPendingBefore left.now piece.now pending }
    ensures { IfSome result (StaysPending left.now) }
{
    match pending {
        Pending::Word if WordBytes::length(piece) == piece.len() => Some(pending),
        Pending::Run if RunBytes::length(piece) == piece.len() => Some(pending),
        Pending::Text { inside, valid } => stays_open(left, inside, valid),
        Pending::Unknown | Pending::Word | Pending::Run => None,
    }
}

// What is pending at the front of what is left, as far as a look at it shows.
fn pending_of(left: &[u8]) -> Pending
    ensures { IsPendingIn left.now result }
{
    match left {
        [b'A'..=b'Z' | b'a'..=b'z', ..] if WordBytes::length(left) == left.len() => Pending::Word,
        [b'0'..=b'9' | b'+' | b'-' | b'.', ..] if RunBytes::length(left) == left.len() =>
            Pending::Run,
        [b'"', ..] => Pending::Text {
            inside: 0,
            valid: 0,
        },
        _ => Pending::Unknown,
    }
}

/// Takes what the last piece of the text settles.
pub(crate) fn read_on(
    table: &mut Table,
    text: &[u8],
    piece: &[u8],
    held: Held,
) -> Result<Held, Fault>
    requires { IsFedBefore text.now piece.now table.old held }
    ensures { MatchResult result (IsFedTo text.now table.new) (IsSettledFault text.now) }
{
    match stays(rest_of(text, held.at), piece, held.pending) {
        Some(pending) => Ok(Held { pending, ..held }),
        None => {
            let from = after_white(text, held.at);
            let at = settle_all(table, text, from)?;
            Ok(Held {
                at,
                pending: pending_of(rest_of(text, at)),
            })
        }
    }
}
