//! What a rules file says, in counts, or where it is refused and why.
ghost use Rattle.std.specs.Prelude.{◌≡◌, ◌+◌, ◌++◌, ◌∷◌, [], List, ℕ, IfOk, IfSome, MatchResult, OnOk, codes, if◌then◌else◌};
ghost use Rattle.crs_rules.specs.RulesFile.{RefusesFile, SpellsRules, is_idle, start};
ghost use Rattle.crs_rules.specs.Statements.{IsRefusedBy};
ghost use Rattle.crs_rules.specs.Rules.{RulesParts};
ghost use Rattle.crs_desk.specs.RulesCheck.{AreUnmatched, HasStatements, counted, fault_told, names_in, ok_told};
ghost use Rattle.crs_desk.specs.inner.RulesCounts.{HasNames, IsFaultOfFile};

use crate::{Rules, RulesFault, RulesRefusal, TextCommand, Used, read_rules};
use crs_explain::rules_refusal_text;
use crs_rules::is_idle;
use crs_streams::{append_number, first_line};
use std::alloc::{AllocError, Global};

/// `rules`: how many statements a rules file has, and how many names, or its first fault, with the line and a sentence.
#[derive(Clone, Copy)]
pub struct RulesText<'u> {
    /// The texts in which the rules are to be used, if there are some: what they don't match is written.
    pub used: Option<&'u Used>,
}

impl TextCommand for RulesText<'_> {
    ghost use Rattle.crs_desk.specs.RulesCheck.{IsRulesOutput};

    ghost Output = { λ s text written status. IsRulesOutput s.used text written status };

    fn output(&self, alloc: Global, text: &[u8]) -> Result<(Vec<u8>, u8), AllocError> {
        match names_of(alloc, text) {
            Ok(names) => Ok((counts_told(alloc, text, names, self.used)?, 0)),
            Err(fault) => Ok((refused_told(alloc, text, refusal_of(fault)?)?, 1)),
        }
    }
}

// How many names the rules of a file have.
fn names_of(alloc: Global, bytes: &[u8]) -> Result<usize, RulesFault>
    ensures { MatchResult result (HasNames bytes.now) (IsFaultOfFile bytes.now) }
{
    let rules = read_rules(alloc, bytes)?;
    match names_in(&rules) {
        Some(count) => Ok(count),
        None => Err(RulesFault::Memory(AllocError)),
    }
}

// How many names rules have; `None` where no number of this size says so.
fn names_in(rules: &Rules) -> Option<usize>
    ensures { IfSome result (λ count. count ≡ names_in rules.now) }
{
    let others = rules.units().checked_add(rules.kinds())?;
    rules.names().checked_add(others)
}

// The refusal in a fault. `AllocError`: the fault is out of memory.
fn refusal_of(fault: RulesFault) -> Result<RulesRefusal, AllocError>
    ensures { (bytes : List ℕ) → IsFaultOfFile bytes fault → IfOk result (RefusesFile start bytes) }
{
    match fault {
        RulesFault::Refused(refusal) => Ok(refusal),
        RulesFault::Memory(error) => Err(error),
    }
}

// `ok: N statements, M names`, and what the rules don't match.
fn counts_told(
    alloc: Global,
    bytes: &[u8],
    names: usize,
    used: Option<&Used>,
) -> Result<Vec<u8>, AllocError>
    ensures { IfOk result (λ told. (n : ℕ) × HasStatements bytes.now n × (more : List ℕ)
        × AreUnmatched used.entry more × (told.items ≡ ok_told n names ++ 10 ∷ more)) }
{
    let mut told = ok_line(alloc, statements_in(bytes)?, names)?;
    let more = unmatched(alloc, bytes, used)?;
    told.extend_from_slice(&more)?;
    Ok(told)
}

fn unmatched(alloc: Global, bytes: &[u8], used: Option<&Used>) -> Result<Vec<u8>, AllocError>
    ensures { IfOk result (λ more. AreUnmatched used.entry more.items) }
{
    match used {
        Some(used) => used.unmatched(alloc, bytes),
        None => Ok(Vec::new(alloc)),
    }
}

fn ok_line(alloc: Global, statements: usize, names: usize) -> Result<Vec<u8>, AllocError>
    ensures { IfOk result (λ line. line.items ≡ ok_told statements names ++ 10 ∷ []) }
{
    let mut line = Vec::from_slice(alloc, b"ok: ")?;
    append_counted(statements, b" statement", &mut line)?;
    line.extend_from_slice(b", ")?;
    append_counted(names, b" name", &mut line)?;
    line.extend_from_slice(b"\n")?;
    Ok(line)
}

fn append_counted(count: usize, thing: &[u8], out: &mut Vec<u8>) -> Result<(), AllocError>
    ensures { OnOk result (out.new.items ≡ out.old.items ++ counted count thing.now) }
{
    append_number(count, out)?;
    out.extend_from_slice(thing)?;
    out.extend_from_slice(if count == 1 { b"" } else { b"s" })
}

// The first fault of a file in a line, and lines that explain it.
fn refused_told(alloc: Global, bytes: &[u8], refusal: RulesRefusal) -> Result<Vec<u8>, AllocError>
    ensures { IfOk result (λ told. (more : List ℕ) × (told.items ≡ fault_told refusal ++ 10 ∷ more)) }
{
    let mut told = fault_line(alloc, refusal)?;
    let more = rules_refusal_text(alloc, bytes, refusal)?;
    told.extend_from_slice(&more)?;
    Ok(told)
}

fn fault_line(alloc: Global, refusal: RulesRefusal) -> Result<Vec<u8>, AllocError>
    ensures { IfOk result (λ line. line.items ≡ fault_told refusal ++ 10 ∷ []) }
{
    let mut line = Vec::from_slice(alloc, b"line ")?;
    append_number(refusal.line, &mut line)?;
    line.extend_from_slice(b": refused ")?;
    append_number(usize::from(refusal.number), &mut line)?;
    line.extend_from_slice(b" at ")?;
    append_number(refusal.place, &mut line)?;
    line.extend_from_slice(b": ")?;
    line.extend_from_slice(refusal.meaning().as_bytes())?;
    line.extend_from_slice(b"\n")?;
    Ok(line)
}

// How many statements are among the lines of some bytes.
fn statements_in(bytes: &[u8]) -> Result<usize, AllocError>
    ensures { IfOk result (HasStatements bytes.now) }
{
    let mut count = 0;
    let mut left = bytes;
    while !left.is_empty() {
        let (line, rest) = first_line(left);
        count = with_line(count, line)?;
        left = rest;
    }
    Ok(count)
}

fn with_line(count: usize, line: &[u8]) -> Result<usize, AllocError>
    ensures { IfOk result (λ more. more ≡ count + (if is_idle line.now then 0 else 1)) }
{
    if is_idle(line) {
        return Ok(count);
    }
    count.checked_add(1).ok_or(AllocError)
}
