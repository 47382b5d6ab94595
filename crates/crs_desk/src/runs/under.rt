//! Texts under rules: what `canon` writes of one, `same` of two by their forms, and `explain` of the parts that differ.
ghost use Rattle.std.specs.Prelude.{◌≡◌, ◌≤◌, ◌++◌, IfOk, MatchResult, OnOk, codes, length};
ghost use Rattle.std.specs.List.{prefix_len};
ghost use Rattle.std.specs.Option.{option_map};
ghost use Rattle.crs_value.specs.Spells.{IsFaultOfText};
ghost use Rattle.crs_canon.specs.MainTheorem.{IsAccepted};
ghost use Rattle.crs_writer.specs.Canonical.{IsCanonicalOf};
ghost use Rattle.crs_rules.specs.Rewritten.{IsForm};
ghost use Rattle.crs_explain.specs.Differing.{has_part, is_of_part, part_of};
ghost use Rattle.crs_desk.specs.RulesOutput.{IsExplainedBehind, IsExplainedUnder, IsRefusedOf, TellsUnder};
ghost use Rattle.crs_desk.specs.RulesOutput.{marked, marked_one, status_of, texts_in, told_parts, with_mark};

use crate::runs::explain::{Told, same_line};
use crate::{
    Answer, InALine, Level, Manner, Telling, TextCommand, line_of, pair_output, refusal_in,
    refused_line, refused_output,
};
use crs_canon::laws::main_theorem;
use crs_canon::{Canon, canon};
use crs_explain::{
    DifferenceTexts, append_difference_line, append_difference_members, difference_lines,
    difference_objects, ordered_parts,
};
use crs_rules::{Under, canon_under, read_in_form_order, rewrite_parts};
use crs_text::Fault;
use crs_value::Crs;
use std::alloc::{AllocError, Global};

// `canon` under rules.
impl TextCommand for Under<'_> {
    ghost use Rattle.crs_desk.specs.RulesOutput.{IsFormOutput};

    ghost Output = { λ s text written status. IsFormOutput s.rules.now s.level text written status };

    fn output(&self, alloc: Global, text: &[u8]) -> Result<(Vec<u8>, u8), AllocError> {
        match canon_under(alloc, text, self.level, self.rules) {
            Ok(form) => Ok((line_of(form.into_bytes())?, 0)),
            Err(fault) => Ok((refused_line(alloc, b"", refusal_in(fault)?)?, 1)),
        }
    }
}

// What is written for a text so that texts can be compared.
trait Writing: Copy {
    ghost use Rattle.crs_desk.specs.RulesOutput.{Written};

    ghost Is: { Self → Written };

    fn write(self, alloc: Global, text: &[u8]) -> Result<Canon, Fault>
        ensures { MatchResult result (λ written. Is self text.now written.bytes) (IsFaultOfText text.now) };
}

impl Writing for Under<'_> {
    ghost Is = { λ s text form. IsForm s.rules.now s.level text form };

    fn write(self, alloc: Global, text: &[u8]) -> Result<Canon, Fault> {
        canon_under(alloc, text, self.level, self.rules)
    }
}

impl Writing for Level {
    ghost Is = { λ s text canonical. IsCanonicalOf s text canonical };

    fn write(self, alloc: Global, text: &[u8]) -> Result<Canon, Fault> {
        canon(alloc, text, self)
    }
}

// What is written for both texts; or the bytes and the status of a refusal.
type Both = Result<(Canon, Canon), (Vec<u8>, u8)>;

// What is written for two texts.
fn both_of<T: Telling, W: Writing>(
    alloc: Global,
    told: T,
    by: W,
    first: &[u8],
    second: &[u8],
) -> Result<Both, AllocError>
    ensures { IfOk result (λ found. MatchResult found
        (λ both. W.Is by first.now both.0.bytes × W.Is by second.now both.1.bytes)
        (λ output. IsRefusedOf (W.Is by) (T.Refused told) first.now second.now output.0.items output.1)) }
{
    match by.write(alloc, first) {
        Ok(written) => second_of(alloc, told, by, written, second),
        Err(fault) => Ok(Err(refused_output(alloc, told, b"first ", first, fault)?)),
    }
}

// Both, where this is written for the first text.
fn second_of<T: Telling, W: Writing>(
    alloc: Global,
    told: T,
    by: W,
    first: Canon,
    second: &[u8],
) -> Result<Both, AllocError>
    ensures { IfOk result (λ found. MatchResult found (λ both. (both.0 ≡ first) × W.Is by second.now both.1.bytes)
        (λ output. T.Refused told (codes "second ") second.now output.0.items output.1)) }
{
    match by.write(alloc, second) {
        Ok(written) => Ok(Ok((first, written))),
        Err(fault) => Ok(Err(refused_output(alloc, told, b"second ", second, fault)?)),
    }
}

/// Whether two texts are the same under rules, at a level: for their forms what `run_same` writes, or `first` or
/// `second` and the refusal of the first text that spells no CRS.
#[derive(Clone, Copy)]
pub struct SameForms<'t> {
    /// In a line of words, or as an object in one.
    pub how: Manner,
    /// The rules and the level.
    pub under: Under<'t>,
    /// The first text.
    pub a: &'t [u8],
    /// The second.
    pub b: &'t [u8],
}

impl Answer for SameForms<'_> {
    ghost use Rattle.crs_desk.specs.RulesOutput.{IsSameUnderOutput};

    ghost Output = { λ s written status.
        IsSameUnderOutput s.how s.under.rules.now s.under.level s.a.now s.b.now written status };

    fn output(&self, alloc: Global) -> Result<(Vec<u8>, u8), AllocError> {
        let told = InALine { how: self.how };
        match both_of(alloc, told, self.under, self.a, self.b)? {
            Ok((a, b)) => pair_output(alloc, told, self.under.level, a.bytes(), b.bytes()),
            Err(output) => Ok(output),
        }
    }
}

/// Whether two texts are the same under rules, at a level: what `Told` writes for their CRSs rewritten by the rules,
/// and then, each after `the same by the rules: `, the parts in which the CRSs differ before they are rewritten and not
/// after; if the order of axes doesn't count, their axes are in the order of the forms. Or the refusal of the first
/// text that spells no CRS, explained. In an object of JSON the mark is a first member, `"same_by_rules":true`.
#[derive(Clone, Copy)]
pub struct ExplainedForms<'t> {
    /// The form in which it is written.
    pub told: Told<'t>,
    /// The rules and the level.
    pub under: Under<'t>,
    /// The first text.
    pub a: &'t [u8],
    /// The second.
    pub b: &'t [u8],
}

impl Answer for ExplainedForms<'_> {
    ghost use Rattle.crs_desk.specs.RulesOutput.{IsExplainUnderOutput};

    ghost Output = { λ s written status.
        IsExplainUnderOutput s.told.how s.told.words.now s.under.rules.now s.under.level s.a.now s.b.now written status };

    fn output(&self, alloc: Global) -> Result<(Vec<u8>, u8), AllocError> {
        main_theorem();
        match both_of(alloc, self.told, self.under.level, self.a, self.b)? {
            Ok((a, b)) => explained(alloc, self.told, self.under, a.bytes(), b.bytes()),
            Err(output) => Ok(output),
        }
    }
}

fn explained<'t>(
    alloc: Global,
    told: Told<'t>,
    under: Under<'t>,
    a: &'t [u8],
    b: &'t [u8],
) -> Result<(Vec<u8>, u8), AllocError>
    requires a { IsAccepted a.now }
    requires b { IsAccepted b.now }
    ensures { IfOk result (λ output. IsExplainedUnder told.entry.how told.entry.words.now under.entry.rules.now
        under.entry.level a.now b.now output.0.items output.1) }
{
    let mut crs = read_in_form_order(alloc, a, under.rules)?;
    explained_behind(alloc, told, under, &mut crs, b)
}

// The explanation of the CRS of the first text and of the second canonical text.
fn explained_behind<'t>(
    alloc: Global,
    told: Told<'t>,
    under: Under<'t>,
    first: &mut Crs<'t>,
    b: &'t [u8],
) -> Result<(Vec<u8>, u8), AllocError>
    requires { IsAccepted b.now }
    ensures { IfOk result (λ output. IsExplainedBehind told.entry.how told.entry.words.now under.entry.rules.now
        under.entry.level first.old b.now output.0.items output.1) }
{
    let mut crs = read_in_form_order(alloc, b, under.rules)?;
    told_under(alloc, first, &mut crs, told, under)
}

// What `explain` writes for two CRSs under rules.
fn told_under<'t>(
    alloc: Global,
    a: &mut Crs<'t>,
    b: &mut Crs<'t>,
    told: Told<'t>,
    under: Under<'t>,
) -> Result<(Vec<u8>, u8), AllocError>
    ensures { IfOk result (λ output. TellsUnder told.entry.how told.entry.words.now under.entry.rules.now
        under.entry.level a.old b.old output.0.items output.1) }
{
    let before = ordered_parts(alloc, a, b, under.level, told.words)?;
    rewrite_parts(alloc, a, under.rules);
    rewrite_parts(alloc, b, under.rules);
    let after = ordered_parts(alloc, a, b, under.level, told.words)?;
    told_parts(alloc, told.how, &before, &after)
}

// What `explain` writes for the parts that differ before and after.
fn told_parts(
    alloc: Global,
    how: Manner,
    before: &Option<Vec<DifferenceTexts>>,
    after: &Option<Vec<DifferenceTexts>>,
) -> Result<(Vec<u8>, u8), AllocError>
    ensures { IfOk result (λ output. let old = option_map (λ texts. texts.items) before.now in
        let new = option_map (λ texts. texts.items) after.now in
        (output.0.items ≡ told_parts how new ++ marked how (texts_in new) (texts_in old))
        × (output.1 ≡ status_of new)) }
{
    let mut told = parts_told(alloc, how, after)?;
    append_marked(&mut told, how, texts_in(after), texts_in(before))?;
    let status = match after {
        None => 0,
        Some(_) => 1,
    };
    Ok((told, status))
}

fn parts_told(
    alloc: Global,
    how: Manner,
    parts: &Option<Vec<DifferenceTexts>>,
) -> Result<Vec<u8>, AllocError>
    ensures { IfOk result (λ told. told.items ≡ told_parts how (option_map (λ texts. texts.items) parts.now)) }
{
    match (parts, how) {
        (None, _) => same_line(alloc, how),
        (Some(parts), Manner::Lines) => difference_lines(alloc, parts),
        (Some(parts), Manner::Objects) => difference_objects(alloc, parts),
    }
}

fn texts_in(parts: &Option<Vec<DifferenceTexts>>) -> &[DifferenceTexts]
    ensures { result.now ≡ texts_in (option_map (λ texts. texts.items) parts.now) }
{
    match parts {
        None => &[],
        Some(parts) => parts.as_slice(),
    }
}

// What stands before a line whose difference rules took away.
const MARK: &[u8] = b"the same by the rules: ";

// What stands for the brace of such an object.
const OBJECT_MARK: &[u8] = b"{\"same_by_rules\":true,";

// Appends parts that differ before, each with the mark, but for those that differ after too.
fn append_marked(
    out: &mut Vec<u8>,
    how: Manner,
    after: &[DifferenceTexts],
    before: &[DifferenceTexts],
) -> Result<(), AllocError>
    ensures { OnOk result (out.new.items ≡ out.old.items ++ marked how after.now before.now) }
{
    for difference in before {
        append_unless(out, how, after, difference)?;
    }
    Ok(())
}

fn append_unless(
    out: &mut Vec<u8>,
    how: Manner,
    after: &[DifferenceTexts],
    difference: &DifferenceTexts,
) -> Result<(), AllocError>
    ensures { OnOk result (out.new.items ≡ out.old.items ++ marked_one how after.now difference.now) }
{
    if has_part(after, part_of(&difference.path)) {
        return Ok(());
    }
    append_one(out, how, difference)
}

// Appends a part with the mark.
fn append_one(
    out: &mut Vec<u8>,
    how: Manner,
    difference: &DifferenceTexts,
) -> Result<(), AllocError>
    ensures { OnOk result (out.new.items ≡ out.old.items ++ with_mark how difference.now) }
{
    match how {
        Manner::Lines => {
            out.extend_from_slice(MARK)?;
            append_difference_line(difference, out)
        }
        Manner::Objects => {
            out.extend_from_slice(OBJECT_MARK)?;
            append_difference_members(difference, out)
        }
    }
}

// Whether one of some differences is in this part.
fn has_part(differences: &[DifferenceTexts], part: &[u8]) -> bool
    ensures { result ≡ has_part differences.now part.now }
{
    for difference in differences {
        if part_of(&difference.path) == part {
            return true;
        }
    }
    false
}

// The path to a part, without the name of a member and what follows.
fn part_of(path: &[u8]) -> &[u8]
    ensures { result.now ≡ part_of path.now }
{
    &path[..part_length(path)]
}

fn part_length(path: &[u8]) -> usize
    ensures value { result ≡ prefix_len is_of_part path.now }
    ensures within { result ≤ length path.now }
{
    path.iter().take_while(|byte| **byte != b'[').count()
}
