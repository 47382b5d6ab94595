//! All parts in which two CRSs differ, each as three texts. Parameters of one name are compared one by one, the others
//! as a set.
ghost use Rattle.std.specs.Prelude.{◌≡◌, ◌++◌, ◌∷◌, [], IfOk, OnOk, map};
ghost use Rattle.std.specs.Option.{option_copied};
ghost use Rattle.crs_shape.specs.declared.unit_kind.UnitKind.TheVariants as kinds;
ghost use Rattle.crs_value.specs.Kept.{kept};
ghost use Rattle.crs_same.specs.Parts.{given, identifiers, numbers, units};
ghost use Rattle.crs_same.specs.Paths.{path_text};
ghost use Rattle.crs_same.specs.declared.content.Content.TheVariants as content;
ghost use Rattle.crs_same.specs.declared.step.Step.TheVariants as step;
ghost use Rattle.crs_canon.specs.ContentText.{IsContentText};
ghost use Rattle.crs_canon.specs.Named.{named_once, unpaired};
ghost use Rattle.crs_explain.specs.inner.Appended.{AppendsTexts};
ghost use Rattle.crs_explain.specs.Differing.{AreDifferenceTexts, AreTexts, AreTextsOf, AreTextsOfName, AreTextsOfNames, AreTextsOfOne, AreTextsOfOthers};
ghost use Rattle.crs_explain.specs.Differing.{AreTextsOfParts, AreTextsOfSet, PartTexts, are_empty, parameter_path, parts_of_parameter};

use crate::Made;
use crs_canon::{
    append_lacking_members, append_unit, append_unpaired, named_once, paired_names, write_content,
};
use crs_decimal::Decimal;
use crs_same::{
    Content, Difference, Differences, differences, same_idents, same_units_as, same_value,
};
use crs_value::{Crs, Ident, Level, List, Parameter, Unit, UnitKind};
use std::alloc::Global;
use std::collections::BTreeSet;
use std::marker::Model;

/// A part that differs: its path, and its values as the canonical text writes them; no bytes if there is none.
#[derive(Drop)]
pub struct DifferenceTexts {
    /// Its path; a parameter's path has its name, such as `conversion/parameters["NAME"]/unit`.
    pub path: Vec<u8>,
    /// Its value in the first CRS; if it is a set, the members that the second lacks.
    pub first: Vec<u8>,
    /// Its value in the second CRS; if it is a set, the members that the first lacks.
    pub second: Vec<u8>,
}

impl Model for DifferenceTexts {
    ghost use Rattle.crs_explain.specs.Differing.{PartTexts};

    ghost Value = { PartTexts };

    ghost view = { λ d. record { path = d.path.items; first = d.first.items; second = d.second.items } };
}

pub(crate) type Texts = Vec<DifferenceTexts>;

// A path to a part, and the level at which its value is written.
#[derive(Clone, Copy)]
struct Site<'p> {
    alloc: Global,
    level: Level,
    path: &'p [u8],
}

/// The texts of each part in which two CRSs differ at a level, in the order of the canonical text; none exactly if they
/// are the same. A parameter whose name is there once on each side, among at most 64, has parts of its own, in the
/// order of the names: the number at `conversion/parameters["NAME"]`, the unit at `/unit` and the identifiers at `/id`
/// behind that, each if it differs; then come the other parameters, as a set. `AllocError`: no memory.
pub fn differing_parts<'a>(alloc: Global, a: &Crs<'a>, b: &Crs<'a>, level: Level) -> Made<Texts>
    ensures { IfOk result (λ texts. AreDifferenceTexts level a.now b.now texts.items) }
{
    let differences = differences(alloc, a, b, level)?;
    let mut texts = Vec::new(alloc);
    append_texts(&mut texts, alloc, level, differences)?;
    Ok(texts)
}

/// Appends the texts of differences that it owns: borrowed, they make a function slow to prove.
pub(crate) fn append_texts(
    out: &mut Texts,
    alloc: Global,
    level: Level,
    differences: Differences<'_, '_>,
) -> Made<()>
    ensures { OnOk result (AppendsTexts (AreTexts level differences.entry) out.old.items out.new.items) }
{
    for difference in differences.as_slice() {
        append_part(alloc, level, difference, out)?;
    }
    Ok(())
}

fn append_part(alloc: Global, level: Level, part: &Difference<'_, '_>, out: &mut Texts) -> Made<()>
    ensures { OnOk result (AppendsTexts (AreTextsOf level (path_text part.now.path) part.now.first part.now.second)
        out.old.items out.new.items) }
{
    let mut path = Vec::new(alloc);
    part.path().write(&mut path)?;
    let path = path.as_slice();
    let at = Site { alloc, level, path };
    at.append(part.first(), part.second(), out)
}

impl Site<'_> {
    fn append(self, first: &Content<'_, '_>, second: &Content<'_, '_>, out: &mut Texts) -> Made<()>
        ensures { OnOk result (AppendsTexts (AreTextsOf self.entry.level self.entry.path.now first.now second.now)
            out.old.items out.new.items) }
    {
        let at = self;
        let Content::Parameters(these, _) = first else {
            return self.append_one(first, second, out);
        };
        let Content::Parameters(others, _) = second else {
            return self.append_one(first, second, out);
        };
        let (these, others) = (these.as_slice(), others.as_slice());
        Sets { at, these, others }.append(out)
    }

    // Appends the texts of what has these values.
    fn append_one(self, a: &Content<'_, '_>, b: &Content<'_, '_>, out: &mut Texts) -> Made<()>
        ensures { OnOk result (AppendsTexts (AreTextsOfOne self.entry.level self.entry.path.now a.now b.now)
            out.old.items out.new.items) }
    {
        let first = self.content_text(a)?;
        let second = self.content_text(b)?;
        self.push(b"", first, second, out)
    }

    // Appends texts of what is at this path with a step behind it.
    fn push(self, step: &[u8], first: Vec<u8>, second: Vec<u8>, out: &mut Texts) -> Made<()>
        ensures { OnOk result (out.new.items ≡ out.old.items ++ (record {
          path = self.entry.path.now ++ step.now;
          first = first.items;
          second = second.items;
        }) ∷ []) }
    {
        let mut path = Vec::from_slice(self.alloc, self.path)?;
        path.extend_from_slice(step)?;
        out.push(DifferenceTexts {
            path,
            first,
            second,
        })?;
        Ok(())
    }

    fn content_text(self, content: &Content<'_, '_>) -> Made<Vec<u8>>
        ensures { IfOk result (λ text. IsContentText self.entry.level content.now text.items) }
    {
        let mut text = Vec::new(self.alloc);
        write_content(content, self.alloc, self.level, &mut text)?;
        Ok(text)
    }

    fn append_parameter(self, a: &Parameter<'_>, b: &Parameter<'_>, out: &mut Texts) -> Made<()>
        ensures { OnOk result (AppendsTexts (AreTextsOfParts self.entry.level self.entry.path.now
            (parts_of_parameter self.entry.level a.now b.now)) out.old.items out.new.items) }
    {
        self.append_value(&a.value, &b.value, out)?;
        self.append_units(a.unit.as_ref(), b.unit.as_ref(), out)?;
        self.append_ids(&a.identifiers, &b.identifiers, out)
    }

    fn append_value(self, a: &Decimal, b: &Decimal, out: &mut Texts) -> Made<()>
        ensures { OnOk result (AppendsTexts (AreTextsOfParts self.entry.level self.entry.path.now
            (numbers [] a.now b.now)) out.old.items out.new.items) }
    {
        if same_value(a, b) {
            return Ok(());
        }
        self.append_one(&Content::Number(*a), &Content::Number(*b), out)
    }

    fn append_units(self, a: Option<&Unit<'_>>, b: Option<&Unit<'_>>, out: &mut Texts) -> Made<()>
        ensures { OnOk result (AppendsTexts (AreTextsOfParts self.entry.level self.entry.path.now (units (step.Unit ∷ [])
            self.entry.level kinds.Plain kinds.Plain (option_copied a.entry) (option_copied b.entry)))
            out.old.items out.new.items) }
    {
        if same_units_as(UnitKind::Plain, a, b, self.level) {
            return Ok(());
        }
        self.push(b"/unit", unit_text(self, a)?, unit_text(self, b)?, out)
    }

    fn append_ids<'a>(self, a: &List<Ident<'a>>, b: &List<Ident<'a>>, out: &mut Texts) -> Made<()>
        ensures { OnOk result (AppendsTexts (AreTextsOfParts self.entry.level self.entry.path.now
            (identifiers (step.Id ∷ []) self.entry.level a.now b.now)) out.old.items out.new.items) }
    {
        if same_idents(a, b, self.level) {
            return Ok(());
        }
        let first = idents_text(self, a, b)?;
        let second = idents_text(self, b, a)?;
        self.push(b"/id", first, second, out)
    }
}

// Two sets of parameters that differ, of which the first is that of the first CRS.
#[derive(Clone, Copy)]
struct Sets<'s, 'a> {
    at: Site<'s>,
    these: &'s [Parameter<'a>],
    others: &'s [Parameter<'a>],
}

impl Sets<'_, '_> {
    // Appends the texts of what differs.
    fn append(self, out: &mut Texts) -> Made<()>
        ensures { OnOk result (AppendsTexts (AreTextsOfSet self.entry.at.level self.entry.at.path.now
            self.entry.these.now self.entry.others.now) out.old.items out.new.items) }
    {
        let names = paired_names(self.at.alloc, self.these, self.others)?;
        self.append_names(&names, out)?;
        self.append_others(out)
    }

    fn append_names(self, names: &BTreeSet<Vec<u8>>, out: &mut Texts) -> Made<()>
        ensures { OnOk result (AppendsTexts (AreTextsOfNames self.entry.at.level self.entry.at.path.now
            self.entry.these.now self.entry.others.now (map (λ name. name.items) names.now.keys)) out.old.items out.new.items) }
    {
        for name in names {
            self.append_name(name, out)?;
        }
        Ok(())
    }

    fn append_name(self, name: &[u8], out: &mut Texts) -> Made<()>
        ensures { OnOk result (AppendsTexts (AreTextsOfName self.entry.at.level self.entry.at.path.now name.now
            (named_once name.now self.entry.these.now) (named_once name.now self.entry.others.now)) out.old.items out.new.items) }
    {
        match (named_once(self.these, name), named_once(self.others, name)) {
            (Some(a), Some(b)) => {
                let Site { alloc, level, path } = self.at;
                let path = parameter_path(alloc, path, name)?;
                let path = path.as_slice();
                let at = Site { alloc, level, path };
                at.append_parameter(a, b, out)
            }
            (None, None) | (None, Some(_)) | (Some(_), None) => Ok(()),
        }
    }

    fn append_others(self, out: &mut Texts) -> Made<()>
        ensures { OnOk result (AppendsTexts (AreTextsOfOthers self.entry.at.level self.entry.at.path.now
            self.entry.these.now self.entry.others.now) out.old.items out.new.items) }
    {
        let first = unpaired_text(self.at, self.these, self.others)?;
        let second = unpaired_text(self.at, self.others, self.these)?;
        if are_empty(&first, &second) {
            return Ok(());
        }
        self.at.push(b"", first, second, out)
    }
}

fn unpaired_text(at: Site<'_>, these: &[Parameter<'_>], others: &[Parameter<'_>]) -> Made<Vec<u8>>
    ensures { IfOk result (λ text. IsContentText at.entry.level
        (content.Parameters (unpaired these.now others.now) (unpaired others.now these.now)) text.items) }
{
    let mut text = Vec::new(at.alloc);
    append_unpaired(at.alloc, &mut text, these, others, at.level)?;
    Ok(text)
}

fn are_empty(first: &[u8], second: &[u8]) -> bool
    ensures { result ≡ are_empty first.now second.now }
{
    first.is_empty() && second.is_empty()
}

// The path to the parameter of this name in the set at this path.
fn parameter_path(alloc: Global, path: &[u8], name: &[u8]) -> Made<Vec<u8>>
    ensures { IfOk result (λ text. text.items ≡ parameter_path path.now name.now) }
{
    let mut text = Vec::from_slice(alloc, path)?;
    text.extend_from_slice(b"[\"")?;
    text.extend_from_slice(name)?;
    text.extend_from_slice(b"\"]")?;
    Ok(text)
}

fn unit_text(at: Site<'_>, unit: Option<&Unit<'_>>) -> Made<Vec<u8>>
    ensures { IfOk result (λ text.
        IsContentText at.entry.level (given (content.Unit kinds.Plain) (option_copied unit.entry)) text.items) }
{
    let mut text = Vec::new(at.alloc);
    let Some(unit) = unit else { return Ok(text) };
    append_unit(at.alloc, &mut text, UnitKind::Plain, unit, at.level)?;
    Ok(text)
}

// Of the identifiers that the level keeps.
fn idents_text(at: Site<'_>, these: &List<Ident<'_>>, others: &List<Ident<'_>>) -> Made<Vec<u8>>
    ensures { IfOk result (λ text. IsContentText at.entry.level
        (content.Identifiers (kept at.entry.level these.now) (kept at.entry.level others.now)) text.items) }
{
    let these = at.level.kept(these.as_slice());
    let others = at.level.kept(others.as_slice());
    let mut text = Vec::new(at.alloc);
    append_lacking_members(at.alloc, &mut text, these, others, at.level)?;
    Ok(text)
}
