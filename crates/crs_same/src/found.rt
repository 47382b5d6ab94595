//! What a walk over the parts of two values finds: the first part that differs, or all.
ghost use Rattle.std.specs.Prelude.{◌≡◌, ◌++◌, ◌∷◌, ◌↔◌, [], IfOk, IsTrue, List, None, Option};
ghost use Rattle.std.specs.Option.{option_copied};
ghost use Rattle.crs_value.specs.Kept.{kept};
ghost use Rattle.crs_same.specs.declared.content.Content.TheVariants as content;
ghost use Rattle.crs_shape.specs.declared.unit_kind.UnitKind.TheVariants as kinds;
ghost use Rattle.crs_same.specs.declared.step.Step.{Step};
ghost use Rattle.crs_same.specs.declared.step.Step.TheVariants as step;
ghost use Rattle.crs_same.specs.declared.found.Found.TheVariants as found;
ghost use Rattle.crs_same.specs.Parts.{length_unit, ◌▸◌, part, texts, optional_texts, unlike, numbers, optional_numbers, units, identifiers};
ghost use Rattle.crs_same.specs.SameParts.{SameLength};
ghost use Rattle.crs_same.specs.inner.Walked.{IsDone, IsOfAll, Walked};

use crate::content::{Content, Members};
use crate::path::{At, Path};
use crate::step::Step;
use crate::{
    same_idents, same_kept_idents, same_length, same_optional_text, same_optional_value, same_text,
    same_units_asked, same_value,
};
use crs_decimal::Decimal;
use crs_value::{CounterpartHints, Ident, List, Unit, UnitKind};
use std::alloc::AllocError;
use std::marker::Model;

/// A part in which two CRSs differ: the path to it, and its value in either. Profile.
#[derive(Drop)]
pub struct Difference<'b, 'a> {
    path: Path,
    first: Content<'b, 'a>,
    second: Content<'b, 'a>,
}

impl<'b, 'a> Model for Difference<'b, 'a> {
    ghost use Rattle.crs_same.specs.Parts.{DifferenceParts};

    ghost Value = { DifferenceParts };

    ghost view = { λ d. record { path = d.path; first = d.first; second = d.second } };
}

impl<'b, 'a> Difference<'b, 'a> {
    /// The path to the part.
    pub fn path(&self) -> &Path
        ensures { result.now ≡ self.now.path }
    {
        &self.path
    }

    /// Its value in the first CRS.
    pub fn first(&self) -> &Content<'b, 'a>
        ensures { result.now ≡ self.now.first }
    {
        &self.first
    }

    /// Its value in the second CRS.
    pub fn second(&self) -> &Content<'b, 'a>
        ensures { result.now ≡ self.now.second }
    {
        &self.second
    }
}

/// The parts in which two CRSs differ, in the order of the canonical text. Profile.
#[derive(Drop)]
pub struct Differences<'b, 'a> {
    pub(crate) differences: Vec<Difference<'b, 'a>>,
}

impl<'b, 'a> Model for Differences<'b, 'a> {
    ghost use Rattle.std.specs.Prelude.{List};
    ghost use Rattle.crs_same.specs.Parts.{DifferenceParts};

    ghost Value = { List DifferenceParts };

    ghost view = { λ d. d.differences.items };
}

impl<'b, 'a> Differences<'b, 'a> {
    /// The parts, in order.
    pub fn as_slice(&self) -> &[Difference<'b, 'a>]
        ensures { result.now ≡ self.now }
    {
        &self.differences
    }
}

// A unit that may be missing, and the kind that is asked where it is.
#[derive(Clone, Copy)]
pub(crate) struct Asked<'b, 'a> {
    pub(crate) kind: UnitKind,
    pub(crate) unit: Option<&'b Unit<'a>>,
}

// What is found so far, and what is looked for.
#[derive(Drop)]
pub(crate) enum Found<'b, 'a> {
    // The first part that differs; None where there was none yet.
    First(Option<Path>),
    // All parts that differ, up to here.
    All(Differences<'b, 'a>),
    // All were looked for, and there was no memory for one.
    Refused(AllocError),
}

impl<'b, 'a> Found<'b, 'a> {
    // The first part that differs is looked for.
    pub(crate) fn first() -> Found<'b, 'a>
        ensures { result ≡ found.First None }
    {
        Found::First(None)
    }

    // Whether nothing more is looked for.
    pub(crate) fn is_done(&self) -> bool
        ensures { IsTrue result ↔ IsDone self.now }
    {
        match self {
            Found::First(path) => path.is_some(),
            Found::All(_) => false,
            Found::Refused(_) => true,
        }
    }

    // The first part that differs, where that was looked for.
    pub(crate) fn into_first(self) -> Option<Path>
        ensures { (path : Option (List Step)) → self.entry ≡ found.First path → result ≡ path }
    {
        match self {
            Found::First(path) => path,
            Found::All(_differences) => None,
            Found::Refused(_error) => None,
        }
    }

    // Whether nothing was found, where the first part that differs was looked for.
    pub(crate) fn is_same(self) -> bool
        ensures { (path : Option (List Step)) → self.entry ≡ found.First path → IsTrue result ↔ (path ≡ None) }
    {
        self.into_first().is_none()
    }

    // All parts that differ, where they were looked for.
    pub(crate) fn into_all(self) -> Result<Differences<'b, 'a>, AllocError>
        requires { IsOfAll self }
        ensures { IfOk result (λ differences. self.entry ≡ found.All differences) }
    {
        match self {
            Found::All(differences) => Ok(differences),
            Found::Refused(error) => Err(error),
            Found::First(_path) => unreachable!(),
        }
    }

    // ---- over the part that is this step further

    // A part that is never the same, such as one that only one side has.
    pub(crate) fn alone(self, at: &At, step: Step, a: Content<'b, 'a>, b: Content<'b, 'a>) -> Self
        ensures { Walked (part (at.now.path ▸ step) ⊥ (a.entry) (b.entry)) self.entry result }
    {
        match self {
            Found::First(None) => Found::First(Some(at.path.then(step))),
            Found::First(Some(path)) => Found::First(Some(path)),
            Found::All(Differences { mut differences }) => {
                let path = at.path.then(step);
                match differences.push(Difference {
                    path,
                    first: a,
                    second: b,
                }) {
                    Ok(()) => Found::All(Differences { differences }),
                    Err(error) => Found::Refused(error.into()),
                }
            }
            Found::Refused(error) => Found::Refused(error),
        }
    }

    // Two things that are never the same, with their words.
    pub(crate) fn unlike(self, at: &At, step: Step, a: &'static str, b: &'static str) -> Self
        ensures { Walked (unlike (at.now.path ▸ step) a.now b.now) self.entry result }
    {
        self.alone(at, step, Content::word(a), Content::word(b))
    }

    #[tactic(auto, using(crate::proofs::WalkedLemmas::part_rules))]
    pub(crate) fn text(self, at: &At, step: Step, a: &'a [u8], b: &'a [u8]) -> Self
        ensures { Walked (texts (at.now.path ▸ step) a.now b.now) self.entry result }
    {
        if same_text(a, b) {
            return self;
        }
        self.alone(at, step, Content::text(a), Content::text(b))
    }

    #[tactic(auto, using(crate::proofs::WalkedLemmas::part_rules))]
    pub(crate) fn optional_text(
        self,
        at: &At,
        step: Step,
        a: Option<&'a [u8]>,
        b: Option<&'a [u8]>,
    ) -> Self
        ensures { Walked (optional_texts (at.now.path ▸ step) (option_copied a.entry) (option_copied b.entry))
            self.entry result }
    {
        if same_optional_text(a, b) {
            return self;
        }
        let (first, second) = (Content::optional_text(a), Content::optional_text(b));
        self.alone(at, step, first, second)
    }

    #[tactic(auto, using(crate::proofs::WalkedLemmas::part_rules))]
    pub(crate) fn number(self, at: &At, step: Step, a: &Decimal, b: &Decimal) -> Self
        ensures { Walked (numbers (at.now.path ▸ step) a.now b.now) self.entry result }
    {
        if same_value(a, b) {
            return self;
        }
        self.alone(at, step, Content::Number(*a), Content::Number(*b))
    }

    #[tactic(auto, using(crate::proofs::WalkedLemmas::part_rules))]
    pub(crate) fn optional_number(
        self,
        at: &At,
        step: Step,
        a: &Option<Decimal>,
        b: &Option<Decimal>,
    ) -> Self
        ensures { Walked (optional_numbers (at.now.path ▸ step) a.now b.now) self.entry result }
    {
        if same_optional_value(*a, *b) {
            return self;
        }
        let (first, second) = (Content::optional_number(*a), Content::optional_number(*b));
        self.alone(at, step, first, second)
    }

    #[tactic(auto, using(crate::proofs::WalkedLemmas::part_rules))]
    pub(crate) fn length(self, at: &At, a: &'b Option<Unit<'a>>, b: &'b Option<Unit<'a>>) -> Self
        ensures { Walked (part (at.now.path ▸ step.Unit) (SameLength at.now.level a.now b.now)
            (length_unit a.now) (length_unit b.now)) self.entry result }
    {
        if same_length(a, b, at.level) {
            return self;
        }
        let (first, second) = (Content::length(a.as_ref()), Content::length(b.as_ref()));
        self.alone(at, Step::Unit, first, second)
    }

    // Units, each where a kind is asked.
    #[tactic(auto, using(crate::proofs::WalkedLemmas::part_rules))]
    pub(crate) fn unit(self, at: &At, a: Asked<'b, 'a>, b: Asked<'b, 'a>) -> Self
        ensures { Walked (units (at.now.path ▸ step.Unit) at.now.level a.entry.kind b.entry.kind
            (option_copied a.entry.unit) (option_copied b.entry.unit)) self.entry result }
    {
        if self.is_done() || same_units_asked(a.kind, b.kind, a.unit, b.unit, at.level) {
            return self;
        }
        let first = Content::optional_unit(a.kind, a.unit);
        let second = Content::optional_unit(b.kind, b.unit);
        self.alone(at, Step::Unit, first, second)
    }

    // Units, an angle's kind being asked of both.
    pub(crate) fn angle(self, at: &At, a: Option<&'b Unit<'a>>, b: Option<&'b Unit<'a>>) -> Self
        ensures { Walked (units (at.now.path ▸ step.Unit) at.now.level kinds.Angle kinds.Angle
            (option_copied a.entry) (option_copied b.entry)) self.entry result }
    {
        let kind = UnitKind::Angle;
        self.unit(at, Asked { kind, unit: a }, Asked { kind, unit: b })
    }

    // The identifiers that the level keeps.
    #[tactic(auto, using(crate::proofs::WalkedLemmas::part_rules))]
    pub(crate) fn identifiers(self, at: &At, a: &'b List<Ident<'a>>, b: &'b List<Ident<'a>>) -> Self
        ensures { Walked (identifiers (at.now.path ▸ step.Id) at.now.level a.now b.now) self.entry result }
    {
        if self.is_done() || same_idents(a, b, at.level) {
            return self;
        }
        self.unlike_identifiers(at, a.as_slice(), b.as_slice())
    }

    // The identifiers that the level keeps, of two slices, of which one is empty.
    #[tactic(auto, using(crate::proofs::WalkedLemmas::part_rules))]
    pub(crate) fn identifiers_of(self, at: &At, a: &'b [Ident<'a>], b: &'b [Ident<'a>]) -> Self
        ensures { Walked (identifiers (at.now.path ▸ step.Id) at.now.level a.now b.now) self.entry result }
    {
        if self.is_done() || same_kept_idents(a, b, CounterpartHints::none(), at.level) {
            return self;
        }
        self.unlike_identifiers(at, a, b)
    }

    // The identifiers that the level keeps, where those of both aren't the same.
    fn unlike_identifiers(self, at: &At, a: &'b [Ident<'a>], b: &'b [Ident<'a>]) -> Self
        ensures { Walked (part (at.now.path ▸ step.Id) ⊥
            (content.Identifiers (kept at.now.level a.now) (kept at.now.level b.now))
            (content.Identifiers (kept at.now.level b.now) (kept at.now.level a.now))) self.entry result }
    {
        let (a, b) = (at.level.kept(a), at.level.kept(b));
        let first = Content::Identifiers(Members { members: a }, Members { members: b });
        let second = Content::Identifiers(Members { members: b }, Members { members: a });
        self.alone(at, Step::Id, first, second)
    }
}
