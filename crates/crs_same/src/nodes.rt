//! Conversions, dynamic parts, and the ends of CRSs.
ghost use Rattle.std.specs.Prelude.{◌≡◌, ◌≤◌, ◌↔◌, IsTrue, None, length};
ghost use Rattle.std.specs.Option.{option_and_then, option_copied, option_map};
ghost use Rattle.crs_value.specs.Kept.{kept};
ghost use Rattle.crs_same.specs.SameParts.{SameParameter, SameDeformationModel, SameUsage, usages_of};
ghost use Rattle.crs_same.specs.inner.Agreement.{SameUsages};
ghost use Rattle.crs_same.specs.declared.content.Content.TheVariants as content;
ghost use Rattle.crs_same.specs.declared.step.Step.TheVariants as step;
ghost use Rattle.crs_same.specs.Parts.{◌▸◌, AreSame, parts_of_conversion, parts_of_dynamic, parts_of_method, parts_of_tail, optional, sets};
ghost use Rattle.crs_same.specs.SameCrs.{SameDynamic};
ghost use Rattle.crs_same.specs.inner.Walked.{Walked};

use crate::content::{Content, Members, Usages};
use crate::found::Found;
use crate::path::At;
use crate::step::Step;
use crate::{SetMembers, same_models, same_set, same_value};
use crs_decimal::Decimal;
use crs_value::{
    Conversion, DeformationModel, Dynamic, Level, List, Method, Parameter, Tail, Usage,
};

/// Whether two dynamic parts are the same. ISO 19162:2019, "Dynamic coordinate reference systems".
#[tactic(auto, unfolding(crate::specs::Parts::AreSame, crate::specs::Parts::parts_of_dynamic, crate::specs::SameCrs::SameDynamic))]
pub fn same_dynamic<'a>(a: &Dynamic<'a>, b: &Dynamic<'a>, level: Level) -> bool
    ensures { IsTrue result ↔ SameDynamic level a.now b.now }
{
    same_value(&a.epoch, &b.epoch) && same_models(a.model.as_ref(), b.model.as_ref(), level)
}

fn epoch_of(dynamic: &Option<Dynamic<'_>>) -> Option<Decimal>
    ensures { result ≡ option_map (λ d. d.epoch) dynamic.now }
{
    dynamic.as_ref().map(|dynamic| dynamic.epoch)
}

fn model_of<'b, 'a>(dynamic: &'b Option<Dynamic<'a>>) -> Option<&'b DeformationModel<'a>>
    ensures { option_copied result ≡ option_and_then (λ d. d.model) dynamic.entry.now }
{
    dynamic.as_ref().and_then(|dynamic| dynamic.model.as_ref())
}

// The usages that the level keeps of the end of a CRS.
#[tactic(auto, using(crate::proofs::KeptLemmas::kept_rules))]
fn usages_of<'b, 'a>(tail: &'b Tail<'a>, level: Level) -> Usages<'b, 'a>
    ensures { result ≡ kept level (usages_of tail.now) }
{
    Usages {
        bare: level.kept_one(tail.bare_parts.as_ref()),
        listed: level.kept(tail.usages.as_slice()),
    }
}

fn same_usages<'a>(a: &Tail<'a>, b: &Tail<'a>, level: Level) -> bool
    ensures { IsTrue result ↔ SameUsages level a.now b.now }
{
    let hints = a.usages.counterpart_hints(&b.usages, Level::Full);
    let (these, others) = (usages_of(a, level), usages_of(b, level));
    same_set(&these, &others, hints, Level::Full)
}

impl<'b, 'a> Found<'b, 'a> {
    #[tactic(auto, unfolding(crate::specs::Parts::parts_of_method))]
    fn method(self, at: At, a: &'b Method<'a>, b: &'b Method<'a>) -> Self
        ensures { Walked (parts_of_method at.path at.level a.now b.now) self.entry result }
    {
        let found = self.text(&at, Step::Name, a.name, b.name);
        found.identifiers(&at, &a.identifiers, &b.identifiers)
    }

    #[tactic(auto, using(crate::proofs::WalkedLemmas::part_rules))]
    fn parameters(self, at: &At, a: &'b List<Parameter<'a>>, b: &'b List<Parameter<'a>>) -> Self
        ensures { Walked (sets (at.now.path ▸ step.Parameters) (SameParameter at.now.level) content.Parameters
            a.now b.now) self.entry result }
    {
        walk_sets!(self, at, Parameters, a, b, Parameters)
    }

    #[tactic(auto, unfolding(crate::specs::Parts::parts_of_conversion))]
    pub(crate) fn conversion(self, at: At, a: &'b Conversion<'a>, b: &'b Conversion<'a>) -> Self
        requires { length at.path ≤ 3 }
        ensures { Walked (parts_of_conversion at.path at.level a.now b.now) self.entry result }
    {
        if self.is_done() {
            return self;
        }
        let found = self.text(&at, Step::Name, a.name, b.name);
        let found = found.method(at.then(Step::Method), &a.method, &b.method);
        let found = found.parameters(&at, &a.parameters, &b.parameters);
        found.identifiers(&at, &a.identifiers, &b.identifiers)
    }

    #[tactic(auto, using(crate::proofs::WalkedLemmas::part_rules))]
    fn models(
        self,
        at: &At,
        a: Option<&'b DeformationModel<'a>>,
        b: Option<&'b DeformationModel<'a>>,
    ) -> Self
        ensures { Walked (optional (at.now.path ▸ step.Model) (SameDeformationModel at.now.level) content.Model
            (option_copied a.entry) (option_copied b.entry)) self.entry result }
    {
        if self.is_done() || same_models(a, b, at.level) {
            return self;
        }
        let (first, second) = (Content::optional_model(a), Content::optional_model(b));
        self.alone(at, Step::Model, first, second)
    }

    #[tactic(auto, unfolding(crate::specs::Parts::parts_of_dynamic))]
    pub(crate) fn dynamic(
        self,
        at: At,
        a: &'b Option<Dynamic<'a>>,
        b: &'b Option<Dynamic<'a>>,
    ) -> Self
        ensures { Walked (parts_of_dynamic at.path at.level a.now b.now) self.entry result }
    {
        let found = self.optional_number(&at, Step::Epoch, &epoch_of(a), &epoch_of(b));
        found.models(&at, model_of(a), model_of(b))
    }

    #[tactic(auto, using(crate::proofs::WalkedLemmas::part_rules))]
    fn usages(self, at: &At, a: &'b Tail<'a>, b: &'b Tail<'a>) -> Self
        ensures { Walked (sets (at.now.path ▸ step.Usage) SameUsage content.Usages
            (kept at.now.level (usages_of a.now)) (kept at.now.level (usages_of b.now))) self.entry result }
    {
        if same_usages(a, b, at.level) {
            return self;
        }
        let first = Content::Usages(usages_of(a, at.level), usages_of(b, at.level));
        let second = Content::Usages(usages_of(b, at.level), usages_of(a, at.level));
        self.alone(at, Step::Usage, first, second)
    }

    #[tactic(auto, unfolding(crate::specs::Parts::parts_of_tail))]
    pub(crate) fn tail(self, at: At, a: &'b Tail<'a>, b: &'b Tail<'a>) -> Self
        ensures { Walked (parts_of_tail at.path at.level a.now b.now) self.entry result }
    {
        if self.is_done() {
            return self;
        }
        let found = self.usages(&at, a, b);
        let found = found.identifiers(&at, &a.identifiers, &b.identifiers);
        let (first, second) = (at.level.kept_text(a.remark), at.level.kept_text(b.remark));
        found.optional_text(&at, Step::Remark, first, second)
    }
}

/// Whether two methods are the same: name and identifiers. ISO 19162:2019, "Map projection".
pub fn same_method<'a>(a: &Method<'a>, b: &Method<'a>, level: Level) -> bool
    ensures { IsTrue result ↔ AreSame parts_of_method level a.now b.now }
{
    Found::first().method(At::start(level), a, b).is_same()
}

/// Whether two conversions are the same: name, method, parameters, identifiers. ISO 19162:2019, "Map projection".
pub fn same_conversion<'a>(a: &Conversion<'a>, b: &Conversion<'a>, level: Level) -> bool
    ensures { IsTrue result ↔ AreSame parts_of_conversion level a.now b.now }
{
    Found::first().conversion(At::start(level), a, b).is_same()
}
