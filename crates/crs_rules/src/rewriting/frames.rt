//! Frames, ensembles and dynamic parts.
ghost use Rattle.std.specs.Prelude.{◌≡◌};
ghost use Rattle.std.specs.Option.{option_copied};
ghost use Rattle.crs_shape.specs.declared.class.Class.TheVariants as classes;
ghost use Rattle.crs_value.specs.Sound.{IsText};
ghost use Rattle.crs_rules.specs.Rewritten.{counted, counted_frame, datum, dynamic, dynamics, ellipsoid, ensemble, frame_or_ensemble, meridian, named};
ghost use Rattle.crs_rules.specs.Rules.{meaning, without_ensemble};

use crate::aliases::first_name;
use crate::laws::rules_are_sound;
use crate::rewriting::{RuledPart, rewrite_each, rewrite_part};
use crate::rules::Rules;
use crs_decimal::Decimal;
use crs_shape::Class;
use crs_value::{Datum, DeformationModel, Dynamic, Ellipsoid, Ensemble, Frame, Member, Meridian};
use std::alloc::Global;

impl<'a> RuledPart<'a> for Ellipsoid<'a> {
    ghost under = { ellipsoid };

    fn rewrite(&mut self, rules: &'a Rules) {
        self.name = first_name(&rules.names, Class::Ellipsoid, self.name);
        rewrite_part(&mut self.unit, rules);
    }
}

impl<'a> RuledPart<'a> for Meridian<'a> {
    ghost under = { meridian };

    fn rewrite(&mut self, rules: &'a Rules) {
        self.name = first_name(&rules.names, Class::PrimeMeridian, self.name);
        rewrite_part(&mut self.unit, rules);
    }
}

// A text that may be missing, unless it doesn't count.
fn counted_text<'a>(uncounted: bool, text: Option<&'a [u8]>) -> Option<&'a [u8]>
    ensures { option_copied result ≡ counted uncounted (option_copied text.entry) }
{
    if uncounted { None } else { text }
}

// A number that may be missing, unless it doesn't count.
pub(super) fn counted_number(uncounted: bool, number: Option<Decimal>) -> Option<Decimal>
    ensures { result ≡ counted uncounted number }
{
    if uncounted { None } else { number }
}

fn datum<'a>(value: &mut Datum<'a>, class: Class, rules: &'a Rules)
    ensures { value.new ≡ datum (meaning rules.now) class value.old }
{
    value.name = first_name(&rules.names, class, value.name);
    rewrite_part(&mut value.ellipsoid, rules);
    value.anchor = counted_text(rules.uncounted.anchors, value.anchor);
    value.anchor_epoch = counted_number(rules.uncounted.anchors, value.anchor_epoch);
}

impl<'a> RuledPart<'a> for Member<'a> {
    ghost under = { λ r m. named r classes.Member m };

    fn rewrite(&mut self, rules: &'a Rules) {
        self.name = first_name(&rules.names, Class::Member, self.name);
    }
}

fn ensemble<'a>(value: &mut Ensemble<'a>, class: Class, rules: &'a Rules)
    ensures { value.new ≡ ensemble (meaning rules.now) class value.old }
{
    value.name = first_name(&rules.names, class, value.name);
    rewrite_each(&mut value.members, rules);
    rewrite_part(&mut value.ellipsoid, rules);
}

// A name without one ` ensemble` at its end.
fn without_ensemble(name: &[u8]) -> &[u8]
    requires { IsText name.now }
    ensures name { result.now ≡ without_ensemble name.now }
    ensures text { IsText result.now }
{
    if name.ends_with(b" ensemble") {
        &name[..name.len() - 9]
    } else {
        name
    }
}

// The frame, or, where ensembles don't count, the reference frame that it counts as.
fn count_ensemble(alloc: Global, frame: &mut Frame<'_>, uncounted: bool)
    ensures { frame.new ≡ counted_frame uncounted frame.old }
{
    if uncounted {
        if let Frame::Ensemble(ensemble) = frame {
            ensemble.name = without_ensemble(ensemble.name);
        }
        frame.make_datum(alloc);
    }
}

// The classes of a kind of frames and of its ensembles.
#[derive(Clone, Copy)]
pub(super) struct FrameClasses {
    frame: Class,
    ensemble: Class,
}

pub(super) const GEODETIC: FrameClasses = FrameClasses {
    frame: Class::GeodeticFrame,
    ensemble: Class::GeodeticEnsemble,
};

pub(super) const VERTICAL: FrameClasses = FrameClasses {
    frame: Class::VerticalFrame,
    ensemble: Class::VerticalEnsemble,
};

// A frame, or an ensemble, of these classes.
pub(super) fn rewrite_frame<'a>(
    alloc: Global,
    frame: &mut Frame<'a>,
    classes: FrameClasses,
    rules: &'a Rules,
)
    ensures { frame.new ≡ frame_or_ensemble (meaning rules.now) classes.frame classes.ensemble
        (counted_frame rules.now.uncounted.ensembles frame.old) }
{
    count_ensemble(alloc, frame, rules.uncounted.ensembles);
    match frame {
        Frame::Datum(found) => datum(found, classes.frame, rules),
        Frame::Ensemble(found) => ensemble(found, classes.ensemble, rules),
    }
}

impl<'a> RuledPart<'a> for DeformationModel<'a> {
    ghost under = { λ r m. named r classes.DeformationModel m };

    fn rewrite(&mut self, rules: &'a Rules) {
        self.name = first_name(&rules.names, Class::DeformationModel, self.name);
    }
}

fn dynamic<'a>(value: &mut Dynamic<'a>, rules: &'a Rules)
    ensures { value.new ≡ dynamic (meaning rules.now) value.old }
{
    rules_are_sound(rules);
    rewrite_part(&mut value.model, rules);
}

pub(super) fn dynamics<'a>(dynamic_or_none: &mut Option<Dynamic<'a>>, rules: &'a Rules)
    ensures { dynamic_or_none.new ≡ dynamics (meaning rules.now) dynamic_or_none.old }
{
    if rules.uncounted.dynamics {
        *dynamic_or_none = None;
    } else if let Some(found) = dynamic_or_none {
        dynamic(found, rules);
    }
}
