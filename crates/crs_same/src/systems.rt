//! Axes and coordinate systems.
ghost use Rattle.std.specs.Prelude.{◌≡◌, ◌≤◌, length, max};
ghost use Rattle.std.specs.Option.{option_copied};
ghost use Rattle.crs_shape.specs.Words.{asked_kind, direction_word, system_word};
ghost use Rattle.crs_same.specs.declared.content.Content.TheVariants as content;
ghost use Rattle.crs_same.specs.declared.step.Step.TheVariants as step;
ghost use Rattle.crs_same.specs.Parts.{◌▸◌, words, optional, parts_of_axis, parts_at, parts_of_axes, parts_of_system};
ghost use Rattle.crs_same.specs.inner.Walked.{Walked};
ghost use Rattle.crs_same.specs.SameParts.{SameAxisMeridian, own_or};

use crate::content::Content;
use crate::found::{Asked, Found};
use crate::path::At;
use crate::step::Step;
use crate::{axis_at, same_axis_meridians};
use crs_value::{Axis, AxisMeridian, Direction, System, SystemType};

// An axis of a coordinate system.
#[derive(Clone, Copy)]
struct AxisOf<'b, 'a> {
    system: &'b System<'a>,
    axis: &'b Axis<'a>,
}

impl<'b, 'a> AxisOf<'b, 'a> {
    // Its unit, and the kind that its system asks of it.
    fn unit(self) -> Asked<'b, 'a>
        ensures kind { result.kind ≡ asked_kind self.entry.system.now.system_type self.entry.axis.now.direction }
        ensures unit { option_copied result.unit ≡ own_or self.entry.axis.now.unit self.entry.system.now.unit }
    {
        let AxisOf { system, axis } = self;
        let kind = system.system_type.asked_kind(axis.direction);
        let unit = system.unit_of(axis);
        Asked { kind, unit }
    }
}

impl<'b, 'a> Found<'b, 'a> {
    #[tactic(auto, using(crate::proofs::WalkedLemmas::part_rules))]
    fn direction(self, at: &At, a: Direction, b: Direction) -> Self
        ensures { Walked (words (at.now.path ▸ step.Direction) direction_word a b) self.entry result }
    {
        if a == b {
            return self;
        }
        self.unlike(at, Step::Direction, a.word(), b.word())
    }

    #[tactic(auto, using(crate::proofs::WalkedLemmas::part_rules))]
    fn system_type(self, at: &At, a: SystemType, b: SystemType) -> Self
        ensures { Walked (words (at.now.path ▸ step.SystemType) system_word a b) self.entry result }
    {
        if a == b {
            return self;
        }
        self.unlike(at, Step::SystemType, a.word(), b.word())
    }

    #[tactic(auto, using(crate::proofs::WalkedLemmas::part_rules))]
    fn along(
        self,
        at: &At,
        a: &'b Option<AxisMeridian<'a>>,
        b: &'b Option<AxisMeridian<'a>>,
    ) -> Self
        ensures { Walked (optional (at.now.path ▸ step.Meridian) (SameAxisMeridian at.now.level) content.Meridian
            a.now b.now) self.entry result }
    {
        if self.is_done() || same_axis_meridians(a, b, at.level) {
            return self;
        }
        let first = Content::optional_meridian(a.as_ref());
        let second = Content::optional_meridian(b.as_ref());
        self.alone(at, Step::Meridian, first, second)
    }

    // The parts of an axis of each of two systems.
    #[tactic(auto, unfolding(crate::specs::Parts::parts_of_axis))]
    fn axis(self, at: At, a: AxisOf<'b, 'a>, b: AxisOf<'b, 'a>) -> Self
        ensures { Walked (parts_of_axis at.path at.level a.entry.system.now b.entry.system.now
            a.entry.axis.now b.entry.axis.now) self.entry result }
    {
        if self.is_done() {
            return self;
        }
        let (x, y) = (a.axis, b.axis);
        let found = self.text(&at, Step::Name, x.name, y.name);
        let found = found.direction(&at, x.direction, y.direction);
        let found = found.along(&at, &x.meridian, &y.meridian);
        let found = found.unit(&at, a.unit(), b.unit());
        found.identifiers(&at, &x.identifiers, &y.identifiers)
    }

    // The parts of the axes at this position, of which each may be missing.
    fn axis_at(self, at: At, a: &'b System<'a>, b: &'b System<'a>, position: u64) -> Self
        ensures { Walked (parts_at at.path at.level a.now b.now position) self.entry result }
    {
        let x = axis_at(a.axes.as_slice(), position);
        let y = axis_at(b.axes.as_slice(), position);
        match (x, y) {
            (None, None) => self,
            (Some(x), Some(y)) => {
                let (a, b) = (AxisOf { system: a, axis: x }, AxisOf { system: b, axis: y });
                self.axis(at, a, b)
            }
            (None, Some(y)) => self.alone(&at, Step::Name, Content::Nothing, Content::text(y.name)),
            (Some(x), None) => self.alone(&at, Step::Name, Content::text(x.name), Content::Nothing),
        }
    }

    fn axes(self, at: At, a: &'b System<'a>, b: &'b System<'a>) -> Self
        requires { length at.path ≤ 3 }
        ensures { Walked (parts_of_axes at.path at.level a.now b.now (max (length a.now.axes) (length b.now.axes)))
            self.entry result }
    {
        let mut found = self;
        let count = a.axes.as_slice().len().max(b.axes.as_slice().len());
        for index in 0..count as u64 {
            let position = index + 1;
            found = found.axis_at(at.then(Step::Axis(position)), a, b, position);
        }
        found
    }

    #[tactic(auto, unfolding(crate::specs::Parts::parts_of_system))]
    pub(crate) fn system(self, at: At, a: &'b System<'a>, b: &'b System<'a>) -> Self
        requires { length at.path ≤ 3 }
        ensures { Walked (parts_of_system at.path at.level a.now b.now) self.entry result }
    {
        let found = self.system_type(&at, a.system_type, b.system_type);
        let found = found.number(&at, Step::Dimension, &a.dimension, &b.dimension);
        let found = found.identifiers(&at, &a.identifiers, &b.identifiers);
        found.axes(at, a, b)
    }
}
