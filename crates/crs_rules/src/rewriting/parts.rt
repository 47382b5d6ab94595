//! Units, conversions, coordinate systems and the ends of CRSs.
ghost use Rattle.std.specs.Prelude.{◌≡◌};
ghost use Rattle.crs_value.specs.Sound.{IsText};
ghost use Rattle.crs_rules.specs.Rewritten.{axis, axis_meridian, conversion, counted_name, extent, named, parameter, system, tail, usage};
ghost use Rattle.crs_rules.specs.Rules.{meaning};

use crate::aliases::{first_name, unit_alias};
use crate::laws::rules_are_sound;
use crate::rewriting::frames::counted_number;
use crate::rewriting::{RuledPart, rewrite_each, rewrite_part};
use crate::rules::Rules;
use crs_shape::Class;
use crs_value::{
    Axis, AxisMeridian, Conversion, Extent, Method, Parameter, System, Tail, Unit, Usage,
};

impl<'a> RuledPart<'a> for Unit<'a> {
    ghost under = { λ r u. r.unit u };

    fn rewrite(&mut self, rules: &'a Rules) {
        rules_are_sound(rules);
        if let Some(alias) = unit_alias(&rules.units, self) {
            self.name = alias.name.as_slice();
            self.factor = alias.factor;
        }
    }
}

fn method<'a>(value: &mut Method<'a>, rules: &'a Rules)
    ensures { value.new ≡ named (meaning rules.now) Class.Method value.old }
{
    value.name = first_name(&rules.names, Class::Method, value.name);
}

impl<'a> RuledPart<'a> for Parameter<'a> {
    ghost under = { parameter };

    fn rewrite(&mut self, rules: &'a Rules) {
        self.name = first_name(&rules.names, Class::Parameter, self.name);
        rewrite_part(&mut self.unit, rules);
    }
}

// A name, unless it doesn't count.
pub(super) fn counted_name<'a>(uncounted: bool, name: &'a [u8]) -> &'a [u8]
    requires { IsText name.now }
    ensures name { result.now ≡ counted_name uncounted name.now }
    ensures text { IsText result.now }
{
    if uncounted { b"" } else { name }
}

pub(super) fn conversion<'a>(value: &mut Conversion<'a>, rules: &'a Rules)
    ensures { value.new ≡ conversion (meaning rules.now) value.old }
{
    value.name = counted_name(rules.uncounted.conversion_names, value.name);
    method(&mut value.method, rules);
    rewrite_each(&mut value.parameters, rules);
}

impl<'a> RuledPart<'a> for AxisMeridian<'a> {
    ghost under = { axis_meridian };

    fn rewrite(&mut self, rules: &'a Rules) {
        rules_are_sound(rules);
        self.unit.rewrite(rules);
    }
}

impl<'a> RuledPart<'a> for Axis<'a> {
    ghost under = { axis };

    fn rewrite(&mut self, rules: &'a Rules) {
        let name = first_name(&rules.names, Class::Axis, self.name);
        self.name = counted_name(rules.uncounted.axis_names, name);
        rewrite_part(&mut self.meridian, rules);
        self.order = counted_number(rules.uncounted.axis_order, self.order);
        rewrite_part(&mut self.unit, rules);
    }
}

pub(super) fn system<'a>(value: &mut System<'a>, rules: &'a Rules)
    ensures { value.new ≡ system (meaning rules.now) value.old }
{
    rules_are_sound(rules);
    rewrite_each(&mut value.axes, rules);
    rewrite_part(&mut value.unit, rules);
}

impl<'a> RuledPart<'a> for Extent<'a> {
    ghost under = { extent };

    fn rewrite(&mut self, rules: &'a Rules) {
        rules_are_sound(rules);
        rewrite_part(&mut self.unit, rules);
    }
}

impl<'a> RuledPart<'a> for Usage<'a> {
    ghost under = { usage };

    fn rewrite(&mut self, rules: &'a Rules) {
        rules_are_sound(rules);
        rewrite_part(&mut self.extent, rules);
    }
}

pub(super) fn tail<'a>(value: &mut Tail<'a>, rules: &'a Rules)
    ensures { value.new ≡ tail (meaning rules.now) value.old }
{
    rules_are_sound(rules);
    rewrite_each(&mut value.usages, rules);
    rewrite_part(&mut value.bare_parts, rules);
}
