//! CRSs.
ghost use Rattle.std.specs.Prelude.{◌≡◌, ◌&&◌, OnOk};
ghost use Rattle.std.specs.List.{list_all};
ghost use Rattle.std.specs.Option.{is_some};
ghost use Rattle.crs_shape.specs.declared.class.Class.TheVariants as classes;
ghost use Rattle.crs_value.specs.declared.values.level.Level.TheVariants as levels;
ghost use Rattle.crs_normal.specs.inner.PartTexts.{axis_text};
ghost use Rattle.crs_rules.specs.Rewritten.{across, base, compound, counted, explicit, explicit_geodetic, geodetic, geoid_models, has_own_unit, is_idle, named, projected, renamed, rewritten, units, vertical};
ghost use Rattle.crs_rules.specs.Rules.{meaning};

use crate::aliases::first_name;
use crate::rewriting::frames::{GEODETIC, VERTICAL, dynamics, rewrite_frame};
use crate::rewriting::missing::{explicit, explicit_geodetic};
use crate::rewriting::order::arrange_crs;
use crate::rewriting::parts::{conversion, counted_name, system, tail};
use crate::rewriting::{RuledPart, rewrite_each, rewrite_part};
use crate::rules::Rules;
use crs_shape::Class;
use crs_value::{
    Base, Compound, Crs, Geodetic, GeoidModel, Horizontal, List, Meridian, Parameter, Projected,
    Unit, Vertical,
};
use std::alloc::{AllocError, Global};

fn geodetic<'a>(alloc: Global, value: &mut Geodetic<'a>, rules: &'a Rules)
    ensures { value.new ≡ geodetic (meaning rules.now) value.old }
{
    value.name = counted_name(rules.uncounted.crs_names, value.name);
    dynamics(&mut value.dynamic, rules);
    rewrite_frame(alloc, &mut value.frame, GEODETIC, rules);
    rewrite_part(&mut value.meridian, rules);
    system(&mut value.system, rules);
    tail(&mut value.tail, rules);
}

// Whether the longitude of a prime meridian isn't in the unit of the base CRS: it is 0, or has its own.
fn has_own_unit(meridian: &Option<Meridian<'_>>) -> bool
    ensures { result ≡ has_own_unit meridian.now }
{
    match meridian {
        None => true,
        Some(meridian) => meridian.longitude.is_zero() || meridian.unit.is_some(),
    }
}

fn have_own_units(parameters: &[Parameter<'_>]) -> bool
    ensures { result ≡ list_all (λ p. is_some p.unit) parameters.now }
{
    for parameter in parameters {
        if parameter.unit.is_none() {
            return false;
        }
    }
    true
}

// The unit of a base CRS, unless it doesn't count.
fn base_unit<'a>(unit_or_none: &mut Option<Unit<'a>>, idle: bool, rules: &'a Rules)
    ensures { unit_or_none.new ≡ counted (rules.now.uncounted.base_units && idle)
        (units (meaning rules.now) unit_or_none.old) }
{
    if rules.uncounted.base_units && idle {
        *unit_or_none = None;
    } else {
        rewrite_part(unit_or_none, rules);
    }
}

fn base<'a>(alloc: Global, value: &mut Base<'a>, idle: bool, rules: &'a Rules)
    ensures { value.new ≡ base (meaning rules.now) idle value.old }
{
    value.name = counted_name(rules.uncounted.base_names, value.name);
    dynamics(&mut value.dynamic, rules);
    rewrite_frame(alloc, &mut value.frame, GEODETIC, rules);
    rewrite_part(&mut value.meridian, rules);
    base_unit(&mut value.unit, idle, rules);
}

// Whether the unit of the base CRS says nothing: its prime meridian and all parameters have their own.
fn has_idle_base(value: &Projected<'_>) -> bool
    ensures { result ≡ is_idle value.now.base.meridian value.now.conversion.parameters }
{
    has_own_unit(&value.base.meridian) && have_own_units(value.conversion.parameters.as_slice())
}

fn projected<'a>(alloc: Global, value: &mut Projected<'a>, rules: &'a Rules)
    ensures { value.new ≡ projected (meaning rules.now) value.old }
{
    let idle = has_idle_base(value);
    value.name = counted_name(rules.uncounted.crs_names, value.name);
    base(alloc, &mut value.base, idle, rules);
    conversion(&mut value.conversion, rules);
    system(&mut value.system, rules);
    tail(&mut value.tail, rules);
}

fn whole_geodetic<'a>(alloc: Global, value: &mut Geodetic<'a>, rules: &'a Rules)
    ensures { value.new ≡ geodetic (meaning rules.now) (explicit_geodetic (meaning rules.now) value.old) }
{
    explicit_geodetic(alloc, value, rules);
    geodetic(alloc, value, rules);
}

fn whole_projected<'a>(alloc: Global, value: &mut Projected<'a>, rules: &'a Rules)
    ensures { value.new ≡ projected (meaning rules.now) (explicit (meaning rules.now) value.old) }
{
    explicit(alloc, value, rules);
    projected(alloc, value, rules);
}

impl<'a> RuledPart<'a> for GeoidModel<'a> {
    ghost under = { λ r m. named r classes.GeoidModel m };

    fn rewrite(&mut self, rules: &'a Rules) {
        self.name = first_name(&rules.names, Class::GeoidModel, self.name);
    }
}

fn geoid_models<'a>(models: &mut List<GeoidModel<'a>>, rules: &'a Rules)
    ensures { models.new ≡ geoid_models (meaning rules.now) models.old }
{
    if rules.uncounted.geoid_models {
        models.clear();
    } else {
        rewrite_each(models, rules);
    }
}

fn vertical<'a>(alloc: Global, value: &mut Vertical<'a>, rules: &'a Rules)
    ensures { value.new ≡ vertical (meaning rules.now) value.old }
{
    value.name = counted_name(rules.uncounted.crs_names, value.name);
    dynamics(&mut value.dynamic, rules);
    rewrite_frame(alloc, &mut value.frame, VERTICAL, rules);
    system(&mut value.system, rules);
    geoid_models(&mut value.geoid_models, rules);
    tail(&mut value.tail, rules);
}

fn across<'a>(alloc: Global, horizontal: &mut Horizontal<'a>, rules: &'a Rules)
    ensures { horizontal.new ≡ across (meaning rules.now) horizontal.old }
{
    match horizontal {
        Horizontal::Geodetic(found) => whole_geodetic(alloc, found, rules),
        Horizontal::Projected(found) => whole_projected(alloc, found, rules),
    }
}

fn compound<'a>(alloc: Global, value: &mut Compound<'a>, rules: &'a Rules)
    ensures { value.new ≡ compound (meaning rules.now) value.old }
{
    value.name = counted_name(rules.uncounted.crs_names, value.name);
    across(alloc, &mut value.horizontal, rules);
    vertical(alloc, &mut value.vertical, rules);
    tail(&mut value.tail, rules);
}

// A CRS under rules, but for the order of its axes.
pub(crate) fn rename<'a>(alloc: Global, crs: &mut Crs<'a>, rules: &'a Rules)
    ensures { crs.new ≡ renamed (meaning rules.now) crs.old }
{
    match crs {
        Crs::Geodetic(found) => whole_geodetic(alloc, found, rules),
        Crs::Projected(found) => whole_projected(alloc, found, rules),
        Crs::Vertical(found) => vertical(alloc, found, rules),
        Crs::Compound(found) => compound(alloc, found, rules),
    }
}

// A CRS under rules. Out of memory it may be rewritten in part.
pub(crate) fn rewrite<'a>(
    alloc: Global,
    crs: &mut Crs<'a>,
    rules: &'a Rules,
) -> Result<(), AllocError>
    ensures { OnOk result (crs.new ≡ rewritten (axis_text levels.Full) (meaning rules.now) crs.old) }
{
    rename(alloc, crs, rules);
    if rules.uncounted.axis_order {
        arrange_crs(alloc, crs)?;
    }
    Ok(())
}
