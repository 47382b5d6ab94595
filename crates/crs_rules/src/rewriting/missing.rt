//! Units that parameters and prime meridians leave out.
ghost use Rattle.std.specs.Prelude.{◌≡◌, [], IfSome, map};
ghost use Rattle.std.specs.List.{list_all};
ghost use Rattle.std.specs.Option.{option_map};
ghost use Rattle.crs_shape.specs.declared.unit_kind.UnitKind.TheVariants as kinds;
ghost use Rattle.crs_same.specs.SameParts.{one};
ghost use Rattle.crs_value.specs.Sound.{IsUnit, IsUnitOf, own_or};
ghost use Rattle.crs_value.specs.Values.{UnitParts};
ghost use Rattle.crs_rules.specs.Rewritten.{axis, bare, completed, completed_conversion, completed_meridian, explicit, explicit_base, explicit_geodetic, first_unit_of};
ghost use Rattle.crs_rules.specs.Rewritten.{is_same_unit, missing_unit, shared, system, told, unit_of_kind, units_of, unity, with_unit_of};
ghost use Rattle.crs_rules.specs.Rules.{meaning};

use crate::aliases::{first_name, unit_alias};
use crate::file::seen::same_factor;
use crate::laws::rules_are_sound;
use crate::rules::Rules;
use crs_decimal::Decimal;
use crs_decimal::laws::{denotes_one, digits_alone};
use crs_shape::Class;
use crs_value::{
    Axis, Base, Change, Conversion, Geodetic, List, Meridian, Parameter, Projected, System, Unit,
    UnitKind,
};
use std::alloc::Global;
use std::marker::Model;

// A unit without identifiers.
#[derive(Drop)]
struct BareUnit<'a> {
    kind: UnitKind,
    name: &'a [u8],
    factor: Decimal,
}

impl<'a> Model for BareUnit<'a> {
    ghost Value = { UnitParts };

    ghost view = { λ u. record { kind = u.kind; name = u.name.now; factor = u.factor; identifiers = [] } };

    ghost invariant = { λ u. IsUnit (view u) };
}

fn bare<'a>(unit: &Unit<'a>) -> BareUnit<'a>
    ensures { result ≡ bare unit.now }
{
    BareUnit {
        kind: unit.kind,
        name: unit.name,
        factor: unit.factor,
    }
}

fn bare_part<'a>(unit: &Option<Unit<'a>>) -> Option<BareUnit<'a>>
    ensures { result ≡ option_map bare unit.now }
{
    match unit {
        None => None,
        Some(unit) => Some(bare(unit)),
    }
}

// The unit of angles of a base CRS.
fn base_unit<'a>(value: &Base<'a>) -> Option<BareUnit<'a>>
    ensures unit { result ≡ option_map bare value.now.unit }
    ensures sound { IfSome result (IsUnitOf kinds.Angle) }
{
    bare_part(&value.unit)
}

// A unit as rules write it.
fn written<'a>(unit: &Unit<'a>, rules: &'a Rules) -> BareUnit<'a>
    ensures { result ≡ bare ((meaning rules.now).unit unit.now) }
{
    rules_are_sound(rules);
    let mut found = bare(unit);
    if let Some(alias) = unit_alias(&rules.units, unit) {
        found.name = alias.name.as_slice();
        found.factor = alias.factor;
    }
    found
}

fn unit_of<'a>(alloc: Global, unit: &BareUnit<'a>) -> Unit<'a>
    ensures { result ≡ unit.now }
{
    Unit {
        kind: unit.kind,
        name: unit.name,
        factor: unit.factor,
        identifiers: List::new(alloc),
    }
}

fn unit_part<'a>(alloc: Global, unit: &Option<BareUnit<'a>>) -> Option<Unit<'a>>
    ensures { result ≡ unit.now }
{
    match unit {
        None => None,
        Some(unit) => Some(unit_of(alloc, unit)),
    }
}

fn one() -> Decimal
    ensures { result ≡ one }
{
    digits_alone();
    denotes_one();
    match Decimal::parse(b"1") {
        Ok(one) => one,
        Err(_) => unreachable!(),
    }
}

fn unity<'a>(alloc: Global) -> Unit<'a>
    ensures { result ≡ unity }
{
    Unit {
        kind: UnitKind::Scale,
        name: b"unity",
        factor: one(),
        identifiers: List::new(alloc),
    }
}

// ---- the unit that axes share

fn is_same_unit<'a>(first: &BareUnit<'a>, second: &BareUnit<'a>) -> bool
    ensures { result ≡ is_same_unit first.now second.now }
{
    first.kind == second.kind
        && first.name == second.name
        && same_factor(&first.factor, &second.factor)
}

// The first unit of this kind that an axis has.
fn first_of<'a>(kind: UnitKind, axes: &[Axis<'a>], rules: &'a Rules) -> Option<BareUnit<'a>>
    ensures unit { result ≡ first_unit_of (units_of kind (map (axis (meaning rules.now)) axes.now)) }
    ensures sound { IfSome result (IsUnitOf kind) }
{
    for axis in axes {
        if let Some(unit) = &axis.unit {
            let unit = written(unit, rules);
            if unit.kind == kind {
                return Some(unit);
            }
        }
    }
    None
}

// Whether the unit of an axis is this one, or of another kind.
fn agrees<'a>(unit: &BareUnit<'a>, kind: UnitKind, found: &Axis<'a>, rules: &'a Rules) -> bool
    ensures { result ≡ list_all (is_same_unit unit.now) (with_unit_of kind (axis (meaning rules.now) found.now).unit []) }
{
    match &found.unit {
        None => true,
        Some(other) => {
            let other = written(other, rules);
            other.kind != kind || is_same_unit(unit, &other)
        }
    }
}

fn agree<'a>(unit: &BareUnit<'a>, kind: UnitKind, axes: &[Axis<'a>], rules: &'a Rules) -> bool
    ensures { result ≡ list_all (is_same_unit unit.now) (units_of kind (map (axis (meaning rules.now)) axes.now)) }
{
    for axis in axes {
        if !agrees(unit, kind, axis, rules) {
            return false;
        }
    }
    true
}

// The unit of this kind that all axes have that have one of it, if there is one.
fn shared<'a>(kind: UnitKind, value: &System<'a>, rules: &'a Rules) -> Option<BareUnit<'a>>
    ensures unit { result ≡ shared kind (system (meaning rules.now) value.now).axes }
    ensures sound { IfSome result (IsUnitOf kind) }
{
    let unit = first_of(kind, value.axes.as_slice(), rules)?;
    if agree(&unit, kind, value.axes.as_slice(), rules) {
        Some(unit)
    } else {
        None
    }
}

// ---- parameters

// Gives parameters the units that they leave out.
#[derive(Drop)]
struct Completing<'a> {
    alloc: Global,
    angle: Option<BareUnit<'a>>,
    length: Option<BareUnit<'a>>,
    rules: &'a Rules,
}

fn missing_unit<'a>(completing: &Completing<'a>, kind: UnitKind) -> Option<Unit<'a>>
    ensures { result ≡ unit_of_kind completing.now.angle completing.now.length kind }
{
    match kind {
        UnitKind::Plain => None,
        UnitKind::Angle => unit_part(completing.alloc, &completing.angle),
        UnitKind::Length => unit_part(completing.alloc, &completing.length),
        UnitKind::Scale => Some(unity(completing.alloc)),
    }
}

// A unit that is missing becomes this one.
fn fill<'a>(unit: &mut Option<Unit<'a>>, missing: Option<Unit<'a>>)
    ensures { unit.new ≡ own_or unit.old missing.entry }
{
    if unit.is_none() {
        *unit = missing;
    }
}

impl<'a> Change<Parameter<'a>> for Completing<'a> {
    ghost changed = { λ c p. completed (meaning c.rules.now) (unit_of_kind c.angle c.length) p };

    fn change(&self, value: &mut Parameter<'a>) {
        if value.unit.is_none() {
            let rules = self.rules;
            let name = first_name(&rules.names, Class::Parameter, value.name);
            fill(&mut value.unit, missing_unit(self, rules.kinds.of(name)));
        }
    }
}

// What is asked of units holds of this one.
fn is_sound(unit: &Option<BareUnit<'_>>)
    ensures { IfSome unit.now IsUnit }
{
    if let Some(unit) = unit {
        // Opens it so that its invariant is known.
        let _name = unit.name;
    }
}

// Gives the parameters of a conversion the units that they leave out, by those of angles and lengths.
fn complete<'a>(
    alloc: Global,
    value: &mut Conversion<'a>,
    angle: Option<BareUnit<'a>>,
    length: Option<BareUnit<'a>>,
    rules: &'a Rules,
)
    ensures { value.new ≡ completed_conversion (meaning rules.now) (unit_of_kind angle.entry length.entry) value.old }
{
    is_sound(&angle);
    is_sound(&length);
    value.parameters.change_each(&Completing {
        alloc,
        angle,
        length,
        rules,
    });
}

// ---- prime meridians

// The unit of a prime meridian of a base CRS that leaves it out.
fn told_base<'a>(value: &Base<'a>, rules: &'a Rules) -> Option<BareUnit<'a>>
    ensures unit { result ≡ told rules.now.uncounted.meridian_units (option_map bare value.now.unit) }
    ensures sound { IfSome result (IsUnitOf kinds.Angle) }
{
    if rules.uncounted.meridian_units {
        base_unit(value)
    } else {
        None
    }
}

// The unit of a prime meridian of a geodetic CRS that leaves it out.
fn told_axes<'a>(value: &System<'a>, rules: &'a Rules) -> Option<BareUnit<'a>>
    ensures unit { result ≡ told rules.now.uncounted.meridian_units
        (shared kinds.Angle (system (meaning rules.now) value.now).axes) }
    ensures sound { IfSome result (IsUnitOf kinds.Angle) }
{
    if rules.uncounted.meridian_units {
        shared(UnitKind::Angle, value, rules)
    } else {
        None
    }
}

fn complete_meridian<'a>(alloc: Global, value: &mut Meridian<'a>, missing: &Option<BareUnit<'a>>)
    requires { IfSome missing.now (IsUnitOf kinds.Angle) }
    ensures { value.new ≡ completed_meridian missing.now value.old }
{
    if !value.longitude.is_zero() {
        fill(&mut value.unit, unit_part(alloc, missing));
    }
}

fn complete_meridians<'a>(
    alloc: Global,
    value: &mut Option<Meridian<'a>>,
    missing: &Option<BareUnit<'a>>,
)
    requires { IfSome missing.now (IsUnitOf kinds.Angle) }
    ensures { value.new ≡ option_map (completed_meridian missing.now) value.old }
{
    if let Some(found) = value {
        complete_meridian(alloc, found, missing);
    }
}

fn explicit_base<'a>(alloc: Global, value: &mut Base<'a>, rules: &'a Rules)
    ensures { value.new ≡ explicit_base (meaning rules.now) value.old }
{
    let missing = told_base(value, rules);
    complete_meridians(alloc, &mut value.meridian, &missing);
}

// ---- CRSs

// Gives the prime meridian of a geodetic CRS the unit that it leaves out.
pub(super) fn explicit_geodetic<'a>(alloc: Global, value: &mut Geodetic<'a>, rules: &'a Rules)
    ensures { value.new ≡ explicit_geodetic (meaning rules.now) value.old }
{
    let missing = told_axes(&value.system, rules);
    complete_meridians(alloc, &mut value.meridian, &missing);
}

// Gives the parameters of a projected CRS the units that they leave out.
fn complete_parameters<'a>(alloc: Global, value: &mut Projected<'a>, rules: &'a Rules)
    ensures { value.new ≡ record value.old {
      conversion = completed_conversion (meaning rules.now) (missing_unit (meaning rules.now) value.old) value.old.conversion;
    } }
{
    if rules.kinds.len() > 0 {
        let angle = base_unit(&value.base);
        let length = shared(UnitKind::Length, &value.system, rules);
        complete(alloc, &mut value.conversion, angle, length, rules);
    }
}

// Gives the parameters and the prime meridian of a projected CRS the units that they leave out.
pub(super) fn explicit<'a>(alloc: Global, value: &mut Projected<'a>, rules: &'a Rules)
    ensures { value.new ≡ explicit (meaning rules.now) value.old }
{
    complete_parameters(alloc, value, rules);
    explicit_base(alloc, &mut value.base, rules);
}
