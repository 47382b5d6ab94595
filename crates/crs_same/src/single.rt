//! Texts, numbers and units.
ghost use Rattle.std.specs.Prelude.{◌≡◌, ◌↔◌, IsTrue, None};
ghost use Rattle.std.specs.Option.{option_copied};
ghost use Rattle.crs_shape.specs.declared.unit_kind.UnitKind.TheVariants as kinds;
ghost use Rattle.crs_same.specs.SameParts.{SameUnitAsked, SameUnit, SameLength, SameValue, or_metre};
ghost use Rattle.crs_same.specs.SameIdents.{BothOrNeither};

use crate::laws;
use crate::named::{same_idents, same_kept_idents};
use crs_decimal::Decimal;
use crs_value::{CounterpartHints, Level, Unit, UnitKind};

/// Whether two texts are equal. Profile.
pub fn same_text(a: &[u8], b: &[u8]) -> bool
    ensures { IsTrue result ↔ (a.now ≡ b.now) }
{
    a == b
}

/// Whether two texts are equal, or both are missing. Profile.
pub fn same_optional_text(a: Option<&[u8]>, b: Option<&[u8]>) -> bool
    ensures { IsTrue result ↔ (option_copied a.entry ≡ option_copied b.entry) }
{
    both_or_neither!(a, b, |x, y| same_text(x, y))
}

/// Whether two decimals are the same number. Profile.
#[tactic(auto, unfolding(crate::specs::SameParts::SameValue))]
pub fn same_value(a: &Decimal, b: &Decimal) -> bool
    ensures { IsTrue result ↔ SameValue a.now b.now }
{
    a.same_number(b)
}

/// Whether two decimals are the same number, or both are missing. Profile.
pub fn same_optional_value(a: Option<Decimal>, b: Option<Decimal>) -> bool
    ensures { IsTrue result ↔ BothOrNeither SameValue a b }
{
    both_or_neither!(a, b, |x, y| same_value(&x, &y))
}

// Whether two units are the same where a kind is asked of each: `UNIT` counts as that kind.
fn same_unit_asked<'a>(
    asked_a: UnitKind,
    asked_b: UnitKind,
    a: &Unit<'a>,
    b: &Unit<'a>,
    level: Level,
) -> bool
    ensures { IsTrue result ↔ SameUnitAsked asked_a asked_b level a.now b.now }
{
    a.kind.as_asked(asked_a) == b.kind.as_asked(asked_b)
        && same_text(a.name, b.name)
        && same_value(&a.factor, &b.factor)
        && same_idents(&a.identifiers, &b.identifiers, level)
}

/// Whether two units are the same where this kind is asked of both: `UNIT` counts as that kind. Profile.
pub fn same_unit_as<'a>(asked: UnitKind, a: &Unit<'a>, b: &Unit<'a>, level: Level) -> bool
    ensures { IsTrue result ↔ SameUnit asked level a.now b.now }
{
    same_unit_asked(asked, asked, a, b, level)
}

/// Whether two units are the same: kind, name, factor and identifiers; `UNIT` is a kind of its own. Profile.
pub fn same_unit<'a>(a: &Unit<'a>, b: &Unit<'a>, level: Level) -> bool
    ensures { IsTrue result ↔ SameUnit kinds.Plain level a.now b.now }
{
    same_unit_as(UnitKind::Plain, a, b, level)
}

/// Whether two units are both missing, or both there and the same where a kind is asked of each. Profile.
pub fn same_units_asked<'a>(
    asked_a: UnitKind,
    asked_b: UnitKind,
    a: Option<&Unit<'a>>,
    b: Option<&Unit<'a>>,
    level: Level,
) -> bool
    ensures { IsTrue result ↔
        BothOrNeither (SameUnitAsked asked_a asked_b level) (option_copied a.entry) (option_copied b.entry) }
{
    both_or_neither!(a, b, |x, y| same_unit_asked(asked_a, asked_b, x, y, level))
}

/// Whether two units are both missing, or both there and the same where this kind is asked of both. Profile.
pub fn same_units_as<'a>(
    asked: UnitKind,
    a: Option<&Unit<'a>>,
    b: Option<&Unit<'a>>,
    level: Level,
) -> bool
    ensures { IsTrue result ↔ BothOrNeither (SameUnit asked level) (option_copied a.entry) (option_copied b.entry) }
{
    same_units_asked(asked, asked, a, b, level)
}

#[tactic(auto, unfolding(crate::specs::SameParts::SameValue))]
fn is_metre(unit: &Unit<'_>, level: Level) -> bool
    ensures { IsTrue result ↔ SameUnit kinds.Length level unit.now (or_metre None) }
{
    let hints = CounterpartHints::none();
    unit.kind.as_asked(UnitKind::Length) == UnitKind::Length
        && same_text(unit.name, b"metre")
        && unit.factor.is_whole(1)
        && same_kept_idents(unit.identifiers.as_slice(), &[], hints, level)
}

/// Whether two units of length are the same: a missing one is the metre. ISO 19162:2019, "Ellipsoid".
pub fn same_length<'a>(a: &Option<Unit<'a>>, b: &Option<Unit<'a>>, level: Level) -> bool
    ensures { IsTrue result ↔ SameLength level a.now b.now }
{
    laws::parts::same_length_is_equivalence();
    match (a, b) {
        (None, None) => true,
        (Some(x), None) => is_metre(x, level),
        (None, Some(y)) => is_metre(y, level),
        (Some(x), Some(y)) => same_unit_as(UnitKind::Length, x, y, level),
    }
}
