//! Conversions, with their parameters.
ghost use Rattle.std.specs.Prelude.{IfOk, ◌≡◌};
ghost use Rattle.crs_shape.specs.declared.class.Class.TheVariants as classes;
ghost use Rattle.crs_value.specs.inner.Cursor.{item};
ghost use Rattle.crs_value.specs.inner.ReadOnce.{IsSound};
ghost use Rattle.crs_value.specs.Reads.{ReadsUnitOf, parameter_units, ReadsConversion, ReadsParameter};
ghost use Rattle.crs_value.specs.Values.{ConversionParts, ParameterParts};
ghost use Rattle.crs_value.specs.SoundParts.{IsConversion, IsParameter};

use crate::reading::{Cursor, FromNode, first};
use crate::values::key::{Key, Keyed};
use crate::{Ident, Level, List, Made, Method, Unit};
use crs_decimal::Decimal;
use crs_shape::Class;
use std::alloc::Global;
use std::marker::Model;

/// A conversion, `CONVERSION[name, method, parameter.., id..]`: how projected coordinates come from
/// the units of the base CRS. ISO 19162:2019, "Map projection conversion".
pub struct Conversion<'a> {
    /// The name.
    pub name: &'a [u8],
    /// The method.
    pub method: Method<'a>,
    /// The parameters, as written.
    pub parameters: List<Parameter<'a>>,
    /// The identifiers, as written.
    pub identifiers: List<Ident<'a>>,
}

impl<'a> Model for Conversion<'a> {
    ghost Value = { ConversionParts };

    ghost view = { λ c. record { name = c.name.now; method = c.method; parameters = c.parameters; identifiers = c.identifiers } };

    ghost invariant = { λ c. IsConversion (view c) };
}

impl Drop for Conversion<'_> {
    fn drop(self) {
        let_go!(self: Conversion { name, method, parameters, identifiers });
    }
}

/// A parameter of a conversion, `PARAMETER[name, value, (unit), id..]`. ISO 19162:2019, "Map projection parameter".
#[derive(Drop)]
pub struct Parameter<'a> {
    /// The name.
    pub name: &'a [u8],
    /// The number, in the unit; if `unit` is None, the unit is unspecified.
    pub value: Decimal,
    /// The unit, a length, an angle or a scale; or one with `UNIT`, which doesn't say its kind.
    pub unit: Option<Unit<'a>>,
    /// The identifiers, as written.
    pub identifiers: List<Ident<'a>>,
}

impl<'a> Model for Parameter<'a> {
    ghost Value = { ParameterParts };

    ghost view = { λ p. record { name = p.name.now; value = p.value; unit = p.unit; identifiers = p.identifiers } };

    ghost invariant = { λ p. IsParameter (view p) };
}

const PARAMETER_UNITS: [Class; 4] = [
    Class::PlainUnit,
    Class::LengthUnit,
    Class::AngleUnit,
    Class::ScaleUnit,
];

// The unit of a parameter, of whichever class.
fn parameter_unit<'a>(alloc: Global, node: &Cursor<'_, 'a>) -> Made<Option<Unit<'a>>>
    requires sound { IsSound Class.Parameter (item node.now) }
    ensures { IfOk result (λ unit. ReadsUnitOf parameter_units Class.Parameter (item node.now) unit) }
{
    let items = node.items;
    for class in PARAMETER_UNITS {
        if let Some(id) = first(items, node.id, Class::Parameter, class) {
            return Ok(Some(Unit::read(alloc, &Cursor { items, id, class })?));
        }
    }
    Ok(None)
}

impl<'a> FromNode<'a> for Conversion<'a> {
    ghost Suits = { λ c. c ≡ classes.Conversion };

    ghost Reads = { λ c item parts. ReadsConversion c item parts };

    fn read(alloc: Global, node: &Cursor<'_, 'a>) -> Made<Self> {
        Ok(Conversion {
            name: node.text(),
            method: node.one(alloc, Class::Method)?,
            parameters: node.many(alloc, Class::Parameter)?,
            identifiers: node.many(alloc, Class::Identifier)?,
        })
    }
}

impl<'a> FromNode<'a> for Parameter<'a> {
    ghost Suits = { λ c. c ≡ classes.Parameter };

    ghost Reads = { λ c item parts. ReadsParameter c item parts };

    fn read(alloc: Global, node: &Cursor<'_, 'a>) -> Made<Self> {
        Ok(Parameter {
            name: node.text(),
            value: node.number(),
            unit: parameter_unit(alloc, node)?,
            identifiers: node.many(alloc, Class::Identifier)?,
        })
    }
}

impl Keyed for Parameter<'_> {
    fn key(&self, level: Level) -> u128 {
        let mut key = Key::new();
        key.put_text(self.name);
        key.put_number(&self.value);
        key.put_optional_unit(&self.unit, level);
        key.put_idents(&self.identifiers, level);
        key.finish()
    }
}
