//! Conversions and geoid models.
ghost use Rattle.std.specs.Prelude.{◌≡◌, ◌++◌, OnOk};
ghost use Rattle.crs_value.specs.Values.{ConversionParts};
ghost use Rattle.crs_value.specs.Reads.{ReadsConversion, ReadsGeoidModel, ReadsMethod, ReadsParameter};
ghost use Rattle.crs_normal.specs.inner.PartTexts.{conversion_text, geoid_model_text, method_text, parameter_text};

use crate::members::{MembersPart, ReadAs, SetReadAs};
use crate::nodes::copied;
use crate::parts::{Appended, IdentsPart, Spell, ValuePart};
use crate::set::write_set;
use crate::spelling::idents_and_units::{MeasuredFields, write_measured, write_named};
use crate::{Node, append, open_text};
use crs_shape::Class;
use crs_value::{Conversion, GeoidModel, Level, Method, Parameter, UnitKind};

impl Spell for Method<'_> {
    ghost spelling = { method_text };

    fn spell(&self, out: &mut Vec<u8>, level: Level) -> Appended {
        write_named(out, b"METHOD[\"", self.name, &self.identifiers, level)
    }
}

impl<'a> ReadAs<'a> for Method<'a> {
    ghost Reads = { ReadsMethod };

    fn write_of(node: &Node<'_, 'a>, out: &mut Vec<u8>, level: Level) -> Appended {
        match copied::method(node, level) {
            Some(bytes) => append(out, bytes),
            None => write_named(out, b"METHOD[\"", node.text(), node, level),
        }
    }
}

impl Spell for Parameter<'_> {
    ghost spelling = { parameter_text };

    fn spell(&self, out: &mut Vec<u8>, level: Level) -> Appended {
        let fields = MeasuredFields {
            name: self.name,
            number: &self.value,
            asked: UnitKind::Plain,
            unit: self.unit.as_ref(),
            ids: &self.identifiers,
        };
        write_measured(out, b"PARAMETER[\"", fields, level)
    }
}

impl<'a> ReadAs<'a> for Parameter<'a> {
    ghost Reads = { ReadsParameter };

    fn write_of(node: &Node<'_, 'a>, out: &mut Vec<u8>, level: Level) -> Appended {
        let unit = node.parameter_unit();
        let fields = MeasuredFields {
            name: node.text(),
            number: node.number(),
            asked: UnitKind::Plain,
            unit: unit.as_ref(),
            ids: node,
        };
        write_measured(out, b"PARAMETER[\"", fields, level)
    }
}

impl<'a> SetReadAs<'a> for Parameter<'a> {
    fn copied(node: &Node<'_, 'a>, level: Level) -> Option<&'a [u8]> {
        copied::parameter(node, level)
    }
}

fn write_conversion<'a, M: ValuePart<Method<'a>>, P: MembersPart<Parameter<'a>>, I: IdentsPart>(
    out: &mut Vec<u8>,
    named: (&[u8], I),
    method: M,
    parameters: &P,
    level: Level,
) -> Appended
    requires { P.Hold parameters.now }
    ensures { OnOk result ((x : ConversionParts) → x.name ≡ named.entry.0.now → M.Says method x.method →
        P.Say parameters.now x.parameters → I.Says named.entry.1 x.identifiers →
        out.new.items ≡ out.old.items ++ conversion_text level x) }
{
    let (name, ids) = named;
    open_text(out, b"CONVERSION[\"", name)?;
    method.put(out, level)?;
    write_set::<Parameter<'a>, P>(out, parameters, level)?;
    ids.put(out, level)?;
    append(out, b"]")
}

impl<'a> Spell for Conversion<'a> {
    ghost spelling = { conversion_text };

    fn spell(&self, out: &mut Vec<u8>, level: Level) -> Appended {
        let named = (self.name, &self.identifiers);
        let parameters = self.parameters.as_slice();
        write_conversion(out, named, &self.method, &parameters, level)
    }
}

impl<'a> ReadAs<'a> for Conversion<'a> {
    ghost Reads = { ReadsConversion };

    fn write_of(node: &Node<'_, 'a>, out: &mut Vec<u8>, level: Level) -> Appended {
        let method = node.first(Class::Method);
        let parameters = node.all(Class::Parameter);
        let named = (node.text(), node);
        write_conversion(out, named, method.as_ref(), &parameters, level)
    }
}

impl Spell for GeoidModel<'_> {
    ghost spelling = { geoid_model_text };

    fn spell(&self, out: &mut Vec<u8>, level: Level) -> Appended {
        write_named(out, b"GEOIDMODEL[\"", self.name, &self.identifiers, level)
    }
}

impl<'a> ReadAs<'a> for GeoidModel<'a> {
    ghost Reads = { ReadsGeoidModel };

    fn write_of(node: &Node<'_, 'a>, out: &mut Vec<u8>, level: Level) -> Appended {
        write_named(out, b"GEOIDMODEL[\"", node.text(), node, level)
    }
}

impl<'a> SetReadAs<'a> for GeoidModel<'a> {
    fn copied(_node: &Node<'_, 'a>, _level: Level) -> Option<&'a [u8]> {
        None
    }
}
