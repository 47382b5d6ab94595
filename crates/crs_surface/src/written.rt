//! Values taken apart, field by field, and written with first keywords, plain numbers and no white space.

// Takes a value apart by a pattern of all its fields, and puts each in the way that is named behind it.
macro_rules! put_fields {
    ($value:ident, $out:ident => $kind:ident { $($field:ident: $how:ident $(($($more:tt)+))?),+ }) => {
        let $kind { $($field),+ } = $value;
        $(put_field!($out, $field, $how $(($($more)+))?);)+
    };
}

macro_rules! put_field {
    ($out:ident, $field:ident, in_keyword) => {};
    ($out:ident, $field:ident, as_word) => { $out.word($field.word().as_bytes()) };
    ($out:ident, $field:ident, optional($($how:tt)+)) => { if let Some(part) = $field { put_field!($out, part, $($how)+); } };
    ($out:ident, $field:ident, each($how:ident)) => { for part in $field.as_slice() { $out.$how(part); } };
    ($out:ident, $field:ident, node($word:literal, $how:ident)) => { $out.open($word); $out.$how($field); $out.close(); };
    ($out:ident, $field:ident, $how:ident) => { $out.$how($field) };
}

// Takes a node apart so, with a keyword that may depend on a field, and looks at it by itself.
macro_rules! put_node {
    ($node:ident, $out:ident, $same:ident, $keyword:expr => $kind:ident { $($field:ident: $how:ident $(($($more:tt)+))?),+ }) => {
        let $kind { $($field),+ } = $node;
        $out.open($keyword);
        $(put_field!($out, $field, $how $(($($more)+))?);)+
        $out.close();
        look_at!($node, $out, parts::$same);
    };
}

// Looks whether a node is the same as itself, and appends what was just put of it.
macro_rules! look_at {
    ($node:ident, $out:ident, $same:path) => {
        let alloc = $out.out.alloc();
        let written = $node.write(alloc, Level::Full, $out.own());
        $out.look(written, $node.same($node, Level::Full) && $same($node, $node, Level::Full));
    };
}

use crate::answer::Answer;
use crate::numbers::put_spelled;
use crate::row::Row;
use crs_canon::Canonical;
use crs_decimal::Decimal;
use crs_same::{parts, same};
use crs_value::{
    Axis, AxisMeridian, Base, BoundingBox, Compound, Conversion, Crs, Datum, DeformationModel,
    Dynamic, Ellipsoid, Ensemble, Extent, Frame, Geodetic, GeoidModel, Horizontal, Ident, Level,
    List, Member, Meridian, Method, Parameter, Projected, System, SystemType, Tail, Unit, UnitKind,
    Usage, Vertical, read,
};
use std::alloc::AllocError;

/// The CRS of a text, taken apart and written. Of one that is `canonical` each node is looked at by itself, too:
/// `another` is put behind one that isn't the same as itself, or that appends another text than its own.
pub fn put_whole(out: &mut Answer, row: &Row<'_>, how: &str) {
    let mut text = Text {
        out: Answer::new(out.alloc()),
        is_first: true,
        is_canonical: how == "canonical",
        own: Vec::new(out.alloc()),
    };
    match read(out.alloc(), row.text()) {
        Ok(crs) => text.crs(&crs),
        Err(fault) => return out.put_fault(fault),
    }
    match text.out.bytes() {
        Ok(bytes) => out.put_bytes(bytes),
        Err(error) => out.note(Err(error)),
    }
}

// A text that is written part by part, with a comma before each part but the first one of a node.
#[derive(Drop)]
struct Text {
    out: Answer,
    // whether the next part is the first one of its node
    is_first: bool,
    is_canonical: bool,
    // what a node that is looked at appends by itself
    own: Vec<u8>,
}

impl Text {
    // Where a node appends its own text.
    fn own(&mut self) -> &mut Vec<u8> {
        self.own.clear();
        &mut self.own
    }

    // Puts `another` behind a node that isn't the same as itself, or whose own text isn't what was just put.
    fn look(&mut self, written: Result<(), AllocError>, is_same: bool) {
        self.out.note(written);
        let stands = matches!(self.out.bytes(), Ok(bytes) if bytes.ends_with(&self.own));
        if self.is_canonical && !(is_same && stands) {
            self.out.put("another");
        }
    }

    // Characters as they are.
    fn word(&mut self, word: &[u8]) {
        self.out
            .put_after(if self.is_first { "" } else { "," }, word);
        self.is_first = false;
    }

    // A node's keyword and its bracket.
    fn open(&mut self, keyword: &str) {
        self.word(keyword.as_bytes());
        self.out.put("[");
        self.is_first = true;
    }

    fn close(&mut self) {
        self.out.put("]");
        self.is_first = false;
    }

    // A text, in quotes.
    fn text(&mut self, text: &[u8]) {
        self.word(b"\"");
        self.out.put_bytes(text);
        self.out.put("\"");
    }

    fn number(&mut self, number: &Decimal) {
        self.word(b"");
        put_spelled(&mut self.out, number, "", b"");
    }

    // A code without quotes where it has digits alone.
    fn code(&mut self, code: &[u8]) {
        if has_digits_alone(code) {
            self.word(code);
        } else {
            self.text(code);
        }
    }

    fn crs(&mut self, node: &Crs<'_>) {
        match node {
            Crs::Geodetic(part) => self.geodetic(part),
            Crs::Projected(part) => self.projected(part),
            Crs::Vertical(part) => self.vertical(part),
            Crs::Compound(part) => self.compound(part),
        }
        look_at!(node, self, same);
    }

    fn geodetic(&mut self, node: &Geodetic<'_>) {
        put_node!(node, self, same_geodetic, match system.system_type { SystemType::Ellipsoidal => "GEOGCRS", _ => "GEODCRS" } => Geodetic {
            name: text, dynamic: optional(dynamic), frame: frame, meridian: optional(meridian), system: system, tail: tail
        });
    }

    fn projected(&mut self, node: &Projected<'_>) {
        put_node!(node, self, same_projected, "PROJCRS" => Projected {
            name: text, base: base, conversion: conversion, system: system, tail: tail
        });
    }

    fn base(&mut self, node: &Base<'_>) {
        put_node!(node, self, same_base, "BASEGEOGCRS" => Base {
            name: text, dynamic: optional(dynamic), frame: frame, meridian: optional(meridian), unit: optional(unit), identifiers: each(ident)
        });
    }

    fn vertical(&mut self, node: &Vertical<'_>) {
        put_node!(node, self, same_vertical, "VERTCRS" => Vertical {
            name: text, dynamic: optional(dynamic), frame: frame, system: system, geoid_models: each(geoid_model), tail: tail
        });
    }

    fn compound(&mut self, node: &Compound<'_>) {
        put_node!(node, self, same_compound, "COMPOUNDCRS" => Compound {
            name: text, horizontal: horizontal, vertical: vertical, tail: tail
        });
    }

    fn horizontal(&mut self, node: &Horizontal<'_>) {
        match node {
            Horizontal::Geodetic(part) => self.geodetic(part),
            Horizontal::Projected(part) => self.projected(part),
        }
        look_at!(node, self, parts::same_horizontal);
    }

    fn frame(&mut self, node: &Frame<'_>) {
        match node {
            Frame::Datum(part) => self.datum(part),
            Frame::Ensemble(part) => self.ensemble(part),
        }
        look_at!(node, self, parts::same_frame);
    }

    fn datum(&mut self, node: &Datum<'_>) {
        put_node!(node, self, same_datum, match ellipsoid { Some(_) => "DATUM", None => "VDATUM" } => Datum {
            name: text, ellipsoid: optional(ellipsoid), anchor: optional(node("ANCHOR", text)),
            anchor_epoch: optional(node("ANCHOREPOCH", number)), identifiers: each(ident)
        });
    }

    fn ensemble(&mut self, node: &Ensemble<'_>) {
        put_node!(node, self, same_ensemble, "ENSEMBLE" => Ensemble {
            name: text, members: each(member), ellipsoid: optional(ellipsoid), accuracy: node("ENSEMBLEACCURACY", number),
            identifiers: each(ident)
        });
    }

    fn member(&mut self, node: &Member<'_>) {
        put_node!(node, self, same_member, "MEMBER" => Member { name: text, identifiers: each(ident) });
    }

    fn ellipsoid(&mut self, node: &Ellipsoid<'_>) {
        put_node!(node, self, same_ellipsoid, "ELLIPSOID" => Ellipsoid {
            name: text, semi_major_axis: number, inverse_flattening: number, unit: optional(unit), identifiers: each(ident)
        });
    }

    fn meridian(&mut self, node: &Meridian<'_>) {
        put_node!(node, self, same_meridian, "PRIMEM" => Meridian {
            name: text, longitude: number, unit: optional(unit), identifiers: each(ident)
        });
    }

    fn dynamic(&mut self, node: &Dynamic<'_>) {
        put_node!(node, self, same_dynamic, "DYNAMIC" => Dynamic {
            epoch: node("FRAMEEPOCH", number), model: optional(model)
        });
    }

    fn model(&mut self, node: &DeformationModel<'_>) {
        put_node!(node, self, same_deformation_model, "MODEL" => DeformationModel {
            name: text, identifiers: each(ident)
        });
    }

    fn system(&mut self, node: &System<'_>) {
        self.open("CS");
        put_fields!(node, self => System {
            system_type: as_word, dimension: number, identifiers: to_end, axes: each(axis), unit: optional(unit)
        });
    }

    // The identifiers of a node that ends with them.
    fn to_end(&mut self, identifiers: &List<Ident<'_>>) {
        for ident in identifiers.as_slice() {
            self.ident(ident);
        }
        self.close();
    }

    fn axis(&mut self, node: &Axis<'_>) {
        put_node!(node, self, same_axis, "AXIS" => Axis {
            name: text, direction: as_word, meridian: optional(axis_meridian), order: optional(node("ORDER", number)),
            unit: optional(unit), identifiers: each(ident)
        });
    }

    fn axis_meridian(&mut self, node: &AxisMeridian<'_>) {
        put_node!(node, self, same_axis_meridian, "MERIDIAN" => AxisMeridian { longitude: number, unit: unit });
    }

    fn unit(&mut self, node: &Unit<'_>) {
        put_node!(node, self, same_unit, unit_keyword(*kind) => Unit {
            kind: in_keyword, name: text, factor: number, identifiers: each(ident)
        });
    }

    fn conversion(&mut self, node: &Conversion<'_>) {
        put_node!(node, self, same_conversion, "CONVERSION" => Conversion {
            name: text, method: method, parameters: each(parameter), identifiers: each(ident)
        });
    }

    fn method(&mut self, node: &Method<'_>) {
        put_node!(node, self, same_method, "METHOD" => Method { name: text, identifiers: each(ident) });
    }

    fn parameter(&mut self, node: &Parameter<'_>) {
        put_node!(node, self, same_parameter, "PARAMETER" => Parameter {
            name: text, value: number, unit: optional(unit), identifiers: each(ident)
        });
    }

    fn geoid_model(&mut self, node: &GeoidModel<'_>) {
        put_node!(node, self, same_geoid_model, "GEOIDMODEL" => GeoidModel { name: text, identifiers: each(ident) });
    }

    fn ident(&mut self, node: &Ident<'_>) {
        put_node!(node, self, same_ident, "ID" => Ident {
            authority: text, code: code, version: optional(code), citation: optional(node("CITATION", text)),
            uri: optional(node("URI", text))
        });
    }

    fn tail(&mut self, node: &Tail<'_>) {
        put_fields!(node, self => Tail {
            bare_parts: optional(parts), usages: each(usage), identifiers: each(ident), remark: optional(node("REMARK", text))
        });
    }

    fn parts(&mut self, node: &Usage<'_>) {
        put_fields!(node, self => Usage {
            scope: optional(node("SCOPE", text)), area: optional(node("AREA", text)), bbox: optional(bbox), extent: optional(extent)
        });
    }

    fn usage(&mut self, node: &Usage<'_>) {
        self.open("USAGE");
        self.parts(node);
        self.close();
        look_at!(node, self, parts::same_usage);
    }

    fn bbox(&mut self, node: &BoundingBox) {
        put_node!(node, self, same_box, "BBOX" => BoundingBox {
            south: number, west: number, north: number, east: number
        });
    }

    fn extent(&mut self, node: &Extent<'_>) {
        put_node!(node, self, same_extent, "VERTICALEXTENT" => Extent {
            minimum: number, maximum: number, unit: optional(unit)
        });
    }
}

fn has_digits_alone(code: &[u8]) -> bool {
    for byte in code {
        if !byte.is_ascii_digit() {
            return false;
        }
    }
    true
}

fn unit_keyword(kind: UnitKind) -> &'static str {
    match kind {
        UnitKind::Length => "LENGTHUNIT",
        UnitKind::Angle => "ANGLEUNIT",
        UnitKind::Scale => "SCALEUNIT",
        UnitKind::Plain => "UNIT",
    }
}
