//! The rows of the tables: for each class its keywords, the first is written, and its slots.
//! Macros make each table, and the walk that judges each class, from these rows, so that a class's keywords and slots
//! are written only here. Their inverse, the classes of a keyword, is in keyword.rt and is proved to agree.

/// The row of a class, named as `Class` names it: calls the macro `$table` with `$with`, the class's keywords and its
/// slots. A slot is for `one` argument, `optional` (none or one), `some` (one or more) or `any` (any number, none
/// included, in any order), of these classes.
#[macro_export]
macro_rules! row {
    // items that aren't nodes
    (Number $to:tt) => { row!(@ $to []) };
    (Text $to:tt) => { row!(@ $to []) };
    (Word $to:tt) => { row!(@ $to []) };

    // Geodetic and geographic CRS
    (GeodeticCrs $to:tt) => {
        row!(@ $to [GeodCrs, GeodeticCrs] one(Text) optional(Dynamic) one(GeodeticFrame, GeodeticEnsemble)
            optional(PrimeMeridian) one(CoordinateSystem) some(Axis) optional(AxisUnit)
            any(Usage, Scope, Area, BoundingBox, VerticalExtent, Identifier, Remark))
    };
    (GeographicCrs $to:tt) => {
        row!(@ $to [GeogCrs, GeographicCrs] one(Text) optional(Dynamic) one(GeodeticFrame, GeodeticEnsemble)
            optional(PrimeMeridian) one(CoordinateSystem) some(Axis) optional(AxisUnit)
            any(Usage, Scope, Area, BoundingBox, VerticalExtent, Identifier, Remark))
    };

    // Projected CRS
    (ProjectedCrs $to:tt) => {
        row!(@ $to [ProjCrs, ProjectedCrs] one(Text) one(BaseCrs) one(Conversion) one(CoordinateSystem) some(Axis)
            optional(AxisUnit) any(Usage, Scope, Area, BoundingBox, VerticalExtent, Identifier, Remark))
    };

    // Vertical CRS
    (VerticalCrs $to:tt) => {
        row!(@ $to [VertCrs, VerticalCrs] one(Text) optional(Dynamic) one(VerticalFrame, VerticalEnsemble)
            one(CoordinateSystem) some(Axis) optional(AxisUnit)
            any(GeoidModel, Usage, Scope, Area, BoundingBox, VerticalExtent, Identifier, Remark))
    };

    // Compound CRS
    (CompoundCrs $to:tt) => {
        row!(@ $to [CompoundCrs] one(Text) one(GeodeticCrs, GeographicCrs, ProjectedCrs) one(VerticalCrs)
            any(Usage, Scope, Area, BoundingBox, VerticalExtent, Identifier, Remark))
    };
    (BaseCrs $to:tt) => {
        row!(@ $to [BaseGeogCrs, BaseGeodCrs] one(Text) optional(Dynamic) one(GeodeticFrame, GeodeticEnsemble)
            optional(PrimeMeridian) optional(AngleUnit) any(Identifier))
    };

    // Dynamic frame
    (Dynamic $to:tt) => { row!(@ $to [Dynamic] one(FrameEpoch) optional(DeformationModel)) };

    // Datum
    (GeodeticFrame $to:tt) => {
        row!(@ $to [Datum, Trf, GeodeticDatum] one(Text) one(Ellipsoid) any(Anchor, AnchorEpoch) any(Identifier))
    };
    (VerticalFrame $to:tt) => {
        row!(@ $to [VDatum, Vrf, VerticalDatum] one(Text) any(Anchor, AnchorEpoch) any(Identifier))
    };

    // Datum ensemble
    (GeodeticEnsemble $to:tt) => {
        row!(@ $to [Ensemble] one(Text) some(Member) one(Ellipsoid) one(EnsembleAccuracy) any(Identifier))
    };
    (VerticalEnsemble $to:tt) => {
        row!(@ $to [Ensemble] one(Text) some(Member) one(EnsembleAccuracy) any(Identifier))
    };

    // Ellipsoid: name, semi-major axis, inverse flattening
    (Ellipsoid $to:tt) => {
        row!(@ $to [Ellipsoid, Spheroid] one(Text) one(Number) one(Number) optional(LengthUnit) any(Identifier))
    };

    // Prime meridian: name, longitude
    (PrimeMeridian $to:tt) => {
        row!(@ $to [PrimeM, PrimeMeridian] one(Text) one(Number) optional(AngleUnit) any(Identifier))
    };

    // Units: name, factor
    (PlainUnit $to:tt) => { row!(@ $to [PlainUnit] one(Text) one(Number) any(Identifier)) };
    (LengthUnit $to:tt) => { row!(@ $to [LengthUnit, PlainUnit] one(Text) one(Number) any(Identifier)) };
    (AngleUnit $to:tt) => { row!(@ $to [AngleUnit, PlainUnit] one(Text) one(Number) any(Identifier)) };
    (ScaleUnit $to:tt) => { row!(@ $to [ScaleUnit] one(Text) one(Number) any(Identifier)) };
    (AxisUnit $to:tt) => { row!(@ $to [LengthUnit, AngleUnit, PlainUnit] one(Text) one(Number) any(Identifier)) };

    // Coordinate system: type, dimension
    (CoordinateSystem $to:tt) => { row!(@ $to [Cs] one(Word) one(Number) any(Identifier)) };

    // Axis: name, direction
    (Axis $to:tt) => {
        row!(@ $to [Axis] one(Text) one(Word) optional(AxisMeridian) optional(Order) optional(AxisUnit) any(Identifier))
    };
    (AxisMeridian $to:tt) => { row!(@ $to [Meridian] one(Number) one(AngleUnit)) };

    // Map projection
    (Conversion $to:tt) => { row!(@ $to [Conversion] one(Text) one(Method) any(Parameter) any(Identifier)) };
    (Parameter $to:tt) => {
        row!(@ $to [Parameter] one(Text) one(Number) optional(PlainUnit, LengthUnit, AngleUnit, ScaleUnit)
            any(Identifier))
    };

    // a name and identifiers
    (Member $to:tt) => { row!(@ $to [Member] one(Text) any(Identifier)) };
    (Method $to:tt) => { row!(@ $to [Method, Projection] one(Text) any(Identifier)) };
    (GeoidModel $to:tt) => { row!(@ $to [GeoidModel] one(Text) any(Identifier)) };
    (DeformationModel $to:tt) => { row!(@ $to [Model, VelocityGrid] one(Text) any(Identifier)) };

    // Usage; a node has at least one argument
    (Usage $to:tt) => {
        row!(@ $to [Usage] optional(Scope) optional(Area) optional(BoundingBox) optional(VerticalExtent))
    };
    (BoundingBox $to:tt) => { row!(@ $to [BBox] one(Number) one(Number) one(Number) one(Number)) };
    (VerticalExtent $to:tt) => { row!(@ $to [VerticalExtent] one(Number) one(Number) optional(LengthUnit)) };

    // Identifier: authority, code, version
    (Identifier $to:tt) => {
        row!(@ $to [Id] one(Text) one(Number, Text) optional(Number, Text) optional(Citation) optional(Uri))
    };

    // one number
    (FrameEpoch $to:tt) => { row!(@ $to [FrameEpoch] one(Number)) };
    (AnchorEpoch $to:tt) => { row!(@ $to [AnchorEpoch] one(Number)) };
    (EnsembleAccuracy $to:tt) => { row!(@ $to [EnsembleAccuracy] one(Number)) };
    (Order $to:tt) => { row!(@ $to [Order] one(Number)) };

    // one text
    (Anchor $to:tt) => { row!(@ $to [Anchor] one(Text)) };
    (Scope $to:tt) => { row!(@ $to [Scope] one(Text)) };
    (Area $to:tt) => { row!(@ $to [Area] one(Text)) };
    (Citation $to:tt) => { row!(@ $to [Citation] one(Text)) };
    (Uri $to:tt) => { row!(@ $to [Uri] one(Text)) };
    (Remark $to:tt) => { row!(@ $to [Remark] one(Text)) };

    // to the macro that is asked
    (@ ($table:ident $with:tt) $($row:tt)*) => { $table! { $with $($row)* } };
    ($class:ident, $table:ident, $with:tt) => { row!($class ($table $with)) };
}

// calls the macro `$each` with `$with` and all classes, in the order of `Class`
macro_rules! every_class {
    ($each:ident, $with:tt) => {
        $each! {
            $with
            Number Text Word GeodeticCrs GeographicCrs ProjectedCrs VerticalCrs CompoundCrs BaseCrs
            Dynamic FrameEpoch DeformationModel GeodeticFrame VerticalFrame GeodeticEnsemble
            VerticalEnsemble Member EnsembleAccuracy Anchor AnchorEpoch Ellipsoid PrimeMeridian
            PlainUnit LengthUnit AngleUnit ScaleUnit AxisUnit CoordinateSystem Axis AxisMeridian
            Order Conversion Method Parameter GeoidModel Usage Scope Area BoundingBox VerticalExtent
            Identifier Citation Uri Remark
        }
    };
}

// a table with a row for each class
macro_rules! rows {
    ($table:ident, $class:expr) => { every_class!(rows, ($table, $class)) };
    (($table:ident, $class:expr) $($of:ident)+) => {
        match $class {
            $(Class::$of => row!($of, $table, ()),)+
        }
    };
}

pub(crate) use every_class;
pub(crate) use row;
pub(crate) use rows;
