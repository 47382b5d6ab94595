/// What an item is in its parent: a number, a text or a word, or a node of one of the kinds below. Where a keyword
/// has several kinds that are allowed in one parent, it names the first of them there. ISO 19162:2019; a variant's
/// part of the standard is beside its keywords and its slots.
#[derive(Clone, Copy, Debug, PartialEq, Eq)]
pub enum Class {
    /// A number.
    Number,
    /// A quoted text.
    Text,
    /// A word by itself.
    Word,
    /// A geodetic CRS.
    GeodeticCrs,
    /// A geographic CRS.
    GeographicCrs,
    /// A projected CRS.
    ProjectedCrs,
    /// A vertical CRS.
    VerticalCrs,
    /// A compound CRS.
    CompoundCrs,
    /// The base CRS of a projected CRS.
    BaseCrs,
    /// What a dynamic frame says.
    Dynamic,
    /// The epoch of a dynamic frame.
    FrameEpoch,
    /// The deformation model of a dynamic frame.
    DeformationModel,
    /// A geodetic reference frame.
    GeodeticFrame,
    /// A vertical reference frame.
    VerticalFrame,
    /// A datum ensemble of geodetic frames.
    GeodeticEnsemble,
    /// A datum ensemble of vertical frames.
    VerticalEnsemble,
    /// A member of a datum ensemble.
    Member,
    /// The accuracy of a datum ensemble.
    EnsembleAccuracy,
    /// A datum's anchor.
    Anchor,
    /// The epoch of a datum's anchor.
    AnchorEpoch,
    /// An ellipsoid.
    Ellipsoid,
    /// A prime meridian.
    PrimeMeridian,
    /// In a parameter, a unit that doesn't say its kind.
    PlainUnit,
    /// A unit where only a length fits.
    LengthUnit,
    /// A unit where only an angle fits.
    AngleUnit,
    /// A unit of scale.
    ScaleUnit,
    /// A unit on an axis, or shared by the axes: a length, an angle, or one that doesn't say its kind.
    AxisUnit,
    /// A coordinate system.
    CoordinateSystem,
    /// An axis.
    Axis,
    /// The meridian that an axis at a pole goes along.
    AxisMeridian,
    /// An axis's place in the order of the axes.
    Order,
    /// A map projection.
    Conversion,
    /// The method of a map projection.
    Method,
    /// A parameter of a map projection.
    Parameter,
    /// A geoid model of a vertical CRS.
    GeoidModel,
    /// A usage: scope and extent.
    Usage,
    /// A scope.
    Scope,
    /// An area, in words.
    Area,
    /// A box of latitudes and longitudes.
    BoundingBox,
    /// An extent in height.
    VerticalExtent,
    /// An identifier.
    Identifier,
    /// An identifier's citation.
    Citation,
    /// An identifier's URI.
    Uri,
    /// A remark.
    Remark,
}
