//! What a text is by its first keyword, and keywords that aren't read.
use crate::hint::glance::{begins, ends, is_one_of, names};
use crate::hint::sentence::{BOUND, CLASS, KEYWORD, METADATA, OPERATION, TRANSFORMATION};
use crate::hint::{About, Entry, Filling, Hint, filled};
use crs_shape::Class;

// The classes of CRS of WKT1.
const OLD_CLASSES: &[u8] = b"GEOGCS PROJCS GEOCCS VERT_CS COMPD_CS LOCAL_CS FITTED_CS VERTCS";

// Parts of a CRS that are given in place of one.
const PARTS: [Class; 12] = [
    Class::GeodeticFrame,
    Class::VerticalFrame,
    Class::GeodeticEnsemble,
    Class::Ellipsoid,
    Class::PrimeMeridian,
    Class::CoordinateSystem,
    Class::Axis,
    Class::Conversion,
    Class::BaseCrs,
    Class::LengthUnit,
    Class::AngleUnit,
    Class::Identifier,
];

// Classes of CRS of the standard that aren't read.
const OTHER_CLASSES: [Entry; 7] = [
    (b"BOUNDCRS", BOUND, b""),
    (b"ENGCRS", CLASS, b"Engineering CRSs"),
    (b"ENGINEERINGCRS", CLASS, b"Engineering CRSs"),
    (b"PARAMETRICCRS", CLASS, b"Parametric CRSs"),
    (b"TIMECRS", CLASS, b"Temporal CRSs"),
    (b"DERIVEDPROJCRS", CLASS, b"Derived CRSs"),
    (b"IMAGECRS", CLASS, b"Image CRSs"),
];

// What else the standard has, and isn't read.
const OTHER_TEXTS: [Entry; 4] = [
    (b"COORDINATEOPERATION", OPERATION, b""),
    (b"CONCATENATEDOPERATION", OPERATION, b""),
    (b"POINTMOTIONOPERATION", OPERATION, b""),
    (b"COORDINATEMETADATA", METADATA, b""),
];

// Keywords that tools write and that aren't read.
const OTHER_KEYWORDS: [Entry; 9] = [
    (b"AUTHORITY", KEYWORD, b"AUTHORITY is WKT1's identifier"),
    (b"EXTENSION", KEYWORD, b"EXTENSION is WKT1's"),
    (b"TOWGS84", TRANSFORMATION, b""),
    (b"TIMEEXTENT", KEYWORD, b"A usage's TIMEEXTENT isn't read"),
    (b"AXISMINVALUE", KEYWORD, b"An axis's range isn't read"),
    (b"AXISMAXVALUE", KEYWORD, b"An axis's range isn't read"),
    (b"RANGEMEANING", KEYWORD, b"An axis's range isn't read"),
    (b"DERIVINGCONVERSION", KEYWORD, b"Derived CRSs aren't read"),
    (b"BASEVERTCRS", KEYWORD, b"Derived CRSs aren't read"),
];

/// What a text is by its first keyword.
pub(crate) fn by_class<'a>(text: &[u8], keyword: &'a [u8]) -> Option<Hint<'a>> {
    if is_one_of(keyword, OLD_CLASSES) {
        let has_transformation = text.windows(8).any(|it| begins(it, b"TOWGS84["));
        let transformation: &[u8] = if has_transformation { b"TOWGS84" } else { b"" };
        let told = "This is WKT1, of a .prj file or an older tool: {}";
        filled(told, Filling::ByProj(transformation)).map(|it| it.about(About::Class))
    } else if names(keyword, &PARTS) {
        let told = "{} is a part of a CRS, and no CRS by itself.";
        filled(told, Filling::Capitals(keyword))
    } else {
        by_other_class(keyword)
    }
}

/// Whether a text of its own begins with this keyword: a CRS, also of a class that isn't read, or an operation.
pub(crate) fn is_of_text(keyword: &[u8]) -> bool {
    let is_crs = ends(keyword, b"CRS") && !begins(keyword, b"BASE");
    is_crs || is_one_of(keyword, OLD_CLASSES) || by_other_class(keyword).is_some()
}

/// What a node is that isn't allowed where it is, by its keyword.
pub(crate) fn by_keyword(keyword: &[u8]) -> Option<Hint<'static>> {
    by_word(keyword, &OTHER_KEYWORDS).or(by_other_class(keyword))
}

fn by_other_class(keyword: &[u8]) -> Option<Hint<'static>> {
    let class = by_word(keyword, &OTHER_CLASSES).map(|it| it.about(About::Class));
    class.or(by_word(keyword, &OTHER_TEXTS))
}

fn by_word(word: &[u8], entries: &[Entry]) -> Option<Hint<'static>> {
    let entry = entries.iter().find(|it| it.0.eq_ignore_ascii_case(word))?;
    filled(entry.1, Filling::Words(entry.2))
}
