//! What a text is by its front.
use crate::hint::class::by_class;
use crate::hint::glance::{
    begins, digit_count, ends, front, is_of_word, is_one_of, keyword_at, looked_at, rest,
    split_word, word_length,
};
use crate::hint::{Entry, Filling, Hint, by_first_bytes, filled, said, sentence};
use crate::place::SHOWN;

/// What a text is by its front.
pub(crate) fn by_front(text: &[u8]) -> Option<Hint<'_>> {
    let front = looked_at(text.trim_ascii_start(), 0).trim_ascii_end();
    if front.is_empty() {
        return said("There is nothing here: an empty file, or a program that wrote nothing.");
    }
    let by_word = match keyword_at(front) {
        [] => by_string(front),
        keyword => by_class(text, keyword),
    };
    by_first_bytes(text, &FORMATS)
        .or(by_utf16(text))
        .or(by_first_bytes(front, &MARKS))
        .or(by_geometry(front))
        .or(by_word)
}

// Files that are no text.
const FORMATS: [Entry; 14] = [
    (b"\x00\x00\x27\x0a", sentence::SHAPEFILE, b""),
    (b"SQLite format 3\0", sentence::GEOPACKAGE, b""),
    (b"II*\0", sentence::BINARY, b"a GeoTIFF, or another TIFF"),
    (b"MM\0*", sentence::BINARY, b"a GeoTIFF, or another TIFF"),
    (b"II+\0", sentence::BINARY, b"a GeoTIFF, or another TIFF"),
    (b"MM\0+", sentence::BINARY, b"a GeoTIFF, or another TIFF"),
    (b"\x89HDF", sentence::BINARY, b"netCDF or HDF5"),
    (b"CDF\x01", sentence::BINARY, b"netCDF"),
    (b"CDF\x02", sentence::BINARY, b"netCDF"),
    (b"\x00\x00\x00\x0cjP  ", sentence::BINARY, b"JPEG 2000"),
    (b"fgb\x03fgb", sentence::BINARY, b"a FlatGeobuf"),
    (b"PAR1", sentence::BINARY, b"a Parquet file"),
    (b"PK\x03\x04", sentence::ARCHIVE, b"a zip archive"),
    (b"\x1f\x8b", sentence::ARCHIVE, b"a gzip archive"),
];

// A byte order mark, another notation, or quotes around the text.
const MARKS: [Entry; 5] = [
    (b"\xef\xbb\xbf", sentence::BYTE_ORDER_MARK, b""),
    (b"{", sentence::JSON, sentence::BY_PROJ),
    (b"<", sentence::XML, b""),
    (b"\"", sentence::QUOTED, b""),
    (b"'", sentence::QUOTED, b""),
];

// UTF-16 by its byte order mark; without one by the first four bytes, of which every second is zero. White space at the
// front has zeros too, so that this looks at the whole text.
fn by_utf16(text: &[u8]) -> Option<Hint<'static>> {
    let name: &[u8] = match text {
        [0xff, 0xfe, ..] | [0xfe, 0xff, ..] => b"UTF-16",
        [0, a, 0, b, ..] if *a != 0 && *b != 0 => b"UTF-16BE",
        [a, 0, b, 0, ..] if *a != 0 && *b != 0 => b"UTF-16LE",
        _ => return None,
    };
    let told = "This is UTF-16: write the file in UTF-8 (iconv -f {} -t UTF-8 FILE).";
    filled(told, Filling::Words(name))
}

const GEOMETRIES: &[u8] =
    b"POINT LINESTRING POLYGON MULTIPOINT MULTILINESTRING MULTIPOLYGON GEOMETRYCOLLECTION";

// A geometry by its kind, after an SRID too, with its coordinates or `EMPTY` behind it.
fn by_geometry(front: &[u8]) -> Option<Hint<'_>> {
    let srid = srid_of(front).map_or(0, |it| it.len().saturating_add(1));
    let (kind, behind) = split_word(rest(front, srid));
    let (dimension, coordinates) = split_word(behind);
    let coordinates = if is_one_of(dimension, b"Z M ZM") {
        coordinates
    } else {
        behind
    };
    let has_coordinates = coordinates.starts_with(b"(") || begins(coordinates, b"EMPTY");
    if !is_one_of(kind, GEOMETRIES) || !has_coordinates {
        return None;
    }
    let told = "This is a geometry, {}, and no CRS.";
    filled(told, Filling::Capitals(kind))
}

// `SRID=` with its digits, where a semicolon follows them.
fn srid_of(front: &[u8]) -> Option<&[u8]> {
    let digits = digit_count(rest(front, 5));
    // A longer number is no SRID, and no word that is shown whole.
    let is_begun = begins(front, b"SRID=") && matches!(digits, 1..=35);
    match front.split_at_checked(5usize.saturating_add(digits)) {
        Some((srid, [b';', ..])) if is_begun => Some(srid),
        _ => None,
    }
}

// What a text is that doesn't begin with a node, by its front.
fn by_string(text: &[u8]) -> Option<Hint<'_>> {
    if let Some(srid) = srid_of(text) {
        let told = "{}; is before the text, as in PostGIS: cut it off.";
        filled(told, Filling::Words(srid))
    } else if is_proj_string(text) {
        let told = "This is a PROJ string, which ends in +type=crs where it is a CRS: {}";
        filled(told, Filling::ByProj(transformation_of(text)))
    } else if digit_count(text) == text.len() {
        by_lookup(sentence::CODE, b"EPSG:", text)
    } else if is_code(text) && begins(text, b"EPSG::") {
        by_lookup(sentence::CODE, b"EPSG:", rest(text, 6))
    } else if is_code(text) || is_address(text) {
        by_lookup(sentence::CODE, b"", text)
    } else if begins(text, b"http://") || begins(text, b"https://") {
        said(sentence::ADDRESS)
    } else if is_path(text) {
        said("This is the name of a file, most likely: what is wanted is the text in that file.")
    } else if is_name(text) {
        by_lookup(sentence::NAME, b"", text)
    } else {
        None
    }
}

// What to do with a code, behind these bytes, or a name; one of more bytes than are shown of a word isn't written out.
fn by_lookup<'a>(told: &'static str, authority: &'static [u8], word: &'a [u8]) -> Option<Hint<'a>> {
    let word = if word.len() <= SHOWN {
        Filling::Argument(authority, word)
    } else {
        Filling::Words(b"CODE")
    };
    filled(told, word)
}

// `+proj=utm ..`, also without plus signs, or with `init=`, or with other words before.
fn is_proj_string(text: &[u8]) -> bool {
    let mut words = text.split(|it| it.is_ascii_whitespace());
    begins(without_plus(text), b"init=") || words.any(|it| begins(without_plus(it), b"proj="))
}

fn without_plus(text: &[u8]) -> &[u8] {
    text.strip_prefix(b"+").unwrap_or(text)
}

const TRANSFORMATIONS: [&[u8]; 3] = [b"towgs84", b"nadgrids", b"geoidgrids"];

// The word of a PROJ string that asks for a transformation, such as `+towgs84`; empty where there is none.
fn transformation_of(text: &[u8]) -> &[u8] {
    for at in 0..text.len() {
        let word = rest(text, at);
        let name = without_plus(word);
        if let Some(asked) = TRANSFORMATIONS.iter().find(|it| begins(name, it)) {
            let plus = word.len().saturating_sub(name.len());
            return front(word, plus.saturating_add(asked.len()));
        }
    }
    b""
}

// `EPSG:28992`, `OGC:CRS84`, `EPSG:28992+5709`: an authority, and a code, or two with a plus sign between.
fn is_code(text: &[u8]) -> bool {
    let authority = text
        .iter()
        .take_while(|it| is_of_word(**it) || matches!(**it, b'.' | b'-'))
        .count();
    let Some(codes) = rest(text, authority).strip_prefix(b":") else {
        return false;
    };
    let codes = codes.strip_prefix(b":").unwrap_or(codes);
    let mut codes = codes.splitn(2, |it| *it == b'+');
    authority >= 3 && codes.all(|it| !it.is_empty() && word_length(it) == it.len())
}

// `urn:ogc:def:crs:EPSG::4326`, or such a web address, which PROJ takes for a code.
fn is_address(text: &[u8]) -> bool {
    let is_begun = begins(text, b"urn:")
        || begins(text, b"http://www.opengis.net/def/crs/")
        || begins(text, b"https://www.opengis.net/def/crs/");
    is_begun && text.iter().all(|it| it.is_ascii_graphic())
}

// `WGS84`, `WGS 84 / UTM zone 31N`: words, of which one at least has a digit.
fn is_name(text: &[u8]) -> bool {
    let is_of_name = |it: &u8| is_of_word(*it) || matches!(*it, b' ' | b'/' | b'-' | b'+' | b'.');
    let is_begun = matches!(text, [first, ..] if first.is_ascii_alphabetic());
    is_begun && text.iter().all(is_of_name) && text.iter().any(|it| it.is_ascii_digit())
}

// How names of files end.
const ENDINGS: [&[u8]; 12] = [
    b".wkt", b".wkt2", b".prj", b".txt", b".shp", b".gpkg", b".tif", b".tiff", b".json", b".gml",
    b".xml", b".csv",
];

// A file's name: `/..`, `./..`, `~/..`, `../..`, `C:\..`, or one that ends as files do.
fn is_path(text: &[u8]) -> bool {
    match text {
        [b'/', ..] | [b'.' | b'~', b'/', ..] | [b'.', b'.', b'/', ..] => true,
        [drive, b':', b'\\', ..] => drive.is_ascii_alphabetic(),
        _ => {
            ENDINGS.iter().any(|it| ends(text, it))
                && !text.iter().any(|it| matches!(*it, b'[' | b']' | b'(' | b')' | b'"' | b'\n'))
        }
    }
}
