//! Sentences of hints that tables name or that are asked for again, with `{}` where something is filled in.

/// What to do with a text that PROJ reads.
pub(crate) const BY_PROJ: &[u8] =
    b"have PROJ write WKT2:2019 (projinfo --single-line -o WKT2:2019 @FILE 2>&1 | sed 1d). Where PROJ warns, as of a \
    damaged text, the warning stays in front, and crsdesk refuses it.";

// Of files that are no text, or in another encoding.
pub(crate) const BINARY: &str =
    "This is {}, and no text: have GDAL write its CRS (gdalsrsinfo --single-line -o \
    wkt2_2019 FILE). GDAL doesn't tell where a text in the file is damaged.";

pub(crate) const SHAPEFILE: &str =
    "This is a shapefile, and no text: take its CRS from the .prj file beside it.";

pub(crate) const GEOPACKAGE: &str =
    "This is a GeoPackage, or another database: take its CRSs from its table gpkg_spatial_ref_sys.";

pub(crate) const ARCHIVE: &str = "This is {}, and no text: unpack it, and take the file in it.";

pub(crate) const BYTE_ORDER_MARK: &str =
    "A byte order mark is before the text: cut it off (sed '1s/^\\xEF\\xBB\\xBF//' FILE).";

// Of other notations.
pub(crate) const JSON: &str = "This is JSON, most likely PROJJSON: {}";

pub(crate) const XML: &str = "This is XML, most likely GML: have the tool write WKT2:2019.";

pub(crate) const QUOTED: &str =
    "The text is in quotes, as in a table or in JSON: take them off, and halve the doubled ones inside.";

pub(crate) const CODE: &str =
    "This is a code, and nothing is looked up here: have PROJ write WKT2:2019 (projinfo -q \
    --single-line -o WKT2:2019 {}).";

pub(crate) const NAME: &str =
    "This is a name, and nothing is looked up here: have PROJ write WKT2:2019 (projinfo -q \
    --single-line -o WKT2:2019 {}).";

pub(crate) const ADDRESS: &str =
    "This is a web address, and nothing is fetched here: what is wanted is the text that is there.";

// Of classes.
pub(crate) const BOUND: &str = "A BOUNDCRS isn't read. Its source CRS is, as by pyproj \
    (CRS(text).source_crs.to_wkt()), which loses the transformation: keep the transformation as part of a key.";

pub(crate) const CLASS: &str = "{} aren't read.";

pub(crate) const OPERATION: &str = "A coordinate operation is no CRS.";

pub(crate) const METADATA: &str =
    "Take the CRS in it, which loses the epoch of the coordinates: keep that as part of a key.";

// Of nodes that aren't read.
pub(crate) const KEYWORD: &str =
    "{}: have the tool write WKT2:2019, or leave the node out where you don't need it.";

pub(crate) const TRANSFORMATION: &str =
    "TOWGS84 is WKT1's, and no part of a CRS: where you leave the node out, keep \
    the transformation as part of a key.";

// Of characters.
pub(crate) const TYPOGRAPHIC_QUOTE: &str = "This is a typographic quote: write straight ones (\").";

pub(crate) const LETTER: &str =
    "This is a {} letter, which may look like a Latin one: outside quotes write Latin letters.";

pub(crate) const SPACE: &str = "This is a {}: outside quotes write blanks.";

pub(crate) const XML_QUOTE: &str =
    "Its quotes are written as in XML or HTML (&quot;): put straight ones (sed 's/&quot;/\"/g' FILE).";

pub(crate) const ESCAPED_QUOTE: &str =
    "Its quotes are escaped (\\\"), as in JSON or in a program's source: take \
    them off (sed 's/\\\\\"/\"/g' FILE).";
