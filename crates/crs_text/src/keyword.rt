//! Keywords: the words that the grammar of well-known text gives a meaning, found by their spelling.
ghost use Rattle.std.specs.Prelude.{◌≡◌, ℕ, ◌≤◌, ◌<◌, IsTrue, IfSome, length, map, take};
ghost use Rattle.std.specs.Char.{to_ascii_lowercase};
ghost use Rattle.std.specs.Str.{str_eq_ignore_ascii_case};
ghost use Rattle.crs_text.specs.Keywords.{keyword_of, spelling_of};
ghost use Rattle.crs_text.specs.inner.KeywordTable.{as_spelled, spelled, of_length, first_among, is_capital, AreSuspects};
ghost use Rattle.std.specs.List.{list_all};

use crate::lexing::front_of;
use crate::runs::first_set;
use std::simd::prelude::*;

/// A keyword, under its spelling, letter case aside. ISO 19162:2019; what each means is the profile's choice.
#[derive(Clone, Copy, Debug, PartialEq, Eq)]
pub enum Keyword {
    /// `ID`: identifier.
    Id,
    /// `CS`: coordinate system.
    Cs,
    /// `TRF`: geodetic reference frame.
    Trf,
    /// `VRF`: vertical reference frame.
    Vrf,
    /// `URI`: identifier's URI.
    Uri,
    /// `AXIS`: axis.
    Axis,
    /// `BBOX`: bounding box.
    BBox,
    /// `AREA`: area.
    Area,
    /// `UNIT`: unit that doesn't say its kind.
    PlainUnit,
    /// `ORDER`: axis's place in the order.
    Order,
    /// `SCOPE`: scope.
    Scope,
    /// `USAGE`: usage.
    Usage,
    /// `DATUM`: geodetic reference frame.
    Datum,
    /// `MODEL`: deformation model.
    Model,
    /// `MEMBER`: member of an ensemble.
    Member,
    /// `PRIMEM`: prime meridian.
    PrimeM,
    /// `METHOD`: method of a map projection.
    Method,
    /// `VDATUM`: vertical reference frame.
    VDatum,
    /// `REMARK`: remark.
    Remark,
    /// `ANCHOR`: anchor.
    Anchor,
    /// `GEOGCRS`: geographic CRS.
    GeogCrs,
    /// `PROJCRS`: projected CRS.
    ProjCrs,
    /// `GEODCRS`: geodetic CRS.
    GeodCrs,
    /// `VERTCRS`: vertical CRS.
    VertCrs,
    /// `DYNAMIC`: what a dynamic frame says.
    Dynamic,
    /// `ENSEMBLE`: datum ensemble.
    Ensemble,
    /// `MERIDIAN`: meridian of an axis.
    Meridian,
    /// `SPHEROID`: ellipsoid.
    Spheroid,
    /// `CITATION`: citation.
    Citation,
    /// `ANGLEUNIT`: unit of angle.
    AngleUnit,
    /// `PARAMETER`: parameter.
    Parameter,
    /// `ELLIPSOID`: ellipsoid.
    Ellipsoid,
    /// `SCALEUNIT`: unit of scale.
    ScaleUnit,
    /// `LENGTHUNIT`: unit of length.
    LengthUnit,
    /// `CONVERSION`: map projection.
    Conversion,
    /// `PROJECTION`: method of a map projection.
    Projection,
    /// `GEOIDMODEL`: geoid model.
    GeoidModel,
    /// `FRAMEEPOCH`: epoch of a dynamic frame.
    FrameEpoch,
    /// `BASEGEOGCRS`: base CRS.
    BaseGeogCrs,
    /// `BASEGEODCRS`: base CRS.
    BaseGeodCrs,
    /// `COMPOUNDCRS`: compound CRS.
    CompoundCrs,
    /// `GEODETICCRS`: geodetic CRS.
    GeodeticCrs,
    /// `VERTICALCRS`: vertical CRS.
    VerticalCrs,
    /// `ANCHOREPOCH`: epoch of an anchor.
    AnchorEpoch,
    /// `PROJECTEDCRS`: projected CRS.
    ProjectedCrs,
    /// `VELOCITYGRID`: deformation model.
    VelocityGrid,
    /// `PRIMEMERIDIAN`: prime meridian.
    PrimeMeridian,
    /// `GEODETICDATUM`: geodetic reference frame.
    GeodeticDatum,
    /// `VERTICALDATUM`: vertical reference frame.
    VerticalDatum,
    /// `GEOGRAPHICCRS`: geographic CRS.
    GeographicCrs,
    /// `VERTICALEXTENT`: extent in height.
    VerticalExtent,
    /// `ENSEMBLEACCURACY`: accuracy of an ensemble.
    EnsembleAccuracy,
}

// The bit in which a small letter differs from its capital.
const SMALL: u8 = 0x20;

// The keywords with their bytes, in capitals, by how many these are; within a length the frequent ones go first.
// A macro makes each table from these rows. The prover holds the bytes in those of `suspects` against these spellings.
macro_rules! keywords {
    ($table:ident, $asked:expr) => {
        $table! {
            $asked;
            2 { Id: b"ID", Cs: b"CS" }
            3 { Trf: b"TRF", Vrf: b"VRF", Uri: b"URI" }
            4 { Axis: b"AXIS", BBox: b"BBOX", Area: b"AREA", PlainUnit: b"UNIT" }
            5 { Order: b"ORDER", Scope: b"SCOPE", Usage: b"USAGE", Datum: b"DATUM", Model: b"MODEL" }
            6 {
                Member: b"MEMBER",
                PrimeM: b"PRIMEM",
                Method: b"METHOD",
                VDatum: b"VDATUM",
                Remark: b"REMARK",
                Anchor: b"ANCHOR"
            }
            7 {
                GeogCrs: b"GEOGCRS",
                ProjCrs: b"PROJCRS",
                GeodCrs: b"GEODCRS",
                VertCrs: b"VERTCRS",
                Dynamic: b"DYNAMIC"
            }
            8 {
                Ensemble: b"ENSEMBLE",
                Meridian: b"MERIDIAN",
                Spheroid: b"SPHEROID",
                Citation: b"CITATION"
            }
            9 {
                AngleUnit: b"ANGLEUNIT",
                Parameter: b"PARAMETER",
                Ellipsoid: b"ELLIPSOID",
                ScaleUnit: b"SCALEUNIT"
            }
            10 {
                LengthUnit: b"LENGTHUNIT",
                Conversion: b"CONVERSION",
                Projection: b"PROJECTION",
                GeoidModel: b"GEOIDMODEL",
                FrameEpoch: b"FRAMEEPOCH"
            }
            11 {
                BaseGeogCrs: b"BASEGEOGCRS",
                BaseGeodCrs: b"BASEGEODCRS",
                CompoundCrs: b"COMPOUNDCRS",
                GeodeticCrs: b"GEODETICCRS",
                VerticalCrs: b"VERTICALCRS",
                AnchorEpoch: b"ANCHOREPOCH"
            }
            12 { ProjectedCrs: b"PROJECTEDCRS", VelocityGrid: b"VELOCITYGRID" }
            13 {
                PrimeMeridian: b"PRIMEMERIDIAN",
                GeodeticDatum: b"GEODETICDATUM",
                VerticalDatum: b"VERTICALDATUM",
                GeographicCrs: b"GEOGRAPHICCRS"
            }
            14 { VerticalExtent: b"VERTICALEXTENT" }
            16 { EnsembleAccuracy: b"ENSEMBLEACCURACY" }
        }
    };
}

// A keyword and its spelling in capitals.
#[derive(Clone, Copy)]
struct Spelling {
    word: &'static [u8],
    keyword: Keyword,
}

// the keywords of a length
macro_rules! by_length {
    ($length:expr; $($bytes:literal { $($keyword:ident: $word:literal),* })*) => {
        match $length {
            $($bytes => &[$(Spelling { word: $word, keyword: Keyword::$keyword }),*],)*
            _ => &[],
        }
    };
}

// the spelling of a keyword
macro_rules! by_keyword {
    ($asked:expr; $($bytes:literal { $($keyword:ident: $word:literal),* })*) => {
        match $asked {
            $($(Keyword::$keyword => $word,)*)*
        }
    };
}

fn of_length(length: usize) -> &'static [Spelling]
    ensures { map as_spelled result.now ≡ map spelled (of_length length) }
{
    keywords!(by_length, length)
}

impl Keyword {
    /// The keyword that this word is, letter case aside; `None` where it is none.
    #[inline(never)]
    pub fn of(word: &[u8]) -> Option<Keyword>
        ensures { result ≡ keyword_of word.now }
    {
        first_among(of_length(word.len()), word)
    }

    /// How the keyword is spelled, in capitals.
    pub fn spelling(self) -> &'static [u8]
        ensures { result.now ≡ spelling_of self }
    {
        keywords!(by_keyword, self)
    }
}

/// How many bytes a keyword has at most, and how many of a word are looked at at once.
const LANES: usize = 16;

// A word in capitals with spaces behind it, how many letters it has, and the keyword that it is, if it is one.
#[derive(Clone, Copy)]
struct Suspect {
    letters: &'static [u8],
    length: usize,
    keyword: Option<Keyword>,
}

// a word: the keyword that it is, or `None`, its length and its letters; `_` is `ID`
macro_rules! suspect {
    (_) => { suspect!((Id 2 b"ID              ")) };
    ((None $length:literal $letters:literal)) => {
        Suspect { letters: $letters, length: $length, keyword: None }
    };
    (($keyword:ident $length:literal $letters:literal)) => {
        Suspect { letters: $letters, length: $length, keyword: Some(Keyword::$keyword) }
    };
}

// rows of such words
macro_rules! by_fingerprint {
    ($($row:tt)*) => {
        &[$(suspect!($row)),*]
    };
}

// For each fingerprint, from 0 on, the keyword that has it, or another word that comes often; `_`, for neither, is `ID`.
#[inline(always)]
fn suspects() -> &'static [Suspect]
    ensures rows { AreSuspects result.now }
    ensures count { length result.now ≡ 128 }
{
    by_fingerprint! {
        _ _ _
        _ (LengthUnit 10 b"LENGTHUNIT      ") _
        _ (BaseGeogCrs 11 b"BASEGEOGCRS     ") _
        (ProjectedCrs 12 b"PROJECTEDCRS    ") (None 11 b"GEOCENTRICX     ") _
        _ _ _
        _ (None 8 b"VERTICAL        ") _
        (BaseGeodCrs 11 b"BASEGEODCRS     ") _ (AnchorEpoch 11 b"ANCHOREPOCH     ")
        (BBox 4 b"BBOX            ") (GeodCrs 7 b"GEODCRS         ") (VerticalCrs 11 b"VERTICALCRS     ")
        (VelocityGrid 12 b"VELOCITYGRID    ") _ _
        _ (CompoundCrs 11 b"COMPOUNDCRS     ") (None 4 b"WEST            ")
        _ (VerticalExtent 14 b"VERTICALEXTENT  ") (Projection 10 b"PROJECTION      ")
        (GeogCrs 7 b"GEOGCRS         ") _ (Trf 3 b"TRF             ")
        _ (None 11 b"ELLIPSOIDAL     ") _
        (Method 6 b"METHOD          ") _ _
        _ _ (None 9 b"SPHERICAL       ")
        (Parameter 9 b"PARAMETER       ") (Usage 5 b"USAGE           ") _
        (GeodeticCrs 11 b"GEODETICCRS     ") _ (GeographicCrs 13 b"GEOGRAPHICCRS   ")
        (FrameEpoch 10 b"FRAMEEPOCH      ") _ _
        (Ensemble 8 b"ENSEMBLE        ") _ (Member 6 b"MEMBER          ")
        _ _ _
        (Datum 5 b"DATUM           ") (None 2 b"UP              ") _
        _ _ (None 9 b"CARTESIAN       ")
        (ScaleUnit 9 b"SCALEUNIT       ") (VDatum 6 b"VDATUM          ") (Scope 5 b"SCOPE           ")
        (Spheroid 8 b"SPHEROID        ") _ (VerticalDatum 13 b"VERTICALDATUM   ")
        _ (Conversion 10 b"CONVERSION      ") (PrimeMeridian 13 b"PRIMEMERIDIAN   ")
        (ProjCrs 7 b"PROJCRS         ") (Axis 4 b"AXIS            ") (Citation 8 b"CITATION        ")
        (None 4 b"DOWN            ") _ (PrimeM 6 b"PRIMEM          ")
        (None 5 b"NORTH           ") (Vrf 3 b"VRF             ") _
        _ _ (Area 4 b"AREA            ")
        _ _ _
        (None 4 b"EAST            ") _ _
        _ _ _
        (GeodeticDatum 13 b"GEODETICDATUM   ") _ (Cs 2 b"CS              ")
        (VertCrs 7 b"VERTCRS         ") _ _
        _ _ (Uri 3 b"URI             ")
        _ _ (Dynamic 7 b"DYNAMIC         ")
        _ (Anchor 6 b"ANCHOR          ") _
        (AngleUnit 9 b"ANGLEUNIT       ") _ _
        (Model 5 b"MODEL           ") (PlainUnit 4 b"UNIT            ") (EnsembleAccuracy 16 b"ENSEMBLEACCURACY")
        (None 5 b"SOUTH           ") (Ellipsoid 9 b"ELLIPSOID       ") (Remark 6 b"REMARK          ")
        (Meridian 8 b"MERIDIAN        ") _ (Order 5 b"ORDER           ")
        _ _ _
        _ (GeoidModel 10 b"GEOIDMODEL      ")
    }
}

// The bits of eight letters that tell one from another, letter case aside.
const LETTERS: u64 = 0x1f1f_1f1f_1f1f_1f1f;

// none, and then the last of these bits, without so many in front
macro_rules! kept {
    ($($without:literal)*) => { [0, $(LETTERS >> $without),*] };
}

// By the length of a word those of its first eight letters.
const KEPT: [u64; 17] = kept!(56 48 40 32 24 16 8 0 0 0 0 0 0 0 0 0);

// A number for the word of so many bytes in front, letter case aside, which differs from keyword to keyword: it is made
// of the first eight letters and the length.
#[inline(always)]
fn fingerprint(left: &[u8], count: usize) -> usize
    requires within { count ≤ 16 }
    requires room { 16 ≤ length left.now }
    ensures { result < 128 }
{
    let front = u64x2::from_le_bytes(u8x16::from_slice(left))[0];
    let letters = (front & KEPT[count]).wrapping_add(count as u64);
    (letters.wrapping_mul(0xaf8b_4907_579f_89a3) >> 57) as usize % 128
}

// How many lanes come before the first where the bytes aren't these capitals, letter case aside.
#[inline(always)]
fn same_lanes(block: u8x16, letters: u8x16) -> usize
    ensures { (n : ℕ) → n ≤ result → IsTrue (list_all is_capital (take n letters)) →
        map to_ascii_lowercase (take n letters) ≡ map to_ascii_lowercase (take n block) }
{
    first_set((block & u8x16::splat(!SMALL)).simd_ne(letters).to_bitmask())
}

// The keyword that the word of so many bytes in front is, or that it is none, where that is seen at one look.
#[inline(always)]
fn suspected(left: &[u8], count: usize) -> Option<Option<Keyword>>
    ensures { IfSome result (λ found. keyword_of (take count left.now) ≡ found) }
{
    if left.len() < LANES || count > LANES {
        return None;
    }
    let suspect = &suspects()[fingerprint(left, count)];
    if suspect.length == count
        && same_lanes(u8x16::from_slice(left), u8x16::from_slice(suspect.letters)) >= count
    {
        Some(suspect.keyword)
    } else {
        None
    }
}

/// The keyword that the first bytes are, as many as `count` says, letter case aside; `None` where they are none.
#[inline(always)]
pub(crate) fn front_keyword(left: &[u8], count: usize) -> Option<Keyword>
    requires { count ≤ length left.now }
    ensures { result ≡ keyword_of (take count left.now) }
{
    // The shortest keyword has two letters.
    if count == 1 {
        return None;
    }
    match suspected(left, count) {
        Some(found) => found,
        None => Keyword::of(front_of(left, count)),
    }
}

fn first_among(spellings: &[Spelling], word: &[u8]) -> Option<Keyword>
    ensures { result ≡ first_among (map as_spelled spellings.now) word.now }
{
    for spelling in spellings {
        if same_word(spelling.word, word) {
            return Some(spelling.keyword);
        }
    }
    None
}

fn same_word(letters: &[u8], word: &[u8]) -> bool
    ensures { result ≡ str_eq_ignore_ascii_case letters.now word.now }
{
    letters.eq_ignore_ascii_case(word)
}
