//! Nodes and other items of a statement or of a text.
ghost use Rattle.std.specs.Prelude.{IfSome};
ghost use Rattle.crs_text.specs.Items.{HasId};

use crs_text::{ItemId, Items, Keyword};

/// The argument of a statement that begins at a place.
pub(crate) fn argument_at(items: &Items<'_>, place: usize) -> Option<ItemId>
    ensures { IfSome result (HasId items.now) }
{
    let root = items.root();
    let mut at = items.arg(root, 0);
    for turn in 0..items.arg_count(root) {
        let id = at?;
        if !items.contains(id) {
            return None;
        }
        if items.place(id) == place {
            return Some(id);
        }
        at = items.next(id);
    }
    None
}

/// A node as it is written.
pub(crate) fn node_text<'l>(line: &'l [u8], items: &Items<'_>, id: ItemId) -> &'l [u8]
    requires { HasId items.now id }
{
    let end = items.close(id).unwrap_or(0).saturating_add(1);
    line.get(items.place(id)..end).unwrap_or(b"")
}

/// Whether a keyword is of a unit.
pub(crate) fn is_unit(keyword: Option<Keyword>) -> bool {
    matches!(
        keyword,
        Some(Keyword::LengthUnit | Keyword::AngleUnit | Keyword::ScaleUnit | Keyword::PlainUnit)
    )
}

/// Whether nodes of a keyword may count as one.
pub(crate) fn is_subject(keyword: Option<Keyword>) -> bool {
    is_unit(keyword) || is_named(keyword)
}

/// Whether they do so only by their names.
pub(crate) fn is_named(keyword: Option<Keyword>) -> bool {
    matches!(
        keyword,
        Some(
            Keyword::Datum
                | Keyword::Trf
                | Keyword::GeodeticDatum
                | Keyword::VDatum
                | Keyword::Vrf
                | Keyword::VerticalDatum
                | Keyword::Member
                | Keyword::Ellipsoid
                | Keyword::Spheroid
                | Keyword::PrimeM
                | Keyword::PrimeMeridian
                | Keyword::Method
                | Keyword::Projection
                | Keyword::Parameter
                | Keyword::GeoidModel
                | Keyword::Model
                | Keyword::VelocityGrid
                | Keyword::Axis
        )
    )
}

/// Whether a keyword is of a CRS or a base CRS.
pub(crate) fn is_crs(keyword: Option<Keyword>) -> bool {
    matches!(
        keyword,
        Some(
            Keyword::GeogCrs
                | Keyword::GeographicCrs
                | Keyword::GeodCrs
                | Keyword::GeodeticCrs
                | Keyword::ProjCrs
                | Keyword::ProjectedCrs
                | Keyword::VertCrs
                | Keyword::VerticalCrs
                | Keyword::CompoundCrs
                | Keyword::BaseGeogCrs
                | Keyword::BaseGeodCrs
        )
    )
}
