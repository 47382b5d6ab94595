//! Whether two parts are the same: a call for each kind of node.

pub use crate::crs::{
    same_base, same_compound, same_geodetic, same_horizontal, same_projected, same_vertical,
};
pub use crate::frames::{same_datum, same_ellipsoid, same_ensemble, same_frame, same_meridian};
pub use crate::nodes::{same_conversion, same_dynamic, same_method};
pub use crate::{
    same_axis, same_axis_meridian, same_box, same_deformation_model, same_extent, same_geoid_model,
    same_ident, same_member, same_parameter, same_unit, same_usage,
};
