//! Values of texts: what a text of the right shape says, exactly as it is written, or the check that it breaks.
//! Crates above compare values; canonical texts are also written straight from the items of an accepted text.
#![tactic(auto)]

mod checks;
mod judging;
pub mod laws;
mod reading;
mod values;

pub use crs_shape::{Direction, SystemType, UnitKind};
pub use reading::value::{judge, kind_of, read, value_of};
pub(crate) use values::Made;
pub use values::compound::{Compound, Horizontal};
pub use values::conversion::{Conversion, Parameter};
pub use values::crs::{Crs, Kind, geodetic_kind};
pub use values::frame::{Datum, Ensemble, Frame};
pub use values::frame_parts::{Dynamic, Ellipsoid, Meridian};
pub use values::ident::{DeformationModel, GeoidModel, Ident, Member, Method, Named};
pub use values::key::{CounterpartHint, CounterpartHints};
pub use values::level::Level;
pub use values::list::{Change, List};
pub use values::single::{Base, Geodetic, Projected, Vertical};
pub use values::system::{Axis, AxisMeridian, System, Unit};
pub use values::usage::{BoundingBox, Extent, Tail, Usage};
