//! Coordinate reference systems, and the reading of whole texts.
ghost use Rattle.std.specs.Prelude.{◌≡◌, MatchResult};
ghost use Rattle.crs_value.specs.ReadsCrs.{kind_by, kind_of, ReadsCrs};
ghost use Rattle.crs_shape.specs.Keywords.{root_classes};
ghost use Rattle.crs_value.specs.inner.Cursor.{item};
ghost use Rattle.crs_value.specs.inner.ReadOnce.{IsSound};
ghost use Rattle.crs_value.specs.inner.Arguments.{IsAmong};
ghost use Rattle.crs_value.specs.Spells.{IsFaultOf};
ghost use Rattle.crs_value.specs.declared.values.crs.Crs.{Crs};

use crate::reading::{Cursor, FromNode};
use crate::values::system::system_type_of;
use crate::{Compound, Geodetic, Projected, Vertical};
use crs_shape::{Class, SystemType};
use crs_text::Fault;
use std::alloc::Global;

/// A coordinate reference system. ISO 19162:2019, "Coordinate reference systems".
#[derive(Drop)]
pub enum Crs<'a> {
    /// A geodetic or geographic CRS.
    Geodetic(Geodetic<'a>),
    /// A projected CRS.
    Projected(Projected<'a>),
    /// A vertical CRS.
    Vertical(Vertical<'a>),
    /// A compound CRS.
    Compound(Compound<'a>),
}

/// What a coordinate reference system is. ISO 19162:2019, "Coordinate reference systems".
#[derive(Clone, Copy, Debug, PartialEq, Eq)]
pub enum Kind {
    /// Geodetic, and not geographic.
    Geodetic,
    /// Geographic: geodetic with an ellipsoidal system.
    Geographic,
    /// Projected.
    Projected,
    /// Vertical.
    Vertical,
    /// Compound: horizontal and vertical.
    Compound,
}

impl Crs<'_> {
    /// What the system is: a geodetic CRS is geographic exactly if its coordinate system is ellipsoidal.
    pub fn kind(&self) -> Kind
        ensures { result ≡ kind_of self.now }
    {
        match self {
            Crs::Geodetic(geodetic) => geodetic_kind(geodetic.system.system_type),
            Crs::Projected(_) => Kind::Projected,
            Crs::Vertical(_) => Kind::Vertical,
            Crs::Compound(_) => Kind::Compound,
        }
    }
}

/// The kind of a geodetic or geographic CRS with a system of this type. ISO 19162:2019, "Coordinate reference systems".
pub fn geodetic_kind(system_type: SystemType) -> Kind
    ensures { result ≡ kind_by system_type }
{
    match system_type {
        SystemType::Ellipsoidal => Kind::Geographic,
        SystemType::Cartesian | SystemType::Spherical | SystemType::Vertical => Kind::Geodetic,
    }
}

// The CRS that `make` makes of a value of one kind; the only fault is out of memory. A function clears the memory of
// all its locals when it is entered. So each kind has an instance, not inlined, whose value goes at once to its place.
#[inline(never)]
fn read_kind<'a, T: FromNode<'a>, F: FnOnce(T) -> Crs<'a>>(
    alloc: Global,
    node: &Cursor<'_, 'a>,
    make: F,
) -> Result<Crs<'a>, Fault>
    requires suits { T.Suits node.now.class }
    requires sound { IsSound node.now.class (item node.now) }
    requires make { F.IsAlwaysCallable make }
    ensures { MatchResult result (λ crs. (value : T) × T.Reads node.now.class (item node.now) value × F.post make value crs)
        (IsFaultOf node.now.items.now) }
{
    match T::read(alloc, node) {
        Ok(value) => Ok(make(value)),
        Err(error) => Err(Fault::Memory(error)),
    }
}

// The value of a whole text of this class; a fault is out of memory.
pub(crate) fn read_crs<'a>(alloc: Global, node: &Cursor<'_, 'a>) -> Result<Crs<'a>, Fault>
    requires sound { IsSound node.now.class (item node.now) }
    requires root { IsAmong root_classes node.now.class }
    ensures { MatchResult result (ReadsCrs node.now.class (item node.now)) (IsFaultOf node.now.items.now) }
{
    match node.class {
        Class::GeodeticCrs | Class::GeographicCrs => read_kind(alloc, node, Crs::Geodetic),
        Class::ProjectedCrs => read_kind(alloc, node, Crs::Projected),
        Class::VerticalCrs => read_kind(alloc, node, Crs::Vertical),
        Class::CompoundCrs => read_kind(alloc, node, Crs::Compound),
        _ => unreachable!(),
    }
}

// The kind of a whole text of this class.
pub(crate) fn kind_of_root(node: &Cursor<'_, '_>) -> Kind
    requires sound { IsSound node.now.class (item node.now) }
    requires root { IsAmong root_classes node.now.class }
    ensures { (value : Crs) → ReadsCrs node.now.class (item node.now) value → result ≡ kind_of value }
{
    match node.class {
        Class::GeodeticCrs | Class::GeographicCrs => geodetic_kind(system_type_of(node)),
        Class::ProjectedCrs => Kind::Projected,
        Class::VerticalCrs => Kind::Vertical,
        Class::CompoundCrs => Kind::Compound,
        _ => unreachable!(),
    }
}
