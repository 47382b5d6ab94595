//! The steps of a path.
ghost use Rattle.std.specs.Prelude.{◌≡◌, ◌++◌, length, take, OnOk};
ghost use Rattle.crs_same.specs.Paths.{step_text};
ghost use Rattle.crs_same.specs.inner.Steps.{step_digits};

use itoa::Buffer;
use std::alloc::AllocError;

/// One step of a path: a part, and for an axis its position in the system, from 1. Profile.
#[derive(Clone, Copy, Debug, PartialEq, Eq)]
pub enum Step {
    /// What the CRS is; for a datum, whether it is a frame or an ensemble.
    Kind,
    /// The name.
    Name,
    /// The reference frame or the ensemble.
    Datum,
    /// The prime meridian; for an axis, the meridian that it goes along.
    Meridian,
    /// The coordinate system.
    System,
    /// The usages.
    Usage,
    /// The identifiers.
    Id,
    /// The remark.
    Remark,
    /// The base CRS of a projected one.
    Base,
    /// The conversion from the base CRS.
    Conversion,
    /// The geoid models.
    Geoid,
    /// The horizontal CRS of a compound one.
    Horizontal,
    /// The vertical CRS of a compound one.
    Vertical,
    /// The unit.
    Unit,
    /// The ellipsoid.
    Ellipsoid,
    /// The anchor of a frame.
    Anchor,
    /// The dynamic part of a CRS.
    Dynamic,
    /// The epoch of a dynamic frame.
    Epoch,
    /// The deformation model of a dynamic frame.
    Model,
    /// The epoch of a frame's anchor.
    AnchorEpoch,
    /// The members of an ensemble.
    Members,
    /// The accuracy of an ensemble.
    Accuracy,
    /// The semi-major axis of an ellipsoid.
    SemiMajor,
    /// The inverse flattening of an ellipsoid.
    Flattening,
    /// The longitude of a prime meridian.
    Longitude,
    /// The type of a coordinate system.
    SystemType,
    /// The dimension of a coordinate system.
    Dimension,
    /// The axis at this position.
    Axis(u64),
    /// The direction of an axis.
    Direction,
    /// The method of a conversion.
    Method,
    /// The parameters of a conversion.
    Parameters,
}

impl Step {
    // The word of any step but an axis, whose position follows its word.
    fn word(self) -> &'static str
        ensures { step_text self ≡ result.now ++ step_digits self }
    {
        match self {
            Step::Kind => "kind",
            Step::Name => "name",
            Step::Datum => "datum",
            Step::Meridian => "meridian",
            Step::System => "system",
            Step::Usage => "usage",
            Step::Id => "id",
            Step::Remark => "remark",
            Step::Base => "base",
            Step::Conversion => "conversion",
            Step::Geoid => "geoid",
            Step::Horizontal => "horizontal",
            Step::Vertical => "vertical",
            Step::Unit => "unit",
            Step::Ellipsoid => "ellipsoid",
            Step::Anchor => "anchor",
            Step::Dynamic => "dynamic",
            Step::Epoch => "epoch",
            Step::Model => "model",
            Step::AnchorEpoch => "anchorepoch",
            Step::Members => "members",
            Step::Accuracy => "accuracy",
            Step::SemiMajor => "semimajor",
            Step::Flattening => "flattening",
            Step::Longitude => "longitude",
            Step::SystemType => "type",
            Step::Dimension => "dimension",
            Step::Axis(_) => "axis",
            Step::Direction => "direction",
            Step::Method => "method",
            Step::Parameters => "parameters",
        }
    }

    // Appends the word, and an axis's position.
    pub(crate) fn write(self, out: &mut Vec<u8>) -> Result<(), AllocError>
        ensures ok { OnOk result (out.new.items ≡ out.old.items ++ step_text self) }
        ensures front { take (length out.old.items) out.new.items ≡ out.old.items }
    {
        out.extend_from_slice(self.word().as_bytes())?;
        match self {
            Step::Axis(position) => {
                let mut digits = Buffer::new();
                out.extend_from_slice(digits.format(position).as_bytes())
            }
            _ => Ok(()),
        }
    }
}
