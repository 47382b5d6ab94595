/// What doesn't count, in CRSs that are compared under rules; by default everything counts.
#[derive(Clone, Copy, Debug, Default, PartialEq, Eq)]
pub struct Uncounted {
    /// The names of CRSs.
    pub crs_names: bool,
    /// The names of base CRSs.
    pub base_names: bool,
    /// The names of conversions.
    pub conversion_names: bool,
    /// The names of axes.
    pub axis_names: bool,
    /// Dynamic parts: the epoch of a frame and its deformation model.
    pub dynamics: bool,
    /// Anchors of frames, and their epochs.
    pub anchors: bool,
    /// Geoid models.
    pub geoid_models: bool,
    /// The unit of a base CRS, where the prime meridian is at 0 or has its own unit and each parameter has its own.
    /// Elsewhere it says what a longitude or a parameter means, and counts.
    pub base_units: bool,
    /// Whether a frame is a datum ensemble: an ensemble counts as the frame of its name, without one ` ensemble` at the
    /// end, its ellipsoid and its identifiers. Members and accuracy don't count.
    pub ensembles: bool,
    /// The order of axes: they are put in order of their texts, without `ORDER`.
    pub axis_order: bool,
    /// Whether a prime meridian leaves out its unit: one that isn't at 0 gets the unit of its base CRS, or the one that all axes have
    /// that are angles.
    pub meridian_units: bool,
}
