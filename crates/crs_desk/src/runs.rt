//! The runs of the commands over their sources.

pub(crate) mod answer;
pub(crate) mod digest;
pub(crate) mod explain;
pub(crate) mod files;
pub(crate) mod group_files;
pub(crate) mod line_output;
pub(crate) mod lines;
pub(crate) mod manner;
pub(crate) mod pair;
pub(crate) mod reading;
pub(crate) mod rules;
pub(crate) mod same;
pub(crate) mod text;
pub(crate) mod under;
