//! The nodes of a CRS, and CRSs, as nodes that are compared and written by themselves.

mod crs;
mod frame;
mod parts;
