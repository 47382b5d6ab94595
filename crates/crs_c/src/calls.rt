//! What the calls of C return, over values that Rust knows.

pub(crate) mod buffer;
pub(crate) mod canon;
pub(crate) mod catalogue;
pub(crate) mod codes;
pub(crate) mod comparison;
pub(crate) mod explain;
pub(crate) mod piece;
pub(crate) mod refused;
pub(crate) mod rules;
