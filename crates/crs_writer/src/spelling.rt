//! Writers: each appends the text of the one form of a node to `out`, of the node's parts, which are parts of a value or
//! are read from an item. Out of memory, nothing is promised of `out`; the public calls cut it back.

pub(crate) mod conversion;
pub(crate) mod crs;
pub(crate) mod frame;
pub(crate) mod frame_parts;
pub(crate) mod idents_and_units;
pub(crate) mod system;
pub(crate) mod tail;
