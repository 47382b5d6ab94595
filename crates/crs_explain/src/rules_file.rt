//! Rules files, explained: what to write in place of a refused line, and which statements match nothing in some texts.

pub(crate) mod mistake;
mod nodes;
pub(crate) mod used;
