//! Nodes of texts: what is looked up in them, and what is copied from them.

pub mod copied;
pub mod lookup;
pub(crate) mod node;
