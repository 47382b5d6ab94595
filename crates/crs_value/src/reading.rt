//! The reading of a text's value: its arguments by their class, node by node, and the whole.

pub(crate) mod arguments;
pub(crate) mod cursor;
pub(crate) mod firsts;
pub(crate) mod node;
pub(crate) mod value;

pub(crate) use crate::reading::arguments::{first, first_from, later, same_place};
pub(crate) use crate::reading::cursor::Cursor;
pub(crate) use crate::reading::firsts::{Firsts, firsts_of};
pub(crate) use crate::reading::node::{FromNode, decimal_of, has_whole, number, required};
