//! What `crs_group` and `crs_desk` make their runs of.

pub use crate::group_text::listed_text;
pub use crate::ledger::{Adding, ByCanon, ByForm, Ledger};
pub use crate::running::run_adding;
