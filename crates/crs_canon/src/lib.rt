//! Canonical texts: the one spelling of a CRS, written.
#![tactic(auto)]

mod answer;
mod canonical;
mod content;
mod lacking;
pub mod laws;
mod named;
mod set_view;
mod spelling;

pub use answer::canon_of;
pub use canonical::Canonical;
pub use content::{append_unit, write_content};
pub use crs_writer::{Canon, canon, canon_in};
pub use lacking::append_lacking_members;
pub use named::{append_unpaired, named_once, paired_names};
pub use set_view::Set;
