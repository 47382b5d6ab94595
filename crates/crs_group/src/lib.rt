//! Groups of texts: two texts are in one group exactly if their CRSs are the same. Crates above use only places, groups
//! and refusals, or pass a reader and a writer.
#![tactic(auto)]

mod catalogue;
mod digested;
mod group_run;
mod group_text;
mod groups;
pub mod laws;
mod ledger;
mod listing;
mod names;
pub mod pieces;
mod placed;
mod recent;
mod running;
mod summary;

pub use catalogue::{Catalogue, is_blank};
pub use crs_streams::{RunFault, Sink, Source};
pub use group_run::{run_group, run_group_listing, run_group_under};
pub use listing::{Listing, PLAIN};
pub use placed::Placed;
pub use summary::Summary;
