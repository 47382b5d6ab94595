//! Rules that say what counts as the same: the form of a text under rules.
//!
//! A text's form is its canonical text's CRS, rewritten by the rules and spelled; texts of equal forms are the same there.
#![tactic(auto)]

mod aliases;
mod file;
mod form;
pub mod laws;
mod rewriting;
mod rules;
mod uncounted;

pub use file::fault::{NO_STATEMENT, NOT_HERE, OTHER_CLASS, REPEATED, RulesFault, RulesRefusal};
pub use file::member::Member;
pub use file::reader::{RulesReader, is_idle, read_rules};
pub use form::{canon_under, read_in_form_order, rewrite_parts};
pub use rules::{Rules, Under};
pub use uncounted::Uncounted;
