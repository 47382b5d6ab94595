//! The one spelling of a CRS: which texts are normal, and that each CRS has just one.
#![tactic(auto)]

pub mod laws;
