//! Exact decimals within bounds: read, compared and written without rounding.
#![tactic(auto)]

mod cutting;
mod decimal;
mod fault;
pub mod laws;
mod mantissa;
mod plain;
mod reading;
mod short;
mod writing;

pub use decimal::Decimal;
pub use fault::NumberFault;
pub use plain::{are_digits, is_plain, plain_of};
