//! Laws of the one form of values and of normal texts: calls that do nothing, and whose contracts are the laws.

pub mod examples;
mod lower;
pub mod numbers;
pub mod parts;
pub mod sets;
pub mod texts;
