//! The judge of items: one exact walk, which finds the first fault of shape, or else the least check that is broken.
pub(crate) mod node;
pub(crate) mod quick_checks;
pub(crate) mod slots;
