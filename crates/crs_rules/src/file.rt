//! Files that declare rules: their lines, their faults, and what they declare.

pub(crate) mod fault;
pub(crate) mod member;
pub(crate) mod reader;
pub(crate) mod seen;
pub(crate) mod words;
