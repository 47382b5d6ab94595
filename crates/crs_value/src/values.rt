//! The values of nodes, each with its reading.

// The body of a hand-written drop, part by part: a derived one is expanded at each end of a value, which slows proofs.
macro_rules! let_go {
    ($whole:ident: $kind:ident { $($part:ident),* }) => {
        let $kind { $($part: _),* } = $whole;
    };
}

pub(crate) mod compound;
pub(crate) mod conversion;
pub(crate) mod crs;
pub(crate) mod frame;
pub(crate) mod frame_parts;
pub(crate) mod ident;
pub(crate) mod key;
pub(crate) mod level;
pub(crate) mod list;
pub(crate) mod single;
pub(crate) mod system;
pub(crate) mod usage;

use std::alloc::AllocError;

// What is made with memory, which may be refused.
pub(crate) type Made<T> = Result<T, AllocError>;
