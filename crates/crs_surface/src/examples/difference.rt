//! Two texts and the first part in which they differ.

use crs_same::{Path, first_part};
use crs_text::Fault;
use crs_value::{Crs, Level, read};
use std::alloc::{AllocError, Global};

/// `same`, or the path of the first part in which the CRSs of two texts differ, such as `datum/ellipsoid/flattening`.
pub fn difference<'t>(alloc: Global, first: &'t [u8], second: &'t [u8]) -> Result<String, Fault> {
    match read(alloc, first) {
        Ok(first) => difference_from(alloc, &first, second),
        Err(fault) => Err(fault),
    }
}

// A function that owns two CRSs is slow to prove: the first is lent to one that owns the second.
fn difference_from<'t>(alloc: Global, first: &Crs<'t>, second: &'t [u8]) -> Result<String, Fault> {
    match read(alloc, second) {
        Ok(second) => text_of(alloc, first_part(first, &second, Level::Full)),
        Err(fault) => Err(fault),
    }
}

fn text_of(alloc: Global, path: Option<Path>) -> Result<String, Fault> {
    written(alloc, &path).map_err(Fault::Memory)
}

fn written(alloc: Global, path: &Option<Path>) -> Result<String, AllocError> {
    let mut text = Vec::new(alloc);
    match path {
        None => text.extend_from_slice(b"same")?,
        Some(path) => path.write(&mut text)?,
    }
    String::from_utf8_lossy(alloc, &text)
}
