//! A key for a cache.

use crs_canon::{Canon, canon};
use crs_text::Fault;
use crs_value::Level;
use indexmap::IndexMap;
use std::alloc::{AllocError, Global};

/// The number of a text's CRS in a cache, as CRSs come: one number for two texts exactly if they spell one CRS.
pub fn number_of(
    alloc: Global,
    cache: &mut IndexMap<Canon, usize>,
    text: &[u8],
) -> Result<usize, Fault> {
    let key = canon(alloc, text, Level::Full)?;
    if let Some(number) = cache.get(&key) {
        return Ok(*number);
    }
    add(cache, key).map_err(Fault::Memory)
}

fn add(cache: &mut IndexMap<Canon, usize>, key: Canon) -> Result<usize, AllocError> {
    let number = cache.len();
    cache.insert(key, number)?;
    Ok(number)
}
