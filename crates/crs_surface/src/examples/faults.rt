//! The message for a user if there is no answer.

use crs_text::Fault;
use std::alloc::{AllocError, Global};

/// The message for a user: a refusal's number, name, place and the text from there on; or that memory ran out.
pub fn told(alloc: Global, text: &[u8], fault: &Fault) -> Result<String, AllocError> {
    match fault.refusal() {
        Some(refusal) => {
            let (number, name, place) = (refusal.number(), refusal.name(), refusal.place());
            let rest = String::from_utf8_lossy(alloc, text.get(place..).unwrap_or(&[]))?;
            format!(in alloc; "{number} {name} at byte {place}, before {rest:?}")
        }
        None => String::from_str(alloc, "no memory; the call may be made again"),
    }
}
