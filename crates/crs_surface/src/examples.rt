//! The library's calls, task by task, over the parts of a row. `docs/CALLING.md` shows functions of the other files.
mod difference;
mod faults;
mod key;

use crate::answer::Answer;
use crate::row::Row;
use indexmap::IndexMap;

/// What the functions of an example, `key` or `difference`, return for the parts of a row.
pub fn put_example(out: &mut Answer, row: &Row<'_>, name: &str) {
    match name {
        "key" => put_keys(out, row),
        _ => put_difference(out, row),
    }
}

// `same`, or where the CRSs of two parts differ, or why one of them is refused.
fn put_difference(out: &mut Answer, row: &Row<'_>) {
    match difference::difference(out.alloc(), row.part(0), row.part(1)) {
        Ok(text) => out.put(text.as_str()),
        Err(fault) => write!(out, "{fault}"),
    }
}

// The number of each part in one cache, or what to tell of it, with `; ` behind each.
fn put_keys(out: &mut Answer, row: &Row<'_>) {
    let mut cache = IndexMap::new(out.alloc());
    for index in 0..row.count() {
        let text = row.part(index);
        match key::number_of(out.alloc(), &mut cache, text) {
            Ok(number) => write!(out, "entry {number}"),
            Err(fault) => {
                if let Some(told) = out.made(faults::told(out.alloc(), text, &fault)) {
                    out.put(told.as_str());
                }
            }
        }
        out.put("; ");
    }
}
