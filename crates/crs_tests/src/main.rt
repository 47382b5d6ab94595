//! The program of the gate's tests of calls: it runs the rows of `data`, in the form of `tests/rows.py`. With a word it
//! makes one call that takes memory, which standard input names.
#![tactic(auto)]

mod rows;
mod trials;
mod turn;

use anyhow::Result;
use crs_surface::Row;
use std::env;
use std::io::Read;

fn main(rt: HostRuntime) -> Result<()> {
    let words: Vec<String> = env::args(&rt)?.collect(rt.alloc())?;
    if words.len() > 1 {
        let mut bytes = Vec::new(rt.alloc());
        rt.stdin().read_to_end(&mut bytes)?;
        trials::try_call(&rt, &Row::of(rt.alloc(), &bytes)?)?;
        return Ok(());
    }
    for name in "numbers texts shapes values streams examples".split(' ') {
        rows::run_file(&rt, name)?;
    }
    Ok(())
}
