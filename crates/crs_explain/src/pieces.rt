//! Texts one after the other, and where each ends.
ghost use Rattle.std.specs.Prelude.{◌≡◌, ◌++◌, ◌∷◌, [], OnOk};
ghost use Rattle.crs_explain.specs.Pieces.{ends_from, joined};

use crate::Made;
use std::alloc::Global;
use std::marker::Model;

/// Texts one after the other in one buffer, and where each ends, for callers that hold no lists of lists.
#[derive(Drop)]
pub struct Pieces {
    bytes: Vec<u8>,
    ends: Vec<usize>,
}

impl Model for Pieces {
    ghost use Rattle.std.specs.Prelude.{◌≡◌, ℕ, List};
    ghost use Rattle.crs_explain.specs.inner.Cut.{cut};
    ghost use Rattle.crs_explain.specs.Pieces.{ends_from, joined};

    ghost Value = { List (List ℕ) };

    ghost view = { λ p. cut 0 p.bytes.items p.ends.items };

    ghost invariant = { λ p. (p.bytes.items ≡ joined (cut 0 p.bytes.items p.ends.items))
        × (p.ends.items ≡ ends_from 0 (cut 0 p.bytes.items p.ends.items)) };
}

impl Pieces {
    /// All texts, one after the other.
    pub fn bytes(&self) -> &[u8]
        ensures { result.now ≡ joined self.now }
    {
        &self.bytes
    }

    /// Where each ends, counted from the beginning of the first.
    pub fn ends(&self) -> &[usize]
        ensures { result.now ≡ ends_from 0 self.now }
    {
        &self.ends
    }

    /// No texts.
    pub(crate) fn new(alloc: Global) -> Pieces
        ensures { result ≡ [] }
    {
        Pieces {
            bytes: Vec::new(alloc),
            ends: Vec::new(alloc),
        }
    }

    /// Adds a text behind the others.
    pub(crate) fn push(&mut self, text: &[u8]) -> Made<()>
        ensures { OnOk result (self.new ≡ self.old ++ text.now ∷ []) }
    {
        // The room for the end is asked for first, so that the last push can't fail.
        self.ends.reserve(1)?;
        self.bytes.extend_from_slice(text)?;
        self.ends.push(self.bytes.len())?;
        Ok(())
    }
}
