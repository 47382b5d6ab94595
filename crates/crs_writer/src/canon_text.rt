ghost use Rattle.std.specs.Prelude.{◌≡◌, ◌↔◌, IsTrue};
ghost use Rattle.std.specs.Cmp.{partial_equiv_from_equiv};
ghost use Rattle.crs_writer.specs.Canonical.{canon_writes, canons_equal, digest_of};
ghost use Rattle.crs_writer.specs.inner.EqualityLaws.{canons-equivalence, canons-hash};

use crs_value::Level;
use std::hash::{DefaultHasher, Hash, Hasher};
use std::marker::Model;

/// A canonical text and the level at which it was written. Profile.
#[derive(Debug, Drop)]
pub struct Canon {
    bytes: Vec<u8>,
    level: Level,
}

impl Model for Canon {
    ghost use Rattle.crs_writer.specs.Canonical.{CanonicalText};

    ghost Value = { CanonicalText };

    ghost view = { λ canon. record { bytes = canon.bytes.items; level = canon.level } };
}

impl Canon {
    /// The canonical text.
    pub fn bytes(&self) -> &[u8]
        ensures { result.now ≡ self.now.bytes }
    {
        &self.bytes
    }

    /// The level at which it was written.
    pub fn level(&self) -> Level
        ensures { result ≡ self.now.level }
    {
        self.level
    }

    /// The canonical text, with the memory that it is in.
    pub fn into_bytes(self) -> Vec<u8>
        ensures { result.items ≡ self.bytes }
    {
        self.bytes
    }

    /// The same text in no more memory than it needs, for callers that keep many.
    pub fn without_spare_room(mut self) -> Canon
        ensures { result ≡ self }
    {
        self.bytes.shrink_to_fit();
        self
    }

    /// Whether levels and texts are equal: for two answers of `canon`, whether they have one level, at which the
    /// texts that they are of spell the same CRS (`crs_canon::laws::answers_are_equal_where_same`).
    pub fn same(&self, other: &Canon) -> bool
        ensures { IsTrue result ↔ (self.now ≡ other.now) }
    {
        self.level == other.level && self.bytes.as_slice() == other.bytes.as_slice()
    }
}

impl PartialEq for Canon {
    ghost eq = { canons_equal };

    ghost laws = { partial_equiv_from_equiv canons-equivalence };

    // Answers what `same` answers.
    fn eq(&self, other: &Canon) -> bool {
        self.same(other)
    }
}

impl Eq for Canon {
    ghost laws = { canons-equivalence };
}

impl Hash for Canon {
    ghost hash_input = { canon_writes };

    ghost respects_eq = { canons-hash };

    // A hasher whose state everybody knows, as that of a map, can be led to one by many texts: it is given a digest.
    fn hash<H: Hasher>(&self, state: &mut H) {
        state.write_u64(digest(self.bytes()));
    }
}

/// A canonical text, of its bytes and of the level at which they were written. Profile.
pub fn canon_from(bytes: Vec<u8>, level: Level) -> Canon
    ensures bytes { result.bytes ≡ bytes.items }
    ensures level { result.level ≡ level }
{
    Canon { bytes, level }
}

fn digest(bytes: &[u8]) -> u64
    ensures { result ≡ digest_of bytes.now }
{
    let mut hasher = DefaultHasher::new();
    hasher.write(bytes);
    hasher.finish()
}
