//! Canonical texts with their digests: a text's digest is computed once, however often the text is looked up and kept.
ghost use Rattle.std.specs.Prelude.{◌≡◌};
ghost use Rattle.std.specs.Cmp.{partial_equiv_from_equiv};
ghost use Rattle.crs_writer.specs.Canonical.{canon_writes, canons_equal};
ghost use Rattle.crs_writer.specs.inner.EqualityLaws.{canons-equivalence, canons-hash};

use crs_writer::Canon;
use std::hash::{DefaultHasher, Hash, Hasher};
use std::marker::Model;

/// A canonical text, and the digest of its bytes.
#[derive(Drop)]
pub struct Digested {
    canon: Canon,
    digest: u64,
}

impl Model for Digested {
    ghost use Rattle.std.specs.Prelude.{◌≡◌};
    ghost use Rattle.crs_writer.specs.Canonical.{CanonicalText, digest_of};

    ghost Value = { CanonicalText };

    ghost view = { λ text. text.canon };

    ghost invariant = { λ text. text.digest ≡ digest_of text.canon.bytes };
}

impl Digested {
    /// A canonical text with its digest.
    pub fn of(canon: Canon) -> Digested
        ensures { result ≡ canon }
    {
        let mut hasher = DefaultHasher::new();
        hasher.write(canon.bytes());
        let digest = hasher.finish();
        Digested { canon, digest }
    }

    /// The bytes of the text.
    pub fn bytes(&self) -> &[u8]
        ensures { result.now ≡ self.now.bytes }
    {
        self.canon.bytes()
    }

    /// The text without its digest.
    pub fn into_canon(self) -> Canon
        ensures { result ≡ self }
    {
        self.canon
    }

    /// The same in no more memory than it needs.
    pub fn without_spare_room(self) -> Digested
        ensures { result ≡ self }
    {
        let (canon, digest) = (self.canon.without_spare_room(), self.digest);
        Digested { canon, digest }
    }
}

impl PartialEq for Digested {
    ghost eq = { canons_equal };

    ghost laws = { partial_equiv_from_equiv canons-equivalence };

    fn eq(&self, other: &Digested) -> bool {
        self.canon.same(&other.canon)
    }
}

impl Eq for Digested {
    ghost laws = { canons-equivalence };
}

impl Hash for Digested {
    ghost hash_input = { canon_writes };

    ghost respects_eq = { canons-hash };

    fn hash<H: Hasher>(&self, state: &mut H) {
        state.write_u64(self.digest);
    }
}
