//! Laws of canonical texts: calls that do nothing, and whose contracts are the laws.
ghost use Rattle.std.specs.Prelude.{◌≡◌, ◌↔◌, ◌++◌, [], List, true, ℕ};
ghost use Rattle.crs_value.specs.Sound.{Each};
ghost use Rattle.crs_value.specs.SoundCrs.{IsCrs};
ghost use Rattle.crs_value.specs.declared.values.crs.Crs.{Crs};
ghost use Rattle.crs_value.specs.declared.values.level.Level.{Level};
ghost use Rattle.crs_value.specs.declared.values.level.Level.TheVariants as levels;
ghost use Rattle.crs_same.specs.SameCrs.{SameCrs};
ghost use Rattle.crs_writer.specs.Canonical.{CanonicalText, IsCanonicalOf, IsCanonicalText, canon_writes, canons_equal};
ghost use Rattle.crs_canon.specs.inner.Examples.{DigestsArePublished, DigestsAreRusts};
ghost use Rattle.crs_canon.specs.MainTheorem.{MainTheorem, SpellSame};
ghost use Rattle.crs_canon.specs.inner.NamesTell.{NamesTell};
ghost use Rattle.crs_writer.specs.SetText.{HaveOneTextWhereSame};

use crate::canonical::Canonical;
use crs_normal::laws::parts::closed_texts;
use crs_normal::laws::sets::texts_are_in_order;
use crs_normal::laws::texts::{normal_text_is_normal_at_full, spelled_crs_is_sound};
use crs_same::laws::{same_crs_is_equivalence, same_crs_is_same_by_definition};
use crs_value::laws::one_answer;
use crs_writer::laws::crss_are_canonical;

/// Each CRS has a canonical text, and two CRSs' texts are equal, byte for byte, exactly if the CRSs are same. Profile.
pub fn canonical_texts_are_equal_where_same()
    ensures there { (level : Level) (crs : Crs) → IsCrs crs → (bytes : List ℕ) × IsCanonicalText level crs bytes }
    ensures equal { (level : Level) (a b : Crs) (first second : List ℕ) → IsCrs a → IsCrs b →
        IsCanonicalText level a first → IsCanonicalText level b second → (first ≡ second) ↔ SameCrs level a b }
{
    crss_are_canonical();
}

/// The main theorem: two accepted texts have equal canonical bytes exactly when the CRSs that they spell are the same;
/// a canonical text is itself accepted, spells the same CRS as its source and is its own canonical text; and a text
/// that spells no CRS is refused with one number and at one place. Profile.
pub fn main_theorem()
    ensures { (level : Level) → MainTheorem level }
{
    canonical_texts_are_equal_where_same();
    same_crs_is_equivalence();
    spelled_crs_is_sound();
    one_answer();
}

/// What a caller knows of two answers of `canon`. At one level their bytes are equal exactly where the two texts spell
/// the same CRS; the answer for the bytes of an answer is those bytes; and two `Canon`s are equal, which `Canon::same`
/// answers, exactly where their levels are equal and the two texts spell the same CRS at that level. Profile.
pub fn answers_are_equal_where_same()
    ensures equal { (level : Level) (first second a b : List ℕ) →
        IsCanonicalOf level first a → IsCanonicalOf level second b → (a ≡ b) ↔ SpellSame level first second }
    ensures own { (level : Level) (text bytes again : List ℕ) →
        IsCanonicalOf level text bytes → IsCanonicalOf level bytes again → again ≡ bytes }
    ensures canons { (first second : List ℕ) (a b : CanonicalText) →
        IsCanonicalOf a.level first a.bytes → IsCanonicalOf b.level second b.bytes →
        (a ≡ b) ↔ ((a.level ≡ b.level) × SpellSame a.level first second) }
{
    main_theorem();
}

/// The two levels. A canonical text at level `full` has at level `definition` the canonical text of its source, and of
/// no other; a text canonical at level `definition` is its own at both levels. Profile.
pub fn levels_of_canonical_texts()
    ensures through { (text full definition : List ℕ) → IsCanonicalOf levels.Full text full →
        IsCanonicalOf levels.Definition text definition ↔ IsCanonicalOf levels.Definition full definition }
    ensures own { (text definition : List ℕ) → IsCanonicalOf levels.Definition text definition → (level : Level) →
        IsCanonicalOf level definition definition }
{
    normal_text_is_normal_at_full();
    same_crs_is_equivalence();
    same_crs_is_same_by_definition();
    spelled_crs_is_sound();
    one_answer();
}

/// `==` holds of canonical texts if levels and bytes are equal, like `same`; equal ones have one hash. Profile.
pub fn equal_canons_are_one()
    ensures equal { (a b : CanonicalText) → (canons_equal a b ≡ true) ↔ (a ≡ b) }
    ensures hash { (a b : CanonicalText) → canons_equal a b ≡ true → canon_writes a ≡ canon_writes b }
{}

/// The digest of a canonical text that a hash is given is SipHash-1-3, by examples. Profile.
pub fn digests_are_siphash()
    ensures published { DigestsArePublished }
    ensures rusts { DigestsAreRusts }
{}

/// No spelling of a node is empty, and none is the front of another of its kind. The node is one of the kind. Profile.
pub fn spellings_stand_alone<T: Canonical>(node: &T)
    ensures some { (level : Level) (value : T) (bytes : List ℕ) → T.IsValue value →
        T.IsSpelling level value bytes → ¬ (bytes ≡ []) }
    ensures front { (level : Level) (a b : T) (first second more : List ℕ) → T.IsValue a → T.IsValue b →
        T.IsSpelling level a first → T.IsSpelling level b second → second ≡ first ++ more → more ≡ [] }
{
    node.laws();
    closed_texts();
}

/// The texts of two sets of nodes of this kind are equal, byte for byte, exactly where the sets are the same. Profile.
pub fn set_texts_are_equal_where_same<T: Canonical>(node: &T)
    ensures { (level : Level) (a b : List T) → Each T.IsValue a → Each T.IsValue b →
        HaveOneTextWhereSame (T.Same level) (T.IsSpelling level) a b }
{
    node.laws();
    closed_texts();
    texts_are_in_order();
}

/// Each parameter of a set is found by its name, and one of the other set too, or is among the unpaired. Profile.
pub fn names_tell_parameters()
    ensures { NamesTell }
{}
