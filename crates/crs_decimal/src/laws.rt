//! Laws of the definitions, as contracts of functions that do nothing.

ghost use Rattle.std.specs.Prelude.{◌≡◌, ℕ, ◌<◌, ◌≤◌, ◌↔◌, ◌⊎◌, List, None, length};
ghost use Rattle.crs_decimal.specs.Numbers.{IsInBounds, Denotes, Parts, SpellsNumber, HasForm, AreDigits, mantissa};
ghost use Rattle.crs_decimal.specs.inner.Run.{IsRun};
ghost use Rattle.crs_decimal.specs.inner.Examples.{SpellingsDenote, SpellingsFail, ValuesArePlain};
ghost use Rattle.crs_decimal.specs.Numbers.{Number, SameNumber, Value, IsNormal, exact, IsPlain, plain};

/// Bytes spell the parts of a number in one way at most.
#[tactic(auto, using(crate::proofs::SplitLemmas::parts_one))]
pub fn one_form()
    ensures { (bytes : List ℕ) (p q : Parts) → SpellsNumber bytes p → SpellsNumber bytes q → p ≡ q }
{}

/// Two normal values are the same number exactly where they are equal.
#[tactic(auto, using(crate::proofs::NumberLemmas::normal_iff))]
pub fn normal_is_one()
    ensures { (a b : Value) → IsNormal a → IsNormal b → SameNumber (exact a) (exact b) ↔ (a ≡ b) }
{}

/// Bytes denote one normal value at most.
pub fn denotes_one()
    ensures { (bytes : List ℕ) (a b : Value) → IsNormal a → IsNormal b →
        Denotes bytes (exact a) → Denotes bytes (exact b) → a ≡ b }
{}

/// Being the same number is an equivalence.
pub fn same_number_is_equivalence()
    ensures reflexive { (a : Number) → SameNumber a a }
    ensures symmetric { (a b : Number) → SameNumber a b → SameNumber b a }
    ensures transitive { (a b c : Number) → SameNumber a b → SameNumber b c → SameNumber a c }
{}

/// What has the form of a number is a run: it starts with a digit, a sign or a period, and each of
/// its bytes is a letter, a digit, `_`, `.`, `+` or `-`.
#[tactic(auto, using(crate::proofs::RunLemmas::form_is_run))]
pub fn spelled_as_a_run()
    ensures { (bytes : List ℕ) → HasForm bytes → IsRun bytes }
{}

/// A number without an exponent and with at most 38 digits is in bounds, whatever the digits are.
pub fn few_digits()
    ensures { (bytes : List ℕ) (p : Parts) → SpellsNumber bytes p → p.exponent ≡ None →
        length (mantissa p) ≤ 38 → IsInBounds bytes }
{}

/// At most 18 bytes, all digits, are a number in bounds.
#[tactic(auto, using(crate::proofs::DigitLemmas::digits_in_bounds))]
pub fn digits_alone()
    ensures { (bytes : List ℕ) → AreDigits bytes → 0 < length bytes → length bytes ≤ 18 → IsInBounds bytes }
{}

/// Bytes are a number in bounds, or of the number form and out of bounds, or not of that form.
pub fn decided()
    ensures { (bytes : List ℕ) → (IsInBounds bytes ⊎ (HasForm bytes × ¬ (IsInBounds bytes))) ⊎ (¬ (HasForm bytes)) }
{}

/// Bytes that are a number in bounds denote a normal value.
pub fn denotes_some()
    ensures { (bytes : List ℕ) → IsInBounds bytes → (v : Value) × (IsNormal v × Denotes bytes (exact v)) }
{}

/// The plain spelling of a normal value is plain, denotes the value, is no longer than 79 bytes,
/// and is the only plain spelling that denotes it.
pub fn plain_is_the_one()
    ensures is_plain { (v : Value) → IsNormal v → IsPlain (plain v) }
    ensures denotes { (v : Value) → IsNormal v → Denotes (plain v) (exact v) }
    ensures only { (v : Value) (bytes : List ℕ) → IsNormal v → IsPlain bytes →
        Denotes bytes (exact v) → bytes ≡ plain v }
    ensures short { (v : Value) → IsNormal v → length (plain v) ≤ 79 }
{}

/// The definitions on a few spellings and values.
pub fn worked_examples()
    ensures spellings { SpellingsDenote }
    ensures faults { SpellingsFail }
    ensures plain { ValuesArePlain }
{}
