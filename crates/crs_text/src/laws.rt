//! Laws on tokens and items: calls that do nothing, and whose contracts are the laws.
ghost use Rattle.std.specs.Prelude.{◌≡◌, ◌≤◌, ◌↔◌, ◌⊎◌, ℕ, Bool, List, [], ◌∷◌, ◌++◌, length};
ghost use Rattle.crs_text.specs.Tokens.{Token, opening, AreTokens};
ghost use Rattle.crs_text.specs.Items.{Item, tokens, AreNode, BeginsNoNode};
ghost use Rattle.crs_text.specs.Keywords.{AreSpelled};
ghost use Rattle.crs_text.specs.TextFault.{SpellsNode, RefusesText, IsSettledRefusal, IsTakenSoFar};
ghost use Rattle.crs_text.specs.Position.{IsPosition};
ghost use Rattle.crs_text.specs.declared.position.Position.{Position};
ghost use Rattle.crs_text.specs.Written.{WrittenSpells, AreFormed, item_text, at_place};
ghost use Rattle.crs_text.specs.inner.Examples.{AreSized, AreFoundByNumber, AreLimited, AreSettledRows};
ghost use Rattle.crs_text.specs.Viable.{IsViable, IsViableAtAnyDepth, Allows, IsFull};

/// A word is a keyword exactly where it is one's spelling, letter case aside. ISO 19162:2019, "Keywords".
pub fn keywords_are_spelled()
    ensures { AreSpelled }
{}

/// Which tokens can be completed to a text, token by token. Profile.
pub fn viability()
    ensures empty { IsViable [] }
    ensures front { (ts more : List Token) → IsViable (ts ++ more) → IsViable ts }
    ensures next { (ts : List Token) (t : Token) → IsViable ts → (IsViable (ts ++ t ∷ []) ↔ Allows ts t) }

    // Only the limit refuses an opening delimiter directly after a word.
    ensures full { (ts : List Token) (square : Bool) → IsViable ts →
        ((IsViableAtAnyDepth (ts ++ opening square ∷ []) × ¬ (IsViable (ts ++ opening square ∷ []))) ↔ IsFull ts) }
{}

/// Tokens spell at most one item, and begin with at most one item. Profile.
pub fn one_item()
    ensures node { (ts : List Token) (i j : Item) → AreNode i ts → AreNode j ts → i ≡ j }
    ensures front { (i j : Item) (a b : List Token) → BeginsNoNode a → BeginsNoNode b →
        tokens i ++ a ≡ tokens j ++ b → (i ≡ j) × (a ≡ b) }
{}

/// A text is one list of tokens and one node at most, or is refused with one number at one place, never both. Profile.
pub fn one_answer()
    ensures tokens { (bytes : List ℕ) (ts us : List Token) → AreTokens bytes ts → AreTokens bytes us → ts ≡ us }
    ensures node { (bytes : List ℕ) (i j : Item) → SpellsNode bytes i → SpellsNode bytes j → i ≡ j }
    ensures refusal { (bytes : List ℕ) (n m place other : ℕ) → RefusesText bytes n place → RefusesText bytes m other →
        (n ≡ m) × (place ≡ other) }
    ensures apart { (bytes : List ℕ) (item : Item) (n place : ℕ) → SpellsNode bytes item →
        ¬ (RefusesText bytes n place) }

    // A refusal of the text has a number from 1 to 8, and a place in the text or at its end.
    ensures within { (bytes : List ℕ) (n place : ℕ) → RefusesText bytes n place →
        (1 ≤ n) × (n ≤ 8) × (place ≤ length bytes) }

    // Each list of bytes is one or the other.
    ensures either { (bytes : List ℕ) →
        ((item : Item) × SpellsNode bytes item) ⊎ ((n place : ℕ) × RefusesText bytes n place) }
{
    crs_decimal::laws::decided();
}

/// The written text of a well-formed node spells that node, and what a text spells is well formed. Profile.
pub fn written_items()
    ensures spells { WrittenSpells }
    ensures formed { (bytes : List ℕ) (item : Item) → SpellsNode bytes item → AreFormed item }
    ensures text { (place : ℕ) (item : Item) → item_text (at_place place item) ≡ item_text item }
{}

/// A place of a text is in one line, at one column. Profile.
pub fn one_position()
    ensures { (text : List ℕ) (place : ℕ) (a b : Position) → IsPosition text place a → IsPosition text place b → a ≡ b }
{}

/// The definitions on one coordinate reference system, and on nested words.
pub fn worked_examples()
    ensures sizes { AreSized }
    ensures numbers { AreFoundByNumber }
    ensures limit { AreLimited }
    ensures settled { AreSettledRows }
{}

/// A settled refusal is the refusal of the text and of every text that begins so; bytes have at most one. Profile.
pub fn settled_refusals()
    ensures refusal { (bytes : List ℕ) (n place : ℕ) → IsSettledRefusal bytes n place → RefusesText bytes n place }
    ensures one { (bytes : List ℕ) (n m place other : ℕ) →
        IsSettledRefusal bytes n place → IsSettledRefusal bytes m other → (n ≡ m) × (place ≡ other) }

    // Whatever bytes follow.
    ensures stays { (bytes more : List ℕ) (n place : ℕ) → IsSettledRefusal bytes n place →
        IsSettledRefusal (bytes ++ more) n place × RefusesText (bytes ++ more) n place }
    ensures apart { (bytes : List ℕ) (n place : ℕ) → IsSettledRefusal bytes n place → ¬ (IsTakenSoFar bytes) }

    // Each list of bytes is one or the other.
    ensures either { (bytes : List ℕ) → ((n place : ℕ) × IsSettledRefusal bytes n place) ⊎ IsTakenSoFar bytes }
{
    crs_decimal::laws::decided();
}
