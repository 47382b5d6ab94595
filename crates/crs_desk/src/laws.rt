//! Laws of the definitions, as contracts of functions that do nothing.
ghost use Rattle.std.specs.Prelude.{◌≡◌, ◌⊎◌, ◌↔◌, ◌++◌, [], ℕ, List, Option, max};
ghost use Rattle.crs_streams.specs.Lines.{EndsInFeed};
ghost use Rattle.crs_desk.specs.LinesRun.{IsLineOutput, IsLinesOutput};
ghost use Rattle.crs_desk.specs.Output.{IsCanonOutput, IsCheckOutput};
ghost use Rattle.crs_desk.specs.DigestOutput.{IsDigestOutput};
ghost use Rattle.crs_desk.specs.ExplainOutput.{TellsWhetherSame};
ghost use Rattle.crs_desk.specs.FilesRun.{blank_told};
ghost use Rattle.crs_desk.specs.RulesOutput.{IsFormOutput, TellsUnder, told_under, turned};
ghost use Rattle.crs_desk.specs.declared.runs.digest.Spelled.{Spelled};
ghost use Rattle.crs_desk.specs.declared.runs.digest.Spelled.TheVariants.{Canonical};
ghost use Rattle.crs_desk.specs.declared.runs.manner.Manner.{Manner};
ghost use Rattle.crs_explain.specs.Differing.{PartTexts};
ghost use Rattle.crs_rules.specs.Rules.{RulesParts, AreRules, meaning, no_rules};
ghost use Rattle.crs_rules.specs.Rewritten.{IsForm, SameUnder, renamed};
ghost use Rattle.crs_same.specs.SameCrs.{SameCrs};
ghost use Rattle.crs_value.specs.SoundCrs.{IsCrs};
ghost use Rattle.crs_value.specs.Spells.{Spells};
ghost use Rattle.crs_value.specs.declared.values.crs.Crs.{Crs};
ghost use Rattle.crs_value.specs.declared.values.level.Level.{Level};

pub mod line;

/// Lines may be worked on in parts: what is written for bytes that end in a line feed, and for others, is joined.
pub fn lines_joined()
    ensures canon { (level : Level) (a b v w : List ℕ) (m n : ℕ) → (a ≡ []) ⊎ EndsInFeed a →
        IsLinesOutput (IsLineOutput [] (IsCanonOutput level)) a v m → IsLinesOutput (IsLineOutput [] (IsCanonOutput level)) b w n →
        IsLinesOutput (IsLineOutput [] (IsCanonOutput level)) (a ++ b) (v ++ w) (max m n) }
    ensures check { (how : Manner) (a b v w : List ℕ) (m n : ℕ) → (a ≡ []) ⊎ EndsInFeed a →
        IsLinesOutput (IsLineOutput (blank_told how) (IsCheckOutput how)) a v m → IsLinesOutput (IsLineOutput (blank_told how) (IsCheckOutput how)) b w n →
        IsLinesOutput (IsLineOutput (blank_told how) (IsCheckOutput how)) (a ++ b) (v ++ w) (max m n) }
    ensures digest { (by : Spelled) (a b v w : List ℕ) (m n : ℕ) → (a ≡ []) ⊎ EndsInFeed a →
        IsLinesOutput (IsLineOutput [] (IsDigestOutput by)) a v m → IsLinesOutput (IsLineOutput [] (IsDigestOutput by)) b w n →
        IsLinesOutput (IsLineOutput [] (IsDigestOutput by)) (a ++ b) (v ++ w) (max m n) }
    ensures form { (rules : RulesParts) (level : Level) (a b v w : List ℕ) (m n : ℕ) → (a ≡ []) ⊎ EndsInFeed a →
        IsLinesOutput (IsLineOutput [] (IsFormOutput rules level)) a v m →
        IsLinesOutput (IsLineOutput [] (IsFormOutput rules level)) b w n →
        IsLinesOutput (IsLineOutput [] (IsFormOutput rules level)) (a ++ b) (v ++ w) (max m n) }
{
    crs_streams::laws::lines_are_cut();
}

/// What `explain` writes of two CRSs under rules begins with what it writes without rules of the two as the rules
/// rewrite them: each part that differs under the rules is written without the mark. Under no rules nothing is written
/// with the mark.
pub fn explained_under_rules()
    ensures unmarked { (how : Manner) (words : List (List ℕ)) (r : RulesParts) (level : Level) (a b : Crs)
        (written : List ℕ) (status : ℕ) → TellsUnder how words r level a b written status →
        (front : List ℕ) × (rest : List ℕ) × (written ≡ front ++ rest)
        × TellsWhetherSame how words level (renamed (meaning r) a) (renamed (meaning r) b) front status }
    ensures marks { (how : Manner) (words : List (List ℕ)) (level : Level) (a b : Crs) → IsCrs a → IsCrs b →
        (written : List ℕ) (status : ℕ) → TellsUnder how words no_rules level a b written status →
        TellsWhetherSame how words level a b written status }
{
    crs_rules::laws::no_rules_rewrite_nothing();
    crs_explain::laws::the_same_parts_are_told();
}

/// For two CRSs in the other order the same parts are written under rules, each with its values exchanged.
pub fn exchanged_under_rules()
    ensures { (how : Manner) (words : List (List ℕ)) (r : RulesParts) (level : Level) (a b : Crs) → AreRules r →
        IsCrs a → IsCrs b → (written : List ℕ) (status : ℕ) → TellsUnder how words r level a b written status →
        (before : Option (List PartTexts)) × (after : Option (List PartTexts))
        × (written ≡ told_under how before after)
        × TellsUnder how words r level b a (told_under how (turned before) (turned after)) status }
{
    crs_same::laws::same_crs_is_equivalence();
    crs_rules::laws::renamed_crs_is_sound();
    crs_explain::laws::exchanged_crss_are_told_alike();
}

/// The CRSs that two forms spell are the same at the level exactly if the texts are the same under the rules.
pub fn forms_spell_the_same()
    ensures { (r : RulesParts) (level : Level) (first second a b : List ℕ) (x y : Crs) → AreRules r →
        IsForm r level first a → IsForm r level second b → Spells a x → Spells b y →
        SameUnder r level first second ↔ SameCrs level x y }
{
    crs_canon::laws::main_theorem();
    crs_rules::laws::forms_are_canonical();
    crs_rules::laws::same_under_rules_is_equivalence();
}

/// Two texts whose CRSs are the same at a level have one digest.
pub fn the_same_crs_has_one_digest()
    ensures { (level : Level) (first second v w : List ℕ) (x y : Crs) → Spells first x → Spells second y →
        SameCrs level x y → IsDigestOutput (Canonical level) first v 0 → IsDigestOutput (Canonical level) second w 0 →
        v ≡ w }
{
    crs_canon::laws::main_theorem();
}
