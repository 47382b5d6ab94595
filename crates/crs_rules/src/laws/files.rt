//! Laws of rules files: calls that do nothing, and whose contracts are the laws.
ghost use Rattle.std.specs.Prelude.{◌≡◌, List, ℕ};
ghost use Rattle.crs_value.specs.declared.values.level.Level.{Level};
ghost use Rattle.crs_rules.specs.Rules.{DifferInOrder, RulesParts, AreSteady};
ghost use Rattle.crs_rules.specs.Rewritten.{IsForm};
ghost use Rattle.crs_rules.specs.OrderOfLines.{AreReordered};
ghost use Rattle.crs_rules.specs.RulesFile.{ReadsFile, RefusesFile, SpellsRules, start};
ghost use Rattle.crs_rules.specs.Statements.{Over, Reading};
ghost use Rattle.crs_rules.specs.declared.file.fault.RulesRefusal.{RulesRefusal};

use crate::laws::order_of_rules_is_nothing;
use crs_decimal::laws::{denotes_one, plain_is_the_one};
use crs_streams::laws::lines_are_one;

/// After what was read, a file says one thing at most, or is refused at one line, with one number at one place.
pub fn one_answer()
    ensures read { (r s t : Reading) (bytes : List ℕ) → ReadsFile r bytes s → ReadsFile r bytes t → s ≡ t }
    ensures refused { (r : Reading) (bytes : List ℕ) (f g : RulesRefusal) → RefusesFile r bytes f →
        RefusesFile r bytes g → f ≡ g }
    ensures apart { (r s : Reading) (bytes : List ℕ) (f : RulesRefusal) → ReadsFile r bytes s →
        ¬ (RefusesFile r bytes f) }
{
    denotes_one();
    crs_text::laws::one_answer();
    lines_are_one();
}

/// Rules that files spell are steady: nothing chains, and the order of aliases says nothing.
pub fn read_rules_are_steady()
    ensures files { (files : List (List ℕ)) (s : Reading) → Over ReadsFile start files s → AreSteady s.rules }
    ensures alone { (bytes : List ℕ) (rules : RulesParts) → SpellsRules bytes rules → AreSteady rules }
{
    denotes_one();
    plain_is_the_one();
}

/// The order of statements says nothing, nor does which of some files they stand in: files with the same lines in
/// another order are read too, to rules that differ only in order, and texts have the same forms under them.
pub fn order_of_lines_is_nothing()
    ensures rules { (files others : List (List ℕ)) (s : Reading) → AreReordered files others →
        Over ReadsFile start files s → (t : Reading) × Over ReadsFile start others t × DifferInOrder s.rules t.rules }
    ensures forms { (files others : List (List ℕ)) (s t : Reading) (level : Level) (text bytes : List ℕ) →
        AreReordered files others → Over ReadsFile start files s → Over ReadsFile start others t →
        IsForm s.rules level text bytes → IsForm t.rules level text bytes }
{
    lines_are_one();
    one_answer();
    read_rules_are_steady();
    order_of_rules_is_nothing();
}
