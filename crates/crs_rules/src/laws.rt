//! Laws of forms: calls that do nothing, and whose contracts are the laws.
ghost use Rattle.std.specs.Prelude.{◌≡◌, ◌↔◌, ℕ, List, true};
ghost use Rattle.crs_value.specs.SoundCrs.{IsCrs};
ghost use Rattle.crs_value.specs.Spells.{Spells};
ghost use Rattle.crs_value.specs.Values.{AxisParts};
ghost use Rattle.crs_value.specs.declared.values.crs.Crs.{Crs};
ghost use Rattle.crs_value.specs.declared.values.level.Level.{Level};
ghost use Rattle.crs_writer.specs.Canonical.{IsCanonicalOf};
ghost use Rattle.crs_canon.specs.MainTheorem.{IsAccepted, SpellSame};
ghost use Rattle.crs_rules.specs.FormOrder.{in_form_order};
ghost use Rattle.crs_rules.specs.inner.LowerLaws.{FormLaws, SetLaws};
ghost use Rattle.crs_rules.specs.Rules.{no_rules, DifferInOrder, Meaning, RulesParts, meaning, AreRules, AreSteady};
ghost use Rattle.crs_rules.specs.ReorderedAxes.{IsCrsReordered};
ghost use Rattle.crs_rules.specs.Rewritten.{explicit_crs, renamed, rewritten, IsForm, SameUnder};

pub mod files;

use crate::rules::Rules;
use crs_canon::laws::{
    answers_are_equal_where_same, canonical_texts_are_equal_where_same, main_theorem,
};
use crs_normal::laws::parts::{axes_are_canonical, axis_texts_tell_axes};
use crs_normal::laws::sets::{ordered_lists_stay, sets_of_parameters_have_each};
use crs_normal::laws::texts::{
    one_form_is_the_same, spelled_crs_is_sound, written_form_is_accepted, written_form_is_normal,
};
use crs_same::laws::same_crs_is_equivalence;
use crs_value::laws::one_answer;

/// A CRS under rules meets all that is asked of a CRS, whatever the texts of axes.
pub fn rewritten_crs_is_sound()
    ensures { (text : AxisParts → List ℕ) (r : RulesParts) (crs : Crs) → AreRules r → IsCrs crs →
        IsCrs (rewritten text (meaning r) crs) }
{}

/// The same of a CRS whose axes stay in their order.
pub fn renamed_crs_is_sound()
    ensures { (r : RulesParts) (crs : Crs) → AreRules r → IsCrs crs → IsCrs (renamed (meaning r) crs) }
{}

/// What rules write is accepted.
pub fn rules_are_sound(rules: &Rules)
    ensures { AreRules rules.now }
{
    // Opens `rules` so that its invariant is known.
    let _names = &rules.names;
}

/// Each accepted text has a form under rules, and just one.
pub fn accepted_text_has_one_form()
    ensures there { (r : RulesParts) (level : Level) (text : List ℕ) → AreRules r → IsAccepted text →
        (bytes : List ℕ) × IsForm r level text bytes }
    ensures one { (r : RulesParts) (level : Level) (text a b : List ℕ) → AreRules r →
        IsForm r level text a → IsForm r level text b → a ≡ b }
{
    rewritten_crs_is_sound();
    main_theorem();
    one_answer();
    spelled_crs_is_sound();
    same_crs_is_equivalence();
    canonical_texts_are_equal_where_same();
    axes_are_canonical();
}

/// Texts that are the same at the level have one form under any rules.
pub fn same_texts_have_one_form()
    ensures form { (r : RulesParts) (level : Level) (first second bytes : List ℕ) → SpellSame level first second →
        IsForm r level first bytes → IsForm r level second bytes }
    ensures same { (r : RulesParts) (level : Level) (first second : List ℕ) → AreRules r →
        SpellSame level first second → SameUnder r level first second }
{
    accepted_text_has_one_form();
    main_theorem();
    answers_are_equal_where_same();
}

/// A form is accepted, and is its own canonical text.
pub fn forms_are_canonical()
    ensures { (r : RulesParts) (level : Level) (text bytes : List ℕ) → IsForm r level text bytes →
        IsCanonicalOf level bytes bytes }
{
    spelled_crs_is_sound();
    same_crs_is_equivalence();
}

/// Being the same under rules is an equivalence of accepted texts.
pub fn same_under_rules_is_equivalence()
    ensures reflexive { (r : RulesParts) (level : Level) (a : List ℕ) → AreRules r → IsAccepted a →
        SameUnder r level a a }
    ensures symmetric { (r : RulesParts) (level : Level) (a b : List ℕ) → SameUnder r level a b →
        SameUnder r level b a }
    ensures transitive { (r : RulesParts) (level : Level) (a b c : List ℕ) → AreRules r →
        SameUnder r level a b → SameUnder r level b c → SameUnder r level a c }

    // Answers are equal exactly where the texts are the same under the rules.
    ensures equal { (r : RulesParts) (level : Level) (first second a b : List ℕ) → AreRules r →
        IsForm r level first a → IsForm r level second b → (a ≡ b) ↔ SameUnder r level first second }
{
    accepted_text_has_one_form();
}

/// No rules change nothing: forms are canonical texts.
pub fn no_rules_give_canonical_texts()
    ensures { (level : Level) (text bytes : List ℕ) →
        IsForm no_rules level text bytes ↔ IsCanonicalOf level text bytes }
{
    main_theorem();
    answers_are_equal_where_same();
    axes_are_canonical();
}

/// No rules rewrite no part of a CRS.
pub fn no_rules_rewrite_nothing()
    ensures { (x : Crs) → renamed (meaning no_rules) x ≡ x }
{}

/// The order of aliases says nothing, where rules are steady.
pub fn order_of_rules_is_nothing()
    ensures { (r s : RulesParts) → DifferInOrder r s → AreSteady r → (level : Level) (text bytes : List ℕ) →
        IsForm r level text bytes → IsForm s level text bytes }
{}

/// A form is its own form, where the rules are steady.
pub fn forms_are_their_own()
    ensures { (r : RulesParts) (level : Level) (text bytes : List ℕ) → AreRules r → AreSteady r →
        IsForm r level text bytes → IsForm r level bytes bytes }
{
    set_laws();
    form_laws();
}

/// Canonical texts that differ only in the order of their axes have one form, if this order doesn't count.
pub fn order_of_axes_is_nothing()
    ensures { (r : RulesParts) (level : Level) (first second bytes : List ℕ) (a b : Crs) → AreRules r →
        r.uncounted.axis_order ≡ true →
        IsCanonicalOf level first first → IsCanonicalOf level second second → Spells first a → Spells second b →
        IsCrsReordered a b → IsForm r level first bytes → IsForm r level second bytes }
{
    set_laws();
    form_laws();
    axes_are_canonical();
    main_theorem();
}

/// Canonical texts have one form if the second has the units that the first leaves out.
pub fn units_may_be_left_out()
    ensures { (r : RulesParts) (level : Level) (first second bytes : List ℕ) (a : Crs) →
        IsCanonicalOf level first first → IsCanonicalOf level second second →
        Spells first a → Spells second (explicit_crs (meaning r) a) →
        IsForm r level first bytes → IsForm r level second bytes }
{
    main_theorem();
    one_answer();
}

/// A CRS whose axes were put in the order of the form and whose parts were rewritten is the one that the form spells.
pub fn order_of_the_form_is_kept()
    ensures { (text : AxisParts → List ℕ) (r : Meaning) (x : Crs) →
        renamed r (in_form_order text r x) ≡ rewritten text r x }
{}

// What is known of CRSs in their one form, and of canonical texts, as one fact.
fn form_laws()
    ensures { (level : Level) → FormLaws level }
{
    spelled_crs_is_sound();
    one_answer();
    same_crs_is_equivalence();
    canonical_texts_are_equal_where_same();
    written_form_is_normal();
    written_form_is_accepted();
    one_form_is_the_same();
}

// What is known of sets, and of axes that have one text, as one fact.
fn set_laws()
    ensures { SetLaws }
{
    ordered_lists_stay();
    sets_of_parameters_have_each();
    axis_texts_tell_axes();
}
