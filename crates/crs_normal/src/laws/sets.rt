//! Sets: put in order, the one forms of the members are one list exactly where the sets are the same.
ghost use Rattle.std.specs.Prelude.{◌≡◌, ◌↔◌, ℕ, Bool, List, map};
ghost use Rattle.std.specs.List.{list_all};
ghost use Rattle.crs_text.specs.Written.{item_text};
ghost use Rattle.crs_value.specs.Values.{GeoidModelParts, ParameterParts, IdentParts, MemberParts, UsageParts};
ghost use Rattle.crs_value.specs.declared.values.level.Level.{Level};
ghost use Rattle.crs_value.specs.Sound.{Each};
ghost use Rattle.crs_value.specs.SoundParts.{IsParameter};
ghost use Rattle.crs_normal.specs.Normal.{Ascends, IsIn};
ghost use Rattle.crs_normal.specs.inner.Decides.{SetsDecide};
ghost use Rattle.crs_normal.specs.inner.SpelledItems.{StaysInOrder, in_order, item_ident, item_usage};
ghost use Rattle.crs_normal.specs.inner.SpelledCrs.{item_geoid_model, item_parameter, norm_parameter, set_parameters};
ghost use Rattle.crs_normal.specs.inner.SpelledFrames.{item_member};

use crate::laws::lower::lower_laws;
use crs_value::laws::members_read_once;

// The forms of sets decide which sets are the same.
pub(super) fn sets_decide()
    ensures { SetsDecide }
{
    lower_laws();
    members_read_once();
}

/// Texts put in order ascend by their bytes and are the same texts, each once; this holds of no other list. Profile.
pub fn texts_are_in_order()
    ensures ascend { (texts : List (List ℕ)) → Ascends (λ text. text) (in_order (λ text. text) texts) }
    ensures members { (texts : List (List ℕ)) (text : List ℕ) →
        IsIn text (in_order (λ text. text) texts) ↔ IsIn text texts }
    ensures one { (xs ys : List (List ℕ)) → Ascends (λ text. text) xs → Ascends (λ text. text) ys →
        ((text : List ℕ) → IsIn text xs ↔ IsIn text ys) → xs ≡ ys }
{}

/// Identifiers, members of ensembles, parameters, geoid models and usages that are put in order stay so when that is
/// done again, and functions that agree on each of a list agree on each of the list in order. Profile.
pub fn ordered_lists_stay()
    ensures identifiers { StaysInOrder (λ (ident : IdentParts). item_text (item_ident ident)) }
    ensures members { StaysInOrder (λ (member : MemberParts). item_text (item_member member)) }
    ensures parameters { StaysInOrder (λ (parameter : ParameterParts). item_text (item_parameter parameter)) }
    ensures geoid_models { StaysInOrder (λ (model : GeoidModelParts). item_text (item_geoid_model model)) }
    ensures usages { StaysInOrder (λ (usage : UsageParts). item_text (item_usage usage)) }
{}

/// Each of some parameters in their one form passes exactly if each of their set does. Profile.
pub fn sets_of_parameters_have_each()
    ensures { (level : Level) (test : ParameterParts → Bool) (xs : List ParameterParts) → Each IsParameter xs →
        list_all test (set_parameters level xs) ≡ list_all test (map (norm_parameter level) xs) }
{
    lower_laws();
    members_read_once();
}
