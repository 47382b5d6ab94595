//! Normal texts: equal exactly where the CRSs that they spell are the same.
ghost use Rattle.std.specs.Prelude.{◌≡◌, ◌↔◌, ℕ, List};
ghost use Rattle.crs_value.specs.SoundCrs.{IsCrs};
ghost use Rattle.crs_value.specs.Spells.{Spells};
ghost use Rattle.crs_value.specs.declared.values.crs.Crs.{Crs};
ghost use Rattle.crs_value.specs.declared.values.level.Level.{Level};
ghost use Rattle.crs_value.specs.declared.values.level.Level.TheVariants as levels;
ghost use Rattle.crs_same.specs.SameCrs.{SameCrs};
ghost use Rattle.crs_text.specs.Items.{Item};
ghost use Rattle.crs_text.specs.TextFault.{SpellsNode};
ghost use Rattle.crs_text.specs.Written.{item_text};
ghost use Rattle.crs_normal.specs.Closed.{IsClosed};
ghost use Rattle.crs_normal.specs.inner.Decides.{DecidesSameness};
ghost use Rattle.crs_normal.specs.Normal.{IsNormalText};
ghost use Rattle.crs_normal.specs.inner.SpelledCrs.{item_crs, norm_crs};

use crate::laws::lower::lower_laws;
use crate::laws::sets::sets_decide;
use crs_same::laws::{parts_agree_where_same, same_crs_is_equivalence};
use crs_text::laws::written_items;
use crs_value::laws::{one_answer, spelled_is_sound};

/// What a text spells meets all that is asked of a CRS. Profile.
pub fn spelled_crs_is_sound()
    ensures { (text : List ℕ) (crs : Crs) → Spells text crs → IsCrs crs }
{
    written_items();
    spelled_is_sound();
}

// A normal text that spells a CRS is the text of the one form of that CRS.
fn normal_text_is_its_form()
    ensures { (level : Level) (bytes : List ℕ) (crs : Crs) → IsNormalText level bytes → Spells bytes crs →
        bytes ≡ item_text (item_crs (norm_crs level crs)) }
{
    lower_laws();
}

// CRSs have one form exactly where they are the same.
fn same_crss_have_one_form()
    ensures { DecidesSameness }
{
    parts_agree_where_same();
    lower_laws();
    sets_decide();
}

/// Two normal texts of one level are equal, byte for byte, exactly where they spell the same CRS. Profile.
pub fn normal_texts_are_equal_where_same()
    ensures { (level : Level) (first second : List ℕ) (a b : Crs) →
        IsNormalText level first → IsNormalText level second → Spells first a → Spells second b →
        (first ≡ second) ↔ SameCrs level a b }
{
    spelled_crs_is_sound();
    normal_text_is_its_form();
    same_crss_have_one_form();
    same_crs_is_equivalence();
    one_answer();
}

/// The written form of a CRS is normal. Profile.
pub fn written_form_is_normal()
    ensures { (level : Level) (crs : Crs) → IsCrs crs → IsNormalText level (item_text (item_crs (norm_crs level crs))) }
{
    lower_laws();
}

/// The written form of a CRS is an accepted text, which spells the CRS's one form. Profile.
pub fn written_form_is_accepted()
    ensures { (level : Level) (crs : Crs) → IsCrs crs →
        Spells (item_text (item_crs (norm_crs level crs))) (norm_crs level crs) }
{
    lower_laws();
}

/// The one form of a CRS is the same CRS. Profile.
pub fn one_form_is_the_same()
    ensures { (level : Level) (crs : Crs) → IsCrs crs → SameCrs level crs (norm_crs level crs) }
{
    written_form_is_accepted();
    spelled_crs_is_sound();
    written_form_is_normal();
    normal_text_is_its_form();
    same_crss_have_one_form();
    one_answer();
}

// The written forms of two CRSs are equal exactly where the CRSs are the same.
pub(super) fn written_forms_are_equal_where_same()
    ensures { (level : Level) (a b : Crs) → IsCrs a → IsCrs b →
        (item_text (item_crs (norm_crs level a)) ≡ item_text (item_crs (norm_crs level b))) ↔ SameCrs level a b }
{
    written_form_is_accepted();
    same_crss_have_one_form();
    one_answer();
}

/// A text that is normal at some level is normal at the full one too. Profile.
pub fn normal_text_is_normal_at_full()
    ensures { (level : Level) (bytes : List ℕ) → IsNormalText level bytes → IsNormalText levels.Full bytes }
{}

/// A normal text is a node, and closed. Profile.
pub fn normal_text_is_closed_node()
    ensures node { (level : Level) (bytes : List ℕ) → IsNormalText level bytes → (item : Item) × SpellsNode bytes item }
    ensures closed { (level : Level) (bytes : List ℕ) → IsNormalText level bytes → IsClosed bytes }
{
    written_items();
}
