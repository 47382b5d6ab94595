//! The law of what is written: a call that does nothing, and whose contract is the law.
ghost use Rattle.crs_value.specs.SoundCrs.{IsCrs};
ghost use Rattle.crs_value.specs.declared.values.level.Level.{Level};
ghost use Rattle.crs_same.specs.SameCrs.{SameCrs};
ghost use Rattle.crs_normal.specs.inner.WrittenForm.{IsWrittenForm};
ghost use Rattle.crs_writer.specs.Canonical.{IsCanonicalText};
ghost use Rattle.crs_writer.specs.inner.CrsText.{crs_text};

use crs_normal::laws::texts::{
    normal_text_is_closed_node, normal_texts_are_equal_where_same, one_form_is_the_same,
    spelled_crs_is_sound, written_form_is_accepted, written_form_is_normal,
};
use crs_same::laws::same_crs_is_equivalence;

/// The text that is written for a CRS is its canonical text, one and closed, and shows which CRSs are same. Profile.
pub fn crss_are_canonical()
    ensures { (level : Level) → IsWrittenForm IsCrs (SameCrs level) (IsCanonicalText level) (crs_text level) }
{
    written_form_is_normal();
    written_form_is_accepted();
    one_form_is_the_same();
    normal_texts_are_equal_where_same();
    normal_text_is_closed_node();
    same_crs_is_equivalence();
    spelled_crs_is_sound();
}
