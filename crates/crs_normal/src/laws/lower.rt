//! What is taken from the lower crates.
ghost use Rattle.crs_normal.specs.inner.LowerLaws.{LowerLaws};

use crate::laws::numbers::whole_numbers_are_tested;
use crs_decimal::laws::{
    denotes_one, digits_alone, normal_is_one, one_form, plain_is_the_one,
    same_number_is_equivalence, spelled_as_a_run, worked_examples,
};
use crs_same::laws::{as_many_axes, one_axis_each};
use crs_shape::laws::no_fault_is_shape;
use crs_text::laws::{one_answer, written_items};

// The laws of the lower crates, as one fact.
pub(super) fn lower_laws()
    ensures { LowerLaws }
{
    one_form();
    spelled_as_a_run();
    digits_alone();
    denotes_one();
    plain_is_the_one();
    worked_examples();
    normal_is_one();
    same_number_is_equivalence();
    whole_numbers_are_tested();
    written_items();
    one_answer();
    no_fault_is_shape();
    one_axis_each();
    as_many_axes();
}
