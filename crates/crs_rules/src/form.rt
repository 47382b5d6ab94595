//! The form of a text under rules, and the CRSs whose parts are compared.
ghost use Rattle.std.specs.Prelude.{◌≡◌, IfOk, MatchResult, OnOk};
ghost use Rattle.crs_value.specs.Spells.{IsFaultOfText, Spells};
ghost use Rattle.crs_value.specs.declared.values.crs.Crs.{Crs};
ghost use Rattle.crs_value.specs.declared.values.level.Level.TheVariants as levels;
ghost use Rattle.crs_normal.specs.inner.PartTexts.{axis_text};
ghost use Rattle.crs_writer.specs.Canonical.{IsCanonicalText};
ghost use Rattle.crs_canon.specs.MainTheorem.{IsAccepted};
ghost use Rattle.crs_rules.specs.FormOrder.{IsInFormOrder, put_crs};
ghost use Rattle.crs_rules.specs.Rewritten.{axis, renamed, rewritten, IsForm};
ghost use Rattle.crs_rules.specs.Rules.{meaning};

use crate::rewriting::crs::{rename, rewrite};
use crate::rewriting::order::put_as_in;
use crate::rules::Rules;
use crs_canon::laws::main_theorem;
use crs_canon::{Canon, canon, canon_of};
use crs_normal::laws::parts::axes_are_canonical;
use crs_text::Fault;
use crs_value::laws::one_answer;
use crs_value::{Crs, Level, read};
use std::alloc::{AllocError, Global};

/// The form of a text under rules, at a level: the canonical text of the CRS that the text's canonical text spells,
/// rewritten by the rules. Under the same rules two are equal exactly where the texts are the same under them.
///
/// `Refused`: the text spells no CRS, and `crs_value::read` refuses it so. `Memory`: there is no memory for it.
pub fn canon_under(alloc: Global, text: &[u8], level: Level, rules: &Rules) -> Result<Canon, Fault>
    ensures answer { MatchResult result (λ form. IsForm rules.now level text.now form.bytes) (IsFaultOfText text.now) }
    ensures level { IfOk result (λ form. form.level ≡ level) }
{
    main_theorem();
    axes_are_canonical();
    let canonical = canon(alloc, text, level)?;
    match form_of(alloc, canonical.bytes(), level, rules) {
        Ok(form) => Ok(form),
        Err(error) => Err(Fault::Memory(error)),
    }
}

// The form of an accepted text that is its own canonical text.
fn form_of(alloc: Global, text: &[u8], level: Level, rules: &Rules) -> Result<Canon, AllocError>
    requires { IsAccepted text.now }
    ensures form { IfOk result (λ form. (value : Crs) × Spells text.now value ×
        IsCanonicalText level (rewritten (axis_text levels.Full) (meaning rules.now) value) form.bytes) }
    ensures level { IfOk result (λ form. form.level ≡ level) }
{
    let mut crs = read_accepted(alloc, text)?;
    rewrite(alloc, &mut crs, rules)?;
    canon_of(alloc, &crs, level)
}

fn read_accepted<'t>(alloc: Global, text: &'t [u8]) -> Result<Crs<'t>, AllocError>
    requires { IsAccepted text.now }
    ensures { IfOk result (λ crs. Spells text.now crs) }
{
    one_answer();
    match read(alloc, text) {
        Ok(crs) => Ok(crs),
        Err(Fault::Memory(error)) => Err(error),
        Err(Fault::Refused(_)) => unreachable!(),
    }
}

/// The CRS that an accepted text spells; where the order of axes doesn't count, its axes are in the order of the form,
/// without `ORDER`, so that the axes of two CRSs stand at their places.
///
/// `AllocError`: there is no memory for it.
pub fn read_in_form_order<'t>(
    alloc: Global,
    text: &'t [u8],
    rules: &'t Rules,
) -> Result<Crs<'t>, AllocError>
    requires { IsAccepted text.now }
    ensures { IfOk result (IsInFormOrder rules.now text.now) }
{
    axes_are_canonical();
    let mut crs = read_accepted(alloc, text)?;
    if rules.are_axes_in_any_order() {
        rewrite(alloc, &mut crs, rules)?;
    } else if rules.uncounted.axis_order {
        put_in_form_order(alloc, &mut crs, text, rules)?;
    }
    Ok(crs)
}

// Puts a text's CRS's axes in the order of the form, by their texts under rules in a second CRS, since none is copied.
fn put_in_form_order<'t>(
    alloc: Global,
    crs: &mut Crs<'t>,
    text: &'t [u8],
    rules: &'t Rules,
) -> Result<(), AllocError>
    requires accepted { IsAccepted text.now }
    requires spells { Spells text.now crs.old }
    ensures { OnOk result (crs.new ≡ put_crs (λ a. axis_text levels.Full (axis (meaning rules.now) a)) crs.old) }
{
    one_answer();
    let mut other = read_accepted(alloc, text)?;
    rename(alloc, &mut other, rules);
    put_as_in(alloc, crs, other)
}

/// Rewrites the parts of a CRS by rules, but for the order of its axes; a part that a rule takes away is gone.
pub fn rewrite_parts<'a>(alloc: Global, crs: &mut Crs<'a>, rules: &'a Rules)
    ensures { crs.new ≡ renamed (meaning rules.now) crs.old }
{
    rename(alloc, crs, rules);
}
