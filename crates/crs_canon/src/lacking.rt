//! The members of a set that another lacks.
ghost use Rattle.std.specs.Prelude.{◌≡◌, ◌++◌, MatchResult};
ghost use Rattle.crs_canon.specs.Appended.{AppendsOrNothing};
ghost use Rattle.crs_canon.specs.ContentText.{IsLackingText};
ghost use Rattle.crs_writer.specs.inner.Members.{lacking, spellings};
ghost use Rattle.crs_writer.specs.SetText.{comma_separated};

use crate::canonical::Canonical;
use crate::set_view::{append_members, are_spelled};
use crs_normal::laws::sets;
use crs_value::Level;
use crs_writer::append;
use crs_writer::pieces::gather_all;
use std::alloc::{AllocError, Global};
use std::collections::BTreeSet;

// The spellings that the others lack, where there is memory for them.
pub(crate) fn append_lacking(
    alloc: Global,
    out: &mut Vec<u8>,
    these: &BTreeSet<Vec<u8>>,
    others: &BTreeSet<Vec<u8>>,
) -> Result<(), AllocError>
    ensures { MatchResult result (λ _. out.new.items
        ≡ out.old.items ++ comma_separated (lacking (spellings these.now.keys) (spellings others.now.keys)))
        (λ _. out.new.items ≡ out.old.items) }
{
    let mut text = Vec::new(alloc);
    for bytes in these.difference(others) {
        append(&mut text, b",")?;
        append(&mut text, bytes)?;
    }
    append_members(out, text.as_slice())
}

/// Appends the members that others lack, like `write_content`. `AllocError`: no memory, `out` is as before. Profile.
pub fn append_lacking_members<T: Canonical>(
    alloc: Global,
    out: &mut Vec<u8>,
    these: &[T],
    others: &[T],
    level: Level,
) -> Result<(), AllocError>
    ensures { AppendsOrNothing result (IsLackingText (T.IsSpelling level) these.now others.now)
        out.old.items out.new.items }
{
    sets::texts_are_in_order();
    are_spelled(these);
    are_spelled(others);
    let mut sorted = BTreeSet::new(alloc);
    gather_all::<T, &[T]>(alloc, &mut sorted, these, level)?;
    let mut other = BTreeSet::new(alloc);
    gather_all::<T, &[T]>(alloc, &mut other, others, level)?;
    append_lacking(alloc, out, &sorted, &other)
}
