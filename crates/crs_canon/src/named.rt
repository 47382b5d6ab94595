//! The members of a set of parameters by their names.
ghost use Rattle.std.specs.Prelude.{◌≡◌, IfOk, OnOk, map};
ghost use Rattle.std.specs.Option.{option_copied};
ghost use Rattle.crs_normal.specs.inner.SpelledItems.{put, put_all};
ghost use Rattle.crs_normal.specs.PartSpellings.{IsSpelledParameter};
ghost use Rattle.crs_normal.specs.inner.PartTexts.{parameter_text};
ghost use Rattle.crs_writer.specs.inner.Members.{spellings};
ghost use Rattle.crs_canon.specs.Appended.{AppendsOrNothing};
ghost use Rattle.crs_canon.specs.ContentText.{IsLackingText};
ghost use Rattle.crs_canon.specs.Named.{ArePairedNames, is_paired, named_once, unpaired};

use crate::lacking::append_lacking;
use crate::set_view::are_spelled;
use crs_normal::laws::sets;
use crs_value::{Level, Parameter};
use crs_writer::pieces::gather;
use std::alloc::{AllocError, Global};
use std::collections::BTreeSet;

// Each search goes over all parameters, so among more of them none is found by its name.
const MOST: usize = 64;

/// The parameter of this name, if it is there once among at most 64. Profile.
pub fn named_once<'b, 'a>(members: &'b [Parameter<'a>], name: &[u8]) -> Option<&'b Parameter<'a>>
    ensures { option_copied result ≡ named_once name.now members.now }
{
    if members.len() > MOST {
        return None;
    }
    let mut found = None;
    for member in members {
        if member.name == name {
            if found.is_some() {
                return None;
            }
            found = Some(member);
        }
    }
    found
}

// Whether a name stands once on each side.
fn is_paired<'a>(these: &[Parameter<'a>], others: &[Parameter<'a>], name: &[u8]) -> bool
    ensures { result ≡ is_paired these.now others.now name.now }
{
    named_once(these, name).is_some() && named_once(others, name).is_some()
}

/// The names that stand once on each side, among at most 64, in order of their bytes. `AllocError`: no memory. Profile.
pub fn paired_names<'a>(
    alloc: Global,
    these: &[Parameter<'a>],
    others: &[Parameter<'a>],
) -> Result<BTreeSet<Vec<u8>>, AllocError>
    ensures { IfOk result (λ names. ArePairedNames these.now others.now (map (λ name. name.items) names.keys)) }
{
    sets::texts_are_in_order();
    let mut names = BTreeSet::new(alloc);
    for member in these {
        if is_paired(these, others, member.name) {
            gather_name(alloc, &mut names, member.name)?;
        }
    }
    Ok(names)
}

fn gather_name(alloc: Global, names: &mut BTreeSet<Vec<u8>>, name: &[u8]) -> Result<(), AllocError>
    ensures { OnOk result (spellings names.new.keys ≡ put (λ b. b) name.now (spellings names.old.keys)) }
{
    let bytes = Vec::from_slice(alloc, name)?;
    names.insert(bytes)?;
    Ok(())
}

// Adds the spellings of those whose names aren't paired.
fn gather_unpaired<'a>(
    alloc: Global,
    sorted: &mut BTreeSet<Vec<u8>>,
    these: &[Parameter<'a>],
    others: &[Parameter<'a>],
    level: Level,
) -> Result<(), AllocError>
    ensures { OnOk result (spellings sorted.new.keys
        ≡ put_all (λ b. b) (spellings sorted.old.keys) (map (parameter_text level) (unpaired these.now others.now))) }
{
    for member in these {
        if !is_paired(these, others, member.name) {
            gather::<Parameter<'a>, &Parameter<'a>>(alloc, sorted, &member, level)?;
        }
    }
    Ok(())
}

/// Appends the parameters that the others lack, like `write_content`, without those whose name is there once on each
/// side, among at most 64. `AllocError`: there is no memory for them, and `out` is as before. Profile.
pub fn append_unpaired<'a>(
    alloc: Global,
    out: &mut Vec<u8>,
    these: &[Parameter<'a>],
    others: &[Parameter<'a>],
    level: Level,
) -> Result<(), AllocError>
    ensures { AppendsOrNothing result (IsLackingText (IsSpelledParameter level)
        (unpaired these.now others.now) (unpaired others.now these.now)) out.old.items out.new.items }
{
    sets::texts_are_in_order();
    are_spelled(these);
    are_spelled(others);
    let mut sorted = BTreeSet::new(alloc);
    gather_unpaired(alloc, &mut sorted, these, others, level)?;
    let mut other = BTreeSet::new(alloc);
    gather_unpaired(alloc, &mut other, others, these, level)?;
    append_lacking(alloc, out, &sorted, &other)
}
