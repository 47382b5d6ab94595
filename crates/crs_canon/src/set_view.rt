//! Sets of nodes, which are views of slices.
ghost use Rattle.std.specs.Prelude.{◌≡◌, ◌↔◌, ◌++◌, ℕ, IsTrue, List, MatchResult, map};
ghost use Rattle.crs_value.specs.Sound.{Each};
ghost use Rattle.crs_value.specs.declared.values.level.Level.{Level};
ghost use Rattle.crs_same.specs.SameIdents.{AllHaveSame, HasSame, SameSet};
ghost use Rattle.crs_normal.specs.Normal.{IsIn};
ghost use Rattle.crs_writer.specs.inner.Members.{AreSpellingsOf};
ghost use Rattle.crs_writer.specs.SetText.{HaveOneTextWhereSame, IsSetText, commas, comma_separated};
ghost use Rattle.crs_canon.specs.Appended.{AppendsOrNothing};

use crate::canonical::Canonical;
use crs_normal::laws::sets;
use crs_value::Level;
use crs_writer::pieces::write_set;
use std::alloc::{AllocError, Global};
use std::marker::Model;

/// Nodes as a set: their order doesn't count, nor how often one is there. Profile.
#[derive(Drop)]
pub struct Set<'s, T: Canonical> {
    members: &'s [T],
}

impl<'s, T: Canonical> Model for Set<'s, T> {
    ghost use Rattle.std.specs.Prelude as std;

    ghost Value = { std.List T };

    ghost view = { λ set. set.members.now };
}

impl<'s, T: Canonical> Set<'s, T> {
    /// The set of these nodes.
    pub fn of(members: &'s [T]) -> Set<'s, T>
        ensures { result ≡ members.now }
    {
        Set { members }
    }

    /// Whether each member of either set has a same member in the other. Time: the product of the two lengths.
    pub fn same(&self, other: &Set<'s, T>, level: Level) -> bool
        ensures { IsTrue result ↔ SameSet (T.Same level) self.now other.now }
    {
        all_have_same(self.members, other.members, level)
            && all_have_same(other.members, self.members, level)
    }

    /// Appends the spellings of the members, each once, in ascending order of their bytes, a comma between two; nothing
    /// for an empty set. `AllocError`: there is no memory for it, and `out` is as before.
    pub fn write(&self, alloc: Global, level: Level, out: &mut Vec<u8>) -> Result<(), AllocError>
        ensures { AppendsOrNothing result (IsSetText (T.IsSpelling level) self.now) out.old.items out.new.items }
    {
        sets::texts_are_in_order();
        are_spelled(self.members);
        let mut text = Vec::new(alloc);
        write_set::<T, &[T]>(&mut text, &self.members, level)?;
        append_members(out, text.as_slice())
    }

    /// The law of sets: each member is a value of its type, and what this set and the other are written as is equal,
    /// byte for byte, exactly where they are the same. The call does nothing.
    pub fn laws(&self, other: &Set<'s, T>)
        ensures values { Each T.IsValue self.now }
        ensures equal { (level : Level) → HaveOneTextWhereSame (T.Same level) (T.IsSpelling level) self.now other.now }
    {
        sets::texts_are_in_order();
        are_spelled(self.members);
        are_spelled(other.members);
        kind_has_law(self.members);
        kind_has_law(other.members);
    }
}

// The law of all sets of a kind, where there is a node of it.
fn kind_has_law<T: Canonical>(members: &[T])
    ensures { (member : T) → IsIn member members.now → (level : Level) (a b : List T) →
        Each T.IsValue a → Each T.IsValue b → HaveOneTextWhereSame (T.Same level) (T.IsSpelling level) a b }
{
    if let [member, ..] = members {
        crate::laws::set_texts_are_equal_where_same(member);
    }
}

fn has_same<T: Canonical>(member: &T, others: &[T], level: Level) -> bool
    ensures { IsTrue result ↔ HasSame (T.Same level) member.now others.now }
{
    for other in others {
        if member.same(other, level) {
            return true;
        }
    }
    false
}

fn all_have_same<T: Canonical>(members: &[T], others: &[T], level: Level) -> bool
    ensures { IsTrue result ↔ AllHaveSame (T.Same level) members.now others.now }
{
    for member in members {
        if !has_same(member, others, level) {
            return false;
        }
    }
    true
}

// Each member is a value of its type, and what `spell` appends of it is its one spelling.
pub(crate) fn are_spelled<T: Canonical>(members: &[T])
    ensures values { Each T.IsValue members.now }
    ensures spelled { (level : Level) → AreSpellingsOf (T.IsSpelling level) members.now (map (T.spelling level) members.now) }
{
    for member in members {
        member.laws();
    }
}

// Members with a comma before each, without the first comma.
pub(crate) fn append_members(out: &mut Vec<u8>, text: &[u8]) -> Result<(), AllocError>
    ensures { (members : List (List ℕ)) → text.now ≡ commas members → MatchResult result
        (λ _. out.new.items ≡ out.old.items ++ comma_separated members) (λ _. out.new.items ≡ out.old.items) }
{
    match text {
        [] => Ok(()),
        [_, members @ ..] => out.extend_from_slice(members),
    }
}
