//! Lists that are taken as sets.
ghost use Rattle.std.specs.Prelude.{◌≡◌, ◌≤◌, ◌↔◌, IsTrue, drop, length, take};
ghost use Rattle.std.specs.Option.{option_copied};
ghost use Rattle.crs_value.specs.declared.values.level.Level.{Level};
ghost use Rattle.crs_same.specs.Sameness.{IsSameness};
ghost use Rattle.crs_same.specs.SameIdents.{HasSame, AllHaveSame, SameSet, with_bare};

use crs_value::{CounterpartHints, Level};
use std::marker::Model;

/// A value that may be a member of a set. Profile.
pub trait SetMember: Sized {
    ghost Same: { Level → Self → Self → Type 0 };

    /// Whether two members are the same.
    fn is_same(&self, other: &Self, level: Level) -> bool
        ensures { IsTrue result ↔ Same level self.now other.now };

    /// Sameness of members is an equivalence. The call does nothing.
    fn same_is_equivalence(&self)
        ensures { (level : Level) → IsSameness (Same level) };
}

/// A set: the members of a list, and one before them, if there is one: of usages, the one whose parts are bare. Profile.
#[derive(Drop)]
pub struct SetMembers<'b, T> {
    /// The one before the list.
    pub bare: Option<&'b T>,
    /// The list.
    pub listed: &'b [T],
}

impl<'b, T> Model for SetMembers<'b, T> {
    ghost use Rattle.std.specs.Prelude as std;
    ghost use Rattle.std.specs.Option.{option_copied};
    ghost use Rattle.crs_same.specs.SameIdents.{with_bare};

    ghost Value = { std.List T };

    ghost view = { λ m. with_bare (option_copied m.bare) m.listed.now };
}

impl<'b, T> SetMembers<'b, T> {
    /// The members of a list.
    pub fn of(listed: &'b [T]) -> SetMembers<'b, T>
        ensures { result ≡ listed.now }
    {
        SetMembers { bare: None, listed }
    }

    /// The one before the list, if there is one, and the others.
    pub fn parts(&self) -> (Option<&'b T>, &'b [T])
        ensures { with_bare (option_copied result.0) result.1.now ≡ self.now }
    {
        (self.bare, self.listed)
    }
}

fn has_same<T: SetMember>(member: &T, others: &[T], level: Level) -> bool
    ensures { IsTrue result ↔ HasSame (T.Same level) member.now others.now }
{
    for other in others {
        if member.is_same(other, level) {
            return true;
        }
    }
    false
}

fn is_same_at<T: SetMember>(member: &T, others: &[T], place: usize, level: Level) -> bool
    ensures { IsTrue result → HasSame (T.Same level) member.now (take 1 (drop place others.now)) }
{
    match others.get(place) {
        Some(other) => member.is_same(other, level),
        None => false,
    }
}

// Whether there are as many members, each the same as the one at its place: then the sets are the same.
fn same_in_order<T: SetMember>(members: &[T], others: &[T], level: Level) -> bool
    ensures { IsTrue result → SameSet (T.Same level) members.now others.now }
{
    if members.len() != others.len() {
        return false;
    }
    let mut at: usize = 0;
    for member in members {
        if !is_same_at(member, others, at, level) {
            return false;
        }
        member.same_is_equivalence();
        at += 1;
    }
    true
}

impl<'b, T: SetMember> SetMembers<'b, T> {
    // The same, with the ones before the lists.
    fn is_same_in_order(&self, others: &SetMembers<'_, T>, level: Level) -> bool
        ensures { IsTrue result → SameSet (T.Same level) self.now others.now }
    {
        match (self.bare, others.bare) {
            (None, None) => same_in_order(self.listed, others.listed, level),
            (Some(bare), Some(other)) => {
                if !bare.is_same(other, level) {
                    return false;
                }
                bare.same_is_equivalence();
                same_in_order(self.listed, others.listed, level)
            }
            _ => false,
        }
    }

    // Whether one of these is the same as a member of another set.
    fn has_counterpart(&self, member: &T, level: Level) -> bool
        ensures { IsTrue result ↔ HasSame (T.Same level) member.now self.now }
    {
        match self.bare {
            None => has_same(member, self.listed, level),
            Some(bare) => member.is_same(bare, level) || has_same(member, self.listed, level),
        }
    }

    // The same, where each member before has a same one here. First it is compared with the one at its place, then, by
    // its hint, with one before it and one of these of its key: a repeated member of many is looked for only once.
    fn includes(&self, before: &[T], member: &T, hints: CounterpartHints<'_>, level: Level) -> bool
        requires { AllHaveSame (T.Same level) before.now self.now }
        ensures { IsTrue result ↔ HasSame (T.Same level) member.now self.now }
    {
        let at = before.len();
        if is_same_at(member, self.listed, at, level) {
            return true;
        }
        member.same_is_equivalence();
        let hint = hints.of(at);
        if is_same_at(member, before, hint.before, level) {
            return true;
        }
        is_same_at(member, self.listed, hint.other, level) || self.has_counterpart(member, level)
    }

    // Whether each member of a list has a same one here.
    fn includes_each(&self, members: &[T], hints: CounterpartHints<'_>, level: Level) -> bool
        ensures { IsTrue result ↔ AllHaveSame (T.Same level) members.now self.now }
    {
        let mut at: usize = 0;
        for member in members {
            if !self.includes(&members[..at], member, hints, level) {
                return false;
            }
            at += 1;
        }
        true
    }

    // Whether each member of another set has a same one here.
    fn covers(&self, others: &SetMembers<'_, T>, hints: CounterpartHints<'_>, level: Level) -> bool
        ensures { IsTrue result ↔ AllHaveSame (T.Same level) others.now self.now }
    {
        match others.bare {
            None => self.includes_each(others.listed, hints, level),
            Some(bare) => {
                self.has_counterpart(bare, level) && self.includes_each(others.listed, hints, level)
            }
        }
    }
}

// Equal sets mostly are in one order. Else the longer list goes first: it has a member that the shorter one lacks soon.
/// Whether two sets are the same: each member of either has a same member in the other. Profile.
pub fn same_set<T: SetMember>(
    members: &SetMembers<'_, T>,
    others: &SetMembers<'_, T>,
    hints: CounterpartHints<'_>,
    level: Level,
) -> bool
    ensures { IsTrue result ↔ SameSet (T.Same level) members.now others.now }
{
    if members.is_same_in_order(others, level) {
        return true;
    }
    if members.listed.len() < others.listed.len() {
        return members.covers(others, hints.turned(), level)
            && others.covers(members, hints, level);
    }
    others.covers(members, hints, level) && members.covers(others, hints.turned(), level)
}
