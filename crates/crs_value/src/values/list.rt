//! Lists.
#![tactic(auto, unfolding(crate::specs::inner::Fronts::front))]

ghost use Rattle.std.specs.Prelude.{◌≡◌, ◌<◌, [], IfOk, None, length, map};
ghost use Rattle.std.specs.List.{swap};
ghost use Rattle.crs_value.specs.inner.Fronts.{front};
ghost use Rattle.crs_value.specs.Members.{HaveSameMembers};

use crate::values::key::{CounterpartHints, Keyed, Places};
use crate::{Level, Made};
use std::alloc::Global;
use std::marker::Model;

// In a list of up to so many members, a counterpart is looked for member by member.
pub(crate) const FEW: usize = 32;

/// A list in a value, seen as its members in order. Profile.
pub struct List<T> {
    // The members; behind them, where some of many are repeated, each once.
    members: Vec<T>,
    // How they are found, where more than `FEW` were read.
    lookup: Option<Box<Lookup>>,
}

// How members are found. No member is in it, since what is in a `Box` keeps its lifetime.
#[derive(Drop)]
struct Lookup {
    // How many members there are.
    count: usize,
    // Where those that are looked through are by their keys: at the full level, and by definition if keys differ.
    places: Vec<Places>,
}

impl<T> Model for List<T> {
    ghost use Rattle.std.specs.Prelude as std;
    ghost use Rattle.std.specs.Prelude.{IfSome};
    ghost use Rattle.crs_value.specs.inner.Fronts.{AreFollowedByOnce, front};

    ghost Value = { std.List T };

    ghost view = { λ a. front (λ lookup. lookup.value.count) a.lookup a.members.items };

    ghost invariant = { λ a. IfSome a.lookup (λ lookup. AreFollowedByOnce lookup.value.count a.members.items) };
}

impl<T: Drop> Drop for List<T> {
    fn drop(self) {
        let_go!(self: List { members, lookup });
    }
}

/// A change of values in place, the same for each. Profile.
pub trait Change<T> {
    /// What a value becomes.
    ghost changed: { Self → T → T };

    /// Changes the value.
    fn change(&self, value: &mut T)
        ensures { value.new ≡ changed self.now value.old };
}

impl<T> List<T> {
    /// The members, in order.
    pub fn as_slice(&self) -> &[T]
        ensures { result.now ≡ self.now }
    {
        match &self.lookup {
            Some(lookup) => &self.members[..lookup.count],
            None => &self.members,
        }
    }

    /// The same members, as a set: of more than 32 identifiers that were read, each is there once, so that two lists are
    /// compared in the time of the shorter one. Profile.
    pub fn as_set(&self) -> &[T]
        ensures { HaveSameMembers result.now self.now }
    {
        match &self.lookup {
            Some(lookup) if lookup.count < self.members.len() => &self.members[lookup.count..],
            _ => self.as_slice(),
        }
    }

    /// Where members of `as_set` may have counterparts in another list. No promise rests on it: there are hints for
    /// lists of more than 32 members, until they are changed. Profile.
    pub fn counterpart_hints<'b>(&'b self, others: &'b Self, level: Level) -> CounterpartHints<'b> {
        CounterpartHints {
            places: self.places(level).zip(others.places(level)),
        }
    }

    pub(crate) fn places(&self, level: Level) -> Option<&Places> {
        self.lookup.as_ref()?.places.get(level as usize)
    }

    /// Changes each member. Profile.
    pub fn change_each<C: Change<T>>(&mut self, change: &C)
    where
        T: Drop,
        ensures { self.new ≡ map (C.changed change.now) self.old }
    {
        forget(&mut self.members, &mut self.lookup);
        for member in self.members.iter_mut() {
            change.change(member);
        }
    }

    /// Puts two members in each other's place. Profile.
    pub fn swap(&mut self, first: usize, second: usize)
    where
        T: Drop,
        requires first { first < length self.old }
        requires second { second < length self.old }
        ensures { self.new ≡ swap self.old first second }
    {
        forget(&mut self.members, &mut self.lookup);
        self.members.swap(first, second);
    }

    /// Takes all members out. Profile.
    pub fn clear(&mut self)
    where
        T: Drop,
        ensures { self.new ≡ [] }
    {
        self.lookup = None;
        self.members.clear();
    }

    /// A list without members. It takes no memory. Profile.
    pub fn new(alloc: Global) -> List<T>
        ensures { result ≡ [] }
    {
        List {
            members: Vec::new(alloc),
            lookup: None,
        }
    }

    // The list of these members, which knows where they are if they are many; behind them each once, where some repeat.
    pub(crate) fn of(alloc: Global, mut members: Vec<T>) -> Made<List<T>>
    where
        T: Keyed + Drop,
        ensures { IfOk result (λ list. list ≡ members.items) }
    {
        let count = members.len();
        if count <= FEW {
            return Ok(List {
                members,
                lookup: None,
            });
        }
        let places = places_of(alloc, &members)?;
        let Some(mut once) = T::once(alloc, &members, &places)? else {
            let lookup = Some(Box::new(alloc, Lookup { count, places })?);
            return Ok(List { members, lookup });
        };
        let places = places_of(alloc, &once)?;
        let lookup = Some(Box::new(alloc, Lookup { count, places })?);
        members.append(&mut once)?;
        Ok(List { members, lookup })
    }
}

// Leaves the members alone.
fn forget<T: Drop>(members: &mut Vec<T>, lookup: &mut Option<Box<Lookup>>)
    ensures members { members.new.items ≡ front (λ lookup. lookup.value.count) lookup.old members.old.items }
    ensures lookup { lookup.new ≡ None }
{
    if let Some(known) = lookup {
        members.truncate(known.count);
        *lookup = None;
    }
}

fn places_of<T: Keyed>(alloc: Global, members: &[T]) -> Made<Vec<Places>> {
    let mut places = Vec::new(alloc);
    places.push(Places::of(alloc, members, Level::Full)?)?;
    if T::HAS_TWO_KEYS {
        places.push(Places::of(alloc, members, Level::Definition)?)?;
    }
    Ok(places)
}
