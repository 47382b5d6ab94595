//! The groups of a catalogue: the numbers of the lines of each canonical text, in the order in which the texts came.
ghost use Rattle.std.specs.Prelude.{◌≡◌, ◌+◌, ◌^◌, ◌<◌, [], ◌∷◌, ◌++◌, Some, length, slice_get, IfOk, IfSome, MatchOption, OnErr};
ghost use Rattle.std.specs.Option.{option_copied, option_map};
ghost use Rattle.crs_group.specs.Catalogue.{canons};
ghost use Rattle.crs_group.specs.inner.Putting.{IsJoined, IsNew, group_of};

use crate::digested::Digested;
use indexmap::IndexMap;
use std::alloc::{AllocError, Global};
use std::marker::Model;

/// The groups of a catalogue.
#[derive(Drop)]
pub struct Groups {
    lines: IndexMap<Digested, Vec<u64>>,
}

impl Model for Groups {
    ghost use Rattle.std.specs.Prelude.{List};
    ghost use Rattle.crs_group.specs.Catalogue.{GroupParts};
    ghost use Rattle.crs_group.specs.inner.Entries.{groups_of};

    ghost Value = { List GroupParts };

    ghost view = { λ groups. groups_of (λ lines. lines.items) groups.lines.entries };
}

impl Groups {
    /// No groups. They take no memory.
    pub fn new(alloc: Global) -> Groups
        ensures { result ≡ [] }
    {
        let lines = IndexMap::new(alloc);
        Groups { lines }
    }

    /// How many groups there are.
    pub fn len(&self) -> usize
        ensures count { result ≡ length self.now }
        ensures small { result < 2 ^ 63 }
    {
        self.lines.len()
    }

    /// The numbers of the lines of the group at this place, from 0.
    pub fn lines(&self, at: usize) -> Option<&[u64]>
        ensures { option_copied result ≡ option_map (λ group. group.lines) (slice_get self.now at) }
    {
        let (_, lines) = self.lines.get_index(at)?;
        Some(lines.as_slice())
    }

    /// The canonical text of the group at this place.
    pub fn text(&self, at: usize) -> Option<&[u8]>
        ensures { option_copied result ≡ option_map (λ group. group.canon.bytes) (slice_get self.now at) }
    {
        let (canon, _) = self.lines.get_index(at)?;
        Some(canon.bytes())
    }

    /// The place of the group that has this text.
    pub fn position(&self, canon: &Digested) -> Option<usize>
        ensures found { MatchOption result (IsNew canon.now self.now)
            (λ at. slice_get (canons self.now) at ≡ Some canon.now) }
        ensures within { IfSome result (λ at. at < length self.now) }
    {
        self.lines.get_index_of(canon)
    }

    /// A further line in the group at this place. Out of memory, the groups are as before.
    pub fn join(&mut self, at: usize, line: u64) -> Result<(), AllocError>
        requires { at < length self.old }
        ensures groups { IfOk result (λ _. IsJoined at line self.old self.new) }
        ensures unchanged { OnErr result (self.new ≡ self.old) }
    {
        self.lines[at].push(line)?;
        Ok(())
    }

    /// A further group, of one line. Out of memory, the groups are as before.
    pub fn open(&mut self, alloc: Global, line: u64, canon: Digested) -> Result<(), AllocError>
        requires { IsNew canon self.old }
        ensures groups { IfOk result (λ _. self.new ≡ self.old ++ group_of canon line ∷ []) }
        ensures unchanged { OnErr result (self.new ≡ self.old) }
    {
        let mut lines = Vec::new(alloc);
        lines.push(line)?;
        self.lines.insert(canon, lines)?;
        Ok(())
    }
}
