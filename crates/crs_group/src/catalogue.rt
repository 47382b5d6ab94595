//! The catalogue: groups by their canonical texts, and the refused lines.
ghost use Rattle.std.specs.Prelude.{◌≡◌, ◌+◌, ◌<◌, [], ◌∷◌, ◌++◌, List, Some, length, IfOk, IfSome, MatchResult, OnErr, OnOk};
ghost use Rattle.std.specs.Option.{option_copied, option_map};
ghost use Rattle.std.specs.List.{list_all};
ghost use Rattle.crs_text.specs.Tokens.{is_white};
ghost use Rattle.crs_value.specs.Spells.{IsFaultOfText};
ghost use Rattle.crs_writer.specs.Canonical.{IsCanonicalOf};
ghost use Rattle.crs_rules.specs.Rules.{RulesParts};
ghost use Rattle.crs_rules.specs.Rewritten.{IsForm};
ghost use Rattle.crs_group.specs.Catalogue.{Line, canons, line_of, nth};
ghost use Rattle.crs_group.specs.inner.Putting.{IsJoined, IsPut, IsRefused};
ghost use Rattle.crs_group.specs.declared.placed.Placed.TheVariants.{Group};
ghost use Rattle.crs_group.specs.GroupTexts.{IsCatalogue, IsCatalogueOf, IsUnder, then_line, PlacedLine};
ghost use Rattle.crs_group.specs.inner.Known.{HasGroup};
ghost use Rattle.crs_group.specs.UnderRules.{IsCatalogueOfUnder, IsCatalogueUnder};

use crate::Placed;
use crate::digested::Digested;
use crate::groups::Groups;
use crate::recent::{Recent, place_of};
use crs_canon::{Canon, canon_in, laws};
use crs_rules::laws::{accepted_text_has_one_form, rules_are_sound};
use crs_rules::{Rules, canon_under};
use crs_text::{Fault, Refusal};
use crs_value::Level;
use std::alloc::{AllocError, Global};
use std::marker::Model;

/// A catalogue of lines, by what their texts spell.
#[derive(Drop)]
pub struct Catalogue {
    alloc: Global,
    level: Level,
    groups: Groups,
    // The number of each refused line, and why.
    refused: Vec<(u64, Refusal)>,
    // Lines that were added by their canonical texts, with their groups.
    recent: Recent,
    // The memory of a canonical text that isn't kept, for that of the next line.
    room: Vec<u8>,
}

impl Model for Catalogue {
    ghost use Rattle.crs_group.specs.Catalogue.{CatalogueParts, canons};

    ghost Value = { CatalogueParts };

    ghost use Rattle.crs_group.specs.inner.Known.{AreKnown};

    ghost view = { λ catalogue. record {
      level = catalogue.level;
      groups = catalogue.groups;
      refused = catalogue.refused.items;
    } };

    ghost invariant = { λ catalogue. AreKnown catalogue.level (canons catalogue.groups) catalogue.recent };
}

impl Catalogue {
    /// A catalogue of no lines. It takes no memory.
    pub fn new(alloc: Global, level: Level) -> Catalogue
        ensures empty { result ≡ record { level = level; groups = []; refused = [] } }
        ensures catalogue { IsCatalogue [] result }
        ensures lines { IsCatalogueOf [] result }
        ensures under { (rules : RulesParts) → IsCatalogueUnder rules [] result }
        ensures lines_under { (rules : RulesParts) → IsCatalogueOfUnder rules [] result }
    {
        Catalogue {
            alloc,
            level,
            groups: Groups::new(alloc),
            refused: Vec::new(alloc),
            recent: Recent::new(alloc),
            room: Vec::new(alloc),
        }
    }

    /// How many groups there are.
    pub fn groups(&self) -> usize
        ensures { result ≡ length self.now.groups }
    {
        self.groups.len()
    }

    /// The numbers of a group's lines, as they came. `None`: no group, counted from 1, has this number.
    pub fn lines(&self, number: usize) -> Option<&[u64]>
        ensures { option_copied result ≡ option_map (λ group. group.lines) (nth number self.now.groups) }
    {
        match number {
            0 => None,
            _ => self.groups.lines(number - 1),
        }
    }

    /// A group's canonical text. `None`: there is no group of this number.
    pub fn text(&self, number: usize) -> Option<&[u8]>
        ensures { option_copied result ≡ option_map (λ group. group.canon.bytes) (nth number self.now.groups) }
    {
        match number {
            0 => None,
            _ => self.groups.text(number - 1),
        }
    }

    /// The refused lines with their refusals, in the order in which they were added.
    pub fn refused(&self) -> &[(u64, Refusal)]
        ensures { result.now ≡ self.now.refused }
    {
        &self.refused
    }

    /// Adds a line, and returns where it was placed: with the lines whose CRSs are the same, if it spells a CRS.
    ///
    /// `AllocError`: there is no memory for the line; the catalogue is as before.
    pub fn add(&mut self, line: u64, text: &[u8]) -> Result<Placed, AllocError>
        ensures catalogue { IfOk result (λ place. (placed : List PlacedLine) → IsCatalogue placed self.old →
            IsCatalogue (then_line placed line text.now place) self.new) }
        ensures lines { OnOk result ((lines : List Line) → IsCatalogueOf lines self.old →
            IsCatalogueOf (lines ++ line_of line text.now ∷ []) self.new) }
        ensures level { self.new.level ≡ self.old.level }
        ensures unchanged { OnErr result (self.new ≡ self.old) }
    {
        laws::main_theorem();
        if is_blank(text) {
            return Ok(Placed::Blank);
        }
        let place = place_of(text);
        if let Some(at) = self.known(place, text) {
            return self.join(line, at);
        }
        match self.canon(text) {
            Ok(canon) => self.put_and_remember(line, place, text, canon),
            Err(fault) => self.refuse(line, fault),
        }
    }

    /// Adds a line under rules, and returns where it was placed: with the lines whose texts have the same form under
    /// the rules, if it spells a CRS. A group's text is the form. All lines of a catalogue are added under the same
    /// rules.
    ///
    /// `AllocError`: there is no memory for the line; the catalogue is as before.
    pub fn add_under(&mut self, line: u64, text: &[u8], rules: &Rules) -> Result<Placed, AllocError>
        ensures catalogue { IfOk result (λ place. (placed : List PlacedLine) →
            IsCatalogueUnder rules.now placed self.old →
            IsCatalogueUnder rules.now (then_line placed line text.now place) self.new) }
        ensures lines { OnOk result ((lines : List Line) → IsCatalogueOfUnder rules.now lines self.old →
            IsCatalogueOfUnder rules.now (lines ++ line_of line text.now ∷ []) self.new) }
        ensures level { self.new.level ≡ self.old.level }
        ensures unchanged { OnErr result (self.new ≡ self.old) }
    {
        accepted_text_has_one_form();
        rules_are_sound(rules);
        if is_blank(text) {
            return Ok(Placed::Blank);
        }
        match self.form(text, rules) {
            Ok(form) => self.put(line, form),
            Err(fault) => self.refuse(line, fault),
        }
    }

    // The form of a line under rules.
    fn form(&self, text: &[u8], rules: &Rules) -> Result<Canon, Fault>
        ensures answer { MatchResult result (λ form. IsForm rules.now self.now.level text.now form.bytes)
            (IsFaultOfText text.now) }
        ensures level { IfOk result (λ form. form.level ≡ self.now.level) }
    {
        canon_under(self.alloc, text, self.level, rules)
    }

    // The canonical text of a line, in the room.
    fn canon(&mut self, text: &[u8]) -> Result<Canon, Fault>
        ensures answer { MatchResult result (λ canon. IsCanonicalOf self.old.level text.now canon.bytes)
            (IsFaultOfText text.now) }
        ensures level { IfOk result (λ canon. canon.level ≡ self.old.level) }
        ensures unchanged { self.new ≡ self.old }
    {
        canon_in(self.alloc, text, self.level, &mut self.room)
    }

    // The place of the group of a text, from 0, where a recent line has the same bytes.
    fn known(&self, place: Option<usize>, text: &[u8]) -> Option<usize>
        ensures group { IfSome result (HasGroup self.now.level (canons self.now.groups) text.now) }
        ensures within { IfSome result (λ at. at < length self.now.groups) }
    {
        self.recent.group_of(place?, text)
    }

    // Puts a line into the group of its canonical text, and remembers it.
    fn put_and_remember(
        &mut self,
        line: u64,
        place: Option<usize>,
        text: &[u8],
        canon: Canon,
    ) -> Result<Placed, AllocError>
        requires canonical { IsCanonicalOf self.old.level text.now canon.bytes }
        requires level { canon.level ≡ self.old.level }
        ensures groups { IfOk result (IsPut canon line self.old.groups self.new.groups) }
        ensures refused { self.new.refused ≡ self.old.refused }
        ensures level { self.new.level ≡ self.old.level }
        ensures unchanged { OnErr result (self.new ≡ self.old) }
    {
        let placed = self.put(line, canon)?;
        self.remember(place, text, &placed);
        Ok(placed)
    }

    // Remembers the group of a text, where that has a place among recent lines.
    fn remember(&mut self, place: Option<usize>, text: &[u8], placed: &Placed)
        requires { IsUnder IsCanonicalOf self.old.level (canons self.old.groups) text.now placed.now }
        ensures { self.new ≡ self.old }
    {
        let Some(place) = place else {
            return;
        };
        let Placed::Group(number) = placed else {
            return;
        };
        self.recent.keep(self.alloc, place, text, *number - 1);
    }

    // Puts a line into the group of its text.
    fn put(&mut self, line: u64, canon: Canon) -> Result<Placed, AllocError>
        ensures groups { IfOk result (IsPut canon line self.old.groups self.new.groups) }
        ensures refused { self.new.refused ≡ self.old.refused }
        ensures level { self.new.level ≡ self.old.level }
        ensures unchanged { OnErr result (self.new ≡ self.old) }
    {
        let count = self.groups.len();
        let canon = Digested::of(canon);
        match self.groups.position(&canon) {
            Some(at) => {
                self.room = canon.into_canon().into_bytes();
                self.room.clear();
                self.join(line, at)
            }
            None => {
                self.groups
                    .open(self.alloc, line, canon.without_spare_room())?;
                Ok(Placed::Group(count + 1))
            }
        }
    }

    // Puts a line into the group at this place, from 0.
    fn join(&mut self, line: u64, at: usize) -> Result<Placed, AllocError>
        requires { at < length self.old.groups }
        ensures groups { IfOk result (λ place. (place ≡ Group (at + 1)) ×
            IsJoined at line self.old.groups self.new.groups) }
        ensures refused { self.new.refused ≡ self.old.refused }
        ensures level { self.new.level ≡ self.old.level }
        ensures unchanged { OnErr result (self.new ≡ self.old) }
    {
        // Asks their number so that its bound is known.
        let _count = self.groups.len();
        self.groups.join(at, line)?;
        Ok(Placed::Group(at + 1))
    }

    // Adds a refused line. Out of memory, the lines are as before.
    fn refuse(&mut self, line: u64, fault: Fault) -> Result<Placed, AllocError>
        ensures groups { self.new.groups ≡ self.old.groups }
        ensures refused { IfOk result (IsRefused fault line self.old.refused self.new.refused) }
        ensures level { self.new.level ≡ self.old.level }
        ensures unchanged { OnErr result (self.new ≡ self.old) }
    {
        match fault {
            Fault::Refused(refusal) => {
                self.refused.push((line, refusal))?;
                Ok(Placed::Refused(refusal))
            }
            Fault::Memory(error) => Err(error),
        }
    }
}

/// Whether a text is only white space, or empty: a blank line is in no group.
pub fn is_blank(text: &[u8]) -> bool
    ensures { result ≡ list_all is_white text.now }
{
    text.iter()
        .all(|byte| matches!(byte, b' ' | b'\t' | b'\n' | b'\r'))
}
