//! A catalogue of lines that are numbered as they come, counted, and named if they have names; and how a line is added
//! to it: by its canonical text, or by its form under rules.
ghost use Rattle.std.specs.Prelude.{◌≡◌, ◌+◌, ◌^◌, ◌<◌, ◌≤◌, ◌++◌, ◌∷◌, [], ℕ, List, OnOk, length, IfOk};
ghost use Rattle.crs_group.specs.inner.GroupReading.{IsLedgerOf, IsLedgerOfNamed, blank_count, no_lines};
ghost use Rattle.crs_value.specs.declared.values.level.Level.{Level};
ghost use Rattle.crs_group.specs.GroupTexts.{IsCatalogueBy, then_line, PlacedLine};
ghost use Rattle.crs_group.specs.Names.{NamedText};

use crate::Placed;
use crate::catalogue::Catalogue;
use crate::names::{Names, keep_blank, keep_blank_text, text_in};
use crate::summary::Summary;
use crs_rules::Under;
use crs_value::Level;
use std::alloc::{AllocError, Global};
use std::marker::Model;

/// Lines or named texts, and their catalogue.
#[derive(Drop)]
pub struct Ledger {
    catalogue: Catalogue,
    names: Names,
    // The numbers of the blank ones among those that have names.
    blanks: Vec<u64>,
    lines: u64,
    blank: u64,
}

impl Model for Ledger {
    ghost use Rattle.std.specs.Prelude.{◌≤◌};
    ghost use Rattle.crs_group.specs.inner.GroupReading.{LedgerParts};

    ghost Value = { LedgerParts };

    ghost view = { λ ledger. record {
      catalogue = ledger.catalogue;
      names = ledger.names;
      blanks = ledger.blanks.items;
      lines = ledger.lines;
      blank = ledger.blank;
    } };

    ghost invariant = { λ ledger. ledger.blank ≤ ledger.lines };
}

impl Ledger {
    pub(crate) fn new(alloc: Global, level: Level) -> Ledger
        ensures { result ≡ no_lines level }
    {
        Ledger {
            catalogue: Catalogue::new(alloc, level),
            names: Names::new(alloc),
            blanks: Vec::new(alloc),
            lines: 0,
            blank: 0,
        }
    }

    /// The ledger of no texts, which are added in this way.
    pub fn of<A: Adding>(alloc: Global, adding: &A) -> Ledger
        ensures texts { IsLedgerOfNamed (A.Form adding.now) (A.Share adding.now) [] result }
        ensures level { result.catalogue.level ≡ A.level adding.now }
    {
        Ledger::new(alloc, adding.level())
    }

    pub(crate) fn add<A: Adding>(&mut self, way: &Way<A>, line: &[u8]) -> Result<(), AllocError>
        requires { self.old.lines + 1 < 2 ^ 64 }
        ensures texts { OnOk result ((texts : List (List ℕ)) →
            IsLedgerOf (A.Form way.now.adding) (A.Share way.now.adding) way.now.named texts self.old →
            IsLedgerOf (A.Form way.now.adding) (A.Share way.now.adding) way.now.named (texts ++ line.now ∷ []) self.new) }
        ensures lines { OnOk result (self.new.lines ≡ self.old.lines + 1) }
        ensures level { self.new.catalogue.level ≡ self.old.catalogue.level }
    {
        let named = way.named;
        let placed = way
            .adding
            .add(&mut self.catalogue, self.lines + 1, text_in(named, line))?;
        self.names.keep(named, self.lines + 1, line)?;
        keep_blank(&mut self.blanks, named, self.lines + 1, line)?;
        self.lines += 1;
        self.blank += blank_count(placed);
        Ok(())
    }

    /// Adds a text by its name.
    pub fn add_named<A: Adding>(
        &mut self,
        adding: &A,
        name: &[u8],
        text: &[u8],
    ) -> Result<(), AllocError>
        requires { self.old.lines + 1 < 2 ^ 64 }
        ensures texts { OnOk result ((texts : List NamedText) →
            IsLedgerOfNamed (A.Form adding.now) (A.Share adding.now) texts self.old →
            IsLedgerOfNamed (A.Form adding.now) (A.Share adding.now)
            (texts ++ record { name = name.now; text = text.now } ∷ []) self.new) }
        ensures lines { OnOk result (self.new.lines ≡ self.old.lines + 1) }
        ensures level { self.new.catalogue.level ≡ self.old.catalogue.level }
    {
        let placed = adding.add(&mut self.catalogue, self.lines + 1, text)?;
        self.names.push(name)?;
        keep_blank_text(&mut self.blanks, self.lines + 1, text)?;
        self.lines += 1;
        self.blank += blank_count(placed);
        Ok(())
    }

    pub(crate) fn lines(&self) -> u64
        ensures { result ≡ self.now.lines }
    {
        self.lines
    }

    pub(crate) fn names(&self) -> &Names
        ensures { result.now ≡ self.now.names }
    {
        &self.names
    }

    pub(crate) fn blanks(&self) -> &[u64]
        ensures { result.now ≡ self.now.blanks }
    {
        &self.blanks
    }

    pub(crate) fn catalogue(&self) -> &Catalogue
        ensures { result.now ≡ self.now.catalogue }
    {
        &self.catalogue
    }

    /// What it has.
    pub fn summary(&self) -> Summary
        ensures lines { result.lines ≡ self.now.lines }
        ensures blank { result.blank ≡ self.now.blank }
        ensures refused { result.refused ≡ length self.now.catalogue.refused }
        ensures groups { result.groups ≡ length self.now.catalogue.groups }
    {
        Summary {
            lines: self.lines,
            blank: self.blank,
            refused: self.catalogue.refused().len() as u64,
            groups: self.catalogue.groups() as u64,
        }
    }
}

// How many blank lines a line at this place is.
fn blank_count(placed: Placed) -> u64
    ensures count { result ≡ blank_count placed }
    ensures bound { result ≤ 1 }
{
    match placed {
        Placed::Blank => 1,
        Placed::Refused(_) | Placed::Group(_) => 0,
    }
}

/// How the text of a line is added.
pub trait Adding {
    // The text that a line's text has in its group.
    ghost Form: { Self → Level → List ℕ → List ℕ → Type 0 };

    // When two lines share a group.
    ghost Share: { Self → Level → PlacedLine → PlacedLine → Type 0 };

    ghost level: { Self → Level };

    /// The level at which texts are compared.
    fn level(&self) -> Level
        ensures { result ≡ level self.now };

    /// Adds the text of a line of this number.
    fn add(&self, catalogue: &mut Catalogue, line: u64, text: &[u8]) -> Result<Placed, AllocError>
        ensures catalogue { IfOk result (λ place. (placed : List PlacedLine) →
            IsCatalogueBy (Form self.now) (Share self.now) placed catalogue.old →
            IsCatalogueBy (Form self.now) (Share self.now) (then_line placed line text.now place) catalogue.new) }
        ensures level { catalogue.new.level ≡ catalogue.old.level };
}

/// By its canonical text at a level.
#[derive(Clone, Copy)]
pub struct ByCanon(pub Level);

impl Adding for ByCanon {
    ghost use Rattle.crs_writer.specs.Canonical.{IsCanonicalOf};
    ghost use Rattle.crs_group.specs.GroupTexts.{ShareWhereSame};

    ghost Form = { λ s level text bytes. IsCanonicalOf level text bytes };

    ghost Share = { λ s level p q. ShareWhereSame level p q };

    ghost level = { λ s. s.0 };

    fn level(&self) -> Level {
        self.0
    }

    fn add(&self, catalogue: &mut Catalogue, line: u64, text: &[u8]) -> Result<Placed, AllocError> {
        catalogue.add(line, text)
    }
}

/// By its form under rules.
#[derive(Clone, Copy)]
pub struct ByForm<'r>(pub Under<'r>);

impl Adding for ByForm<'_> {
    ghost use Rattle.crs_rules.specs.Rewritten.{IsForm};
    ghost use Rattle.crs_group.specs.UnderRules.{ShareWhereSameUnder};

    ghost Form = { λ s level text bytes. IsForm s.0.rules.now level text bytes };

    ghost Share = { λ s level p q. ShareWhereSameUnder s.0.rules.now level p q };

    ghost level = { λ s. s.0.level };

    fn level(&self) -> Level {
        self.0.level
    }

    fn add(&self, catalogue: &mut Catalogue, line: u64, text: &[u8]) -> Result<Placed, AllocError> {
        catalogue.add_under(line, text, self.0.rules)
    }
}

// A way to add lines: how their texts are added, and whether lines have names.
#[derive(Drop)]
pub(crate) struct Way<A: Adding> {
    pub(crate) adding: A,
    pub(crate) named: bool,
}
