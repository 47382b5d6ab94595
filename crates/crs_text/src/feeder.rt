//! Texts that come in pieces.
ghost use Rattle.std.specs.Prelude.{◌≡◌, ◌++◌, [], None, take, IfErr, MatchResult};
ghost use Rattle.crs_text.specs.TextFault.{IsTakenSoFar, IsPieceFault, IsWantUnrefused, SpellsNode, IsTextFault};
ghost use Rattle.crs_text.specs.inner.Feeding.{IsSettledTo, IsRefusalOf};

use crate::fault::Fault;
use crate::feeding::{Held, Pending, read_on};
use crate::items::Items;
use crate::refusal::Refusal;
use crate::scanning::{after_white, items_in};
use crate::table::Table;
use std::alloc::Global;
use std::marker::Model;

/// A text that comes in pieces: its bytes so far. Profile.
#[derive(Drop)]
pub struct Feeder {
    alloc: Global,
    bytes: Vec<u8>,
    table: Table,
    held: Held,
    refusal: Option<Refusal>,
}

impl Model for Feeder {
    ghost use Rattle.std.specs.Prelude.{ℕ, List};
    ghost use Rattle.crs_text.specs.inner.Feeding.{IsFed};

    ghost Value = { List ℕ };

    ghost view = { λ f. f.bytes.items };

    ghost invariant = { λ f. IsFed f.bytes.items f.table f.held f.refusal };
}

impl Feeder {
    /// A feeder that holds no bytes. It takes no memory yet.
    pub fn new(alloc: Global) -> Self
        ensures { result ≡ [] }
    {
        Feeder {
            alloc,
            bytes: Vec::new(alloc),
            table: Table::new(Vec::new(alloc)),
            held: Held {
                at: 0,
                pending: Pending::Unknown,
            },
            refusal: None,
        }
    }

    /// Takes the next piece of the text. Ok says that nothing settled refuses what came so far: a number, text or
    /// word is settled once a byte follows it; a comma, a delimiter and a byte that begins no token at once;
    /// ill-formed UTF-8 once no continuation can be valid.
    ///
    /// `Refused`: a refusal with a number from 1 to 8 is settled: every text that begins so has it; every
    /// later call answers it, and no later piece is held. `Memory`: the piece counts as not fed.
    /// Time is linear in the text, however it is cut.
    pub fn feed(&mut self, piece: &[u8]) -> Result<(), Fault>
        ensures { MatchResult result (λ _. (self.new ≡ self.old ++ piece.now) × IsTakenSoFar self.new)
            (IsPieceFault self.old piece.now self.new) }
    {
        refused(&self.refusal)?;
        let fed = self.bytes.len();
        self.bytes.extend_from_slice(piece).map_err(Fault::Memory)?;
        match read_on(&mut self.table, &self.bytes, piece, self.held) {
            Ok(held) => {
                self.held = held;
                Ok(())
            }
            Err(fault) => {
                self.refusal = fault.refusal();
                if self.refusal.is_none() {
                    self.held = cut_back(self.alloc, &mut self.bytes, &mut self.table, fed);
                }
                Err(fault)
            }
        }
    }

    /// The items of the text, if nothing more comes; they borrow its bytes.
    ///
    /// `Refused`: the bytes are no node, with a number from 1 to 8 and the place of the first fault. More may be
    /// fed, and a refusal that wasn't settled is forgotten. `Memory`: a row of the table was refused.
    pub fn finish(&self) -> Result<Items<'_>, Fault>
        ensures answer { MatchResult result (SpellsNode self.now) (IsTextFault self.now) }
        ensures memory { IfErr result (IsWantUnrefused self.now) }
    {
        refused(&self.refusal)?;
        let table = self.table.copied(self.alloc).map_err(Fault::Memory)?;
        items_in(table, &self.bytes, self.held.at)
    }
}

// The refusal that is known, if any.
fn refused(known: &Option<Refusal>) -> Result<(), Fault>
    ensures { MatchResult result (λ _. known.now ≡ None) (IsRefusalOf known.now) }
{
    match known {
        Some(refusal) => Err(Fault::Refused(*refusal)),
        None => Ok(()),
    }
}

// Cuts a piece off again. The table has rows of it, so the bytes before are read anew with the next one.
fn cut_back(alloc: Global, bytes: &mut Vec<u8>, table: &mut Table, fed: usize) -> Held
    ensures bytes { bytes.new.items ≡ take fed bytes.old.items }
    ensures settled { IsSettledTo bytes.new.items table.new result.at }
    ensures pending { result.pending ≡ Pending.Unknown }
{
    bytes.truncate(fed);
    *table = Table::new(Vec::new(alloc));
    Held {
        at: after_white(bytes, 0),
        pending: Pending::Unknown,
    }
}
