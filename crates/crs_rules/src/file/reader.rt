//! From the bytes of rules files to their rules, line by line.
ghost use Rattle.std.specs.Prelude.{◌≡◌, ◌↔◌, ◌+◌, ◌^◌, ◌<◌, IsFalse, IsTrue, MatchResult, OnErr, OnOk, Some};
ghost use Rattle.std.specs.Option.{option_copied};
ghost use Rattle.crs_text.specs.Items.{HasId, IsNode, arguments};
ghost use Rattle.crs_value.specs.Reading.{IsReading};
ghost use Rattle.crs_value.specs.Sound.{IsText};
ghost use Rattle.crs_value.specs.inner.Arguments.{Holds, ahead, item_at};
ghost use Rattle.crs_rules.specs.RulesFile.{FaultOfLine, Reads, ReadsFile, RefusesFile, SpellsRules, is_idle, start};
ghost use Rattle.crs_rules.specs.Statements.{Adds, AddsSet, Drops, FaultOfNode, FaultOfSet, FaultOfStatement};
ghost use Rattle.crs_rules.specs.Statements.{FaultOfWord, FaultOver, IsRefusedBy, Joins, Over, States, IsOfSet, joined, listed, refused_at};
ghost use Rattle.crs_rules.specs.Statements.{FaultOfKind, FaultOfSort, SaysParameter, Sorts, SortsAll, is_meridian, kind_node};
ghost use Rattle.crs_rules.specs.inner.Grown.{HasGrown};
ghost use Rattle.crs_rules.specs.inner.Marks.{IsMarked, gone_back};
ghost use Rattle.crs_rules.specs.inner.Faults.{IsFaultIn};

use crate::file::fault::{NO_STATEMENT, NOT_HERE, OTHER_CLASS, REPEATED, RulesFault, RulesRefusal};
use crate::file::member::{Member, kind_of, member_at};
use crate::file::seen::Seen;
use crate::file::words::{is_meridian, is_word, kind_in, with_item};
use crate::{Rules, Uncounted};
use crs_decimal::Decimal;
use crs_shape::Class;
use crs_streams::first_line;
use crs_streams::laws::lines_are_one;
use crs_text::{Fault, ItemId, Items, read_items};
use crs_value::UnitKind;
use std::alloc::{AllocError, Global};
use std::marker::Model;

/// The rules that the bytes of a rules file spell; for more files, see [`RulesReader`].
///
/// `Refused`: the first refused line, with number and place. `Memory`: no memory for the rules. Time is linear in them.
pub fn read_rules(alloc: Global, bytes: &[u8]) -> Result<Rules, RulesFault>
    ensures { MatchResult result (SpellsRules bytes.now) (IsRefusedBy (RefusesFile start bytes.now)) }
{
    let mut reader = RulesReader::new(alloc);
    reader.read(alloc, bytes)?;
    Ok(reader.into_rules())
}

// Where a reader is: its line, how many nodes, names, units and kinds there are, and what doesn't count.
#[derive(Drop)]
struct Mark {
    line: usize,
    seen: usize,
    names: usize,
    units: usize,
    kinds: usize,
    uncounted: Uncounted,
}

/// What is known of rules files so far: their rules, and the nodes that stood.
#[derive(Drop)]
pub struct RulesReader {
    line: usize,
    seen: Seen,
    rules: Rules,
}

impl Model for RulesReader {
    ghost use Rattle.crs_rules.specs.Statements.{Reading};

    ghost Value = { Reading };

    ghost view = { λ r. record { line = r.line; seen = r.seen; rules = r.rules } };
}

// The refusal with this number at an item's first byte.
fn refused(line: usize, items: &Items<'_>, id: ItemId, number: u8) -> RulesFault
    requires { HasId items.now id }
    ensures { result ≡ RulesFault.Refused (refused_at number line (item_at items.now id)) }
{
    RulesFault::Refused(RulesRefusal {
        line,
        number,
        place: items.place(id),
    })
}

fn is_of_set(first: Option<&Member<'_>>, member: &Member<'_>) -> bool
    ensures { IsTrue result ↔ IsOfSet (option_copied first.entry) member.now }
{
    match first {
        None => true,
        Some(first) => member.class == first.class,
    }
}

// What a node says that names parameters.
fn parameter_at<'a>(items: &Items<'a>, id: ItemId) -> Option<Member<'a>>
    requires { HasId items.now id }
    ensures { IsReading (SaysParameter (item_at items.now id)) result }
{
    let member = member_at(items, id)?;
    match member.class {
        Class::Parameter => Some(member),
        _ => None,
    }
}

// The name of parameters of a `KIND`, among the nodes that stood.
fn kind_node(name: &[u8]) -> Member<'_>
    requires { IsText name.now }
    ensures { result ≡ kind_node name.now }
{
    Member {
        class: Class::Conversion,
        name,
        factor: Decimal::zero(),
    }
}

// A node counts as the first of its set, if it isn't itself the first. Out of memory, the rules are as before.
fn join(
    alloc: Global,
    rules: &mut Rules,
    first: Option<&Member<'_>>,
    member: &Member<'_>,
) -> Result<(), AllocError>
    ensures joined { OnOk result (rules.new ≡ joined (option_copied first.entry) member.now rules.old) }
    ensures unchanged { OnErr result (rules.new ≡ rules.old) }
{
    let Some(first) = first else {
        return Ok(());
    };
    match kind_of(first.class) {
        None => rules.alias_name(alloc, member, first),
        Some(kind) => rules.alias_unit(alloc, kind, member, first),
    }
}

impl RulesReader {
    /// Before the first file. It takes no memory.
    pub fn new(alloc: Global) -> RulesReader
        ensures { result ≡ start }
    {
        RulesReader {
            line: 0,
            seen: Seen::new(alloc),
            rules: Rules::new(alloc),
        }
    }

    /// The rules of all files that were read.
    pub fn rules(&self) -> &Rules
        ensures { result.now ≡ self.now.rules }
    {
        &self.rules
    }

    /// The same rules, without what else is known of the files.
    pub fn into_rules(self) -> Rules
        ensures { result ≡ self.rules }
    {
        self.rules
    }

    /// Reads the bytes of one more file.
    ///
    /// `Refused`: its first line that is refused, with its number and place. `Memory`: there is no memory for the rules.
    /// With both, all is as before. Time is linear in the bytes.
    #[tactic(auto, using(crate::proofs::GrownLemmas::back_there))]
    pub fn read(&mut self, alloc: Global, bytes: &[u8]) -> Result<(), RulesFault>
        ensures answer { MatchResult result (λ _. ReadsFile self.old bytes.now self.new)
            (IsRefusedBy (RefusesFile self.old bytes.now)) }
        ensures unchanged { OnErr result (self.new ≡ self.old) }
    {
        let mark = self.mark();
        match self.read_lines(alloc, bytes) {
            Ok(()) => Ok(()),
            Err(fault) => {
                self.go_back(&mark);
                Err(fault)
            }
        }
    }

    fn mark(&self) -> Mark
        ensures { IsMarked self.now result }
    {
        Mark {
            line: self.line,
            seen: self.seen.len(),
            names: self.rules.names(),
            units: self.rules.units(),
            kinds: self.rules.kinds(),
            uncounted: self.rules.uncounted(),
        }
    }

    // Forgets what was read since the reader was there.
    fn go_back(&mut self, mark: &Mark)
        ensures { self.new ≡ gone_back mark.now self.old }
    {
        self.line = mark.line;
        self.seen.truncate(mark.seen);
        self.rules.truncate(mark.names, mark.units, mark.kinds);
        self.rules.set_uncounted(mark.uncounted);
    }

    // Reads the lines of a file. With a fault some of it may have been added.
    fn read_lines(&mut self, alloc: Global, bytes: &[u8]) -> Result<(), RulesFault>
        ensures answer { MatchResult result (λ _. ReadsFile self.old bytes.now self.new)
            (IsRefusedBy (RefusesFile self.old bytes.now)) }
        ensures grown { HasGrown self.old self.new }
    {
        lines_are_one();
        self.begin();
        let mut left = bytes;
        while !left.is_empty() {
            let (line, rest) = first_line(left);
            self.read_line(alloc, line)?;
            left = rest;
        }
        Ok(())
    }

    fn begin(&mut self)
        ensures { self.new ≡ record self.old { line = 0 } }
    {
        self.line = 0;
    }

    // Adds a node to its set, or begins one with it.
    #[tactic(auto, using(crate::proofs::GrownLemmas::grown_self, crate::proofs::GrownLemmas::grown_by))]
    fn add<'a>(
        &mut self,
        alloc: Global,
        items: &Items<'a>,
        id: ItemId,
        first: Option<&Member<'a>>,
    ) -> Result<Member<'a>, RulesFault>
        requires { HasId items.now id }
        ensures answer { MatchResult result
            (λ m. Adds (option_copied first.entry) m self.old (item_at items.now id) self.new)
            (IsRefusedBy (FaultOfNode (option_copied first.entry) self.old (item_at items.now id))) }
        ensures grown { HasGrown self.old self.new }
    {
        let Some(member) = member_at(items, id) else {
            return Err(refused(self.line, items, id, NOT_HERE));
        };
        if !is_of_set(first, &member) {
            return Err(refused(self.line, items, id, OTHER_CLASS));
        }
        match self.seen.add(alloc, &member) {
            Ok(true) => match join(alloc, &mut self.rules, first, &member) {
                Ok(()) => Ok(member),
                Err(error) => Err(RulesFault::Memory(error)),
            },
            Ok(false) => Err(refused(self.line, items, id, REPEATED)),
            Err(error) => Err(RulesFault::Memory(error)),
        }
    }

    fn add_others<'a>(
        &mut self,
        alloc: Global,
        items: &Items<'a>,
        from: Option<ItemId>,
        first: &Member<'a>,
    ) -> Result<(), RulesFault>
        requires { Holds items.now from }
        ensures answer { MatchResult result
            (λ _. Over (Joins first.now) self.old (listed (ahead items.now from)) self.new)
            (IsRefusedBy (FaultOver (Joins first.now) (FaultOfNode (Some first.now)) self.old
            (listed (ahead items.now from)))) }
        ensures grown { HasGrown self.old self.new }
    {
        let mut at = from;
        while let Some(id) = at {
            self.add(alloc, items, id, Some(first))?;
            at = items.next(id);
        }
        Ok(())
    }

    #[tactic(auto, using(crate::proofs::GrownLemmas::grown_on))]
    fn add_set(&mut self, alloc: Global, items: &Items<'_>, id: ItemId) -> Result<(), RulesFault>
        requires has { HasId items.now id }
        requires node { IsNode (item_at items.now id) }
        ensures answer { MatchResult result (λ _. AddsSet self.old (arguments (item_at items.now id)) self.new)
            (IsRefusedBy (FaultOfSet self.old (arguments (item_at items.now id)))) }
        ensures grown { HasGrown self.old self.new }
    {
        let Some(begin) = items.arg(id, 0) else {
            unreachable!()
        };
        let first = self.add(alloc, items, begin, None)?;
        self.add_others(alloc, items, items.next(begin), &first)
    }

    // What an item names doesn't count.
    #[tactic(auto, using(crate::proofs::GrownLemmas::grown_self, crate::proofs::GrownLemmas::grown_dropped))]
    fn drop_word(&mut self, items: &Items<'_>, id: ItemId) -> Result<(), RulesFault>
        requires { HasId items.now id }
        ensures answer { MatchResult result (λ _. Drops self.old (item_at items.now id) self.new)
            (IsRefusedBy (FaultOfWord self.old (item_at items.now id))) }
        ensures grown { HasGrown self.old self.new }
    {
        match with_item(items, id, self.rules.uncounted()) {
            Some(uncounted) => {
                self.rules.set_uncounted(uncounted);
                Ok(())
            }
            None => Err(refused(self.line, items, id, NOT_HERE)),
        }
    }

    // What the items from this one on name doesn't count.
    fn drop_words(&mut self, items: &Items<'_>, from: Option<ItemId>) -> Result<(), RulesFault>
        requires { Holds items.now from }
        ensures answer { MatchResult result (λ _. Over Drops self.old (listed (ahead items.now from)) self.new)
            (IsRefusedBy (FaultOver Drops FaultOfWord self.old (listed (ahead items.now from)))) }
        ensures grown { HasGrown self.old self.new }
    {
        let mut at = from;
        while let Some(id) = at {
            self.drop_word(items, id)?;
            at = items.next(id);
        }
        Ok(())
    }

    // Numbers of parameters of a node's name are of this kind.
    fn declare(
        &mut self,
        alloc: Global,
        items: &Items<'_>,
        at: ItemId,
        kind: UnitKind,
    ) -> Result<(), RulesFault>
        requires has { HasId items.now at }
        requires other { IsFalse (is_meridian kind (item_at items.now at)) }
        ensures answer { MatchResult result (λ _. Sorts kind self.old (item_at items.now at) self.new)
            (IsRefusedBy (FaultOfSort kind self.old (item_at items.now at))) }
        ensures grown { HasGrown self.old self.new }
    {
        let Some(member) = parameter_at(items, at) else {
            return Err(refused(self.line, items, at, NOT_HERE));
        };
        match self.seen.add(alloc, &kind_node(member.name)) {
            Ok(true) => match self.rules.declare_kind(alloc, member.name, kind) {
                Ok(()) => Ok(()),
                Err(error) => Err(RulesFault::Memory(error)),
            },
            Ok(false) => Err(refused(self.line, items, at, REPEATED)),
            Err(error) => Err(RulesFault::Memory(error)),
        }
    }

    // An item of this kind: all prime meridians, or parameters.
    #[tactic(auto, using(crate::proofs::GrownLemmas::grown_dropped))]
    fn sort(
        &mut self,
        alloc: Global,
        items: &Items<'_>,
        id: ItemId,
        kind: UnitKind,
    ) -> Result<(), RulesFault>
        requires { HasId items.now id }
        ensures answer { MatchResult result (λ _. Sorts kind self.old (item_at items.now id) self.new)
            (IsRefusedBy (FaultOfSort kind self.old (item_at items.now id))) }
        ensures grown { HasGrown self.old self.new }
    {
        if !is_meridian(items, id, kind) {
            return self.declare(alloc, items, id, kind);
        }
        let mut uncounted = self.rules.uncounted();
        uncounted.meridian_units = true;
        self.rules.set_uncounted(uncounted);
        Ok(())
    }

    fn sort_others(
        &mut self,
        alloc: Global,
        items: &Items<'_>,
        from: Option<ItemId>,
        kind: UnitKind,
    ) -> Result<(), RulesFault>
        requires { Holds items.now from }
        ensures answer { MatchResult result (λ _. Over (Sorts kind) self.old (listed (ahead items.now from)) self.new)
            (IsRefusedBy (FaultOver (Sorts kind) (FaultOfSort kind) self.old (listed (ahead items.now from)))) }
        ensures grown { HasGrown self.old self.new }
    {
        let mut at = from;
        while let Some(id) = at {
            self.sort(alloc, items, id, kind)?;
            at = items.next(id);
        }
        Ok(())
    }

    // What the items behind the first are of the kind that it names.
    #[tactic(auto, using(crate::proofs::GrownLemmas::grown_self))]
    fn sort_all(&mut self, alloc: Global, items: &Items<'_>, id: ItemId) -> Result<(), RulesFault>
        requires has { HasId items.now id }
        requires node { IsNode (item_at items.now id) }
        ensures answer { MatchResult result (λ _. SortsAll self.old (arguments (item_at items.now id)) self.new)
            (IsRefusedBy (FaultOfKind self.old (arguments (item_at items.now id)))) }
        ensures grown { HasGrown self.old self.new }
    {
        let Some(begin) = items.arg(id, 0) else {
            unreachable!()
        };
        match kind_in(items, begin) {
            Some(kind) => self.sort_others(alloc, items, items.next(begin), kind),
            None => Err(refused(self.line, items, begin, NOT_HERE)),
        }
    }

    #[tactic(auto, using(crate::proofs::GrownLemmas::grown_self))]
    fn read_statement(&mut self, alloc: Global, items: &Items<'_>) -> Result<(), RulesFault>
        requires { IsNode items.now }
        ensures answer { MatchResult result (λ _. States self.old items.now self.new)
            (IsRefusedBy (FaultOfStatement self.old items.now)) }
        ensures grown { HasGrown self.old self.new }
    {
        let root = items.root();
        if is_word("SAME", items.raw(root)) {
            return self.add_set(alloc, items, root);
        }
        if is_word("UNCOUNTED", items.raw(root)) {
            return self.drop_words(items, items.arg(root, 0));
        }
        if is_word("KIND", items.raw(root)) {
            return self.sort_all(alloc, items, root);
        }
        Err(refused(self.line, items, root, NO_STATEMENT))
    }

    #[tactic(auto, using(crate::proofs::GrownLemmas::grown_on, crate::proofs::GrownLemmas::grown_line))]
    fn read_line(&mut self, alloc: Global, line: &[u8]) -> Result<(), RulesFault>
        requires { self.old.line + 1 < 2 ^ 64 }
        ensures answer { MatchResult result (λ _. Reads self.old line.now self.new)
            (IsRefusedBy (FaultOfLine self.old line.now)) }
        ensures grown { HasGrown self.old self.new }
    {
        self.line += 1;
        if is_idle(line) {
            return Ok(());
        }
        match read_items(alloc, line) {
            Ok(items) => self.read_statement(alloc, &items),
            Err(fault) => Err(fault_in(self.line, fault)),
        }
    }
}

fn fault_in(line: usize, fault: Fault) -> RulesFault
    ensures { IsFaultIn line fault result }
{
    match fault {
        Fault::Refused(refusal) => RulesFault::Refused(RulesRefusal {
            line,
            number: refusal.number(),
            place: refusal.place(),
        }),
        Fault::Memory(error) => RulesFault::Memory(error),
    }
}

/// Whether a line of a rules file says nothing: it is blank, or a comment.
pub fn is_idle(line: &[u8]) -> bool
    ensures { result ≡ is_idle line.now }
{
    for byte in line {
        if *byte == b'#' {
            return true;
        }
        if !matches!(*byte, b' ' | b'\t' | b'\n' | b'\r') {
            return false;
        }
    }
    true
}
