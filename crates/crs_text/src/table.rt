ghost use Rattle.std.specs.Prelude.{◌≡◌, ◌+◌, ◌-◌, ◌<◌, ◌≤◌, ◌&&◌, true, IsSome, IfOk, OnOk, OnErr, MatchBool, [], length};
ghost use Rattle.crs_text.specs.inner.Table.{may_begin, with_first, with_opened, flat_single, may_go_on, flat_comma, has_square};
ghost use Rattle.crs_text.specs.inner.Table.{flat_close, IsStep, IsOpened, IsNodeBegun, is_whole, flat};
ghost use Rattle.crs_text.specs.Items.{keyword_at};
ghost use Rattle.crs_text.specs.Keywords.{keyword_of};
ghost use Rattle.crs_text.specs.inner.State.{start};

use crate::items::ItemKind;
use crate::keyword::Keyword;
use std::alloc::{AllocError, Global};
use std::marker::Model;

/// The most delimiters that are open at once. Profile.
const LIMIT: usize = 12;

/// Where the tokens so far have led.
#[derive(Clone, Copy)]
pub(crate) enum Progress {
    /// At the start, after an opening delimiter or a comma.
    BeforeItem,
    /// After a word, which may begin a node.
    AfterWord,
    /// After any other item.
    AfterItem,
}

/// What became of an opening delimiter.
#[derive(Clone, Copy)]
pub(crate) enum Opened {
    Taken,
    /// It follows a word, but no more delimiters may be open.
    TooDeep,
    Refused,
}

/// An item: its first byte's place, the length of its raw bytes, which begin there or after a quote; a node's closing
/// delimiter, its count of arguments and of all items in it, itself included; how many delimiters are open around it;
/// and the keyword that a word or a node's word is.
#[derive(Clone, Copy)]
pub(crate) struct Row {
    pub(crate) place: usize,
    pub(crate) length: usize,
    pub(crate) close: usize,
    pub(crate) count: usize,
    pub(crate) size: usize,
    pub(crate) kind: ItemKind,
    pub(crate) square: bool,
    pub(crate) keyword: Option<Keyword>,
    // This width leaves no gap in the row: a gap would be written too.
    pub(crate) depth: u32,
}

/// An open node: its row, its delimiter, and how many of its arguments have begun.
#[derive(Clone, Copy)]
pub(crate) struct Open {
    row: usize,
    count: usize,
    square: bool,
}

/// The items that have begun, and the nodes that are open.
#[derive(Drop)]
pub(crate) struct Table {
    rows: Vec<Row>,
    opens: [Open; 12],
    depth: usize,
    progress: Progress,
}

impl Model for Table {
    ghost use Rattle.std.specs.Prelude.{◌≤◌};
    ghost use Rattle.crs_text.specs.inner.Table.{Flat, held, IsRoomy};

    ghost Value = { Flat };

    ghost view = { λ t. record { rows = t.rows.items; opens = held t.depth t.opens; progress = t.progress } };

    ghost invariant = { λ t. (t.depth ≤ 12) × IsRoomy (view t) };
}

impl Table {
    /// A table with no row, over this vector.
    pub(crate) fn new(rows: Vec<Row>) -> Self
        requires { rows.items ≡ [] }
        ensures { result ≡ flat start }
    {
        Table {
            rows,
            opens: [Open {
                row: 0,
                square: false,
                count: 0,
            }; 12],
            depth: 0,
            progress: Progress::BeforeItem,
        }
    }

    fn may_begin(&self, kind: ItemKind) -> bool
        ensures { result ≡ may_begin self.now.progress self.now.opens kind }
    {
        self.progress == Progress::BeforeItem && (self.depth > 0 || kind == ItemKind::Word)
    }

    // A number, a text, a word, or a node by its word and its delimiter: its kind, and whether that is square.
    #[tactic(auto, using(crate::proofs::rows::TableLemmas::held_rules))]
    #[inline(always)]
    fn begin(
        &mut self,
        begun: (ItemKind, bool),
        place: usize,
        raw: &[u8],
        keyword: Option<Keyword>,
    ) -> Result<(), AllocError>
        requires { keyword ≡ keyword_at begun.0 raw.now }
        ensures ok { OnOk result (self.new ≡ with_first self.old begun.0 begun.1 place raw.now) }
        ensures err { OnErr result (self.new ≡ self.old) }
    {
        let (kind, square) = begun;
        let depth = self.depth;
        self.rows.push(Row {
            kind,
            square,
            depth: depth as u32,
            place,
            length: raw.len(),
            close: 0,
            count: 0,
            size: 1,
            keyword,
        })?;
        if depth > 0 {
            self.opens[depth - 1].count += 1;
        }
        self.progress = match kind {
            ItemKind::Word => Progress::AfterWord,
            ItemKind::Number | ItemKind::Text | ItemKind::Node => Progress::AfterItem,
        };
        Ok(())
    }

    /// A number, text or word, and the keyword that it is: whether it is allowed, and then its row is there.
    #[inline(always)]
    pub(crate) fn single(
        &mut self,
        kind: ItemKind,
        place: usize,
        raw: &[u8],
        keyword: Option<Keyword>,
    ) -> Result<bool, AllocError>
        requires { keyword ≡ keyword_at kind raw.now }
        ensures ok { IfOk result (λ taken. IsStep (flat_single self.old kind place raw.now) taken self.old self.new) }
        ensures err { OnErr result (IsSome (flat_single self.old kind place raw.now) × (self.new ≡ self.old)) }
    {
        if !self.may_begin(kind) {
            return Ok(false);
        }
        self.begin((kind, false), place, raw, keyword)?;
        Ok(true)
    }

    fn may_go_on(&self) -> bool
        ensures { result ≡ may_go_on self.now.progress self.now.opens }
    {
        self.progress != Progress::BeforeItem && self.depth > 0
    }

    /// A comma: whether it is allowed.
    #[inline(always)]
    pub(crate) fn comma(&mut self) -> bool
        ensures { IsStep (flat_comma self.old) result self.old self.new }
    {
        if !self.may_go_on() {
            return false;
        }
        self.progress = Progress::BeforeItem;
        true
    }

    // The last row, which is a node's, is that of an open node.
    #[tactic(auto, using(crate::proofs::rows::TableLemmas::held_rules))]
    #[inline(always)]
    fn open_begun(&mut self, row: usize, square: bool)
        requires last { row + 1 ≡ length self.old.rows }
        requires room { length self.old.opens < 12 }
        ensures { self.new ≡ with_opened self.old row square }
    {
        let open = &mut self.opens[self.depth];
        open.row = row;
        open.count = 0;
        open.square = square;
        self.depth += 1;
        self.progress = Progress::BeforeItem;
    }

    /// An opening delimiter: the last word becomes a node.
    #[tactic(auto, using(crate::proofs::rows::TableLemmas::held_rules))]
    #[inline(always)]
    pub(crate) fn open(&mut self, square: bool) -> Opened
        ensures { IsOpened self.old square result self.new }
    {
        if self.progress != Progress::AfterWord {
            return Opened::Refused;
        }
        if self.depth == LIMIT {
            return Opened::TooDeep;
        }
        let row = self.rows.len() - 1;
        let word = self.rows[row];
        self.rows[row] = Row {
            kind: ItemKind::Node,
            square,
            ..word
        };
        self.open_begun(row, square);
        Opened::Taken
    }

    /// A word, the keyword that it is, and a square delimiter right behind it: whether both are allowed, and then the
    /// row of a node is there. It is made at once, not a word's row first.
    #[tactic(auto, using(crate::proofs::rows::TableLemmas::begun_rules))]
    #[inline(always)]
    pub(crate) fn node(
        &mut self,
        place: usize,
        raw: &[u8],
        keyword: Option<Keyword>,
    ) -> Result<bool, AllocError>
        requires { keyword ≡ keyword_of raw.now }
        ensures { IfOk result (λ taken. MatchBool taken (IsNodeBegun self.old place raw.now self.new)
            (self.new ≡ self.old)) }
    {
        if self.progress != Progress::BeforeItem || self.depth == LIMIT {
            return Ok(false);
        }
        let row = self.rows.len();
        self.begin((ItemKind::Node, true), place, raw, keyword)?;
        self.open_begun(row, true);
        Ok(true)
    }

    fn may_close(&self, square: bool) -> bool
        ensures { result ≡ (may_go_on self.now.progress self.now.opens && has_square self.now.opens square) }
    {
        self.may_go_on() && self.opens[self.depth - 1].square == square
    }

    /// A closing delimiter at this place: whether it is allowed, and then its node's row is complete.
    #[inline(always)]
    pub(crate) fn close(&mut self, place: usize, square: bool) -> bool
        ensures { IsStep (flat_close self.old place square) result self.old self.new }
    {
        if !self.may_close(square) {
            return false;
        }
        let top = self.opens[self.depth - 1];
        let size = self.rows.len() - top.row;
        let row = &mut self.rows[top.row];
        row.close = place;
        row.count = top.count;
        row.size = size;
        self.depth -= 1;
        self.progress = Progress::AfterItem;
        true
    }

    /// Whether the tokens so far are one whole node.
    pub(crate) fn is_whole(&self) -> bool
        ensures { result ≡ is_whole self.now }
    {
        matches!(self.progress, Progress::AfterItem) && self.depth == 0
    }

    /// A table equal to this one.
    pub(crate) fn copied(&self, alloc: Global) -> Result<Table, AllocError>
        ensures { IfOk result (λ table. table ≡ self.now) }
    {
        let mut rows = Vec::new(alloc);
        rows.extend_from_slice(&self.rows)?;
        Ok(Table { rows, ..*self })
    }

    /// Only the rows.
    pub(crate) fn into_rows(self) -> Vec<Row>
        ensures { result.items ≡ self.rows }
    {
        self.rows
    }
}
