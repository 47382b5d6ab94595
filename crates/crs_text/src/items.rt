ghost use Rattle.std.specs.Prelude.{◌≡◌, ℕ, ◌+◌, ◌^◌, ◌<◌, ◌≤◌, ◌↔◌, IfSome, IsTrue, Option, length, take, drop, slice_index_or};
ghost use Rattle.crs_text.specs.Items.{More, End, arguments, count, first_of, rest_of, skip, kind_of_item, raw_of, place_of};
ghost use Rattle.crs_text.specs.Items.{keyword_in, close_of, size_of, here, HasId, IsAt, IsNumberOf};
ghost use Rattle.crs_text.specs.inner.Table.{no_row, rows, row_of};
ghost use Rattle.crs_text.specs.inner.Tree.{raw_place, AreSquare, bytes_beside, bytes_of_rows};
ghost use Rattle.crs_text.specs.Written.{AreFormed, item_text};

use crate::keyword::Keyword;
use crate::table::{Row, Table};
use crs_decimal::Decimal;
use std::marker::Model;

/// What an item is. Profile.
#[derive(Clone, Copy, Debug, PartialEq, Eq)]
pub enum ItemKind {
    /// A number, as it is written.
    Number,
    /// A quoted text.
    Text,
    /// A word by itself.
    Word,
    /// A keyword with its arguments.
    Node,
}

/// The number of an item in its table, counted from 0 in the order in which the items begin.
#[derive(Clone, Copy, Debug, PartialEq, Eq)]
pub struct ItemId(usize);

impl Model for ItemId {
    ghost use Rattle.std.specs.Prelude.{ℕ};

    ghost Value = { ℕ };

    ghost view = { λ id. id.0 };

    ghost inverse = { λ n. record { 0 = n } };
}

/// The items of a text, which they borrow.
#[derive(Drop)]
pub struct Items<'a> {
    source: &'a [u8],
    rows: Vec<Row>,
}

impl<'a> Model for Items<'a> {
    ghost use Rattle.crs_text.specs.Items.{Item};
    ghost use Rattle.crs_text.specs.inner.Tree.{item_code, tree_of, IsTable};

    ghost Value = { Item };

    ghost coded = { item_code };

    ghost view = { λ a. tree_of a.source.now a.rows.items };

    ghost invariant = { λ a. IsTable a.source.now a.rows.items (tree_of a.source.now a.rows.items) };
}

#[tactic(auto, using(crate::proofs::rows::IdLemmas::id_rules))]
impl<'a> Items<'a> {
    ghost use Rattle.crs_text.specs.Items.{Item};
    ghost use Rattle.crs_text.specs.inner.Tree.{IsTable};

    /// The items of a whole table over its source.
    pub(crate) fn from_table(source: &'a [u8], table: Table) -> Self
        requires { (item : Item) × IsTable source.now table.rows item }
        ensures { (item : Item) → IsTable source.entry.now table.rows item → result ≡ item }
    {
        Items {
            source,
            rows: table.into_rows(),
        }
    }

    fn len(&self) -> usize
        ensures { result ≡ length (rows 0 self.now) }
    {
        self.rows.len()
    }

    fn row(&self, id: ItemId) -> Row
        requires { HasId self.now id }
        ensures value { result ≡ slice_index_or (rows 0 self.now) id no_row }
        ensures is { result ≡ row_of result.depth (first_of (here self.now id)) }
        ensures within { id + result.size < 2 ^ 64 }
    {
        self.rows[id.0]
    }

    /// The item that all others are in.
    pub fn root(&self) -> ItemId
        ensures root { here self.now result ≡ More self.now End }
        ensures contained { HasId self.now result }
    {
        ItemId(0)
    }

    /// Whether the table has this item.
    pub fn contains(&self, id: ItemId) -> bool
        ensures { IsTrue result ↔ HasId self.now id }
    {
        id.0 < self.len()
    }

    /// What the item is.
    pub fn kind(&self, id: ItemId) -> ItemKind
        requires { HasId self.now id }
        ensures { result ≡ kind_of_item (first_of (here self.now id)) }
    {
        self.row(id).kind
    }

    /// The place of the item's first byte.
    pub fn place(&self, id: ItemId) -> usize
        requires { HasId self.now id }
        ensures { result ≡ place_of (first_of (here self.now id)) }
    {
        self.row(id).place
    }

    /// The place of a node's closing delimiter; `None` for other items.
    pub fn close(&self, id: ItemId) -> Option<usize>
        requires { HasId self.now id }
        ensures { result ≡ close_of (first_of (here self.now id)) }
    {
        let row = self.row(id);
        match row.kind {
            ItemKind::Node => Some(row.close),
            ItemKind::Number | ItemKind::Text | ItemKind::Word => None,
        }
    }

    /// The number of items in an item, itself included.
    pub fn size(&self, id: ItemId) -> usize
        requires { HasId self.now id }
        ensures { result ≡ size_of (first_of (here self.now id)) }
    {
        self.row(id).size
    }

    /// The number of its arguments.
    pub fn arg_count(&self, id: ItemId) -> usize
        requires { HasId self.now id }
        ensures { result ≡ count (arguments (first_of (here self.now id))) }
    {
        self.row(id).count
    }

    /// The characters of a number or word, a node's keyword, the inside of a quoted text with its quotes still doubled.
    pub fn raw(&self, id: ItemId) -> &'a [u8]
        requires { HasId self.now id }
        ensures { result.now ≡ raw_of (first_of (here self.now id)) }
    {
        let source = self.source;
        let row = self.row(id);
        part_of(source, raw_place(row.kind, row.place), row.length)
    }

    /// The keyword that a word or a node's word is, letter case aside; `None` where it is none, and for numbers and
    /// texts. It was found when the item was read.
    pub fn keyword(&self, id: ItemId) -> Option<Keyword>
        requires { HasId self.now id }
        ensures { result ≡ keyword_in (first_of (here self.now id)) }
    {
        self.row(id).keyword
    }

    /// The bytes of a node, from its keyword to its closing delimiter, if they are its written form: it and all nodes in
    /// it have square delimiters, and there is no white space but in quoted texts. `None` for other items; it may be
    /// answered for a written form too. Profile.
    pub fn written(&self, id: ItemId) -> Option<&'a [u8]>
        requires { HasId self.now id }
        ensures { IfSome result (λ bytes. bytes.now ≡ item_text (first_of (here self.now id))) }
    {
        let source = self.source;
        let row = self.row(id);
        if row.kind != ItemKind::Node {
            return None;
        }
        let length = written_length(part_of(&self.rows, id.0, row.size))?;
        if row.place + length == row.close + 1 {
            Some(part_of(source, row.place, length))
        } else {
            None
        }
    }

    /// Each single token and each keyword in the item is well formed: a law, as a call that does nothing. Profile.
    pub fn formed(&self, _id: ItemId)
        requires { HasId self.now _id }
        ensures { AreFormed (first_of (here self.now _id)) }
    {
        let _source = self.source;
    }

    /// The value of a number; `None` for other items.
    #[inline(never)]
    pub fn number(&self, id: ItemId) -> Option<Decimal>
        requires { HasId self.now id }
        ensures { IsNumberOf (first_of (here self.now id)) result }
    {
        let _source = self.source;
        if self.kind(id) != ItemKind::Number {
            return None;
        }
        Decimal::parse(self.raw(id)).ok()
    }

    // The first argument comes directly after its node.
    fn first_arg(&self, id: ItemId) -> Option<ItemId>
        requires { HasId self.now id }
        ensures { IsAt self.now (arguments (first_of (here self.now id))) result }
    {
        if self.row(id).count == 0 {
            return None;
        }
        Some(ItemId(id.0 + 1))
    }

    /// The argument after this one in its node; `None` for the last one and for the root.
    pub fn next(&self, id: ItemId) -> Option<ItemId>
        requires { HasId self.now id }
        ensures { IsAt self.now (rest_of (here self.now id)) result }
    {
        let row = self.row(id);
        let at = id.0 + row.size;
        if at >= self.len() {
            return None;
        }
        if self.row(ItemId(at)).depth != row.depth {
            return None;
        }
        Some(ItemId(at))
    }

    /// Argument number `i`, the first being 0; `None` where there are no more than `i`.
    pub fn arg(&self, id: ItemId, i: usize) -> Option<ItemId>
        requires { HasId self.now id }
        ensures { IsAt self.now (skip i (arguments (first_of (here self.now id)))) result }
    {
        let mut at = self.first_arg(id);
        for _step in 0..i {
            at = self.next(at?);
        }
        at
    }
}

// Where the raw bytes begin: those of a quoted text after its quote.
fn raw_place(kind: ItemKind, place: usize) -> usize
    requires { raw_place kind place < 2 ^ 64 }
    ensures { result ≡ raw_place kind place }
{
    match kind {
        ItemKind::Text => place + 1,
        ItemKind::Number | ItemKind::Word | ItemKind::Node => place,
    }
}

fn bytes_beside(kind: ItemKind, count: usize) -> usize
    requires { bytes_beside kind count < 2 ^ 64 }
    ensures { result ≡ bytes_beside kind count }
{
    match kind {
        ItemKind::Text => 2,
        ItemKind::Number | ItemKind::Word => 0,
        ItemKind::Node => count + 1,
    }
}

// How many bytes the written items of these rows have, if all their delimiters are square.
fn written_length(rows: &[Row]) -> Option<usize>
    requires { bytes_of_rows rows.now < 2 ^ 64 }
    ensures length { IfSome result (λ n. n ≡ bytes_of_rows rows.now) }
    ensures square { IfSome result (λ n. AreSquare rows.now) }
{
    let mut length = 0;
    for row in rows {
        if row.kind == ItemKind::Node && !row.square {
            return None;
        }
        length += row.length + bytes_beside(row.kind, row.count);
    }
    Some(length)
}

fn part_of<T>(all: &[T], start: usize, count: usize) -> &[T]
    requires { start + count ≤ length all.now }
    ensures { result.now ≡ take count (drop start all.now) }
{
    &all[start..start + count]
}
