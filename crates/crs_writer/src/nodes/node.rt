//! An item as one of a class, and arguments of one class, one after another.
ghost use Rattle.crs_text.specs.Items.{HasId};

use crate::nodes::lookup;
use crs_shape::{Class, stands_as};
use crs_text::{ItemId, ItemKind, Items};
use crs_value::{Direction, UnitKind};

/// The arguments of a class from one on. Profile.
#[derive(Clone, Copy)]
pub struct Chain<'i, 'a> {
    /// The items of the text.
    pub items: &'i Items<'a>,
    /// The first of them.
    pub at: Option<ItemId>,
    /// The class of their node.
    pub parent: Class,
    /// Their class.
    pub class: Class,
    /// Whether they are so few that each may be compared with all others.
    pub few: bool,
}

// A node of fewer arguments has few members of each set, which aren't counted by themselves.
const FEW_ARGUMENTS: usize = 32;

/// An item as one of a class. Of one that is read as no value nothing is promised; accepted texts have none. Profile.
#[derive(Clone, Copy)]
pub struct Node<'i, 'a> {
    /// The items of the text.
    pub items: &'i Items<'a>,
    /// The item.
    pub id: ItemId,
    /// The class.
    pub class: Class,
    pub ghost has: { HasId items.now id },
}

impl<'i, 'a> Node<'i, 'a> {
    ghost use Rattle.std.specs.Prelude.{◌≡◌, ◌↔◌, [], List, ℕ, Option, Some, IsTrue, IsFalse};
    ghost use Rattle.std.specs.Option.{option_copied};
    ghost use Rattle.crs_decimal.specs.Numbers.{Value};
    ghost use Rattle.crs_text.specs.Items.{arguments, raw_of, skip};
    ghost use Rattle.crs_shape.specs.declared.direction.Direction.{Direction};
    ghost use Rattle.crs_shape.specs.declared.unit_kind.UnitKind.{UnitKind};
    ghost use Rattle.crs_value.specs.inner.Arguments.{from_found, Holds};
    ghost use Rattle.crs_value.specs.Reading.{ReadsFirst, ReadsIfAny, ReadsOne, ReadsOptional};
    ghost use Rattle.crs_value.specs.Reads.{LacksUsage, ReadsDirection, ReadsKind, ReadsNumberOf, ReadsText, ReadsTextOf, ReadsUnit, single_of, ReadsNumberAt, ReadsUnitOf, parameter_units};
    ghost use Rattle.crs_value.specs.Values.{UnitParts};
    ghost use Rattle.crs_writer.specs.inner.Node.{IsFirst, args, item};
    ghost use Rattle.crs_writer.specs.inner.FromItems.{IsNumber, SaysIfAny};

    /// The first argument of this class. Profile.
    #[inline(always)]
    pub fn first(&self, class: Class) -> Option<Node<'i, 'a>>
        ensures { IsFirst self.now class (args class self.now) result }
    {
        let items = self.items;
        let id = lookup::first(items, self.id, self.class, class)?;
        Some(Node { items, id, class })
    }

    /// All arguments of this class. Profile.
    #[inline(always)]
    pub fn all(&self, class: Class) -> Chain<'i, 'a>
        ensures hold { Holds result.items.now result.at }
        ensures class { result.class ≡ class }
        ensures all { from_found result.items.now result.parent result.class result.at ≡ args class self.now }
    {
        let items = self.items;
        let at = lookup::first(items, self.id, self.class, class);
        let few = items.arg_count(self.id) < FEW_ARGUMENTS;
        Chain {
            items,
            at,
            parent: self.class,
            class,
            few,
        }
    }

    /// Whether a part of a usage is bare: an argument by itself, as in few CRSs. Profile.
    pub fn has_bare(&self) -> bool
        ensures { IsFalse result ↔ LacksUsage self.now.class (item self.now) }
    {
        let (items, parent) = (self.items, self.class);
        let mut at = items.arg(self.id, 0);
        while let Some(id) = at {
            if stands_as(items, id, parent, Class::Scope)
                || stands_as(items, id, parent, Class::Area)
                || stands_as(items, id, parent, Class::BoundingBox)
                || stands_as(items, id, parent, Class::VerticalExtent)
            {
                return true;
            }
            at = items.next(id);
        }
        false
    }

    /// Whether no argument is a node, as in most nodes that have no identifiers. Profile.
    #[inline(always)]
    pub fn is_flat(&self) -> bool
        ensures identifiers { IsTrue result → args Class.Identifier self.now ≡ [] }
        ensures citation { IsTrue result → args Class.Citation self.now ≡ [] }
        ensures uri { IsTrue result → args Class.Uri self.now ≡ [] }
    {
        lookup::is_flat(self.items, self.id)
    }

    /// The characters of a number or word, a node's keyword, or a text without its quotes. Profile.
    #[inline(always)]
    pub fn raw(&self) -> &'a [u8]
        ensures { result.now ≡ raw_of (item self.now) }
    {
        self.items.raw(self.id)
    }

    /// The text of a node. Profile.
    #[inline(always)]
    pub fn text(&self) -> &'a [u8]
        ensures { (value : List ℕ) → ReadsTextOf self.now.class (item self.now) value → value ≡ result.now }
    {
        match self.first(Class::Text) {
            None => b"",
            Some(found) => found.raw(),
        }
    }

    /// The number of a node. Profile.
    #[inline(always)]
    pub fn number(&self) -> &'a [u8]
        ensures { (value : Value) → ReadsNumberOf self.now.class (item self.now) value → IsNumber result.now value }
    {
        match self.first(Class::Number) {
            None => b"",
            Some(found) => found.raw(),
        }
    }

    /// Number `k` of a node's numbers, the first being 0. Profile.
    #[inline(always)]
    pub fn nth_number(&self, k: usize) -> &'a [u8]
        ensures { (value : Value) → ReadsNumberAt k self.now.class (item self.now) value → IsNumber result.now value }
    {
        let items = self.items;
        match lookup::nth(items, self.id, self.class, Class::Number, k) {
            None => b"",
            Some(found) => items.raw(found),
        }
    }

    /// The text of a node that may be in it. Profile.
    #[inline(always)]
    pub fn text_in(&self, class: Class) -> Option<&'a [u8]>
        ensures { (value : Option (List ℕ)) → ReadsIfAny ReadsTextOf class self.now.class (item self.now) value →
            value ≡ option_copied result }
    {
        match self.first(class) {
            None => None,
            Some(found) => Some(found.text()),
        }
    }

    /// The number of a node that may be in it. Profile.
    #[inline(always)]
    pub fn number_in(&self, class: Class) -> Option<&'a [u8]>
        ensures { (value : Option Value) → ReadsIfAny ReadsNumberOf class self.now.class (item self.now) value →
            SaysIfAny (λ s v. IsNumber s.now v) result value }
    {
        match self.first(class) {
            None => None,
            Some(found) => Some(found.number()),
        }
    }

    /// The number of a node that is in it. Profile.
    #[inline(always)]
    pub fn one_number(&self, class: Class) -> &'a [u8]
        ensures { (value : Value) → ReadsOne ReadsNumberOf class self.now.class (item self.now) value →
            IsNumber result.now value }
    {
        match self.first(class) {
            None => b"",
            Some(found) => found.number(),
        }
    }

    /// The argument at this place, if it is no node. Profile.
    pub fn single(&self, k: usize) -> Option<&'a [u8]>
        ensures { ReadsOptional ReadsText (single_of (skip k (arguments (item self.now)))) (option_copied result) }
    {
        let items = self.items;
        let found = items.arg(self.id, k)?;
        match items.kind(found) {
            ItemKind::Number | ItemKind::Text | ItemKind::Word => Some(items.raw(found)),
            ItemKind::Node => None,
        }
    }

    /// The code of an identifier. Profile.
    pub fn code(&self) -> &'a [u8]
        ensures { (value : List ℕ) → ReadsFirst ReadsText (single_of (skip 1 (arguments (item self.now)))) value →
            value ≡ result.now }
    {
        self.single(1).unwrap_or(b"")
    }

    /// The version of an identifier. Profile.
    pub fn version(&self) -> Option<&'a [u8]>
        ensures { (value : Option (List ℕ)) →
            ReadsOptional ReadsText (single_of (skip 2 (arguments (item self.now)))) value → value ≡ option_copied result }
    {
        self.single(2)
    }

    /// The citation and the URI of an identifier. Profile.
    pub fn references(&self) -> (Option<&'a [u8]>, Option<&'a [u8]>)
        ensures citation { (value : Option (List ℕ)) →
            ReadsIfAny ReadsTextOf Class.Citation self.now.class (item self.now) value → value ≡ option_copied result.0 }
        ensures uri { (value : Option (List ℕ)) →
            ReadsIfAny ReadsTextOf Class.Uri self.now.class (item self.now) value → value ≡ option_copied result.1 }
    {
        if self.is_flat() {
            (None, None)
        } else {
            (self.text_in(Class::Citation), self.text_in(Class::Uri))
        }
    }

    /// The kind of a unit's keyword, known by its first letter. Profile.
    pub fn kind(&self) -> UnitKind
        ensures { (kind : UnitKind) → ReadsKind (item self.now) kind → kind ≡ result }
    {
        match self.raw() {
            [b'L' | b'l', ..] => UnitKind::Length,
            [b'A' | b'a', ..] => UnitKind::Angle,
            [b'S' | b's', ..] => UnitKind::Scale,
            _ => UnitKind::Plain,
        }
    }

    /// The unit of a parameter, if there is one, of whatever class. Profile.
    pub fn parameter_unit(&self) -> Option<Node<'i, 'a>>
        ensures { (value : Option UnitParts) → ReadsUnitOf parameter_units self.now.class (item self.now) value →
            SaysIfAny (λ n u. ReadsUnit n.class (item n) u) result value }
    {
        if let Some(found) = self.first(Class::PlainUnit) {
            return Some(found);
        }
        if let Some(found) = self.first(Class::LengthUnit) {
            return Some(found);
        }
        if let Some(found) = self.first(Class::AngleUnit) {
            return Some(found);
        }
        self.first(Class::ScaleUnit)
    }

    /// The direction of an axis. Profile.
    pub fn direction(&self) -> Direction
        ensures { (direction : Direction) →
            ReadsFirst ReadsDirection (args Class.Word self.now) direction → direction ≡ result }
    {
        match self.first(Class::Word) {
            None => Direction::Unspecified,
            Some(word) => match Direction::read(word.raw()) {
                None => Direction::Unspecified,
                Some(direction) => direction,
            },
        }
    }
}
