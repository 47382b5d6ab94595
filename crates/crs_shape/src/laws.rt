//! The laws of shapes.
ghost use Rattle.std.specs.Prelude.{◌≡◌, ◌<◌, ◌≤◌, ◌↔◌, ◌⊎◌, ℕ, Bool, IsTrue, List, None, Some, length};
ghost use Rattle.std.specs.List.{find};
ghost use Rattle.crs_text.specs.Items.{Item, HasId, first_of, here, kind_of_item, keyword_in};
ghost use Rattle.crs_text.specs.Refusal.{RefusedAt};
ghost use Rattle.crs_text.specs.TextFault.{SpellsNode};
ghost use Rattle.crs_shape.specs.declared.class.Class.{Class};
ghost use Rattle.crs_shape.specs.inner.Counts.{how_many, least, most, is_bounded};
ghost use Rattle.crs_shape.specs.Expected.{ExpectedParts, ExpectedAtRoot, AreAlike, IsRefusedThere};
ghost use Rattle.crs_shape.specs.FaultPlace.{IsPlaceIn, IsShapeNumber};
ghost use Rattle.crs_shape.specs.inner.Walk.{first_inside};
ghost use Rattle.crs_shape.specs.inner.KeywordTable.{classes_by, is_among, is_part};
ghost use Rattle.crs_shape.specs.Shape.{Allowed, AllFilled, joined, is_apart, SlotParts, slots_of};
ghost use Rattle.crs_shape.specs.ShapeFault.{IsFree, IsOnly, Inside, AtRoot, class_in, class_of_root, is_of, Shaped};

use crs_text::{ItemKind, laws};

/// In every row of the tables each slot has a class, and no class of an optional or repeated slot is in a later slot
/// that can be reached over only optional slots.
pub fn tables_are_apart()
    ensures { (class : Class) → IsTrue (is_apart (slots_of class)) }
{}

/// A list of classes fits slots that are apart in at most one way.
pub fn fits_one_way()
    ensures { (slots : List SlotParts) → IsTrue (is_apart slots) → (a b : List (List Class)) →
        AllFilled slots a → AllFilled slots b → joined a ≡ joined b → a ≡ b }
{}

/// An item has no fault of shape exactly where it is of its class, with an allowed list of arguments without a fault.
pub fn no_fault_is_shape()
    ensures { (class : Class) (item : Item) → IsFree (Inside class item) ↔ Shaped class item }
{}

/// What a walk over the slots finds first is the one fault of an item, and an item in which it finds none is shaped; an
/// item of a class in its parent is one that may have that class.
pub fn walk_finds_the_fault()
    ensures none { (class : Class) (item : Item) → first_inside class item ≡ None → Shaped class item }
    ensures some { (class : Class) (item : Item) (fault : RefusedAt) → first_inside class item ≡ Some fault →
        IsOnly (Inside class item) fault }
    ensures named { (parent : Class) (class : Class) (item : Item) → class_in parent item ≡ Some class →
        IsTrue (is_of class item) }
{}

/// In a parent the keyword of a node names the first of the classes that have it and are allowed there, and a node is
/// of the classes that have its keyword. At the head of a text it names a class that has it.
pub fn keywords_name_classes()
    ensures named { (parent : Class) (item : Item) → kind_of_item item ≡ ItemKind.Node →
        class_in parent item ≡ find (is_part parent) (classes_by (keyword_in item)) }
    ensures own { (class : Class) (item : Item) → kind_of_item item ≡ ItemKind.Node →
        is_of class item ≡ is_among class (classes_by (keyword_in item)) }
    ensures root { (class : Class) (item : Item) → class_of_root item ≡ Some class → IsTrue (is_of class item) }
{
    laws::keywords_are_spelled();
}

/// A whole text has one fault of shape, or none.
pub fn fault_at_root_is_one()
    ensures one { (item : Item) (a b : RefusedAt) → AtRoot item a → AtRoot item b → a ≡ b }
    ensures either { (item : Item) → IsFree (AtRoot item) ⊎ ((fault : RefusedAt) × AtRoot item fault) }
{}

/// What could come at a text's fault of shape is one answer. The class of an item that is refused isn't among those that
/// could come there, and after arguments that aren't complete the node may not end. Profile.
pub fn expected_is_one()
    ensures one { (item : Item) (a b : ExpectedParts) → ExpectedAtRoot item a → ExpectedAtRoot item b → AreAlike a b }
    ensures refused { (item : Item) (fault : RefusedAt) (e : ExpectedParts) → AtRoot item fault →
        ExpectedAtRoot item e → IsRefusedThere item fault e }
{}

/// A fault of shape has the number 11, 12 or 13, and is at the first byte of an item or at the closing delimiter of a
/// node: of the item that is judged, or of one within it. Profile.
pub fn fault_is_within()
    ensures inside { (class : Class) (item : Item) (fault : RefusedAt) → Inside class item fault →
        IsShapeNumber fault.number × IsPlaceIn item fault.place }
    ensures root { (item : Item) (fault : RefusedAt) → AtRoot item fault →
        IsShapeNumber fault.number × IsPlaceIn item fault.place }

    // A place of an item of a tree is one of the tree, and one of a text's node is a byte of the text.
    ensures held { (tree : Item) (id place : ℕ) → HasId tree id →
        IsPlaceIn (first_of (here tree id)) place → IsPlaceIn tree place }
    ensures text { (text : List ℕ) (item : Item) (place : ℕ) → SpellsNode text item →
        IsPlaceIn item place → place < length text }
{}

/// An allowed list has at least as many arguments of some classes as there are slots that are required
/// only for them, and, if no such slot takes many, at most as many as there are slots that take them.
pub fn slots_count()
    ensures least { (test : Class → Bool) (slots : List SlotParts) (classes : List Class) →
        Allowed slots classes → least test slots ≤ how_many test classes }
    ensures most { (test : Class → Bool) (slots : List SlotParts) (classes : List Class) →
        IsTrue (is_bounded test slots) → Allowed slots classes → how_many test classes ≤ most test slots }
{}
