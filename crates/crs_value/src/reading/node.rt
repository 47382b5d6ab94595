//! Readers: values from the arguments of a node that has its shape and breaks no check.
ghost use Rattle.std.specs.Prelude.{◌≡◌, ◌⊎◌, IfOk, IfSome, IsTrue, Some, [], ◌∷◌};
ghost use Rattle.crs_text.specs.Items.{Item, arguments, HasId};
ghost use Rattle.crs_shape.specs.declared.class.Class.{Class};
ghost use Rattle.crs_shape.specs.declared.class.Class.TheVariants as classes;
ghost use Rattle.crs_shape.specs.ShapeFault.{Shaped};
ghost use Rattle.crs_value.specs.inner.ReadOnce.{IsSound};
ghost use Rattle.crs_value.specs.inner.Cursor.{item};
ghost use Rattle.crs_value.specs.Reading.{those};
ghost use Rattle.crs_value.specs.inner.Arguments.{item_at, Requires, IsFound};
ghost use Rattle.crs_value.specs.Reads.{ReadsNumber, ReadsNumberOf};
ghost use Rattle.crs_value.specs.inner.WholeNumbers.{IsWhole, IsWholeOf};

use crate::Made;
use crate::reading::arguments::first;
use crate::reading::cursor::Cursor;
use crs_decimal::{Decimal, laws as numbers};
use crs_shape::{Class, laws};
use crs_text::{ItemId, Items};
use std::alloc::Global;

// A value that is read from a node of some classes.
pub(crate) trait FromNode<'a>: Sized + Drop {
    // The classes of these nodes: those with a text, such as a name, unless it is said otherwise.
    ghost Suits: { Class → Type 0 } = { λ c. Requires c classes.Text 0 };

    ghost Reads: { Class → Item → Self → Type 0 };

    fn read(alloc: Global, node: &Cursor<'_, 'a>) -> Made<Self>
        requires suits { Suits node.now.class }
        requires sound { IsSound node.now.class (item node.now) }
        ensures { IfOk result (λ value. Reads node.now.class (item node.now) value) };
}

// The number of a node that has one, as `ORDER[1]`.
impl<'a> FromNode<'a> for Decimal {
    ghost Suits = { λ c. Requires c classes.Number 0 };

    ghost Reads = { λ c item value. ReadsNumberOf c item value };

    #[inline(always)]
    fn read(_alloc: Global, node: &Cursor<'_, 'a>) -> Made<Self> {
        Ok(node.number())
    }
}

// The argument of this class that the slots require.
#[inline(always)]
pub(crate) fn required(items: &Items<'_>, id: ItemId, parent: Class, class: Class) -> ItemId
    requires has { HasId items.now id }
    requires shaped { Shaped parent (item_at items.now id) }
    requires enough { Requires parent class 0 }
    ensures found { IsFound items.now parent class (those parent class (arguments (item_at items.now id)))
        (Some result) }
    ensures shaped { Shaped class (item_at items.now result) }
    ensures sound { IsSound parent (item_at items.now id) → IsSound class (item_at items.now result) }
{
    laws::slots_count();
    match first(items, id, parent, class) {
        Some(found) => found,
        None => unreachable!(),
    }
}

// The number of a node.
pub(crate) fn number(items: &Items<'_>, id: ItemId, class: Class) -> Decimal
    requires has { HasId items.now id }
    requires shaped { Shaped class (item_at items.now id) }
    requires enough { Requires class Class.Number 0 }
    ensures { ReadsNumberOf class (item_at items.now id) result }
{
    decimal_of(items, required(items, id, class, Class::Number))
}

// A number by itself.
pub(crate) fn decimal_of(items: &Items<'_>, id: ItemId) -> Decimal
    requires has { HasId items.now id }
    requires shaped { Shaped Class.Number (item_at items.now id) }
    ensures { ReadsNumber (item_at items.now id) result }
{
    match items.number(id) {
        Some(value) => value,
        None => unreachable!(),
    }
}

// The byte, if there is but one, or one after a plus.
#[inline(always)]
fn only_byte(bytes: &[u8]) -> Option<u8>
    ensures { IfSome result (λ byte. (bytes.now ≡ byte ∷ []) ⊎ (bytes.now ≡ 43 ∷ byte ∷ [])) }
{
    match bytes {
        [byte] => Some(*byte),
        [b'+', byte] => Some(*byte),
        _ => None,
    }
}

// The whole number below 10 that bytes spell, if they are one digit, or one after a plus.
#[inline(always)]
fn small_whole(bytes: &[u8]) -> Option<u64>
    ensures { IfSome result (IsWhole bytes.now) }
{
    numbers::digits_alone();
    numbers::one_form();
    numbers::denotes_some();
    numbers::same_number_is_equivalence();
    let byte = only_byte(bytes)?;
    if byte < b'0' || b'9' < byte {
        return None;
    }
    Some(u64::from(byte - b'0'))
}

// Whether the number of a node is this whole one. Mostly it is one digit, which needn't be read as a decimal.
pub(crate) fn has_whole(items: &Items<'_>, id: ItemId, class: Class, n: u64) -> bool
    requires has { HasId items.now id }
    requires shaped { Shaped class (item_at items.now id) }
    requires enough { Requires class Class.Number 0 }
    ensures { IsTrue result → IsWholeOf class (item_at items.now id) n }
{
    let found = required(items, id, class, Class::Number);
    match small_whole(items.raw(found)) {
        Some(whole) => whole == n,
        None => decimal_of(items, found).is_whole(n),
    }
}
