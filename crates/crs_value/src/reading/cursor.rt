//! An item as one of a class, and what is read from it.
ghost use Rattle.crs_text.specs.Items.{HasId};

use crate::reading::arguments::{first, later};
use crate::reading::node::{FromNode, decimal_of, number, required};
use crate::values::key::Keyed;
use crate::{List, Made};
use crs_decimal::Decimal;
use crs_shape::{Class, laws};
use crs_text::{ItemId, Items};
use std::alloc::Global;

// An item as one of a class.
#[derive(Clone, Copy)]
pub(crate) struct Cursor<'i, 'a> {
    pub(crate) items: &'i Items<'a>,
    pub(crate) id: ItemId,
    pub(crate) class: Class,
    pub(crate) ghost has: { HasId items.now id },
}

impl<'i, 'a> Cursor<'i, 'a> {
    ghost use Rattle.std.specs.Prelude.{IfOk, Some};
    ghost use Rattle.std.specs.Option.{option_copied};
    ghost use Rattle.crs_shape.specs.declared.class.Class.TheVariants as classes;
    ghost use Rattle.crs_shape.specs.ShapeFault.{Shaped};
    ghost use Rattle.crs_value.specs.inner.ReadOnce.{IsSound};
    ghost use Rattle.crs_value.specs.inner.Cursor.{args, item};
    ghost use Rattle.crs_value.specs.Reading.{ReadsAll, ReadsIfAny, ReadsOne};
    ghost use Rattle.crs_value.specs.inner.Arguments.{IsFound, Requires};
    ghost use Rattle.crs_value.specs.Reads.{ReadsNumberAt, ReadsNumberOf, ReadsTextOf};

    // The methods by which identifiers are read are inlined: a cursor that is lent to a call goes through memory.

    // The value of an argument of this class that the slots require.
    pub(crate) fn one<T: FromNode<'a>>(&self, alloc: Global, class: Class) -> Made<T>
        requires sound { IsSound self.now.class (item self.now) }
        requires suits { T.Suits class }
        requires enough { Requires self.now.class class 0 }
        ensures { IfOk result (λ value. ReadsOne T.Reads class self.now.class (item self.now) value) }
    {
        let items = self.items;
        let id = required(items, self.id, self.class, class);
        T::read(alloc, &Cursor { items, id, class })
    }

    // The value of an argument of this class that may be missing.
    pub(crate) fn optional<T: FromNode<'a>>(&self, alloc: Global, class: Class) -> Made<Option<T>>
        requires sound { IsSound self.now.class (item self.now) }
        requires suits { T.Suits class }
        ensures { IfOk result (λ value. ReadsIfAny T.Reads class self.now.class (item self.now) value) }
    {
        self.optional_from(alloc, class, first(self.items, self.id, self.class, class))
    }

    // The value of an argument of this class that may be missing; `found` is the first one.
    pub(crate) fn optional_from<T: FromNode<'a>>(
        &self,
        alloc: Global,
        class: Class,
        found: Option<ItemId>,
    ) -> Made<Option<T>>
        requires sound { IsSound self.now.class (item self.now) }
        requires suits { T.Suits class }
        requires found { IsFound self.now.items.now self.now.class class (args class self.now) found }
        ensures { IfOk result (λ value. ReadsIfAny T.Reads class self.now.class (item self.now) value) }
    {
        let items = self.items;
        match found {
            None => Ok(None),
            Some(id) => Ok(Some(T::read(alloc, &Cursor { items, id, class })?)),
        }
    }

    // The values of all arguments of this class.
    #[inline(always)]
    pub(crate) fn many<T: FromNode<'a> + Keyed>(&self, alloc: Global, class: Class) -> Made<List<T>>
        requires sound { IsSound self.now.class (item self.now) }
        requires suits { T.Suits class }
        ensures { IfOk result (λ values. ReadsAll T.Reads class self.now.class (item self.now) values) }
    {
        self.many_from(alloc, class, first(self.items, self.id, self.class, class))
    }

    // The values of all arguments of this class; `found` is the first one.
    pub(crate) fn many_from<T: FromNode<'a> + Keyed>(
        &self,
        alloc: Global,
        class: Class,
        found: Option<ItemId>,
    ) -> Made<List<T>>
        requires sound { IsSound self.now.class (item self.now) }
        requires suits { T.Suits class }
        requires found { IsFound self.now.items.now self.now.class class (args class self.now) found }
        ensures { IfOk result (λ values. ReadsAll T.Reads class self.now.class (item self.now) values) }
    {
        let items = self.items;
        let mut members = Vec::new(alloc);
        let mut at = found;
        while let Some(id) = at {
            members.push(T::read(alloc, &Cursor { items, id, class })?)?;
            at = later(items, id, self.class, class);
        }
        List::of(alloc, members)
    }

    // The text.
    pub(crate) fn text(&self) -> &'a [u8]
        requires sound { IsSound self.now.class (item self.now) }
        requires enough { Requires self.now.class classes.Text 0 }
        ensures { ReadsTextOf self.now.class (item self.now) result.now }
    {
        let items = self.items;
        items.raw(required(items, self.id, self.class, Class::Text))
    }

    // The text of an argument of this class that may be missing.
    #[inline(always)]
    pub(crate) fn optional_text(&self, class: Class) -> Option<&'a [u8]>
        requires sound { IsSound self.now.class (item self.now) }
        requires enough { Requires class classes.Text 0 }
        ensures { ReadsIfAny ReadsTextOf class self.now.class (item self.now) (option_copied result) }
    {
        self.optional_text_from(class, first(self.items, self.id, self.class, class))
    }

    // The text of an argument of this class that may be missing; `found` is the first one.
    #[inline(always)]
    pub(crate) fn optional_text_from(&self, class: Class, found: Option<ItemId>) -> Option<&'a [u8]>
        requires sound { IsSound self.now.class (item self.now) }
        requires enough { Requires class classes.Text 0 }
        requires found { IsFound self.now.items.now self.now.class class (args class self.now) found }
        ensures { ReadsIfAny ReadsTextOf class self.now.class (item self.now) (option_copied result) }
    {
        let items = self.items;
        match found {
            None => None,
            Some(id) => Some(Cursor { items, id, class }.text()),
        }
    }

    // The number.
    pub(crate) fn number(&self) -> Decimal
        requires shaped { Shaped self.now.class (item self.now) }
        requires enough { Requires self.now.class classes.Number 0 }
        ensures { ReadsNumberOf self.now.class (item self.now) result }
    {
        number(self.items, self.id, self.class)
    }

    // Number `k` of the numbers, the first being 0.
    pub(crate) fn number_at(&self, k: usize) -> Decimal
        requires shaped { Shaped self.now.class (item self.now) }
        requires enough { Requires self.now.class classes.Number k }
        ensures { ReadsNumberAt k self.now.class (item self.now) result }
    {
        laws::slots_count();
        let items = self.items;
        let mut at = first(items, self.id, self.class, Class::Number);
        for _step in 0..k {
            let Some(found) = at else { unreachable!() };
            at = later(items, found, self.class, Class::Number);
        }
        let Some(found) = at else { unreachable!() };
        decimal_of(items, found)
    }
}
