//! Members of sets: of a value, or read from items.
ghost use Rattle.std.specs.Prelude.{◌≡◌, ◌<◌, [], ℕ, IfSome, IsTrue, List, MatchOption, OnOk, length};
ghost use Rattle.crs_text.specs.Items.{Item};
ghost use Rattle.crs_shape.specs.declared.class.Class.{Class};
ghost use Rattle.crs_value.specs.inner.Arguments.{from_found, Holds};
ghost use Rattle.crs_value.specs.Reading.{ReadsEach};
ghost use Rattle.crs_normal.specs.inner.SpelledItems.{put};
ghost use Rattle.crs_writer.specs.inner.Node.{item};
ghost use Rattle.crs_writer.specs.inner.FromItems.{Writes};
ghost use Rattle.crs_writer.specs.inner.Parts.{SaysFirst};
ghost use Rattle.crs_writer.specs.inner.Spans.{AreInOrder, texts_at};

use crate::nodes::lookup;
use crate::parts::{Appended, Spell, ValuePart};
use crate::set::{FEW, MEMBER_ROOM};
use crate::spans::{Texts, put_last};
use crate::{Chain, Node, append};
use crs_shape::Class;
use crs_value::Level;

/// A member of a set. Profile.
pub trait MemberPart<T: Spell>: Copy {
    /// The values that it may be.
    ghost Says: { Self → T → Type 0 };

    /// Appends its spelling. `AllocError`: there is no memory for it.
    fn write(&self, out: &mut Vec<u8>, level: Level) -> Appended
        ensures { OnOk result (Writes (Says self.now) (T.spelling level) out.old.items out.new.items) };

    /// Puts its spelling among texts in order. It may be spelled in their room first. `AllocError`: no memory for it.
    fn put_among(&self, texts: &mut Texts, level: Level) -> Appended
        requires { AreInOrder texts.old.bytes.items texts.old.spans.items }
        ensures order { OnOk result (AreInOrder texts.new.bytes.items texts.new.spans.items) }
        ensures texts { OnOk result ((value : T) → Says self.now value →
            texts_at texts.new.bytes.items texts.new.spans.items
            ≡ put (λ b. b) (T.spelling level value) (texts_at texts.old.bytes.items texts.old.spans.items)) };
}

/// Members of a set from one on. Profile.
pub trait MembersPart<T: Spell>: Copy {
    /// What is asked of them.
    ghost Hold: { Self → Type 0 } = { λ _. Unit {0} };

    /// The values that they may be.
    ghost Say: { Self → List T → Type 0 };

    /// How many there are.
    ghost left: { Self → ℕ };

    /// A member.
    type First: MemberPart<T>;

    /// The first one, and the others; `None` where there are none.
    fn next(&self) -> Option<(Self::First, Self)>
        requires { Hold self.now }
        ensures { MatchOption result ((values : List T) → Say self.now values → values ≡ [])
            (λ r. Hold r.1 × (left r.1 < left self.now)
            × ((values : List T) → Say self.now values → SaysFirst Self.First.Says Say r.0 r.1 values)) };

    /// Whether there are none.
    fn are_none(&self) -> bool
        ensures { IsTrue result → (values : List T) → Say self.now values → values ≡ [] };

    /// Whether they are so few that each may be compared with all others.
    fn are_few(&self) -> bool;
}

impl<'b, T: Spell> MemberPart<T> for &'b T {
    ghost Says = { λ s v. v ≡ s.now };

    #[inline(always)]
    fn write(&self, out: &mut Vec<u8>, level: Level) -> Appended {
        T::spell(*self, out, level)
    }

    #[inline(always)]
    fn put_among(&self, texts: &mut Texts, level: Level) -> Appended {
        let start = texts.bytes.len();
        T::spell(*self, &mut texts.bytes, level)?;
        put_last(&mut texts.bytes, &mut texts.spans, start)
    }
}

impl<'b, T: Spell> MembersPart<T> for &'b [T] {
    ghost Say = { λ s vs. vs ≡ s.now };

    ghost left = { λ s. length s.now };

    type First = &'b T;

    #[inline(always)]
    fn next(&self) -> Option<(&'b T, &'b [T])> {
        let members: &'b [T] = *self;
        members.split_first()
    }

    #[inline(always)]
    fn are_none(&self) -> bool {
        self.is_empty()
    }

    #[inline(always)]
    fn are_few(&self) -> bool {
        self.len() < FEW
    }
}

/// A value that is read from a node.
pub(crate) trait ReadAs<'a>: Spell {
    ghost Reads: { Class → Item → Self → Type 0 };

    // The spelling of whatever is read from it.
    fn write_of(node: &Node<'_, 'a>, out: &mut Vec<u8>, level: Level) -> Appended
        ensures { OnOk result (Writes (Reads node.now.class (item node.now)) (Self.spelling level)
            out.old.items out.new.items) };
}

/// A member of sets that is read from a node.
pub(crate) trait SetReadAs<'a>: ReadAs<'a> {
    // The spelling of whatever is read from it, where that is seen to be the node's bytes.
    fn copied(node: &Node<'_, 'a>, level: Level) -> Option<&'a [u8]>
        ensures { IfSome result (λ bytes. (value : Self) → Self.Reads node.now.class (item node.now) value →
            bytes.now ≡ Self.spelling level value) };
}

// In another node.
impl<'c, 'i, 'a, T: ReadAs<'a>> ValuePart<T> for &'c Node<'i, 'a> {
    ghost Says = { λ n v. T.Reads n.now.class (item n.now) v };

    #[inline(always)]
    fn put(&self, out: &mut Vec<u8>, level: Level) -> Appended {
        append(out, b",")?;
        T::write_of(*self, out, level)
    }
}

impl<'i, 'a, T: SetReadAs<'a>> MemberPart<T> for Node<'i, 'a> {
    ghost Says = { λ n v. T.Reads n.class (item n) v };

    #[inline(always)]
    fn write(&self, out: &mut Vec<u8>, level: Level) -> Appended {
        match T::copied(self, level) {
            Some(bytes) => append(out, bytes),
            None => T::write_of(self, out, level),
        }
    }

    // Of an item from which nothing is read it isn't known what is appended, not even that the bytes before stay.
    fn put_among(&self, texts: &mut Texts, level: Level) -> Appended {
        let start = texts.bytes.len();
        if let Some(bytes) = T::copied(self, level) {
            append(&mut texts.bytes, bytes)?;
            return put_last(&mut texts.bytes, &mut texts.spans, start);
        }
        texts.room.clear();
        texts.room.reserve(MEMBER_ROOM)?;
        T::write_of(self, &mut texts.room, level)?;
        append(&mut texts.bytes, &texts.room)?;
        put_last(&mut texts.bytes, &mut texts.spans, start)
    }
}

impl<'i, 'a, T: SetReadAs<'a>> MembersPart<T> for Chain<'i, 'a> {
    ghost Hold = { λ c. Holds c.items.now c.at };

    ghost Say = { λ c vs. ReadsEach (T.Reads c.class) (from_found c.items.now c.parent c.class c.at) vs };

    ghost left = { λ c. length (from_found c.items.now c.parent c.class c.at) };

    type First = Node<'i, 'a>;

    #[inline(always)]
    fn next(&self) -> Option<(Node<'i, 'a>, Chain<'i, 'a>)> {
        let items = self.items;
        let class = self.class;
        match self.at {
            None => None,
            Some(id) => {
                let at = lookup::later(items, id, self.parent, class);
                Some((Node { items, id, class }, Chain { at, ..*self }))
            }
        }
    }

    #[inline(always)]
    fn are_none(&self) -> bool {
        self.at.is_none()
    }

    #[inline(always)]
    fn are_few(&self) -> bool {
        self.few
    }
}
