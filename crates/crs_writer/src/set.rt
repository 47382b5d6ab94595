//! Sets: each spelling once, in ascending order of the bytes.
ghost use Rattle.std.specs.Prelude.{◌≡◌, ◌∷◌, ◌++◌, List, map, OnOk};
ghost use Rattle.crs_normal.specs.inner.SpelledItems.{put, put_all};
ghost use Rattle.crs_writer.specs.inner.FromItems.{Writes};
ghost use Rattle.crs_writer.specs.inner.Members.{set_text, spellings};
ghost use Rattle.crs_writer.specs.SetText.{commas};
ghost use Rattle.crs_writer.specs.inner.Spans.{AreInOrder, texts_at};

use crate::append;
use crate::members::{MemberPart, MembersPart};
use crate::parts::{Appended, Spell};
use crate::spans::{Texts, write_spans};
use crs_value::Level;
use std::alloc::{AllocError, Global};
use std::collections::BTreeSet;

// The room of a member's spelling at first, which most don't exceed: a vector that grows from nothing is often copied.
pub(crate) const MEMBER_ROOM: usize = 128;

// A slice of fewer members has few: each is compared with all that are there. Of a node its number of arguments decides.
pub(crate) const FEW: usize = 16;

// The room that the spellings of a few members are given at first.
const FEW_ROOM: usize = 1024;

// Appends spellings in order, a comma before each.
fn write_sorted(out: &mut Vec<u8>, sorted: &BTreeSet<Vec<u8>>) -> Appended
    ensures { OnOk result (out.new.items ≡ out.old.items ++ commas (spellings sorted.now.keys)) }
{
    for bytes in sorted {
        append(out, b",")?;
        append(out, bytes)?;
    }
    Ok(())
}

/// Puts a member's spelling among the others. `AllocError`: there is no memory for it. Profile.
pub fn gather<T: Spell, P: MemberPart<T>>(
    alloc: Global,
    sorted: &mut BTreeSet<Vec<u8>>,
    member: &P,
    level: Level,
) -> Result<(), AllocError>
    ensures { OnOk result ((value : T) → P.Says member.now value →
        spellings sorted.new.keys ≡ put (λ b. b) (T.spelling level value) (spellings sorted.old.keys)) }
{
    let mut bytes = Vec::with_capacity(alloc, MEMBER_ROOM)?;
    member.write(&mut bytes, level)?;
    sorted.insert(bytes)?;
    Ok(())
}

/// Puts the spellings of the members among the others. `AllocError`: there is no memory for them. Profile.
pub fn gather_all<T: Spell, M: MembersPart<T>>(
    alloc: Global,
    sorted: &mut BTreeSet<Vec<u8>>,
    members: M,
    level: Level,
) -> Result<(), AllocError>
    requires { M.Hold members }
    ensures { OnOk result ((values : List T) → M.Say members values → spellings sorted.new.keys
        ≡ put_all (λ b. b) (spellings sorted.old.keys) (map (T.spelling level) values)) }
{
    let mut left = members;
    while let Some((member, others)) = left.next() {
        gather::<T, M::First>(alloc, sorted, &member, level)?;
        left = others;
    }
    Ok(())
}

// Puts the spellings of the members among the others.
fn gather_texts<T: Spell, M: MembersPart<T>>(
    texts: &mut Texts,
    members: M,
    level: Level,
) -> Appended
    requires members { M.Hold members }
    requires order { AreInOrder texts.old.bytes.items texts.old.spans.items }
    ensures order { OnOk result (AreInOrder texts.new.bytes.items texts.new.spans.items) }
    ensures texts { OnOk result ((values : List T) → M.Say members values →
        texts_at texts.new.bytes.items texts.new.spans.items
        ≡ put_all (λ b. b) (texts_at texts.old.bytes.items texts.old.spans.items) (map (T.spelling level) values)) }
{
    let mut left = members;
    while let Some((member, others)) = left.next() {
        member.put_among(texts, level)?;
        left = others;
    }
    Ok(())
}

// A set of a member and others. Most have no others, and need no order.
pub(crate) fn write_set_with<T: Spell, P: MemberPart<T>, M: MembersPart<T>>(
    out: &mut Vec<u8>,
    first: &P,
    others: &M,
    level: Level,
) -> Appended
    requires { M.Hold others.now }
    ensures { OnOk result ((value : T) (values : List T) → P.Says first.now value → M.Say others.now values →
        out.new.items ≡ out.old.items ++ set_text (map (T.spelling level) (value ∷ values))) }
{
    if others.are_none() {
        append(out, b",")?;
        first.write(out, level)
    } else if others.are_few() {
        let alloc = *out.allocator();
        let bytes = Vec::with_capacity(alloc, FEW_ROOM)?;
        let spans = Vec::with_capacity(alloc, FEW)?;
        let room = Vec::new(alloc);
        let mut texts = Texts { bytes, spans, room };
        first.put_among(&mut texts, level)?;
        gather_texts::<T, M>(&mut texts, *others, level)?;
        write_spans(out, &texts.bytes, &texts.spans)
    } else {
        let alloc = *out.allocator();
        let mut sorted = BTreeSet::new(alloc);
        gather::<T, P>(alloc, &mut sorted, first, level)?;
        gather_all::<T, M>(alloc, &mut sorted, *others, level)?;
        write_sorted(out, &sorted)
    }
}

/// Appends a set, a comma before each member. `AllocError`: there is no memory for it. Profile.
#[tactic(auto, unfolding(crate::specs::inner::Members::set_text))]
#[inline(always)]
pub fn write_set<T: Spell, M: MembersPart<T>>(
    out: &mut Vec<u8>,
    members: &M,
    level: Level,
) -> Result<(), AllocError>
    requires { M.Hold members.now }
    ensures { OnOk result (Writes (M.Say members.now) (λ values. set_text (map (T.spelling level) values))
        out.old.items out.new.items) }
{
    match members.next() {
        None => Ok(()),
        Some((first, others)) => write_set_with::<T, M::First, M>(out, &first, &others, level),
    }
}
