//! What is made of the CRSs of two texts, read one after the other: whether they are the same, and where they differ.
ghost use Rattle.std.specs.Prelude.{◌≡◌, IfOk, MatchResult};
ghost use Rattle.crs_value.specs.declared.values.crs.Crs.{Crs};
ghost use Rattle.crs_c.specs.inner.Comparison.{IsMadeBehind, IsMadeOfBoth, IsPairFault, IsSecondFault};
ghost use Rattle.crs_c.specs.FirstPart.{words_of};

use crate::calls::codes::{NO_MEMORY, REFUSED, SECOND_REFUSED};
use crate::calls::refused::{Refused, tell};
use crs_explain::laws::nothing_is_told_where_same;
use crs_explain::{Pieces, difference_lines, difference_pieces, differing_parts};
use crs_same::{Path, first_part, laws, same};
use crs_value::laws::crs_is_sound;
use crs_value::{Crs, Level, read};
use std::alloc::{AllocError, Global};

/// What is made of two CRSs. It is passed by value: a call with a CRS is slow to prove if another reference comes
/// first.
pub trait Comparing: Copy {
    type Made: Drop;

    ghost Like: { Self → Crs → Crs → Self.Made → Type 0 };

    fn compare<'t>(self, alloc: Global, a: &Crs<'t>, b: &Crs<'t>) -> Result<Self::Made, AllocError>
        ensures { IfOk result (Like self a.now b.now) };
}

/// What is made of the CRSs of two texts; or a code, and `refused` says why a text is refused.
pub fn made_of_both<'t, C: Comparing>(
    alloc: Global,
    by: C,
    first: &'t [u8],
    second: &'t [u8],
    refused: &mut Refused,
) -> Result<C::Made, u32>
    ensures { MatchResult result
        (λ made. IsMadeOfBoth (C.Like by) first.now second.now made × (refused.new ≡ refused.old))
        (λ code. IsPairFault first.now second.now refused.old refused.new code) }
{
    match read(alloc, first) {
        Ok(crs) => made_behind(alloc, by, &crs, second, refused),
        Err(fault) => Err(tell(fault, REFUSED, refused)),
    }
}

// The second text, where the first spells a CRS.
fn made_behind<'t, C: Comparing>(
    alloc: Global,
    by: C,
    first: &Crs<'t>,
    second: &'t [u8],
    refused: &mut Refused,
) -> Result<C::Made, u32>
    ensures { MatchResult result
        (λ made. IsMadeBehind (C.Like by first.now) second.now made × (refused.new ≡ refused.old))
        (λ code. IsSecondFault second.now refused.old refused.new code) }
{
    match read(alloc, second) {
        Ok(crs) => made_of_second(alloc, by, first, crs),
        Err(fault) => Err(tell(fault, SECOND_REFUSED, refused)),
    }
}

// The second CRS ends here: a function that has more to tell is slow to prove over its end.
fn made_of_second<'t, C: Comparing>(
    alloc: Global,
    by: C,
    first: &Crs<'t>,
    second: Crs<'t>,
) -> Result<C::Made, u32>
    ensures { MatchResult result (λ made. C.Like by first.now second.entry made) (λ code. code ≡ 3) }
{
    by.compare(alloc, first, &second).map_err(|_| NO_MEMORY)
}

/// Whether two CRSs are the same at a level.
#[derive(Clone, Copy)]
pub struct Sameness(pub Level);

impl Comparing for Sameness {
    ghost use Rattle.std.specs.Prelude.{◌↔◌, IsTrue};
    ghost use Rattle.crs_same.specs.SameCrs.{SameCrs};

    type Made = bool;

    ghost Like = { λ s a b same. IsTrue same ↔ SameCrs s.0 a b };

    fn compare<'t>(self, _alloc: Global, a: &Crs<'t>, b: &Crs<'t>) -> Result<bool, AllocError> {
        Ok(same(a, b, self.0))
    }
}

/// The words of the first part in which two CRSs differ at a level; no words exactly if they are the same.
#[derive(Clone, Copy)]
pub struct FirstPart(pub Level);

impl Comparing for FirstPart {
    ghost use Rattle.crs_c.specs.FirstPart.{IsFirstPartText};

    type Made = Vec<u8>;

    ghost Like = { λ s a b words. IsFirstPartText s.0 a b words.items };

    fn compare<'t>(self, alloc: Global, a: &Crs<'t>, b: &Crs<'t>) -> Result<Vec<u8>, AllocError> {
        laws::paths_have_words();
        words_of(alloc, first_part(a, b, self.0))
    }
}

// The words of a path; no words where there is none.
fn words_of(alloc: Global, found: Option<Path>) -> Result<Vec<u8>, AllocError>
    ensures { IfOk result (λ words. words.items ≡ words_of found) }
{
    let mut words = Vec::new(alloc);
    if let Some(path) = found {
        path.write(&mut words)?;
    }
    Ok(words)
}

/// The lines of all parts in which two CRSs differ at a level; no lines exactly if they are the same.
#[derive(Clone, Copy)]
pub struct Lines(pub Level);

impl Comparing for Lines {
    ghost use Rattle.crs_c.specs.Explain.{AreLines};

    type Made = Vec<u8>;

    ghost Like = { λ s a b lines. AreLines s.0 a b lines.items };

    fn compare<'t>(self, alloc: Global, a: &Crs<'t>, b: &Crs<'t>) -> Result<Vec<u8>, AllocError> {
        nothing_is_told_where_same();
        crs_is_sound(a);
        crs_is_sound(b);
        difference_lines(alloc, &differing_parts(alloc, a, b, self.0)?)
    }
}

/// The pieces of all parts in which two CRSs differ at a level; no pieces exactly if they are the same.
#[derive(Clone, Copy)]
pub struct DifferencePieces(pub Level);

impl Comparing for DifferencePieces {
    ghost use Rattle.crs_c.specs.ExplainPieces.{ArePieces};

    type Made = Pieces;

    ghost Like = { λ s a b pieces. ArePieces s.0 a b pieces };

    fn compare<'t>(self, alloc: Global, a: &Crs<'t>, b: &Crs<'t>) -> Result<Pieces, AllocError> {
        nothing_is_told_where_same();
        crs_is_sound(a);
        crs_is_sound(b);
        difference_pieces(alloc, &differing_parts(alloc, a, b, self.0)?)
    }
}
