//! What is written for two texts: one of them is refused, or their CRSs are compared.
ghost use Rattle.std.specs.Prelude.{ℕ, List, IfOk};
ghost use Rattle.crs_value.specs.declared.values.crs.Crs.{Crs};
ghost use Rattle.crs_value.specs.declared.values.level.Level.{Level};
ghost use Rattle.crs_value.specs.Spells.{IsFaultOfText, Refuses};
ghost use Rattle.crs_desk.specs.SameOutput.{IsPairOutput, IsSecondOutput};

use crate::Level;
use crate::runs::answer::Answer;
use crate::runs::text::refusal_in;
use crs_text::{Fault, Refusal};
use crs_value::{Crs, read};
use std::alloc::{AllocError, Global};

/// How a refusal is written, and how two CRSs are compared.
pub trait Telling: Copy {
    // What is written for the refusal of a text, after the word that says which text it is.
    ghost Refused: { Self → List ℕ → List ℕ → List ℕ → ℕ → Type 0 };

    // What is written for two CRSs at a level.
    ghost Compared: { Self → Level → Crs → Crs → List ℕ → ℕ → Type 0 };

    /// What is written for the refusal of a text. `AllocError`: memory ran out.
    fn refusal(
        self,
        alloc: Global,
        which: &[u8],
        text: &[u8],
        refusal: Refusal,
    ) -> Result<Vec<u8>, AllocError>
        requires { Refuses text.now refusal }
        ensures { IfOk result (λ told. Refused self which.now text.now told.items 1) };

    /// What is written for two CRSs at a level, and the status. `AllocError`: memory ran out.
    fn comparison<'t>(
        self,
        alloc: Global,
        level: Level,
        a: &Crs<'t>,
        b: &Crs<'t>,
    ) -> Result<(Vec<u8>, u8), AllocError>
        ensures { IfOk result (λ output. Compared self level a.now b.now output.0.items output.1) };
}

/// What is written for two texts, in this form, at this level.
#[derive(Drop)]
pub struct PairAnswer<'t, T: Telling> {
    /// The form.
    pub told: T,
    /// The level.
    pub level: Level,
    /// The first text.
    pub a: &'t [u8],
    /// The second.
    pub b: &'t [u8],
}

impl<T: Telling> Answer for PairAnswer<'_, T> {
    ghost use Rattle.crs_desk.specs.SameOutput.{IsPairOutput};

    ghost Output = { λ s written status.
        IsPairOutput (T.Refused s.told) (T.Compared s.told s.level) s.a.now s.b.now written status };

    fn output(&self, alloc: Global) -> Result<(Vec<u8>, u8), AllocError> {
        pair_output(alloc, self.told, self.level, self.a, self.b)
    }
}

/// What is written for two texts at a level, and the status. `AllocError`: memory ran out.
pub fn pair_output<'t, T: Telling>(
    alloc: Global,
    told: T,
    level: Level,
    first: &'t [u8],
    second: &'t [u8],
) -> Result<(Vec<u8>, u8), AllocError>
    ensures { IfOk result (λ output. IsPairOutput (T.Refused told) (T.Compared told level)
        first.now second.now output.0.items output.1) }
{
    match read(alloc, first) {
        Ok(crs) => second_output(alloc, told, level, &crs, second),
        Err(fault) => refused_output(alloc, told, b"first ", first, fault),
    }
}

// The second text, where the first spells a CRS.
fn second_output<'t, T: Telling>(
    alloc: Global,
    told: T,
    level: Level,
    first: &Crs<'t>,
    second: &'t [u8],
) -> Result<(Vec<u8>, u8), AllocError>
    ensures { IfOk result (λ output. IsSecondOutput (T.Refused told) (T.Compared told level first.now)
        second.now output.0.items output.1) }
{
    match read(alloc, second) {
        Ok(crs) => told.comparison(alloc, level, first, &crs),
        Err(fault) => refused_output(alloc, told, b"second ", second, fault),
    }
}

/// What is written for a refusal, after the word for its text, and the status. `AllocError`: no memory for it.
pub fn refused_output<T: Telling>(
    alloc: Global,
    told: T,
    which: &[u8],
    text: &[u8],
    fault: Fault,
) -> Result<(Vec<u8>, u8), AllocError>
    requires { IsFaultOfText text.now fault }
    ensures { IfOk result (λ output. T.Refused told which.now text.now output.0.items output.1) }
{
    let refusal = refusal_in(fault)?;
    Ok((told.refusal(alloc, which, text, refusal)?, 1))
}
