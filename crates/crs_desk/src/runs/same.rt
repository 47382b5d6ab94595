ghost use Rattle.std.specs.Prelude.{◌≡◌, ◌++◌, ◌∷◌, [], IfOk};
ghost use Rattle.crs_desk.specs.Ending.{IsSent};
ghost use Rattle.crs_desk.specs.SameOutput.{IsSameOutput, difference_told};
ghost use Rattle.crs_desk.specs.declared.runs.manner.Manner.TheVariants as manner;
ghost use Rattle.crs_desk.specs.inner.Found.{WritesPart};
ghost use Rattle.crs_streams.specs.Streams.{fresh_sink};

use crate::runs::explain::same_line;
use crate::{Manner, PairAnswer, Telling, refusal_line, write_answer};
use crs_same::{Path, first_part};
use crs_streams::json::append_text;
use crs_streams::{RunFault, Sink};
use crs_text::Refusal;
use crs_value::{Crs, Level};
use std::alloc::{AllocError, Global};
use std::io::Write;

/// Writes whether two texts spell the same CRS at a level: `same`, with status 0; or, with status 1, `different` and
/// the path of the first part that differs, or `first` or `second` and the refusal of the first text that spells no
/// CRS. `WriteFailed`: the sink has failed. `Memory`: memory ran out, and nothing was written.
pub fn run_same<W: Write>(
    alloc: Global,
    level: Level,
    a: &[u8],
    b: &[u8],
    w: &mut Sink<W>,
) -> Result<u8, RunFault>
    requires { w.old ≡ fresh_sink w.old.contents }
    ensures { IsSent (IsSameOutput manner.Lines level a.now b.now) w.old w.new result }
{
    let told = InALine { how: Manner::Lines };
    write_answer(alloc, &PairAnswer { told, level, a, b }, w)
}

/// A refusal, and the first part in which two CRSs differ, are a line each.
#[derive(Clone, Copy)]
pub struct InALine {
    /// Which has words, or an object.
    pub how: Manner,
}

impl Telling for InALine {
    ghost use Rattle.crs_desk.specs.Output.{WritesRefusalOf};
    ghost use Rattle.crs_desk.specs.SameOutput.{WritesWhetherSame};

    ghost Refused = { λ s which text written status. WritesRefusalOf s.how which text written status };

    ghost Compared = { λ s level a b written status. WritesWhetherSame s.how level a b written status };

    fn refusal(
        self,
        alloc: Global,
        which: &[u8],
        _text: &[u8],
        refusal: Refusal,
    ) -> Result<Vec<u8>, AllocError> {
        refusal_line(alloc, self.how, which, refusal)
    }

    fn comparison<'t>(
        self,
        alloc: Global,
        level: Level,
        a: &Crs<'t>,
        b: &Crs<'t>,
    ) -> Result<(Vec<u8>, u8), AllocError> {
        part_output(alloc, self.how, first_part(a, b, level))
    }
}

// The line that says whether two are the same, or the first part that differs.
fn part_output(alloc: Global, how: Manner, found: Option<Path>) -> Result<(Vec<u8>, u8), AllocError>
    ensures { IfOk result (λ output. WritesPart how found output.0.items output.1) }
{
    let Some(path) = found else {
        return Ok((same_line(alloc, how)?, 0));
    };
    let mut shown = Vec::new(alloc);
    path.write(&mut shown)?;
    Ok((difference_line(alloc, how, &shown)?, 1))
}

fn difference_line(alloc: Global, how: Manner, path: &[u8]) -> Result<Vec<u8>, AllocError>
    ensures { IfOk result (λ line. line.items ≡ difference_told how path.now ++ 10 ∷ []) }
{
    let mut line = Vec::new(alloc);
    match how {
        Manner::Lines => {
            line.extend_from_slice(b"different ")?;
            line.extend_from_slice(path)?;
        }
        Manner::Objects => {
            line.extend_from_slice(b"{\"same\":false,\"path\":")?;
            append_text(path, &mut line)?;
            line.push(b'}')?;
        }
    }
    line.push(b'\n')?;
    Ok(line)
}
