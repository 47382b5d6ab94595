//! Paths to the parts of a CRS.
ghost use Rattle.std.specs.Prelude.{◌≡◌, ◌<◌, ◌≤◌, ◌++◌, ◌∷◌, [], length, take, OnOk, MatchResult};
ghost use Rattle.crs_same.specs.Paths.{further_text, path_text};

use crate::step::Step;
use crs_value::Level;
use std::alloc::AllocError;
use std::marker::Model;

// the steps of the longest path
const MOST: usize = 5;

/// Where a part is in a CRS: the steps to it, at most five. Profile.
#[derive(Drop)]
pub struct Path {
    steps: [Step; MOST],
    len: usize,
}

impl Model for Path {
    ghost use Rattle.std.specs.Prelude.{List, take, ◌≤◌};
    ghost use Rattle.crs_same.specs.declared.step.Step.{Step};

    ghost Value = { List Step };

    ghost view = { λ p. take p.len p.steps };

    ghost invariant = { λ p. p.len ≤ 5 };
}

impl Path {
    // One step further.
    pub(crate) fn then(&self, step: Step) -> Path
        requires { length self.now < 5 }
        ensures { result ≡ self.now ++ step ∷ [] }
    {
        let mut steps = self.steps;
        steps[self.len] = step;
        let len = self.len + 1;
        Path { steps, len }
    }

    /// The steps, from the whole to the part.
    pub fn steps(&self) -> &[Step]
        ensures steps { result.now ≡ self.now }
        ensures at_most { length self.now ≤ 5 }
    {
        &self.steps[..self.len]
    }

    /// Appends the words of the steps, with `/` between them. `AllocError`: no memory for them, and `out` is as before.
    pub fn write(&self, out: &mut Vec<u8>) -> Result<(), AllocError>
        ensures { MatchResult result (λ _. out.new.items ≡ out.old.items ++ path_text self.now)
            (λ _. out.new.items ≡ out.old.items) }
    {
        let before = out.len();
        if let Err(error) = write_steps(self.steps(), out) {
            out.truncate(before);
            return Err(error);
        }
        Ok(())
    }
}

fn write_steps(steps: &[Step], out: &mut Vec<u8>) -> Result<(), AllocError>
    ensures ok { OnOk result (out.new.items ≡ out.old.items ++ path_text steps.now) }
    ensures front { take (length out.old.items) out.new.items ≡ out.old.items }
{
    match steps.split_first() {
        None => Ok(()),
        Some((first, further)) => {
            first.write(out)?;
            write_further(further, out)
        }
    }
}

fn write_further(steps: &[Step], out: &mut Vec<u8>) -> Result<(), AllocError>
    ensures ok { OnOk result (out.new.items ≡ out.old.items ++ further_text steps.now) }
    ensures front { take (length out.old.items) out.new.items ≡ out.old.items }
{
    for step in steps {
        out.push(b'/')?;
        step.write(out)?;
    }
    Ok(())
}

// Where a part is that has parts, and the level at which it is compared.
#[derive(Drop)]
pub(crate) struct At {
    pub(crate) path: Path,
    pub(crate) level: Level,
    // So there is room for a part's step.
    pub(crate) ghost within: { length path ≤ 4 },
}

impl At {
    // Where the whole is.
    pub(crate) fn start(level: Level) -> At
        ensures path { result.path ≡ [] }
        ensures level { result.level ≡ level }
    {
        let steps = [Step::Kind; MOST];
        let path = Path { steps, len: 0 };
        At { path, level }
    }

    // One step further.
    pub(crate) fn then(&self, step: Step) -> At
        requires { length self.now.path < 4 }
        ensures path { result.path ≡ self.now.path ++ step ∷ [] }
        ensures level { result.level ≡ self.now.level }
    {
        At {
            path: self.path.then(step),
            level: self.level,
        }
    }
}
