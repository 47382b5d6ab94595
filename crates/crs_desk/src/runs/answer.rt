//! The end of a run: a command's answer is written, with its status.
ghost use Rattle.std.specs.Prelude.{◌≡◌, ℕ, List, IfOk};
ghost use Rattle.crs_desk.specs.Ending.{IsSent};
ghost use Rattle.crs_streams.specs.Streams.{fresh_sink};

use crate::{RunFault, Sink};
use std::alloc::{AllocError, Global};
use std::io::Write;

/// What a command writes, and its status.
pub trait Answer {
    ghost Output: { Self → List ℕ → ℕ → Type 0 };

    /// The bytes and the status. `AllocError`: memory ran out.
    fn output(&self, alloc: Global) -> Result<(Vec<u8>, u8), AllocError>
        ensures { IfOk result (λ output. Output self.now output.0.items output.1) };
}

/// A command that answers a text by some bytes and a status.
pub trait TextCommand {
    ghost Output: { Self → List ℕ → List ℕ → ℕ → Type 0 };

    /// The bytes and the status for a text. `AllocError`: memory ran out.
    fn output(&self, alloc: Global, text: &[u8]) -> Result<(Vec<u8>, u8), AllocError>
        ensures { IfOk result (λ output. Output self.now text.now output.0.items output.1) };
}

/// The answer of a command for a text.
#[derive(Drop)]
pub struct ForText<'t, C: TextCommand> {
    /// The command.
    pub command: C,
    /// The text.
    pub text: &'t [u8],
}

impl<C: TextCommand> Answer for ForText<'_, C> {
    ghost Output = { λ s written status. C.Output s.command s.text.now written status };

    fn output(&self, alloc: Global) -> Result<(Vec<u8>, u8), AllocError> {
        self.command.output(alloc, self.text)
    }
}

/// Writes the answer, and gives its status. `WriteFailed`: the sink has failed; `Memory`: nothing was written.
pub fn write_answer<A: Answer, W: Write>(
    alloc: Global,
    answer: &A,
    w: &mut Sink<W>,
) -> Result<u8, RunFault>
    requires { w.old ≡ fresh_sink w.old.contents }
    ensures { IsSent (A.Output answer.now) w.old w.new result }
{
    let (output, status) = answer.output(alloc).map_err(|_| RunFault::Memory)?;
    w.write_all(&output).map_err(|_| RunFault::WriteFailed)?;
    Ok(status)
}
