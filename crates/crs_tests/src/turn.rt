//! One call that takes memory, between two lines on standard output, so that a test refuses growths only to it.
use crs_surface::Answer;
use std::alloc::Global;
use std::io;
use std::io::Write;

/// A call and its answer: the call that is tried, and after out of memory the same once more.
#[derive(Drop)]
pub struct Turn<'r, R> {
    rt: &'r R,
    is_tried: bool,
    out: Answer,
    // whether the end of the call that is tried was written
    ended: io::Result<()>,
}

impl<'r, R: Print + AllocGlobal> Turn<'r, R> {
    /// Writes `call`: the call that is tried comes next, and nothing else that takes memory.
    pub fn begin(rt: &'r R) -> io::Result<Turn<'r, R>> {
        io::writer(rt).write_all(b"call\n")?;
        Ok(Turn {
            rt,
            is_tried: true,
            out: Answer::new(rt.alloc()),
            ended: Ok(()),
        })
    }

    /// What memory comes from.
    pub fn alloc(&self) -> Global {
        self.out.alloc()
    }

    /// Ends the call, and has its answer put: of the call that is tried it writes `answered`, and remembers a failure.
    pub fn end(&mut self) -> &mut Answer {
        if self.is_tried {
            self.ended = io::writer(self.rt).write_all(b"answered\n");
        }
        &mut self.out
    }

    /// Prints a line `answer`, and whether that is all: if it is `memory`, out of memory, a line `kept` says whether
    /// what the call was passed is as before, `yes` or `no`, and the same call comes once more, with a line `again`.
    pub fn is_done(&mut self, is_kept: bool) -> io::Result<bool> {
        let is_answered = self.out.bytes().is_ok();
        if is_answered || !self.is_tried {
            self.ended?;
            let word = if self.is_tried { "answer" } else { "again" };
            print!(self.rt; "{word} ")?;
            self.out.print(self.rt)?;
        } else {
            self.is_tried = false;
            self.out = Answer::new(self.rt.alloc());
            let kept = if is_kept { "yes" } else { "no" };
            println!(self.rt; "answer memory\nkept {kept}")?;
        }
        Ok(is_answered)
    }
}
