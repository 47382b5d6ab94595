//! What texts are read from: standard input, and files by their names.
use crate::messages::{tell_marked, tell_of};
use crs_desk::{Inputs, RunFault};
use std::fs::File;
use std::io;
use std::io::{Read, Stdin};

// The name of standard input among those of files.
pub const STANDARD: &str = "-";

/// Standard input or a file, with the failure of the last read that failed.
#[derive(Drop)]
pub struct Input {
    opened: Opened,
    failure: Option<io::Error>,
}

#[derive(Drop)]
enum Opened {
    Standard(Stdin),
    File(File),
}

impl Input {
    /// Standard input.
    pub fn standard(rt: &HostRuntime) -> Input {
        let (opened, failure) = (Opened::Standard(rt.stdin()), None);
        Input { opened, failure }
    }

    /// The file of a name, or standard input for `-`. The error is the system's.
    pub fn open(rt: &HostRuntime, name: &str) -> io::Result<Input> {
        if name == STANDARD {
            return Ok(Input::standard(rt));
        }
        let (opened, failure) = (Opened::File(File::open(rt, name)?), None);
        Ok(Input { opened, failure })
    }

    /// Why the last read that failed did so.
    pub fn failure(&self) -> Option<io::Error> {
        self.failure
    }
}

impl Read for Input {
    fn read(&mut self, buf: &mut [u8]) -> io::Result<usize> {
        let answer = match &mut self.opened {
            Opened::Standard(stdin) => stdin.read(buf),
            Opened::File(file) => file.read(buf),
        };
        if let Err(error) = answer {
            self.failure = Some(error);
        }
        answer
    }
}

/// The files of this system, whose faults are printed on standard error.
#[derive(Drop)]
pub struct Opener {
    /// The system.
    pub rt: HostRuntime,
}

impl Inputs for Opener {
    type Input = Input;

    ghost use Rattle.std.specs.Prelude.{None};

    ghost known = { λ opener name. None };

    fn open(&self, name: &str) -> Option<Input> {
        if tell_marked(&self.rt, name) {
            return None;
        }
        match Input::open(&self.rt, name) {
            Ok(input) => Some(input),
            Err(error) => {
                tell_of(&self.rt, name, error);
                None
            }
        }
    }

    fn tell(&self, name: &str, input: &Input, fault: &RunFault) {
        match (fault, input.failure()) {
            (RunFault::ReadFailed, Some(error)) => tell_of(&self.rt, name, error),
            _ => tell_of(&self.rt, name, fault),
        }
    }
}
