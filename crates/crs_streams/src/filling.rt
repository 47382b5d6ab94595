//! A reader that fills its room.
ghost use Rattle.std.specs.Prelude.{◌≡◌, ◌≤◌, length};
ghost use Rattle.std.specs.Io.{ReadsAtMost};
ghost use Rattle.std.specs.Io.KnownBytes.{ReadConsumes};
ghost use Rattle.crs_streams.specs.Filled.{FillsRoom, fresh_filling};

use std::io;
use std::io::Read;
use std::marker::Model;

/// A reader that asks another one until the room is full: a pipe gives what was written last, often a line, and a run
/// makes a bounded number of reads. Once the other one has shown its end, it isn't asked again. Where it fails after
/// some bytes, they come first, and the next read fails.
#[derive(Drop)]
pub struct Filling<R: Read> {
    reader: R,
    ended: bool,
    failure: Option<io::Error>,
}

impl<R: Read> Model for Filling<R> {
    ghost use Rattle.std.specs.Prelude.{◌≡◌, is_some, true};
    ghost use Rattle.std.specs.Io.KnownBytes.{IsAtEnd};
    ghost use Rattle.crs_streams.specs.Filled.{FillingState};

    ghost Value = { FillingState };

    ghost view = { λ filling. record {
      remaining = R.remaining filling.reader;
      ended = filling.ended;
      fails_next = is_some filling.failure;
    } };

    ghost invariant = { λ filling. filling.ended ≡ true → IsAtEnd (R.remaining filling.reader) };
}

impl<R: Read> Filling<R> {
    /// A reader over one from which nothing was read yet.
    pub fn new(reader: R) -> Filling<R>
        ensures { result ≡ fresh_filling (R.remaining reader) }
    {
        Filling {
            reader,
            ended: false,
            failure: None,
        }
    }
}

impl<R: Read> Read for Filling<R> {
    ghost remaining = { λ filling. filling.remaining };

    fn read(&mut self, buf: &mut [u8]) -> io::Result<usize>
        ensures bound { ReadsAtMost result buf.new }
        ensures bytes { ReadConsumes self.old.remaining self.new.remaining result buf.new }
        ensures filled { FillsRoom self.old self.new (length buf.old) result }
    {
        if let Some(error) = self.failure.take() {
            return Err(error);
        }
        let mut filled = 0;
        if self.ended {
            return Ok(filled);
        }
        while filled < buf.len() {
            match self.reader.read(&mut buf[filled..]) {
                Ok(0) => {
                    self.ended = true;
                    break;
                }
                Ok(count) => filled += count,
                Err(error) => {
                    if filled == 0 {
                        return Err(error);
                    }
                    self.failure = Some(error);
                    break;
                }
            }
        }
        Ok(filled)
    }
}
