ghost use Rattle.std.specs.Prelude.{◌≡◌, OnErr, OnOk};
ghost use Rattle.std.specs.Io.{WritesAtMost};
ghost use Rattle.std.specs.Io.KnownBytes.{Appends, WriteAppends};
ghost use Rattle.crs_streams.specs.Streams.{AppendsFront, CountsWrites, fresh_sink};
ghost use Rattle.crs_streams.specs.inner.OneWrite.{CountsWrite};

use std::io;
use std::io::Write;
use std::marker::Model;

/// A writer that remembers whether it was used, and a failure.
#[derive(Drop)]
pub struct Sink<W: Write> {
    writer: W,
    used: bool,
    past_failure: bool,
    failed: bool,
}

impl<W: Write> Model for Sink<W> {
    ghost use Rattle.crs_streams.specs.Streams.{SinkState};

    ghost Value = { SinkState };

    ghost view = { λ sink. record {
      contents = W.contents sink.writer;
      used = sink.used;
      past_failure = sink.past_failure;
      failed = sink.failed;
    } };
}

impl<W: Write> Sink<W> {
    /// A sink to which nothing has been written.
    pub fn new(writer: W) -> Sink<W>
        ensures { result ≡ fresh_sink (W.contents writer) }
    {
        Sink {
            writer,
            used: false,
            past_failure: false,
            failed: false,
        }
    }

    /// Writes all the bytes, as many at a time as the writer takes; where there are none the writer isn't asked. An
    /// error is the writer's own, an interruption included, or `WriteZero` where the writer takes no byte. Nothing is
    /// asked of the writer after it, the sink has `failed` from then on, and what the writer took are the first bytes.
    pub fn write_all(&mut self, bytes: &[u8]) -> io::Result<()>
        ensures bytes { OnOk result (Appends self.old.contents self.new.contents bytes.now) }
        ensures front { OnErr result (AppendsFront self.old.contents self.new.contents bytes.now) }
        ensures counted { CountsWrites self.old self.new result }
    {
        self.used = true;
        let mut rest = bytes;
        while !rest.is_empty() {
            match self.write(rest)? {
                0 => return Err(io::Error::from(io::ErrorKind::WriteZero)),
                count => rest = &rest[count..],
            }
        }
        Ok(())
    }

    // One write, and how many bytes the writer took. An interruption is a failure: its own `write_all` would try again.
    fn write(&mut self, bytes: &[u8]) -> io::Result<usize>
        ensures bound { WritesAtMost result bytes.now }
        ensures bytes { WriteAppends self.old.contents self.new.contents result bytes.now }
        ensures counted { CountsWrite self.old self.new result }
    {
        self.used = true;
        self.past_failure = self.past_failure || self.failed;
        match self.writer.write(bytes) {
            Ok(count) => {
                self.failed = self.failed || count == 0;
                Ok(count)
            }
            Err(error) => {
                self.failed = true;
                Err(error)
            }
        }
    }

    /// The writer, with what was written to it.
    pub fn into_inner(self) -> W
        ensures { W.contents result ≡ self.contents }
    {
        self.writer
    }

    /// Whether a write answered a failure, or took no byte.
    pub fn failed(&self) -> bool
        ensures { result ≡ self.now.failed }
    {
        self.failed
    }
}
