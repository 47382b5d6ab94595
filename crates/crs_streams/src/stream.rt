ghost use Rattle.std.specs.Prelude.{◌≡◌, ◌*◌, ◌≤◌, ◌<◌, ◌^◌, [], IfErr, IfOk, length, take, vec_len};
ghost use Rattle.std.specs.Io.{ReadsAtMost};
ghost use Rattle.std.specs.Io.KnownBytes.{ReadConsumes};
ghost use Rattle.crs_streams.specs.Streams.{GivesMore, CountsRead, fresh_source};

use std::alloc::{AllocError, Global};
use std::io;
use std::io::Read;
use std::marker::Model;

/// The most reads of a stream, 2^47.
pub const MAX_STREAM_READS: u64 = 140_737_488_355_328;

/// A reader that counts its reads and remembers a failure, for input of any length: full reads end after 2^63 bytes.
#[derive(Drop)]
pub struct Stream<R: Read> {
    reader: R,
    reads: u64,
    taken: u64,
    ended: bool,
    past_end: bool,
    failed: bool,
}

impl<R: Read> Model for Stream<R> {
    ghost use Rattle.std.specs.Prelude.{◌≤◌, ◌*◌, ◌^◌};
    ghost use Rattle.crs_streams.specs.Streams.{SourceState};

    ghost Value = { SourceState };

    ghost view = { λ stream. record {
      remaining = R.remaining stream.reader;
      reads = stream.reads;
      taken = stream.taken;
      ended = stream.ended;
      past_end = stream.past_end;
      failed = stream.failed;
    } };

    ghost invariant = { λ stream. (stream.reads ≤ 2 ^ 47) × (stream.taken ≤ 65536 * stream.reads) };
}

impl<R: Read> Stream<R> {
    /// A stream from which nothing has been read.
    pub fn new(reader: R) -> Stream<R>
        ensures { result ≡ fresh_source (R.remaining reader) }
    {
        Stream {
            reader,
            reads: 0,
            taken: 0,
            ended: false,
            past_end: false,
            failed: false,
        }
    }

    /// One read of at most as many bytes as there is room for. An error is the reader's own, an interruption
    /// included; the stream has `failed` from then on.
    pub fn read(&mut self, room: &mut [u8]) -> io::Result<usize>
        requires some { 1 ≤ length room.old }
        requires few { length room.old ≤ 65536 }
        requires reads { self.old.reads < 2 ^ 47 }
        ensures bound { ReadsAtMost result room.new }
        ensures bytes { ReadConsumes self.old.remaining self.new.remaining result room.new }
        ensures counted { CountsRead self.old self.new result }
        ensures few { self.new.taken ≤ 65536 * self.new.reads }
        ensures given { IfOk result (λ count. GivesMore self.old self.new (take count room.new)) }
        ensures kept { IfErr result (λ _. GivesMore self.old self.new []) }
    {
        self.reads += 1;
        self.past_end = self.past_end || self.ended;
        match self.reader.read(room) {
            Ok(count) => {
                self.taken += count as u64;
                self.ended = self.ended || count == 0;
                Ok(count)
            }
            Err(error) => {
                self.failed = true;
                Err(error)
            }
        }
    }

    /// How many reads were made.
    pub fn reads(&self) -> u64
        ensures count { result ≡ self.now.reads }
        ensures bound { result ≤ 2 ^ 47 }
    {
        self.reads
    }

    /// Whether a read answered a failure.
    pub fn failed(&self) -> bool
        ensures { result ≡ self.now.failed }
    {
        self.failed
    }
}

/// The most reads of a source.
pub const MAX_READS: u32 = 1_048_576;

// The most bytes of a read.
const ROOM: usize = 65_536;

/// A reader that counts its reads and remembers a failure, for input of a bounded number of reads.
#[derive(Drop)]
pub struct Source<R: Read> {
    stream: Stream<R>,
}

impl<R: Read> Model for Source<R> {
    ghost use Rattle.std.specs.Prelude.{◌≤◌};
    ghost use Rattle.crs_streams.specs.Streams.{SourceState};

    ghost Value = { SourceState };

    ghost view = { λ source. source.stream };

    ghost invariant = { λ source. source.stream.reads ≤ 1048576 };
}

impl<R: Read> Source<R> {
    /// A source from which nothing has been read.
    pub fn new(reader: R) -> Source<R>
        ensures { result ≡ fresh_source (R.remaining reader) }
    {
        Source {
            stream: Stream::new(reader),
        }
    }

    /// One read of at most as many bytes as there is room for. An error is the reader's own, an interruption
    /// included; the source has `failed` from then on.
    pub fn read(&mut self, room: &mut [u8]) -> io::Result<usize>
        requires some { 1 ≤ length room.old }
        requires few { length room.old ≤ 65536 }
        requires reads { self.old.reads < 1048576 }
        ensures bound { ReadsAtMost result room.new }
        ensures bytes { ReadConsumes self.old.remaining self.new.remaining result room.new }
        ensures counted { CountsRead self.old self.new result }
        ensures few { self.new.taken ≤ 65536 * self.new.reads }
        ensures given { IfOk result (λ count. GivesMore self.old self.new (take count room.new)) }
        ensures kept { IfErr result (λ _. GivesMore self.old self.new []) }
    {
        self.stream.read(room)
    }

    /// How many reads were made.
    pub fn reads(&self) -> u32
        ensures count { result ≡ self.now.reads }
        ensures bound { result ≤ 1048576 }
    {
        self.stream.reads() as u32
    }

    /// Whether a read answered a failure.
    pub fn failed(&self) -> bool
        ensures { result ≡ self.now.failed }
    {
        self.stream.failed()
    }
}

/// Room for a read of a run, 65,536 bytes. `AllocError` where there is no memory for it.
pub fn make_room(alloc: Global) -> Result<Vec<u8>, AllocError>
    ensures { IfOk result (λ room. vec_len room ≡ 65536) }
{
    vec![in alloc; 0u8; ROOM]
}
