//! The text of a source, whole, or judged piece by piece as it is read.
ghost use Rattle.std.specs.Prelude.{◌≡◌, ◌≤◌, ◌++◌, IfOk, IfErr, false, ℕ, List};
ghost use Rattle.crs_streams.specs.Streams.{fresh_source};
ghost use Rattle.crs_desk.specs.Whole.{IsWhole, IsReadFault};
ghost use Rattle.crs_desk.specs.inner.Pieces.{IsHeld, IsHeldOf};

use crate::{RunFault, Source};
use crs_streams::{MAX_READS, append_bytes, make_room};
use crs_text::{Fault, Feeder};
use std::alloc::Global;
use std::io::Read;

const MAX_BYTES: usize = 1_048_576;

/// The whole text of a source, at most 1,048,576 bytes. `ReadFailed`: the source has failed. `TooLong(0)`: it has more
/// bytes. `TooManyReads`: 1,048,576 reads have not shown the end. `Memory`: memory ran out.
pub fn read_text<R: Read>(alloc: Global, source: &mut Source<R>) -> Result<Vec<u8>, RunFault>
    requires { source.old ≡ fresh_source source.old.remaining }
    ensures ok { IfOk result (λ text. IsWhole source.old source.new text.items) }
    ensures reads { source.new.reads ≤ 1048576 }
    ensures past_end { source.new.past_end ≡ false }
    ensures err { IfErr result (IsReadFault source.new) }
{
    let mut bytes = make_room(alloc).map_err(|_| RunFault::Memory)?;
    let room = bytes.as_mut_slice();
    let mut text = Vec::new(alloc);
    for turn in 0..MAX_READS {
        let count = source.read(room).map_err(|_| RunFault::ReadFailed)?;
        if count == 0 {
            return Ok(text);
        }
        if count > MAX_BYTES - text.len() {
            return Err(RunFault::TooLong(0));
        }
        append_bytes(&mut text, &room[..count])?;
    }
    Err(RunFault::TooManyReads)
}

// A feeder that was fed a source's whole text, at most 1,048,576 bytes; after a settled refusal the rest is counted.
pub(crate) fn read_pieces<R: Read>(
    alloc: Global,
    source: &mut Source<R>,
) -> Result<Feeder, RunFault>
    requires { source.old ≡ fresh_source source.old.remaining }
    ensures ok { IfOk result (IsHeldOf source.old source.new) }
    ensures reads { source.new.reads ≤ 1048576 }
    ensures past_end { source.new.past_end ≡ false }
    ensures err { IfErr result (IsReadFault source.new) }
{
    let mut bytes = make_room(alloc).map_err(|_| RunFault::Memory)?;
    let room = bytes.as_mut_slice();
    let mut feeder = Feeder::new(alloc);
    let mut taken = 0;
    let mut refused = false;
    for turn in 0..MAX_READS {
        let count = source.read(room).map_err(|_| RunFault::ReadFailed)?;
        if count == 0 {
            return Ok(feeder);
        }
        if count > MAX_BYTES - taken {
            return Err(RunFault::TooLong(0));
        }
        taken += count;
        refused = feed_next(&mut feeder, refused, &room[..count])?;
    }
    Err(RunFault::TooManyReads)
}

// Feeds the next piece where no refusal is settled yet, and answers whether one is settled now.
fn feed_next(feeder: &mut Feeder, refused: bool, piece: &[u8]) -> Result<bool, RunFault>
    ensures ok { IfOk result (λ now. (text : List ℕ) → IsHeld refused text feeder.old →
        IsHeld now (text ++ piece.now) feeder.new) }
    ensures err { IfErr result (λ fault. fault ≡ RunFault.Memory) }
{
    if refused {
        return Ok(true);
    }
    match feeder.feed(piece) {
        Ok(()) => Ok(false),
        Err(Fault::Refused(_)) => Ok(true),
        Err(Fault::Memory(_)) => Err(RunFault::Memory),
    }
}
