ghost use Rattle.std.specs.Prelude.{◌≡◌};
ghost use Rattle.crs_group.specs.GroupOutput.{IsGroupOutput, IsGroupOutputUnder, plain};
ghost use Rattle.crs_group.specs.GroupRun.{IsGroupRun};
ghost use Rattle.crs_streams.specs.Streams.{fresh_sink, fresh_source};

use crate::ledger::{ByCanon, ByForm};
use crate::running::run_adding;
use crate::{Listing, PLAIN, RunFault, Sink, Source, Summary};
use crs_rules::Under;
use crs_value::Level;
use std::alloc::Global;
use std::io::{Read, Write};

/// Reads lines of texts to the end, and writes their catalogue at a level: for each group `group N:` and the numbers of
/// its lines, and then for each refused line `line L:` and the refusal. Lines are numbered from 1, blank ones included.
/// If there is nothing to write, the sink isn't called. `ReadFailed`, `WriteFailed`: the source or the sink has failed.
/// `TooLong(n)`: line `n` has more than 1,048,576 bytes before its line feed. `TooManyReads`: 1,048,576 reads have not
/// shown the end. `Memory`: there is none. Only `WriteFailed` may leave something in the sink.
pub fn run_group<R: Read, W: Write>(
    alloc: Global,
    level: Level,
    r: &mut Source<R>,
    w: &mut Sink<W>,
) -> Result<Summary, RunFault>
    requires source { r.old ≡ fresh_source r.old.remaining }
    requires sink { w.old ≡ fresh_sink w.old.contents }
    ensures { IsGroupRun (IsGroupOutput plain level) r.old r.new w.old w.new result }
{
    run_adding(alloc, ByCanon(level), PLAIN, r, w)
}

/// Writes what `run_group` writes, without the groups that aren't listed: the others keep their numbers, and the
/// summary counts all. If lines have names, `group N:` and each name after a tab, and `line NAME:`; in a name control
/// characters, marks of direction and backslashes are escaped, and what is no UTF-8 is U+FFFD. As objects of JSON, one
/// per line, a group is its number, the numbers of its lines, their names and its text, and a refused line its number,
/// its name and the refusal. The faults are the same; a name counts as part of its line.
pub fn run_group_listing<R: Read, W: Write>(
    alloc: Global,
    level: Level,
    listing: Listing,
    r: &mut Source<R>,
    w: &mut Sink<W>,
) -> Result<Summary, RunFault>
    requires source { r.old ≡ fresh_source r.old.remaining }
    requires sink { w.old ≡ fresh_sink w.old.contents }
    ensures { IsGroupRun (IsGroupOutput listing level) r.old r.new w.old w.new result }
{
    run_adding(alloc, ByCanon(level), listing, r, w)
}

/// Like `run_group_listing`, under rules: lines are in one group exactly if their texts are the same under the rules.
pub fn run_group_under<R: Read, W: Write>(
    alloc: Global,
    under: Under<'_>,
    listing: Listing,
    r: &mut Source<R>,
    w: &mut Sink<W>,
) -> Result<Summary, RunFault>
    requires source { r.old ≡ fresh_source r.old.remaining }
    requires sink { w.old ≡ fresh_sink w.old.contents }
    ensures { IsGroupRun (IsGroupOutputUnder under.entry.rules.now listing under.entry.level) r.old r.new w.old w.new result }
{
    run_adding(alloc, ByForm(under), listing, r, w)
}
