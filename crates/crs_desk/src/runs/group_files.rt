//! Groups whole files, one text per file, by their names.
ghost use Rattle.std.specs.Prelude.{◌≡◌, ◌≤◌, ◌+◌, ◌^◌, ◌<◌, ◌++◌, ◌∷◌, [], List, IfErr, IfOk, OnOk, false, length};
ghost use Rattle.crs_streams.specs.Streams.{fresh_sink};
ghost use Rattle.crs_group.specs.Names.{NamedText};
ghost use Rattle.crs_group.specs.inner.GroupReading.{IsLedgerOfNamed};
ghost use Rattle.crs_desk.specs.FilesGrouped.{AreFilesGrouped, AreReadFiles, IsReadFile};
ghost use Rattle.crs_desk.specs.FilesRun.{IsFilesFault};
ghost use Rattle.crs_desk.specs.inner.FilesGrouping.{AreAdded, IsAdded};

use crate::runs::files::FAILED;
use crate::{Filling, Inputs, LineWord, Listing, RunFault, Sink, Source, read_text};
use crs_group::pieces::{Adding, Ledger, listed_text};
use std::alloc::Global;
use std::io::Write;

/// Groups files, one text per file, in this way, and writes the groups that are listed, then the blank and the refused
/// ones, all by their names. A file that can't be opened, or not be read to its end as one text, is reported to the
/// user and has status 2, and the others are grouped; if a text is refused, the status is 1. `WriteFailed`: the sink
/// has failed. `Memory`: memory ran out.
pub fn run_group_files<A: Adding, I: Inputs, W: Write>(
    alloc: Global,
    adding: &A,
    listing: Listing,
    names: &[LineWord],
    files: &I,
    w: &mut Sink<W>,
) -> Result<u8, RunFault>
    requires { w.old ≡ fresh_sink w.old.contents }
    ensures answered { IfOk result (AreFilesGrouped (A.Form adding.now) (A.Share adding.now) listing (A.level adding.now)
        (I.known files.now) names.now w.old w.new) }
    ensures fault { IfErr result (IsFilesFault w.new) }
    ensures past_failure { w.new.past_failure ≡ false }
{
    let mut ledger = Ledger::of(alloc, adding);
    let failed = add_files(alloc, adding, names, files, &mut ledger)?;
    let text = listed_text(alloc, listing, &ledger).map_err(|_| RunFault::Memory)?;
    w.write_all(&text).map_err(|_| RunFault::WriteFailed)?;
    let refused = if ledger.summary().refused == 0 { 0 } else { 1 };
    Ok(failed.max(refused))
}

// Adds the files' texts by their names. The status is 2 where a file fails.
fn add_files<A: Adding, I: Inputs>(
    alloc: Global,
    adding: &A,
    names: &[LineWord],
    files: &I,
    ledger: &mut Ledger,
) -> Result<u8, RunFault>
    requires texts { IsLedgerOfNamed (A.Form adding.now) (A.Share adding.now) [] ledger.old }
    requires level { ledger.old.catalogue.level ≡ A.level adding.now }
    ensures added { IfOk result (AreAdded (A.Form adding.now) (A.Share adding.now) (A.level adding.now) (I.known files.now)
        names.now ledger.new) }
    ensures fault { IfErr result (λ fault. fault ≡ RunFault.Memory) }
{
    let mut status = 0;
    for name in names {
        let own = add_file(alloc, adding, name, files, ledger)?;
        status = status.max(own);
    }
    Ok(status)
}

// Adds the text of a file by its name, or reports why the file fails, with status 2.
fn add_file<A: Adding, I: Inputs>(
    alloc: Global,
    adding: &A,
    name: &LineWord,
    files: &I,
    ledger: &mut Ledger,
) -> Result<u8, RunFault>
    requires { ledger.old.lines + 1 < 2 ^ 64 }
    ensures added { IfOk result (IsAdded (A.Form adding.now) (A.Share adding.now) (I.known files.now name.now) name.now
        ledger.old ledger.new) }
    ensures lines { IfOk result (λ _. ledger.new.lines ≤ ledger.old.lines + 1) }
    ensures level { ledger.new.catalogue.level ≡ ledger.old.catalogue.level }
    ensures fault { IfErr result (λ fault. fault ≡ RunFault.Memory) }
{
    let Some(mut input) = files.open(name.as_str()) else {
        return Ok(FAILED);
    };
    match read_text(alloc, &mut Source::new(Filling::new(&mut input))) {
        Ok(text) => add_text(adding, name, &text, ledger),
        Err(RunFault::Memory) => Err(RunFault::Memory),
        Err(fault) => {
            files.tell(name.as_str(), &input, &fault);
            Ok(FAILED)
        }
    }
}

fn add_text<A: Adding>(
    adding: &A,
    name: &LineWord,
    text: &[u8],
    ledger: &mut Ledger,
) -> Result<u8, RunFault>
    requires { ledger.old.lines + 1 < 2 ^ 64 }
    ensures ok { IfOk result (λ status. status ≡ 0) }
    ensures added { OnOk result ((texts : List NamedText) →
        IsLedgerOfNamed (A.Form adding.now) (A.Share adding.now) texts ledger.old →
        IsLedgerOfNamed (A.Form adding.now) (A.Share adding.now)
        (texts ++ record { name = name.now; text = text.now } ∷ []) ledger.new) }
    ensures lines { OnOk result (ledger.new.lines ≡ ledger.old.lines + 1) }
    ensures level { ledger.new.catalogue.level ≡ ledger.old.catalogue.level }
    ensures fault { IfErr result (λ fault. fault ≡ RunFault.Memory) }
{
    let name = name.as_str().as_bytes();
    match ledger.add_named(adding, name, text) {
        Ok(()) => Ok(0),
        Err(_) => Err(RunFault::Memory),
    }
}
