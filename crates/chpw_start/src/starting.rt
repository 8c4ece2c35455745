//! The table that a service starts with.
ghost use Rattle.std.specs.Prelude.{◌≡◌, ℕ, List, Option, IfOk, IfErr, true};
ghost use Rattle.chpw_rules.specs.Fitting.{config_fits};
ghost use Rattle.chpw_table.specs.Agreement.{Agrees};
ghost use Rattle.chpw_table.specs.Times.{IsTime};
ghost use Rattle.chpw_journal.specs.JournalFile.{IsUnopened, given_by};
ghost use Rattle.chpw_start.specs.Faults.{IsOfFile, IsOfJournal, line_of, open_line};
ghost use Rattle.chpw_start.specs.Modes.{can_be_journal};
ghost use Rattle.chpw_start.specs.Opening.{IsOpening, opening_at};
ghost use Rattle.chpw_start.specs.declared.fault.ServeFault.TheVariants.{Memory};

use crate::fault::ServeFault;
use crate::line_output::{Kind, kind_of};
use chpw_journal::{
    FileSink, Journal, JournalFile, OpenFault, RestoreFault, SyncedFile, quiet_after,
};
use chpw_rules::Config;
use chpw_serve::Clock;
use chpw_table::{JournalSink, Moment, Table};
use std::alloc::Global;
use std::fs::{File, Files};
use std::io::Read;

/// The journal at a path, and the table restored from it. The table is quiet for 300 seconds from its start on if there
/// was a journal. The start is read from the clock once no other process has the journal. A journal that isn't a
/// regular file is refused before it is opened. If there is none an empty one is made, unless it must exist.
#[tactic(auto, using(crate::proofs::FaultLemmas::unopened))]
pub fn open_table<'a, R: Files<File = File>, C: Clock>(
    rt: &R,
    alloc: Global,
    config: Config,
    path: &'a str,
    must_exist: bool,
    clock: &mut C,
) -> Result<Journal<File>, ServeFault<'a>>
    requires fits { config_fits config ≡ true }
    ensures existing { must_exist ≡ true → IfOk result (λ j. j.found ≡ true) }
    ensures opened { IfOk result (λ j. (given : Option (List ℕ)) × IsOpening C.gives config given clock.old clock.new j) }
    ensures fresh { IfOk result (λ j. ⟦<FileSink<File> as JournalSink>⟧.failed j.sink ≡ 0) }
    ensures fault { IfErr result (IsOfJournal path.now) }
{
    if !can_be_journal(kind_of(rt, path)) {
        return Err(ServeFault::CannotRead(path));
    }
    match lock(rt, path, must_exist) {
        Ok(file) => table_from(alloc, config, file, path, clock),
        Err(fault) => Err(journal_fault(path, fault)),
    }
}

// The journal's file, which is made if there is none, unless it must exist.
fn lock<R: Files<File = File>>(
    rt: &R,
    path: &str,
    must_exist: bool,
) -> Result<JournalFile<File>, OpenFault>
    ensures existing { must_exist ≡ true → IfOk result (λ file. file.found ≡ true) }
    ensures fault { IfErr result IsUnopened }
{
    if must_exist {
        JournalFile::lock_existing(rt, path)
    } else {
        JournalFile::lock(rt, path)
    }
}

// The table restored from the journal in this file, which is at its beginning: with the records of all that it gives.
#[tactic(auto, using(crate::proofs::FaultLemmas::unrestored))]
fn table_from<'a, F: SyncedFile + Read + Drop, C: Clock>(
    alloc: Global,
    config: Config,
    file: JournalFile<F>,
    path: &'a str,
    clock: &mut C,
) -> Result<Journal<F>, ServeFault<'a>>
    requires fits { config_fits config ≡ true }
    ensures opened { IfOk result (IsOpening C.gives config (given_by F.remaining file) clock.old clock.new) }
    ensures found { IfOk result (λ j. j.found ≡ file.found) }
    ensures fresh { IfOk result (λ j. ⟦<FileSink<F> as JournalSink>⟧.failed j.sink ≡ 0) }
    ensures fault { IfErr result (IsOfJournal path.now) }
{
    let start = clock.now();
    let table = opening_table(alloc, config, start, file.found)?;
    match file.restore(alloc, table) {
        Ok(journal) => Ok(journal),
        Err(fault) => Err(journal_fault(path, fault)),
    }
}

// Whether a journal exists, or can be made. A pipe would block its opener.
fn can_be_journal(kind: Kind) -> bool
    ensures value { result ≡ can_be_journal kind }
{
    matches!(kind, Kind::Missing | Kind::File)
}

// The table of the configuration, quiet from this start on.
fn opening_table<'a>(
    alloc: Global,
    config: Config,
    start: Moment,
    found: bool,
) -> Result<Table, ServeFault<'a>>
    requires fits { config_fits config ≡ true }
    requires start { IsTime start.seconds }
    ensures opening { IfOk result (λ table. Agrees table.state
        (opening_at config start.seconds found)) }
    ensures counts { IfOk result (λ t. (t.events ≡ 0) × (t.seen ≡ 0)
        × (t.max_entries ≡ config.max_entries)) }
    ensures fault { IfErr result (λ fault. fault ≡ Memory) }
{
    match Table::start(alloc, config, quiet_after(start.seconds, found)) {
        Ok(table) => Ok(table),
        Err(_) => Err(ServeFault::Memory),
    }
}

fn journal_fault(path: &str, fault: OpenFault) -> ServeFault<'_>
    requires fault { IsOfFile fault }
    ensures fault { IsOfJournal path.now result }
    ensures line { line_of result ≡ open_line path.now fault }
{
    match fault {
        OpenFault::CannotRead => ServeFault::CannotRead(path),
        OpenFault::CannotWrite => ServeFault::CannotWrite(path),
        OpenFault::Restore(RestoreFault::Memory) => ServeFault::Memory,
        OpenFault::Restore(fault) => ServeFault::Journal(fault),
    }
}
