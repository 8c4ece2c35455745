//! The table that a start would open with now: that of the new configuration, with the journal replayed.
ghost use Rattle.std.specs.Prelude.{◌≡◌, IfOk, IfErr, true};
ghost use Rattle.chpw_rules.specs.Fitting.{config_fits};
ghost use Rattle.chpw_journal.specs.JournalFile.{IsReadFrom, IsRefusedFrom};
ghost use Rattle.chpw_reload.specs.Next.{settings_of};
ghost use Rattle.chpw_reload.specs.Reloading.{IsPrepared, IsUnprepared};

use crate::fault::ReloadFault;
use chpw_journal::{RestoreFault, Restored, restore, restore_file};
use chpw_rules::{Config, Items};
use chpw_table::Table;
use std::alloc::{AllocError, Global};
use std::io::{BufReader, Read};

/// The new configuration's table with the part of the journal replayed that was read so far.
#[derive(Drop)]
pub struct PreparedReload {
    /// What the configuration sets beside its principals and the service's keys.
    pub settings: Config,
    pub table: Table,
    /// How many complete records were read.
    pub records: u64,
    /// Their bytes, and those of the record of the realm before them, if there is one. The rest of the journal begins there.
    pub kept: u64,
}

/// The table of a new configuration with the journal so far replayed, while a desk still serves. The configuration fits
/// (`Config::fits`). The journal is read to its end; an incomplete record belongs to the rest. Refused as `Journal` or
/// `Memory`.
pub fn prepare<F: Read + Drop>(
    alloc: Global,
    file: Config,
    journal: F,
) -> Result<PreparedReload, ReloadFault>
    requires fits { config_fits file ≡ true }
    ensures prepared { IfOk result (IsPrepared file (F.remaining journal)) }
    ensures refused { IfErr result (IsUnprepared file (F.remaining journal)) }
{
    let Ok(settings) = settings(alloc, &file) else {
        return Err(ReloadFault::Memory);
    };
    let Ok(table) = Table::start(alloc, file, -1) else {
        return Err(ReloadFault::Memory);
    };
    match restore_file(alloc, table, journal) {
        Ok((restored, _)) => Ok(renewal_of(settings, restored)),
        Err(fault) => Err(ReloadFault::of(fault)),
    }
}

fn renewal_of(settings: Config, restored: Restored) -> PreparedReload
    ensures settings { result.settings ≡ settings }
    ensures table { result.table ≡ restored.table }
    ensures records { result.records ≡ restored.records }
    ensures kept { result.kept ≡ restored.kept }
{
    let Restored {
        table,
        records,
        kept,
        torn: _,
    } = restored;
    PreparedReload {
        settings,
        table,
        records,
        kept,
    }
}

// What a configuration sets beside its principals and the service's keys.
fn settings(alloc: Global, file: &Config) -> Result<Config, AllocError>
    ensures value { IfOk result (λ settings. settings ≡ settings_of file.now) }
{
    Ok(Config {
        realm: file.realm.clone()?,
        max_entries: file.max_entries,
        service: Items::of(Vec::new(alloc)),
        policy: file.policy,
        rules: file.rules.clone()?,
        principals: Items::of(Vec::new(alloc)),
    })
}

/// The table with the records of a journal replayed, from where its reader is, after its heading.
pub(crate) fn read_on<F: Read + Drop>(
    alloc: Global,
    table: Table,
    journal: F,
) -> Result<Restored, RestoreFault>
    ensures restored { IfOk result (IsReadFrom table (F.remaining journal)) }
    ensures first { IfErr result (IsRefusedFrom table (F.remaining journal)) }
{
    let Ok(mut reader) = BufReader::new(alloc, journal) else {
        return Err(RestoreFault::Memory);
    };
    match restore(alloc, table, &mut reader) {
        Ok(restored) => Ok(restored),
        Err(fault) => Err(fault),
    }
}
