//! A table restored from a journal that is only read.
ghost use Rattle.std.specs.Prelude.{◌≡◌, IfOk, IfErr, true};
ghost use Rattle.chpw_rules.specs.Fitting.{config_fits};
ghost use Rattle.chpw_journal.specs.JournalFile.{cut_of};
ghost use Rattle.chpw_report.specs.Held.{IsHeld, IsHeldFault};

use chpw_journal::{RestoreFault, Restored, restore_file};
use chpw_rules::Config;
use chpw_table::Table;
use std::alloc::Global;
use std::io::Read;

#[derive(Drop)]
pub struct HeldTable {
    pub table: Table,
    /// How many records the journal has: accepted requests, raises of the count, and what the KDC said of a principal.
    pub changes: u64,
    /// After how many bytes an incomplete record begins; none if all are complete.
    pub torn_after: Option<u64>,
}

/// The configuration's table with a journal's records replayed, so with the principals that joined, and without those that
/// were removed. The journal is read to its end; what follows its last complete record is reported. The record of a realm
/// before them isn't counted, and if it is another one the journal is refused.
pub fn held_from<F: Read + Drop>(
    alloc: Global,
    config: Config,
    journal: F,
) -> Result<HeldTable, RestoreFault>
    requires fits { config_fits config ≡ true }
    ensures held { IfOk result (IsHeld config (F.remaining journal)) }
    ensures fault { IfErr result (IsHeldFault config (F.remaining journal)) }
{
    let Ok(table) = Table::start(alloc, config, -1) else {
        return Err(RestoreFault::Memory);
    };
    match restore_file(alloc, table, journal) {
        Ok((restored, _)) => Ok(held_of(restored)),
        Err(fault) => Err(fault),
    }
}

fn held_of(restored: Restored) -> HeldTable
    ensures table { result.table ≡ restored.table }
    ensures changes { result.changes ≡ restored.records }
    ensures torn { result.torn_after ≡ cut_of restored }
{
    let Restored {
        table,
        records,
        kept,
        torn,
    } = restored;
    HeldTable {
        table,
        changes: records,
        torn_after: torn.then_some(kept),
    }
}
