//! What a desk opens with.
ghost use Rattle.std.specs.Prelude.{◌≡◌, ◌≤◌, ◌<◌, ◌-◌, ◌^◌, IfOk, IfErr, OnOk, false};
ghost use Rattle.chpw_changelog.specs.Pens.{opening_table};
ghost use Rattle.chpw_book.specs.Starting.{IsNamed, table_of, workers_of};
ghost use Rattle.chpw_workers.specs.Desks.{AreInOrder};
ghost use Rattle.chpw_desks.specs.Following.{reopened};
ghost use Rattle.chpw_desks.specs.ServiceRuns.{new_passes};
ghost use Rattle.chpw_start.specs.declared.fault.ServeFault.TheVariants.{Memory};

use chpw_book::{Desk, DeskName, Pass, StartFault, UnnamedDesk};
use chpw_journal::FileSink;
use chpw_start::ServeFault;
use chpw_table::{JournalSink, Table};
use std::fs::File;
use std::sync::Wait;

/// What a desk opens with. The sink has room for one more failure, or the table is broken.
#[derive(Drop)]
pub struct Opening {
    pub unnamed: UnnamedDesk,
    pub sink: FileSink<File>,
    ghost room: { (table_of unnamed).state.broken ≡ false
        → ⟦<FileSink<File> as JournalSink>⟧.failed sink < 2 ^ 64 - 1 },
}

/// What the first desk opens with: a table without events, and a sink of which no append has failed.
pub fn first_opening(table: Table, sink: FileSink<File>, workers: u8) -> Opening
    requires workers { (1 ≤ workers) × (workers ≤ 16) }
    requires fresh { ⟦<FileSink<File> as JournalSink>⟧.failed sink ≡ 0 }
    ensures table { table_of result.unnamed ≡ table }
    ensures workers { workers_of result.unnamed ≡ workers }
{
    Opening {
        unnamed: UnnamedDesk::of(table, workers),
        sink,
    }
}

/// The closed table opens the next history, and its journal goes on.
pub(crate) fn next_opening<'a>(
    table: Table,
    sink: FileSink<File>,
    workers: u8,
) -> Result<Opening, ServeFault<'a>>
    requires workers { (1 ≤ workers) × (workers ≤ 16) }
    requires room { table.state.broken ≡ false
        → ⟦<FileSink<File> as JournalSink>⟧.failed sink < 2 ^ 64 - 1 }
    ensures table { IfOk result (λ next. table_of next.unnamed ≡ reopened table) }
    ensures workers { IfOk result (λ next. workers_of next.unnamed ≡ workers) }
    ensures fault { IfErr result (λ fault. fault ≡ Memory) }
{
    match table.for_next_history() {
        Err(_) => Err(ServeFault::Memory),
        Ok(table) => Ok(Opening {
            unnamed: UnnamedDesk::of(table, workers),
            sink,
        }),
    }
}

/// A desk that is open, with the passes of its workers, in their order.
pub struct Opened<D: DeskName> {
    pub desk: Desk<D, FileSink<File>>,
    pub passes: Vec<Pass<D>>,
    ghost in_order: { AreInOrder D.workers passes.items },
}

/// A desk of this name, with its passes.
pub fn start_desk<D: DeskName, R: Wait + AllocGlobal>(
    rt: &R,
    opening: Opening,
) -> Result<Opened<D>, StartFault>
    requires name { IsNamed opening.unnamed D.name D.parts D.book D.root D.workers }
    ensures passes { IfOk result (λ opened. opened.passes.items ≡ new_passes (workers_of opening.unnamed)) }
    ensures opening { OnOk result (opening_table D.root ≡ table_of opening.unnamed) }
{
    let Opening { unnamed, sink } = opening;
    match Desk::start(rt, rt.alloc(), unnamed, sink) {
        Ok((desk, passes)) => Ok(Opened { desk, passes }),
        Err(fault) => Err(fault),
    }
}
