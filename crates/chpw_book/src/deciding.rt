//! One decision of the table, with its entry.
ghost use Rattle.std.specs.Prelude.{◌≡◌, ◌<◌, IfOk, IfErr, OnOk, OnErr, vec_len, vec_capacity};
ghost use mathlib.Core.List.{IsPrefix};
ghost use Rattle.chpw_table.specs.declared.outcome.DecideFault.TheVariants.{Memory};
ghost use Rattle.chpw_changelog.specs.Pens.{opening_state};
ghost use Rattle.chpw_table.specs.declared.history.Event.TheVariants.{Ask};
ghost use Rattle.chpw_table.specs.declared.verdict.Verdict.TheVariants.{Done};
ghost use Rattle.chpw_table.specs.History.{IsLegal, outcome};
ghost use Rattle.chpw_table.specs.Versions.{change_by};
ghost use Rattle.chpw_table.specs.Agreement.{Agrees};
ghost use Rattle.chpw_table.specs.Preparing.{IsReady};
ghost use Rattle.chpw_table.specs.Times.{IsMoment};
ghost use Rattle.chpw_table.specs.Refusals.{IsRefused};
ghost use Rattle.chpw_table.specs.Verdicts.{is_done};
ghost use Rattle.chpw_book.specs.Recorded.{IsLinearized};
ghost use Rattle.chpw_book.specs.Publishing.{IsRecorded, IsPublished, with_waiting};

use crate::known::know_accepted_key;
use crate::naming::DeskName;
use crate::pass::Pass;
use crate::recorded::RecordedTable;
use chpw_snapshots::SnapshotWriter;
use chpw_table::{
    DecideFault, Entry, Event, JournalSink, Moment, Opened, Outcome, Prepared, Receipt, Refused,
    Table, Verdict,
};
use std::alloc::AllocError;

impl<D: DeskName, S: JournalSink> RecordedTable<D, S> {
    /// Decides a request: an entry of the pass's worker at the end of the history, and its receipt in the pass. Its
    /// change waits to be published; preparing it is the last growth before the journal is appended to.
    ///
    /// `now` has seconds from 0 to `chpw_table::LAST_SECOND`. The refusals are those of `Table::decide`, `Full`,
    /// `NeedKeys` and `Memory`, and after one nothing has changed.
    pub(crate) fn decide(
        &mut self,
        snapshots: &mut SnapshotWriter<D>,
        pass: &mut Pass<D>,
        now: Moment,
        opened: Opened,
    ) -> Result<Verdict, Refused>
        requires moment { IsMoment now }
        requires published { IsPublished (opening_state D.root) self.old.history
            self.old.table.state.broken snapshots.old }
        ensures recorded { IfOk result (λ v. IsRecorded (opening_state D.root) D.workers D.prior self.old self.new
            pass.old pass.new snapshots.old snapshots.new now (Ask opened v)) }
        ensures refused { IfErr result (λ r. IsRefused self.old.table now opened r) }
        ensures unchanged { OnErr result
            ((self.new ≡ self.old) × (pass.new ≡ pass.old) × (snapshots.new ≡ snapshots.old)) }
        ensures linearized { IsLinearized (opening_state D.root) D.workers D.prior self.old }
    {
        let prepared = prepare(&mut self.table, snapshots, pass, now, opened)?;
        let Ok(copy) = make_room(
            &mut self.history.entries,
            &mut pass.calls.receipts,
            snapshots,
            &self.table,
            &prepared,
        ) else {
            return Err(given_up(prepared));
        };
        let Outcome {
            verdict,
            io_failed,
            opened,
        } = self.table.finish(prepared, &mut self.sink);
        know_accepted_key(&self.table, &opened, verdict);
        let event = Event::Ask { opened, verdict };
        let copy = Event::Ask {
            opened: copy,
            verdict,
        };
        self.history
            .add(&mut pass.calls, now, io_failed, event, copy);
        Ok(verdict)
    }
}

// Prepares a step for a pass whose lookups showed only what was published; otherwise refused for want of memory,
// since the pass's reader can't enter.
fn prepare<D: DeskName>(
    table: &mut Table,
    snapshots: &SnapshotWriter<D>,
    pass: &mut Pass<D>,
    now: Moment,
    opened: Opened,
) -> Result<Prepared, Refused>
    requires moment { IsMoment now }
    ensures ready { IfOk result (λ p. IsReady table.old p) }
    ensures parts { IfOk result (λ p. (p.moment ≡ now) × (p.opened ≡ opened)) }
    ensures saw { OnOk result (IsPrefix pass.old.place.seen snapshots.now.list) }
    ensures refused { IfErr result (λ r. IsRefused table.old now opened r) }
    ensures unchanged { table.new ≡ table.old }
    ensures same { pass.new ≡ pass.old }
{
    let prepared = table.prepare(now, opened)?;
    if pass.was_shown(snapshots) {
        Ok(prepared)
    } else {
        Err(given_up(prepared))
    }
}

// All growths of a prepared step: room in both lists, a copy of the request, and the change that waits to be published,
// which is the last before the journal is appended to.
fn make_room<D: DeskName>(
    entries: &mut Vec<Entry>,
    receipts: &mut Vec<Receipt>,
    snapshots: &mut SnapshotWriter<D>,
    table: &Table,
    prepared: &Prepared,
) -> Result<Opened, AllocError>
    requires ready { IsReady table.now prepared.now }
    requires kept { (es : _) × IsLegal (opening_state D.root) es
        × Agrees table.now.state (outcome (opening_state D.root) es)
        × IsPublished (opening_state D.root) es table.now.state.broken snapshots.old }
    ensures same { (entries.new.items ≡ entries.old.items)
        × (receipts.new.items ≡ receipts.old.items) }
    ensures room { OnOk result ((vec_len entries.new < vec_capacity entries.new)
        × (vec_len receipts.new < vec_capacity receipts.new)) }
    ensures copy { IfOk result (λ copy. copy ≡ prepared.now.opened) }
    ensures ok { OnOk result (snapshots.new ≡ with_waiting (is_done prepared.now.row)
        (change_by table.now.state (Ask prepared.now.opened Done)) snapshots.old) }
    ensures err { OnErr result (snapshots.new ≡ snapshots.old) }
{
    entries.reserve(1)?;
    receipts.reserve(1)?;
    let copy = prepared.request().clone()?;
    if let Some(row) = prepared.change() {
        snapshots.prepare(row.name, row.kvno, table.count())?;
    }
    Ok(copy)
}

// A step that is not made, for want of memory.
fn given_up(prepared: Prepared) -> Refused
    ensures value { result ≡ record { fault = Memory; opened = prepared.opened } }
{
    Refused {
        fault: DecideFault::Memory,
        opened: prepared.abandon(),
    }
}
