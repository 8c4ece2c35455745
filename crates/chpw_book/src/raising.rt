//! One raise of the iteration count of new keys, with its entry.
ghost use Rattle.std.specs.Prelude.{◌≡◌, ◌<◌, IfOk, IfErr, OnOk, OnErr, vec_len, vec_capacity, true};
ghost use mathlib.Core.List.{IsPrefix};
ghost use Rattle.chpw_rules.specs.Limits.{is_in, iteration_counts};
ghost use Rattle.chpw_changelog.specs.Pens.{opening_state};
ghost use Rattle.chpw_table.specs.declared.change.AcceptedChange.TheVariants.{Count};
ghost use Rattle.chpw_table.specs.declared.history.Event.TheVariants.{Raise};
ghost use Rattle.chpw_table.specs.History.{IsLegal, outcome};
ghost use Rattle.chpw_table.specs.Agreement.{Agrees};
ghost use Rattle.chpw_table.specs.Raising.{would_raise};
ghost use Rattle.chpw_table.specs.Times.{IsMoment};
ghost use Rattle.chpw_book.specs.Calls.{IsFirstFault};
ghost use Rattle.chpw_book.specs.Recorded.{IsLinearized};
ghost use Rattle.chpw_book.specs.Publishing.{IsRecorded, IsPublished, with_waiting};

use crate::naming::DeskName;
use crate::pass::Pass;
use crate::recorded::RecordedTable;
use chpw_snapshots::SnapshotWriter;
use chpw_table::{Entry, Event, JournalSink, Moment, RaiseVerdict, Receipt, Table};
use std::alloc::AllocError;

/// Why no raise was decided, in the order of the tests; nothing has changed.
#[derive(Clone, Copy, Drop)]
pub enum RaiseFault {
    /// The table has decided as many events as allowed.
    Full,
    /// A growth was refused.
    Memory,
}

impl From<AllocError> for RaiseFault {
    ghost use Rattle.std.specs.Prelude.{◌≡◌};
    ghost use Rattle.chpw_book.specs.declared.raising.RaiseFault.TheVariants.{Memory};

    ghost from_gives = { λ _ fault. fault ≡ Memory };

    fn from(_error: AllocError) -> RaiseFault {
        RaiseFault::Memory
    }
}

impl<D: DeskName, S: JournalSink> RecordedTable<D, S> {
    /// One raise: an entry of the pass's worker at the end, and its receipt in the pass. The count that it sets is
    /// prepared for publication, with the last growth before the journal is appended to.
    ///
    /// `now` has seconds from 0 to `chpw_table::LAST_SECOND`, and `count` is 1 to 16,777,216. After a fault nothing has
    /// changed: `Full`, `Memory`.
    pub(crate) fn raise(
        &mut self,
        snapshots: &mut SnapshotWriter<D>,
        pass: &mut Pass<D>,
        now: Moment,
        count: u32,
    ) -> Result<RaiseVerdict, RaiseFault>
        requires moment { IsMoment now }
        requires count { is_in iteration_counts count ≡ true }
        requires published { IsPublished (opening_state D.root) self.old.history
            self.old.table.state.broken snapshots.old }
        ensures recorded { IfOk result (λ v. IsRecorded (opening_state D.root) D.workers D.prior self.old self.new
            pass.old pass.new snapshots.old snapshots.new now (Raise count v)) }
        ensures first { IfErr result (λ fault. IsFirstFault self.old.table fault) }
        ensures unchanged { OnErr result
            ((self.new ≡ self.old) × (pass.new ≡ pass.old) × (snapshots.new ≡ snapshots.old)) }
        ensures linearized { IsLinearized (opening_state D.root) D.workers D.prior self.old }
    {
        has_room(&self.table, snapshots, pass)?;
        make_room(
            &mut self.history.entries,
            &mut pass.calls.receipts,
            snapshots,
            &self.table,
            count,
        )?;
        let Ok(raise) = self.table.raise(now, count, &mut self.sink) else {
            unreachable!()
        };
        let verdict = raise.verdict;
        let event = Event::Raise { count, verdict };
        let copy = Event::Raise { count, verdict };
        self.history
            .add(&mut pass.calls, now, raise.io_failed, event, copy);
        Ok(verdict)
    }
}

// Whether there is room for one more event, by a pass whose lookups showed only what was published; otherwise
// refused for want of memory, since the pass's reader can't enter.
fn has_room<D: DeskName>(
    table: &Table,
    snapshots: &SnapshotWriter<D>,
    pass: &mut Pass<D>,
) -> Result<(), RaiseFault>
    ensures room { OnOk result (table.now.events < table.now.max_entries) }
    ensures saw { OnOk result (IsPrefix pass.old.place.seen snapshots.now.list) }
    ensures first { IfErr result (λ fault. IsFirstFault table.now fault) }
    ensures same { pass.new ≡ pass.old }
{
    if table.is_full() {
        return Err(RaiseFault::Full);
    }
    if pass.was_shown(snapshots) {
        Ok(())
    } else {
        Err(RaiseFault::Memory)
    }
}

// All growths of a raise for which there is room: room in both lists, and, if it is accepted unless its append fails,
// the change that waits to be published, which is the last before the journal is appended to.
fn make_room<D: DeskName>(
    entries: &mut Vec<Entry>,
    receipts: &mut Vec<Receipt>,
    snapshots: &mut SnapshotWriter<D>,
    table: &Table,
    count: u32,
) -> Result<(), RaiseFault>
    requires room { table.now.events < table.now.max_entries }
    requires kept { (es : _) × IsLegal (opening_state D.root) es
        × Agrees table.now.state (outcome (opening_state D.root) es)
        × IsPublished (opening_state D.root) es table.now.state.broken snapshots.old }
    ensures same { (entries.new.items ≡ entries.old.items)
        × (receipts.new.items ≡ receipts.old.items) }
    ensures places { OnOk result ((vec_len entries.new < vec_capacity entries.new)
        × (vec_len receipts.new < vec_capacity receipts.new)) }
    ensures ok { OnOk result
        (snapshots.new ≡ with_waiting (would_raise table.now count) (Count count) snapshots.old) }
    ensures first { IfErr result (λ fault. IsFirstFault table.now fault) }
    ensures err { OnErr result (snapshots.new ≡ snapshots.old) }
{
    entries.reserve(1)?;
    receipts.reserve(1)?;
    if table.would_raise(count) {
        snapshots.prepare_count(count)?;
    }
    Ok(())
}
