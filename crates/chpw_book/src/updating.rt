//! One update from the KDC, with its entry.
ghost use Rattle.std.specs.Prelude.{◌≡◌, ◌<◌, IfOk, IfErr, OnOk, OnErr, length, vec_len, vec_capacity, true};
ghost use mathlib.Core.List.{IsPrefix};
ghost use Rattle.chpw_changelog.specs.Pens.{opening_state};
ghost use Rattle.chpw_table.specs.declared.history.Event.TheVariants.{Update};
ghost use Rattle.chpw_table.specs.History.{IsLegal, outcome};
ghost use Rattle.chpw_table.specs.Versions.{change_in};
ghost use Rattle.chpw_table.specs.Agreement.{Agrees};
ghost use Rattle.chpw_table.specs.Times.{IsMoment};
ghost use Rattle.chpw_table.specs.Updates.{is_taken, update_fits};
ghost use Rattle.chpw_table.specs.Updating.{IsUpdateReady};
ghost use Rattle.chpw_book.specs.Calls.{IsUpdateFault};
ghost use Rattle.chpw_book.specs.Recorded.{IsLinearized};
ghost use Rattle.chpw_book.specs.Publishing.{IsRecorded, IsPublished, with_waiting};

use crate::known::know_newest_key;
use crate::naming::DeskName;
use crate::pass::Pass;
use crate::recorded::RecordedTable;
use chpw_snapshots::{NotPrepared, SnapshotWriter};
use chpw_table::{
    Durability, Entry, Event, JournalSink, KdcUpdate, Moment, PreparedUpdate, Receipt, Table,
    UpdateFault, UpdateOutcome, UpdateRefused, UpdateVerdict,
};
use std::alloc::AllocError;

/// Why a desk decided no update, in the order of the tests; nothing has changed.
#[derive(Clone, Copy, Drop)]
pub enum DeskUpdateFault {
    /// The table has decided as many events as allowed.
    Full,
    /// The update would add a principal, and the table has as many as a configuration may have.
    TooMany,
    /// The update would add a name of more than one component that neither the opening nor this history had.
    Composite,
    /// The update would add a name that neither the opening nor this history had, and this history has had 10,000 such
    /// names. The next history has room.
    NoRoom,
    /// A growth was refused.
    Memory,
}

/// A refusal; table, history and journal are unchanged, and the update is returned.
#[derive(Drop)]
pub struct DeskUpdateRefused {
    pub fault: DeskUpdateFault,
    pub update: KdcUpdate,
}

impl From<AllocError> for DeskUpdateFault {
    ghost use Rattle.std.specs.Prelude.{◌≡◌};
    ghost use Rattle.chpw_book.specs.declared.updating.DeskUpdateFault.TheVariants.{Memory};

    ghost from_gives = { λ _ fault. fault ≡ Memory };

    fn from(_error: AllocError) -> DeskUpdateFault {
        DeskUpdateFault::Memory
    }
}

impl From<UpdateRefused> for DeskUpdateRefused {
    ghost use Rattle.std.specs.Prelude.{◌≡◌};
    ghost use Rattle.chpw_book.specs.Calls.{table_refusal};

    ghost from_gives = { λ refused at_desk. at_desk ≡ record { fault = table_refusal refused.fault; update = refused.update } };

    fn from(refused: UpdateRefused) -> DeskUpdateRefused {
        let fault = match refused.fault {
            UpdateFault::Full => DeskUpdateFault::Full,
            UpdateFault::TooMany => DeskUpdateFault::TooMany,
            UpdateFault::Memory => DeskUpdateFault::Memory,
        };
        DeskUpdateRefused {
            fault,
            update: refused.update,
        }
    }
}

impl From<NotPrepared> for DeskUpdateFault {
    ghost use Rattle.std.specs.Prelude.{◌≡◌};
    ghost use Rattle.chpw_book.specs.Calls.{snapshots_refusal};

    ghost from_gives = { λ refusal fault. fault ≡ snapshots_refusal refusal };

    fn from(refusal: NotPrepared) -> DeskUpdateFault {
        match refusal {
            NotPrepared::Composite => DeskUpdateFault::Composite,
            NotPrepared::NoRoom => DeskUpdateFault::NoRoom,
            NotPrepared::Memory => DeskUpdateFault::Memory,
        }
    }
}

impl<D: DeskName, S: JournalSink> RecordedTable<D, S> {
    /// One update from the KDC: an entry of the pass's worker at the end, and its receipt in the pass. Its change waits
    /// to be published; preparing it is the last growth before the journal is appended to, which has it on the disk when
    /// `durability` says.
    ///
    /// `now` has seconds from 0 to `chpw_table::LAST_SECOND`, and the update is within the limits
    /// (`chpw_table::KdcUpdate::fits`). After a fault nothing has changed: `Full`, `TooMany`, `Composite`, `NoRoom`,
    /// `Memory`.
    pub(crate) fn update(
        &mut self,
        snapshots: &mut SnapshotWriter<D>,
        pass: &mut Pass<D>,
        now: Moment,
        update: KdcUpdate,
        durability: Durability,
    ) -> Result<UpdateVerdict, DeskUpdateRefused>
        requires moment { IsMoment now }
        requires fits { update_fits update ≡ true }
        requires published { IsPublished (opening_state D.root) self.old.history
            self.old.table.state.broken snapshots.old }
        ensures recorded { IfOk result (λ v. IsRecorded (opening_state D.root) D.workers D.prior self.old self.new
            pass.old pass.new snapshots.old snapshots.new now (Update update v)) }
        ensures first { IfErr result (λ r. IsUpdateFault (opening_state D.root) snapshots.old.list
            self.old.table update r.fault) }
        ensures returned { IfErr result (λ r. r.update ≡ update) }
        ensures unchanged { OnErr result
            ((self.new ≡ self.old) × (pass.new ≡ pass.old) × (snapshots.new ≡ snapshots.old)) }
        ensures linearized { IsLinearized (opening_state D.root) D.workers D.prior self.old }
    {
        let prepared = prepare(&mut self.table, snapshots, pass, now, update)?;
        let copy = match make_room(
            &mut self.history.entries,
            &mut pass.calls.receipts,
            snapshots,
            &self.table,
            &prepared,
        ) {
            Ok(copy) => copy,
            Err(fault) => return Err(given_up(prepared, fault)),
        };
        let UpdateOutcome {
            verdict,
            io_failed,
            update,
        } = self
            .table
            .finish_update(prepared, &mut self.sink, durability);
        know_newest_key(&self.table, update.name());
        let event = Event::Update { update, verdict };
        let copy = Event::Update {
            update: copy,
            verdict,
        };
        self.history
            .add(&mut pass.calls, now, io_failed, event, copy);
        Ok(verdict)
    }
}

// Prepares an update for a pass whose lookups showed only what was published; otherwise refused for want of memory,
// since the pass's reader can't enter.
fn prepare<D: DeskName>(
    table: &mut Table,
    snapshots: &SnapshotWriter<D>,
    pass: &mut Pass<D>,
    now: Moment,
    update: KdcUpdate,
) -> Result<PreparedUpdate, DeskUpdateRefused>
    requires moment { IsMoment now }
    requires fits { update_fits update ≡ true }
    ensures ready { IfOk result (λ p. IsUpdateReady table.old p) }
    ensures parts { IfOk result (λ p. (p.moment ≡ now) × (p.update ≡ update)) }
    ensures saw { OnOk result (IsPrefix pass.old.place.seen snapshots.now.list) }
    ensures first { IfErr result (λ r. IsUpdateFault (opening_state D.root) snapshots.now.list
        table.old update r.fault) }
    ensures returned { IfErr result (λ r. r.update ≡ update) }
    ensures unchanged { table.new ≡ table.old }
    ensures same { pass.new ≡ pass.old }
{
    let prepared = table.prepare_update(now, update)?;
    if pass.was_shown(snapshots) {
        Ok(prepared)
    } else {
        Err(given_up(prepared, DeskUpdateFault::Memory))
    }
}

// All growths of a prepared update: room in both lists, a copy of it, and, if it is taken unless its append fails, the
// change that waits to be published, which is the last before the journal is appended to.
fn make_room<D: DeskName>(
    entries: &mut Vec<Entry>,
    receipts: &mut Vec<Receipt>,
    snapshots: &mut SnapshotWriter<D>,
    _table: &Table,
    prepared: &PreparedUpdate,
) -> Result<KdcUpdate, DeskUpdateFault>
    requires ready { IsUpdateReady _table.now prepared.now }
    requires kept { (es : _) × IsLegal (opening_state D.root) es
        × Agrees _table.now.state (outcome (opening_state D.root) es)
        × IsPublished (opening_state D.root) es _table.now.state.broken snapshots.old }
    ensures same { (entries.new.items ≡ entries.old.items)
        × (receipts.new.items ≡ receipts.old.items) }
    ensures room { OnOk result ((vec_len entries.new < vec_capacity entries.new)
        × (vec_len receipts.new < vec_capacity receipts.new)) }
    ensures copy { IfOk result (λ copy. copy ≡ prepared.now.update) }
    ensures ok { OnOk result (snapshots.new ≡ with_waiting (is_taken prepared.now.row)
        (change_in prepared.now.update) snapshots.old) }
    ensures first { IfErr result (λ fault. IsUpdateFault (opening_state D.root) snapshots.old.list
        _table.now prepared.now.update fault) }
    ensures err { OnErr result (snapshots.new ≡ snapshots.old) }
{
    entries.reserve(1)?;
    receipts.reserve(1)?;
    let copy = prepared.update().clone()?;
    if prepared.would_take() {
        snapshots.prepare_update(prepared.update())?;
    }
    Ok(copy)
}

// An update that is not made, for this fault.
fn given_up(prepared: PreparedUpdate, fault: DeskUpdateFault) -> DeskUpdateRefused
    ensures value { result ≡ record { fault = fault; update = prepared.update } }
{
    DeskUpdateRefused {
        fault,
        update: prepared.abandon(),
    }
}
