//! What the KDC says of a principal, taken into the table.
ghost use Rattle.std.specs.Prelude.{◌≡◌, ◌+◌, ◌-◌, ◌^◌, ◌<◌, ◌++◌, IfOk, IfErr, OnErr, true, false, ◌||◌, ◌≤◌, nat_lt, length, option_map, if◌then◌else◌};
ghost use Rattle.chpw_rules.specs.Limits.{entry_counts};
ghost use Rattle.chpw_table.specs.declared.sink.Durability.TheVariants.{Immediate};
ghost use Rattle.chpw_table.specs.declared.updating.UpdateVerdict.TheVariants.{Broken, NotNewer, Taken};
ghost use Rattle.chpw_table.specs.Decision.{newest_kvno};
ghost use Rattle.chpw_table.specs.declared.history.Event.TheVariants.{Update};
ghost use Rattle.chpw_table.specs.Agreement.{Held, Agrees};
ghost use Rattle.chpw_table.specs.Outcomes.{StepsBy, WritesBy};
ghost use Rattle.chpw_table.specs.State.{State};
ghost use Rattle.chpw_table.specs.Times.{IsMoment};
ghost use Rattle.chpw_table.specs.Updates.{is_taken, update_fits, update_verdict};
ghost use Rattle.chpw_table.specs.Updating.{IsUpdateReady, IsUpdateRefused, with_written};
ghost use Rattle.chpw_table.specs.Entering.{with_broken};
ghost use Rattle.chpw_table.specs.EnteringUpdates.{IsUpdateEntered};
ghost use Rattle.chpw_table.specs.Holding.{are_holders};
ghost use Rattle.chpw_table.specs.Journal.{event_appended};
ghost use Rattle.chpw_table.specs.Placing.{IsPlace, placed, with_update};

use super::Table;
use super::planning::Plan;
use crate::key::kvno_of;
use crate::sink::{Durability, JournalSink};
use crate::times::Moment;
use crate::updating::{KdcUpdate, UpdateFault, UpdateOutcome, UpdateRefused, UpdateVerdict};
use chpw_ordered_keys::KeyTree;
use chpw_record::KeyRow;

/// An update with all the memory that it needs. It borrows nothing, and is valid for a table that hasn't changed since
/// it was prepared (`IsUpdateReady`).
#[derive(Drop)]
pub struct PreparedUpdate {
    pub(super) moment: Moment,
    pub(super) update: KdcUpdate,
    // The verdict, if no append fails.
    pub(super) row: UpdateVerdict,
    // The plan of the verdict Taken.
    pub(super) plan: Option<Plan>,
}

impl PreparedUpdate {
    /// Whether it is taken, unless its append fails.
    pub fn would_take(&self) -> bool
        ensures value { result ≡ is_taken self.now.row }
        ensures taken { (t : Held) → IsUpdateReady t self.now → (s : State) → Agrees t.state s
            → result ≡ is_taken (update_verdict s self.now.update false) }
    {
        self.row.is_taken()
    }

    pub fn update(&self) -> &KdcUpdate
        ensures value { result.now ≡ self.now.update }
    {
        &self.update
    }

    /// Returns the update; no step is made.
    pub fn abandon(self) -> KdcUpdate
        ensures value { result ≡ self.update }
    {
        let PreparedUpdate { update, .. } = self;
        update
    }
}

impl Table {
    /// Takes an update from the KDC into the table: the verdict, and its effect.
    ///
    /// `now` has seconds from 0 to `LAST_SECOND`; the table's clock never goes back, whatever is given. The update is
    /// within the limits (`KdcUpdate::fits`). Fewer than 2^64 - 1 appends to the sink have failed, or the table is broken.
    /// The journal is appended to only if no test before `Broken` applies and no append has failed; all growths come
    /// before that.
    ///
    /// Refused, with nothing changed: `Full` if the table has decided as many events as allowed; `TooMany` if the update
    /// would add a principal, and there are 10,000; `Memory`.
    pub fn update<S: JournalSink>(
        &mut self,
        now: Moment,
        update: KdcUpdate,
        sink: &mut S,
    ) -> Result<UpdateOutcome, UpdateRefused>
        requires moment { IsMoment now }
        requires fits { update_fits update ≡ true }
        requires sink { self.old.state.broken ≡ false → S.failed sink.old < 2 ^ 64 - 1 }
        ensures steps { IfOk result (λ r.
            StepsBy self.old self.new now r.io_failed (Update update r.verdict)) }
        ensures writes { IfOk result (λ r. WritesBy S.failed S.told self.old.state sink.old sink.new
            r.io_failed (Update update r.verdict)) }
        ensures synced { IfOk result (λ r. is_taken r.verdict ≡ true → S.unsynced sink.new ≡ 0) }
        ensures returned { IfOk result (λ r. r.update ≡ update) }
        ensures range { (entry_counts.low ≤ self.old.max_entries)
            × (self.old.max_entries ≤ entry_counts.high) }
        ensures refused { IfErr result (λ r.
            IsUpdateRefused self.old update r.fault × (r.update ≡ update)) }
        ensures unchanged { OnErr result ((self.new ≡ self.old) × (sink.new ≡ sink.old)) }
    {
        let prepared = self.prepare_update(now, update)?;
        Ok(self.finish_update(prepared, sink, Durability::Immediate))
    }

    /// Prepares an update: the verdict on it, if no append fails, and all the memory that it takes. The table is left
    /// unchanged in any case; `now` and the update are as for `update`, and so are the refusals.
    pub fn prepare_update(
        &mut self,
        now: Moment,
        update: KdcUpdate,
    ) -> Result<PreparedUpdate, UpdateRefused>
        requires moment { IsMoment now }
        requires fits { update_fits update ≡ true }
        ensures ready { IfOk result (λ p. IsUpdateReady self.old p) }
        ensures parts { IfOk result (λ p. (p.moment ≡ now) × (p.update ≡ update)) }
        ensures range { (entry_counts.low ≤ self.old.max_entries)
            × (self.old.max_entries ≤ entry_counts.high) }
        ensures refused { IfErr result (λ r.
            IsUpdateRefused self.old update r.fault × (r.update ≡ update)) }
        ensures unchanged { self.new ≡ self.old }
    {
        if self.events == self.max_entries {
            return Err(UpdateRefused {
                fault: UpdateFault::Full,
                update,
            });
        }
        let row = self.update_row(&update);
        if row.is_taken() && self.lacks_room(update.name()) {
            return Err(UpdateRefused {
                fault: UpdateFault::TooMany,
                update,
            });
        }
        match self.planned(row, &update) {
            Ok(plan) => Ok(PreparedUpdate {
                moment: now,
                update,
                row,
                plan,
            }),
            Err(_) => Err(UpdateRefused {
                fault: UpdateFault::Memory,
                update,
            }),
        }
    }

    /// The rest of the update that was prepared, for a table that hasn't changed since: the same verdict except for a
    /// failed append, and its effect. It takes no memory and can't be refused.
    ///
    /// Fewer than 2^64 - 1 appends to the sink have failed, or the table is broken. The journal is appended to only if
    /// `PreparedUpdate::would_take`, and has the record on the disk when `durability` says.
    pub fn finish_update<S: JournalSink>(
        &mut self,
        prepared: PreparedUpdate,
        sink: &mut S,
        durability: Durability,
    ) -> UpdateOutcome
        requires ready { IsUpdateReady self.old prepared }
        requires sink { self.old.state.broken ≡ false → S.failed sink.old < 2 ^ 64 - 1 }
        ensures steps { StepsBy self.old self.new prepared.moment result.io_failed
            (Update prepared.update result.verdict) }
        ensures writes { WritesBy S.failed S.told self.old.state sink.old sink.new
            result.io_failed (Update prepared.update result.verdict) }
        ensures synced { durability ≡ Immediate → is_taken result.verdict ≡ true → S.unsynced sink.new ≡ 0 }
        ensures returned { result.update ≡ prepared.update }
        ensures row { result.verdict ≡ with_written result.io_failed prepared.row }
    {
        // A field is read, so that the type's invariant is known.
        let _ = &self.principals;
        self.enter_update(prepared, sink, durability)
    }

    // The rest of the update, by the table's own state.
    fn enter_update<S: JournalSink>(
        &mut self,
        prepared: PreparedUpdate,
        sink: &mut S,
        durability: Durability,
    ) -> UpdateOutcome
        requires ready { IsUpdateReady self.old prepared }
        requires sink { self.old.state.broken ≡ false → S.failed sink.old < 2 ^ 64 - 1 }
        ensures entered { IsUpdateEntered self.old self.new prepared.moment prepared.update
            prepared.row result.verdict result.io_failed }
        ensures io { S.failed sink.new
            ≡ (if result.io_failed then S.failed sink.old + 1 else S.failed sink.old) }
        ensures told { S.told sink.new ≡ option_map (λ xs. xs
            ++ event_appended self.old.state (Update prepared.update result.verdict))
            (S.told sink.old) }
        ensures synced { durability ≡ Immediate → is_taken result.verdict ≡ true → S.unsynced sink.new ≡ 0 }
        ensures returned { result.update ≡ prepared.update }
    {
        let PreparedUpdate {
            moment,
            update,
            row,
            plan,
        } = prepared;
        self.tick(moment, KeyTree::new());
        let (verdict, io_failed) = match plan {
            None => (row, false),
            Some(plan) => self.write_update(plan, sink, durability),
        };
        UpdateOutcome {
            verdict,
            io_failed,
            update,
        }
    }

    // The append decides: after a failed one the journal is broken, otherwise the keys go to their place.
    fn write_update<S: JournalSink>(
        &mut self,
        plan: Plan,
        sink: &mut S,
        durability: Durability,
    ) -> (UpdateVerdict, bool)
        requires place { IsPlace plan.placement (length self.old.state.principals) }
        requires holders { are_holders (placed plan.placement self.old.state.principals) ≡ true }
        requires room { self.old.seen < self.old.events }
        requires failures { S.failed sink.old < 2 ^ 64 - 1 }
        ensures value { self.new ≡ (if result.1 then with_broken self.old
            else with_update plan.placement self.old) }
        ensures verdict { result.0 ≡ with_written result.1 Taken }
        ensures io { S.failed sink.new
            ≡ (if result.1 then S.failed sink.old + 1 else S.failed sink.old) }
        ensures told { S.told sink.new ≡ (if result.1 then S.told sink.old
            else option_map (λ xs. xs ++ plan.record.items) (S.told sink.old)) }
        ensures synced { durability ≡ Immediate → is_taken result.0 ≡ true → S.unsynced sink.new ≡ 0 }
    {
        match durability.append(sink, plan.record.as_slice()) {
            Err(_) => {
                self.broken = true;
                (UpdateVerdict::Broken, true)
            }
            Ok(()) => {
                self.put_placed(plan.placement);
                self.seen += 1;
                (UpdateVerdict::Taken, false)
            }
        }
    }

    // The verdict, if no append fails.
    fn update_row(&self, update: &KdcUpdate) -> UpdateVerdict
        ensures value { result ≡ update_verdict self.now.state update.now false }
    {
        match update {
            KdcUpdate::Adopt { name, key } => match self.find_keys(name) {
                None => self.taken_row(),
                Some(keys) => self.newer_row(keys, key.kvno),
            },
            KdcUpdate::Lift { name, kvno } => match self.find_keys(name) {
                None => UpdateVerdict::NoSuchPrincipal,
                Some([]) => UpdateVerdict::NoSuchPrincipal,
                Some(keys) => self.newer_row(keys, *kvno),
            },
            KdcUpdate::Remove { name } => match self.find_keys(name) {
                None => UpdateVerdict::NoSuchPrincipal,
                Some(_) => self.taken_row(),
            },
        }
    }

    // The verdict on a version beside these keys.
    fn newer_row(&self, keys: &[KeyRow], kvno: u32) -> UpdateVerdict
        ensures value { result ≡ (if nat_lt (newest_kvno keys.now) kvno
            then (if self.now.state.broken || false then Broken else Taken) else NotNewer) }
    {
        if kvno_of(keys) < kvno {
            self.taken_row()
        } else {
            UpdateVerdict::NotNewer
        }
    }

    // The verdict on what only a failed journal refuses.
    fn taken_row(&self) -> UpdateVerdict
        ensures value { result ≡ (if self.now.state.broken || false then Broken else Taken) }
    {
        if self.broken {
            UpdateVerdict::Broken
        } else {
            UpdateVerdict::Taken
        }
    }
}
