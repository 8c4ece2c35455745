//! One step of the machine.
ghost use Rattle.std.specs.Prelude.{[], ◌≡◌, ◌≢◌, ◌||◌, ◌&&◌, ◌+◌, ◌-◌, ◌^◌, ◌<◌, ◌≤◌, ◌++◌, IfOk};
ghost use Rattle.std.specs.Prelude.{IfErr, OnOk, OnErr, if◌then◌else◌, true, false, option_map, length};
ghost use Rattle.chpw_rules.specs.Limits.{entry_counts};
ghost use Rattle.chpw_table.specs.declared.verdict.Verdict.TheVariants.{Broken, Done};
ghost use Rattle.chpw_table.specs.Verdicts.{is_done};
ghost use Rattle.chpw_table.specs.Times.{IsMoment};
ghost use Rattle.chpw_table.specs.Journal.{appended};
ghost use Rattle.chpw_table.specs.Agreement.{Agrees};
ghost use Rattle.chpw_table.specs.Outcomes.{Steps, Writes};
ghost use Rattle.chpw_table.specs.Refusals.{IsRefused};
ghost use Rattle.std.specs.List.Sorted.{IsStrictlySortedBy};
ghost use Rattle.chpw_table.specs.Holding.{are_holders, id_cmp, young_ids, is_first_old};
ghost use Rattle.chpw_table.specs.Preparing.{IsReady};
ghost use Rattle.chpw_table.specs.Entering.{IsEntered, with_append, with_event, with_broken, with_keys_at, with_change_at, held_after};

use super::changing::{PreparedChange, put_keys};
use super::{Prepared, Table};
use crate::outcome::{Outcome, Refused};
use crate::request::{Opened, RequestId};
use crate::sink::JournalSink;
use crate::times::{Moment, is_later};
use crate::verdict::Verdict;
use chpw_ordered_keys::KeyTree;

impl Table {
    /// One step of the machine: the verdict on this request at this moment, and its effect.
    ///
    /// `now` has seconds from 0 to `LAST_SECOND`; the table's clock never goes back, whatever is given. Fewer than 2^64
    /// - 1 appends to the sink have failed, or the table is broken. The journal is appended to only if no row before
    /// `Broken` applies and no append has failed; all growths come before that.
    ///
    /// Refused, with nothing changed: `Full` if the table has decided as many events as allowed; `NeedKeys` if the new
    /// password's keys are to be looked at and the digest lacks some of the wanted counts, which are named; `Memory`.
    pub fn decide<S: JournalSink>(
        &mut self,
        now: Moment,
        opened: Opened,
        sink: &mut S,
    ) -> Result<Outcome, Refused>
        requires moment { IsMoment now }
        requires sink { self.old.state.broken ≡ false → S.failed sink.old < 2 ^ 64 - 1 }
        ensures steps { IfOk result (λ r. Steps self.old self.new now opened r) }
        ensures writes { IfOk result (λ r.
            Writes S.failed S.told self.old.state sink.old sink.new opened r) }
        ensures synced { IfOk result (λ r. is_done r.verdict ≡ true → S.unsynced sink.new ≡ 0) }
        ensures range { (entry_counts.low ≤ self.old.max_entries)
            × (self.old.max_entries ≤ entry_counts.high) }
        ensures refused { IfErr result (λ r. IsRefused self.old now opened r) }
        ensures unchanged { OnErr result ((self.new ≡ self.old) × (sink.new ≡ sink.old)) }
    {
        let prepared = self.prepare(now, opened)?;
        Ok(self.finish(prepared, sink))
    }

    /// The rest of the step that was prepared, for a table that hasn't changed since: the same verdict except for a
    /// failed append, and its effect. It takes no memory and can't be refused.
    ///
    /// Fewer than 2^64 - 1 appends to the sink have failed, or the table is broken. The journal is appended to only if
    /// `Prepared::change` has a row.
    pub fn finish<S: JournalSink>(&mut self, prepared: Prepared, sink: &mut S) -> Outcome
        requires ready { IsReady self.old prepared }
        requires sink { self.old.state.broken ≡ false → S.failed sink.old < 2 ^ 64 - 1 }
        ensures steps { Steps self.old self.new prepared.moment prepared.opened result }
        ensures writes { Writes S.failed S.told self.old.state sink.old sink.new
            prepared.opened result }
        ensures synced { is_done result.verdict ≡ true → S.unsynced sink.new ≡ 0 }
        ensures row { result.verdict
            ≡ (if is_done prepared.row && result.io_failed then Broken else prepared.row) }
    {
        // A field is read, so that the type's invariant is known.
        let _ = &self.principals;
        self.enter(prepared, sink)
    }

    // The rest of the step, by the table's own state.
    fn enter<S: JournalSink>(&mut self, prepared: Prepared, sink: &mut S) -> Outcome
        requires ready { IsReady self.old prepared }
        requires sink { self.old.state.broken ≡ false → S.failed sink.old < 2 ^ 64 - 1 }
        ensures entered { IsEntered self.old self.new prepared.moment prepared.opened prepared.row
            result.verdict result.io_failed }
        ensures io { S.failed sink.new
            ≡ (if result.io_failed then S.failed sink.old + 1 else S.failed sink.old) }
        ensures told { S.told sink.new
            ≡ option_map (λ xs. xs ++ appended self.old.state prepared.opened result.verdict)
            (S.told sink.old) }
        ensures synced { is_done result.verdict ≡ true → S.unsynced sink.new ≡ 0 }
        ensures opened { result.opened ≡ prepared.opened }
    {
        let Prepared {
            moment,
            opened,
            row,
            ids,
            change,
        } = prepared;
        self.tick(moment, ids);
        let (verdict, io_failed) = match change {
            None => (row, false),
            Some(change) => self.write(change, sink),
        };
        Outcome {
            verdict,
            io_failed,
            opened,
        }
    }

    // One more event, at this moment, which uses these ids.
    pub(super) fn tick(&mut self, now: Moment, ids: KeyTree<RequestId>)
        requires moment { IsMoment now }
        requires room { self.old.events < self.old.max_entries }
        requires one { length ids ≤ 1 }
        ensures value { self.new ≡ with_event now ids self.old }
        ensures seen { self.new.seen < self.new.events }
    {
        self.clock = self.clock_at(now);
        self.events += 1;
        put_ids(&mut self.used, ids, self.clock);
    }

    // The append decides: after a failed one the journal is broken, otherwise the new keys are added.
    fn write<S: JournalSink>(&mut self, change: PreparedChange, sink: &mut S) -> (Verdict, bool)
        requires place { change.place < length self.old.state.principals }
        requires holders { are_holders (with_keys_at change.place change.keys self.old.state.principals) ≡ true }
        requires room { self.old.seen < self.old.events }
        requires count { S.failed sink.old < 2 ^ 64 - 1 }
        ensures value { self.new ≡ (if result.1 then with_broken self.old
            else with_change_at change.place change.keys self.old) }
        ensures verdict { result.0 ≡ with_append result.1 Done }
        ensures io { S.failed sink.new
            ≡ (if result.1 then S.failed sink.old + 1 else S.failed sink.old) }
        ensures told { S.told sink.new ≡ (if result.1 then S.told sink.old
            else option_map (λ xs. xs ++ change.record.items) (S.told sink.old)) }
        ensures synced { is_done result.0 ≡ true → S.unsynced sink.new ≡ 0 }
    {
        match sink.append(change.record.as_slice()) {
            Err(_) => {
                self.broken = true;
                (Verdict::Broken, true)
            }
            Ok(()) => {
                self.put(change);
                (Verdict::Done, false)
            }
        }
    }

    // Adds the new key before the principal's.
    fn put(&mut self, change: PreparedChange)
        requires place { change.place < length self.old.state.principals }
        requires holders { are_holders (with_keys_at change.place change.keys self.old.state.principals) ≡ true }
        requires room { self.old.seen < self.old.events }
        ensures value { self.new ≡ with_change_at change.place change.keys self.old }
    {
        put_keys(self.principals.as_mut_slice(), change.place, change.keys);
        self.seen += 1;
    }
}

// Inserts an id, in the memory that it brought, and forgets those too old to be judged.
pub(super) fn put_ids(used: &mut KeyTree<RequestId>, ids: KeyTree<RequestId>, clock: i64)
    requires sorted { IsStrictlySortedBy id_cmp used.old }
    requires one { length ids ≤ 1 }
    requires few { length used.old + 1 < 2 ^ 32 }
    ensures value { used.new ≡ held_after clock used.old ids }
    ensures young { young_ids clock used.new ≡ used.new }
{
    used.put(ids);
    forget(used, clock);
}

// Forgets the ids that are too old to be judged: those at the front.
fn forget(used: &mut KeyTree<RequestId>, clock: i64)
    requires sorted { IsStrictlySortedBy id_cmp used.old }
    requires few { length used.old < 2 ^ 32 }
    ensures value { used.new ≡ young_ids clock used.old }
    ensures young { young_ids clock used.new ≡ used.new }
{
    while is_old(used, clock) {
        let _ = used.pop_first();
    }
}

// Whether the first id is too old to be judged.
fn is_old(used: &KeyTree<RequestId>, clock: i64) -> bool
    ensures value { result ≡ is_first_old clock used.now }
{
    match used.first() {
        None => false,
        Some(id) => is_later(clock, id.ctime),
    }
}
