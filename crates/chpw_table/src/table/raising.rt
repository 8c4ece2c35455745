//! The raise of the iteration count of new keys.
ghost use Rattle.std.specs.Prelude.{◌≡◌, ◌||◌, ◌+◌, ◌-◌, ◌^◌, ◌<◌, ◌≤◌, ◌++◌, IfOk, OnOk, OnErr, if◌then◌else◌, true, false, option_map};
ghost use Rattle.chpw_rules.specs.Limits.{is_in, entry_counts, iteration_counts};
ghost use Rattle.chpw_table.specs.State.{State};
ghost use Rattle.chpw_table.specs.Times.{IsMoment};
ghost use Rattle.chpw_table.specs.Raising.{raise_verdict, is_raised, step_raise, IsRaise, would_raise};
ghost use Rattle.chpw_record.specs.Records.{raise_bytes as raise_bytes_spec};
ghost use Rattle.chpw_table.specs.Journal.{raise_appended};
ghost use Rattle.chpw_table.specs.Agreement.{Agrees};
ghost use Rattle.chpw_table.specs.Entering.{with_broken, with_raise, raise_written, IsRaiseEntered};

use super::Table;
use crate::raising::{Full, Raise, RaiseVerdict};
use crate::sink::JournalSink;
use crate::times::Moment;
use chpw_ordered_keys::KeyTree;
use chpw_record::raise_bytes;

impl Table {
    /// Raises the iteration count of new keys to this one, 1 to 16,777,216: the verdict, and its effect. It takes no
    /// memory.
    ///
    /// `now` has seconds from 0 to `LAST_SECOND`; the table's clock never goes back, whatever is given. Fewer than 2^64
    /// - 1 appends to the sink have failed, or the table is broken. The journal is appended to exactly if
    /// `would_raise`.
    ///
    /// `Full` if the table has decided as many events as allowed, and then nothing has changed.
    pub fn raise<S: JournalSink>(
        &mut self,
        now: Moment,
        count: u32,
        sink: &mut S,
    ) -> Result<Raise, Full>
        requires moment { IsMoment now }
        requires count { is_in iteration_counts count ≡ true }
        requires sink { self.old.state.broken ≡ false → S.failed sink.old < 2 ^ 64 - 1 }
        ensures legal { IfOk result (λ r. (s : State) → Agrees self.old.state s
            → IsRaise s count r.io_failed r.verdict) }
        ensures step { IfOk result (λ r. (s : State) → Agrees self.old.state s
            → Agrees self.new.state (step_raise s now count r.io_failed)) }
        ensures io { IfOk result (λ r. S.failed sink.new
            ≡ (if r.io_failed then S.failed sink.old + 1 else S.failed sink.old)) }
        ensures told { IfOk result (λ r. S.told sink.new
            ≡ option_map (λ xs. xs ++ raise_appended count r.verdict) (S.told sink.old)) }
        ensures synced { IfOk result (λ r. is_raised r.verdict ≡ true → S.unsynced sink.new ≡ 0) }
        ensures counts { IfOk result (λ r. (self.new.events ≡ self.old.events + 1)
            × (self.new.seen ≡ (if is_raised r.verdict then self.old.seen + 1 else self.old.seen))
            × (self.new.max_entries ≡ self.old.max_entries)) }
        ensures room { OnOk result (self.old.events < self.old.max_entries) }
        ensures few { OnOk result (self.new.events ≤ entry_counts.high) }
        ensures broken { IfOk result (λ r.
            self.new.state.broken ≡ (self.old.state.broken || r.io_failed)) }
        ensures full { OnErr result (self.old.events ≡ self.old.max_entries) }
        ensures unchanged { OnErr result ((self.new ≡ self.old) × (sink.new ≡ sink.old)) }
    {
        if self.events == self.max_entries {
            return Err(Full);
        }
        Ok(self.enter_raise(now, count, sink))
    }

    /// Whether a raise to this count would be appended to the journal, and is accepted unless that
    /// fails: the table has room for an event, the count is above the present one, and no append has
    /// failed.
    pub fn would_raise(&self, count: u32) -> bool
        ensures value { result ≡ would_raise self.now count }
    {
        self.events < self.max_entries && self.count < count && !self.broken
    }

    // The step of a raise, by the table's own state.
    fn enter_raise<S: JournalSink>(&mut self, now: Moment, count: u32, sink: &mut S) -> Raise
        requires moment { IsMoment now }
        requires count { is_in iteration_counts count ≡ true }
        requires room { self.old.events < self.old.max_entries }
        requires sink { self.old.state.broken ≡ false → S.failed sink.old < 2 ^ 64 - 1 }
        ensures entered { IsRaiseEntered self.old self.new now count result.verdict
            result.io_failed }
        ensures io { S.failed sink.new
            ≡ (if result.io_failed then S.failed sink.old + 1 else S.failed sink.old) }
        ensures told { S.told sink.new
            ≡ option_map (λ xs. xs ++ raise_appended count result.verdict) (S.told sink.old) }
        ensures synced { is_raised result.verdict ≡ true → S.unsynced sink.new ≡ 0 }
    {
        let row = self.raise_row(count);
        self.tick(now, KeyTree::new());
        if row.is_raised() {
            self.write_raise(count, sink)
        } else {
            Raise {
                verdict: row,
                io_failed: false,
            }
        }
    }

    // The verdict, if no append fails.
    fn raise_row(&self, count: u32) -> RaiseVerdict
        ensures value { result ≡ raise_verdict self.now.state count false }
    {
        if count <= self.count {
            return RaiseVerdict::NotHigher;
        }
        if self.broken {
            return RaiseVerdict::Broken;
        }
        RaiseVerdict::Raised
    }

    // The append decides: after a failed one the journal is broken, otherwise the count is raised.
    fn write_raise<S: JournalSink>(&mut self, count: u32, sink: &mut S) -> Raise
        requires count { is_in iteration_counts count ≡ true }
        requires room { self.old.seen < self.old.events }
        requires failures { S.failed sink.old < 2 ^ 64 - 1 }
        ensures value { self.new
            ≡ (if result.io_failed then with_broken self.old else with_raise count self.old) }
        ensures verdict { result.verdict ≡ raise_written result.io_failed }
        ensures io { S.failed sink.new
            ≡ (if result.io_failed then S.failed sink.old + 1 else S.failed sink.old) }
        ensures told { S.told sink.new ≡ (if result.io_failed then S.told sink.old
            else option_map (λ xs. xs ++ raise_bytes_spec count) (S.told sink.old)) }
        ensures synced { is_raised result.verdict ≡ true → S.unsynced sink.new ≡ 0 }
    {
        match sink.append(&raise_bytes(count)) {
            Err(_) => {
                self.broken = true;
                Raise {
                    verdict: RaiseVerdict::Broken,
                    io_failed: true,
                }
            }
            Ok(()) => {
                self.count = count;
                self.seen += 1;
                Raise {
                    verdict: RaiseVerdict::Raised,
                    io_failed: false,
                }
            }
        }
    }
}
