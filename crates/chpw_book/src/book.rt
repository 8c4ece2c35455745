//! What is under the lock: the table with its history, and the versions that lookups show.
ghost use Rattle.std.specs.Prelude.{◌≡◌, ◌+◌, ◌-◌, ◌^◌, ◌<◌, ◌≤◌, ◌++◌, ◌∷◌, [], All, IfOk, IfErr, IfSome, IfNone, OnErr, IsSome, length, map, true, false};
ghost use Rattle.std.specs.List.{range_with_len};
ghost use mathlib.Core.List.{IsPrefix};
ghost use Rattle.chpw_changelog.specs.Pens.{opening_state};
ghost use Rattle.chpw_table.specs.declared.outcome.DecideFault.TheVariants.{Full};
ghost use Rattle.chpw_rules.specs.Limits.{is_in, iteration_counts};
ghost use Rattle.chpw_table.specs.declared.history.Event.TheVariants.{Ask, Raise, Update};
ghost use Rattle.chpw_table.specs.Times.{IsMoment};
ghost use Rattle.chpw_table.specs.Requests.{target_of};
ghost use Rattle.chpw_table.specs.Completing.{salt_of, completed};
ghost use Rattle.chpw_table.specs.Refusals.{IsRefused};
ghost use Rattle.chpw_table.specs.Verdicts.{is_done};
ghost use Rattle.chpw_table.specs.Updates.{update_fits};
ghost use Rattle.chpw_table.specs.Versions.{accepted};
ghost use Rattle.chpw_decider.specs.Deciding.{IsCompletedFrom, IsFinal};
ghost use Rattle.chpw_book.specs.Closing.{IsRefusal, IsWhole, is_full};
ghost use Rattle.chpw_book.specs.Recorded.{IsLinearized};
ghost use Rattle.chpw_book.specs.Calls.{Adds, AsksAfter, LacksAfter, IsFirstFault, IsUpdateFault, IsRefusedAfter};
ghost use Rattle.chpw_table.specs.History.{missing};
ghost use Rattle.chpw_book.specs.Passes.{new_pass};
ghost use Rattle.chpw_book.specs.Starting.{IsNamed, table_of, workers_of};
ghost use Rattle.chpw_book.specs.Publishing.{new_book, published, told_list};
ghost use Rattle.chpw_snapshots.specs.Histories.{AreAccepted};

use crate::closing::{BookRefused, CloseFault, Closed};
use crate::naming::DeskName;
use crate::pass::Pass;
use crate::raising::RaiseFault;
use crate::recorded::RecordedTable;
use crate::rows::rows_of;
use crate::unnamed::{StartFault, UnnamedDesk};
use crate::updating::DeskUpdateRefused;
use chpw_snapshots::SnapshotWriter;
use chpw_table::{
    Counts, DecideFault, Durability, Entry, JournalSink, KdcUpdate, Moment, Opened, RaiseVerdict,
    Refused, UpdateVerdict, Verdict,
};
use std::alloc::Global;
use std::marker::Model;
use std::sync::Wait;
use std::sync::ledger::Share;

/// The table with its history, and the writer of the versions that lookups show beside the lock.
///
/// Its invariant is `IsPublished`: the published list is the history's accepted changes. That of the type inside it,
/// `RecordedTable`, is `IsLinearized`. A book is taken apart when its desk is closed or abandoned.
pub struct Book<D: DeskName, S: JournalSink> {
    pub(crate) recorded: RecordedTable<D, S>,
    pub(crate) snapshots: SnapshotWriter<D>,
}

impl<D: DeskName, S: JournalSink> Model for Book<D, S> {
    ghost use Rattle.chpw_changelog.specs.Pens.{opening_state};
    ghost use Rattle.chpw_book.specs.Publishing.{BookView, IsPublished};

    ghost Value = { BookView };

    ghost view = { λ b. record { kept = b.recorded; list = b.snapshots.list } };

    ghost invariant = { λ b.
        IsPublished (opening_state D.root) b.recorded.history b.recorded.table.state.broken b.snapshots };
}

impl<D: DeskName, S: JournalSink> Book<D, S> {
    /// A book with an empty history, and a pass for each of the workers, in order. None has seen or learnt a change.
    ///
    /// Two faults: `NoPlaces` if `SnapshotWriter::place` gives no place to a worker, and `Memory` if a growth is refused:
    /// of the rows, the snapshots, the passes or the counts, in this order. After a fault all that was given to it is gone.
    pub(crate) fn start<R: Wait>(
        rt: &R,
        alloc: Global,
        unnamed: UnnamedDesk,
        sink: S,
    ) -> Result<(Book<D, S>, Vec<Pass<D>>), StartFault>
    where
        S: Drop,
        requires name { IsNamed unnamed D.name D.parts D.book D.root D.workers }
        requires told { IfSome (S.told sink) (λ bytes. bytes ≡ D.prior) }
        requires room { (table_of unnamed).state.broken ≡ false → S.failed sink < 2 ^ 64 - 1 }
        ensures value { IfOk result (λ r.
            r.0 ≡ new_book (table_of unnamed) (workers_of unnamed) (S.told sink)) }
        ensures passes { IfOk result (λ r.
            r.1.items ≡ map new_pass (range_with_len 0 (workers_of unnamed))) }
    {
        let UnnamedDesk {
            table,
            workers,
            blank,
            list,
        } = unnamed;
        let rows = rows_of(alloc, &table)?;
        let again = rows_of(alloc, &table)?;
        let root = list.root();
        let keeper = list.with_name::<D>();
        let places = usize::from(workers);
        let mut snapshots = SnapshotWriter::start(rt, alloc, keeper, &root, rows, again, places)?;
        let (totals, all): (_, Share<D>) = blank.open::<D>();
        let passes = match Pass::of_all(alloc, all, &mut snapshots, workers) {
            Ok(passes) => passes,
            Err(fault) => {
                snapshots.end(rt);
                return Err(fault);
            }
        };
        match RecordedTable::start(alloc, totals, table, sink, workers) {
            Ok(recorded) => Ok((
                Book {
                    recorded,
                    snapshots,
                },
                passes,
            )),
            Err(_) => {
                snapshots.end(rt);
                Err(StartFault::Memory)
            }
        }
    }

    /// The entries so far.
    pub fn history(&self) -> &[Entry]
        ensures value { result.now ≡ self.now.kept.history }
        ensures linearized { IsLinearized (opening_state D.root) D.workers D.prior self.now.kept }
        ensures published { self.now.list ≡ accepted (opening_state D.root) self.now.kept.history }
    {
        self.recorded.history()
    }

    /// The iteration counts under which `decide` would compare keys and for which the digest has none, if the history
    /// weren't full: each at least 1, ascending, each once; none if it would compare no keys.
    #[tactic(auto, using(crate::proofs::CallLemmas::lacks_after))]
    pub fn missing(&self, now: Moment, opened: &Opened) -> Counts
        ensures value { result ≡ missing self.now.kept.table.state now opened.now }
        ensures after { LacksAfter (opening_state D.root) now opened.now result }
        ensures positive { All (λ n. 1 ≤ n) result }
    {
        self.recorded.missing(now, opened)
    }

    /// Decides a request: an entry of the pass's worker at the end of the history, and its receipt in the pass. If it is
    /// accepted, its change is published, and the pass learns the new list of accepted changes; this waits for lookups
    /// that still read what it changes.
    ///
    /// `now` has seconds from 0 to `chpw_table::LAST_SECOND`. The refusals are those of `Table::decide`, `Full`,
    /// `NeedKeys` and `Memory`, and after one nothing has changed.
    pub fn decide<R: Wait>(
        &mut self,
        rt: &R,
        pass: &mut Pass<D>,
        now: Moment,
        opened: Opened,
    ) -> Result<Verdict, Refused>
        requires moment { IsMoment now }
        ensures adds { IfOk result (λ v. Adds (opening_state D.root) self.old.kept self.new.kept
            pass.old pass.new now (Ask opened v)) }
        ensures refused { IfErr result (λ r. IsRefused self.old.kept.table now opened r) }
        ensures unchanged { OnErr result ((self.new ≡ self.old) × (pass.new ≡ pass.old)) }
        ensures asks { IfErr result (λ r. AsksAfter (opening_state D.root) now opened r.fault) }
        ensures told { IsPrefix pass.old.place.told
            (accepted (opening_state D.root) self.old.kept.history) }
    {
        self.snapshots.has(pass.known_front());
        let verdict = self
            .recorded
            .decide(&mut self.snapshots, pass, now, opened)?;
        tell(rt, &mut self.snapshots, pass, is_accepted(verdict));
        Ok(verdict)
    }

    /// Decides a request like `decide`, and derives the keys that the digest lacks from this password, so that none are
    /// asked for: it is refused as `Full` or `Memory`. `salt` is that of `Opened::salt`. The request that a refusal
    /// returns may have more keys than it came with.
    pub fn decide_deriving<R: Wait>(
        &mut self,
        rt: &R,
        pass: &mut Pass<D>,
        now: Moment,
        opened: Opened,
        password: &[u8],
        salt: &[u8],
    ) -> Result<Verdict, Refused>
        requires moment { IsMoment now }
        requires salt { salt.now ≡ salt_of (target_of opened) }
        ensures adds { IfOk result (λ v. (counts : _) × Adds (opening_state D.root)
            self.old.kept self.new.kept pass.old pass.new now
            (Ask (completed password.now counts opened) v)) }
        ensures never { IfErr result (λ r. IsFinal r.fault) }
        ensures full { IfErr result (λ r.
            r.fault ≡ Full → self.old.kept.table.events ≡ self.old.kept.table.max_entries) }
        ensures unchanged { IfErr result (λ r. (self.new ≡ self.old) × (pass.new ≡ pass.old)
            × IsCompletedFrom password.now opened r.opened) }
        ensures told { IsPrefix pass.old.place.told
            (accepted (opening_state D.root) self.old.kept.history) }
    {
        let refused = match self.decide(rt, pass, now, opened) {
            Ok(verdict) => return Ok(verdict),
            Err(refused) => refused,
        };
        let Refused { fault, mut opened } = refused;
        match fault {
            DecideFault::NeedKeys(counts) => {
                if opened.complete(password, salt, &counts).is_err() {
                    return Err(Refused {
                        fault: DecideFault::Memory,
                        opened,
                    });
                }
                self.decide(rt, pass, now, opened)
            }
            fault => Err(Refused { fault, opened }),
        }
    }

    /// Raises the iteration count of new keys to this one, 1 to 16,777,216: an entry of the pass's worker at the end of
    /// the history, and its receipt in the pass. If the count is raised, lookups show it, and the pass learns the new
    /// list of accepted changes; this waits for lookups that still read what it changes.
    ///
    /// `now` has seconds from 0 to `chpw_table::LAST_SECOND`. Two faults, after which nothing has changed: `Full`
    /// exactly if the table is full, and `Memory` if it has room and a growth is refused.
    pub fn raise<R: Wait>(
        &mut self,
        rt: &R,
        pass: &mut Pass<D>,
        now: Moment,
        count: u32,
    ) -> Result<RaiseVerdict, RaiseFault>
        requires moment { IsMoment now }
        requires count { is_in iteration_counts count ≡ true }
        ensures adds { IfOk result (λ v. Adds (opening_state D.root) self.old.kept self.new.kept
            pass.old pass.new now (Raise count v)) }
        ensures first { IfErr result (λ fault. IsFirstFault self.old.kept.table fault) }
        ensures unchanged { OnErr result ((self.new ≡ self.old) × (pass.new ≡ pass.old)) }
        ensures told { IsPrefix pass.old.place.told
            (accepted (opening_state D.root) self.old.kept.history) }
    {
        self.snapshots.has(pass.known_front());
        let verdict = self.recorded.raise(&mut self.snapshots, pass, now, count)?;
        tell(rt, &mut self.snapshots, pass, verdict.is_raised());
        Ok(verdict)
    }

    /// Takes what the KDC says of a principal: an entry of the pass's worker at the end of the history, and its receipt in
    /// the pass. If it is taken, lookups show it, and the pass learns the new list of accepted changes; this waits for
    /// lookups that still read what it changes. Its record is on the disk when `durability` says.
    ///
    /// `now` has seconds from 0 to `chpw_table::LAST_SECOND`, and the update is within the limits
    /// (`chpw_table::KdcUpdate::fits`). After a fault nothing has changed: `Full` exactly if the table is full; then
    /// `TooMany` exactly if it has 10,000 principals and the update would add one; then, only where it would add one,
    /// `Composite` and `NoRoom`; and `Memory`.
    pub fn update<R: Wait>(
        &mut self,
        rt: &R,
        pass: &mut Pass<D>,
        now: Moment,
        update: KdcUpdate,
        durability: Durability,
    ) -> Result<UpdateVerdict, DeskUpdateRefused>
        requires moment { IsMoment now }
        requires fits { update_fits update ≡ true }
        ensures adds { IfOk result (λ v. Adds (opening_state D.root) self.old.kept self.new.kept
            pass.old pass.new now (Update update v)) }
        ensures first { IfErr result (λ r. IsUpdateFault (opening_state D.root) self.old.list
            self.old.kept.table update r.fault) }
        ensures returned { IfErr result (λ r. r.update ≡ update) }
        ensures unchanged { OnErr result ((self.new ≡ self.old) × (pass.new ≡ pass.old)) }
        ensures after { IfErr result (λ r. IsRefusedAfter (opening_state D.root) update r.fault) }
        ensures told { IsPrefix pass.old.place.told
            (accepted (opening_state D.root) self.old.kept.history) }
    {
        self.snapshots.has(pass.known_front());
        let verdict = self
            .recorded
            .update(&mut self.snapshots, pass, now, update, durability)?;
        tell(rt, &mut self.snapshots, pass, verdict.is_taken());
        Ok(verdict)
    }

    /// What is left of the book if these passes are complete and have their workers' receipts; otherwise book and
    /// passes are returned unchanged.
    pub(crate) fn close<R: Wait>(
        self,
        rt: &R,
        passes: Vec<Pass<D>>,
    ) -> Result<Closed<S>, BookRefused<D, S>>
        ensures whole { IfOk result (λ _. IsWhole self.kept.history (is_full self.kept.table)
            D.workers passes.items) }
        ensures history { IfOk result (λ c. (c.history.items ≡ self.kept.history)
            × (c.table ≡ self.kept.table) × (S.told c.sink ≡ self.kept.told)) }
        ensures refusal { IfErr result (λ r. IsRefusal self.kept.history (is_full self.kept.table)
            D.workers passes.items r.fault) }
        ensures back { IfErr result (λ r. (r.book ≡ self) × (r.passes.items ≡ passes.items)) }
        ensures linearized { IsLinearized (opening_state D.root) D.workers D.prior self.kept }
    {
        match self.close_fault(passes.as_slice()) {
            None => Ok(self.into_closed(rt)),
            Some(fault) => Err(BookRefused {
                fault,
                book: self,
                passes,
            }),
        }
    }

    // Why these passes leave the book open; none if it may be closed.
    fn close_fault(&self, passes: &[Pass<D>]) -> Option<CloseFault>
        ensures whole { IfNone result (IsWhole self.now.kept.history
            (is_full self.now.kept.table) D.workers passes.now) }
        ensures refusal { IfSome result (λ fault. IsRefusal self.now.kept.history
            (is_full self.now.kept.table) D.workers passes.now fault) }
        ensures linearized { IsLinearized (opening_state D.root) D.workers D.prior self.now.kept }
    {
        self.recorded.close_fault(passes)
    }

    // What is left of it, once no lookup reads.
    fn into_closed<R: Wait>(self, rt: &R) -> Closed<S>
        ensures history { result.history.items ≡ self.kept.history }
        ensures table { result.table ≡ self.kept.table }
        ensures told { S.told result.sink ≡ self.kept.told }
        ensures linearized { IsLinearized (opening_state D.root) D.workers D.prior self.kept }
    {
        let Book {
            recorded,
            snapshots,
        } = self;
        snapshots.end(rt);
        recorded.into_closed()
    }

    /// Drops the book, with its history, once no lookup reads.
    pub(crate) fn abandon<R: Wait>(self, rt: &R)
    where
        S: Drop,
    {
        let Book {
            recorded,
            snapshots,
        } = self;
        snapshots.end(rt);
        recorded.abandon();
    }
}

// Whether the verdict accepts the request.
fn is_accepted(verdict: Verdict) -> bool
    ensures value { result ≡ is_done verdict }
{
    verdict == Verdict::Done
}

// After an event that was accepted or not: the prepared change, which the history accepted, is published, and the pass
// learns the list.
fn tell<D: DeskName, R: Wait>(
    rt: &R,
    snapshots: &mut SnapshotWriter<D>,
    pass: &mut Pass<D>,
    accepted: bool,
)
    requires waits { accepted ≡ true → IsSome snapshots.old.waiting }
    requires accepted { accepted ≡ true → IfSome snapshots.old.waiting (λ change.
        AreAccepted (opening_state D.root) (snapshots.old.list ++ change ∷ [])) }
    requires room { length snapshots.old.list + 1 < 2 ^ 31 }
    requires told { IsPrefix pass.old.place.told snapshots.old.list }
    ensures snapshots { snapshots.new ≡ published accepted snapshots.old }
    ensures pass { pass.new ≡ record pass.old {
      place = told_list accepted snapshots.new.list pass.old.place;
    } }
{
    if accepted {
        let front = snapshots.publish(rt);
        pass.tell(front);
    }
}
