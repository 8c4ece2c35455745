//! The lock around the book, and what is beside it.
ghost use Rattle.std.specs.Prelude.{◌≡◌, ◌-◌, ◌^◌, ◌<◌, ◌≤◌, [], All, IfOk, IfErr, IfSome, OnOk, OnErr, map, false, true};
ghost use mathlib.Core.List.{IsPrefix};
ghost use Rattle.std.specs.List.{range_with_len};
ghost use Rattle.chpw_changelog.specs.Pens.{opening_state, opening_table};
ghost use Rattle.chpw_rules.specs.Limits.{is_in, iteration_counts};
ghost use Rattle.chpw_table.specs.declared.history.Event.TheVariants.{Ask, Raise, Update};
ghost use Rattle.chpw_table.specs.Times.{IsMoment};
ghost use Rattle.chpw_table.specs.Completing.{completed};
ghost use Rattle.chpw_table.specs.Refusals.{AsksPositive};
ghost use Rattle.chpw_table.specs.Standing.{refused_anyway};
ghost use Rattle.chpw_table.specs.Updates.{update_fits};
ghost use Rattle.chpw_decider.specs.Deciding.{IsCompletedFrom, IsFinal};
ghost use Rattle.chpw_book.specs.Passes.{refused_with, raise_refused_with, update_refused_with, new_pass};
ghost use Rattle.chpw_book.specs.Calls.{Notes, AsksAfter, LacksAfter, IsRefusedAfter};
ghost use Rattle.chpw_book.specs.Starting.{IsNamed, table_of, workers_of};
ghost use Rattle.chpw_snapshots.specs.Looking.{LooksUp};

use crate::book::Book;
use crate::naming::DeskName;
use crate::pass::Pass;
use crate::raising::RaiseFault;
use crate::standing::OpeningRules;
use crate::unnamed::{StartFault, UnnamedDesk};
use crate::updating::{DeskUpdateFault, DeskUpdateRefused};
use chpw_rules::Name;
use chpw_snapshots::NotEntered;
use chpw_table::{
    Counts, DecideFault, Durability, JournalSink, KdcUpdate, Lookup, Moment, Opened, RaiseVerdict,
    Refused, UpdateVerdict, Verdict,
};
use std::alloc::Global;
use std::sync::{Mutex, MutexGuard, Wait};

/// A book at which several workers decide, each with a pass of its own. A desk is closed (`Desk::close`) or abandoned
/// (`Desk::abandon`).
pub struct Desk<D: DeskName, S: JournalSink> {
    pub(crate) book: Mutex<Book<D, S>>,
    // Beside the lock, since no event changes them.
    pub(crate) standing: OpeningRules<D>,
}

impl<D: DeskName, S: JournalSink> Desk<D, S> {
    /// A desk with an empty history, and a pass for each of its workers, in order. None has seen or learnt a change.
    ///
    /// The sink's known bytes are those of its name; fewer than 2^64 - 1 of its appends have failed, or the table is broken.
    /// `NoPlaces` if a worker gets no place; `Memory` if a growth is refused: of the standing rules, the rows, the
    /// snapshots, the passes or the history. After a fault all that was given to it is gone.
    pub fn start<R: Wait>(
        rt: &R,
        alloc: Global,
        unnamed: UnnamedDesk,
        sink: S,
    ) -> Result<(Desk<D, S>, Vec<Pass<D>>), StartFault>
    where
        S: Drop,
        requires name { IsNamed unnamed D.name D.parts D.book D.root D.workers }
        requires told { IfSome (S.told sink) (λ bytes. bytes ≡ D.prior) }
        requires room { (table_of unnamed).state.broken ≡ false → S.failed sink < 2 ^ 64 - 1 }
        ensures passes { IfOk result (λ r.
            r.1.items ≡ map new_pass (range_with_len 0 (workers_of unnamed))) }
        ensures opening { OnOk result (opening_table D.root ≡ table_of unnamed) }
    {
        let standing = OpeningRules::of(&unnamed.table)?;
        let (book, passes) = Book::start(rt, alloc, unnamed, sink)?;
        let book = Mutex::new(book);
        Ok((Desk { book, standing }, passes))
    }

    /// Whether `decide` at this moment, whatever was decided before, refuses the request before it looks at keys. It
    /// takes no lock and waits for nobody.
    pub fn refuses_anyway(&self, now: Moment, opened: &Opened) -> bool
        ensures value { result ≡ refused_anyway (opening_state D.root).fixed now opened.now }
    {
        self.standing.refuse(now, opened)
    }

    /// The iteration counts under which `decide` would now compare keys and for which the digest has none, if the
    /// history weren't full: each at least 1; none if it would compare no keys. It takes the lock unless
    /// `refuses_anyway`.
    #[tactic(auto, using(crate::proofs::CallLemmas::lacks_none))]
    pub fn missing<R: Wait>(&self, rt: &R, now: Moment, opened: &Opened) -> Counts
        ensures after { LacksAfter (opening_state D.root) now opened.now result }
        ensures positive { All (λ n. 1 ≤ n) result }
    {
        if self.refuses_anyway(now, opened) {
            return Counts::new();
        }
        let book = self.book.lock(rt);
        let counts = book.missing(now, opened);
        MutexGuard::unlock(book);
        counts
    }

    /// Decides a request under the lock; its receipt joins the pass. If it is accepted, its change is published before
    /// the lock is released, and the pass learns the new list of accepted changes.
    ///
    /// `now` has seconds from 0 to `chpw_table::LAST_SECOND`. The refusals are those of `Table::decide`; after one the
    /// pass is as before, except that it notes `Full`.
    #[tactic(auto, using(crate::proofs::CallLemmas::notes_of_ask))]
    pub fn decide<R: Wait>(
        &self,
        rt: &R,
        pass: &mut Pass<D>,
        now: Moment,
        opened: Opened,
    ) -> Result<Verdict, Refused>
        requires moment { IsMoment now }
        ensures receipt { IfOk result (λ v. Notes (opening_state D.root) pass.old pass.new now (Ask opened v)) }
        ensures refused { IfErr result (λ r.
            (pass.new ≡ refused_with r.fault pass.old) × (r.opened ≡ opened)) }
        ensures asks { IfErr result (λ r. AsksAfter (opening_state D.root) now opened r.fault) }
        ensures positive { IfErr result (λ r. AsksPositive r.fault) }
    {
        let mut book = self.book.lock(rt);
        let decided = book.decide(rt, pass, now, opened);
        MutexGuard::unlock(book);
        note_full(pass, decided)
    }

    /// Decides a request like `decide`, and derives under the lock the keys that the digest lacks, from this password, so
    /// that none are asked for. The request that a refusal returns may have more keys than it came with.
    #[tactic(auto, using(crate::proofs::CallLemmas::notes_of_deriving))]
    pub fn decide_deriving<R: Wait>(
        &self,
        rt: &R,
        pass: &mut Pass<D>,
        now: Moment,
        opened: Opened,
        password: &[u8],
    ) -> Result<Verdict, Refused>
        requires moment { IsMoment now }
        ensures receipt { IfOk result (λ v. (counts : _)
            × Notes (opening_state D.root) pass.old pass.new now (Ask (completed password.now counts opened) v)) }
        ensures refused { IfErr result (λ r. (pass.new ≡ refused_with r.fault pass.old)
            × IsCompletedFrom password.now opened r.opened) }
        ensures never { IfErr result (λ r. IsFinal r.fault) }
    {
        let Ok(salt) = opened.salt() else {
            return Err(Refused {
                fault: DecideFault::Memory,
                opened,
            });
        };
        let mut book = self.book.lock(rt);
        let decided = book.decide_deriving(rt, pass, now, opened, password, salt.as_slice());
        MutexGuard::unlock(book);
        note_full(pass, decided)
    }

    /// Raises the iteration count of new keys to this one, 1 to 16,777,216, under the lock; the receipt joins the pass.
    /// If the count is raised, lookups show it before the lock is released, and the pass learns the new list of accepted
    /// changes.
    ///
    /// `now` has seconds from 0 to `chpw_table::LAST_SECOND`. After a fault the pass is as before, except that it notes
    /// `Full`.
    #[tactic(auto, using(crate::proofs::CallLemmas::notes_of_raise))]
    pub fn raise<R: Wait>(
        &self,
        rt: &R,
        pass: &mut Pass<D>,
        now: Moment,
        count: u32,
    ) -> Result<RaiseVerdict, RaiseFault>
        requires moment { IsMoment now }
        requires count { is_in iteration_counts count ≡ true }
        ensures receipt { IfOk result (λ v.
            Notes (opening_state D.root) pass.old pass.new now (Raise count v)) }
        ensures refused { IfErr result (λ fault. pass.new ≡ raise_refused_with fault pass.old) }
    {
        let mut book = self.book.lock(rt);
        let raised = book.raise(rt, pass, now, count);
        MutexGuard::unlock(book);
        raise_noted(pass, raised)
    }

    /// Takes what the KDC says of a principal, under the lock; the receipt joins the pass. If it is taken, lookups show it
    /// before the lock is released, and the pass learns the new list of accepted changes. Its record is on the disk then,
    /// or, if `durability` says so, with that of the next change or update that has to be.
    ///
    /// `now` has seconds from 0 to `chpw_table::LAST_SECOND`, and the update is within the limits
    /// (`chpw_table::KdcUpdate::fits`). After a fault the pass is as before, except that it notes `Full`; the update is
    /// returned. After `NoRoom` this history takes no further name, as after `Full` no further event: the next one does.
    #[tactic(auto, using(crate::proofs::CallLemmas::notes_of_update))]
    pub fn update<R: Wait>(
        &self,
        rt: &R,
        pass: &mut Pass<D>,
        now: Moment,
        update: KdcUpdate,
        durability: Durability,
    ) -> Result<UpdateVerdict, DeskUpdateRefused>
        requires moment { IsMoment now }
        requires fits { update_fits update ≡ true }
        ensures receipt { IfOk result (λ v.
            Notes (opening_state D.root) pass.old pass.new now (Update update v)) }
        ensures refused { IfErr result (λ r.
            (pass.new ≡ update_refused_with r.fault pass.old) × (r.update ≡ update)) }
        ensures after { IfErr result (λ r. IsRefusedAfter (opening_state D.root) update r.fault) }
    {
        let mut book = self.book.lock(rt);
        let updated = book.update(rt, pass, now, update, durability);
        MutexGuard::unlock(book);
        update_noted(pass, updated)
    }

    /// What a table shows of a name after the accepted changes of some legal history from the opening, which begin with
    /// all that the pass has seen and learnt; none for an unknown name. It takes no lock and waits for nobody. The counts
    /// are at least 1. After `NotEntered` the pass is unchanged.
    pub fn lookup(&self, pass: &mut Pass<D>, name: &Name) -> Result<Option<Lookup>, NotEntered>
        ensures found { IfOk result (λ found. LooksUp (opening_table D.root) pass.old.place
            pass.new.place name.now found) }
        ensures rest { pass.new ≡ record pass.old { place = pass.new.place } }
        ensures unchanged { OnErr result (pass.new ≡ pass.old) }
    {
        pass.lookup(name)
    }

    /// Abandons the desk without closing it, once no lookup reads.
    pub fn abandon<R: Wait>(self, rt: &R)
    where
        S: Drop,
    {
        let Desk { book, standing: _ } = self;
        book.into_inner().abandon(rt);
    }
}

// The pass notes that the history was full.
fn note_full<D: DeskName>(
    pass: &mut Pass<D>,
    decided: Result<Verdict, Refused>,
) -> Result<Verdict, Refused>
    ensures same { result ≡ decided }
    ensures ok { IfOk decided (λ v. pass.new ≡ pass.old) }
    ensures err { IfErr decided (λ r. pass.new ≡ refused_with r.fault pass.old) }
{
    if let Err(
        Refused {
            fault: DecideFault::Full,
            ..
        },
    ) = &decided
    {
        pass.note_full();
    }
    decided
}

// The pass notes that the history was full at a raise.
fn raise_noted<D: DeskName>(
    pass: &mut Pass<D>,
    raised: Result<RaiseVerdict, RaiseFault>,
) -> Result<RaiseVerdict, RaiseFault>
    ensures same { result ≡ raised }
    ensures ok { OnOk raised (pass.new ≡ pass.old) }
    ensures err { IfErr raised (λ fault. pass.new ≡ raise_refused_with fault pass.old) }
{
    if let Err(RaiseFault::Full) = raised {
        pass.note_full();
    }
    raised
}

// The pass notes that the history was full at an update.
fn update_noted<D: DeskName>(
    pass: &mut Pass<D>,
    updated: Result<UpdateVerdict, DeskUpdateRefused>,
) -> Result<UpdateVerdict, DeskUpdateRefused>
    ensures same { result ≡ updated }
    ensures ok { OnOk updated (pass.new ≡ pass.old) }
    ensures err { IfErr updated (λ r. pass.new ≡ update_refused_with r.fault pass.old) }
{
    if let Err(
        DeskUpdateRefused {
            fault: DeskUpdateFault::Full,
            ..
        },
    ) = &updated
    {
        pass.note_full();
    }
    updated
}
