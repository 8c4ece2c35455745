//! The history, and how an entry joins it.
ghost use Rattle.std.specs.Prelude.{◌≡◌, ◌+◌, ◌-◌, ◌^◌, ◌<◌, ◌++◌, [], ◌∷◌, length, slice_index, slice_set, vec_len, vec_capacity};
ghost use Rattle.chpw_table.specs.History.{next_basis};
ghost use Rattle.chpw_book.specs.Receipts.{IsCounted, changes_of, next_entry, receipt_of};

use crate::naming::DeskName;
use chpw_table::{Entry, Event, Moment, Receipt};
use std::sync::ledger::{Book as Totals, Share};

/// The entries so far, how many of them each worker has, how many were accepted, and the ledger's total.
pub(crate) struct History<D: DeskName> {
    pub(crate) entries: Vec<Entry>,
    pub(crate) counts: Vec<u32>,
    pub(crate) changes: u32,
    pub(crate) totals: Totals<D>,
}

/// A worker's receipts, in the order of its calls, and its share of the ledger, which is their number.
#[derive(Drop)]
pub(crate) struct Calls<D: DeskName> {
    pub(crate) worker: u8,
    pub(crate) receipts: Vec<Receipt>,
    pub(crate) share: Share<D>,
}

impl<D: DeskName> History<D> {
    /// Adds the worker's entry of this event, and its receipt, which has `copy`, the event once more.
    pub(crate) fn add(
        &mut self,
        calls: &mut Calls<D>,
        now: Moment,
        io_failed: bool,
        event: Event,
        copy: Event,
    )
        requires room { (vec_len self.old.entries < vec_capacity self.old.entries)
            × (vec_len calls.old.receipts < vec_capacity calls.old.receipts) }
        requires few { length self.old.entries.items < 2 ^ 32 - 1 }
        requires worker { (calls.old.worker < length self.old.counts.items)
            × (calls.old.share.parts ≡ 1) }
        requires counted { IsCounted self.old.counts.items self.old.entries.items }
        requires changes { self.old.changes ≡ changes_of self.old.entries.items }
        requires copy { copy ≡ event }
        ensures entry { self.new.entries.items ≡ self.old.entries.items
            ++ next_entry self.old.entries.items calls.old.worker now
            io_failed event ∷ [] }
        ensures counts { self.new.counts.items ≡ slice_set self.old.counts.items calls.old.worker
            (slice_index self.old.counts.items calls.old.worker + 1) }
        ensures changes { self.new.changes ≡ next_basis self.old.changes
            (next_entry self.old.entries.items calls.old.worker now
            io_failed event) }
        ensures total { self.new.totals.total ≡ self.old.totals.total + 1 }
        ensures receipt { calls.new.receipts.items ≡ calls.old.receipts.items ++ receipt_of
            self.old.entries.items
            (next_entry self.old.entries.items calls.old.worker now
            io_failed event) ∷ [] }
        ensures share { calls.new.share.amount ≡ calls.old.share.amount + 1 }
        ensures worker { (calls.new.worker ≡ calls.old.worker)
            × (calls.new.share.parts ≡ calls.old.share.parts) }
    {
        let worker = calls.worker;
        let entry = Entry {
            worker,
            number: count_call(&mut self.counts, worker),
            now,
            io_failed,
            event,
        };
        let receipt = Receipt {
            worker,
            number: entry.number,
            position: self.entries.len() as u32,
            basis: self.changes,
            entry: Entry {
                event: copy,
                ..entry
            },
        };
        self.changes = basis_after(self.changes, &entry);
        put(&mut self.entries, entry);
        put(&mut calls.receipts, receipt);
        self.totals.add(&mut calls.share, 1);
    }

    /// The entries alone.
    pub(crate) fn into_entries(self) -> Vec<Entry>
        ensures value { result ≡ self.entries }
    {
        let History {
            entries,
            counts: _,
            changes: _,
            totals: _,
        } = self;
        entries
    }
}

// Counts one more entry of this worker, and gives its number.
fn count_call(counts: &mut Vec<u32>, worker: u8) -> u32
    requires worker { worker < vec_len counts.old }
    requires room { slice_index counts.old.items worker < 2 ^ 32 - 1 }
    ensures number { result ≡ slice_index counts.old.items worker + 1 }
    ensures counts { counts.new.items
        ≡ slice_set counts.old.items worker (slice_index counts.old.items worker + 1) }
{
    let worker = usize::from(worker);
    counts[worker] += 1;
    counts[worker]
}

/// The number of accepted entries, one more after an accepted one.
pub(crate) fn basis_after(basis: u32, entry: &Entry) -> u32
    requires room { basis < 2 ^ 32 - 1 }
    ensures value { result ≡ next_basis basis entry.entry.now }
{
    if entry.event.is_accepted() {
        basis + 1
    } else {
        basis
    }
}

// Adds one at the end, for which there is room.
fn put<T: Drop>(list: &mut Vec<T>, item: T)
    requires room { vec_len list.old < vec_capacity list.old }
    ensures value { list.new.items ≡ list.old.items ++ item ∷ [] }
{
    match list.push(item) {
        Ok(()) => {}
        Err(_) => unreachable!(),
    }
}
