//! Comparing receipts with the history.
ghost use Rattle.std.specs.Prelude.{◌≡◌, ◌==◌, ◌≤◌, ◌<◌, ◌^◌, ◌+◌, ◌-◌, length, drop, [], ◌∷◌, if◌then◌else◌, IfSome, IfNone, Decides, MatchBool};
ghost use Rattle.chpw_table.specs.History.{calls, calls_from, next_basis};
ghost use Rattle.chpw_book.specs.Differences.{IsFirstApart};

use crate::history::basis_after;
use chpw_table::{Entry, Receipt};

/// The first position where these differ from the receipts of the worker's entries: of the first entry whose receipt is
/// not in its place, or, if all are, the position that the first receipt after them names.
///
/// A position has 32 bits, so the history is shorter than 2^32; a table decides at most 1,048,576 events.
#[tactic(auto, using(crate::proofs::AgreeLemmas::agreeing))]
pub fn agree(history: &[Entry], worker: u8, receipts: &[Receipt]) -> Option<u32>
    requires few { length history.now < 2 ^ 32 }
    ensures none { IfNone result (receipts.now ≡ calls history.now worker) }
    ensures first { IfSome result (λ position. IsFirstApart (calls history.now worker) receipts.now position) }
{
    let mut standing = Standing {
        count: 0,
        position: 0,
        basis: 0,
    };
    let mut entries = history;
    let mut others = receipts;
    while let [entry, later @ ..] = entries {
        if entry.worker == worker {
            match others {
                [receipt, rest @ ..] if is_of(receipt, entry, standing) => others = rest,
                _ => return Some(standing.position),
            }
        }
        standing = next(standing, entry, worker);
        entries = later;
    }
    match others {
        [] => None,
        [receipt, ..] => Some(receipt.position),
    }
}

// The place of an entry: the worker's entries before it, its position, and the accepted entries before it.
#[derive(Clone, Copy, Drop)]
struct Standing {
    count: u32,
    position: u32,
    basis: u32,
}

// Whether this is the receipt of the entry at this place.
fn is_of(receipt: &Receipt, entry: &Entry, standing: Standing) -> bool
    requires room { standing.count < 2 ^ 32 - 1 }
    ensures same { Decides result (receipt.now ≡ record {
      worker = entry.entry.now.worker;
      number = standing.count + 1;
      position = standing.position;
      basis = standing.basis;
      entry = entry.entry.now;
    }) }
{
    receipt.worker == entry.worker
        && receipt.number == standing.count + 1
        && receipt.position == standing.position
        && receipt.basis == standing.basis
        && receipt.entry.is_same(entry)
}

fn next(standing: Standing, entry: &Entry, worker: u8) -> Standing
    requires room { (standing.count < 2 ^ 32 - 1) × (standing.position < 2 ^ 32 - 1) × (standing.basis < 2 ^ 32 - 1) }
    ensures count { result.count ≡ (if entry.entry.now.worker == worker then standing.count + 1 else standing.count) }
    ensures position { result.position ≡ standing.position + 1 }
    ensures basis { result.basis ≡ next_basis standing.basis entry.entry.now }
{
    Standing {
        count: if entry.worker == worker {
            standing.count + 1
        } else {
            standing.count
        },
        position: standing.position + 1,
        basis: basis_after(standing.basis, entry),
    }
}
