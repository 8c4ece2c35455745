//! The receipt of an event, after those before it.
ghost use Rattle.std.specs.Prelude.{◌≡◌, ◌+◌, ◌-◌, ◌^◌, ◌<◌, ◌++◌, ◌∷◌, [], length, vec_len, vec_capacity, if◌then◌else◌};
ghost use Rattle.chpw_table.specs.History.{is_accepted};
ghost use Rattle.chpw_decider.specs.Keeping.{basis_after};
ghost use Rattle.chpw_decider.specs.Entered.{receipt_after};

use chpw_table::{Entry, Event, Moment, Receipt};

/// Adds the receipt of an event, whose append failed or not, and counts it if it was accepted.
pub(crate) fn note(
    receipts: &mut Vec<Receipt>,
    changes: &mut u32,
    now: Moment,
    io_failed: bool,
    event: Event,
)
    requires room { vec_len receipts.old < vec_capacity receipts.old }
    requires few { length receipts.old.items + 1 < 2 ^ 32 }
    requires changes { changes.old ≡ basis_after 0 receipts.old.items }
    requires fewer { changes.old < 2 ^ 32 - 1 }
    ensures receipt { receipts.new.items
        ≡ receipts.old.items ++ receipt_after receipts.old.items now io_failed event ∷ [] }
    ensures changes { changes.new
        ≡ (if is_accepted event then changes.old + 1 else changes.old) }
{
    let position = receipts.len() as u32;
    let basis = *changes;
    if event.is_accepted() {
        *changes += 1;
    }
    let receipt = Receipt {
        worker: 0,
        number: position + 1,
        position,
        basis,
        entry: Entry {
            worker: 0,
            number: position + 1,
            now,
            io_failed,
            event,
        },
    };
    push(receipts, receipt);
}

/// Adds a receipt for which there is room.
fn push(receipts: &mut Vec<Receipt>, receipt: Receipt)
    requires room { vec_len receipts.old < vec_capacity receipts.old }
    ensures value { receipts.new.items ≡ receipts.old.items ++ receipt ∷ [] }
{
    match receipts.push(receipt) {
        Ok(()) => {}
        Err(_) => unreachable!(),
    }
}
