//! A call that computes nothing: it gives a proof what the type of its argument keeps.
ghost use Rattle.std.specs.Prelude.{◌≤◌};
ghost use Rattle.chpw_decider.specs.Keeping.{IsKept};

use chpw_decider::Alone;
use chpw_table::JournalSink;

/// The history is legal, and no longer than allowed.
pub(crate) fn know_history<S: JournalSink>(alone: &Alone<S>)
    ensures kept { IsKept alone.now }
    ensures short { alone.now.table.events ≤ alone.now.table.max_entries }
{
    let _ = alone.table().is_full();
}
