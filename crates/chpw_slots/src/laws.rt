//! What holds of the queues and of the counts of connections.
ghost use Rattle.chpw_slots.specs.Counting.{CountedOnce};
ghost use Rattle.chpw_slots.specs.Orders.{FirstInFirstOut};

/// Whatever happens to a queue, what is taken from it are the slots that joined it, in that order, except those that
/// left it: first in, first out. A complete message joins (`receive`), its worker takes the first one (`take`), and
/// those whose connections end leave (`take`, `fail`, `pass`).
#[tactic(auto, using(crate::proofs::OrderLemmas::first_in_first_out))]
pub fn first_in_first_out()
    ensures { FirstInFirstOut }
{}

/// Each connection is counted in one stage (`Connections::count`), and in no other.
#[tactic(auto, using(crate::proofs::CountLemmas::counted_once))]
pub fn counted_once()
    ensures { CountedOnce }
{}
