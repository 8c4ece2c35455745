//! Laws of what orders leave due, over the definitions alone.
ghost use Rattle.chpw_desks.specs.Orders.{DueByItsOrder};

/// What is due after a desk is what the order that goes with it asked for.
#[tactic(auto, using(crate::proofs::OrderLemmas::due_by_its_order))]
pub fn due_by_its_order()
    ensures { DueByItsOrder }
{}
