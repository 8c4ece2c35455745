//! Laws of several desks, over the definitions alone.
ghost use Rattle.chpw_workers.specs.Sinks.{JournalsAreJoined};

/// A sink that tells, and that desks had one after the other, has what it had before the first, and then their journals,
/// joined.
#[tactic(auto, using(crate::proofs::SinkLemmas::joined))]
pub fn journals()
    ensures joined { JournalsAreJoined }
{}
