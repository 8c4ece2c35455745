//! Laws of the answer, over its definitions alone.
ghost use Rattle.chpw_serve.specs.Judging.{JudgedAlike};

/// A request whose wanted counts are all derived is judged as one with exactly the wanted counts derived.
#[tactic(auto, using(crate::proofs::JudgingLemmas::judged_alike))]
pub fn judging()
    ensures alike { JudgedAlike }
{}
