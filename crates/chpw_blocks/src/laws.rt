//! A law of the format, over its definitions alone.
ghost use Rattle.chpw_blocks.specs.Blocks.{IsOneWay};

/// A text is that of one list of blocks at the most.
#[tactic(auto, using(crate::proofs::BlockLemmas::is_one_way))]
pub fn blocks()
    ensures one_way { IsOneWay }
{}
