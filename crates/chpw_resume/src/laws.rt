//! A law of the format, over its definitions alone.
ghost use Rattle.chpw_resume.specs.Laws.{HasOneText};

/// What was written is read in one way: texts alike have the same realm, the same numbers and the same ids.
#[tactic(auto, using(crate::proofs::TextLemmas::has_one_text))]
pub fn texts()
    ensures one_text { HasOneText }
{}
