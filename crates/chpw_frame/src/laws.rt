//! Laws of the framing, over its definitions alone.
ghost use Rattle.chpw_frame.specs.Laws.{FramedIsWhole, WholeIsFramed, SentIsNext, CutOnce, WorkedRows};

/// A framed text has no fault and the parts that it was made from, and bytes without a fault are the framed text of
/// their parts; what was sent is what comes next in a stream; each stream is cut into messages and an end in one way.
pub fn framing()
    ensures framed { FramedIsWhole }
    ensures whole { WholeIsFramed }
    ensures sent { SentIsNext }
    ensures cut { CutOnce }
    ensures rows { WorkedRows }
{}
