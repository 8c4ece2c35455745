//! Laws of the format, over its definitions alone.
ghost use Rattle.chpw_record.specs.Laws.{IsOnlyRecord, LengthsAreAllowed, ReadsBack};

/// Reading gives back each record that was written. A text begins with the bytes of one record at most, and what follows
/// them is the same too. The length of each record is one that a record may have.
pub fn records()
    ensures back { ReadsBack }
    ensures only { IsOnlyRecord }
    ensures lengths { LengthsAreAllowed }
{}
