//! Laws of keytabs, over the definitions alone.
ghost use Rattle.krb_keytab.specs.Laws.{WholeIsRead, EndedIsRead, CutIsTold, ReadIsWritten};

/// A file of records is read as their entries, with or without a length of zero after them; where it ends within a
/// record it is cut off, at that record's place. Whatever is read is such a file.
pub fn keytabs()
    ensures whole { WholeIsRead }
    ensures ended { EndedIsRead }
    ensures cut { CutIsTold }
    ensures written { ReadIsWritten }
{}
