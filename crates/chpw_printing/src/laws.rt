//! The printed text is that of the time that is meant.
ghost use Rattle.krb_codec.specs.Times.{IsWritable};
ghost use Rattle.chpw_printing.specs.Times.{Tells, time_text};

/// The printed text of a time is a calendar day and a time of that day, and it is that time's.
pub fn times(seconds: i64, micros: u32)
    requires seconds { IsWritable seconds }
    ensures tells { Tells (time_text seconds micros) seconds micros }
{}
