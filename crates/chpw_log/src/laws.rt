//! Laws of the lines, over their definitions alone.
ghost use Rattle.std.specs.Prelude.{◌<◌};
ghost use Rattle.chpw_table.specs.Times.{IsMoment};
ghost use Rattle.chpw_log.specs.Laws.{StandAsTheyAre};
ghost use Rattle.chpw_log.specs.Moments.{Tells, moment_text};

use chpw_table::{Moment, Verdict};

/// The printed text of a moment is a calendar day and a time of that day, and it is that moment's.
pub fn moments(moment: Moment)
    requires range { IsMoment moment }
    ensures tells { Tells (moment_text moment) moment }
{}

/// No byte of a verdict's words is escaped.
pub fn verdicts(verdict: Verdict)
    ensures plain { StandAsTheyAre verdict }
{}
