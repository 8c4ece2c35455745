//! Whether a resume file fits a start.
ghost use Rattle.std.specs.Prelude.{◌≡◌, None, true};
ghost use Rattle.chpw_table.specs.Times.{is_later as is_later_spec, IsTime};
ghost use Rattle.chpw_resume.specs.Fitting.{is_mark, is_time as is_time_spec, misfit_of};

use crate::mark::JournalMark;
use crate::resume::Resume;
use chpw_table::{CLOCK_SKEW, LAST_SECOND};

/// Why a resume file doesn't fit a start, in the order of the checks.
#[derive(Clone, Copy, Drop)]
pub enum Misfit {
    /// It is of another realm.
    Realm,
    /// The journal isn't the one that was left, or is longer or shorter.
    Journal,
    /// Its clock or its quiet time is later than the start by more than the skew: the machine's clock was set back, or was wrong
    /// then. Or its clock is no time at all.
    Future,
}

/// The first reason why it doesn't fit a start of this realm, with this journal, at this time.
pub fn first_misfit(
    resume: &Resume,
    realm: &[u8],
    journal: &JournalMark,
    start: i64,
) -> Option<Misfit>
    ensures first { result ≡ misfit_of resume.now realm.now journal.now start }
    ensures time { result ≡ None → IsTime resume.now.carried.clock }
{
    if resume.realm.as_slice() != realm {
        Some(Misfit::Realm)
    } else if !is_mark(&resume.journal, journal) {
        Some(Misfit::Journal)
    } else if !is_time(resume.carried.clock)
        || is_later(resume.carried.clock, start)
        || is_later(resume.carried.quiet_until, start)
    {
        Some(Misfit::Future)
    } else {
        None
    }
}

fn is_mark(one: &JournalMark, other: &JournalMark) -> bool
    ensures value { result ≡ is_mark one.now other.now }
{
    one.length == other.length && one.sum == other.sum
}

fn is_time(time: i64) -> bool
    ensures value { result ≡ is_time_spec time }
    ensures time { result ≡ true → IsTime time }
{
    (0..=LAST_SECOND).contains(&time)
}

// Whether a time is later than another by more than the skew.
fn is_later(time: i64, other: i64) -> bool
    ensures value { result ≡ is_later_spec time other }
{
    time.saturating_sub(other) > CLOCK_SKEW
}
