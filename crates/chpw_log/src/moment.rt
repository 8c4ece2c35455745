//! Moments as they are printed (RFC 3339).
ghost use Rattle.std.specs.Prelude.{◌≡◌, ◌++◌, ◌<◌, true, OnOk};
ghost use Rattle.chpw_printing.specs.Quoting.{is_field};
ghost use Rattle.chpw_table.specs.Times.{IsMoment};
ghost use Rattle.chpw_log.specs.Moments.{moment_text};

use chpw_printing::put_time;
use chpw_table::Moment;
use std::alloc::AllocError;

/// Adds a moment: `2026-11-25T06:31:50.123456Z`. Its seconds are 0 to `chpw_table::LAST_SECOND`, its microseconds below
/// 1,000,000.
#[tactic(auto, using(crate::proofs::MomentLemmas::writable))]
pub(crate) fn put_moment(text: &mut Vec<u8>, moment: Moment) -> Result<(), AllocError>
    requires moment { IsMoment moment }
    requires micros { moment.micros < 1000000 }
    ensures value { OnOk result (text.new.items ≡ text.old.items ++ moment_text moment) }
    ensures field { is_field (moment_text moment) ≡ true }
{
    put_time(text, moment.seconds, moment.micros)
}
