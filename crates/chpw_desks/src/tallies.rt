//! What is reported once a desk is closed.
ghost use Rattle.std.specs.Prelude.{◌≡◌, ◌||◌, not, max, IfErr, OnErr, true};
ghost use Rattle.chpw_desks.specs.Tallies.{after_print};
ghost use Rattle.chpw_start.specs.declared.fault.ServeFault.TheVariants.{CannotPrint};

use crate::closing::Tally;
use crate::context::ServiceContext;
use chpw_logging::{Log, Notice, is_first, take_unreported};
use chpw_serve::Clock as _;
use chpw_start::ServeFault;
use chpw_table::Table;
use chpw_workers::MachineClock;
use std::sync::Wait;
use std::time::Clock;

/// Appends the line of a history that opens with the table that the last one left: it has the counts of the last one.
pub(crate) fn tell_rollover<R: Wait + Clock + Eprint>(
    context: &ServiceContext<'_, R>,
    table: &Table,
) {
    let now = MachineClock::new(context.rt).now();
    let event = context.counters.lock(context.rt).roll_over(table);
    context.log.put_event(now, &event);
}

/// Reports how many more messages had waited too long for their worker.
pub(crate) fn report_expired<R: Wait + Eprint>(log: &Log<'_, R>, expired: u32, reported: &mut u32)
    ensures reported { reported.new ≡ max reported.old expired }
{
    let more = take_unreported(expired, reported);
    if more > 0 {
        log.tell(Notice::Expired(more));
    }
}

/// Prints what was done. After the last history it is a fault if that can't be printed; after another one the line is
/// lost, which is reported on standard error the first time.
pub(crate) fn tell_tally<'a, R: Wait + Print + Eprint>(
    rt: &R,
    log: &Log<'_, R>,
    tally: Tally,
    last: bool,
    lost: &mut bool,
) -> Result<(), ServeFault<'a>>
    ensures fault { IfErr result (λ fault. fault ≡ CannotPrint) }
    ensures last { OnErr result (last ≡ true) }
    ensures kept { lost.old ≡ true → lost.new ≡ true }
    ensures unchanged { last ≡ true → lost.new ≡ lost.old }
{
    let is_printed = println!(rt; "{tally}").is_ok();
    match after_print(is_printed, last, lost) {
        AfterPrint::GoOn => Ok(()),
        AfterPrint::ReportLoss => {
            log.tell(Notice::OutputLost);
            Ok(())
        }
        AfterPrint::Fail => Err(ServeFault::CannotPrint),
    }
}

/// What follows from printing the line of a history.
#[derive(Clone, Copy, Drop)]
enum AfterPrint {
    /// Nothing.
    GoOn,
    /// The line is lost, and that is to be reported.
    ReportLoss,
    /// The service ends with a fault.
    Fail,
}

// What follows from printing the line of a history, the last one or another. A first loss counts as reported then.
fn after_print(is_printed: bool, is_last: bool, is_reported: &mut bool) -> AfterPrint
    ensures value { result ≡ after_print is_printed is_last is_reported.old }
    ensures reported { is_reported.new ≡ (is_reported.old || not (is_printed || is_last)) }
{
    if is_printed {
        AfterPrint::GoOn
    } else if is_last {
        AfterPrint::Fail
    } else if is_first(is_reported) {
        AfterPrint::ReportLoss
    } else {
        AfterPrint::GoOn
    }
}
