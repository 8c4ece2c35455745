//! Opening a desk after a reload.
ghost use Rattle.std.specs.Prelude.{◌≡◌, ◌<◌, ◌-◌, ◌^◌, ℕ, List, Option, IfOk, IfErr, false};
ghost use Rattle.chpw_reload.specs.Reasons.{fault_text};
ghost use Rattle.chpw_reload.specs.Reloading.{IsReloaded};
ghost use Rattle.chpw_orders.specs.Answers.{refused_lines, reloaded_lines, Tells};
ghost use Rattle.chpw_desks.specs.Following.{TakesRules};
ghost use Rattle.chpw_book.specs.Starting.{table_of, workers_of};
ghost use Rattle.chpw_reload.specs.ReloadRuns.{GoesOn};
ghost use Rattle.chpw_start.specs.declared.fault.ServeFault.TheVariants.{Memory};

use crate::context::ServiceContext;
use crate::openings::{Opening, next_opening};
use crate::tallies::tell_rollover;
use chpw_book::UnnamedDesk;
use chpw_control::TakenOrder;
use chpw_journal::FileSink;
use chpw_logging::Notice;
use chpw_orders::{CheckedReload, PendingReload, answer_or_empty, reload_answer, reload_refusal};
use chpw_reload::{NextTable, RefusedReload, ReloadFault, finish};
use chpw_rules::Name;
use chpw_serve::Clock as _;
use chpw_start::{Rules, ServeFault};
use chpw_table::{JournalSink, Table};
use chpw_warnings::Warning;
use chpw_workers::MachineClock;
use std::alloc::Global;
use std::fs::File;
use std::sync::Wait;
use std::time::Clock;

/// What the next desk opens with when the configuration was reloaded: what the closed table becomes with it and the
/// rest of the journal, by the new rules; or the closed table, by the present rules, if the reload is refused. The
/// order is answered.
#[tactic(auto, using(crate::proofs::ServiceRunLemmas::takes_new))]
pub(crate) fn reload<'a, 'l, R: Wait + Clock + Eprint + AllocGlobal>(
    context: &ServiceContext<'l, R>,
    rules: &mut Rules,
    order: TakenOrder,
    anew: PendingReload,
    table: Table,
    sink: FileSink<File>,
) -> Result<Opening, ServeFault<'a>>
    requires room { table.state.broken ≡ false
        → ⟦<FileSink<File> as JournalSink>⟧.failed sink < 2 ^ 64 - 1 }
    ensures goes_on { IfOk result (λ next. GoesOn table.state (table_of next.unnamed).state) }
    ensures rules { IfOk result (λ next. TakesRules anew table rules.old rules.new (table_of next.unnamed)) }
    ensures workers { IfOk result (λ next. workers_of next.unnamed ≡ context.now.workers) }
    ensures fault { IfErr result (λ fault. fault ≡ Memory) }
{
    let PendingReload {
        renewed,
        rest,
        rules: next_rules,
        names,
        warnings,
    } = anew;
    let rt = context.rt;
    match made_anew(rt.alloc(), renewed, rest, table) {
        Ok(NextTable { table, lacked }) => {
            *rules = next_rules;
            tell_reloaded(context, &table, &lacked);
            let answer = reloaded_answer(rt.alloc(), &warnings, &lacked);
            context.engine.hold_table(rt, &table, names);
            context.engine.answer_order(rt, order, answer);
            Ok(Opening {
                unnamed: UnnamedDesk::of(table, context.workers),
                sink,
            })
        }
        Err(RefusedReload { fault, closed }) => {
            tell_rollover(context, &closed);
            let answer = refused_answer(rt.alloc(), &fault);
            context.engine.answer_order(rt, order, answer);
            next_opening(closed, sink, context.workers)
        }
    }
}

// What a closed table becomes with the reloaded configuration and the rest of the journal.
fn made_anew(
    alloc: Global,
    renewed: CheckedReload,
    rest: File,
    closed: Table,
) -> Result<NextTable, RefusedReload>
    ensures goes_on { IfOk result (λ next. GoesOn closed.state next.table.state) }
    ensures broken { IfOk result (λ next. next.table.state.broken ≡ closed.state.broken) }
    ensures reloaded { IfOk result (λ next. (bytes : Option (List ℕ)) × IsReloaded renewed bytes closed next) }
    ensures unchanged { IfErr result (λ refused. refused.closed ≡ closed) }
{
    finish(alloc, renewed.into_renewal(), rest, closed)
}

// The answer to the order when a configuration is reloaded that has these warnings and lacks these principals.
fn reloaded_answer(alloc: Global, warnings: &[Warning], lacked: &[Name]) -> Vec<u8>
    ensures tells { Tells (reloaded_lines warnings.now lacked.now) result.items }
{
    answer_or_empty(alloc, reload_answer(alloc, warnings, lacked))
}

// The answer to the order when the reload is refused.
fn refused_answer(alloc: Global, fault: &ReloadFault) -> Vec<u8>
    ensures tells { Tells (refused_lines (fault_text fault.now)) result.items }
{
    answer_or_empty(alloc, reload_refusal(alloc, fault))
}

// Reports the reload in the log, and on standard error if the configuration lacks principals.
fn tell_reloaded<'l, R: Wait + Clock + Eprint>(
    context: &ServiceContext<'l, R>,
    table: &Table,
    lacked: &[Name],
) {
    let now = MachineClock::new(context.rt).now();
    let event = context.counters.lock(context.rt).reload(table);
    context.log.put_event(now, &event);
    if !lacked.is_empty() {
        context.log.tell(Notice::Lacked(lacked.len() as u64));
    }
}
