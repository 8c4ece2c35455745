//! Replacing the journal by a compact one.
ghost use Rattle.std.specs.Prelude.{◌≡◌, ◌≢◌, ◌<◌, ◌-◌, ◌^◌, OnOk, IfOk, IfErr, false};
ghost use Rattle.chpw_book.specs.Starting.{table_of, workers_of};
ghost use Rattle.chpw_reload.specs.Compacting.{GoesWith};
ghost use Rattle.chpw_orders.specs.Answers.{replaced_lines, Tells};
ghost use Rattle.chpw_desks.specs.Following.{reopened};
ghost use Rattle.chpw_orders.specs.Replacing.{text_behind};
ghost use Rattle.chpw_orders.specs.declared.replacing.NotReplaced.TheVariants.{Unsafe};
ghost use Rattle.chpw_start.specs.declared.fault.ServeFault.TheVariants.{Memory};

use crate::context::ServiceContext;
use crate::openings::{Opening, next_opening};
use crate::tallies::tell_rollover;
use chpw_control::TakenOrder;
use chpw_journal::FileSink;
use chpw_orders::{
    Compaction, JournalAt, JournalPlace, NotReplaced, answer_or_empty, compact_answer, go_on_in,
    text_to_write,
};
use chpw_start::ServeFault;
use chpw_table::{JournalSink, Table};
use std::alloc::Global;
use std::fs::{self, File, Files};
use std::sync::Wait;
use std::time::Clock;

/// What the next desk opens with: the closed table, and a compact journal in place of the present one; or that journal,
/// if there is no compact one. The order is answered.
pub(crate) fn compact<'a, 'l, R: Files<File = File> + Wait + Clock + Eprint + AllocGlobal>(
    context: &ServiceContext<'l, R>,
    order: TakenOrder,
    compaction: Compaction,
    table: Table,
    mut sink: FileSink<File>,
) -> Result<Opening, ServeFault<'a>>
    requires room { table.state.broken ≡ false
        → ⟦<FileSink<File> as JournalSink>⟧.failed sink < 2 ^ 64 - 1 }
    ensures table { IfOk result (λ next. table_of next.unnamed ≡ reopened table) }
    ensures workers { IfOk result (λ next. workers_of next.unnamed ≡ context.now.workers) }
    ensures fault { IfErr result (λ fault. fault ≡ Memory) }
{
    tell_rollover(context, &table);
    let rt = context.rt;
    let mut place = JournalAt {
        rt,
        path: context.options.journal,
    };
    let replaced = replace(context, &mut place, &compaction, &table, &mut sink);
    if !matches!(replaced, Ok(()) | Err(NotReplaced::Unsafe)) {
        let _ = fs::remove_file(rt, compaction.copy.as_str());
    }
    let answer = replaced_answer(rt.alloc(), context.options.journal, replaced);
    context.engine.answer_order(rt, order, answer);
    next_opening(table, sink, context.workers)
}

// The answer to the order: whether a compact journal has replaced the one at this path.
fn replaced_answer(alloc: Global, path: &str, replaced: Result<(), NotReplaced>) -> Vec<u8>
    ensures tells { Tells (replaced_lines path.now replaced) result.items }
{
    answer_or_empty(alloc, compact_answer(alloc, path, replaced))
}

// Replaces the present journal by a compact one.
fn replace<'l, R: Wait + Clock + Eprint + AllocGlobal, P: JournalPlace>(
    context: &ServiceContext<'l, R>,
    place: &mut P,
    compaction: &Compaction,
    held: &Table,
    sink: &mut FileSink<File>,
) -> Result<(), NotReplaced>
    ensures written { OnOk result (P.takes place.old (text_behind compaction.now.heading.items compaction.now.base.state held.now.state) place.new) }
    ensures goes_with { OnOk result (GoesWith compaction.now.base.state held.now.state) }
    ensures safe { OnOk result (sink.new.is_unsafe ≡ false) }
    ensures unchanged { IfErr result (λ why. why ≢ Unsafe → sink.new ≡ sink.old) }
    ensures failed { ⟦<FileSink<File> as JournalSink>⟧.failed sink.new ≡ ⟦<FileSink<File> as JournalSink>⟧.failed sink.old }
{
    let present = context.journal.bytes();
    let Compaction { base, heading, .. } = compaction;
    let text = match text_to_write(
        context.rt.alloc(),
        context.log.has_failed(),
        present,
        heading,
        base,
        held,
    ) {
        Ok(text) => text,
        Err(why) => return Err(why),
    };
    let Ok(new) = place.replace(&text) else {
        return Err(NotReplaced::Unwritten);
    };
    go_on_in(sink, new, text.len() as u64)
}
