//! One history after the other.
ghost use Rattle.std.specs.Prelude.{◌≡◌, ◌<◌, ◌-◌, ◌^◌, IfOk, IfErr, Ok, IfSome, List, false, length, vec_len, is_some};
ghost use Rattle.chpw_changelog.specs.Pens.{opening_state, opening_table};
ghost use Rattle.chpw_book.specs.Starting.{IsNamed, table_of, workers_of};
ghost use Rattle.chpw_start.specs.Faults.{IsLate};
ghost use Rattle.chpw_desks.specs.Following.{DoesWhatIsDue};
ghost use Rattle.chpw_reload.specs.ReloadRuns.{GoesOn, IsServiceRun};
ghost use Rattle.chpw_desks.specs.Orders.{IsDueBy};
ghost use Rattle.chpw_desks.specs.ServiceRuns.{GoesOnBy, IsServed, RunsTo, new_passes};
ghost use Rattle.chpw_table.specs.declared.history.Entry.{Entry};
ghost use Rattle.chpw_desks.specs.Filled.{is_full_with};
ghost use Rattle.chpw_desks.specs.Tallies.{IsMismatch};
ghost use Rattle.chpw_start.specs.declared.fault.ServeFault.TheVariants.{Memory};

use crate::closing::{Left, abandon_refused, left_by};
use crate::compacting::compact;
use crate::context::ServiceContext;
use crate::keeping::keep_where_asked;
use crate::machine::Machine;
use crate::openings::{Opened, Opening, next_opening, start_desk};
use crate::orders::{AfterClose, Orders};
use crate::reloading::reload;
use crate::staff::ServiceWorker;
use crate::tallies::{report_expired, tell_rollover, tell_tally};
use chpw_book::{DeskName, Pass};
use chpw_journal::FileSink;
use chpw_logging::{LogLines, Logging};
use chpw_reactor::{Engine, EngineCrew, Seat};
use chpw_serve::WorkerWords;
use chpw_start::{Rules, ServeFault};
use chpw_table::{JournalSink, Table};
use chpw_workers::{AfterDesk, Context, MachineClock, NotStarted, Staff, close_desk, serve_desk};
use std::fs::{File, Files};
use std::marker::Brand;
use std::sync::Wait;
use std::time::Clock;

/// Answers the messages of the engine's connections at this desk, and then at one after the other, until none will come
/// any more. When a history is full, its desk is closed and the next one opens with the closed table; when the
/// configuration was reloaded, with the reload of it. The workers go from each desk to the next. The table of the last desk is
/// returned; before that it is left to the next start, in the resume file, if there is to be one.
#[tactic(auto, using(crate::proofs::ServiceRunLemmas::run_begins, crate::proofs::ServiceRunLemmas::run_leads))]
pub fn serve_histories<'a, 'h, 'l, D: DeskName + Send + Sync, R: Machine>(
    context: &'h ServiceContext<'l, R>,
    mut rules: Rules,
    workers: Vec<ServiceWorker<'h, 'l, R>>,
    first: Opened<D>,
) -> Result<Table, ServeFault<'a>>
    requires passes { length first.passes.items ≡ context.now.workers }
    requires workers { length workers.items ≡ context.now.workers }
    ensures served { IfOk result (RunsTo (is_some context.now.kdc.socket) context.now.options.now (opening_table D.root) first.passes.items rules
        workers.entry.items) }
    ensures histories { IfOk result (λ table. IsServiceRun (opening_state D.root) table) }
    ensures fault { IfErr result IsLate }
{
    let rt = context.rt;
    let mut reported = Reported {
        is_lost: false,
        expired: 0,
    };
    let Attended {
        mut served,
        workers: mut staff,
    } = attend_desk(context, &rules, workers, first, &mut reported)?;
    for _ in rt.forever() {
        if served.is_over {
            keep_where_asked(context, &served.table, &served.sink);
            return Ok(served.into_table(rt, &context.engine));
        }
        let opening = further_opening(context, &mut rules, served)?;
        let next = serve_history::<Brand, R>(context, &rules, staff, opening, &mut reported)?;
        let Attended {
            served: left,
            workers,
        } = next;
        served = left;
        staff = workers;
    }
    Ok(served.into_table(rt, &context.engine))
}

// What the next desk opens with: the closed table, or a reload of it when the configuration was reloaded.
#[tactic(auto, using(crate::proofs::ServiceRunLemmas::goes_on_itself, crate::proofs::ServiceRunLemmas::goes_on_by))]
fn further_opening<'a, 'l, R: Files<File = File> + Wait + Clock + Eprint + AllocGlobal>(
    context: &ServiceContext<'l, R>,
    rules: &mut Rules,
    served: Served,
) -> Result<Opening, ServeFault<'a>>
    ensures goes_on { IfOk result (λ next. GoesOn served.table.state (table_of next.unnamed).state) }
    ensures due { IfOk result (λ next. DoesWhatIsDue served.due served.table rules.old rules.new (table_of next.unnamed)) }
    ensures goes_on_by { IfSome served.due (IsDueBy context.now.options.now rules.old.text.items)
        → IfOk result (λ next. GoesOnBy context.now.options.now served.table rules.old (table_of next.unnamed) rules.new) }
    ensures workers { IfOk result (λ next. workers_of next.unnamed ≡ context.now.workers) }
    ensures fault { IfErr result (λ fault. fault ≡ Memory) }
{
    let Served {
        table,
        sink,
        due,
        is_over: _,
    } = served;
    match due {
        None => {
            tell_rollover(context, &table);
            next_opening(table, sink, context.workers)
        }
        Some(AfterClose::Reload(order, anew)) => {
            reload(context, rules, order, anew, table, sink)
        }
        Some(AfterClose::Compact(order, compaction)) => {
            compact(context, order, compaction, table, sink)
        }
    }
}

// What a closed desk left, what is due after it, and whether no more messages will come. The sink has room for one more
// failure, or the table is broken. It can't be dropped, since what is due can't.
struct Served {
    table: Table,
    sink: FileSink<File>,
    due: Option<AfterClose>,
    is_over: bool,
    ghost room: { table.state.broken ≡ false
        → ⟦<FileSink<File> as JournalSink>⟧.failed sink < 2 ^ 64 - 1 },
}

impl Served {
    // The table alone; the journal's file is closed, and what is due is given up.
    fn into_table<R: Wait>(self, rt: &R, engine: &Engine) -> Table
        ensures value { result ≡ self.table }
    {
        let Served {
            table,
            sink: _,
            due,
            is_over: _,
        } = self;
        give_up(rt, engine, Ok(due));
        table
    }
}

// What was due after a desk, if anything was, is not done: the service ends.
fn give_up<R: Wait>(rt: &R, engine: &Engine, due: Result<Option<AfterClose>, NotStarted>) {
    match due {
        Err(NotStarted) | Ok(None) => {}
        Ok(Some(due)) => due.give_up(rt, engine),
    }
}

/// What was reported on standard error so far.
#[derive(Clone, Copy, Drop)]
struct Reported {
    /// That a line can't be printed.
    is_lost: bool,
    /// How many messages had waited too long for their worker.
    expired: u32,
}

/// What is left of a service's desk.
type AfterServiceDesk<'h, 'l, D, R> = AfterDesk<
    D,
    FileSink<File>,
    Seat<'h, R>,
    Logging<LogLines<'l, R>>,
    MachineClock<'l, R>,
    WorkerWords,
>;

// What a closed desk left, and the workers that were there.
struct Attended<'h, 'l, R: Wait + Clock + Eprint> {
    served: Served,
    workers: Vec<ServiceWorker<'h, 'l, R>>,
}

// Serves at a desk of this name, with what it opens with.
fn serve_history<'a, 'h, 'l, D: DeskName + Send + Sync, R: Machine>(
    context: &'h ServiceContext<'l, R>,
    rules: &Rules,
    workers: Vec<ServiceWorker<'h, 'l, R>>,
    opening: Opening,
    reported: &mut Reported,
) -> Result<Attended<'h, 'l, R>, ServeFault<'a>>
    requires name { IsNamed opening.unnamed D.name D.parts D.book D.root D.workers }
    requires opening { workers_of opening.unnamed ≡ context.now.workers }
    requires workers { length workers.items ≡ context.now.workers }
    ensures served { IfOk result (λ left. (history : List Entry) × IsServed (is_some context.now.kdc.socket) rules.now (table_of opening.unnamed)
        (new_passes (length workers.entry.items)) workers.entry.items left.workers.items history left.served.table) }
    ensures due { IfOk result (λ left. IfSome left.served.due (IsDueBy context.now.options.now rules.now.text.items)) }
    ensures workers { IfOk result (λ left. length left.workers.items ≡ context.now.workers) }
    ensures fault { IfErr result IsLate }
{
    match start_desk::<D, R>(context.rt, opening) {
        Err(_) => Err(ServeFault::Memory),
        Ok(opened) => attend_desk(context, rules, workers, opened, reported),
    }
}

// Serves at a desk, closes it and prints what it did.
fn attend_desk<'a, 'h, 'l, D: DeskName + Send + Sync, R: Machine>(
    context: &'h ServiceContext<'l, R>,
    rules: &Rules,
    workers: Vec<ServiceWorker<'h, 'l, R>>,
    opened: Opened<D>,
    reported: &mut Reported,
) -> Result<Attended<'h, 'l, R>, ServeFault<'a>>
    requires passes { length opened.passes.items ≡ context.now.workers }
    requires workers { length workers.items ≡ context.now.workers }
    ensures served { IfOk result (λ left. (history : List Entry) × IsServed (is_some context.now.kdc.socket) rules.now (opening_table D.root)
        opened.passes.items workers.entry.items left.workers.items history left.served.table) }
    ensures due { IfOk result (λ left. IfSome left.served.due (IsDueBy context.now.options.now rules.now.text.items)) }
    ensures workers { IfOk result (λ left. length left.workers.items ≡ context.now.workers) }
    ensures fault { IfErr result IsLate }
{
    let (AfterDesk { closed, workers }, done) = serve_shift(context, rules, workers, opened);
    match closed {
        Err(refused) => {
            give_up(context.rt, &context.engine, done);
            Err(abandon_refused(context.rt, refused))
        }
        Ok(closed) => {
            let served = after_close(context, left_by(closed), done, reported)?;
            Ok(Attended { served, workers })
        }
    }
}

// Reports what was done at a desk that is closed, and passes on what is due then.
fn after_close<'a, 'l, R: Wait + Print + Eprint + AllocGlobal>(
    context: &ServiceContext<'l, R>,
    left: Left<FileSink<File>>,
    done: Result<Option<AfterClose>, NotStarted>,
    reported: &mut Reported,
) -> Result<Served, ServeFault<'a>>
    ensures table { IfOk result (λ served. served.table ≡ left.table) }
    ensures sink { IfOk result (λ served. served.sink ≡ left.sink) }
    ensures due { IfOk result (λ served. done ≡ Ok served.due) }
    ensures fault { IfErr result IsLate }
{
    let Left { tally, table, sink } = left;
    let rt = context.rt;
    let over = context.engine.is_over(rt);
    report_expired(
        context.log,
        context.engine.expired_count(rt),
        &mut reported.expired,
    );
    let last = over || done.is_err();
    if let Err(fault) = tell_tally(rt, context.log, tally, last, &mut reported.is_lost) {
        give_up(rt, &context.engine, done);
        return Err(fault);
    }
    match done {
        Err(NotStarted) => Err(ServeFault::Memory),
        Ok(due) => Ok(Served {
            table,
            sink,
            due,
            is_over: over,
        }),
    }
}

// Answers messages at a desk, unless a raise has taken the only entry that its history has room for, carries out orders
// meanwhile, and closes the desk. Returns also what is due then.
fn serve_shift<'h, 'l, D: DeskName + Send + Sync, R: Machine>(
    context: &'h ServiceContext<'l, R>,
    rules: &Rules,
    workers: Vec<ServiceWorker<'h, 'l, R>>,
    opened: Opened<D>,
) -> (
    AfterServiceDesk<'h, 'l, D, R>,
    Result<Option<AfterClose>, NotStarted>,
)
    requires paired { vec_len opened.passes ≡ vec_len workers }
    ensures served { IfOk result.0.closed (λ c. IsServed (is_some context.now.kdc.socket) rules.now (opening_table D.root)
        opened.passes.items workers.entry.items result.0.workers.items c.history.items c.table) }
    ensures refused { IfErr result.0.closed (λ r. IsMismatch (opening_state D.root) D.workers r.passes.items) }
    ensures due { IfOk result.1 (λ due. IfSome due (IsDueBy context.now.options.now rules.now.text.items)) }
{
    let Opened { desk, passes } = opened;
    let rt = context.rt;
    let crew = EngineCrew {
        rt,
        engine: &context.engine,
    };
    let desk_context = Context {
        alloc: rt.alloc(),
        service: &rules.service,
        has_kdc: context.kdc.socket.is_some(),
        crew: &crew,
        room: Some(rules.max_entries),
    };
    if is_full(&passes, rules.max_entries) {
        let left = close_desk(rt, &desk_context, desk, Staff { passes, workers });
        return (left, Ok(None));
    }
    context.engine.start(rt);
    let orders = Orders {
        context,
        in_force: &rules.text,
    };
    serve_desk(rt, &desk_context, desk, Staff { passes, workers }, orders)
}

// Whether the first pass has as many receipts as a history may have entries.
fn is_full<D: DeskName>(passes: &[Pass<D>], max_entries: u32) -> bool
    ensures value { result ≡ is_full_with passes.now max_entries }
{
    match passes.first() {
        None => false,
        Some(pass) => pass.receipts().len() as u64 >= u64::from(max_entries),
    }
}
