//! The service on a port.
ghost use Rattle.std.specs.Prelude.{◌≡◌, ◌≤◌, ◌<◌, ℕ, IfOk, IfErr, IfSome, IsSome, None, Ok, OnOk, Option, false, is_some, true, length};
ghost use Rattle.chpw_book.specs.Starting.{IsNamed, table_of, workers_of};
ghost use Rattle.chpw_kdc.specs.Dialogs.{at_start};
ghost use Rattle.chpw_reactor.specs.Engines.{workers_at};
ghost use Rattle.chpw_reactor.specs.Tasks.{IsTableTold};
ghost use Rattle.chpw_start.specs.Faults.{IsLate};
ghost use Rattle.chpw_host.specs.Faults.{IsOfService};
ghost use Rattle.chpw_changelog.specs.Pens.{opening_state};
ghost use Rattle.chpw_start.specs.Raised.{IsRaisedWhereAsked};
ghost use Rattle.chpw_start.specs.Rules.{AreRulesOf};
ghost use Rattle.chpw_table.specs.Times.{IsMoment};
ghost use Rattle.chpw_rules.specs.Fitting.{config_fits};
ghost use Rattle.chpw_host.specs.Serving.{reach_asked};
ghost use Rattle.chpw_start.specs.declared.raising.RaiseReport.{RaiseReport};
ghost use Rattle.chpw_service.specs.WholeRuns.{IsServedFrom, IsWholeRun};
ghost use Rattle.chpw_logging.specs.declared.logging.LogLines.{LogLines};
ghost use Rattle.rand_chacha.specs.ChaCha.{key_of};

use crate::kdc::ControlTerms;
use crate::opening::{OpenJournal, Settings, open_journal, settings_of};
use crate::running::{serve_fault_of, serve_from};
use chpw_book::{Desk, DeskName, Pass};
use chpw_desks::{
    JournalLength, KdcPlace, Machine, Opened, Opening, ServiceContext, first_opening, start_desk,
};
use chpw_host::{
    BoundSockets, bind, control_socket, limits_of, notify_ready, notify_stopping, take_away,
};
use chpw_invocation::ServeOptions;
use chpw_journal::FileSink;
use chpw_logging::{Counters, Log, Notice, log_of, time_of};
use chpw_printing::put_time;
use chpw_reactor::{Engine, dialog_with};
use chpw_rules::NamePatterns;
use chpw_serve::{Clock as _, Messages as _};
use chpw_sockets::DatagramSockets;
use chpw_start::{
    RaiseReport, Rules, ServeFault, is_shared, own_ids, raise_where_asked, standing_at,
};
use chpw_table::{JournalSink, LAST_SECOND, Moment, Table};
use chpw_transfers::KdcSide;
use chpw_workers::MachineClock;
use mio::net::UnixListener;
use std::alloc::Global;
use std::fs::{File, Files};
use std::marker::Brand;
use std::net::{Net, SocketAddr, TcpListener, TcpStream};
use std::rt::Env;
use std::str;
use std::sync::{Mutex, Wait};
use std::time::Clock;

/// Serves as many connections as asked for at its addresses, the messages of connection i (from 0) by worker i modulo their
/// number, one after the other. The configuration is read first, then the seed; with strict modes the start is refused then if
/// others may read, write or replace its files, and where the journal must exist, if it doesn't; then the log is opened if
/// there is one, its addresses are bound, and the journal is read; then what a clean end left in the resume file is taken
/// over, if there is one and it fits; then the iteration count of new keys is raised if that is asked for, and the service
/// listens. A torn tail that was cut off the journal is reported on standard error. Printed are the result of the raise,
/// `listening on ADDRESS:PORT` for each address before a connection is accepted, when the service manager is told too, and
/// `entries N changes N` for each history: when one is full, its desk is closed, and the next one opens with the closed
/// table and its used ids. With a control socket it carries out the commands that come there, and ends when told to stop.
pub fn serve<'a, R: Machine>(rt: &R, options: ServeOptions<'a>) -> Result<(), ServeFault<'a>>
where
    R::Dir: Send + Sync,
    ensures run { OnOk result (IsWholeRun R (LogLines R) options.entry) }
    ensures fault { IfErr result (IsOfService options.entry) }
{
    let settings = settings_of(rt, &options)?;
    let log = log_of(rt, rt.alloc(), &options)?;
    serve_with(rt, &options, &log, settings)
}

/// What a service has once its files, its sockets and its journal are open.
#[derive(Drop)]
struct Ready {
    rules: Rules,
    names: NamePatterns,
    seed: [u8; 32],
    sockets: BoundSockets,
    control: Option<UnixListener>,
    journal: OpenJournal,
}

// Takes its ports, opens the journal, then the control socket, and serves.
fn serve_with<'a, 'l, R: Machine>(
    rt: &'l R,
    options: &'l ServeOptions<'a>,
    log: &'l Log<'l, R>,
    settings: Settings,
) -> Result<(), ServeFault<'a>>
where
    R::Dir: Send + Sync,
    requires fits { config_fits settings.config ≡ true }
    requires rules { AreRulesOf settings.config options.now settings.rules }
    ensures run { OnOk result (IsWholeRun R (LogLines R) options.now) }
    ensures fault { IfErr result (IsOfService options.now) }
{
    let Settings {
        config,
        rules,
        names,
        seed,
    } = settings;
    let sockets = bind(rt, options, rules.service.realm())?;
    let mut clock = MachineClock::new(rt);
    let journal = open_journal(rt, log, options, config, &mut clock)?;
    tell_shared(rt, log, options);
    let control = control_socket(rt, options.control)?;
    let ready = Ready {
        rules,
        names,
        seed,
        sockets,
        control,
        journal,
    };
    serve_ready(rt, options, log, ready, &mut clock)
}

// Serves with what is open, and tells of the beginning and of the end.
fn serve_ready<'a, 'l, R: Machine>(
    rt: &'l R,
    options: &'l ServeOptions<'l>,
    log: &'l Log<'l, R>,
    ready: Ready,
    clock: &mut MachineClock<'_, R>,
) -> Result<(), ServeFault<'a>>
where
    R::Dir: Send + Sync,
    requires fresh { ⟦<FileSink<File> as JournalSink>⟧.failed ready.journal.sink ≡ 0 }
    ensures served { OnOk result ((since : Moment) × IsServedFrom R (LogLines R) options.now (key_of ready.seed)
        ready.journal.table ready.rules since) }
    ensures fault { IfErr result IsLate }
{
    let Ready {
        rules,
        names,
        seed,
        sockets,
        control,
        journal: OpenJournal {
            table,
            sink,
            length,
        },
    } = ready;
    let counters = Mutex::new(Counters::default());
    let since = clock.now();
    tell_start(rt, log, &counters, since, &table);
    let kdc = kdc_side(rt, options, &table, names);
    let opening = first_opening(table, sink, options.workers);
    let service = Start {
        rt: &*rt,
        options: &*options,
        seed,
        log: &*log,
        counters: &counters,
        journal: length,
        kdc,
        sockets,
    };
    let terms = ControlTerms {
        listener: control,
        since: time_of(since),
        workers: options.workers,
    };
    let ended = serve_opened::<Brand, R>(service, terms, rules, opening, clock);
    notify_stopping(rt);
    take_away(rt, options.control);
    let last = counters.lock(rt).end();
    log.end(clock.now(), &last);
    ended
}

// The service's side of the KDC, if there is one: a dialog that begins now, over the table that the service opens with; the names
// that the configuration says are the service's; and whether the KDC has to be in reach for a change.
fn kdc_side<R: Clock + AllocGlobal>(
    rt: &R,
    options: &ServeOptions<'_>,
    table: &Table,
    names: NamePatterns,
) -> Option<KdcSide>
    ensures asked { is_some result ≡ is_some options.now.kdc }
    ensures dialog { IfSome result (λ side. (now : ℕ) × IsTableTold table.now.state (at_start now) side.dialog) }
    ensures names { IfSome result (λ side. side.names ≡ names) }
    ensures reach { IfSome result (λ side. side.reach ≡ reach_asked options.now.require_kdc options.now.kdc_wait) }
{
    options.kdc?;
    Some(KdcSide {
        dialog: dialog_with(rt, table),
        names,
        reach: reach_asked(options.require_kdc, options.kdc_wait),
    })
}

// The milliseconds within which the KDC has to get each change, if that is asked for.
fn reach_asked(is_asked: bool, wait: u32) -> Option<u64>
    ensures value { result ≡ reach_asked is_asked wait }
{
    if is_asked {
        Some(u64::from(wait))
    } else {
        None
    }
}

// Appends the line of the start, and reports until when requests are refused, if they are.
fn tell_start<R: Wait + Eprint + AllocGlobal>(
    rt: &R,
    log: &Log<'_, R>,
    counters: &Mutex<Counters>,
    now: Moment,
    table: &Table,
)
    requires moment { IsMoment now }
    requires micros { now.micros < 1000000 }
{
    let started = counters.lock(rt).start(now, table);
    log.put_event(now, &started);
    tell_quiet(rt.alloc(), log, now, table);
}

// Reports until when requests are refused, if they are at this moment.
fn tell_quiet<R: Wait + Eprint>(alloc: Global, log: &Log<'_, R>, now: Moment, table: &Table) {
    let until = table.quiet_until();
    if until < now.seconds || !(0..=LAST_SECOND).contains(&until) {
        return;
    }
    let mut text = Vec::new(alloc);
    if put_time(&mut text, until, 0).is_ok() {
        if let Ok(text) = str::from_utf8(&text) {
            log.tell(Notice::Quiet(text));
        }
    }
}

// Reports which of its files others may read or write.
fn tell_shared<R: Files + Wait + Eprint>(rt: &R, log: &Log<'_, R>, options: &ServeOptions<'_>) {
    for file in [options.config, options.seed, options.journal] {
        if is_shared(own_ids(), standing_at(rt, file)) {
            log.tell(Notice::Shared(file));
        }
    }
}

/// What a service starts with, beside its table and its rules.
#[derive(Drop)]
struct Start<'l, R> {
    rt: &'l R,
    options: &'l ServeOptions<'l>,
    seed: [u8; 32],
    log: &'l Log<'l, R>,
    counters: &'l Mutex<Counters>,
    journal: JournalLength,
    kdc: Option<KdcSide>,
    sockets: BoundSockets,
}

// Serves what is opened: at the first desk the count is raised if that is asked for, and then the service listens at
// the port.
#[tactic(auto, using(crate::proofs::RaisedLemmas::raised_in_order))]
fn serve_opened<'a, 'l, D: DeskName + Send + Sync, R: Machine>(
    start: Start<'l, R>,
    control: ControlTerms,
    rules: Rules,
    opening: Opening,
    clock: &mut MachineClock<'_, R>,
) -> Result<(), ServeFault<'a>>
where
    R::Dir: Send + Sync,
    requires name { IsNamed opening.unnamed D.name D.parts D.book D.root D.workers }
    requires workers { workers_of opening.unnamed ≡ start.options.now.workers }
    ensures served { OnOk result (IsServedFrom R (LogLines R) start.entry.options.now (key_of start.entry.seed)
        (table_of opening.unnamed) rules clock.old) }
    ensures fault { IfErr result IsLate }
{
    let Ok(Opened { desk, mut passes }) = start_desk::<D, R>(start.rt, opening) else {
        return Err(ServeFault::Memory);
    };
    let rt = start.rt;
    let seed = start.seed;
    match raise_and_listen(start, &desk, &mut passes, clock) {
        Ok((listeners, context)) => {
            let first = Opened { desk, passes };
            serve_from(&context, &listeners, control, rules, first, seed)
        }
        Err(fault) => {
            desk.abandon(rt);
            Err(fault)
        }
    }
}

// Raises the count if that is asked for, and then listens at the port.
fn raise_and_listen<
    'a,
    'l,
    D: DeskName,
    R: Net<Listener = TcpListener, Stream = TcpStream>
        + Wait
        + Clock
        + Env
        + Print
        + Eprint
        + AllocGlobal,
    C: chpw_serve::Clock,
>(
    start: Start<'l, R>,
    desk: &Desk<D, FileSink<File>>,
    passes: &mut [Pass<D>],
    clock: &mut C,
) -> Result<(Vec<TcpListener>, ServiceContext<'l, R>), ServeFault<'a>>
    ensures workers { IfOk result (λ r. r.1.workers ≡ start.entry.options.now.workers) }
    ensures options { IfOk result (λ r. r.1.options.now ≡ start.entry.options.now) }
    ensures kdc { IfOk result (λ r. (r.1.kdc.socket ≡ start.entry.options.now.kdc)
        × (r.1.kdc.wait ≡ start.entry.options.now.kdc_wait)) }
    ensures raised { OnOk result ((told : Option RaiseReport) × IsRaisedWhereAsked C.gives (opening_state D.root)
        clock.old clock.new passes.old passes.new start.entry.options.now.raise told) }
    ensures passes { length passes.new ≡ length passes.old }
    ensures fault { IfErr result IsLate }
{
    if let Some(told) = raise_where_asked(start.rt, desk, passes, clock, start.options.raise)? {
        tell_raise(&start, told);
    }
    listening(start)
}

// Appends the line of a raise if the count was raised, and reports it if the journal did not take it.
fn tell_raise<R: Wait + Clock + Eprint>(start: &Start<'_, R>, told: RaiseReport) {
    let now = MachineClock::new(start.rt).now();
    let raised = start.counters.lock(start.rt).raise(told);
    if let Some(event) = raised {
        start.log.put_event(now, &event);
    }
    if matches!(told, RaiseReport::Broken) {
        start.log.tell_failed(now);
    }
}

// Listens, and prints at which addresses.
fn listening<
    'a,
    'l,
    R: Net<Listener = TcpListener, Stream = TcpStream> + Wait + Env + Print + Eprint + AllocGlobal,
>(start: Start<'l, R>) -> Result<(Vec<TcpListener>, ServiceContext<'l, R>), ServeFault<'a>>
    ensures workers { IfOk result (λ r. r.1.workers ≡ start.entry.options.now.workers) }
    ensures options { IfOk result (λ r. r.1.options.now ≡ start.entry.options.now) }
    ensures kdc { IfOk result (λ r. (r.1.kdc.socket ≡ start.entry.options.now.kdc)
        × (r.1.kdc.wait ≡ start.entry.options.now.kdc_wait)) }
    ensures fault { IfErr result IsLate }
{
    let Start {
        rt,
        options,
        seed: _,
        log,
        counters,
        journal,
        kdc,
        sockets: BoundSockets {
            listeners,
            datagrams,
        },
    } = start;
    let engine = engine_of(rt, options, datagrams, kdc)?;
    let context = ServiceContext {
        rt,
        engine,
        workers: options.workers,
        log,
        counters,
        journal,
        kdc: KdcPlace {
            socket: options.kdc,
            wait: options.kdc_wait,
        },
        options,
    };
    for address in options.listen.as_slice() {
        let place = SocketAddr::new(*address, options.port);
        if println!(rt; "listening on {place}").is_err() {
            return Err(ServeFault::CannotPrint);
        }
    }
    notify_ready(rt, context.log);
    Ok((listeners, context))
}

// The engine, with a queue for each worker.
fn engine_of<'a, R: Net + AllocGlobal>(
    rt: &R,
    options: &ServeOptions<'_>,
    datagrams: Option<DatagramSockets>,
    kdc: Option<KdcSide>,
) -> Result<Engine, ServeFault<'a>>
    ensures workers { IfOk result (λ engine. workers_at engine ≡ options.now.workers) }
    ensures fault { IfErr result IsLate }
{
    let limits = limits_of(options);
    let workers = usize::from(options.workers);
    match Engine::of(rt, rt.alloc(), limits, workers, datagrams, kdc) {
        Err(fault) => Err(serve_fault_of(fault)),
        Ok(engine) => Ok(engine),
    }
}
