//! The service's threads: the reactor, and the one that serves at the desks.
ghost use Rattle.std.specs.Prelude.{◌≡◌, ◌⊎◌, IfErr, IfOk, IfSome, IsSome, true, IsSomeAnd, None, Ok, OnOk, OnErr, length, is_some};
ghost use Rattle.chpw_changelog.specs.Pens.{opening_state, opening_table};
ghost use Rattle.chpw_reload.specs.ReloadRuns.{IsServiceRun};
ghost use Rattle.chpw_start.specs.Faults.{IsLate};
ghost use Rattle.chpw_host.specs.Faults.{told_as};
ghost use Rattle.chpw_desks.specs.ServiceRuns.{RunsTo};
ghost use Rattle.chpw_service.specs.WholeRuns.{IsServedByNewWorkers};
ghost use Rattle.chpw_logging.specs.declared.logging.LogLines.{LogLines};
ghost use Rattle.rand_chacha.specs.ChaCha.{key_of};
ghost use Rattle.chpw_table.specs.Agreement.{Held};

use crate::kdc::{ControlTerms, SocketKdc};
use chpw_book::DeskName;
use chpw_desks::{Machine, Opened, ServiceContext, ServiceWorker, make_staff, serve_histories};
use chpw_host::{LateFault, limit_of};
use chpw_reactor::{KdcTerms, Pool, StatusReporter};
use chpw_sockets::PoolFault;
use chpw_start::{Rules, ServeFault};
use chpw_table::Table;
use chpw_transfers::AcceptLimit;
use std::net::TcpListener;
use std::sync::Wait;
use std::thread;
use std::time::Clock;

/// Serves from the first desk on, until no more messages will come. That desk is abandoned if memory for its workers, or a
/// thread for the sockets, is missing.
pub(crate) fn serve_from<'a, 'h, 'l, D: DeskName + Send + Sync, R: Machine>(
    context: &'h ServiceContext<'l, R>,
    listeners: &[TcpListener],
    control: ControlTerms,
    rules: Rules,
    first: Opened<D>,
    seed: [u8; 32],
) -> Result<(), ServeFault<'a>>
where
    R::Dir: Send + Sync,
    requires passes { length first.passes.items ≡ context.now.workers }
    ensures served { OnOk result (IsServedByNewWorkers R (LogLines R) (is_some context.now.kdc.socket) context.now.options.now (key_of seed)
        context.now.workers (opening_table D.root) first.passes.items rules) }
    ensures fault { IfErr result IsLate }
{
    let reception = Reception {
        listeners,
        connections: limit_of(context.options.connections),
        kdc: SocketKdc::of(context, control),
    };
    let mut first = Some(first);
    let ended = serve_with_staff(context, reception, rules, &mut first, seed);
    match first {
        None => {}
        Some(Opened { desk, passes }) => {
            desk.abandon(context.rt);
            drop(passes);
        }
    }
    ended
}

// What the reactor attends to: the connections of these listeners, as many as are wanted, and the KDC and the control
// socket.
#[derive(Drop)]
struct Reception<'s, F> {
    listeners: &'s [TcpListener],
    connections: AcceptLimit,
    kdc: F,
}

// Makes the workers, and serves with them.
#[tactic(auto, using(crate::proofs::WholeRunLemmas::by_new_workers))]
fn serve_with_staff<
    'a,
    'h,
    'l,
    's,
    D: DeskName + Send + Sync,
    R: Machine,
    F: KdcTerms + StatusReporter + Send + Drop,
>(
    context: &'h ServiceContext<'l, R>,
    reception: Reception<'s, F>,
    rules: Rules,
    first: &mut Option<Opened<D>>,
    seed: [u8; 32],
) -> Result<(), ServeFault<'a>>
    requires passes { IfSome first.old (λ opened. length opened.passes.items ≡ context.now.workers) }
    ensures served { OnOk result (IfSome first.old (λ opened. IsServedByNewWorkers R (LogLines R) (is_some context.now.kdc.socket) context.now.options.now
        (key_of seed) context.now.workers (opening_table D.root) opened.passes.items rules)) }
    ensures fault { IfErr result IsLate }
{
    match make_staff(context, seed) {
        Err(_) => Err(ServeFault::Memory),
        Ok(workers) => serve_all(context, reception, rules, workers, first),
    }
}

// The reactor in a thread of its own, while this one serves at one desk after the other.
#[tactic(auto, using(crate::proofs::RunningLemmas::well_ended))]
fn serve_all<
    'a,
    'h,
    'l,
    's,
    D: DeskName + Send + Sync,
    R: Machine,
    F: KdcTerms + StatusReporter + Send + Drop,
>(
    context: &'h ServiceContext<'l, R>,
    reception: Reception<'s, F>,
    rules: Rules,
    workers: Vec<ServiceWorker<'h, 'l, R>>,
    first: &mut Option<Opened<D>>,
) -> Result<(), ServeFault<'a>>
    requires passes { IfSome first.old (λ opened. length opened.passes.items ≡ context.now.workers) }
    requires workers { length workers.items ≡ context.now.workers }
    ensures served { OnOk result (IfSome first.old (λ opened. (table : Held) × RunsTo (is_some context.now.kdc.socket) context.now.options.now
        (opening_table D.root) opened.passes.items rules workers.entry.items table)) }
    ensures fault { IfErr result IsLate }
{
    let Reception {
        listeners,
        connections,
        kdc,
    } = reception;
    let rt = context.rt;
    let ended = thread::scope(
        thread::scope_env(),
        rt,
        move |scope| -> Result<Option<Table>, LateFault>
            requires { IfSome first.now (λ opened. length opened.passes.items ≡ context.now.workers) × (length workers.items ≡ context.now.workers) }
            ensures { OnOk result (IfSome first.entry.now (λ opened. (table : Held) × RunsTo (is_some context.entry.now.kdc.socket)
                context.entry.now.options.now (opening_table D.root) opened.passes.items rules workers.entry.items table)) }
        {
            let engine = &context.engine;
            if scope
                .spawn(move || engine.react(rt, listeners, connections, kdc))
                .is_err()
            {
                return Err(LateFault::Memory);
            }
            serve_or_desert(context, rules, workers, first)
        },
    );
    finish(context, ended, connections)
}

// How the service ended: with the fault of its desks, or else with that of its pool.
fn finish<'a, 'l, R: Wait + Eprint>(
    context: &ServiceContext<'l, R>,
    ended: Result<Option<Table>, LateFault>,
    connections: AcceptLimit,
) -> Result<(), ServeFault<'a>>
    ensures late { IfErr ended (λ late. OnOk result ⊥) }
    ensures fault { IfErr result IsLate }
{
    match ended {
        Ok(_) => {
            let was_stopped = context.engine.was_stopped(context.rt);
            end(was_stopped, context.engine.outcome(context.rt, connections))
        }
        Err(late) => Err(late.fault()),
    }
}

// Serves at one desk after the other, and returns the table of the last one; none if there is no first one. After a
// fault nobody is left to answer, and all connections end.
fn serve_or_desert<'h, 'l, D: DeskName + Send + Sync, R: Machine>(
    context: &'h ServiceContext<'l, R>,
    rules: Rules,
    workers: Vec<ServiceWorker<'h, 'l, R>>,
    first: &mut Option<Opened<D>>,
) -> Result<Option<Table>, LateFault>
    requires passes { IfSome first.old (λ opened. length opened.passes.items ≡ context.now.workers) }
    requires workers { length workers.items ≡ context.now.workers }
    ensures taken { first.new ≡ None }
    ensures none { first.old ≡ None → result ≡ Ok None }
    ensures served { IfSome first.old (λ opened. IfOk result (λ table. IsSomeAnd table
        (RunsTo (is_some context.now.kdc.socket) context.now.options.now (opening_table D.root) opened.passes.items rules workers.entry.items))) }
    ensures left { OnOk result (IfSome first.old (λ opened. (table : Held) × RunsTo (is_some context.now.kdc.socket) context.now.options.now
        (opening_table D.root) opened.passes.items rules workers.entry.items table)) }
    ensures histories { IsSome first.old → IfOk result (λ table. IsSomeAnd table (IsServiceRun (opening_state D.root))) }
{
    let Some(opened) = first.take() else {
        return Ok(None);
    };
    match serve_histories(context, rules, workers, opened) {
        Ok(table) => Ok(Some(table)),
        Err(fault) => {
            context.engine.desert(context.rt);
            Err(LateFault::of(fault))
        }
    }
}

// The fault with which a pool ended early, unless it was told to stop.
fn end<'a>(was_stopped: bool, pool: Pool) -> Result<(), ServeFault<'a>>
    ensures whole { OnOk result ((was_stopped ≡ true) ⊎ (pool.fault ≡ None)) }
    ensures stopped { was_stopped ≡ true → OnErr result ⊥ }
    ensures none { pool.fault ≡ None → OnErr result ⊥ }
    ensures fault { IfErr result (λ fault.
        IfSome pool.fault (λ why. fault ≡ told_as why)) }
    ensures late { IfErr result IsLate }
{
    match pool.fault {
        Some(fault) if !was_stopped => Err(serve_fault_of(fault)),
        _ => Ok(()),
    }
}

/// The fault of a pool that ended early, as a fault of the service.
pub(crate) fn serve_fault_of<'a>(fault: PoolFault) -> ServeFault<'a>
    ensures value { result ≡ told_as fault }
    ensures late { IsLate result }
{
    match fault {
        PoolFault::Accept => ServeFault::CannotListen,
        PoolFault::Start | PoolFault::Memory => ServeFault::Memory,
    }
}
