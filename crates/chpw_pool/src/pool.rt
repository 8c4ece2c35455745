//! For programs of cases alone: workers at one desk. The service doesn't call this.
ghost use Rattle.std.specs.Prelude.{◌≡◌, ◌≢◌, ◌<◌, length, IfOk, None, Some};
ghost use denote.Param.Send.{IsSend, IsSync};
ghost use Rattle.rand_chacha.specs.ChaCha.{key_of};
ghost use Rattle.chpw_serve.specs.WordStreams.{GivesFromTheFirst, stream_start};
ghost use Rattle.chpw_reactor.specs.Pools.{Ends};
ghost use Rattle.chpw_pool.specs.PoolWorkers.{AreWorkersOf};
ghost use Rattle.chpw_transfers.specs.declared.accept_limit.AcceptLimit.TheVariants as limit;

use crate::unattended::Unattended;
use chpw_book::{Desk, DeskName, Pass};
use chpw_connections::ConnectionLimits;
use chpw_reactor::{Engine, EngineCrew, Pool, Seat, outcome_of};
use chpw_serve::{Messages, NoGate, WorkerWords};
use chpw_sockets::PoolFault;
use chpw_table::JournalSink;
use chpw_transfers::AcceptLimit;
use chpw_workers::{Context, Crew, MachineClock, NotStarted, Worker, serve_at};
use std::alloc::{AllocError, Global};
use std::net::{Net, TcpListener};
use std::sync::Wait;
use std::thread::{Scope, Threads};
use std::{slice, thread, time};

/// A worker of a pool: its place at the engine, the machine's clock, and its words.
type PoolWorker<'a, R> = Worker<Seat<'a, R>, NoGate, MachineClock<'a, R>, WorkerWords>;

/// What all workers of a pool answer with.
type PoolContext<'a, R, M> = Context<'a, M, EngineCrew<'a, R>>;

/// What a pool's connections hold, and for how long: the defaults of `serve`.
const LIMITS: ConnectionLimits = ConnectionLimits {
    connections: 1_024,
    per_peer: 256,
    bytes: 33_554_432,
    idle: 30_000,
    grace: 1_000,
    wait: 5_000,
    linger: 1_000,
};

/// For programs of cases alone: serves this many connections at a desk, the messages of connection i (from 0) by worker i
/// modulo their number, one after the other; a worker draws its words from the stream of its own number, and its moments
/// from the machine's clock. A connection's next message is read once the reply before it is written. It has the default
/// bounds of `serve`. It returns when each connection has ended, or, after a fault, those before it; each
/// thread has ended then.
pub fn run_pool<
    R: Threads + Wait + Net + time::Clock + Sync,
    M: Messages + Sync,
    D: DeskName + Send + Sync,
    S: JournalSink + Send,
>(
    rt: &R,
    alloc: Global,
    listener: &TcpListener,
    service: &M,
    desk: &Desk<D, S>,
    passes: &mut [Pass<D>],
    seed: [u8; 32],
    connections: u32,
) -> Pool
    requires passes { 0 < length passes.old }
    ensures ends { Ends (limit.Of connections) result }
{
    let wanted = AcceptLimit::Of(u64::from(connections));
    let engine = match Engine::of(rt, alloc, LIMITS, passes.len(), None, None) {
        Err(fault) => return failed_pool(fault, wanted),
        Ok(engine) => engine,
    };
    let Ok(workers) = workers_of(&*rt, alloc, &engine, seed, passes) else {
        return failed_pool(PoolFault::Memory, wanted);
    };
    let context = Context {
        alloc,
        service: &*service,
        has_kdc: false,
        crew: &EngineCrew {
            rt: &*rt,
            engine: &engine,
        },
        room: None,
    };
    let listeners = slice::from_ref(listener);
    match run_workers(&*rt, &context, &*desk, passes, workers, listeners, wanted) {
        Err(NotStarted) => failed_pool(PoolFault::Start, wanted),
        Ok(()) => engine.outcome(rt, wanted),
    }
}

// No connection was accepted.
fn failed_pool(fault: PoolFault, connections: AcceptLimit) -> Pool
    ensures ends { Ends connections result }
    ensures fault { fault ≢ PoolFault.Accept → result ≡ record { served = 0; fault = Some fault } }
{
    match fault {
        PoolFault::Accept => outcome_of(0, connections),
        PoolFault::Start | PoolFault::Memory => Pool {
            served: 0,
            fault: Some(fault),
        },
    }
}

// The worker of each pass.
fn workers_of<'a, R: time::Clock, D: DeskName>(
    rt: &'a R,
    alloc: Global,
    engine: &'a Engine,
    seed: [u8; 32],
    passes: &[Pass<D>],
) -> Result<Vec<PoolWorker<'a, R>>, AllocError>
    ensures each { IfOk result (λ v. AreWorkersOf (key_of seed) passes.now v.items) }
{
    let mut workers = Vec::with_capacity(alloc, passes.len())?;
    for pass in passes {
        let number = workers.len();
        workers.push(Worker {
            inbox: Seat::new(rt, engine, number),
            gate: NoGate,
            clock: MachineClock::new(rt),
            words: words_of(seed, pass),
        })?;
    }
    Ok(workers)
}

// The words of a pass's worker: the stream of its number.
fn words_of<D: DeskName>(seed: [u8; 32], pass: &Pass<D>) -> WorkerWords
    ensures start { result ≡ stream_start (key_of seed) pass.now.worker }
    ensures in_turn { GivesFromTheFirst (key_of seed) pass.now.worker result }
{
    WorkerWords::new(seed, u64::from(pass.worker()))
}

// A thread for each pass and its worker, while this one is the reactor, for this many connections of the listeners. It returns
// once they have ended.
fn run_workers<
    'a,
    R: Threads + Wait + time::Clock + Sync,
    M: Messages + Sync,
    D: DeskName + Send + Sync,
    S: JournalSink + Send,
>(
    rt: &'a R,
    context: &'a PoolContext<'a, R, M>,
    desk: &'a Desk<D, S>,
    passes: &'a mut [Pass<D>],
    workers: Vec<PoolWorker<'a, R>>,
    listeners: &'a [TcpListener],
    connections: AcceptLimit,
) -> Result<(), NotStarted> {
    thread::scope(
        thread::scope_env(),
        rt,
        |scope| -> Result<(), NotStarted>
            requires { IsSend D.row × IsSync D.row × IsSend S.row × IsSync R.row × IsSync M.row }
        {
            start_all(scope, rt, context, desk, passes, workers)?;
            let engine = context.crew.engine;
            engine.react(rt, listeners, connections, Unattended);
            Ok(())
        },
    )
}

// Starts a thread for each pass and its worker. If one can't be started, all are to stop.
fn start_all<
    's,
    'e,
    R: Threads + Wait + time::Clock + Sync + 's,
    M: Messages + Sync + 's,
    D: DeskName + Send + Sync + 's,
    S: JournalSink + Send + 's,
>(
    scope: &Scope<'s, &'e ()>,
    rt: &'s R,
    context: &'s PoolContext<'s, R, M>,
    desk: &'s Desk<D, S>,
    passes: &'s mut [Pass<D>],
    workers: Vec<PoolWorker<'s, R>>,
) -> Result<(), NotStarted> {
    for (pass, worker) in passes.iter_mut().zip(workers) {
        start(scope, rt, context, desk, pass, worker)?;
    }
    Ok(())
}

// Starts a worker's thread.
fn start<
    's,
    'e,
    R: Threads + Wait + time::Clock + Sync + 's,
    M: Messages + Sync + 's,
    D: DeskName + Send + Sync + 's,
    S: JournalSink + Send + 's,
>(
    scope: &Scope<'s, &'e ()>,
    rt: &'s R,
    context: &'s PoolContext<'s, R, M>,
    desk: &'s Desk<D, S>,
    pass: &'s mut Pass<D>,
    worker: PoolWorker<'s, R>,
) -> Result<(), NotStarted> {
    match scope.spawn(move || serve(rt, context, desk, pass, worker)) {
        Ok(_) => Ok(()),
        Err(_) => {
            context.crew.stop();
            Err(NotStarted)
        }
    }
}

// A worker at a pool's desk, which ends with the pool.
fn serve<'a, R: Wait + time::Clock, M: Messages, D: DeskName, S: JournalSink>(
    rt: &'a R,
    context: &'a PoolContext<'a, R, M>,
    desk: &'a Desk<D, S>,
    pass: &'a mut Pass<D>,
    mut worker: PoolWorker<'a, R>,
) {
    serve_at(rt, context, desk, pass, &mut worker);
}
