//! The workers of a service at a desk, each in a thread of its own.
ghost use Rattle.std.specs.Prelude.{◌≡◌, ◌≤◌, ◌<◌, ◌++◌, ◌∷◌, [], length, vec_len, vec_capacity, IfOk, IfErr, ⊤};
ghost use Rattle.chpw_changelog.specs.Pens.{opening_state};
ghost use Rattle.chpw_book.specs.Newest.{AreHeldAfter};
ghost use Rattle.chpw_workers.specs.Shifts.{AreShifts, IsShift};

use crate::context::Context;
use crate::inbox::{Crew, Inbox};
use crate::worker::{Worker, work};
use chpw_book::{AtDesk, Desk, DeskName, Pass};
use chpw_serve::{Clock, Gate, Messages, Observer, UpdateObserver, Words};
use chpw_table::JournalSink;
use std::snapshot::Snapshot;
use std::sync::Wait;
use std::thread;
use std::thread::{Promise, PromisedHandle, Scope, SpawnError, Threads};

/// What the thread that runs a shift does while the workers answer messages.
pub trait BackgroundTask {
    /// Its result.
    type Done;

    /// This may be its result.
    ghost gives: { Self → Self.Done → Type 0 } = { λ _ _. ⊤ };

    /// Does it, and returns once there is no more to do until the workers end.
    fn run(self) -> Self::Done
        ensures given { gives self result };
}

/// A worker's thread could not be started.
#[derive(Clone, Copy, Drop)]
pub struct NotStarted;

/// A worker at a desk: its pass there, and what it has at each.
#[derive(Drop)]
struct PlacedWorker<D: DeskName, I, G, C, X> {
    pass: Pass<D>,
    worker: Worker<I, G, C, X>,
}

/// Workers, and the pass of each at a desk, in the same order.
#[derive(Drop)]
pub struct Staff<D: DeskName, I, G, C, X> {
    pub passes: Vec<Pass<D>>,
    pub workers: Vec<Worker<I, G, C, X>>,
    ghost paired: { vec_len passes ≡ vec_len workers },
}

/// What a shift gave back: the workers, and the result of what was done meanwhile.
#[derive(Drop)]
pub struct Shift<D: DeskName, I, G, C, X, W> {
    pub staff: Staff<D, I, G, C, X>,
    pub done: Result<W, NotStarted>,
}

/// Answers the messages of these workers' inboxes at a desk, each worker in a thread of its own, until none will come any more,
/// they are to take none, or the desk's history is full. The workers then finish the messages that they have. This thread runs
/// `meanwhile`. All threads have ended then. After `NotStarted` the workers that had started may have answered some.
pub fn run_shift<
    R: Threads + Wait + Sync,
    M: Messages + Sync,
    D: DeskName + Send + Sync,
    S: JournalSink + Send,
    I: Inbox + Send + Drop,
    G: Gate + Observer + UpdateObserver + Send + Drop,
    C: Clock + Send + Drop,
    X: Words + Send + Drop,
    T: Crew + Sync,
    W: BackgroundTask + Drop,
>(
    rt: &R,
    context: &Context<'_, M, T>,
    desk: &Desk<D, S>,
    staff: Staff<D, I, G, C, X>,
    meanwhile: W,
) -> Shift<D, I, G, C, X, W::Done>
    ensures shifts { AreShifts C.gives X.gives I.turns (M.error_frame context.now.service.now) (M.private_frame context.now.service.now)
        (M.opens context.now.service.now) (AreHeldAfter (opening_state D.root)) context.now.has_kdc
        staff.passes.items staff.workers.items result.staff.passes.items result.staff.workers.items }
    ensures done { IfOk result.done (W.gives meanwhile) }
{
    thread::scope(
        thread::scope_env(),
        rt,
        move |scope| -> Shift<D, I, G, C, X, W::Done>
            ensures { AreShifts C.gives X.gives I.turns (M.error_frame context.entry.now.service.now)
                (M.private_frame context.entry.now.service.now) (M.opens context.entry.now.service.now) (AreHeldAfter (opening_state D.root))
                context.entry.now.has_kdc
                staff.passes.items staff.workers.items result.staff.passes.items result.staff.workers.items
                × IfOk result.done (W.gives meanwhile) }
        { place_all(scope, rt, context, desk, staff, meanwhile) },
    )
}

// Starts the last of these workers and then the others, while this thread runs `meanwhile`; gives back all once they have
// ended.
#[cycle(places)]
#[tactic(auto, using(crate::proofs::ShiftLemmas::shifts_more, crate::proofs::ShiftLemmas::shifts_none))]
fn place_all<
    's,
    'e,
    R: Threads + Wait + Sync + 's,
    M: Messages + Sync + 's,
    D: DeskName + Send + Sync + 's,
    S: JournalSink + Send + 's,
    I: Inbox + Send + Drop + 's,
    G: Gate + Observer + UpdateObserver + Send + Drop + 's,
    C: Clock + Send + Drop + 's,
    X: Words + Send + Drop + 's,
    T: Crew + Sync + 's,
    W: BackgroundTask + Drop + 's,
>(
    scope: &Scope<'s, &'e ()>,
    rt: &'s R,
    context: &'s Context<'s, M, T>,
    desk: &'s Desk<D, S>,
    staff: Staff<D, I, G, C, X>,
    meanwhile: W,
) -> Shift<D, I, G, C, X, W::Done>
    ensures shifts { AreShifts C.gives X.gives I.turns (M.error_frame context.now.service.now) (M.private_frame context.now.service.now)
        (M.opens context.now.service.now) (AreHeldAfter (opening_state D.root)) context.now.has_kdc
        staff.passes.items staff.workers.items result.staff.passes.items result.staff.workers.items }
    ensures done { IfOk result.done (W.gives meanwhile) }
    ensures lengths { (vec_len result.staff.passes ≡ vec_len staff.passes) × (vec_len result.staff.workers ≡ vec_len staff.workers) }
    ensures capacities { (vec_capacity result.staff.passes ≡ vec_capacity staff.passes)
        × (vec_capacity result.staff.workers ≡ vec_capacity staff.workers) }
{
    let Staff {
        mut passes,
        mut workers,
    } = staff;
    let (Some(pass), Some(worker)) = (passes.pop(), workers.pop()) else {
        return Shift {
            staff: Staff { passes, workers },
            done: Ok(meanwhile.run()),
        };
    };
    let staff = Staff { passes, workers };
    match start(scope, rt, context, desk, PlacedWorker { pass, worker }) {
        Ok(handle) => {
            let Shift { staff, done } = place_all(scope, rt, context, desk, staff, meanwhile);
            Shift {
                staff: with_last(staff, handle.join(rt)),
                done,
            }
        }
        Err(placed) => Shift {
            staff: with_last(staff, placed),
            done: Err(NotStarted),
        },
    }
}

// Starts a worker's thread. If it can't be started, all workers are to stop, and this one has in this thread.
fn start<
    's,
    'e,
    R: Threads + Wait + Sync + 's,
    M: Messages + Sync + 's,
    D: DeskName + Send + Sync + 's,
    S: JournalSink + Send + 's,
    I: Inbox + Send + Drop + 's,
    G: Gate + Observer + UpdateObserver + Send + Drop + 's,
    C: Clock + Send + Drop + 's,
    X: Words + Send + Drop + 's,
    T: Crew + Sync + 's,
>(
    scope: &Scope<'s, &'e ()>,
    rt: &'s R,
    context: &'s Context<'s, M, T>,
    desk: &'s Desk<D, S>,
    placed: PlacedWorker<D, I, G, C, X>,
) -> Result<
    PromisedHandle<PlacedWorker<D, I, G, C, X>, Serves<M, D, I, G, C, X>>,
    PlacedWorker<D, I, G, C, X>,
>
    ensures started { IfOk result (λ h. (h.promise.service.value ≡ context.now.service.now)
        × (h.promise.has_kdc ≡ context.now.has_kdc) × (h.promise.placed.value ≡ placed)) }
    ensures refused { IfErr result (λ p. IsShift C.gives X.gives I.turns (M.error_frame context.now.service.now)
        (M.private_frame context.now.service.now) (M.opens context.now.service.now) (AreHeldAfter (opening_state D.root)) context.now.has_kdc
        placed.pass placed.worker p.pass p.worker) }
{
    let promise = Serves {
        service: Snapshot::of(context.service),
        has_kdc: context.has_kdc,
        placed: Snapshot::of(&placed),
    };
    match scope.spawn_with(promise, move || serve_placed(rt, context, desk, placed)) {
        Ok(handle) => Ok(handle),
        Err(SpawnError { value }) => {
            context.crew.stop();
            Err(value())
        }
    }
}

// These, and one worker more.
fn with_last<D: DeskName, I, G, C, X>(
    staff: Staff<D, I, G, C, X>,
    placed: PlacedWorker<D, I, G, C, X>,
) -> Staff<D, I, G, C, X>
    requires passes { vec_len staff.passes < vec_capacity staff.passes }
    requires workers { vec_len staff.workers < vec_capacity staff.workers }
    ensures passes { result.passes.items ≡ staff.passes.items ++ placed.pass ∷ [] }
    ensures workers { result.workers.items ≡ staff.workers.items ++ placed.worker ∷ [] }
    ensures capacities { (vec_capacity result.passes ≡ vec_capacity staff.passes) × (vec_capacity result.workers ≡ vec_capacity staff.workers) }
{
    let Staff {
        mut passes,
        mut workers,
    } = staff;
    let PlacedWorker { pass, worker } = placed;
    passes.push_reserved(pass);
    workers.push_reserved(worker);
    Staff { passes, workers }
}

// What a worker's thread promises of what it gives back.
#[derive(Drop)]
struct Serves<M, D: DeskName, I, G, C, X> {
    service: Snapshot<M>,
    has_kdc: bool,
    placed: Snapshot<PlacedWorker<D, I, G, C, X>>,
}

impl<M: Messages, D: DeskName, I: Inbox, G, C: Clock, X: Words> Promise<PlacedWorker<D, I, G, C, X>>
    for Serves<M, D, I, G, C, X> {
    ghost use Rattle.chpw_changelog.specs.Pens.{opening_state};
    ghost use Rattle.chpw_book.specs.Newest.{AreHeldAfter};
    ghost use Rattle.chpw_workers.specs.Shifts.{IsShift};

    ghost kept_by = { λ p done. IsShift C.gives X.gives I.turns (M.error_frame p.service.value) (M.private_frame p.service.value)
        (M.opens p.service.value) (AreHeldAfter (opening_state D.root)) p.has_kdc p.placed.value.pass p.placed.value.worker done.pass done.worker };
}

// Answers the messages of a worker's inbox at a desk, in a thread of its own.
fn serve_placed<
    R: Wait,
    M: Messages,
    D: DeskName,
    S: JournalSink,
    I: Inbox,
    G: Gate + Observer + UpdateObserver,
    C: Clock,
    X: Words,
    T: Crew,
>(
    rt: &R,
    context: &Context<'_, M, T>,
    desk: &Desk<D, S>,
    placed: PlacedWorker<D, I, G, C, X>,
) -> PlacedWorker<D, I, G, C, X>
    ensures shift { IsShift C.gives X.gives I.turns (M.error_frame context.now.service.now) (M.private_frame context.now.service.now)
        (M.opens context.now.service.now) (AreHeldAfter (opening_state D.root)) context.now.has_kdc placed.pass placed.worker result.pass result.worker }
{
    let PlacedWorker {
        mut pass,
        mut worker,
    } = placed;
    serve_at(rt, context, desk, &mut pass, &mut worker);
    PlacedWorker { pass, worker }
}

/// Answers the messages of a worker's inbox at a desk with its pass there, in this thread, until none will come any more, it is to
/// take none for now, or the desk's history is full.
pub fn serve_at<
    R: Wait,
    M: Messages,
    D: DeskName,
    S: JournalSink,
    I: Inbox,
    G: Gate + Observer + UpdateObserver,
    C: Clock,
    X: Words,
    T: Crew,
>(
    rt: &R,
    context: &Context<'_, M, T>,
    desk: &Desk<D, S>,
    pass: &mut Pass<D>,
    worker: &mut Worker<I, G, C, X>,
)
    ensures shift { IsShift C.gives X.gives I.turns (M.error_frame context.now.service.now) (M.private_frame context.now.service.now)
        (M.opens context.now.service.now) (AreHeldAfter (opening_state D.root)) context.now.has_kdc pass.old worker.old pass.new worker.new }
{
    let mut decider = AtDesk { rt, desk, pass };
    work(rt, context, &mut decider, worker);
}
