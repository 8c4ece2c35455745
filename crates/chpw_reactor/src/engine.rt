//! What the reactor and the workers share.
ghost use Rattle.std.specs.Prelude.{◌≡◌, ◌<◌, ◌-◌, ◌/◌, ◌^◌, min, vec_len, IfOk, IfErr, IfSome, Some, None, true};
ghost use Rattle.std.specs.Duration.{as_nanos};
ghost use Rattle.chpw_control.specs.Seats.{is_order};
ghost use Rattle.chpw_control.specs.TakenOrders.{command_in};
ghost use Rattle.chpw_reactor.specs.Engines.{workers_at};
ghost use Rattle.chpw_reactor.specs.Pools.{Ends};
ghost use Rattle.chpw_sockets.specs.Faults.{IsUnmade};

use crate::outcome::{Pool, outcome_of};
use crate::tasks::{next_task, note_update};
use chpw_connections::ConnectionLimits;
use chpw_control::TakenOrder;
use chpw_sockets::{DatagramSockets, Hub, PoolFault, Selector};
use chpw_transfers::{AcceptLimit, Control, KdcSide};
use chpw_workers::{Task, WorkerTurn};
use mio::Waker;
use std::alloc::{AllocError, Global};
use std::net::Net;
use std::sync::{Condvar, Mutex, MutexGuard, Wait};
use std::time::{Clock, Duration};

/// The connections of a service, the queues of its workers, and the sockets. It outlives a desk: messages that wait
/// when a desk is closed are answered at the next one.
#[derive(Drop)]
pub struct Engine {
    pub(crate) alloc: Global,
    /// Where each worker waits for its messages.
    came: Vec<Condvar>,
    pub(crate) hub: Mutex<Hub>,
    pub(crate) selector: Mutex<Selector>,
    waker: Waker,
    pub(crate) control: Mutex<Control>,
    /// Where the thread for orders waits for them.
    ordered: Condvar,
}

impl Engine {
    /// An engine with a queue for each of this many workers, of which there is at least one. With a socket for them,
    /// messages come over UDP too; with a KDC, keys are put there. `Accept` if the system has no file for it, or can't watch that
    /// socket, `Memory` if a growth is refused.
    pub fn of<R: Net>(
        rt: &R,
        alloc: Global,
        bounds: ConnectionLimits,
        workers: usize,
        datagrams: Option<DatagramSockets>,
        kdc: Option<KdcSide>,
    ) -> Result<Engine, PoolFault>
        requires workers { 0 < workers }
        ensures workers { IfOk result (λ engine. workers_at engine ≡ workers) }
        ensures fault { IfErr result IsUnmade }
    {
        let Ok(came) = places_to_wait(alloc, workers) else {
            return Err(PoolFault::Memory);
        };
        let Ok(control) = Control::new(alloc) else {
            return Err(PoolFault::Memory);
        };
        let (selector, waker) = Selector::new(rt, alloc)?;
        let hub = Hub::new(alloc, &selector, bounds, workers, datagrams, kdc)?;
        Ok(Engine {
            alloc,
            came,
            hub: Mutex::new(hub),
            selector: Mutex::new(selector),
            waker,
            control: Mutex::new(control),
            ordered: Condvar::new(),
        })
    }
}

// Where each of this many workers waits.
fn places_to_wait(alloc: Global, workers: usize) -> Result<Vec<Condvar>, AllocError>
    ensures { IfOk result (λ v. vec_len v ≡ workers) }
{
    let mut places = Vec::with_capacity(alloc, workers)?;
    for _ in 0..workers {
        places.push(Condvar::new())?;
    }
    Ok(places)
}

/// The moment of the machine's clock that doesn't go back, in milliseconds.
pub(crate) fn milliseconds<R: Clock>(rt: &R) -> u64 {
    match rt.monotonic() {
        Ok(since) => whole_milliseconds(since),
        Err(_) => 0,
    }
}

// How many whole milliseconds it has, up to the greatest number.
fn whole_milliseconds(since: Duration) -> u64
    ensures value { result ≡ min (as_nanos since / 1000000) (2 ^ 64 - 1) }
{
    u64::try_from(since.as_millis()).unwrap_or(u64::MAX)
}

impl Engine {
    /// The next task of a worker, as soon as there is one; none if none will come any more, or the worker is to take none for
    /// now.
    pub(crate) fn next<R: Wait + Clock>(&self, rt: &R, worker: usize) -> Option<Task> {
        let came = self.came.get(worker)?;
        for _ in rt.forever() {
            let mut hub = came.wait_while(rt, self.hub.lock(rt), |hub| hub.state.is_idle(worker));
            if let Some(task) = next_task(&mut hub.state, worker, milliseconds(rt)) {
                return Some(task);
            }
            if hub.state.is_stopped || hub.state.is_over {
                return None;
            }
            self.wake();
        }
        None
    }

    /// A worker has done a task. The reply to its message is to be written, or there is none and the connection ends; if a
    /// change came of it, it may wait for the KDC. The reactor is woken only if something is left for it.
    pub(crate) fn answer<R: Wait + Clock>(&self, rt: &R, turn: WorkerTurn) {
        let now = milliseconds(rt);
        let mut hub = self.hub.lock(rt);
        match turn {
            WorkerTurn::Message(turn) | WorkerTurn::Undecided(turn) => hub.answer(turn, now),
            WorkerTurn::Update(turn) => note_update(&mut hub.state, turn),
        }
        let is_left = hub.state.wants_reactor();
        MutexGuard::unlock(hub);
        if is_left {
            self.wake();
        }
    }

    // Wakes the reactor.
    fn wake(&self) {
        let _ = self.waker.wake();
    }

    /// Wakes a worker that has a message.
    pub(crate) fn call(&self, worker: usize) {
        if let Some(came) = self.came.get(worker) {
            came.notify_one();
        }
    }

    // Wakes all workers.
    fn call_all(&self) {
        for came in &self.came {
            came.notify_one();
        }
    }

    /// From now on the workers take messages, and orders are carried out.
    pub fn start<R: Wait>(&self, rt: &R) {
        self.hub.lock(rt).state.is_stopped = false;
        self.control.lock(rt).is_paused = false;
    }

    /// Until the next start the workers take no more messages, and no more orders are carried out.
    pub fn stop<R: Wait>(&self, rt: &R) {
        self.hub.lock(rt).state.is_stopped = true;
        self.call_all();
        self.control.lock(rt).is_paused = true;
        self.call_for_order();
    }

    /// No message will come any more.
    pub(crate) fn finish<R: Wait>(&self, rt: &R) {
        self.hub.lock(rt).state.is_over = true;
        self.call_all();
        self.control.lock(rt).is_over = true;
        self.call_for_order();
    }

    /// Wakes the thread for orders.
    pub(crate) fn call_for_order(&self) {
        self.ordered.notify_one();
    }

    /// The next order at the control socket, as soon as there is one and the one before it was answered. It is used up by
    /// `answer_order` or `give_up_order`. None if no more will be carried out, or none for now.
    pub fn next_order<R: Wait>(&self, rt: &R) -> Option<TakenOrder>
        ensures order { IfSome result (λ order. is_order (command_in order) ≡ true) }
    {
        for _ in rt.forever() {
            let mut control = self
                .ordered
                .wait_while(rt, self.control.lock(rt), |control| control.is_idle());
            if control.is_paused {
                return None;
            }
            if let Some(order) = control.next_order() {
                return Some(order);
            }
            if control.is_over {
                return None;
            }
        }
        None
    }

    /// The answer to an order, for the caller who gave it.
    pub fn answer_order<R: Wait>(&self, rt: &R, order: TakenOrder, answer: Vec<u8>) {
        self.control.lock(rt).callers.answer_order(order, answer);
        self.wake();
        self.call_for_order();
    }

    /// An order is carried out no further. Its caller gets an empty answer, which means failure.
    pub fn give_up_order<R: Wait>(&self, rt: &R, order: TakenOrder) {
        self.answer_order(rt, order, Vec::new(self.alloc));
    }

    /// Whether it ended because a caller at the control socket asked for that.
    pub fn was_stopped<R: Wait>(&self, rt: &R) -> bool {
        self.control.lock(rt).is_stopping
    }

    /// Nobody will answer any more: the reactor ends, and with it all connections.
    pub fn desert<R: Wait>(&self, rt: &R) {
        self.hub.lock(rt).state.is_deserted = true;
        self.wake();
    }

    /// Whether no message will come any more.
    pub fn is_over<R: Wait>(&self, rt: &R) -> bool {
        self.hub.lock(rt).state.is_over
    }

    /// How many connections, and datagrams that count as one, have been accepted.
    pub(crate) fn accepted_count<R: Wait>(&self, rt: &R) -> u64 {
        self.hub.lock(rt).state.connections.accepted_count()
    }

    /// How many messages waited too long for their worker and were dropped.
    pub fn expired_count<R: Wait>(&self, rt: &R) -> u32 {
        self.hub.lock(rt).state.connections.expired_count()
    }

    /// What the reactor did, after it has ended, if it was to serve so many connections.
    pub fn outcome<R: Wait>(&self, rt: &R, wanted: AcceptLimit) -> Pool
        ensures ends { Ends wanted result }
    {
        outcome_of(self.accepted_count(rt), wanted)
    }
}
