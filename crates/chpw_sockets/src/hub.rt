//! The connections with their sockets, which reactor and workers share under one lock.
ghost use Rattle.slab.specs.Slab.{get, slab_len};
ghost use Rattle.std.specs.Prelude.{◌≡◌, ◌≢◌, ◌<◌, ◌==◌, ◌⊎◌, ℕ, Option, nat_lt, length, slice_get, if◌then◌else◌};
ghost use Rattle.std.specs.Prelude.{IfSome, IfOk, IfErr, None, is_some, false, true};
ghost use Rattle.chpw_connections.specs.Held.{slots_of, bounds_of, accepted_by};
ghost use Rattle.chpw_connections.specs.Queues.{workers_of};
ghost use Rattle.chpw_connection.specs.Todos.{todo_in};
ghost use Rattle.chpw_connection.specs.declared.todo.Todo.TheVariants as todo;
ghost use Rattle.chpw_slots.specs.Slots.{Happens};
ghost use Rattle.chpw_slots.specs.Longest.{IsLongest, NobodyWaits};
ghost use Rattle.chpw_connection.specs.Stages.{failed};
ghost use Rattle.chpw_connections.specs.Turns.{slot_of};
ghost use Rattle.chpw_transfers.specs.Steps.{IsCalled, StepsUntold, RunsTo, Answers};
ghost use Rattle.chpw_transfers.specs.Datagrams.{DropsDatagram};
ghost use Rattle.chpw_sockets.specs.Deciding.{AreElsewhere, IsFree, IsFresh, Queues};
ghost use Rattle.chpw_transfers.specs.Kdc.{LeavesChange, reply_under, ticket_of};
ghost use Rattle.chpw_transfers.specs.declared.kdc.Release.{Release};
ghost use Rattle.chpw_sockets.specs.Newcomers.{IsAdmitted, IsBegun, EndsLongestOf};
ghost use Rattle.chpw_slots.specs.Shares.{is_share_full};
ghost use Rattle.chpw_transfers.specs.Admission.{IfAdmitted, IfWaits, is_admitted, is_refused, waits};
ghost use Rattle.chpw_transfers.specs.declared.entrance.Admission.TheVariants as admission;
ghost use Rattle.chpw_sockets.specs.Places.{RemainsAt, StaysAt};
ghost use Rattle.chpw_sockets.specs.Faults.{IsUnmade};
ghost use Rattle.chpw_sockets.specs.Shares.{may_place_stream};
ghost use Rattle.chpw_transfers.specs.declared.state.Progress.TheVariants as progress;

use crate::own_sockets::OwnSockets;
use crate::places::Sockets;
use crate::pool_fault::PoolFault;
use crate::sockets::Selector;
use crate::udp::DatagramSockets;
use chpw_connections::{ConnectionLimits, Connections, Todo, Turn};
use chpw_endpoints::Peer;
use chpw_transfers::{Admission, KdcSide, Newcomer, Progress, State};
use std::alloc::Global;
use std::net::TcpStream;

/// How many steps a connection makes before the others get their turn again.
pub const STEPS: u32 = 64;

/// The connections and their sockets. The worker that has answered a message writes the reply.
#[derive(Drop)]
pub struct Hub {
    pub state: State,
    pub sockets: Sockets<mio::net::TcpStream, OwnSockets>,
}

impl Hub {
    /// No connections yet, for this many workers, but at least one; within these bounds, and with a place for the socket
    /// of each connection. With sockets for them, messages come as datagrams too; with a KDC, keys are put there.
    /// `Accept` if the system can't watch those sockets, `Memory` if a growth is refused.
    pub fn new(
        alloc: Global,
        selector: &Selector,
        bounds: ConnectionLimits,
        workers: usize,
        datagrams: Option<DatagramSockets>,
        kdc: Option<KdcSide>,
    ) -> Result<Hub, PoolFault>
        ensures begun { IfOk result (λ hub. IsBegun kdc hub.state) }
        ensures bounds { IfOk result (λ hub. bounds_of hub.state.connections ≡ bounds) }
        ensures workers { IfOk result (λ hub. workers_of hub.state.connections ≡ (if workers == 0 then 1 else workers)) }
        ensures fault { IfErr result IsUnmade }
    {
        let Ok(connections) = Connections::new(alloc, bounds, workers) else {
            return Err(PoolFault::Memory);
        };
        let sockets = Sockets::new(alloc, selector, bounds.connections, datagrams)?;
        Ok(Hub {
            state: State::new(connections, kdc),
            sockets,
        })
    }

    /// Admits a connection that has come. One whose peer has as many as it may is refused, and closed with that. If there
    /// are as many as allowed, in all or over TCP, it is handed back, and a client waits for room. One whose socket can't
    /// be watched ends.
    pub fn admit(&mut self, newcomer: Newcomer, now: u64) -> Admission
        ensures admitted { IfAdmitted result (λ slot. IsAdmitted newcomer.ends newcomer.share now (accepted_by self.old.state.connections)
            (slots_of self.old.state.connections) (slots_of self.new.state.connections) slot) }
        ensures placed { IfAdmitted result (λ slot. slot < length self.old.sockets.by_slot.items → IsFresh self.new.sockets.by_slot.items slot) }
        ensures others { IfAdmitted result (λ slot. AreElsewhere self.old.sockets.by_slot.items self.new.sockets.by_slot.items slot) }
        ensures refused { is_refused result ≡ is_share_full (bounds_of self.old.state.connections).per_peer
            (slots_of self.old.state.connections) newcomer.share }
        ensures full { is_share_full (bounds_of self.old.state.connections).per_peer (slots_of self.old.state.connections) newcomer.share ≡ false
            → nat_lt (slab_len (slots_of self.old.state.connections)) (bounds_of self.old.state.connections).connections ≡ false
            → result ≡ admission.Waits newcomer }
        ensures few { is_share_full (bounds_of self.old.state.connections).per_peer (slots_of self.old.state.connections) newcomer.share ≡ false
            → may_place_stream (is_some self.old.sockets.datagrams) self.old.sockets.by_slot.items ≡ false
            → result ≡ admission.Waits newcomer }
        ensures kept { IfWaits result (λ back. back ≡ newcomer) }
        ensures unchanged { is_admitted result ≡ false → (self.new.state.connections ≡ self.old.state.connections)
            × (self.new.sockets ≡ self.old.sockets) }
        ensures noted { self.new.state.has_newcomer ≡ waits result }
    {
        if self.state.connections.is_share_full(newcomer.share) {
            self.state.has_newcomer = false;
            return Admission::Refused;
        }
        if !self.sockets.may_put() {
            self.state.has_newcomer = true;
            return Admission::Waits(newcomer);
        }
        match self.state.accept(newcomer.ends, newcomer.share, now) {
            None => Admission::Waits(newcomer),
            Some(slot) => {
                self.put(slot, newcomer.stream);
                Admission::Admitted(slot)
            }
        }
    }

    /// Does what is to be done for a connection, in one call of its socket.
    #[tactic(auto, using(crate::proofs::StepLemmas::untold_step))]
    pub fn step(&mut self, slot: usize, now: u64) -> Progress
        ensures steps { StepsUntold (bounds_of self.old.state.connections) now
            (todo_in (get (slots_of self.old.state.connections) slot))
            (slots_of self.old.state.connections) (slots_of self.new.state.connections) slot }
        ensures others { AreElsewhere self.old.sockets.by_slot.items self.new.sockets.by_slot.items slot }
        ensures kept { todo_in (get (slots_of self.old.state.connections) slot) ≢ todo.Close
            → StaysAt (todo_in (get (slots_of self.old.state.connections) slot))
            (slice_get self.old.sockets.by_slot.items slot) (slice_get self.new.sockets.by_slot.items slot) }
        ensures closed { todo_in (get (slots_of self.old.state.connections) slot) ≡ todo.Close
            → IsFree self.new.sockets.by_slot.items slot }
        ensures idle { todo_in (get (slots_of self.old.state.connections) slot) ≢ todo.Close → result ≡ progress.Idle
            → slots_of self.new.state.connections ≡ slots_of self.old.state.connections }
        ensures queued { IsCalled (workers_of self.old.state.connections) (get (slots_of self.new.state.connections) slot) result }
        ensures bounds { bounds_of self.new.state.connections ≡ bounds_of self.old.state.connections }
        ensures kdc { self.new.state.kdc ≡ self.old.state.kdc }
    {
        self.sockets.step(&mut self.state, slot, now)
    }

    /// Makes room for a connection that counts in this share: the slot of the one that ended for it, if one did. If the
    /// share has as many as it may, that is the one of this peer that has waited longest for its client; otherwise, if
    /// there are as many as allowed, in all or over TCP, the one of all that has.
    pub fn make_room(&mut self, share: Option<Peer>) -> Option<usize>
        ensures of_peer { is_share_full (bounds_of self.old.state.connections).per_peer (slots_of self.old.state.connections) share ≡ true
            → IfSome share (λ peer. EndsLongestOf peer (slots_of self.old.state.connections) (slots_of self.new.state.connections) result) }
        ensures needed { is_share_full (bounds_of self.old.state.connections).per_peer (slots_of self.old.state.connections) share ≡ false
            → may_place_stream (is_some self.old.sockets.datagrams) self.old.sockets.by_slot.items ≡ true
            → nat_lt (slab_len (slots_of self.old.state.connections)) (bounds_of self.old.state.connections).connections ≡ true
            → (result ≡ None) × (self.new.state ≡ self.old.state) }
        ensures ended { is_share_full (bounds_of self.old.state.connections).per_peer (slots_of self.old.state.connections) share ≡ false
            → IfSome result (λ slot. IsLongest (slots_of self.old.state.connections) slot
            × Happens 0 (slots_of self.old.state.connections) (slots_of self.new.state.connections) slot failed) }
        ensures nobody { is_share_full (bounds_of self.old.state.connections).per_peer (slots_of self.old.state.connections) share ≡ false
            → may_place_stream (is_some self.old.sockets.datagrams) self.old.sockets.by_slot.items ≡ false
            → result ≡ None → NobodyWaits (slots_of self.old.state.connections) }
        ensures sockets { self.new.sockets ≡ self.old.sockets }
    {
        if self.state.connections.is_share_full(share) {
            return self.state.make_room_in(share);
        }
        let may_put = self.sockets.may_put();
        self.state.make_room(may_put)
    }

    // Stores the socket of a connection that was just accepted. If it can't be watched, the connection ends.
    fn put(&mut self, slot: usize, stream: TcpStream)
        requires room { may_place_stream (is_some self.old.sockets.datagrams) self.old.sockets.by_slot.items ≡ true }
        ensures put { Happens 0 (slots_of self.old.state.connections) (slots_of self.new.state.connections) slot failed
            ⊎ (self.new.state ≡ self.old.state) }
        ensures placed { slot < length self.old.sockets.by_slot.items → IsFresh self.new.sockets.by_slot.items slot }
        ensures others { AreElsewhere self.old.sockets.by_slot.items self.new.sockets.by_slot.items slot }
        ensures rest { self.new.state ≡ record self.old.state { connections = self.new.state.connections } }
    {
        if !self.sockets.put(slot, stream) {
            self.state.connections.fail(slot);
        }
    }

    /// Reads the next datagram, if one has come.
    pub fn take_datagram(&mut self, now: u64) -> Progress
        ensures queued { IfSome self.old.sockets.datagrams (λ d. (worker : ℕ) → result ≡ progress.Queued worker
            → Queues d self.old.sockets.by_slot.items self.new.sockets.by_slot.items
            (bounds_of self.old.state.connections) now (accepted_by self.old.state.connections)
            (slots_of self.old.state.connections) (slots_of self.new.state.connections) worker (workers_of self.old.state.connections)) }
        ensures idle { result ≡ progress.Idle → self.new.state ≡ self.old.state }
        ensures bounds { bounds_of self.new.state.connections ≡ bounds_of self.old.state.connections }
        ensures dropped { result ≡ progress.Moved → DropsDatagram (slots_of self.old.state.connections) (slots_of self.new.state.connections) }
        ensures kept { result ≡ progress.Moved → self.new.sockets.by_slot.items ≡ self.old.sockets.by_slot.items }
    {
        self.sockets.take_datagram(&mut self.state, now)
    }

    /// Ends a connection whose socket has failed; a message of it that waits is dropped.
    pub fn look_for_error(&mut self, slot: usize)
        ensures looked { Happens 0 (slots_of self.old.state.connections) (slots_of self.new.state.connections) slot failed
            ⊎ (self.new.state ≡ self.old.state) }
        ensures sockets { self.new.sockets ≡ self.old.sockets }
        ensures rest { self.new.state ≡ record self.old.state { connections = self.new.state.connections } }
    {
        if self.sockets.has_failed(slot) {
            self.state.connections.fail(slot);
        }
    }

    /// A worker's reply to the message that it took, or the word that there is none, for the connection that the message
    /// came from. Unless it waits for the KDC, as much of the reply is written as the socket takes, and after it as
    /// much of the next message is read as has come: it waits for the same worker, which checks its queue next.
    pub fn answer(&mut self, turn: Turn, now: u64)
        ensures answers { (release : Release) × LeavesChange (is_some self.old.state.reach) now self.old.state.kdc turn.change self.new.state.kdc release
            × Answers (bounds_of self.old.state.connections) now (ticket_of release) (reply_under turn.reply release)
            (slots_of self.old.state.connections) (slots_of self.new.state.connections) (slot_of turn.taken) }
        ensures others { AreElsewhere self.old.sockets.by_slot.items self.new.sockets.by_slot.items (slot_of turn.taken) }
        ensures kept { RemainsAt (slice_get self.old.sockets.by_slot.items (slot_of turn.taken))
            (slice_get self.new.sockets.by_slot.items (slot_of turn.taken)) }
    {
        let slot = turn.taken.slot();
        self.state.answer(turn, now);
        self.run(slot, now);
    }

    // Does one thing after the other for a connection, as far as its socket allows without blocking, or until a message
    // waits for its worker. A connection that has ended is left to the reactor, which counts them.
    fn run(&mut self, slot: usize, now: u64)
        ensures runs { RunsTo (bounds_of self.old.state.connections) now slot (slots_of self.old.state.connections) (slots_of self.new.state.connections) }
        ensures kdc { self.new.state.kdc ≡ self.old.state.kdc }
        ensures others { AreElsewhere self.old.sockets.by_slot.items self.new.sockets.by_slot.items slot }
        ensures kept { RemainsAt (slice_get self.old.sockets.by_slot.items slot) (slice_get self.new.sockets.by_slot.items slot) }
    {
        for _ in 0..STEPS {
            if self.state.connections.todo(slot) == Todo::Close {
                return;
            }
            match self.step(slot, now) {
                Progress::Moved => {}
                Progress::Queued(_) | Progress::Idle => return,
            }
        }
        self.state.look_again(slot);
    }
}
