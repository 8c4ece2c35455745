//! The sockets of the connections.
ghost use Rattle.std.specs.Prelude.{◌≡◌, ◌≢◌, ◌⊎◌, ℕ, List, ◌<◌, ◌≤◌, ◌+◌, IfOk, IfErr, IfSome, IfNone, false, true, is_some};
ghost use Rattle.std.specs.Prelude.{length, slice_get, if◌then◌else◌};
ghost use Rattle.slab.specs.Slab.{get};
ghost use Rattle.chpw_connections.specs.Held.{slots_of, bounds_of, accepted_by};
ghost use Rattle.chpw_connections.specs.Queues.{workers_of};
ghost use Rattle.chpw_slots.specs.Slots.{Happens};
ghost use Rattle.chpw_connection.specs.Stages.{closed};
ghost use Rattle.chpw_connection.specs.Todos.{todo_in};
ghost use Rattle.chpw_connection.specs.declared.todo.Todo.TheVariants as todo;
ghost use Rattle.chpw_connections.specs.declared.sender.Sender.{Sender};
ghost use Rattle.chpw_transfers.specs.Datagrams.{BeginsAndDrops, DropsDatagram};
ghost use Rattle.chpw_sockets.specs.Deciding.{AreElsewhere, IsFree, IsFresh, Queues};
ghost use Rattle.chpw_sockets.specs.Faults.{IsUnmade};
ghost use Rattle.chpw_sockets.specs.Places.{IsStream, KeepsSizes, Stays, StaysAt};
ghost use Rattle.chpw_sockets.specs.Places.{has_pending, is_datagram, is_datagram_at, is_shut_behind, reads_on};
ghost use Rattle.chpw_sockets.specs.Places.{told_of, told_by, told_at};
ghost use Rattle.chpw_sockets.specs.Replying.{post_at, PostsBy, PostsAt, Takes};
ghost use Rattle.chpw_sockets.specs.Shares.{datagrams_in, streams_in};
ghost use Rattle.chpw_sockets.specs.Shares.{may_place_stream as may_stream};
ghost use Rattle.chpw_transfers.specs.Steps.{IsCalled, Steps, Drains};
ghost use Rattle.chpw_transfers.specs.declared.state.Progress.TheVariants as progress;

use crate::channel::{Channel, DatagramChannel};
use crate::deciding::decide;
use crate::own_sockets::OwnSockets;
use crate::places::Sockets;
use crate::pool_fault::PoolFault;
use crate::shares::may_place_stream;
use crate::udp::{Datagram, DatagramSockets, Datagrams, LONGEST};
use chpw_connections::Todo;
use chpw_transfers::{Progress, State, Transfer, WAKER};
use mio::net::TcpStream;
use mio::{Events, Interest, Poll, Registry, Token, Waker};
use std::alloc::{AllocError, Global};
use std::io::{self, Error, ErrorKind};
use std::net::{self, Net};

/// How many events are taken at once. Between two takes the control socket is checked.
const EVENTS: usize = 64;

/// How many bytes are read at once.
const BUFFER: usize = 16_384;

/// How a connection came: with a socket of its own, or as a datagram.
#[derive(Drop)]
pub enum Transport<S> {
    Stream(Socket<S>),
    Datagram(Datagram),
}

impl<S: Channel> Transport<S> {
    // Does what is to be done for the connection, in one call of its socket.
    fn step<D: DatagramChannel>(
        &mut self,
        datagrams: &mut Option<Datagrams<D>>,
        state: &mut State,
        slot: usize,
        due: Todo,
        buffer: &mut [u8],
        now: u64,
    ) -> Progress
        ensures steps { due ≢ todo.Close → Steps (bounds_of state.old.connections) now due
            (told_by S.remaining S.contents self.old) (told_by S.remaining S.contents self.new)
            (slots_of state.old.connections) (slots_of state.new.connections) slot }
        ensures posted { PostsBy self.old due now (post_at D.left D.sent datagrams.old) (post_at D.left D.sent datagrams.new)
            (slots_of state.old.connections) (slots_of state.new.connections) slot }
        ensures stays { Stays due self.old self.new }
        ensures ended { is_datagram self.old ≡ true → reads_on due ≡ true → (result ≡ progress.Moved)
            × Happens 0 (slots_of state.old.connections) (slots_of state.new.connections) slot closed }
        ensures idle { result ≡ progress.Idle → slots_of state.new.connections ≡ slots_of state.old.connections }
        ensures waits { due ≡ todo.Wait → result ≡ progress.Idle }
        ensures socket { is_some datagrams.new ≡ is_some datagrams.old }
        ensures queued { IsCalled (workers_of state.old.connections) (get (slots_of state.new.connections) slot) result }
        ensures bounds { bounds_of state.new.connections ≡ bounds_of state.old.connections }
        ensures kdc { state.new.kdc ≡ state.old.kdc }
    {
        match self {
            Transport::Stream(socket) => socket.step(state, slot, due, buffer, now),
            Transport::Datagram(datagram) => datagram.step(datagrams, state, slot, due, now),
        }
    }
}

/// A connection's socket.
#[derive(Drop)]
pub struct Socket<S> {
    pub stream: S,
    /// Whether the writing side is shut.
    pub is_shut: bool,
}

impl<S: Channel> Socket<S> {
    // Shuts the writing side, the first time.
    fn shut(&mut self)
        ensures shut { self.new.is_shut ≡ true }
        ensures left { S.remaining self.new.stream ≡ S.remaining self.old.stream }
    {
        if !self.is_shut {
            self.is_shut = true;
            self.stream.shut();
        }
    }

    // Does what is to be done for its connection, in one call.
    fn step(
        &mut self,
        state: &mut State,
        slot: usize,
        due: Todo,
        buffer: &mut [u8],
        now: u64,
    ) -> Progress
        ensures steps { due ≢ todo.Close → Steps (bounds_of state.old.connections) now due
            (told_of S.remaining S.contents self.old) (told_of S.remaining S.contents self.new)
            (slots_of state.old.connections) (slots_of state.new.connections) slot }
        ensures shut { self.new.is_shut ≡ is_shut_behind due self.old.is_shut }
        ensures idle { result ≡ progress.Idle → slots_of state.new.connections ≡ slots_of state.old.connections }
        ensures waits { due ≡ todo.Wait → result ≡ progress.Idle }
        ensures queued { IsCalled (workers_of state.old.connections) (get (slots_of state.new.connections) slot) result }
        ensures bounds { bounds_of state.new.connections ≡ bounds_of state.old.connections }
        ensures kdc { state.new.kdc ≡ state.old.kdc }
    {
        match due {
            Todo::Read(_) => state.read(slot, &mut self.stream, buffer, now),
            Todo::Write => state.write(slot, &mut self.stream, now),
            Todo::Linger => self.linger(state, slot, buffer),
            Todo::Close | Todo::Wait => Progress::Idle,
        }
    }

    // Shuts the writing side, and discards what still comes.
    #[tactic(auto, using(crate::proofs::StepLemmas::drained))]
    fn linger(&mut self, state: &mut State, slot: usize, buffer: &mut [u8]) -> Progress
        ensures drained { Drains (told_of S.remaining S.contents self.old) (told_of S.remaining S.contents self.new)
            (slots_of state.old.connections) (slots_of state.new.connections) slot }
        ensures idle { result ≡ progress.Idle → state.new ≡ state.old }
        ensures queued { IsCalled (workers_of state.old.connections) (get (slots_of state.new.connections) slot) result }
        ensures bounds { bounds_of state.new.connections ≡ bounds_of state.old.connections }
        ensures kdc { state.new.kdc ≡ state.old.kdc }
        ensures shut { self.new.is_shut ≡ true }
    {
        self.shut();
        state.drain(slot, &mut self.stream, buffer)
    }
}

/// Watches which sockets are ready.
#[derive(Drop)]
pub struct Selector {
    pub poll: Poll,
    pub events: Events,
}

impl Selector {
    /// A selector that watches nothing yet, and the waker that ends its waits.
    pub fn new<R: Net>(rt: &R, alloc: Global) -> Result<(Selector, Waker), PoolFault>
        ensures fault { IfErr result IsUnmade }
    {
        let Ok(events) = Events::with_capacity(alloc, EVENTS) else {
            return Err(PoolFault::Memory);
        };
        let Ok(poll) = Poll::new(rt) else {
            return Err(PoolFault::Accept);
        };
        let Ok(waker) = Waker::new(poll.registry(), WAKER) else {
            return Err(PoolFault::Accept);
        };
        Ok((Selector { poll, events }, waker))
    }
}

impl<S: Channel + Drop> Sockets<S, OwnSockets> {
    /// None yet, for this many connections, and possibly one for datagrams.
    pub fn new(
        alloc: Global,
        selector: &Selector,
        connections: usize,
        datagrams: Option<DatagramSockets>,
    ) -> Result<Sockets<S, OwnSockets>, PoolFault>
        ensures fault { IfErr result IsUnmade }
        ensures places { IfOk result (λ s. length s.by_slot.items ≡ connections) }
        ensures buffer { IfOk result (λ s. length s.buffer.items ≡ 16384) }
        ensures datagrams { IfOk result (λ s. is_some s.datagrams ≡ is_some datagrams) }
        ensures datagram { IfOk result (λ s. length s.datagram.items ≡ (if is_some datagrams then 65507 else 0)) }
    {
        let Ok(by_slot) = no_sockets(alloc, connections) else {
            return Err(PoolFault::Memory);
        };
        let Ok(buffer) = Vec::from_elem(alloc, 0, BUFFER) else {
            return Err(PoolFault::Memory);
        };
        let Ok(registry) = selector.poll.registry().try_clone() else {
            return Err(PoolFault::Accept);
        };
        let datagrams = watched(alloc, datagrams, &registry)?;
        let Ok(datagram) = Vec::from_elem(alloc, 0, longest_of(datagrams.is_some())) else {
            return Err(PoolFault::Memory);
        };
        Ok(Sockets {
            registry,
            by_slot,
            buffer,
            datagrams,
            datagram,
        })
    }
}

impl<S: Channel + Drop, D: DatagramChannel + Drop> Sockets<S, D> {
    /// Whether one more connection over TCP may have a place.
    pub fn may_put(&self) -> bool
        ensures value { result ≡ may_stream (is_some self.now.datagrams) self.now.by_slot.items }
    {
        may_place_stream(self.datagrams.is_some(), self.by_slot.as_slice())
    }

    /// Whether the socket of a connection has failed.
    pub fn has_failed(&self, slot: usize) -> bool
        ensures stream { result ≡ true → IsStream (slice_get self.now.by_slot.items slot) }
    {
        match self.by_slot.get(slot) {
            Some(Some(Transport::Stream(socket))) => has_pending(socket.stream.pending_error()),
            _ => false,
        }
    }

    /// Does what is to be done for a connection, in one call of its socket.
    #[tactic(auto, using(chpw_transfers::proofs::ListLemmas::elsewhere, crate::proofs::StepLemmas::still))]
    pub fn step(&mut self, state: &mut State, slot: usize, now: u64) -> Progress
        ensures steps { Steps (bounds_of state.old.connections) now
            (todo_in (get (slots_of state.old.connections) slot))
            (told_at S.remaining S.contents (slice_get self.old.by_slot.items slot))
            (told_at S.remaining S.contents (slice_get self.new.by_slot.items slot))
            (slots_of state.old.connections) (slots_of state.new.connections) slot }
        ensures posted { PostsAt (slice_get self.old.by_slot.items slot) (todo_in (get (slots_of state.old.connections) slot)) now
            (post_at D.left D.sent self.old.datagrams) (post_at D.left D.sent self.new.datagrams)
            (slots_of state.old.connections) (slots_of state.new.connections) slot }
        ensures others { AreElsewhere self.old.by_slot.items self.new.by_slot.items slot }
        ensures closed { todo_in (get (slots_of state.old.connections) slot) ≡ todo.Close → IsFree self.new.by_slot.items slot }
        ensures over { todo_in (get (slots_of state.old.connections) slot) ≡ todo.Close → result ≡ progress.Idle }
        ensures waits { todo_in (get (slots_of state.old.connections) slot) ≡ todo.Wait → result ≡ progress.Idle }
        ensures idle { todo_in (get (slots_of state.old.connections) slot) ≢ todo.Close → result ≡ progress.Idle
            → slots_of state.new.connections ≡ slots_of state.old.connections }
        ensures kept { todo_in (get (slots_of state.old.connections) slot) ≢ todo.Close
            → StaysAt (todo_in (get (slots_of state.old.connections) slot))
            (slice_get self.old.by_slot.items slot) (slice_get self.new.by_slot.items slot) }
        ensures ended { is_datagram_at (slice_get self.old.by_slot.items slot) ≡ true
            → reads_on (todo_in (get (slots_of state.old.connections) slot)) ≡ true → (result ≡ progress.Moved)
            × Happens 0 (slots_of state.old.connections) (slots_of state.new.connections) slot closed }
        ensures sizes { KeepsSizes self.old self.new }
        ensures queued { IsCalled (workers_of state.old.connections) (get (slots_of state.new.connections) slot) result }
        ensures bounds { bounds_of state.new.connections ≡ bounds_of state.old.connections }
        ensures kdc { state.new.kdc ≡ state.old.kdc }
    {
        let todo = state.connections.todo(slot);
        if todo == Todo::Close {
            self.close(slot);
            let _ = state.connections.remove(slot);
            return Progress::Idle;
        }
        if slot >= self.by_slot.len() {
            return Progress::Idle;
        }
        let Sockets {
            by_slot,
            buffer,
            datagrams,
            ..
        } = self;
        match &mut by_slot[slot] {
            Some(transport) => transport.step(datagrams, state, slot, todo, buffer, now),
            None => Progress::Idle,
        }
    }

    // Drops the socket of a connection.
    #[tactic(auto, using(chpw_transfers::proofs::ListLemmas::elsewhere, crate::proofs::PlaceLemmas::freed, crate::proofs::PlaceLemmas::free_past))]
    fn close(&mut self, slot: usize)
        ensures closed { IsFree self.new.by_slot.items slot }
        ensures others { AreElsewhere self.old.by_slot.items self.new.by_slot.items slot }
        ensures sizes { KeepsSizes self.old self.new }
        ensures unposted { self.new.datagrams ≡ self.old.datagrams }
    {
        if slot < self.by_slot.len() {
            self.by_slot[slot] = None;
        }
    }

    /// Reads the next datagram, if one has come. One that isn't a whole frame with an AP-REQ in it, or comes from a
    /// service, is dropped, and so is one that is already under way. One that was answered less than five seconds ago
    /// gets that reply again. Any other one waits for its worker, if there is room for it. After a fault none is read
    /// before the socket is reported again.
    pub fn take_datagram(&mut self, state: &mut State, now: u64) -> Progress
        ensures queued { IfSome self.old.datagrams (λ d. (worker : ℕ) → result ≡ progress.Queued worker
            → Queues d self.old.by_slot.items self.new.by_slot.items (bounds_of state.old.connections) now (accepted_by state.old.connections)
            (slots_of state.old.connections) (slots_of state.new.connections) worker (workers_of state.old.connections)) }
        ensures taken { Takes D.left D.sent self.old.datagrams self.new.datagrams (length self.old.datagram.items)
            self.old.by_slot.items self.new.by_slot.items (bounds_of state.old.connections) now (accepted_by state.old.connections)
            (slots_of state.old.connections) (slots_of state.new.connections) result (workers_of state.old.connections) }
        ensures none { IfNone self.old.datagrams ((result ≡ progress.Idle) × (state.new ≡ state.old)) }
        ensures idle { result ≡ progress.Idle → state.new ≡ state.old }
        ensures bounds { bounds_of state.new.connections ≡ bounds_of state.old.connections }
        ensures dropped { result ≡ progress.Moved → DropsDatagram (slots_of state.old.connections) (slots_of state.new.connections) }
        ensures in_turn { result ≡ progress.Moved → (state.new ≡ state.old) ⊎ (sender : Sender) × (message : List ℕ)
            × BeginsAndDrops (bounds_of state.old.connections) now sender.ends (accepted_by state.old.connections) message
            (slots_of state.old.connections) (slots_of state.new.connections) }
        ensures kept { result ≡ progress.Moved → self.new.by_slot.items ≡ self.old.by_slot.items }
        ensures idle_places { result ≡ progress.Idle → self.new.by_slot.items ≡ self.old.by_slot.items }
        ensures places { length self.new.by_slot.items ≡ length self.old.by_slot.items }
    {
        let Sockets {
            by_slot,
            datagrams,
            datagram,
            ..
        } = self;
        let Some(datagrams) = datagrams else {
            return Progress::Idle;
        };
        match datagrams.receive(datagram) {
            Err(error) => untaken(error.kind()),
            Ok((sender, message)) => decide(by_slot, datagrams, state, sender, message, now),
        }
    }
}

impl Sockets<TcpStream, OwnSockets> {
    /// Stores the socket of a connection that was just accepted, and makes it non-blocking; whether it is watched.
    pub fn put(&mut self, slot: usize, stream: net::TcpStream) -> bool
        requires room { may_stream (is_some self.old.datagrams) self.old.by_slot.items ≡ true }
        ensures placed { slot < length self.old.by_slot.items → IsFresh self.new.by_slot.items slot }
        ensures past { length self.old.by_slot.items ≤ slot → result ≡ false }
        ensures others { AreElsewhere self.old.by_slot.items self.new.by_slot.items slot }
        ensures sizes { KeepsSizes self.old self.new }
        ensures unposted { self.new.datagrams ≡ self.old.datagrams }
    {
        let is_set = stream.set_nonblocking(true).is_ok();
        let _ = stream.set_nodelay(true);
        let mut stream = TcpStream::from_std(stream);
        let both = Interest::READABLE | Interest::WRITABLE;
        let is_watched = self
            .registry
            .register(&mut stream, Token(slot), both)
            .is_ok();
        put_stream(&mut self.by_slot, slot, stream) && is_set && is_watched
    }
}

// Whether a socket has an error: this is its last one, or it can't be asked for it.
fn has_pending(asked: io::Result<Option<Error>>) -> bool
    ensures value { result ≡ has_pending asked }
{
    !matches!(asked, Ok(None))
}

// No datagram was read, by a fault of this kind: after an interruption the next one may be read at once.
fn untaken(kind: ErrorKind) -> Progress
    ensures interrupted { kind ≡ ErrorKind.Interrupted → result ≡ progress.Moved }
    ensures other { kind ≢ ErrorKind.Interrupted → result ≡ progress.Idle }
{
    match Transfer::of_fault(kind) {
        Transfer::Again => Progress::Moved,
        _ => Progress::Idle,
    }
}

// Stores the socket of a connection, if there is such a slot; whether there is.
#[tactic(auto, using(chpw_transfers::proofs::ListLemmas::elsewhere, crate::proofs::ShareLemmas::sum_set))]
fn put_stream<S: Drop>(by_slot: &mut [Option<Transport<S>>], slot: usize, stream: S) -> bool
    ensures placed { slot < length by_slot.old → IsFresh by_slot.new slot }
    ensures past { length by_slot.old ≤ slot → result ≡ false }
    ensures others { AreElsewhere by_slot.old by_slot.new slot }
    ensures one_more { streams_in by_slot.new ≤ streams_in by_slot.old + 1 }
    ensures datagrams { datagrams_in by_slot.new ≤ datagrams_in by_slot.old }
{
    if slot < by_slot.len() {
        by_slot[slot] = Some(Transport::Stream(Socket {
            stream,
            is_shut: false,
        }));
        true
    } else {
        false
    }
}

// The sockets for datagrams, if there are some.
fn watched(
    alloc: Global,
    sockets: Option<DatagramSockets>,
    registry: &Registry,
) -> Result<Option<Datagrams<OwnSockets>>, PoolFault>
    ensures fault { IfErr result IsUnmade }
    ensures socket { IfOk result (λ d. is_some d ≡ is_some sockets) }
{
    match sockets {
        None => Ok(None),
        Some(sockets) => Ok(Some(Datagrams::new(alloc, sockets, registry)?)),
    }
}

// How many bytes a datagram may have, if there is a socket for datagrams.
fn longest_of(has_socket: bool) -> usize
    ensures value { result ≡ (if has_socket then 65507 else 0) }
{
    if has_socket { LONGEST } else { 0 }
}

fn no_sockets<S: Drop>(alloc: Global, count: usize) -> Result<Vec<Option<Transport<S>>>, AllocError>
    ensures count { IfOk result (λ places. length places.items ≡ count) }
    ensures none { IfOk result (λ places. (datagrams_in places.items ≡ 0) × (streams_in places.items ≡ 0)) }
{
    let mut sockets = Vec::with_capacity(alloc, count)?;
    for _ in 0..count {
        sockets.push(None)?;
    }
    Ok(sockets)
}
