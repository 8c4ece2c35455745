//! The reactor: one thread that has the listeners and waits for all sockets, and never for one of them alone. The
//! sockets are under the lock that it shares with the workers.

ghost use Rattle.std.specs.Prelude.{◌≡◌, ◌&&◌, ◌||◌, [], IfOk, is_some, true, false, Some, None};
ghost use Rattle.chpw_endpoints.specs.Peers.{IsShareOf};
ghost use Rattle.chpw_transfers.specs.Accepting.{is_ready};
ghost use Rattle.chpw_transfers.specs.Bounded.{allows_more};
ghost use Rattle.chpw_reactor.specs.Reports.{is_control, is_datagrams, is_kdc, reported_at, source_of};

use crate::attending::ControlPort;
use crate::engine::{Engine, milliseconds};
use crate::kdc::KdcTerms;
use crate::status_reporter::StatusReporter;
use crate::talking::KdcLink;
use chpw_endpoints::Peer;
use chpw_sockets::{STEPS, Selector};
use chpw_transfers::{
    AcceptLimit, Admission, Entrance, EventSource, LISTENER, Newcomer, Noting, Progress, Shortage,
    is_round_due, look_at_noted, slot_at_turn,
};
use mio::event::Event;
use mio::unix::SourceFd;
use mio::{Events, Interest, Registry};
use std::io::{self, Error, ErrorKind};
use std::net::{OpenListener, TcpStream};
use std::os::fd::AsRawFd;
use std::sync::{MutexGuard, Wait};
use std::time::{Clock, Duration};

/// How many connections are accepted before the other sockets get their turn again.
const ACCEPTS: u32 = 64;

/// After how many connections of a round the control socket is checked.
const BETWEEN: usize = 64;

/// Reports to the connections what happens at the sockets, and does what they ask for.
#[derive(Drop)]
pub(crate) struct Reactor<'a, R, L, F> {
    pub rt: &'a R,
    pub engine: &'a Engine,
    listeners: &'a [L],
    /// The listener that is asked first for the next connection: each in its turn, so that no crowd at one of them keeps
    /// others out.
    turn: usize,
    pub link: KdcLink<F>,
    /// How many there may be at a time: the slots are the numbers below.
    pub clients: usize,
    pub entrance: Entrance,
    /// When connections whose time is up were last looked for.
    looked: u64,
    /// The slot at which the next round over all begins.
    first: usize,
    /// Whether datagrams may have come.
    pub has_datagrams: bool,
    pub port: ControlPort,
    /// Whether it ends once what is under way is finished.
    pub is_stopping: bool,
}

impl Engine {
    /// Accepts so many connections, or as many as the listeners can; reads their messages and passes them to the
    /// workers, connection i (from 0) to worker i modulo their number; and writes the replies. It returns once each
    /// connection has ended, or the engine is deserted. Then no message will come any more. Replies to changes wait until
    /// the agent at the KDC's database has confirmed them. It answers questions at the control socket itself; orders are for the
    /// thread that takes them (`next_order`). When it is to stop, it accepts no more, ends the connections that wait
    /// for their clients' messages, and goes on until each reply is written and each order answered.
    pub fn react<
        R: Wait + Clock,
        L: OpenListener<Stream = TcpStream> + AsRawFd,
        F: KdcTerms + StatusReporter + Drop,
    >(&self, rt: &R, listeners: &[L], connections: AcceptLimit, mut terms: F) {
        let clients = self.hub.lock(rt).sockets.by_slot.len();
        let mut selector = self.selector.lock(rt);
        let port = ControlPort::open(terms.listener(), selector.poll.registry());
        let mut reactor = Reactor {
            rt,
            engine: self,
            listeners,
            turn: 0,
            link: KdcLink::new(terms),
            clients,
            entrance: Entrance::new(connections),
            looked: milliseconds(rt),
            first: 0,
            has_datagrams: true,
            port,
            is_stopping: false,
        };
        reactor.listen(selector.poll.registry());
        reactor.run(&mut *selector);
        reactor.tell_last();
        self.finish(rt);
    }
}

impl<
    'a,
    R: Wait + Clock,
    L: OpenListener<Stream = TcpStream> + AsRawFd,
    F: KdcTerms + StatusReporter + Drop,
> Reactor<'a, R, L, F> {
    // Registers the listeners.
    fn listen(&mut self, registry: &Registry) {
        for listener in self.listeners {
            if !is_watched(listener, registry) {
                self.entrance.fail();
            }
        }
    }

    // Handles what is ready, until there is nothing left to do.
    fn run(&mut self, selector: &mut Selector) {
        let rt = self.rt;
        let Selector { poll, events } = selector;
        for _ in rt.forever() {
            if self.is_done() {
                return;
            }
            let patience = Some(Duration::from_millis(self.patience()));
            if poll.poll(events, patience).is_err() {
                return;
            }
            self.look_at_events(events);
            self.talk(poll.registry());
            self.attend(poll.registry());
            self.end_idle_where_stopping();
            look_at_noted(self);
            self.accept();
            self.take_datagrams();
            self.look_for_late(poll.registry());
        }
    }

    // Whether nothing is left to do, or nobody is left to answer.
    fn is_done(&self) -> bool {
        let has_orders = self.engine.control.lock(self.rt).has_orders();
        let hub = self.engine.hub.lock(self.rt);
        hub.state
            .is_done(self.entrance.wanted, self.entrance.accepting, has_orders)
    }

    // How long to wait for the next event.
    fn patience(&self) -> u64 {
        let accepted = self.engine.accepted_count(self.rt);
        let may_come = self.entrance.can_accept(accepted) || self.can_take_datagram(accepted);
        let hub = self.engine.hub.lock(self.rt);
        let patience = hub.state.patience(may_come, self.entrance.accepting);
        MutexGuard::unlock(hub);
        if self.link.is_reported {
            return 0;
        }
        self.port_patience(patience)
    }

    /// Whether a datagram may have come, and may count as one more connection, after this many.
    pub fn can_take_datagram(&self, accepted: u64) -> bool
        ensures value { result ≡ (self.now.has_datagrams && allows_more self.now.entrance.wanted accepted) }
    {
        self.has_datagrams && self.entrance.wants_more(accepted)
    }

    // Handles each socket that was reported.
    fn look_at_events(&mut self, events: &Events) {
        for event in events.iter() {
            self.look_at(event);
        }
    }

    // Handles a connection's socket that was reported, and notes what else was.
    fn look_at(&mut self, event: &Event)
        ensures entrance { self.new.entrance ≡ reported_at (source_of event.now self.old.clients) self.old.entrance }
        ensures kdc { self.new.link.is_reported ≡ (is_kdc (source_of event.now self.old.clients) || self.old.link.is_reported) }
        ensures datagrams { self.new.has_datagrams ≡ (is_datagrams (source_of event.now self.old.clients) || self.old.has_datagrams) }
        ensures control { self.new.port.is_due ≡ (is_control (source_of event.now self.old.clients) || self.old.port.is_due) }
    {
        let source = EventSource::of(event.token(), self.clients);
        self.note(source);
        if let EventSource::Connection(slot) = source {
            if event.is_error() {
                self.engine.hub.lock(self.rt).look_for_error(slot);
            }
            self.drive(slot);
        }
    }

    // Notes what was reported, unless it is a connection's socket: it is handled after all that were reported.
    fn note(&mut self, source: EventSource)
        ensures entrance { self.new.entrance ≡ reported_at source self.old.entrance }
        ensures kdc { self.new.link.is_reported ≡ (is_kdc source || self.old.link.is_reported) }
        ensures datagrams { self.new.has_datagrams ≡ (is_datagrams source || self.old.has_datagrams) }
        ensures control { self.new.port.is_due ≡ (is_control source || self.old.port.is_due) }
    {
        match source {
            EventSource::Listener => self.entrance.report(),
            EventSource::Kdc => self.link.is_reported = true,
            EventSource::Datagrams => self.has_datagrams = true,
            EventSource::Control => self.port.is_due = true,
            EventSource::Connection(_) => {}
        }
    }

    // Ends the connections whose time is up, once a tick.
    fn look_for_late(&mut self, registry: &Registry) {
        let now = milliseconds(self.rt);
        if !is_round_due(self.looked, now) {
            return;
        }
        self.looked = now;
        self.port.is_due = true;
        self.entrance.pass(now);
        self.end_overdue();
        let had = self.pass(now);
        self.look_round(registry, had.is_any());
    }

    // Time passes for all connections, and a round begins, with the shortage of room in the last one.
    fn pass(&self, now: u64) -> Shortage {
        self.engine.hub.lock(self.rt).state.pass(now)
    }

    // Handles each connection for which something is to be done although nothing was reported. The next round begins at
    // the one for which there was no room in this one, so that all get room in turn.
    fn look_round(&mut self, registry: &Registry, reads: bool) {
        let slots = self.clients;
        let first = self.first;
        let mut is_short = false;
        for turn in 0..slots {
            let slot = slot_at_turn(first, slots, turn);
            if slot % BETWEEN == 0 {
                self.attend(registry);
            }
            let hub = self.engine.hub.lock(self.rt);
            let is_due = hub.state.is_to_be_looked_at(slot, reads);
            MutexGuard::unlock(hub);
            if is_due {
                self.drive(slot);
                self.port.is_due = true;
                if !is_short && self.is_short() {
                    is_short = true;
                    self.first = slot;
                }
            }
        }
    }

    // Whether there was no room for a message in this round.
    fn is_short(&self) -> bool {
        self.engine.hub.lock(self.rt).state.shortage.is_any()
    }

    /// Does what is to be done for a connection, as far as its socket allows without blocking.
    pub fn drive(&self, slot: usize) {
        for _ in 0..STEPS {
            if self.step(slot) == Progress::Idle {
                return;
            }
        }
        self.engine.hub.lock(self.rt).state.look_again(slot);
    }

    // One step of it.
    fn step(&self, slot: usize) -> Progress {
        let now = milliseconds(self.rt);
        let progress = self.engine.hub.lock(self.rt).step(slot, now);
        if let Progress::Queued(worker) = progress {
            self.engine.call(worker);
        }
        progress
    }

    // Accepts the connections that have come.
    fn accept(&mut self) {
        for _ in 0..ACCEPTS {
            let accepted = self.engine.accepted_count(self.rt);
            if self.entrance.can_accept(accepted) {
                self.next();
            }
            match self.entrance.take() {
                None => return,
                Some(newcomer) => {
                    if !self.admit(newcomer) {
                        return;
                    }
                }
            }
        }
    }

    // Takes the next connection of the listeners, if one has come. If none has, they aren't asked again before one of them
    // is reported or time has passed.
    fn next(&mut self)
        ensures came { is_some self.new.entrance.pending ≡ false → is_ready self.new.entrance.accepting ≡ false }
        ensures wanted { self.new.entrance.wanted ≡ self.old.entrance.wanted }
    {
        let first = self.turn;
        self.turn = slot_at_turn(first, self.listeners.len(), 1);
        match accepted(self.listeners, first) {
            Ok(newcomer) => self.entrance.keep(newcomer),
            Err(error) => self.entrance.stumble(&error, milliseconds(self.rt)),
        }
    }

    // Admits a connection, or refuses and closes it; whether the next one may come. If its peer has as many as it may, the
    // one of that peer that has waited longest for its client ends to make room, and if none waits, the new one is refused:
    // so a peer with a full share keeps nobody out. If there are as many as allowed, in all or over TCP, the one of all
    // that has waited longest ends; if none waits, the new one is kept until there is room.
    fn admit(&mut self, newcomer: Newcomer) -> bool
        ensures kept { result ≡ false → self.new.entrance ≡ record self.old.entrance { pending = Some newcomer } }
        ensures admitted { result ≡ true → self.new.entrance ≡ self.old.entrance }
    {
        if let Some(ended) = self.make_room(newcomer.share) {
            self.drive(ended);
        }
        let now = milliseconds(self.rt);
        let admission = self.engine.hub.lock(self.rt).admit(newcomer, now);
        match admission {
            Admission::Admitted(slot) => {
                self.drive(slot);
                true
            }
            Admission::Refused => true,
            Admission::Waits(newcomer) => {
                self.entrance.keep(newcomer);
                false
            }
        }
    }

    fn make_room(&self, share: Option<Peer>) -> Option<usize> {
        self.engine.hub.lock(self.rt).make_room(share)
    }
}

// Whether a listener is watched, and doesn't block.
fn is_watched<L: OpenListener<Stream = TcpStream> + AsRawFd>(
    listener: &L,
    registry: &Registry,
) -> bool {
    let descriptor = listener.as_raw_fd();
    listener.set_nonblocking(true).is_ok()
        && registry
            .register(&mut SourceFd(&descriptor), LISTENER, Interest::READABLE)
            .is_ok()
}

// The next connection of the first of these listeners, from this one on, to which one has come; otherwise what the last
// one had to say.
fn accepted<L: OpenListener<Stream = TcpStream>>(
    listeners: &[L],
    first: usize,
) -> io::Result<Newcomer>
    ensures share { IfOk result (λ newcomer. IsShareOf newcomer.ends newcomer.share) }
{
    let mut fault = Error::from(ErrorKind::WouldBlock);
    for turn in 0..listeners.len() {
        match accepted_by(listeners, slot_at_turn(first, listeners.len(), turn)) {
            Ok(newcomer) => return Ok(newcomer),
            Err(error) if error.kind() == ErrorKind::WouldBlock => {}
            Err(error) => fault = error,
        }
    }
    Err(fault)
}

// The next connection of one of these listeners, and its two addresses.
fn accepted_by<L: OpenListener<Stream = TcpStream>>(
    listeners: &[L],
    index: usize,
) -> io::Result<Newcomer>
    ensures share { IfOk result (λ newcomer. IsShareOf newcomer.ends newcomer.share) }
{
    let Some(listener) = listeners.get(index) else {
        return Err(Error::from(ErrorKind::WouldBlock));
    };
    let (stream, peer) = listener.accept()?;
    let local = stream.local_addr()?;
    Ok(Newcomer::of(stream, peer, local))
}

impl<
    'a,
    R: Wait + Clock,
    L: OpenListener<Stream = TcpStream> + AsRawFd,
    F: KdcTerms + StatusReporter + Drop,
> Noting for Reactor<'a, R, L, F> {
    // They are under the lock, where others note slots too.
    ghost noted = { λ reactor. None };

    ghost looked_at = { λ reactor. [] };

    fn count(&self) -> usize {
        self.engine
            .hub
            .lock(self.rt)
            .state
            .connections
            .changed_count()
    }

    fn look_at_first(&mut self) {
        let first = self
            .engine
            .hub
            .lock(self.rt)
            .state
            .connections
            .take_changed();
        if let Some(slot) = first {
            self.drive(slot);
        }
    }
}
