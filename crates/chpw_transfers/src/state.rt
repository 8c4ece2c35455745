//! The connections, as reactor and workers see them under their lock.
ghost use Rattle.std.specs.Prelude.{◌≡◌, ◌≢◌, ◌<◌, ◌⊎◌, ◌||◌, ◌&&◌, not, ℕ, [], ◌∷◌, length, nat_lt};
ghost use Rattle.std.specs.Prelude.{IfSome, IfNone, is_none, Some, None, true, false};
ghost use Rattle.slab.specs.Slab.{get, slab_len};
ghost use Rattle.chpw_connections.specs.Held.{accepted_by, slots_of, bounds_of};
ghost use Rattle.chpw_connections.specs.Noting.{noted_by, is_noted_by, NotesEach};
ghost use Rattle.chpw_connections.specs.Queues.{queue_of, DropsLate};
ghost use Rattle.chpw_connection.specs.Todos.{todo_in};
ghost use Rattle.chpw_slots.specs.Slots.{Happens, IsNew};
ghost use Rattle.chpw_slots.specs.Longest.{IsLongest, NobodyWaits, IsLongestOf, NobodyWaitsOf};
ghost use Rattle.chpw_connection.specs.Late.{Passes, is_late_in};
ghost use Rattle.chpw_connection.specs.Slot.{queued_at};
ghost use Rattle.chpw_connection.specs.Stages.{taken, failed};
ghost use Rattle.chpw_connections.specs.Turns.{slot_of, message_of, ends_of};
ghost use Rattle.chpw_transfers.specs.Kdc.{dialog_in, has_update, is_behind, is_clerk, names_in, reach_in};
ghost use Rattle.chpw_transfers.specs.Steps.{is_short_for, short_of};
ghost use Rattle.chpw_transfers.specs.Controlling.{IsCounted, sum_of};
ghost use Rattle.chpw_transfers.specs.Rounds.{is_done, is_finished, is_looked_at, is_reading, milliseconds_to_wait, wants_reactor};

use crate::accept_limit::AcceptLimit;
use crate::accepting::Accepting;
use crate::connection_counts::ConnectionCounts;
use crate::kdc::{KdcSide, is_clerk};
use chpw_connections::{Connections, CountedStage, TakenMessage, Todo};
use chpw_endpoints::{Endpoints, Peer};
use chpw_kdc::KdcDialog;
use chpw_rules::NamePatterns;

/// The milliseconds between two searches for connections whose time is up.
pub const TICK: u64 = 100;

/// The milliseconds between two searches for replies that wait for the KDC.
const SOON: u64 = 20;

/// The milliseconds between two rounds of a reactor without connections.
const REST: u64 = 1_000;

/// The connections, and whether workers are to take messages.
#[derive(Drop)]
pub struct State {
    pub connections: Connections,
    /// The workers take no message until the next desk.
    pub is_stopped: bool,
    /// No message will come any more.
    pub is_over: bool,
    /// Nobody is left to answer.
    pub is_deserted: bool,
    /// A client has connected for whom there is no room yet.
    pub has_newcomer: bool,
    /// What there was no room for in this round.
    pub shortage: Shortage,
    /// What is said to the agent at the KDC's database, if there is one.
    pub kdc: Option<KdcDialog>,
    /// Which of the KDC's names are the service's.
    pub names: Option<NamePatterns>,
    /// The worker that takes what the KDC says into the table did that last: messages come first then.
    pub is_message_next: bool,
    /// If the KDC has to be in reach for a change: the milliseconds within which it gets each.
    pub reach: Option<u64>,
}

/// Whether a message wasn't read for want of room. Others of its kind wait with it for the next round, so that all get
/// room in turn.
#[derive(Clone, Copy, Default, Drop)]
pub struct Shortage {
    pub of_large: bool,
    pub of_small: bool,
}

impl Shortage {
    /// Whether there is a shortage for messages of this kind.
    pub fn is_for(self, is_large: bool) -> bool
        ensures value { result ≡ is_short_for is_large self }
    {
        if is_large {
            self.of_large
        } else {
            self.of_small
        }
    }

    /// There is a shortage for messages of this kind from now on.
    pub fn begin(&mut self, is_large: bool)
        ensures value { self.new ≡ short_of is_large self.old }
    {
        if is_large {
            self.of_large = true;
        } else {
            self.of_small = true;
        }
    }

    /// Whether there is any.
    pub fn is_any(self) -> bool
        ensures value { result ≡ (self.of_large || self.of_small) }
    {
        self.of_large || self.of_small
    }
}

/// The result of a read or a write.
#[derive(Clone, Copy, Drop, PartialEq, Eq)]
pub enum Progress {
    /// Something happened, and more may be done at once.
    Moved,
    /// A message is complete: it waits for this worker.
    Queued(usize),
    /// Nothing can be done before the socket is reported again.
    Idle,
}

impl State {
    /// These connections, which workers may serve, and the service's side of a KDC, if there is one.
    pub fn new(connections: Connections, side: Option<KdcSide>) -> State
        ensures value { result ≡ record {
          connections = connections;
          is_stopped = false;
          is_over = false;
          is_deserted = false;
          has_newcomer = false;
          shortage = record { of_large = false; of_small = false };
          kdc = dialog_in side;
          names = names_in side;
          is_message_next = false;
          reach = reach_in side;
        } }
    {
        let (kdc, names, reach) = parts_of(side);
        State {
            connections,
            is_stopped: false,
            is_over: false,
            is_deserted: false,
            has_newcomer: false,
            shortage: Shortage::default(),
            kdc,
            names,
            is_message_next: false,
            reach,
        }
    }

    /// Whether a worker has nothing to do yet.
    pub fn is_idle(&self, worker: usize) -> bool
        ensures value { result ≡ (not self.now.is_stopped && (not self.now.is_over
            && (not (nat_lt 0 (length (queue_of self.now.connections worker)))
            && not (is_clerk worker && has_update self.now.kdc)))) }
    {
        !self.is_stopped
            && !self.is_over
            && !self.connections.has_message(worker)
            && !(is_clerk(worker) && self.has_update())
    }

    /// Accepts a connection over TCP between these two, in this share, if there is room for one more: its slot. Otherwise
    /// a client waits for room.
    pub fn accept(&mut self, ends: Endpoints, share: Option<Peer>, now: u64) -> Option<usize>
        ensures accepted { IfSome result (λ slot. IsNew ends share now (accepted_by self.old.connections)
            (slots_of self.old.connections) (slots_of self.new.connections) slot) }
        ensures noted { self.new.has_newcomer ≡ is_none result }
        ensures unchanged { IfNone result (self.new.connections ≡ self.old.connections) }
        ensures full { nat_lt (slab_len (slots_of self.old.connections)) (bounds_of self.old.connections).connections ≡ false → result ≡ None }
        ensures rest { self.new ≡ record self.old { connections = self.new.connections; has_newcomer = self.new.has_newcomer } }
    {
        let slot = self.connections.accept(ends, share, now);
        self.has_newcomer = slot.is_none();
        slot
    }

    /// No more connections are accepted: how many were. No client waits for room any more.
    pub fn close(&mut self) -> u64
        ensures value { result ≡ accepted_by self.old.connections }
        ensures closed { self.new ≡ record self.old { has_newcomer = false } }
    {
        self.has_newcomer = false;
        self.connections.accepted_count()
    }

    /// If no place may be given to one more connection, or there are as many as allowed, ends the one that has waited
    /// longest for its client: its slot, if one ended.
    pub fn make_room(&mut self, has_place: bool) -> Option<usize>
        ensures needed { has_place ≡ true → nat_lt (slab_len (slots_of self.old.connections)) (bounds_of self.old.connections).connections ≡ true
            → (result ≡ None) × (self.new ≡ self.old) }
        ensures ended { IfSome result (λ slot. IsLongest (slots_of self.old.connections) slot
            × Happens 0 (slots_of self.old.connections) (slots_of self.new.connections) slot failed) }
        ensures nobody { nat_lt (slab_len (slots_of self.old.connections)) (bounds_of self.old.connections).connections ≡ false
            → result ≡ None → NobodyWaits (slots_of self.old.connections) }
        ensures nobody_placed { has_place ≡ false → result ≡ None → NobodyWaits (slots_of self.old.connections) }
        ensures unchanged { result ≡ None → slots_of self.new.connections ≡ slots_of self.old.connections }
        ensures rest { self.new ≡ record self.old { connections = self.new.connections } }
    {
        if has_place && !self.connections.is_full() {
            return None;
        }
        self.connections.make_room()
    }

    /// Ends the connection that has waited longest for its client of those in this share: its slot, if one ended. For
    /// what counts in no share nobody ends.
    pub fn make_room_in(&mut self, share: Option<Peer>) -> Option<usize>
        ensures ended { IfSome result (λ slot. IfSome share (λ peer. IsLongestOf peer (slots_of self.old.connections) slot)
            × Happens 0 (slots_of self.old.connections) (slots_of self.new.connections) slot failed) }
        ensures nobody { IfNone result (IfSome share (λ peer. NobodyWaitsOf peer (slots_of self.old.connections))
            × (slots_of self.new.connections ≡ slots_of self.old.connections)) }
        ensures rest { self.new ≡ record self.old { connections = self.new.connections } }
    {
        match share {
            None => None,
            Some(peer) => self.connections.make_room_for(peer),
        }
    }

    /// Notes a slot for whose connection more is to be done than was done for now, unless it is noted: in a round it
    /// gets one turn for that.
    pub fn look_again(&mut self, slot: usize)
        ensures noted { is_noted_by self.old.connections slot ≡ true → self.new ≡ self.old }
        ensures notes { is_noted_by self.old.connections slot ≡ false
            → NotesEach (noted_by self.old.connections) (noted_by self.new.connections) (slot ∷ []) }
        ensures slots { slots_of self.new.connections ≡ slots_of self.old.connections }
        ensures bounds { bounds_of self.new.connections ≡ bounds_of self.old.connections }
        ensures rest { self.new ≡ record self.old { connections = self.new.connections } }
    {
        if !self.connections.is_noted(slot) {
            self.connections.look_again(slot);
        }
    }

    /// Time passes for all connections, and a round begins: the shortage of room in the last one.
    pub fn pass(&mut self, now: u64) -> Shortage
        ensures passed { (slot : ℕ) → Passes (bounds_of self.old.connections) now
            (get (slots_of self.old.connections) slot) (get (slots_of self.new.connections) slot) }
        ensures had { result ≡ self.old.shortage }
        ensures begun { self.new.shortage ≡ record { of_large = false; of_small = false } }
        ensures rest { self.new ≡ record self.old { connections = self.new.connections; shortage = self.new.shortage } }
    {
        self.connections.pass(now);
        let had = self.shortage;
        self.shortage = Shortage::default();
        had
    }

    /// The next message for a worker; none if it is to take none, or the next one waited too long.
    pub fn take(&mut self, worker: usize, now: u64) -> Option<TakenMessage>
        ensures stopped { self.old.is_stopped ≡ true → (result ≡ None) × (self.new ≡ self.old) }
        ensures message { IfSome result (λ t. queued_at (get (slots_of self.old.connections) (slot_of t)) ≡ Some (message_of t)) }
        ensures in_time { IfSome result (λ t. is_late_in (bounds_of self.old.connections) now (get (slots_of self.old.connections) (slot_of t)) ≡ false) }
        ensures happens { IfSome result (λ t. Happens 0 (slots_of self.old.connections) (slots_of self.new.connections) (slot_of t) taken) }
        ensures ends { IfSome result (λ t. IfSome (get (slots_of self.old.connections) (slot_of t)) (λ c. ends_of t ≡ c.ends)) }
        ensures first { IfSome result (λ t. queue_of self.old.connections worker ≡ slot_of t ∷ queue_of self.new.connections worker) }
        ensures others { (other : ℕ) → other ≢ worker → queue_of self.new.connections other ≡ queue_of self.old.connections other }
        ensures none { self.old.is_stopped ≡ false → IfNone result
            (((queue_of self.old.connections worker ≡ []) × (self.new.connections ≡ self.old.connections))
            ⊎ DropsLate now self.old.connections self.new.connections worker) }
        ensures turn { self.new.is_message_next ≡ (self.old.is_stopped && self.old.is_message_next) }
        ensures rest { self.new ≡ record self.old { connections = self.new.connections; is_message_next = self.new.is_message_next } }
    {
        if self.is_stopped {
            return None;
        }
        self.is_message_next = false;
        self.connections.take(worker, now)
    }

    /// Whether something is left for the reactor: connections have ended, a client waits for room, or keys are on their
    /// way to the KDC.
    pub fn wants_reactor(&self) -> bool
        ensures value { result ≡ wants_reactor self.now }
    {
        self.has_newcomer || self.connections.has_changed() || self.is_behind()
    }

    /// Whether something is to be done for a connection although nothing was reported: to read, if there was no room.
    pub fn is_to_be_looked_at(&self, slot: usize, reads: bool) -> bool
        ensures value { result ≡ is_looked_at reads (todo_in (get (slots_of self.now.connections) slot)) }
    {
        match self.connections.todo(slot) {
            Todo::Write | Todo::Linger | Todo::Close => true,
            Todo::Read(_) => reads,
            Todo::Wait => false,
        }
    }

    /// Whether nothing is left to do: as many connections as wanted were accepted, or no more can be, and each has ended; or
    /// nobody is left to answer.
    pub fn is_finished(&self, wanted: AcceptLimit, accepting: Accepting) -> bool
        ensures value { result ≡ is_finished wanted accepting self.now }
    {
        let accepted = self.connections.accepted_count();
        let has_all = !wanted.allows_more(accepted) || accepting.has_failed();
        self.is_deserted || (has_all && self.connections.is_empty())
    }

    /// Whether the reactor has nothing left to do: the connections are finished, and no order is carried out or waits;
    /// or nobody is left to answer.
    pub fn is_done(&self, wanted: AcceptLimit, accepting: Accepting, has_orders: bool) -> bool
        ensures value { result ≡ is_done wanted accepting has_orders self.now }
    {
        self.is_deserted || (self.is_finished(wanted, accepting) && !has_orders)
    }

    /// Ends a connection that waits for its client's next bytes.
    pub fn end_if_reading(&mut self, slot: usize)
        ensures reading { is_reading (todo_in (get (slots_of self.old.connections) slot)) ≡ true
            → Happens 0 (slots_of self.old.connections) (slots_of self.new.connections) slot failed }
        ensures others { is_reading (todo_in (get (slots_of self.old.connections) slot)) ≡ false → self.new ≡ self.old }
        ensures rest { self.new ≡ record self.old { connections = self.new.connections } }
    {
        if matches!(self.connections.todo(slot), Todo::Read(_)) {
            self.connections.fail(slot);
        }
    }

    /// How many connections are in each stage, and whether keys are on their way to the KDC.
    #[tactic(auto, using(crate::proofs::ControlLemmas::all_counted))]
    pub fn standing(&self) -> ConnectionCounts
        ensures value { IsCounted self.now result }
        ensures all { sum_of result ≡ slab_len (slots_of self.now.connections) }
        ensures behind { result.is_behind ≡ is_behind self.now.kdc }
    {
        ConnectionCounts {
            reading: self.connections.count(CountedStage::Reading),
            waiting: self.connections.count(CountedStage::Waiting),
            answering: self.connections.count(CountedStage::Answering),
            confirming: self.connections.count(CountedStage::Confirming),
            writing: self.connections.count(CountedStage::Writing),
            ending: self.connections.count(CountedStage::Ending),
            is_behind: self.is_behind(),
        }
    }

    /// How many milliseconds to wait for the next event: none if there is something to do at once.
    pub fn patience(&self, can_accept: bool, accepting: Accepting) -> u64
        ensures value { result ≡ milliseconds_to_wait can_accept accepting self.now }
    {
        if can_accept || self.connections.has_changed() {
            0
        } else if self.connections.is_empty() && accepting.is_waiting() {
            REST
        } else if self.is_behind() {
            SOON
        } else {
            TICK
        }
    }
}

// What a side of the KDC consists of, if there is one.
fn parts_of(side: Option<KdcSide>) -> (Option<KdcDialog>, Option<NamePatterns>, Option<u64>)
    ensures dialog { result.0 ≡ dialog_in side }
    ensures names { result.1 ≡ names_in side }
    ensures reach { result.2 ≡ reach_in side }
{
    match side {
        None => (None, None, None),
        Some(
            KdcSide {
                dialog,
                names,
                reach,
            },
        ) => (Some(dialog), Some(names), reach),
    }
}
