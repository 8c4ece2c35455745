//! A set of connections, within bounds.
ghost use Rattle.std.specs.Prelude.{MatchBool, ◌≡◌, ◌≢◌, ◌+◌, ◌<◌, ◌≤◌, ◌==◌, ℕ, not, nat_lt};
ghost use Rattle.std.specs.Prelude.{true, false, IfSome, IfNone, IsSome, IfOk, Some, None};
ghost use Rattle.std.specs.Prelude.{[], if◌then◌else◌, is_some};
ghost use Rattle.slab.specs.Slab.{get, slab_len, Updates};
ghost use Rattle.chpw_slots.specs.Slots.{held_in, Happens, IsNew};
ghost use Rattle.chpw_connection.specs.Stages.{wrote, closed, failed};
ghost use Rattle.chpw_connection.specs.Slot.{wanted_at, left_at, queued_at, is_lingering_in, is_ended_in};
ghost use Rattle.chpw_connection.specs.Late.{is_late_in, Passes, is_dropped_in};
ghost use Rattle.chpw_connections.specs.Expiry.{one_more, dropped_in, and_more};
ghost use Rattle.chpw_connections.specs.Queues.{queues_of, queue_of, workers_of};
ghost use Rattle.chpw_slots.specs.Waiting.{in_time, Leaves};
ghost use Rattle.chpw_slots.specs.Shares.{count_of as count_of_peer, is_share_full as is_share_full_of};
ghost use Rattle.chpw_connections.specs.Held.{slots_of, accepted_by, removed_by, expired_by, bounds_of, changed_of, Counts};
ghost use Rattle.chpw_connections.specs.Rest.{Rest};
ghost use Rattle.chpw_connections.specs.Noting.{noted_by, room_to_note, NotesEach, slot_if, slots_where};
ghost use Rattle.chpw_connection.specs.Slot.{is_gone_in, ends_closed_in};

use crate::set::Connections;
use chpw_connection::{Connection, ConnectionEvent, ConnectionLimits, Phase};
use chpw_endpoints::{Endpoints, Peer};
use chpw_slots::{Queues, Slots};
use std::alloc::{AllocError, Global};
use std::collections::VecDeque;

impl Connections {
    /// No connections yet, for this many workers, but at least one.
    #[tactic(auto, using(chpw_slots::proofs::HoldsLemmas::holds_none))]
    pub fn new(
        alloc: Global,
        bounds: ConnectionLimits,
        workers: usize,
    ) -> Result<Connections, AllocError>
        ensures none { IfOk result (λ c. slab_len (slots_of c) ≡ 0) }
        ensures counts { IfOk result (λ c. Counts c 0 0) }
        ensures expired { IfOk result (λ c. expired_by c ≡ 0) }
        ensures bounds { IfOk result (λ c. bounds_of c ≡ bounds) }
        ensures workers { IfOk result (λ c. workers_of c ≡ (if workers == 0 then 1 else workers)) }
        ensures empty { IfOk result (λ c. (worker : ℕ) → queue_of c worker ≡ []) }
        ensures noted { IfOk result (λ c. changed_of c ≡ []) }
        ensures room { IfOk result (λ c. bounds.connections ≤ room_to_note c) }
    {
        Ok(Connections {
            alloc,
            bounds,
            slots: Slots::new(alloc, bounds.connections, bounds.per_peer)?,
            queues: Queues::new(alloc, workers, bounds.connections)?,
            changed: VecDeque::with_capacity(alloc, bounds.connections)?,
            accepted: 0,
            removed: 0,
            expired: 0,
        })
    }

    /// How many connections were accepted.
    pub fn accepted_count(&self) -> u64
        ensures value { result ≡ accepted_by self.now }
        ensures counted { result ≡ removed_by self.now + slab_len (slots_of self.now) }
    {
        self.accepted
    }

    /// How many ended with a message that had waited too long for its worker, found in `take` or in `pass`; at most
    /// 4,294,967,295.
    pub fn expired_count(&self) -> u32
        ensures value { result ≡ expired_by self.now }
    {
        self.expired
    }

    /// How many connections there are: never more than allowed.
    pub fn len(&self) -> usize
        ensures value { result ≡ slab_len (slots_of self.now) }
        ensures few { result ≤ (bounds_of self.now).connections }
    {
        self.slots.len()
    }

    /// Whether there are none.
    pub fn is_empty(&self) -> bool
        ensures value { result ≡ (slab_len (slots_of self.now) == 0) }
    {
        self.slots.len() == 0
    }

    /// Whether there are as many as allowed.
    pub fn is_full(&self) -> bool
        ensures value { result ≡ not (nat_lt (slab_len (slots_of self.now)) (bounds_of self.now).connections) }
    {
        self.slots.len() >= self.bounds.connections
    }

    /// How many connections count in this peer's share: never more than allowed.
    pub fn count_of(&self, peer: Peer) -> usize
        ensures value { result ≡ count_of_peer peer (slots_of self.now) }
        ensures few { result ≤ (bounds_of self.now).per_peer }
    {
        self.slots.count_of(peer)
    }

    /// Whether this share has as many as allowed. What counts in none may always come.
    pub fn is_share_full(&self, share: Option<Peer>) -> bool
        ensures value { result ≡ is_share_full_of (bounds_of self.now).per_peer (slots_of self.now) share }
    {
        self.slots.is_share_full(share)
    }

    /// A connection between these two was accepted, which counts in this share, or in none: it is in this slot, which was
    /// free. None if there are as many as allowed, in all or in this share, or after 18,446,744,073,709,551,615: more
    /// than can come in five hundred years.
    #[tactic(auto, using(chpw_slots::proofs::HoldsLemmas::holds_accepted))]
    pub fn accept(&mut self, ends: Endpoints, share: Option<Peer>, now: u64) -> Option<usize>
        ensures some { slab_len (slots_of self.old) < (bounds_of self.old).connections
            → is_share_full_of (bounds_of self.old).per_peer (slots_of self.old) share ≡ false
            → accepted_by self.old < 18446744073709551615 → IsSome result }
        ensures full { is_share_full_of (bounds_of self.old).per_peer (slots_of self.old) share ≡ true → result ≡ None }
        ensures accepted { IfSome result (λ slot. IsNew ends share now (accepted_by self.old) (slots_of self.old) (slots_of self.new) slot) }
        ensures counts { IfSome result (λ slot. Counts self.new (accepted_by self.old + 1) (removed_by self.old)) }
        ensures expired { expired_by self.new ≡ expired_by self.old }
        ensures queues { queues_of self.new ≡ queues_of self.old }
        ensures held { held_in (slots_of self.new) ≤ held_in (slots_of self.old) }
        ensures bounds { bounds_of self.new ≡ bounds_of self.old }
        ensures notes { noted_by self.new ≡ noted_by self.old }
        ensures unchanged { IfNone result (self.new ≡ self.old) }
    {
        if self.is_full() || self.is_share_full(share) || self.accepted == u64::MAX {
            return None;
        }
        let connection = Connection::new(self.alloc, self.accepted, ends, share, now);
        let slot = self.slots.accept(connection);
        self.accepted += 1;
        Some(slot)
    }

    /// How many bytes may be read of a connection now; none of one whose message waits or is answered.
    pub fn bytes_to_read(&self, slot: usize) -> usize
        ensures value { result ≡ wanted_at (get (slots_of self.now) slot) }
    {
        self.slots.bytes_to_read(slot)
    }

    /// The client closed its writing side, and all that it wrote was read.
    #[tactic(auto, using(chpw_slots::proofs::HoldsLemmas::holds_quiet))]
    pub fn input_ended(&mut self, slot: usize)
        ensures happens { Happens 0 (slots_of self.old) (slots_of self.new) slot closed }
        ensures rest { Rest self.old self.new }
        ensures held { held_in (slots_of self.new) ≤ held_in (slots_of self.old) }
        ensures notes { NotesEach (noted_by self.old) (noted_by self.new) (slot_if (ends_closed_in (get (slots_of self.old) slot)) slot) }
        ensures queues { queues_of self.new ≡ queues_of self.old }
    {
        let can_end = self.is_reading(slot) || self.is_lingering(slot);
        self.slots
            .change(self.alloc, slot, ConnectionEvent::Closed, 0);
        self.note_where(can_end, slot);
    }

    /// The connection can't go on. A message that waits is dropped with it.
    pub fn fail(&mut self, slot: usize)
        ensures happens { Happens 0 (slots_of self.old) (slots_of self.new) slot failed }
        ensures rest { Rest self.old self.new }
        ensures held { held_in (slots_of self.new) ≤ held_in (slots_of self.old) }
        ensures notes { NotesEach (noted_by self.old) (noted_by self.new) (slot_if (not (is_gone_in (get (slots_of self.old) slot))) slot) }
        ensures leaves { Leaves (queues_of self.old) (queues_of self.new) slot }
        ensures same { queued_at (get (slots_of self.old) slot) ≡ None → queues_of self.new ≡ queues_of self.old }
    {
        let can_fail = !self.is_gone(slot);
        let number = self.slots.waiting_number(slot);
        self.queues.leave(number, slot);
        self.slots
            .change(self.alloc, slot, ConnectionEvent::Failed, 0);
        self.note_where(can_fail, slot);
    }

    /// What is left to write of a connection's reply.
    pub fn pending_output(&self, slot: usize) -> &[u8]
        ensures value { result.now ≡ left_at (get (slots_of self.now) slot) }
    {
        self.slots.pending_output(slot)
    }

    /// `count` bytes of a connection's reply were written.
    #[tactic(auto, using(chpw_slots::proofs::HoldsLemmas::holds_quiet))]
    pub fn wrote(&mut self, slot: usize, count: usize, now: u64)
        ensures happens { Happens now (slots_of self.old) (slots_of self.new) slot (wrote count) }
        ensures rest { Rest self.old self.new }
        ensures held { held_in (slots_of self.new) ≤ held_in (slots_of self.old) }
        ensures notes { noted_by self.new ≡ noted_by self.old }
        ensures queues { queues_of self.new ≡ queues_of self.old }
    {
        let change = ConnectionEvent::Wrote { count };
        self.slots.change(self.alloc, slot, change, now);
    }

    /// Whether the last reply of a connection is out, and its end is awaited.
    pub fn is_lingering(&self, slot: usize) -> bool
        ensures value { result ≡ is_lingering_in (get (slots_of self.now) slot) }
    {
        match self.slots.get(slot) {
            None => false,
            Some(connection) => matches!(connection.phase, Phase::Lingering),
        }
    }

    /// Whether a connection has ended and only has to be removed.
    pub fn is_ended(&self, slot: usize) -> bool
        ensures value { result ≡ is_ended_in (get (slots_of self.now) slot) }
    {
        match self.slots.get(slot) {
            None => false,
            Some(connection) => matches!(connection.phase, Phase::Ended),
        }
    }

    /// Removes a connection that has ended; whether it had. Its slot is free then.
    #[tactic(auto, using(chpw_slots::proofs::HoldsLemmas::holds_removed))]
    pub fn remove(&mut self, slot: usize) -> bool
        ensures value { result ≡ is_ended_in (get (slots_of self.old) slot) }
        ensures freed { result ≡ true → Updates (slots_of self.old) (slots_of self.new) slot None }
        ensures removed { result ≡ true → Counts self.new (accepted_by self.old) (removed_by self.old + 1) }
        ensures expired { expired_by self.new ≡ expired_by self.old }
        ensures held { held_in (slots_of self.new) ≤ held_in (slots_of self.old) }
        ensures bounds { bounds_of self.new ≡ bounds_of self.old }
        ensures notes { noted_by self.new ≡ noted_by self.old }
        ensures queues { queues_of self.new ≡ queues_of self.old }
        ensures unchanged { result ≡ false → self.new ≡ self.old }
    {
        if !self.is_ended(slot) {
            return false;
        }
        self.slots.remove(slot);
        self.removed += 1;
        true
    }

    /// Ends the connections whose time is up; the others stay unchanged, and so does the order of those that wait.
    pub fn pass(&mut self, now: u64)
        ensures passed { (slot : ℕ) → Passes (bounds_of self.old) now (get (slots_of self.old) slot) (get (slots_of self.new) slot) }
        ensures workers { workers_of self.new ≡ workers_of self.old }
        ensures counts { Counts self.new (accepted_by self.old) (removed_by self.old) }
        ensures expired { expired_by self.new ≡ and_more (dropped_in (bounds_of self.old) now (slots_of self.old)) (expired_by self.old) }
        ensures held { held_in (slots_of self.new) ≤ held_in (slots_of self.old) }
        ensures bounds { bounds_of self.new ≡ bounds_of self.old }
        ensures notes { NotesEach (noted_by self.old) (noted_by self.new) (slots_where (is_late_in (bounds_of self.old) now) (slots_of self.old)) }
        ensures queues { (worker : ℕ) → queue_of self.new worker ≡ in_time (bounds_of self.old) now (slots_of self.old) (queue_of self.old worker) }
    {
        for slot in 0..self.slots.capacity() {
            self.pass_slot(slot, now);
        }
    }

    // Ends the connection in a slot if its time is up.
    fn pass_slot(&mut self, slot: usize, now: u64)
        ensures passed { Passes (bounds_of self.old) now (get (slots_of self.old) slot) (get (slots_of self.new) slot) }
        ensures others { (other : ℕ) → other ≢ slot → get (slots_of self.new) other ≡ get (slots_of self.old) other }
        ensures workers { workers_of self.new ≡ workers_of self.old }
        ensures counts { Counts self.new (accepted_by self.old) (removed_by self.old) }
        ensures expired { expired_by self.new ≡ one_more (is_dropped_in (bounds_of self.old) now (get (slots_of self.old) slot)) (expired_by self.old) }
        ensures held { held_in (slots_of self.new) ≤ held_in (slots_of self.old) }
        ensures bounds { bounds_of self.new ≡ bounds_of self.old }
        ensures notes { NotesEach (noted_by self.old) (noted_by self.new) (slot_if (is_late_in (bounds_of self.old) now (get (slots_of self.old) slot)) slot) }
        ensures queues { MatchBool (is_late_in (bounds_of self.old) now (get (slots_of self.old) slot))
            (Leaves (queues_of self.old) (queues_of self.new) slot) (queues_of self.new ≡ queues_of self.old) }
    {
        if self.is_late(slot, now) {
            self.count_dropped(slot);
            self.fail(slot);
        }
    }

    // Counts the message of a connection that waits for a worker, if there is one.
    fn count_dropped(&mut self, slot: usize)
        ensures expired { expired_by self.new ≡ one_more (is_some (queued_at (get (slots_of self.old) slot))) (expired_by self.old) }
        ensures slots { slots_of self.new ≡ slots_of self.old }
        ensures queues { queues_of self.new ≡ queues_of self.old }
        ensures counts { Counts self.new (accepted_by self.old) (removed_by self.old) }
        ensures bounds { bounds_of self.new ≡ bounds_of self.old }
        ensures notes { noted_by self.new ≡ noted_by self.old }
    {
        if self.is_waiting(slot) {
            self.expired = self.expired.saturating_add(1);
        }
    }

    // Whether the time of a slot's connection is up.
    pub(crate) fn is_late(&self, slot: usize, now: u64) -> bool
        ensures value { result ≡ is_late_in (bounds_of self.now) now (get (slots_of self.now) slot) }
    {
        match self.slots.get(slot) {
            None => false,
            Some(connection) => connection.is_late(&self.bounds, now),
        }
    }
}
