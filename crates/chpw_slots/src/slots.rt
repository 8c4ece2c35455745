//! Connections by slot, and how each event comes to one of them.
ghost use Rattle.std.specs.Prelude.{◌≡◌, ◌+◌, ◌<◌, ◌≤◌, ◌^◌, ◌%◌, ℕ, Some, None, IfSome, IfNone, IfOk, OnOk};
ghost use Rattle.std.specs.Prelude.{false, OnErr, OnSome, option_copied, option_map, length, is_some, if◌then◌else◌};
ghost use Rattle.slab.specs.Slab.{get, slab_len, HasRoomFor, Updates};
ghost use Rattle.chpw_connection.specs.Holding.{held_by, held_at, growth_at};
ghost use Rattle.chpw_slots.specs.Slots.{held_in, Happens, Stands};
ghost use Rattle.chpw_connection.specs.Changes.{event_of, added_by};
ghost use Rattle.chpw_connection.specs.Stages.{came, taken, failed};
ghost use Rattle.chpw_connection.specs.Slot.{wanted_at, left_at, queued_at, is_newly_queued};
ghost use Rattle.chpw_slots.specs.Waiting.{waits_for};
ghost use Rattle.chpw_connection.specs.Shares.{one_of_share};
ghost use Rattle.chpw_endpoints.specs.declared.peer.Peer.{Peer};
ghost use Rattle.chpw_slots.specs.Shares.{count_of, is_share_full, IsShared};

use chpw_connection::{Connection, ConnectionEvent, Phase, WholeMessage};
use chpw_endpoints::{Endpoints, Peer};
use slab::Slab;
use std::alloc::{AllocError, Global};

/// Connections, each in a slot of its own, how many bytes they hold together, and how many may be one peer's.
#[derive(Drop)]
pub struct Slots {
    pub connections: Slab<Connection>,
    pub held: usize,
    pub per_peer: usize,
    pub ghost held_is: { held ≡ held_in connections },
    // So what adds no bytes fits.
    pub ghost fits: { held_in connections < 2 ^ 64 },
    // No peer has more than its share.
    pub ghost shared: { IsShared per_peer connections },
}

impl Slots {
    /// None yet, with room for `count`, of which one peer may have `per_peer`.
    #[tactic(auto, using(crate::proofs::PeerLemmas::shared_none))]
    pub fn new(alloc: Global, count: usize, per_peer: usize) -> Result<Slots, AllocError>
        ensures none { IfOk result (λ s. slab_len s.connections ≡ 0) }
        ensures room { IfOk result (λ s. count ≤ s.connections.capacity) }
        ensures nothing { IfOk result (λ s. s.held ≡ 0) }
        ensures per_peer { IfOk result (λ s. s.per_peer ≡ per_peer) }
    {
        Ok(Slots {
            connections: Slab::with_capacity(alloc, count)?,
            held: 0,
            per_peer,
        })
    }

    /// How many there are.
    pub fn len(&self) -> usize
        ensures value { result ≡ slab_len self.now.connections }
    {
        self.connections.len()
    }

    /// Puts a connection that was accepted just now into a free slot.
    #[tactic(auto, using(crate::proofs::HeldLemmas::held_adds, crate::proofs::PeerLemmas::shared_accepted))]
    pub fn accept(&mut self, connection: Connection) -> usize
        requires room { HasRoomFor self.old.connections 1 }
        requires nothing { held_by connection.phase ≡ 0 }
        requires share { is_share_full self.old.per_peer self.old.connections connection.share ≡ false }
        ensures per_peer { self.new.per_peer ≡ self.old.per_peer }
        ensures free { get self.old.connections result ≡ None }
        ensures updates { Updates self.old.connections self.new.connections result (Some connection) }
        ensures len { slab_len self.new.connections ≡ slab_len self.old.connections + 1 }
        ensures capacity { self.new.connections.capacity ≡ self.old.connections.capacity }
        ensures held { self.new.held ≡ self.old.held }
    {
        self.connections.insert_reserved(connection)
    }

    /// Drops the connection in a slot; whether there was one.
    pub fn remove(&mut self, slot: usize) -> bool
        ensures updates { Updates self.old.connections self.new.connections slot None }
        ensures capacity { self.new.connections.capacity ≡ self.old.connections.capacity }
        ensures len { slab_len self.new.connections + (if result then 1 else 0) ≡ slab_len self.old.connections }
        ensures there { result ≡ is_some (get self.old.connections slot) }
        ensures held { self.new.held ≤ self.old.held }
        ensures per_peer { self.new.per_peer ≡ self.old.per_peer }
    {
        self.take_out(slot).is_some()
    }

    // Takes the connection out of a slot, which is the next one to be filled.
    #[tactic(auto, using(crate::proofs::HeldLemmas::held_updates, crate::proofs::PeerLemmas::shared_removed, crate::proofs::PeerLemmas::shared_with))]
    fn take_out(&mut self, slot: usize) -> Option<Connection>
        ensures value { result ≡ get self.old.connections slot }
        ensures updates { Updates self.old.connections self.new.connections slot None }
        ensures next { OnSome result (self.new.connections.vacant_key ≡ slot) }
        ensures len { OnSome result (slab_len self.new.connections + 1 ≡ slab_len self.old.connections) }
        ensures capacity { self.new.connections.capacity ≡ self.old.connections.capacity }
        ensures room { OnSome result (HasRoomFor self.new.connections 1) }
        ensures held { self.new.held + held_at result ≡ self.old.held }
        ensures fits { IfSome result (λ c. self.new.held + held_by c.phase < 2 ^ 64) }
        ensures share { IfSome result (λ c. (peer : Peer) → count_of peer self.new.connections + one_of_share peer c.share ≤ self.new.per_peer) }
        ensures per_peer { self.new.per_peer ≡ self.old.per_peer }
        ensures absent { IfNone result (self.new ≡ self.old) }
    {
        match self.connections.try_remove(slot) {
            None => None,
            Some(connection) => {
                self.held -= connection.bytes_held();
                Some(connection)
            }
        }
    }

    // Puts a connection into the slot that is the next one to be filled.
    #[tactic(auto, using(crate::proofs::HeldLemmas::held_adds, crate::proofs::PeerLemmas::shared_put))]
    fn put_back(&mut self, connection: Connection)
        requires room { HasRoomFor self.old.connections 1 }
        requires fits { self.old.held + held_by connection.phase < 2 ^ 64 }
        requires share { (peer : Peer) → count_of peer self.old.connections + one_of_share peer connection.share ≤ self.old.per_peer }
        ensures per_peer { self.new.per_peer ≡ self.old.per_peer }
        ensures updates { Updates self.old.connections self.new.connections self.old.connections.vacant_key (Some connection) }
        ensures len { slab_len self.new.connections ≡ slab_len self.old.connections + 1 }
        ensures capacity { self.new.connections.capacity ≡ self.old.connections.capacity }
        ensures held { self.new.held ≡ self.old.held + held_by connection.phase }
    {
        self.held += connection.bytes_held();
        self.connections.insert_reserved(connection);
    }

    /// Bytes came; whether its message is complete with them, and waits. Without memory for them the connection has
    /// ended.
    pub fn receive(&mut self, slot: usize, bytes: &[u8], now: u64) -> Result<bool, AllocError>
        requires fits { held_in self.old.connections + growth_at (get self.old.connections slot) < 2 ^ 64 }
        ensures happens { OnOk result (Happens now self.old.connections self.new.connections slot (came bytes.now)) }
        ensures ended { OnErr result (Happens 0 self.old.connections self.new.connections slot failed) }
        ensures whole { IfOk result (λ whole. whole ≡ is_newly_queued (queued_at (get self.old.connections slot)) (queued_at (get self.new.connections slot))) }
        ensures reading { OnErr result (queued_at (get self.old.connections slot) ≡ None) }
        ensures stands { Stands self.old.connections self.new.connections }
        ensures held { self.new.held ≤ self.old.held + growth_at (get self.old.connections slot) }
        ensures per_peer { self.new.per_peer ≡ self.old.per_peer }
    {
        match self.take_out(slot) {
            None => Ok(false),
            Some(mut connection) => {
                let received = connection.receive(bytes, now);
                self.put_back(connection);
                received
            }
        }
    }

    /// The message in a slot goes to a worker.
    pub fn take(&mut self, slot: usize) -> Option<WholeMessage>
        ensures happens { Happens 0 self.old.connections self.new.connections slot taken }
        ensures message { IfSome result (λ message. queued_at (get self.old.connections slot) ≡ Some message.bytes.items) }
        ensures none { IfNone result (queued_at (get self.old.connections slot) ≡ None) }
        ensures stands { Stands self.old.connections self.new.connections }
        ensures held { self.new.held ≤ self.old.held }
        ensures per_peer { self.new.per_peer ≡ self.old.per_peer }
    {
        match self.take_out(slot) {
            None => None,
            Some(mut connection) => {
                let message = connection.take();
                self.put_back(connection);
                message
            }
        }
    }

    /// This happens to the connection in a slot, if there is one.
    pub fn change(&mut self, alloc: Global, slot: usize, change: ConnectionEvent, now: u64)
        requires fits { held_in self.old.connections + added_by change < 2 ^ 64 }
        ensures happens { Happens now self.old.connections self.new.connections slot (event_of change) }
        ensures stands { Stands self.old.connections self.new.connections }
        ensures held { self.new.held ≤ self.old.held + added_by change }
        ensures per_peer { self.new.per_peer ≡ self.old.per_peer }
    {
        if let Some(mut connection) = self.take_out(slot) {
            connection.change(alloc, change, now);
            self.put_back(connection);
        }
    }

    pub fn get(&self, slot: usize) -> Option<&Connection>
        ensures value { option_copied result ≡ get self.now.connections slot }
    {
        self.connections.get(slot)
    }

    /// The number of the connection in a slot.
    pub fn number(&self, slot: usize) -> Option<u64>
        ensures value { result ≡ option_map (λ c. c.number) (get self.now.connections slot) }
    {
        match self.connections.get(slot) {
            None => None,
            Some(connection) => Some(connection.number),
        }
    }

    /// The number of a connection whose message waits for a worker.
    pub fn waiting_number(&self, slot: usize) -> Option<u64>
        ensures waits { IfSome result (λ number. (workers : ℕ) → waits_for workers (get self.now.connections slot) ≡ Some (number % workers)) }
        ensures none { IfNone result (queued_at (get self.now.connections slot) ≡ None) }
    {
        match self.connections.get(slot) {
            Some(connection) if matches!(connection.phase, Phase::Queued(_)) => {
                Some(connection.number)
            }
            _ => None,
        }
    }

    /// The two addresses of the connection in a slot.
    pub fn ends(&self, slot: usize) -> Endpoints
        ensures value { IfSome (get self.now.connections slot) (λ c. result ≡ c.ends) }
    {
        match self.connections.get(slot) {
            None => Endpoints::LOOPBACK,
            Some(connection) => connection.ends,
        }
    }

    /// Each slot is below this number.
    pub fn capacity(&self) -> usize
        ensures value { result ≡ self.now.connections.capacity }
        ensures slots { length self.now.connections.slots ≤ result }
    {
        self.connections.capacity()
    }

    /// How many bytes may be read in a slot.
    pub fn bytes_to_read(&self, slot: usize) -> usize
        ensures value { result ≡ wanted_at (get self.now.connections slot) }
    {
        match self.connections.get(slot) {
            None => 0,
            Some(connection) => connection.bytes_to_read(),
        }
    }

    /// How many more bytes are held once the next ones are read in a slot.
    pub fn growth(&self, slot: usize) -> usize
        ensures value { result ≡ growth_at (get self.now.connections slot) }
    {
        match self.connections.get(slot) {
            None => 0,
            Some(connection) => connection.growth(),
        }
    }

    /// What is left to write in a slot.
    pub fn pending_output(&self, slot: usize) -> &[u8]
        ensures value { result.now ≡ left_at (get self.now.connections slot) }
    {
        match self.connections.get(slot) {
            None => &[],
            Some(connection) => connection.pending_output(),
        }
    }
}
