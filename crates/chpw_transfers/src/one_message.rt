//! A datagram as a connection of one message.
ghost use Rattle.std.specs.Prelude.{◌≡◌, ◌≢◌, ◌<◌, ◌^◌, ◌⊎◌, ℕ, nat_lt, false, IfSome, IfNone, Some, None, length};
ghost use Rattle.slab.specs.Slab.{get, slab_len};
ghost use Rattle.chpw_connections.specs.Held.{slots_of, bounds_of, accepted_by};
ghost use Rattle.chpw_connections.specs.Queues.{workers_of};
ghost use Rattle.chpw_connections.specs.Room.{HappensWithRoom, for_message, has_room_to_read};
ghost use Rattle.chpw_slots.specs.Slots.{Happens};
ghost use Rattle.chpw_connection.specs.Slot.{left_at, wanted_at};
ghost use Rattle.chpw_connection.specs.Stages.{closed, came, wrote};
ghost use Rattle.chpw_slots.specs.Waiting.{waits_for};
ghost use Rattle.chpw_transfers.specs.Datagrams.{TakesDatagram, DropsDatagram, BeginsAndDrops, EndsNoMore};
ghost use Rattle.chpw_transfers.specs.Datagrams.{CameOrFailed, CameIfRead, in_datagram, length_before};
ghost use Rattle.chpw_transfers.specs.declared.state.Progress.TheVariants as progress;

use crate::state::{Progress, State};
use chpw_endpoints::Endpoints;

/// The bytes of the length that precedes a message or a reply over TCP.
const LENGTH: usize = 4;

/// A reply as it is sent in a datagram: without its length.
pub fn reply_of_datagram(reply: &[u8]) -> &[u8]
    ensures value { result.now ≡ in_datagram reply.now }
{
    &reply[LENGTH.min(reply.len())..]
}

// The length of a message, as it would precede it over TCP; none for 4 GiB or more.
fn length_of(message: &[u8]) -> Option<[u8; 4]>
    ensures value { IfSome result (λ l. l ≡ length_before message.now) }
    ensures fits { IfSome result (λ _. length message.now < 2 ^ 32) }
{
    match u32::try_from(message.len()) {
        Err(_) => None,
        Ok(length) => Some(length.to_be_bytes()),
    }
}

impl State {
    /// A message came in a datagram between these two. In a new connection it waits for its worker, as if it had come with
    /// its length over TCP. It counts in nobody's share, since its sender's address may be forged. None if there are as many
    /// connections as allowed, or no room or memory for it: then no connection is left of it. Others may have ended to make
    /// room, as for any message: those that gave way to it, in their turn.
    pub fn take_datagram(
        &mut self,
        ends: Endpoints,
        message: &[u8],
        now: u64,
    ) -> Option<(usize, usize)>
        ensures bounds { bounds_of self.new.connections ≡ bounds_of self.old.connections }
        ensures taken { IfSome result (λ r. TakesDatagram (bounds_of self.old.connections) now ends (accepted_by self.old.connections) message.now
            (slots_of self.old.connections) (slots_of self.new.connections) r.0 r.1 (workers_of self.old.connections)) }
        ensures dropped { IfNone result (DropsDatagram (slots_of self.old.connections) (slots_of self.new.connections)) }
        ensures in_turn { IfNone result ((self.new ≡ self.old)
            ⊎ BeginsAndDrops (bounds_of self.old.connections) now ends (accepted_by self.old.connections) message.now
            (slots_of self.old.connections) (slots_of self.new.connections)) }
        ensures full { nat_lt (slab_len (slots_of self.old.connections)) (bounds_of self.old.connections).connections ≡ false
            → (result ≡ None) × (self.new ≡ self.old) }
        ensures rest { self.new ≡ record self.old { connections = self.new.connections } }
    {
        let length = length_of(message)?;
        let slot = self.connections.accept(ends, None, now)?;
        self.length_came(slot, &length, now);
        match self.message_came(slot, message, now) {
            Some(worker) => Some((slot, worker)),
            None => {
                self.connections.fail(slot);
                self.connections.remove(slot);
                None
            }
        }
    }

    // The length of a message came.
    fn length_came(&mut self, slot: usize, length: &[u8], now: u64)
        ensures happens { CameOrFailed (bounds_of self.old.connections) now (slots_of self.old.connections) (slots_of self.new.connections) slot length.now }
        ensures needed { EndsNoMore (bounds_of self.old.connections) now (slots_of self.old.connections) (slots_of self.new.connections) slot }
        ensures full { has_room_to_read (bounds_of self.old.connections) now (slots_of self.old.connections) slot ≡ false
            → (other : ℕ) → other ≢ slot → get (slots_of self.new.connections) other ≡ get (slots_of self.old.connections) other }
        ensures bounds { bounds_of self.new.connections ≡ bounds_of self.old.connections }
        ensures workers { workers_of self.new.connections ≡ workers_of self.old.connections }
        ensures rest { self.new ≡ record self.old { connections = self.new.connections } }
    {
        self.connections.receive(slot, length, now);
    }

    // All of a message came, after its length: the worker for whom it waits now; none if it can't wait.
    fn message_came(&mut self, slot: usize, message: &[u8], now: u64) -> Option<usize>
        ensures queued { IfSome result (λ _. HappensWithRoom (for_message (bounds_of self.old.connections) now (get (slots_of self.old.connections) slot)) now
            (slots_of self.old.connections) (slots_of self.new.connections) slot (came message.now)) }
        ensures waits { IfSome result (λ worker. waits_for (workers_of self.old.connections) (get (slots_of self.new.connections) slot) ≡ Some worker) }
        ensures wanted { IfSome result (λ _. wanted_at (get (slots_of self.old.connections) slot) ≢ 0) }
        ensures none { IfNone result (CameIfRead (bounds_of self.old.connections) now
            (slots_of self.old.connections) (slots_of self.new.connections) slot message.now) }
        ensures needed { EndsNoMore (bounds_of self.old.connections) now (slots_of self.old.connections) (slots_of self.new.connections) slot }
        ensures full { has_room_to_read (bounds_of self.old.connections) now (slots_of self.old.connections) slot ≡ false
            → (result ≡ None) × (self.new ≡ self.old) }
        ensures bounds { bounds_of self.new.connections ≡ bounds_of self.old.connections }
        ensures rest { self.new ≡ record self.old { connections = self.new.connections } }
    {
        if self.connections.bytes_to_read(slot) == 0
            || !self.connections.has_room_to_read(slot, now)
        {
            return None;
        }
        self.connections.receive(slot, message, now)
    }

    /// No more comes for a connection: a datagram has one message.
    pub fn end_input(&mut self, slot: usize) -> Progress
        ensures value { result ≡ progress.Moved }
        ensures happens { Happens 0 (slots_of self.old.connections) (slots_of self.new.connections) slot closed }
        ensures bounds { bounds_of self.new.connections ≡ bounds_of self.old.connections }
        ensures rest { self.new ≡ record self.old { connections = self.new.connections } }
    {
        self.connections.input_ended(slot);
        Progress::Moved
    }

    /// All that was left of a connection's reply was sent.
    pub fn wrote_all(&mut self, slot: usize, now: u64) -> Progress
        ensures value { result ≡ progress.Moved }
        ensures happens { Happens now (slots_of self.old.connections) (slots_of self.new.connections) slot
            (wrote (length (left_at (get (slots_of self.old.connections) slot)))) }
        ensures bounds { bounds_of self.new.connections ≡ bounds_of self.old.connections }
        ensures rest { self.new ≡ record self.old { connections = self.new.connections } }
    {
        let count = self.connections.pending_output(slot).len();
        self.connections.wrote(slot, count, now);
        Progress::Moved
    }
}
