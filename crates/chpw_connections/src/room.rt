//! How much room there is, and who is ended to make more.
ghost use Rattle.std.specs.Prelude.{◌≡◌, ◌+◌, ◌≤◌, ◌<◌, ℕ, not, nat_lt, true, false, ◌^◌, ◌&&◌, ◌∷◌, [], IfSome, IfNone};
ghost use Rattle.chpw_slots.specs.Slots.{held_in, Happens};
ghost use Rattle.chpw_connection.specs.Holding.{growth_at};
ghost use Rattle.chpw_connection.specs.Stages.{failed};
ghost use Rattle.chpw_slots.specs.Longest.{IsLongest, NobodyWaits, IsLongestOf, NobodyWaitsOf, has_room_besides};
ghost use Rattle.chpw_connection.specs.Slot.{is_answering_in};
ghost use Rattle.slab.specs.Slab.{get};
ghost use Rattle.chpw_connections.specs.Room.{MakesRoom, IsNeeded, is_large_in, read_within, for_message, for_reply};
ghost use Rattle.chpw_connections.specs.Room.{has_room_to_read as has_room_to_read_in};
ghost use Rattle.chpw_connections.specs.Queues.{queues_of};
ghost use Rattle.chpw_connections.specs.Held.{slots_of, bounds_of};
ghost use Rattle.chpw_connections.specs.Rest.{Rest};
ghost use Rattle.chpw_connections.specs.Noting.{noted_by, NotesEach, NotesEnds};

use crate::set::Connections;
use chpw_connection::EvictionRule;
use chpw_endpoints::Peer;

/// A message of more bytes is a large one.
const LARGEST_SMALL: usize = 4_096;

impl Connections {
    /// How many bytes of messages and replies they hold together: never more than allowed.
    pub fn bytes_held(&self) -> usize
        ensures value { result ≡ held_in (slots_of self.now) }
        ensures bounded { result ≤ (bounds_of self.now).bytes }
    {
        self.slots.held
    }

    /// Ends the connection that has waited longest for its client, to make room: its slot, if there was one.
    #[tactic(auto, using(chpw_slots::proofs::HoldsLemmas::longest_not_queued))]
    pub fn make_room(&mut self) -> Option<usize>
        ensures ended { IfSome result (λ slot. IsLongest (slots_of self.old) slot
            × Happens 0 (slots_of self.old) (slots_of self.new) slot failed) }
        ensures nobody { IfNone result (NobodyWaits (slots_of self.old) × (slots_of self.new ≡ slots_of self.old)) }
        ensures noted { IfSome result (λ slot. NotesEach (noted_by self.old) (noted_by self.new) (slot ∷ [])) }
        ensures unnoted { IfNone result (noted_by self.new ≡ noted_by self.old) }
        ensures rest { Rest self.old self.new }
        ensures held { held_in (slots_of self.new) ≤ held_in (slots_of self.old) }
        ensures queues { queues_of self.new ≡ queues_of self.old }
    {
        let slot = self.slots.longest_waiting()?;
        self.fail(slot);
        Some(slot)
    }

    /// Ends the connection that has waited longest for its client of those in this peer's share, to make room in that: its
    /// slot, if there was one.
    #[tactic(auto, using(chpw_slots::proofs::HoldsLemmas::longest_of_not_queued))]
    pub fn make_room_for(&mut self, peer: Peer) -> Option<usize>
        ensures ended { IfSome result (λ slot. IsLongestOf peer (slots_of self.old) slot
            × Happens 0 (slots_of self.old) (slots_of self.new) slot failed) }
        ensures nobody { IfNone result (NobodyWaitsOf peer (slots_of self.old) × (slots_of self.new ≡ slots_of self.old)) }
        ensures noted { IfSome result (λ slot. NotesEach (noted_by self.old) (noted_by self.new) (slot ∷ [])) }
        ensures unnoted { IfNone result (noted_by self.new ≡ noted_by self.old) }
        ensures rest { Rest self.old self.new }
        ensures held { held_in (slots_of self.new) ≤ held_in (slots_of self.old) }
        ensures queues { queues_of self.new ≡ queues_of self.old }
    {
        let slot = self.slots.longest_of(peer)?;
        self.fail(slot);
        Some(slot)
    }

    /// Whether there is room to read the next bytes of a connection's message: four bytes for its length, and from its
    /// next byte on all that its length says, so that a message that is begun can be read to its end. Messages of more
    /// than 4,096 bytes may fill half of the bytes that may be held, and others three quarters: large messages leave
    /// room for small ones, and messages for replies. There is room too if `receive` would make it at this moment; if
    /// there is none, `receive` would end the connection itself.
    pub fn has_room_to_read(&self, slot: usize, now: u64) -> bool
        ensures value { result ≡ has_room_to_read_in (bounds_of self.now) now (slots_of self.now) slot }
    {
        let (most, who) = self.room_to_read(slot, now);
        let count = self.slots.growth(slot);
        self.has_room_for(count, most) || self.could_make_room(slot, count, most, who)
    }

    // How many bytes all may hold with those of a connection's message, and who may be ended for it.
    fn room_to_read(&self, slot: usize, now: u64) -> (usize, EvictionRule)
        ensures most { result.0 ≡ read_within (bounds_of self.now) (is_large_in (get (slots_of self.now) slot)) }
        ensures who { result.1 ≡ for_message (bounds_of self.now) now (get (slots_of self.now) slot) }
    {
        let bytes = self.bounds.bytes;
        let begun_by = now.saturating_sub(self.bounds.grace);
        let (most, larger_than) = if self.is_large(slot) {
            (bytes / 2, LARGEST_SMALL)
        } else {
            (bytes - bytes / 4, 0)
        };
        (
            most,
            EvictionRule {
                larger_than,
                begun_by,
            },
        )
    }

    // Makes room to read the next bytes of a connection's message; whether there is.
    pub(crate) fn find_room_to_read(&mut self, slot: usize, now: u64) -> bool
        ensures makes_room { MakesRoom (for_message (bounds_of self.old) now (get (slots_of self.old) slot)) (slots_of self.old) (slots_of self.new) slot }
        ensures value { result ≡ has_room_to_read_in (bounds_of self.old) now (slots_of self.old) slot }
        ensures room { result ≡ true → held_in (slots_of self.new) + growth_at (get (slots_of self.old) slot)
            ≤ read_within (bounds_of self.old) (is_large_in (get (slots_of self.old) slot)) }
        ensures within { result ≡ true → held_in (slots_of self.new) + growth_at (get (slots_of self.old) slot) ≤ (bounds_of self.new).bytes }
        ensures fits { result ≡ true → held_in (slots_of self.new) + growth_at (get (slots_of self.old) slot) < 2 ^ 64 }
        ensures enough { held_in (slots_of self.old) + growth_at (get (slots_of self.old) slot)
            ≤ read_within (bounds_of self.old) (is_large_in (get (slots_of self.old) slot))
            → slots_of self.new ≡ slots_of self.old }
        ensures none { result ≡ false → slots_of self.new ≡ slots_of self.old }
        ensures needed { IsNeeded (read_within (bounds_of self.old) (is_large_in (get (slots_of self.old) slot)))
            (growth_at (get (slots_of self.old) slot)) (for_message (bounds_of self.old) now (get (slots_of self.old) slot))
            (slots_of self.old) (slots_of self.new) slot }
        ensures rest { Rest self.old self.new }
        ensures held { held_in (slots_of self.new) ≤ held_in (slots_of self.old) }
        ensures notes { NotesEnds (for_message (bounds_of self.old) now (get (slots_of self.old) slot)) (slots_of self.old) (slots_of self.new) slot
            (noted_by self.old) (noted_by self.new) [] }
        ensures queues { queues_of self.new ≡ queues_of self.old }
    {
        let (most, who) = self.room_to_read(slot, now);
        let count = self.slots.growth(slot);
        self.find_room(slot, count, most, who)
    }

    // Makes room for a reply of this many bytes to a connection's message; whether there is, and a worker answers it.
    pub(crate) fn find_room_to_reply(&mut self, slot: usize, count: usize, now: u64) -> bool
        ensures makes_room { MakesRoom (for_reply now) (slots_of self.old) (slots_of self.new) slot }
        ensures value { result ≡ (is_answering_in (get (slots_of self.old) slot)
            && has_room_besides (bounds_of self.old).bytes (for_reply now) (slots_of self.old) slot count) }
        ensures within { result ≡ true → held_in (slots_of self.new) + count ≤ (bounds_of self.new).bytes }
        ensures fits { result ≡ true → held_in (slots_of self.new) + count < 2 ^ 64 }
        ensures enough { held_in (slots_of self.old) + count ≤ (bounds_of self.old).bytes
            → (result ≡ is_answering_in (get (slots_of self.old) slot)) × (slots_of self.new ≡ slots_of self.old) }
        ensures none { result ≡ false → slots_of self.new ≡ slots_of self.old }
        ensures needed { IsNeeded (bounds_of self.old).bytes count (for_reply now) (slots_of self.old) (slots_of self.new) slot }
        ensures rest { Rest self.old self.new }
        ensures held { held_in (slots_of self.new) ≤ held_in (slots_of self.old) }
        ensures notes { NotesEnds (for_reply now) (slots_of self.old) (slots_of self.new) slot (noted_by self.old) (noted_by self.new) [] }
        ensures queues { queues_of self.new ≡ queues_of self.old }
    {
        let most = self.bounds.bytes;
        let who = EvictionRule {
            larger_than: 0,
            begun_by: now,
        };
        self.is_answering(slot) && self.find_room(slot, count, most, who)
    }

    /// Whether the message of the connection in a slot has more than 4,096 bytes with its length, as far as that has
    /// come.
    pub fn is_large(&self, slot: usize) -> bool
        ensures value { result ≡ is_large_in (get (slots_of self.now) slot) }
    {
        match self.slots.get(slot) {
            None => false,
            Some(connection) => connection.size() > LARGEST_SMALL,
        }
    }

    // Makes room for this many more bytes of a connection, so that all hold no more than `most`; whether there is. If
    // there isn't, candidates that hold bytes are ended, if that is enough.
    pub(crate) fn find_room(
        &mut self,
        slot: usize,
        count: usize,
        most: usize,
        who: EvictionRule,
    ) -> bool
        ensures makes_room { MakesRoom who (slots_of self.old) (slots_of self.new) slot }
        ensures value { result ≡ has_room_besides most who (slots_of self.old) slot count }
        ensures room { result ≡ true → held_in (slots_of self.new) + count ≤ most }
        ensures fits { result ≡ true → held_in (slots_of self.new) + count < 2 ^ 64 }
        ensures enough { held_in (slots_of self.old) + count ≤ most → (result ≡ true) × (slots_of self.new ≡ slots_of self.old) }
        ensures none { result ≡ false → slots_of self.new ≡ slots_of self.old }
        ensures needed { IsNeeded most count who (slots_of self.old) (slots_of self.new) slot }
        ensures rest { Rest self.old self.new }
        ensures held { held_in (slots_of self.new) ≤ held_in (slots_of self.old) }
        ensures notes { NotesEnds who (slots_of self.old) (slots_of self.new) slot (noted_by self.old) (noted_by self.new) [] }
        ensures queues { queues_of self.new ≡ queues_of self.old }
    {
        if self.has_room_for(count, most) {
            return true;
        }
        if !self.could_make_room(slot, count, most, who) {
            return false;
        }
        self.put_out_for(slot, count, most, who);
        true
    }

    // Whether this many more bytes may be held within a bound.
    fn has_room_for(&self, count: usize, most: usize) -> bool
        ensures value { result ≡ not (nat_lt most (held_in (slots_of self.now) + count)) }
    {
        count <= most && self.slots.held <= most - count
    }

    // Whether this many more bytes of a connection could be held within a bound if all that give way to it had ended.
    fn could_make_room(&self, slot: usize, count: usize, most: usize, who: EvictionRule) -> bool
        ensures value { result ≡ has_room_besides most who (slots_of self.now) slot count }
    {
        count <= most && self.slots.staying_besides(slot, who) <= most - count
    }

    // Ends others that give way, those that have waited longest first, until this many more bytes may be held.
    fn put_out_for(&mut self, slot: usize, count: usize, most: usize, who: EvictionRule)
        requires enough { has_room_besides most who (slots_of self.old) slot count ≡ true }
        ensures makes_room { MakesRoom who (slots_of self.old) (slots_of self.new) slot }
        ensures room { held_in (slots_of self.new) + count ≤ most }
        ensures needed { IsNeeded most count who (slots_of self.old) (slots_of self.new) slot }
        ensures rest { Rest self.old self.new }
        ensures held { held_in (slots_of self.new) ≤ held_in (slots_of self.old) }
        ensures notes { NotesEnds who (slots_of self.old) (slots_of self.new) slot (noted_by self.old) (noted_by self.new) [] }
        ensures queues { queues_of self.new ≡ queues_of self.old }
    {
        while !self.has_room_for(count, most) {
            match self.slots.longest_besides(Some(slot), who) {
                None => return,
                Some(other) => self.fail(other),
            }
        }
    }
}
