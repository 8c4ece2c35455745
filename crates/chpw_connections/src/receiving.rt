//! Bytes of a message that come.
ghost use Rattle.std.specs.Prelude.{◌≡◌, ◌≢◌, ◌+◌, ◌<◌, ◌≤◌, ◌&&◌, ◌%◌, ℕ, true, false, IfSome, IfNone, Some, None, ◌⊎◌};
ghost use Rattle.std.specs.Prelude.{◌∷◌, ◌++◌, []};
ghost use Rattle.slab.specs.Slab.{get};
ghost use Rattle.chpw_slots.specs.Slots.{held_in, Happens};
ghost use Rattle.chpw_connection.specs.Holding.{growth_at};
ghost use Rattle.chpw_connection.specs.Stages.{came, failed};
ghost use Rattle.chpw_connection.specs.Slot.{wanted_at, is_ended_in, is_reading_in};
ghost use Rattle.chpw_connections.specs.Room.{HappensWithRoom, IsNeeded, read_within, for_message, is_large_in};
ghost use Rattle.chpw_connections.specs.Room.{has_room_to_read as has_room_to_read_in};
ghost use Rattle.chpw_connections.specs.Queues.{queues_of, queue_of, workers_of};
ghost use Rattle.chpw_slots.specs.Waiting.{waits_for, Becomes, Leaves};
ghost use Rattle.chpw_connections.specs.Held.{slots_of, bounds_of};
ghost use Rattle.chpw_connections.specs.Rest.{Rest};
ghost use Rattle.chpw_connections.specs.Noting.{noted_by, NotesEnds, slot_if};

use crate::set::Connections;
use chpw_connection::at_most;

impl Connections {
    /// These bytes of a connection's message came, of which those count that are wanted. If the message is complete
    /// with them, it waits at the end of its worker's queue, and the worker is returned: the connection's number modulo
    /// the number of workers. If there is no room for them (`has_room_to_read`), others are ended that hold bytes and
    /// have been under way for the bounds' grace, the longest first: for a large message only other large ones, and
    /// nobody if that isn't enough. Without room or memory for them the connection is ended. Bytes for a free slot, and
    /// for a connection that wants none now, change nothing.
    #[tactic(auto, using(chpw_connection::proofs::ReadingLemmas::unwanted_unread))]
    pub fn receive(&mut self, slot: usize, bytes: &[u8], now: u64) -> Option<usize>
        ensures queued { IfSome result (λ worker. HappensWithRoom (for_message (bounds_of self.old) now
            (get (slots_of self.old) slot)) now (slots_of self.old) (slots_of self.new) slot (came bytes.now)) }
        ensures joins { IfSome result (λ worker. Becomes (queues_of self.old) (queues_of self.new) worker (queue_of self.old worker ++ slot ∷ [])) }
        ensures worker { IfSome result (λ worker. IfSome (get (slots_of self.old) slot) (λ c. worker ≡ c.number % workers_of self.old)) }
        ensures within { IfSome result (λ worker. worker < workers_of self.new) }
        ensures waits { IfSome result (λ worker. waits_for (workers_of self.new) (get (slots_of self.new) slot) ≡ Some worker) }
        ensures read { IfNone result (HappensWithRoom (for_message (bounds_of self.old) now
            (get (slots_of self.old) slot)) now (slots_of self.old) (slots_of self.new) slot (came bytes.now)
            ⊎ HappensWithRoom (for_message (bounds_of self.old) now (get (slots_of self.old) slot)) 0 (slots_of self.old) (slots_of self.new) slot failed) }
        ensures stays { IfNone result ((queues_of self.new ≡ queues_of self.old) ⊎ Leaves (queues_of self.old) (queues_of self.new) slot) }
        ensures unread { is_reading_in (get (slots_of self.old) slot) ≡ false → (result ≡ None) × (self.new ≡ self.old) }
        ensures unwanted { wanted_at (get (slots_of self.old) slot) ≡ 0 → (result ≡ None) × (self.new ≡ self.old) }
        ensures enough { held_in (slots_of self.old) + growth_at (get (slots_of self.old) slot)
            ≤ read_within (bounds_of self.old) (is_large_in (get (slots_of self.old) slot))
            → (other : ℕ) → other ≢ slot → get (slots_of self.new) other ≡ get (slots_of self.old) other }
        ensures too_many { has_room_to_read_in (bounds_of self.old) now (slots_of self.old) slot ≡ false
            → (other : ℕ) → other ≢ slot → get (slots_of self.new) other ≡ get (slots_of self.old) other }
        ensures no_room { has_room_to_read_in (bounds_of self.old) now (slots_of self.old) slot ≡ false
            → is_reading_in (get (slots_of self.old) slot) ≡ true → Happens 0 (slots_of self.old) (slots_of self.new) slot failed }
        ensures fits { is_reading_in (get (slots_of self.old) slot) ≡ true → is_ended_in (get (slots_of self.new) slot) ≡ false
            → held_in (slots_of self.new) ≤ read_within (bounds_of self.old) (is_large_in (get (slots_of self.old) slot)) }
        ensures needed { IsNeeded (read_within (bounds_of self.old) (is_large_in (get (slots_of self.old) slot)))
            (growth_at (get (slots_of self.old) slot)) (for_message (bounds_of self.old) now (get (slots_of self.old) slot))
            (slots_of self.old) (slots_of self.new) slot }
        ensures rest { Rest self.old self.new }
        ensures held { held_in (slots_of self.new) ≤ held_in (slots_of self.old) + growth_at (get (slots_of self.old) slot) }
        ensures notes { NotesEnds (for_message (bounds_of self.old) now (get (slots_of self.old) slot)) (slots_of self.old) (slots_of self.new) slot
            (noted_by self.old) (noted_by self.new)
            (slot_if (is_reading_in (get (slots_of self.old) slot) && is_ended_in (get (slots_of self.new) slot)) slot) }
    {
        if !self.is_reading(slot) {
            return None;
        }
        let wanted = at_most(bytes, self.slots.bytes_to_read(slot));
        self.receive_wanted(slot, wanted, now)
    }

    // These bytes came, all of which are wanted.
    #[tactic(auto, using(crate::proofs::RoomLemmas::happens_with_room))]
    fn receive_wanted(&mut self, slot: usize, bytes: &[u8], now: u64) -> Option<usize>
        requires reading { is_reading_in (get (slots_of self.old) slot) ≡ true }
        ensures queued { IfSome result (λ worker. HappensWithRoom (for_message (bounds_of self.old) now
            (get (slots_of self.old) slot)) now (slots_of self.old) (slots_of self.new) slot (came bytes.now)) }
        ensures joins { IfSome result (λ worker. Becomes (queues_of self.old) (queues_of self.new) worker (queue_of self.old worker ++ slot ∷ [])) }
        ensures worker { IfSome result (λ worker. IfSome (get (slots_of self.old) slot) (λ c. worker ≡ c.number % workers_of self.old)) }
        ensures within { IfSome result (λ worker. worker < workers_of self.new) }
        ensures waits { IfSome result (λ worker. waits_for (workers_of self.new) (get (slots_of self.new) slot) ≡ Some worker) }
        ensures read { IfNone result (HappensWithRoom (for_message (bounds_of self.old) now
            (get (slots_of self.old) slot)) now (slots_of self.old) (slots_of self.new) slot (came bytes.now)
            ⊎ HappensWithRoom (for_message (bounds_of self.old) now (get (slots_of self.old) slot)) 0 (slots_of self.old) (slots_of self.new) slot failed) }
        ensures stays { IfNone result ((queues_of self.new ≡ queues_of self.old) ⊎ Leaves (queues_of self.old) (queues_of self.new) slot) }
        ensures enough { held_in (slots_of self.old) + growth_at (get (slots_of self.old) slot)
            ≤ read_within (bounds_of self.old) (is_large_in (get (slots_of self.old) slot))
            → (other : ℕ) → other ≢ slot → get (slots_of self.new) other ≡ get (slots_of self.old) other }
        ensures too_many { has_room_to_read_in (bounds_of self.old) now (slots_of self.old) slot ≡ false
            → (other : ℕ) → other ≢ slot → get (slots_of self.new) other ≡ get (slots_of self.old) other }
        ensures no_room { has_room_to_read_in (bounds_of self.old) now (slots_of self.old) slot ≡ false
            → Happens 0 (slots_of self.old) (slots_of self.new) slot failed }
        ensures fits { is_ended_in (get (slots_of self.new) slot) ≡ false
            → held_in (slots_of self.new) ≤ read_within (bounds_of self.old) (is_large_in (get (slots_of self.old) slot)) }
        ensures needed { IsNeeded (read_within (bounds_of self.old) (is_large_in (get (slots_of self.old) slot)))
            (growth_at (get (slots_of self.old) slot)) (for_message (bounds_of self.old) now (get (slots_of self.old) slot))
            (slots_of self.old) (slots_of self.new) slot }
        ensures rest { Rest self.old self.new }
        ensures held { held_in (slots_of self.new) ≤ held_in (slots_of self.old) + growth_at (get (slots_of self.old) slot) }
        ensures notes { NotesEnds (for_message (bounds_of self.old) now (get (slots_of self.old) slot)) (slots_of self.old) (slots_of self.new) slot
            (noted_by self.old) (noted_by self.new)
            (slot_if (is_reading_in (get (slots_of self.old) slot) && is_ended_in (get (slots_of self.new) slot)) slot) }
    {
        if !self.find_room_to_read(slot, now) {
            self.fail(slot);
            return None;
        }
        let number = self.slots.number(slot)?;
        let worker = self.queues.worker_of(number);
        if !self.queues.reserve(worker) {
            self.fail(slot);
            return None;
        }
        match self.slots.receive(slot, bytes, now) {
            Err(_) => {
                self.note(slot);
                None
            }
            Ok(false) => None,
            Ok(true) => {
                self.queues.put(worker, slot);
                Some(worker)
            }
        }
    }
}
