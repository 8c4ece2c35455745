//! What workers take, and what they did about it.
ghost use Rattle.std.specs.Prelude.{◌≡◌, ◌≢◌, ◌+◌, ◌≤◌, ◌&&◌, ℕ, not, true, false, IfSome, IfNone, IsSome, Some, ◌⊎◌};
ghost use Rattle.std.specs.Prelude.{◌∷◌, [], length, drop};
ghost use Rattle.slab.specs.Slab.{get};
ghost use Rattle.chpw_slots.specs.Slots.{held_in, Happens};
ghost use Rattle.chpw_connection.specs.Messages.{IsPiece};
ghost use Rattle.chpw_connection.specs.Stages.{taken as is_taken, replied, deferred, unanswered};
ghost use Rattle.chpw_connection.specs.Slot.{queued_at, is_answering_in, is_with_worker_in};
ghost use Rattle.chpw_connection.specs.Late.{is_late_in};
ghost use Rattle.chpw_connections.specs.Room.{HappensWithRoom, IsNeeded, for_reply};
ghost use Rattle.chpw_slots.specs.Longest.{has_room_besides};
ghost use Rattle.chpw_connections.specs.Queues.{queues_of, queue_of, workers_of, DropsLate};
ghost use Rattle.chpw_slots.specs.Waiting.{Becomes};
ghost use Rattle.chpw_connections.specs.Held.{slots_of, accepted_by, removed_by, expired_by, bounds_of, Counts};
ghost use Rattle.chpw_connections.specs.Rest.{Rest};
ghost use Rattle.chpw_connections.specs.Noting.{noted_by, NotesEach, NotesEnds, slot_if};
ghost use Rattle.chpw_connections.specs.Turns.{slot_of, ends_of, message_of};

use crate::kdc_change::KdcChange;
use crate::set::Connections;
use chpw_connection::{ConnectionEvent, WholeMessage};
use chpw_endpoints::Endpoints;

/// A message that a worker took, with its two addresses. Only `Connections::take` makes one, and it is used up by what the worker
/// did about it: by `answer`, `defer` or `leave_unanswered`. So each is answered once, and its reply goes to the
/// connection that it came from. It can't be dropped.
pub struct TakenMessage {
    slot: usize,
    ends: Endpoints,
    message: WholeMessage,
}

impl TakenMessage {
    /// The slot of its connection.
    pub fn slot(&self) -> usize
        ensures value { result ≡ slot_of self.now }
    {
        self.slot
    }

    /// The two addresses of its connection.
    pub fn ends(&self) -> Endpoints
        ensures value { result ≡ ends_of self.now }
    {
        self.ends
    }

    /// Its length in four bytes, and then its bytes; of one that is too long its length alone.
    #[tactic(auto, using(chpw_connection::proofs::PieceLemmas::whole_is_piece))]
    pub fn message(&self) -> &[u8]
        ensures value { result.now ≡ message_of self.now }
        ensures piece { IsPiece (message_of self.now) }
    {
        self.message.bytes.as_slice()
    }
}

/// A reply as it is sent, with its length before it.
#[derive(Drop)]
pub struct Reply {
    pub bytes: Vec<u8>,
    /// Whether the connection ends after it.
    pub is_last: bool,
}

/// What a worker did about a message that it took.
pub struct Turn {
    pub taken: TakenMessage,
    /// Its reply, if there is one.
    pub reply: Option<Reply>,
    /// What it leaves to be put into the KDC's database.
    pub change: KdcChange,
}

impl Connections {
    /// The message at the front of a worker's queue, which has waited there longest. None if none waits, and if it has
    /// waited too long: its connection has ended then, and the next one may be taken.
    pub fn take(&mut self, worker: usize, now: u64) -> Option<TakenMessage>
        ensures message { IfSome result (λ t. queued_at (get (slots_of self.old) (slot_of t)) ≡ Some (message_of t)) }
        ensures in_time { IfSome result (λ t. is_late_in (bounds_of self.old) now (get (slots_of self.old) (slot_of t)) ≡ false) }
        ensures happens { IfSome result (λ t. Happens 0 (slots_of self.old) (slots_of self.new) (slot_of t) is_taken) }
        ensures ends { IfSome result (λ t. IfSome (get (slots_of self.old) (slot_of t)) (λ c. ends_of t ≡ c.ends)) }
        ensures first { IfSome result (λ t. queue_of self.old worker ≡ slot_of t ∷ queue_of self.new worker) }
        ensures others { (other : ℕ) → other ≢ worker → queue_of self.new other ≡ queue_of self.old other }
        ensures none { IfNone result (((queue_of self.old worker ≡ []) × (self.new ≡ self.old)) ⊎ DropsLate now self.old self.new worker) }
        ensures workers { workers_of self.new ≡ workers_of self.old }
        ensures counts { Counts self.new (accepted_by self.old) (removed_by self.old) }
        ensures expired { IfSome result (λ t. expired_by self.new ≡ expired_by self.old) }
        ensures held { held_in (slots_of self.new) ≤ held_in (slots_of self.old) }
        ensures bounds { bounds_of self.new ≡ bounds_of self.old }
        ensures notes { IfSome result (λ t. noted_by self.new ≡ noted_by self.old) }
    {
        let slot = self.queues.first(worker)?;
        if self.is_late(slot, now) {
            self.expired = self.expired.saturating_add(1);
            self.fail(slot);
            return None;
        }
        self.take_first(worker, slot)
    }

    // The message in the slot at the front of a worker's queue.
    fn take_first(&mut self, worker: usize, slot: usize) -> Option<TakenMessage>
        requires first { queue_of self.old worker ≡ slot ∷ drop 1 (queue_of self.old worker) }
        ensures some { IsSome result }
        ensures message { IfSome result (λ t. queued_at (get (slots_of self.old) slot) ≡ Some (message_of t)) }
        ensures happens { IfSome result (λ t. (slot_of t ≡ slot) × Happens 0 (slots_of self.old) (slots_of self.new) slot is_taken) }
        ensures ends { IfSome result (λ t. IfSome (get (slots_of self.old) slot) (λ c. ends_of t ≡ c.ends)) }
        ensures becomes { Becomes (queues_of self.old) (queues_of self.new) worker (drop 1 (queue_of self.old worker)) }
        ensures rest { Rest self.old self.new }
        ensures held { held_in (slots_of self.new) ≤ held_in (slots_of self.old) }
        ensures notes { noted_by self.new ≡ noted_by self.old }
    {
        let ends = self.slots.ends(slot);
        let taken = self.slots.take(slot);
        self.queues.drop_first(worker);
        let message = taken?;
        Some(TakenMessage {
            slot,
            ends,
            message,
        })
    }

    /// A worker's reply to the message that it took, to be written now; after the last reply the connection ends. If
    /// all together would hold more than allowed, others that hold bytes and wait for their clients are ended to make
    /// room, longest under way first, but nobody if that isn't enough; without room it isn't sent, and the connection
    /// ends. For a connection that is gone no room is made: the reply is dropped.
    #[tactic(auto, using(crate::proofs::RoomLemmas::happens_with_room))]
    pub fn answer(&mut self, taken: TakenMessage, reply: Vec<u8>, is_last: bool, now: u64)
        ensures happens { HappensWithRoom (for_reply now) now (slots_of self.old) (slots_of self.new) (slot_of taken)
            (replied reply.items is_last)
            ⊎ HappensWithRoom (for_reply now) now (slots_of self.old) (slots_of self.new) (slot_of taken) unanswered }
        ensures enough { held_in (slots_of self.old) + length reply.items ≤ (bounds_of self.old).bytes
            → Happens now (slots_of self.old) (slots_of self.new) (slot_of taken) (replied reply.items is_last) }
        ensures sent { has_room_besides (bounds_of self.old).bytes (for_reply now) (slots_of self.old) (slot_of taken)
            (length reply.items) ≡ true
            → is_answering_in (get (slots_of self.old) (slot_of taken)) ≡ true
            → HappensWithRoom (for_reply now) now (slots_of self.old) (slots_of self.new) (slot_of taken) (replied reply.items is_last) }
        ensures too_much { has_room_besides (bounds_of self.old).bytes (for_reply now) (slots_of self.old) (slot_of taken)
            (length reply.items) ≡ false
            → Happens now (slots_of self.old) (slots_of self.new) (slot_of taken) unanswered }
        ensures needed { IsNeeded (bounds_of self.old).bytes (length reply.items) (for_reply now)
            (slots_of self.old) (slots_of self.new) (slot_of taken) }
        ensures unwanted { is_answering_in (get (slots_of self.old) (slot_of taken)) ≡ false
            → Happens now (slots_of self.old) (slots_of self.new) (slot_of taken) unanswered }
        ensures rest { Rest self.old self.new }
        ensures held { held_in (slots_of self.new) ≤ held_in (slots_of self.old) + length reply.items }
        ensures notes { NotesEnds (for_reply now) (slots_of self.old) (slots_of self.new) (slot_of taken) (noted_by self.old) (noted_by self.new)
            (slot_if (not (is_answering_in (get (slots_of self.old) (slot_of taken))
            && has_room_besides (bounds_of self.old).bytes (for_reply now) (slots_of self.old) (slot_of taken) (length reply.items))
            && is_with_worker_in (get (slots_of self.old) (slot_of taken))) (slot_of taken)) }
        ensures queues { queues_of self.new ≡ queues_of self.old }
    {
        let TakenMessage {
            slot,
            ends: _,
            message: _,
        } = taken;
        if self.find_room_to_reply(slot, reply.len(), now) {
            let change = ConnectionEvent::Answered { reply, is_last };
            self.slots.change(self.alloc, slot, change, now);
        } else {
            self.end_unanswered(slot, now);
        }
    }

    /// A worker's reply to the message that it took, to be written once the change with this ticket is confirmed
    /// (`confirm`), or the reply has waited too long (`overdue`, `drop_overdue`). After the last reply the connection
    /// ends. Room is made for it as `answer` does; without room it isn't sent, and the connection ends. For a connection
    /// that is gone no room is made: the reply is dropped.
    #[tactic(auto, using(crate::proofs::RoomLemmas::happens_with_room))]
    pub fn defer(
        &mut self,
        taken: TakenMessage,
        reply: Vec<u8>,
        is_last: bool,
        ticket: u64,
        now: u64,
    )
        ensures happens { HappensWithRoom (for_reply now) now (slots_of self.old) (slots_of self.new) (slot_of taken)
            (deferred reply.items is_last ticket)
            ⊎ HappensWithRoom (for_reply now) now (slots_of self.old) (slots_of self.new) (slot_of taken) unanswered }
        ensures enough { held_in (slots_of self.old) + length reply.items ≤ (bounds_of self.old).bytes
            → Happens now (slots_of self.old) (slots_of self.new) (slot_of taken) (deferred reply.items is_last ticket) }
        ensures sent { has_room_besides (bounds_of self.old).bytes (for_reply now) (slots_of self.old) (slot_of taken)
            (length reply.items) ≡ true
            → is_answering_in (get (slots_of self.old) (slot_of taken)) ≡ true
            → HappensWithRoom (for_reply now) now (slots_of self.old) (slots_of self.new) (slot_of taken) (deferred reply.items is_last ticket) }
        ensures too_much { has_room_besides (bounds_of self.old).bytes (for_reply now) (slots_of self.old) (slot_of taken)
            (length reply.items) ≡ false
            → Happens now (slots_of self.old) (slots_of self.new) (slot_of taken) unanswered }
        ensures needed { IsNeeded (bounds_of self.old).bytes (length reply.items) (for_reply now)
            (slots_of self.old) (slots_of self.new) (slot_of taken) }
        ensures unwanted { is_answering_in (get (slots_of self.old) (slot_of taken)) ≡ false
            → Happens now (slots_of self.old) (slots_of self.new) (slot_of taken) unanswered }
        ensures rest { Rest self.old self.new }
        ensures held { held_in (slots_of self.new) ≤ held_in (slots_of self.old) + length reply.items }
        ensures notes { NotesEnds (for_reply now) (slots_of self.old) (slots_of self.new) (slot_of taken) (noted_by self.old) (noted_by self.new)
            (slot_if (not (is_answering_in (get (slots_of self.old) (slot_of taken))
            && has_room_besides (bounds_of self.old).bytes (for_reply now) (slots_of self.old) (slot_of taken) (length reply.items))
            && is_with_worker_in (get (slots_of self.old) (slot_of taken))) (slot_of taken)) }
        ensures queues { queues_of self.new ≡ queues_of self.old }
    {
        let TakenMessage {
            slot,
            ends: _,
            message: _,
        } = taken;
        if self.find_room_to_reply(slot, reply.len(), now) {
            let change = ConnectionEvent::Deferred {
                reply,
                is_last,
                ticket,
            };
            self.slots.change(self.alloc, slot, change, now);
        } else {
            self.end_unanswered(slot, now);
        }
    }

    /// A worker has no reply to the message that it took. The connection ends.
    pub fn leave_unanswered(&mut self, taken: TakenMessage, now: u64)
        ensures happens { Happens now (slots_of self.old) (slots_of self.new) (slot_of taken) unanswered }
        ensures rest { Rest self.old self.new }
        ensures held { held_in (slots_of self.new) ≤ held_in (slots_of self.old) }
        ensures notes { NotesEach (noted_by self.old) (noted_by self.new)
            (slot_if (is_with_worker_in (get (slots_of self.old) (slot_of taken))) (slot_of taken)) }
        ensures queues { queues_of self.new ≡ queues_of self.old }
    {
        let TakenMessage {
            slot,
            ends: _,
            message: _,
        } = taken;
        self.end_unanswered(slot, now);
    }

    // The connection in a slot, whose message a worker has, ends without a reply.
    #[tactic(auto, using(chpw_slots::proofs::HoldsLemmas::holds_quiet))]
    fn end_unanswered(&mut self, slot: usize, now: u64)
        ensures happens { Happens now (slots_of self.old) (slots_of self.new) slot unanswered }
        ensures rest { Rest self.old self.new }
        ensures held { held_in (slots_of self.new) ≤ held_in (slots_of self.old) }
        ensures notes { NotesEach (noted_by self.old) (noted_by self.new) (slot_if (is_with_worker_in (get (slots_of self.old) slot)) slot) }
        ensures queues { queues_of self.new ≡ queues_of self.old }
    {
        let is_with_worker = self.is_with_worker(slot);
        self.slots
            .change(self.alloc, slot, ConnectionEvent::Unanswered, now);
        self.note_where(is_with_worker, slot);
    }
}
