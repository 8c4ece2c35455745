//! Which slots wait for a worker, and which are noted for the caller.
ghost use Rattle.std.specs.Prelude.{◌≡◌, ◌∷◌, [], nat_lt, length, IfSome, IfNone};
ghost use Rattle.chpw_connections.specs.Held.{slots_of, changed_of, Notes};
ghost use Rattle.chpw_connections.specs.Rest.{Rest};
ghost use Rattle.chpw_connections.specs.Queues.{queues_of, queue_of, EachWaits};
ghost use Rattle.chpw_connections.specs.Noting.{noted_by, room_to_note, NotesEach, slot_if};

use crate::set::Connections;

impl Connections {
    /// Whether a message waits for a worker. Each that waits is in its worker's queue, once.
    pub fn has_message(&self, worker: usize) -> bool
        ensures value { result ≡ nat_lt 0 (length (queue_of self.now worker)) }
        ensures waiting { EachWaits self.now }
    {
        self.queues.has(worker)
    }

    // Notes a slot for the caller.
    pub(crate) fn note(&mut self, slot: usize)
        ensures notes { Notes self.old self.new slot }
        ensures noted { NotesEach (noted_by self.old) (noted_by self.new) (slot ∷ []) }
        ensures slots { slots_of self.new ≡ slots_of self.old }
        ensures queues { queues_of self.new ≡ queues_of self.old }
        ensures rest { Rest self.old self.new }
    {
        let _ = self.changed.push_back(slot);
    }

    // Notes a slot for the caller, if something changed for its connection.
    pub(crate) fn note_where(&mut self, is_changed: bool, slot: usize)
        ensures notes { NotesEach (noted_by self.old) (noted_by self.new) (slot_if is_changed slot) }
        ensures slots { slots_of self.new ≡ slots_of self.old }
        ensures queues { queues_of self.new ≡ queues_of self.old }
        ensures rest { Rest self.old self.new }
    {
        if is_changed {
            self.note(slot);
        }
    }

    /// A slot that needs attention: its connection was said to have no reply; its reply no longer waits for a
    /// confirmation (`confirm`, `overdue`); it has ended, or is gone while a worker still answers; or `look_again`
    /// named it. Each is given once for each time, in the order of their coming, if there was memory to note it. What
    /// `accept`, `receive`, `take`, `answer`, `defer` and `wrote` do to a connection that doesn't end is not noted.
    /// Meanwhile the slot may be free, or another connection's: `todo` says what is to be done.
    pub fn take_changed(&mut self) -> Option<usize>
        ensures first { IfSome result (λ slot. changed_of self.old ≡ slot ∷ changed_of self.new) }
        ensures none { IfNone result ((changed_of self.old ≡ []) × (changed_of self.new ≡ [])) }
        ensures room { room_to_note self.new ≡ room_to_note self.old }
        ensures slots { slots_of self.new ≡ slots_of self.old }
        ensures queues { queues_of self.new ≡ queues_of self.old }
        ensures rest { Rest self.old self.new }
    {
        self.changed.pop_front()
    }

    /// Whether a slot needs attention.
    pub fn has_changed(&self) -> bool
        ensures value { result ≡ nat_lt 0 (length (changed_of self.now)) }
    {
        !self.changed.is_empty()
    }

    /// Notes a slot for whose connection more is to be done than was done for now.
    pub fn look_again(&mut self, slot: usize)
        ensures notes { Notes self.old self.new slot }
        ensures noted { NotesEach (noted_by self.old) (noted_by self.new) (slot ∷ []) }
        ensures slots { slots_of self.new ≡ slots_of self.old }
        ensures queues { queues_of self.new ≡ queues_of self.old }
        ensures rest { Rest self.old self.new }
    {
        self.note(slot);
    }
}
