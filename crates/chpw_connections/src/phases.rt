//! In which stages connections are, and what is to be done for them.
ghost use Rattle.std.specs.Prelude.{◌≡◌, is_some};
ghost use Rattle.slab.specs.Slab.{get};
ghost use Rattle.chpw_connection.specs.Slot.{queued_at, is_reading_in, is_answering_in, is_with_worker_in, is_gone_in};
ghost use Rattle.chpw_connection.specs.Todos.{todo_in};
ghost use Rattle.chpw_slots.specs.Counting.{count_in};
ghost use Rattle.chpw_connections.specs.Held.{slots_of};

use crate::set::Connections;
use chpw_connection::{CountedStage, Phase, Todo};

impl Connections {
    /// What is to be done for the connection in a slot.
    pub fn todo(&self, slot: usize) -> Todo
        ensures value { result ≡ todo_in (get (slots_of self.now) slot) }
    {
        match self.slots.get(slot) {
            None => Todo::Wait,
            Some(connection) => connection.todo(),
        }
    }

    /// How many are in this stage.
    pub fn count(&self, which: CountedStage) -> usize
        ensures value { result ≡ count_in which (slots_of self.now) }
    {
        self.slots.count(which)
    }

    /// Whether the connection in a slot reads a message.
    pub(crate) fn is_reading(&self, slot: usize) -> bool
        ensures value { result ≡ is_reading_in (get (slots_of self.now) slot) }
    {
        match self.slots.get(slot) {
            None => false,
            Some(connection) => matches!(connection.phase, Phase::Reading(_)),
        }
    }

    /// Whether a worker answers the message of the connection in a slot, which isn't gone.
    pub(crate) fn is_answering(&self, slot: usize) -> bool
        ensures value { result ≡ is_answering_in (get (slots_of self.now) slot) }
    {
        match self.slots.get(slot) {
            None => false,
            Some(connection) => matches!(connection.phase, Phase::Answering(_)),
        }
    }

    /// Whether a worker answers the message of the connection in a slot, gone or not.
    pub(crate) fn is_with_worker(&self, slot: usize) -> bool
        ensures value { result ≡ is_with_worker_in (get (slots_of self.now) slot) }
    {
        match self.slots.get(slot) {
            None => false,
            Some(connection) => {
                matches!(connection.phase, Phase::Answering(_) | Phase::Abandoned)
            }
        }
    }

    /// Whether there is no connection in a slot, or one that has ended or is gone.
    pub(crate) fn is_gone(&self, slot: usize) -> bool
        ensures value { result ≡ is_gone_in (get (slots_of self.now) slot) }
    {
        match self.slots.get(slot) {
            None => true,
            Some(connection) => matches!(connection.phase, Phase::Abandoned | Phase::Ended),
        }
    }

    /// Whether the message of the connection in a slot waits for a worker.
    pub(crate) fn is_waiting(&self, slot: usize) -> bool
        ensures value { result ≡ is_some (queued_at (get (slots_of self.now) slot)) }
    {
        match self.slots.get(slot) {
            None => false,
            Some(connection) => matches!(connection.phase, Phase::Queued(_)),
        }
    }
}
