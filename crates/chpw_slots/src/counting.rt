//! How many connections are in which stage.
ghost use Rattle.std.specs.Prelude.{◌≡◌};
ghost use Rattle.slab.specs.Slab.{get};
ghost use Rattle.chpw_connection.specs.Counting.{one_at};
ghost use Rattle.chpw_slots.specs.Counting.{count_in};

use crate::slots::Slots;
use chpw_connection::CountedStage;

impl Slots {
    /// How many are in this stage.
    pub fn count(&self, which: CountedStage) -> usize
        ensures value { result ≡ count_in which self.now.connections }
    {
        let mut count = 0;
        for slot in 0..self.capacity() {
            count += self.one(slot, which);
        }
        count
    }

    // One if the connection in a slot is in this stage, otherwise none.
    fn one(&self, slot: usize, which: CountedStage) -> usize
        ensures value { result ≡ one_at which (get self.now.connections slot) }
    {
        match self.get(slot) {
            Some(connection) if connection.is_counted(which) => 1,
            _ => 0,
        }
    }
}
