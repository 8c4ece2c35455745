//! The table that the next history opens with.
ghost use Rattle.std.specs.Prelude.{◌≡◌, ◌≤◌, ◌<◌, ◌^◌, IfOk, OnErr, length};

use super::Table;
use std::alloc::AllocError;

/// The most ids that may be carried over into a further history, some 400 GB of them: their number, with those of a
/// whole history, has to be a `u32`.
pub const MOST_CARRIED: u32 = 0x8000_0000;

impl Table {
    /// The table as a further history opens with it: all that it holds stays, its used ids, its clock and the count of
    /// new keys too, and its events and changes are counted from 0 again. Refused if more than 2^31 ids are held, as
    /// the memory that they would take is.
    pub fn for_next_history(self) -> Result<Table, AllocError>
        ensures value { IfOk result (λ t. t ≡ record self { events = 0; seen = 0 }) }
        ensures refused { OnErr result (2 ^ 31 < length self.state.used) }
    {
        if self.used.len() > MOST_CARRIED as usize {
            return Err(AllocError);
        }
        Ok(Table {
            events: 0,
            seen: 0,
            ..self
        })
    }

    /// This table as a further history opens with it that goes on from a closed one: the used ids, the clock and
    /// whether the journal is broken are those of the closed table, all else is this one's. Events and changes are
    /// counted from 0. At most `MOST_CARRIED` ids are held.
    pub fn going_on_from(self, closed: Table) -> Table
        requires few { length closed.state.used ≤ 2 ^ 31 }
        ensures value { result ≡ record self {
          state = record self.state {
            used = closed.state.used;
            clock = closed.state.clock;
            broken = closed.state.broken;
          };
          events = 0;
          seen = 0;
        } }
    {
        let Table {
            used,
            clock,
            broken,
            ..
        } = closed;
        Table {
            used,
            clock,
            broken,
            events: 0,
            seen: 0,
            ..self
        }
    }
}
